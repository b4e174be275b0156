// The first unknown keyword of an expression.
ghost use Rattle.std.specs.Prelude.{◌≡◌, [], ◌∷◌};
ghost use Rattle.icn_tree.specs.TreeOf.{tree_of, all_of, clause_of, all_clauses_of};
ghost use Rattle.icn_parse.specs.Outcomes.{first_unknown, keywords, all_keywords, clause_keywords, clauses_keywords};
ghost use Rattle.icn_parse.specs.Views.{place_found};

use icn_text::keyword_named;
use icn_tree::{Clause, Expr, Name, Place};

// Whether the name behind `&` is a keyword's.
fn check_name(name: &Name) -> Result<(), Place>
    ensures { place_found result ≡ first_unknown (name.now ∷ []) }
{
    match keyword_named(name.text.as_slice()) {
        Some(_) => Ok(()),
        None => Err(name.place),
    }
}

/// Checks that an expression has no unknown keyword. The error is where the first one stands.
#[cycle(keywords)]
#[tactic(auto, using(crate::proofs::UnknownKeywords::unknown_kept, crate::proofs::UnknownKeywords::unknown_then))]
pub fn check(expr: &Expr) -> Result<(), Place>
    ensures { place_found result ≡ first_unknown (keywords (tree_of expr.now)) }
{
    match expr {
        Expr::Empty
        | Expr::Literal { .. }
        | Expr::Identifier { .. }
        | Expr::Next { .. }
        | Expr::Fail { .. } => Ok(()),
        Expr::Keyword { name, .. } => check_name(name),
        Expr::Parentheses { elements, .. } => check_all(elements),
        Expr::List { elements, .. } => check_all(elements),
        Expr::Compound { exprs, .. } => check_all(exprs),
        Expr::Call {
            callee,
            arguments,
            ..
        } => {
            check(callee)?;
            check_all(arguments)
        }
        Expr::CoCall {
            callee,
            arguments,
            ..
        } => {
            check(callee)?;
            check_all(arguments)
        }
        Expr::Subscript {
            subject,
            subscripts,
            ..
        } => {
            check(subject)?;
            check_all(subscripts)
        }
        Expr::Section {
            subject,
            from,
            to,
            ..
        } => {
            check(subject)?;
            check(from)?;
            check(to)
        }
        Expr::Field { subject, .. } => check(subject),
        Expr::Prefix { operand, .. } | Expr::Not { operand, .. } => check(operand),
        Expr::Binary { left, right, .. } => {
            check(left)?;
            check(right)
        }
        Expr::To { from, to, by, .. } => {
            check(from)?;
            check(to)?;
            match by {
                Some(by) => check(by),
                None => Ok(()),
            }
        }
        Expr::If {
            condition,
            then,
            otherwise,
            ..
        } => {
            check(condition)?;
            check(then)?;
            match otherwise {
                Some(otherwise) => check(otherwise),
                None => Ok(()),
            }
        }
        Expr::Case {
            subject,
            clauses,
            ..
        } => {
            check(subject)?;
            check_clauses(clauses)
        }
        Expr::Loop { control, body, .. } => {
            check(control)?;
            match body {
                Some(body) => check(body),
                None => Ok(()),
            }
        }
        Expr::Repeat { body, .. } | Expr::Create { body, .. } => check(body),
        Expr::Break { value, .. } | Expr::Return { value, .. } => check(value),
        Expr::Suspend { value, body, .. } => {
            check(value)?;
            match body {
                Some(body) => check(body),
                None => Ok(()),
            }
        }
    }
}

/// Checks that expressions in a row have no unknown keyword. The error is where the first one stands.
#[cycle(keywords)]
pub fn check_all(exprs: &[Expr]) -> Result<(), Place>
    ensures { place_found result ≡ first_unknown (all_keywords (all_of exprs.now)) }
{
    for expr in exprs {
        check(expr)?;
    }
    Ok(())
}

// Where the first unknown keyword of the clauses of a `case` stands.
#[cycle(keywords)]
fn check_clauses(clauses: &[Clause]) -> Result<(), Place>
    ensures { place_found result ≡ first_unknown (clauses_keywords (all_clauses_of clauses.now)) }
{
    for clause in clauses {
        check_clause(clause)?;
    }
    Ok(())
}

// Where the first unknown keyword of a clause stands.
#[cycle(keywords)]
fn check_clause(clause: &Clause) -> Result<(), Place>
    ensures { place_found result ≡ first_unknown (clause_keywords (clause_of clause.now)) }
{
    match clause {
        Clause::Default { value, .. } => check(value),
        Clause::Guarded { guard, value, .. } => {
            check(guard)?;
            check(value)
        }
    }
}
