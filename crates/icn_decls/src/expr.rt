// The first context rule that an expression breaks.
ghost use Rattle.std.specs.Prelude.{◌≡◌, false};
ghost use Rattle.icn_tree.specs.TreeOf.{tree_of, all_of, clause_of, all_clauses_of};
ghost use Rattle.icn_decls.specs.Contexts.{enter_loop};
ghost use Rattle.icn_decls.specs.Faults.{faults, all_faults, clauses_faults, clause_faults, is_default, default_faults, next_in_control};
ghost use Rattle.icn_decls.specs.Views.{context_of, first_of, fault_of};

use crate::context::{Context, Loops};
use crate::fault::Broken;
use icn_tree::{Clause, Expr, LoopKind, Place, Rule};

/// Checks the context rules of an expression. The error is the first rule that it breaks, in the order of places.
#[cycle(check)]
pub fn check(expr: &Expr, context: Context<'_>) -> Result<(), Broken>
    ensures { fault_of result ≡ first_of (faults (context_of context.entry) (tree_of expr.now)) }
{
    match expr {
        Expr::Empty | Expr::Literal { .. } | Expr::Identifier { .. } | Expr::Keyword { .. } => Ok(
            (),
        ),
        Expr::Parentheses { elements, .. } => check_all(elements, context),
        Expr::List { elements, .. } => check_all(elements, context),
        Expr::Compound { exprs, .. } => check_all(exprs, context),
        Expr::Call {
            callee,
            arguments,
            ..
        } => {
            check(callee, context)?;
            check_all(arguments, context)
        }
        Expr::CoCall {
            callee,
            arguments,
            ..
        } => {
            check(callee, context)?;
            check_all(arguments, Context::create_operand())
        }
        Expr::Subscript {
            subject,
            subscripts,
            ..
        } => {
            check(subject, context)?;
            check_all(subscripts, context)
        }
        Expr::Section {
            subject,
            from,
            to,
            ..
        } => {
            check(subject, context)?;
            check(from, context)?;
            check(to, context)
        }
        Expr::Field { subject, .. } => check(subject, context),
        Expr::Prefix { operand, .. } | Expr::Not { operand, .. } => check(operand, context),
        Expr::Binary { left, right, .. } => {
            check(left, context)?;
            check(right, context)
        }
        Expr::To { from, to, by, .. } => {
            check(from, context)?;
            check(to, context)?;
            match by {
                Some(by) => check(by, context),
                None => Ok(()),
            }
        }
        Expr::If {
            condition,
            then,
            otherwise,
            ..
        } => {
            check(condition, context)?;
            check(then, context)?;
            match otherwise {
                Some(otherwise) => check(otherwise, context),
                None => Ok(()),
            }
        }
        Expr::Case {
            subject,
            clauses,
            ..
        } => {
            check(subject, context)?;
            check_clauses(clauses, context)
        }
        Expr::Loop {
            kind,
            control,
            body,
            ..
        } => {
            check_looped(control, context, next_in_control(*kind))?;
            match body {
                Some(body) => check_looped(body, context, true),
                None => Ok(()),
            }
        }
        Expr::Repeat { body, .. } => check_looped(body, context, true),
        Expr::Create { body, .. } => check(body, Context::create_operand()),
        Expr::Next { place } => context.check_next(*place),
        Expr::Fail { place } => context.check_result(*place),
        Expr::Break { place, value } => {
            context.check_break(*place)?;
            check(value, context.break_operand())
        }
        Expr::Return { place, value } => {
            context.check_result(*place)?;
            check(value, context)
        }
        Expr::Suspend { place, value, body } => {
            context.check_result(*place)?;
            check(value, context)?;
            match body {
                Some(body) => check(body, context),
                None => Ok(()),
            }
        }
    }
}

// The same in one more loop, where `next` may stand or not.
#[cycle(check)]
fn check_looped(expr: &Expr, context: Context<'_>, next: bool) -> Result<(), Broken>
    ensures { fault_of result
        ≡ first_of (faults (enter_loop next (context_of context.entry)) (tree_of expr.now)) }
{
    let loops = Loops::Inside(next, context.loops);
    let inside = Context {
        in_create: context.in_create,
        loops: &loops,
    };
    check(expr, inside)
}

/// Checks the context rules of expressions in a row. The error is the first rule that they break.
#[cycle(check)]
pub fn check_all(exprs: &[Expr], context: Context<'_>) -> Result<(), Broken>
    ensures { fault_of result ≡ first_of (all_faults (context_of context.entry) (all_of exprs.now)) }
{
    for expr in exprs {
        check(expr, context)?;
    }
    Ok(())
}

// The first rule that the clauses of a `case` break.
#[cycle(check)]
fn check_clauses(clauses: &[Clause], context: Context<'_>) -> Result<(), Broken>
    ensures { fault_of result
        ≡ first_of (clauses_faults (context_of context.entry) false (all_clauses_of clauses.now)) }
{
    let mut has_default = false;
    for clause in clauses {
        check_clause(clause, context, has_default)?;
        has_default = is_default(has_default, clause);
    }
    Ok(())
}

// The first rule that a clause breaks, behind those among which a `default` was or was not.
#[cycle(check)]
fn check_clause(clause: &Clause, context: Context<'_>, has_default: bool) -> Result<(), Broken>
    ensures { fault_of result
        ≡ first_of (clause_faults (context_of context.entry) has_default (clause_of clause.now)) }
{
    match clause {
        Clause::Default { place, value } => {
            check_default(*place, has_default)?;
            check(value, context)
        }
        Clause::Guarded { guard, value, .. } => {
            check(guard, context)?;
            check(value, context)
        }
    }
}

// The rule that a `default` breaks, where another one may stand before it.
fn check_default(place: Place, has_default: bool) -> Result<(), Broken>
    ensures { fault_of result ≡ first_of (default_faults has_default place) }
{
    if has_default {
        return Err(Broken::at(place, Rule::C5));
    }
    Ok(())
}

// Whether a `default` was before, or this clause is one.
fn is_default(has_default: bool, clause: &Clause) -> bool
    ensures { result ≡ is_default has_default (clause_of clause.now) }
{
    match clause {
        Clause::Default { .. } => true,
        Clause::Guarded { .. } => has_default,
    }
}

// Whether `next` may stand in the control expression of a loop.
fn next_in_control(kind: LoopKind) -> bool
    ensures { result ≡ next_in_control kind }
{
    match kind {
        LoopKind::While | LoopKind::Until => true,
        LoopKind::Every => false,
    }
}
