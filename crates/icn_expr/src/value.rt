// Trees with their heights, of which those that are too high are not kept.
ghost use Rattle.std.specs.Prelude.{◌≡◌, ◌<◌, Some, None, IfOk, box_value};
ghost use Rattle.icn_tree.specs.Trees.{Parentheses, Listing, Compound, Call, CoCall, Subscript, Case};
ghost use Rattle.icn_tree.specs.TreeOf.{tree_of, all_of, all_clauses_of};
ghost use Rattle.std.specs.Option.{option_map};
ghost use Rattle.icn_profile.specs.Numbers.{highest_tree};
ghost use Rattle.icn_expr.specs.Capped.{builds_with_height, kept_tree};
ghost use Rattle.icn_expr.specs.Views.{capped_of, elements_of, branches_of};

use icn_profile::HIGHEST_TREE;
use icn_tree::{Clause, Expr, Infix, Literal, LoopKind, Name, Operator, Place, SectionKind};
use std::alloc::{AllocError, Global};

/// The greatest height of a tree that is kept.
const HIGHEST: u32 = HIGHEST_TREE;

/// A tree with its height. Of a tree that is higher than 2000 only a height above that is kept.
#[derive(Drop)]
pub struct CappedTree {
    pub expr: Expr,
    pub height: u32,
}

/// The elements of a list so far, with the height of the highest.
#[derive(Drop)]
pub struct Elements {
    pub exprs: Vec<Expr>,
    pub height: u32,
}

/// The clauses of a `case` so far, with the height of the highest part.
#[derive(Drop)]
pub struct Branches {
    pub clauses: Vec<Clause>,
    pub height: u32,
}

/// What is too high is let go.
pub fn discard(value: CappedTree) {
    drop(value);
}

/// Elements that no tree takes are let go.
pub fn discard_elements(elements: Elements) {
    drop(elements);
}

/// Branches that no tree takes are let go.
pub fn discard_branches(branches: Branches) {
    drop(branches);
}

fn too_high() -> CappedTree
    ensures { highest_tree < result.height }
{
    CappedTree {
        expr: Expr::Empty,
        height: HIGHEST + 1,
    }
}

fn parentheses_expr(place: Place, elements: Vec<Expr>) -> Expr
    ensures { tree_of result ≡ Parentheses place (all_of elements.items) }
{
    Expr::Parentheses { place, elements }
}

fn list_expr(place: Place, elements: Vec<Expr>) -> Expr
    ensures { tree_of result ≡ Listing place (all_of elements.items) }
{
    Expr::List { place, elements }
}

fn compound_expr(place: Place, exprs: Vec<Expr>) -> Expr
    ensures { tree_of result ≡ Compound place (all_of exprs.items) }
{
    Expr::Compound { place, exprs }
}

fn call_expr(place: Place, callee: Box<Expr>, arguments: Vec<Expr>) -> Expr
    ensures { tree_of result ≡ Call place (tree_of (box_value callee)) (all_of arguments.items) }
{
    Expr::Call {
        place,
        callee,
        arguments,
    }
}

fn co_call_expr(place: Place, callee: Box<Expr>, arguments: Vec<Expr>) -> Expr
    ensures { tree_of result ≡ CoCall place (tree_of (box_value callee)) (all_of arguments.items) }
{
    Expr::CoCall {
        place,
        callee,
        arguments,
    }
}

fn subscript_expr(place: Place, subject: Box<Expr>, subscripts: Vec<Expr>) -> Expr
    ensures { tree_of result ≡ Subscript place (tree_of (box_value subject)) (all_of subscripts.items) }
{
    Expr::Subscript {
        place,
        subject,
        subscripts,
    }
}

fn case_expr(place: Place, subject: Box<Expr>, clauses: Vec<Clause>) -> Expr
    ensures { tree_of result ≡ Case place (tree_of (box_value subject)) (all_clauses_of clauses.items) }
{
    Expr::Case {
        place,
        subject,
        clauses,
    }
}

impl CappedTree {
    /// The tree, unless it is higher than 2000.
    pub fn into_expr(self) -> Option<Expr>
        ensures { option_map tree_of result ≡ kept_tree (capped_of self) }
    {
        if self.height > HIGHEST {
            discard(self);
            return None;
        }
        Some(self.expr)
    }

    /// Nothing.
    pub fn empty() -> CappedTree
        ensures { capped_of result ≡ builds_with_height.empty }
    {
        CappedTree {
            expr: Expr::Empty,
            height: 1,
        }
    }

    /// A literal.
    pub fn constant(place: Place, value: Literal) -> CappedTree
        ensures { capped_of result ≡ builds_with_height.constant place value }
    {
        CappedTree {
            expr: Expr::Literal { place, value },
            height: 1,
        }
    }

    /// An identifier.
    pub fn identifier(name: Name) -> CappedTree
        ensures { capped_of result ≡ builds_with_height.identifier name }
    {
        CappedTree {
            expr: Expr::Identifier { name },
            height: 1,
        }
    }

    /// `&name`.
    pub fn keyword(place: Place, name: Name) -> CappedTree
        ensures { capped_of result ≡ builds_with_height.keyword place name }
    {
        CappedTree {
            expr: Expr::Keyword { place, name },
            height: 1,
        }
    }

    /// `next`.
    pub fn next(place: Place) -> CappedTree
        ensures { capped_of result ≡ builds_with_height.next_form place }
    {
        CappedTree {
            expr: Expr::Next { place },
            height: 1,
        }
    }

    /// `fail`.
    pub fn fail(place: Place) -> CappedTree
        ensures { capped_of result ≡ builds_with_height.fail_form place }
    {
        CappedTree {
            expr: Expr::Fail { place },
            height: 1,
        }
    }

    /// `(a, b)`.
    pub fn parentheses(place: Place, elements: Elements) -> CappedTree
        ensures { capped_of result ≡ builds_with_height.parentheses place (elements_of elements) }
    {
        let height = elements.height;
        if height >= HIGHEST {
            discard_elements(elements);
            return too_high();
        }
        CappedTree {
            height: height + 1,
            expr: parentheses_expr(place, elements.exprs),
        }
    }

    /// `[a, b]`.
    pub fn list(place: Place, elements: Elements) -> CappedTree
        ensures { capped_of result ≡ builds_with_height.listing place (elements_of elements) }
    {
        let height = elements.height;
        if height >= HIGHEST {
            discard_elements(elements);
            return too_high();
        }
        CappedTree {
            height: height + 1,
            expr: list_expr(place, elements.exprs),
        }
    }

    /// `{a; b}`.
    pub fn compound(place: Place, exprs: Elements) -> CappedTree
        ensures { capped_of result ≡ builds_with_height.compound place (elements_of exprs) }
    {
        let height = exprs.height;
        if height >= HIGHEST {
            discard_elements(exprs);
            return too_high();
        }
        CappedTree {
            height: height + 1,
            expr: compound_expr(place, exprs.exprs),
        }
    }

    /// `f(a, b)`. An error is want of memory.
    pub fn call(
        alloc: Global,
        place: Place,
        callee: CappedTree,
        arguments: Elements,
    ) -> Result<CappedTree, AllocError>
        ensures { IfOk result
            (λ built. capped_of built
            ≡ builds_with_height.call place (capped_of callee) (elements_of arguments)) }
    {
        let height = callee.height.max(arguments.height);
        if height >= HIGHEST {
            discard(callee);
            discard_elements(arguments);
            return Ok(too_high());
        }
        Ok(CappedTree {
            height: height + 1,
            expr: call_expr(place, Box::new(alloc, callee.expr)?, arguments.exprs),
        })
    }

    /// `p{a, b}`. An error is want of memory.
    pub fn co_call(
        alloc: Global,
        place: Place,
        callee: CappedTree,
        arguments: Elements,
    ) -> Result<CappedTree, AllocError>
        ensures { IfOk result
            (λ built. capped_of built
            ≡ builds_with_height.co_call place (capped_of callee) (elements_of arguments)) }
    {
        let height = callee.height.max(arguments.height);
        if height >= HIGHEST {
            discard(callee);
            discard_elements(arguments);
            return Ok(too_high());
        }
        Ok(CappedTree {
            height: height + 1,
            expr: co_call_expr(place, Box::new(alloc, callee.expr)?, arguments.exprs),
        })
    }

    /// `x[a, b]`. An error is want of memory.
    pub fn subscript(
        alloc: Global,
        place: Place,
        subject: CappedTree,
        subscripts: Elements,
    ) -> Result<CappedTree, AllocError>
        ensures { IfOk result
            (λ built. capped_of built
            ≡ builds_with_height.subscript place (capped_of subject) (elements_of subscripts)) }
    {
        let height = subject.height.max(subscripts.height);
        if height >= HIGHEST {
            discard(subject);
            discard_elements(subscripts);
            return Ok(too_high());
        }
        Ok(CappedTree {
            height: height + 1,
            expr: subscript_expr(place, Box::new(alloc, subject.expr)?, subscripts.exprs),
        })
    }

    /// `x[a:b]`. An error is want of memory.
    pub fn section(
        alloc: Global,
        place: Place,
        kind: SectionKind,
        subject: CappedTree,
        from: CappedTree,
        to: CappedTree,
    ) -> Result<CappedTree, AllocError>
        ensures { IfOk result (λ built. capped_of built
            ≡ builds_with_height.section place kind (capped_of subject) (capped_of from) (capped_of to)) }
    {
        let height = subject.height.max(from.height.max(to.height));
        if height >= HIGHEST {
            discard(subject);
            discard(from);
            discard(to);
            return Ok(too_high());
        }
        Ok(CappedTree {
            height: height + 1,
            expr: Expr::Section {
                place,
                kind,
                subject: Box::new(alloc, subject.expr)?,
                from: Box::new(alloc, from.expr)?,
                to: Box::new(alloc, to.expr)?,
            },
        })
    }

    /// `x.name`. An error is want of memory.
    pub fn field(
        alloc: Global,
        place: Place,
        subject: CappedTree,
        name: Name,
    ) -> Result<CappedTree, AllocError>
        ensures { IfOk result
            (λ built. capped_of built ≡ builds_with_height.field place (capped_of subject) name) }
    {
        let height = subject.height;
        if height >= HIGHEST {
            discard(subject);
            return Ok(too_high());
        }
        Ok(CappedTree {
            height: height + 1,
            expr: Expr::Field {
                place,
                name,
                subject: Box::new(alloc, subject.expr)?,
            },
        })
    }

    /// An operator before its operand. An error is want of memory.
    pub fn prefix(
        alloc: Global,
        place: Place,
        operator: Operator,
        operand: CappedTree,
    ) -> Result<CappedTree, AllocError>
        ensures { IfOk result
            (λ built. capped_of built ≡ builds_with_height.prefix place operator (capped_of operand)) }
    {
        let height = operand.height;
        if height >= HIGHEST {
            discard(operand);
            return Ok(too_high());
        }
        Ok(CappedTree {
            height: height + 1,
            expr: Expr::Prefix {
                place,
                operator,
                operand: Box::new(alloc, operand.expr)?,
            },
        })
    }

    /// `not a`. An error is want of memory.
    pub fn not(alloc: Global, place: Place, operand: CappedTree) -> Result<CappedTree, AllocError>
        ensures { IfOk result
            (λ built. capped_of built ≡ builds_with_height.not_form place (capped_of operand)) }
    {
        let height = operand.height;
        if height >= HIGHEST {
            discard(operand);
            return Ok(too_high());
        }
        Ok(CappedTree {
            height: height + 1,
            expr: Expr::Not {
                place,
                operand: Box::new(alloc, operand.expr)?,
            },
        })
    }

    /// An operator between two operands. An error is want of memory.
    pub fn binary(
        alloc: Global,
        place: Place,
        operator: Infix,
        left: CappedTree,
        right: CappedTree,
    ) -> Result<CappedTree, AllocError>
        ensures { IfOk result
            (λ built. capped_of built
            ≡ builds_with_height.binary place operator (capped_of left) (capped_of right)) }
    {
        let height = left.height.max(right.height);
        if height >= HIGHEST {
            discard(left);
            discard(right);
            return Ok(too_high());
        }
        Ok(CappedTree {
            height: height + 1,
            expr: Expr::Binary {
                place,
                operator,
                left: Box::new(alloc, left.expr)?,
                right: Box::new(alloc, right.expr)?,
            },
        })
    }

    /// `a to b`. An error is want of memory.
    pub fn to(
        alloc: Global,
        place: Place,
        from: CappedTree,
        to: CappedTree,
    ) -> Result<CappedTree, AllocError>
        ensures { IfOk result
            (λ built. capped_of built
            ≡ builds_with_height.to_form place (capped_of from) (capped_of to) None) }
    {
        let height = from.height.max(to.height);
        if height >= HIGHEST {
            discard(from);
            discard(to);
            return Ok(too_high());
        }
        Ok(CappedTree {
            height: height + 1,
            expr: Expr::To {
                place,
                from: Box::new(alloc, from.expr)?,
                to: Box::new(alloc, to.expr)?,
                by: None,
            },
        })
    }

    /// `a to b by c`. An error is want of memory.
    pub fn to_by(
        alloc: Global,
        place: Place,
        from: CappedTree,
        to: CappedTree,
        by: CappedTree,
    ) -> Result<CappedTree, AllocError>
        ensures { IfOk result (λ built. capped_of built
            ≡ builds_with_height.to_form place (capped_of from) (capped_of to) (Some (capped_of by))) }
    {
        let height = from.height.max(to.height.max(by.height));
        if height >= HIGHEST {
            discard(from);
            discard(to);
            discard(by);
            return Ok(too_high());
        }
        Ok(CappedTree {
            height: height + 1,
            expr: Expr::To {
                place,
                from: Box::new(alloc, from.expr)?,
                to: Box::new(alloc, to.expr)?,
                by: Some(Box::new(alloc, by.expr)?),
            },
        })
    }

    /// `if a then b`. An error is want of memory.
    pub fn if_then(
        alloc: Global,
        place: Place,
        condition: CappedTree,
        then: CappedTree,
    ) -> Result<CappedTree, AllocError>
        ensures { IfOk result
            (λ built. capped_of built
            ≡ builds_with_height.if_form place (capped_of condition) (capped_of then) None) }
    {
        let height = condition.height.max(then.height);
        if height >= HIGHEST {
            discard(condition);
            discard(then);
            return Ok(too_high());
        }
        Ok(CappedTree {
            height: height + 1,
            expr: Expr::If {
                place,
                condition: Box::new(alloc, condition.expr)?,
                then: Box::new(alloc, then.expr)?,
                otherwise: None,
            },
        })
    }

    /// `if a then b else c`. An error is want of memory.
    pub fn if_else(
        alloc: Global,
        place: Place,
        condition: CappedTree,
        then: CappedTree,
        otherwise: CappedTree,
    ) -> Result<CappedTree, AllocError>
        ensures { IfOk result (λ built. capped_of built
            ≡ builds_with_height.if_form place (capped_of condition) (capped_of then)
            (Some (capped_of otherwise))) }
    {
        let height = condition.height.max(then.height.max(otherwise.height));
        if height >= HIGHEST {
            discard(condition);
            discard(then);
            discard(otherwise);
            return Ok(too_high());
        }
        Ok(CappedTree {
            height: height + 1,
            expr: Expr::If {
                place,
                condition: Box::new(alloc, condition.expr)?,
                then: Box::new(alloc, then.expr)?,
                otherwise: Some(Box::new(alloc, otherwise.expr)?),
            },
        })
    }

    /// `case a of {..}`. An error is want of memory.
    pub fn case(
        alloc: Global,
        place: Place,
        subject: CappedTree,
        clauses: Branches,
    ) -> Result<CappedTree, AllocError>
        ensures { IfOk result
            (λ built. capped_of built
            ≡ builds_with_height.case_form place (capped_of subject) (branches_of clauses)) }
    {
        let height = subject.height.max(clauses.height);
        if height >= HIGHEST {
            discard(subject);
            discard_branches(clauses);
            return Ok(too_high());
        }
        Ok(CappedTree {
            height: height + 1,
            expr: case_expr(place, Box::new(alloc, subject.expr)?, clauses.clauses),
        })
    }

    /// `while a`, `until a` or `every a`. An error is want of memory.
    pub fn control(
        alloc: Global,
        place: Place,
        kind: LoopKind,
        control: CappedTree,
    ) -> Result<CappedTree, AllocError>
        ensures { IfOk result
            (λ built. capped_of built ≡ builds_with_height.loop_form place kind (capped_of control) None) }
    {
        let height = control.height;
        if height >= HIGHEST {
            discard(control);
            return Ok(too_high());
        }
        Ok(CappedTree {
            height: height + 1,
            expr: Expr::Loop {
                place,
                kind,
                control: Box::new(alloc, control.expr)?,
                body: None,
            },
        })
    }

    /// `while a do b`, `until a do b` or `every a do b`. An error is want of memory.
    pub fn control_do(
        alloc: Global,
        place: Place,
        kind: LoopKind,
        control: CappedTree,
        body: CappedTree,
    ) -> Result<CappedTree, AllocError>
        ensures { IfOk result (λ built. capped_of built
            ≡ builds_with_height.loop_form place kind (capped_of control) (Some (capped_of body))) }
    {
        let height = control.height.max(body.height);
        if height >= HIGHEST {
            discard(control);
            discard(body);
            return Ok(too_high());
        }
        Ok(CappedTree {
            height: height + 1,
            expr: Expr::Loop {
                place,
                kind,
                control: Box::new(alloc, control.expr)?,
                body: Some(Box::new(alloc, body.expr)?),
            },
        })
    }

    /// `repeat a`. An error is want of memory.
    pub fn repeat(alloc: Global, place: Place, body: CappedTree) -> Result<CappedTree, AllocError>
        ensures { IfOk result
            (λ built. capped_of built ≡ builds_with_height.repeat_form place (capped_of body)) }
    {
        let height = body.height;
        if height >= HIGHEST {
            discard(body);
            return Ok(too_high());
        }
        Ok(CappedTree {
            height: height + 1,
            expr: Expr::Repeat {
                place,
                body: Box::new(alloc, body.expr)?,
            },
        })
    }

    /// `create a`. An error is want of memory.
    pub fn create(alloc: Global, place: Place, body: CappedTree) -> Result<CappedTree, AllocError>
        ensures { IfOk result
            (λ built. capped_of built ≡ builds_with_height.create_form place (capped_of body)) }
    {
        let height = body.height;
        if height >= HIGHEST {
            discard(body);
            return Ok(too_high());
        }
        Ok(CappedTree {
            height: height + 1,
            expr: Expr::Create {
                place,
                body: Box::new(alloc, body.expr)?,
            },
        })
    }

    /// `break a`. An error is want of memory.
    pub fn break_with(
        alloc: Global,
        place: Place,
        value: CappedTree,
    ) -> Result<CappedTree, AllocError>
        ensures { IfOk result
            (λ built. capped_of built ≡ builds_with_height.break_form place (capped_of value)) }
    {
        let height = value.height;
        if height >= HIGHEST {
            discard(value);
            return Ok(too_high());
        }
        Ok(CappedTree {
            height: height + 1,
            expr: Expr::Break {
                place,
                value: Box::new(alloc, value.expr)?,
            },
        })
    }

    /// `return a`. An error is want of memory.
    pub fn return_with(
        alloc: Global,
        place: Place,
        value: CappedTree,
    ) -> Result<CappedTree, AllocError>
        ensures { IfOk result
            (λ built. capped_of built ≡ builds_with_height.return_form place (capped_of value)) }
    {
        let height = value.height;
        if height >= HIGHEST {
            discard(value);
            return Ok(too_high());
        }
        Ok(CappedTree {
            height: height + 1,
            expr: Expr::Return {
                place,
                value: Box::new(alloc, value.expr)?,
            },
        })
    }

    /// `suspend a`. An error is want of memory.
    pub fn suspend(alloc: Global, place: Place, value: CappedTree) -> Result<CappedTree, AllocError>
        ensures { IfOk result
            (λ built. capped_of built ≡ builds_with_height.suspend_form place (capped_of value) None) }
    {
        let height = value.height;
        if height >= HIGHEST {
            discard(value);
            return Ok(too_high());
        }
        Ok(CappedTree {
            height: height + 1,
            expr: Expr::Suspend {
                place,
                value: Box::new(alloc, value.expr)?,
                body: None,
            },
        })
    }

    /// `suspend a do b`. An error is want of memory.
    pub fn suspend_do(
        alloc: Global,
        place: Place,
        value: CappedTree,
        body: CappedTree,
    ) -> Result<CappedTree, AllocError>
        ensures { IfOk result
            (λ built. capped_of built
            ≡ builds_with_height.suspend_form place (capped_of value) (Some (capped_of body))) }
    {
        let height = value.height.max(body.height);
        if height >= HIGHEST {
            discard(value);
            discard(body);
            return Ok(too_high());
        }
        Ok(CappedTree {
            height: height + 1,
            expr: Expr::Suspend {
                place,
                value: Box::new(alloc, value.expr)?,
                body: Some(Box::new(alloc, body.expr)?),
            },
        })
    }
}

impl Elements {
    /// The elements, unless one of them is higher than 2000.
    pub fn into_exprs(self) -> Option<Vec<Expr>>
        ensures { option_map (λ exprs. all_of exprs.items) result ≡ kept_tree (elements_of self) }
    {
        if self.height > HIGHEST {
            discard_elements(self);
            return None;
        }
        Some(self.exprs)
    }

    /// No element.
    pub fn new(alloc: Global) -> Elements
        ensures { elements_of result ≡ builds_with_height.no_elements }
    {
        Elements {
            exprs: Vec::new(alloc),
            height: 0,
        }
    }

    /// Whether there is none.
    pub fn is_empty(&self) -> bool
        ensures { result ≡ builds_with_height.has_none (elements_of self.now) }
    {
        if self.height > HIGHEST {
            return false;
        }
        match self.exprs.as_slice().split_first() {
            Some(_) => false,
            None => true,
        }
    }

    /// One element more. An error is want of memory.
    #[tactic(auto, using(crate::proofs::ViewFacts::all_of_last))]
    pub fn with(mut self, alloc: Global, value: CappedTree) -> Result<Elements, AllocError>
        ensures { IfOk result
            (λ all. elements_of all ≡ builds_with_height.with_element (elements_of self) (capped_of value)) }
    {
        let height = self.height.max(value.height);
        if height > HIGHEST {
            discard_elements(self);
            discard(value);
            return Ok(Elements {
                exprs: Vec::new(alloc),
                height,
            });
        }
        self.exprs.push(value.expr)?;
        Ok(Elements {
            exprs: self.exprs,
            height,
        })
    }
}

impl Branches {
    /// No clause.
    pub fn new(alloc: Global) -> Branches
        ensures { branches_of result ≡ builds_with_height.no_clauses }
    {
        Branches {
            clauses: Vec::new(alloc),
            height: 0,
        }
    }

    /// A default clause more. An error is want of memory.
    #[tactic(auto, using(crate::proofs::ViewFacts::all_clauses_last))]
    pub fn with_default(
        mut self,
        alloc: Global,
        place: Place,
        value: CappedTree,
    ) -> Result<Branches, AllocError>
        ensures { IfOk result
            (λ all. branches_of all
            ≡ builds_with_height.with_default (branches_of self) place (capped_of value)) }
    {
        let height = self.height.max(value.height);
        if height > HIGHEST {
            discard_branches(self);
            discard(value);
            return Ok(Branches {
                clauses: Vec::new(alloc),
                height,
            });
        }
        self.clauses.push(Clause::Default {
            place,
            value: value.expr,
        })?;
        Ok(Branches {
            clauses: self.clauses,
            height,
        })
    }

    /// A guarded clause more. An error is want of memory.
    #[tactic(auto, using(crate::proofs::ViewFacts::all_clauses_last))]
    pub fn with_guarded(
        mut self,
        alloc: Global,
        place: Place,
        guard: CappedTree,
        value: CappedTree,
    ) -> Result<Branches, AllocError>
        ensures { IfOk result (λ all. branches_of all
            ≡ builds_with_height.with_guarded (branches_of self) place (capped_of guard) (capped_of value)) }
    {
        let height = self.height.max(guard.height.max(value.height));
        if height > HIGHEST {
            discard_branches(self);
            discard(guard);
            discard(value);
            return Ok(Branches {
                clauses: Vec::new(alloc),
                height,
            });
        }
        self.clauses.push(Clause::Guarded {
            place,
            guard: guard.expr,
            value: value.expr,
        })?;
        Ok(Branches {
            clauses: self.clauses,
            height,
        })
    }
}
