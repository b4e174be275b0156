// Trees built from their parts.
ghost use Rattle.std.specs.Prelude.{◌≡◌, IfOk, [], ◌∷◌, ◌++◌};
ghost use Rattle.icn_tree.specs.Trees.{Binary, Listing, To, Present};
ghost use Rattle.icn_tree.specs.TreeOf.{tree_of, all_of};

use icn_tree::{Expr, Infix, Place};
use std::alloc::{AllocError, Global};

/// An operator between two operands. `AllocError` is want of memory.
pub fn binary(
    alloc: Global,
    place: Place,
    operator: Infix,
    left: Expr,
    right: Expr,
) -> Result<Expr, AllocError>
    ensures { IfOk result (λ expr. tree_of expr ≡ Binary place operator (tree_of left) (tree_of right)) }
{
    Ok(Expr::Binary {
        place,
        operator,
        left: Box::new(alloc, left)?,
        right: Box::new(alloc, right)?,
    })
}

/// A list.
pub fn list_of(place: Place, elements: Vec<Expr>) -> Expr
    ensures { tree_of result ≡ Listing place (all_of elements.items) }
{
    Expr::List { place, elements }
}

/// A list with one more element. `AllocError` is want of memory.
pub fn with_one_more(
    place: Place,
    mut elements: Vec<Expr>,
    element: Expr,
) -> Result<Expr, AllocError>
    ensures { IfOk result (λ expr. tree_of expr ≡ Listing place (all_of (elements.items ++ element ∷ []))) }
{
    elements.push(element)?;
    Ok(Expr::List { place, elements })
}

/// `a to b by c`. `AllocError` is want of memory.
pub fn to_by(
    alloc: Global,
    place: Place,
    from: Expr,
    to: Expr,
    by: Expr,
) -> Result<Expr, AllocError>
    ensures { IfOk result
        (λ expr. tree_of expr ≡ To place (tree_of from) (tree_of to) (Present (tree_of by))) }
{
    Ok(Expr::To {
        place,
        from: Box::new(alloc, from)?,
        to: Box::new(alloc, to)?,
        by: Some(Box::new(alloc, by)?),
    })
}
