// Shapes of a stack.
ghost use Rattle.std.specs.Prelude.{◌≡◌};
ghost use Rattle.icn_verify.specs.Shapes.{empty_level, look_of, plain_of};
ghost use Rattle.icn_verify.specs.Rows.{fits};

use crate::rows::{meets, row_of};
use icn_code::Instr;

/// What opened a level.
#[derive(Clone, Copy, Debug, PartialEq, Eq, Hash)]
pub enum LevelKind {
    /// The base, which each procedure and each create body begins with.
    Base,
    /// A mark that counts nothing.
    Plain,
    /// A mark that counts its results.
    Limit,
}

/// A level of a stack: the base or an open mark.
#[derive(Clone, Copy, Debug, PartialEq, Eq, Hash)]
pub struct Level {
    pub kind: LevelKind,
    /// How many operands it has.
    pub operands: u32,
    /// How many scans are open in it.
    pub scans: u32,
}

impl Level {
    /// A level that was just opened.
    pub(crate) fn empty(kind: LevelKind) -> Level
        ensures { result ≡ empty_level kind }
    {
        Level {
            kind,
            operands: 0,
            scans: 0,
        }
    }
}

/// A shape of a stack.
#[derive(Debug, Drop)]
pub struct Shape {
    /// Whether the address is in a create body.
    pub in_create: bool,
    /// Its levels, the base first. A shape without any is that of the base alone, empty.
    pub marks: Vec<Level>,
}

/// What an instruction can see of a shape: the innermost level and the one outside it.
#[derive(Clone, Copy)]
pub struct ShapeView {
    pub in_create: bool,
    pub inner: Level,
    pub outside: Option<Level>,
}

/// What an instruction can see of this shape.
fn look_at(shape: &Shape) -> ShapeView
    ensures { result ≡ look_of (plain_of shape.now) }
{
    let Some((base, marks)) = shape.marks.split_first() else {
        return ShapeView {
            in_create: shape.in_create,
            inner: Level::empty(LevelKind::Base),
            outside: None,
        };
    };
    let mut inner = *base;
    let mut outside = None;
    for mark in marks {
        outside = Some(inner);
        inner = *mark;
    }
    ShapeView {
        in_create: shape.in_create,
        inner,
        outside,
    }
}

/// Whether an instruction finds the operands that it takes and what it asks for at an address with this shape. It takes no
/// memory.
pub fn fits(shape: &Shape, at: Instr) -> bool
    ensures { result ≡ fits (plain_of shape.now) at }
{
    let row = row_of(at);
    let look = look_at(shape);
    u64::from(look.inner.operands) >= row.takes && meets(row.asks, look)
}
