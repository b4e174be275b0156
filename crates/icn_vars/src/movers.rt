// Which side of an exchange moves the other, and how far.
ghost use Rattle.std.specs.Prelude.{◌≡◌};
ghost use Rattle.std.specs.List.{All};
ghost use Rattle.icn_defs.specs.ReadAndAssign.{mover_of as defined_mover, part_length, root_key, root_number, root_place, same_root};
ghost use Rattle.icn_heap.specs.Extents.{Extent, IsLive, value_in};
ghost use Rattle.icn_heap.specs.Heaps.{extent_of};
ghost use Rattle.icn_vars.specs.Assignments.{HoldsMoved, IsLiveMoved, MovesTo};
ghost use Rattle.icn_vars.specs.Outcomes.{mover_of};
ghost use Rattle.icn_vars.specs.Worlds.{IsLiveRoot, IsLiveVariable, Reach, reach_of, root_in, variable_in};

use crate::assignment::Moved;
use crate::locals::Locals;
use crate::world::World;
use icn_convert::same;
use icn_value::{KeywordVariable, Mover, Root, Val, VarRef};

/// Which assignment of an exchange moves the other side: of two parts of one variable, that of the part that begins first.
pub fn mover_of<L: Locals>(w: &World, l: &L, left: VarRef, right: VarRef) -> Mover
    requires left { IsLiveVariable (reach_of w.now (L.items l.now)) left }
    requires right { IsLiveVariable (reach_of w.now (L.items l.now)) right }
    ensures { mover_of result
        ≡ defined_mover (variable_in (extent_of w.now.heap) left) (variable_in (extent_of w.now.heap) right) }
{
    match left {
        VarRef::Whole(_) => Mover::Neither,
        VarRef::Part { root, place, .. } => match right {
            VarRef::Whole(_) => Mover::Neither,
            VarRef::Part {
                root: other,
                place: begin,
                ..
            } => {
                if !same_root(w, l, root, other) {
                    Mover::Neither
                } else if place < begin {
                    Mover::Left
                } else if begin < place {
                    Mover::Right
                } else {
                    Mover::Neither
                }
            }
        },
    }
}

// Whether two roots are one.
fn same_root<L: Locals>(w: &World, l: &L, a: Root, b: Root) -> bool
    requires first { IsLiveRoot (reach_of w.now (L.items l.now)) a }
    requires second { IsLiveRoot (reach_of w.now (L.items l.now)) b }
    ensures { result ≡ same_root (root_in (extent_of w.now.heap) a) (root_in (extent_of w.now.heap) b) }
{
    root_number(a) == root_number(b)
        && (root_place(a) == root_place(b) && same(&w.heap, root_key(w, l, a), root_key(w, l, b)))
}

// A number for each type of root.
fn root_number(root: Root) -> u64
    ensures { (all : Extent) → result ≡ root_number (root_in all root) }
{
    match root {
        Root::Global(_) => 0,
        Root::Static(_) => 1,
        Root::Local(_) => 2,
        Root::Element { .. } => 3,
        Root::Field { .. } => 4,
        Root::Key { .. } => 5,
        Root::Keyword(_) => 6,
    }
}

// The place or the structure of a root.
fn root_place(root: Root) -> u64
    ensures { (all : Extent) → result ≡ root_place (root_in all root) }
{
    match root {
        Root::Global(place) | Root::Static(place) | Root::Local(place) => u64::from(place),
        Root::Element { list, .. } => u64::from(list),
        Root::Field { rec, .. } => u64::from(rec),
        Root::Key { table, .. } => u64::from(table),
        Root::Keyword(KeywordVariable::Subject) => 0,
        Root::Keyword(KeywordVariable::Position) => 1,
        Root::Keyword(KeywordVariable::Random) => 2,
        Root::Keyword(KeywordVariable::ErrorCount) => 3,
    }
}

// What else tells a root from others.
fn root_key<L: Locals>(w: &World, l: &L, root: Root) -> Val
    requires { IsLiveRoot (reach_of w.now (L.items l.now)) root }
    ensures live { IsLive (extent_of w.now.heap) result }
    ensures key { value_in (extent_of w.now.heap) result ≡ root_key (root_in (extent_of w.now.heap) root) }
{
    match root {
        Root::Element { number, .. } => Val::Integer(number),
        Root::Field { place, .. } => Val::Integer(i64::from(place)),
        Root::Key { key, .. } => key,
        Root::Global(_) | Root::Static(_) | Root::Local(_) | Root::Keyword(_) => Val::Null,
    }
}

/// The length of a part, and 0 for a whole variable.
pub fn part_length(variable: VarRef) -> u64
    ensures { (all : Extent) → result ≡ part_length (variable_in all variable) }
{
    match variable {
        VarRef::Whole(_) => 0,
        VarRef::Part { len, .. } => len,
    }
}

/// A part that moves by the change from the length `old` to `new` of another one; or that it would stand before its text, or
/// behind all texts. A whole variable stays.
pub fn move_part(old: u64, new: u64, variable: VarRef) -> Moved
    ensures moved { MovesTo old new variable result }
    ensures live { (reach : Reach) → IsLiveVariable reach variable → IsLiveMoved reach result }
    ensures holds { HoldsMoved variable result }
{
    match variable {
        VarRef::Whole(_) => Moved::To(variable),
        VarRef::Part { root, place, len } => match place.checked_add(new) {
            Some(end) => {
                if old < end {
                    Moved::To(VarRef::Part {
                        root,
                        place: end - old,
                        len,
                    })
                } else {
                    Moved::BeforeText
                }
            }
            None => Moved::BehindTexts,
        },
    }
}
