// The end of a create body, and what it may lead to.
ghost use Rattle.std.specs.Prelude.{◌≡◌, ◌<◌, None, IsSome};
ghost use Rattle.icn_value.specs.Limited.{limits_of};
ghost use Rattle.icn_value.specs.Store.{Outside};
ghost use Rattle.icn_heap.specs.Heaps.{heap_of};
ghost use Rattle.icn_code.specs.Codes.{Tables};
ghost use Rattle.icn_run.specs.Stacks.{Frames as FramesRead, flat as calls};
ghost use Rattle.icn_run.specs.Step.{exhaust_active, hop};
ghost use Rattle.icn_control.specs.TransfersRead.{is_moved};
ghost use Rattle.icn_control.specs.Machines.{StandsAt, stack_seen, store_seen};
ghost use Rattle.icn_control.specs.Soundness.{GoesOnSound};

use crate::machine::{Machine, RunState};
use icn_coexp::AfterTransfer;
use icn_frames::{Cell, Stack};

/// The expression of the active co-expression, which must not be `&main`, fails, as a turn: it is exhausted, and what entered
/// it last is entered with failure. It takes no memory.
pub fn exhaust<K: Stack<Cell> + Drop>(m: &mut Machine<K>) -> RunState
    requires runs { IsSome m.old.stacks.table.running }
    requires other { 0 < m.old.stacks.table.active }
    requires bounds { (heap_of m.old.world.heap).bounds ≡ limits_of m.old.limits }
    ensures step { (tables : Tables) (outside : Outside) → StandsAt tables outside
        (exhaust_active calls tables (stack_seen m.old) (store_seen tables outside m.old)) m.new result }
    ensures keeps { GoesOnSound m.old m.new result }
{
    pass_failure(m)
}

/// The exhausted co-expression that was reached passes failure on to what entered it last, as a turn. A hop must be due. It
/// takes no memory.
pub fn hop<K: Stack<Cell> + Drop>(m: &mut Machine<K>) -> RunState
    requires due { m.old.stacks.table.running ≡ None }
    requires bounds { (heap_of m.old.world.heap).bounds ≡ limits_of m.old.limits }
    ensures step { (tables : Tables) (outside : Outside) (old : FramesRead)
        → StandsAt tables outside (hop calls tables old (store_seen tables outside m.old)) m.new result }
    ensures keeps { GoesOnSound m.old m.new result }
{
    m.stacks.active();
    pass_failure(m)
}

// The active co-expression is exhausted, if it was not before, and what entered it last is entered with failure, as a turn.
fn pass_failure<K: Stack<Cell> + Drop>(m: &mut Machine<K>) -> RunState
    requires other { 0 < m.old.stacks.table.active }
    requires bounds { (heap_of m.old.world.heap).bounds ≡ limits_of m.old.limits }
    ensures step { (tables : Tables) (outside : Outside) (old : FramesRead) → StandsAt tables outside
        (exhaust_active calls tables old (store_seen tables outside m.old)) m.new result }
    ensures keeps { GoesOnSound m.old m.new result }
{
    if m.turns >= m.limits.turns {
        return RunState::AtBound;
    }
    m.turns += 1;
    let went = m.stacks.exhaust();
    if is_moved(went) {
        RunState::Failing
    } else {
        RunState::Hopping
    }
}

/// Whether another co-expression is active after a transfer.
pub fn is_moved(went: AfterTransfer) -> bool
    ensures { result ≡ is_moved went }
{
    match went {
        AfterTransfer::Moved => true,
        AfterTransfer::Same(_) => false,
        AfterTransfer::Exhausted => false,
    }
}
