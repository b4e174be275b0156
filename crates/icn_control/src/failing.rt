// One step of failing, but for what counts turns or other stacks.
ghost use Rattle.std.specs.Prelude.{◌≡◌, ◌≢◌, [], false, IsSome, IfSome, None};
ghost use Rattle.icn_code.specs.Codes.{Tables};
ghost use Rattle.icn_heap.specs.Extents.{Extent};
ghost use Rattle.icn_heap.specs.Heaps.{extent_of};
ghost use Rattle.icn_value.specs.Store.{Names};
ghost use Rattle.law_names.specs.NamedSettings.{WorldNamed};
ghost use Rattle.icn_vars.specs.Worlds.{Reach, reach_of, world_of};
ghost use Rattle.icn_frames.specs.Stacks as flat;
ghost use Rattle.icn_run.specs.Stacks.{Frames as FramesRead, flat as calls};
ghost use Rattle.icn_run.specs.Step.{Store, fails, stuck};
ghost use Rattle.icn_control.specs.FailingStacks.{DropsTo, FallsAlone, FallsBelow, FallsNamed, FallsTo, IsLiveDue, due_of};
ghost use Rattle.icn_control.specs.LiveStacks.{IsLiveStack, StaysLive};
ghost use Rattle.icn_control.specs.StackViews.{stack_in};
ghost use Rattle.icn_control.specs.Soundness.{KeepsHeap};

use crate::scans::swap_pairs;
use crate::world::set_pair;
use icn_frames::{Cell, Frames, NewestKind, Stack, Why};
use icn_value::Residual;
use icn_vars::World;

/// What is due after a step of failing.
#[derive(Clone, Copy, Debug, PartialEq, Eq)]
pub enum AfterFailure {
    /// The code goes on failing.
    Failing,
    /// The next instruction.
    Running,
    /// A turn, and then the next instruction: something begins again.
    Beginning,
    /// A turn, and then the operation or function that was suspended.
    Resuming(Residual),
    /// A turn, and then the procedure that was suspended.
    Reentering,
    /// The procedure or the create body ends, as it has no mark left.
    Leaving,
}

/// What is due after a step of failing that resumed no operation and no function.
#[derive(Clone, Copy, Debug, PartialEq, Eq)]
pub enum Fallen {
    /// The code goes on failing.
    Failing,
    /// The next instruction.
    Running,
    /// A turn, and then the next instruction: something begins again.
    Beginning,
    /// A turn, and then the procedure that was suspended.
    Reentering,
    /// The procedure or the create body ends, as it has no mark left.
    Leaving,
}

// What is due then, among all that may be.
fn due_of(fallen: Fallen) -> AfterFailure
    ensures { result ≡ due_of fallen }
{
    match fallen {
        Fallen::Failing => AfterFailure::Failing,
        Fallen::Running => AfterFailure::Running,
        Fallen::Beginning => AfterFailure::Beginning,
        Fallen::Reentering => AfterFailure::Reentering,
        Fallen::Leaving => AfterFailure::Leaving,
    }
}

/// One step of failing, where there is no suspension, or the newest one is that of a branch or of a procedure. Elsewhere nothing
/// changes. It takes no memory.
#[inline(always)]
pub fn fall_at_once<K: Stack<Cell> + Drop>(frames: &mut Frames<K>) -> Option<Fallen>
    ensures step { IfSome result (λ fallen. FallsAlone frames.old.flat frames.new.flat (due_of fallen)) }
    ensures live { IfSome result (λ fallen. StaysLive frames.old.flat frames.new.flat) }
    ensures not_done { result ≡ None → frames.new ≡ frames.old }
{
    match frames.newest_kind() {
        NewestKind::Nothing => Some(drop_failed(frames)),
        NewestKind::Alt => {
            frames.resume_newest();
            Some(Fallen::Failing)
        }
        NewestKind::Proc => {
            frames.resume_newest();
            Some(Fallen::Reentering)
        }
        NewestKind::Count => None,
        NewestKind::Escan => None,
        NewestKind::Other => None,
    }
}

/// One step of failing: the newest suspension of the innermost mark comes back, and where there is none the mark is dropped.
/// It takes no memory.
pub fn fall<K: Stack<Cell> + Drop>(frames: &mut Frames<K>, world: &mut World) -> AfterFailure
    requires live { (tables : Tables) × IsLiveStack tables (reach_of world.old []) frames.old.flat }
    requires goes_on { (tables : Tables) × ((st : Store FramesRead)
        × (fails calls tables (stack_in (extent_of world.old.heap) frames.old.flat) st ≢ stuck)) }
    ensures step { (tables : Tables) (st : Store FramesRead) → st.world ≡ world_of world.old
        → FallsTo tables (fails calls tables (stack_in (extent_of world.old.heap) frames.old.flat) st) st
        world.new frames.new.flat result }
    ensures live { (tables : Tables) → IsLiveStack tables (reach_of world.old []) frames.old.flat
        → IsLiveStack tables (reach_of world.new []) frames.new.flat }
    ensures due { IsLiveDue (reach_of world.new []) frames.new.flat result }
    ensures less { FallsBelow frames.old.flat frames.new.flat result }
    ensures named { FallsNamed (extent_of world.old.heap) frames.old.flat frames.new.flat result }
    ensures world_named { (names : Names) → WorldNamed names (world_of world.old)
        → WorldNamed names (world_of world.new) }
    ensures same { KeepsHeap world.old world.new }
{
    match frames.newest_kind() {
        NewestKind::Nothing => due_of(drop_failed(frames)),
        NewestKind::Alt => {
            frames.resume_newest();
            AfterFailure::Failing
        }
        NewestKind::Proc => {
            frames.resume_newest();
            AfterFailure::Reentering
        }
        NewestKind::Count => fall_by_why(frames, world),
        NewestKind::Escan => fall_by_why(frames, world),
        NewestKind::Other => fall_by_why(frames, world),
    }
}

// The same by what was suspended.
fn fall_by_why<K: Stack<Cell> + Drop>(frames: &mut Frames<K>, world: &mut World) -> AfterFailure
    requires live { (tables : Tables) × IsLiveStack tables (reach_of world.old []) frames.old.flat }
    requires goes_on { (tables : Tables) × ((st : Store FramesRead)
        × (fails calls tables (stack_in (extent_of world.old.heap) frames.old.flat) st ≢ stuck)) }
    ensures step { (tables : Tables) (st : Store FramesRead) → st.world ≡ world_of world.old
        → FallsTo tables (fails calls tables (stack_in (extent_of world.old.heap) frames.old.flat) st) st
        world.new frames.new.flat result }
    ensures live { (tables : Tables) → IsLiveStack tables (reach_of world.old []) frames.old.flat
        → IsLiveStack tables (reach_of world.new []) frames.new.flat }
    ensures due { IsLiveDue (reach_of world.new []) frames.new.flat result }
    ensures less { FallsBelow frames.old.flat frames.new.flat result }
    ensures named { FallsNamed (extent_of world.old.heap) frames.old.flat frames.new.flat result }
    ensures world_named { (names : Names) → WorldNamed names (world_of world.old)
        → WorldNamed names (world_of world.new) }
    ensures same { KeepsHeap world.old world.new }
{
    match frames.resume() {
        None => due_of(drop_failed(frames)),
        Some(Why::Alt) => AfterFailure::Failing,
        Some(Why::Op(rest)) => AfterFailure::Resuming(rest),
        Some(Why::Scan(pair)) => {
            set_pair(world, pair);
            AfterFailure::Failing
        }
        Some(Why::Escan) => {
            swap_pairs(frames, world, false);
            AfterFailure::Failing
        }
        Some(Why::Proc) => AfterFailure::Reentering,
    }
}

// The innermost mark is dropped, as nothing in it can be resumed.
fn drop_failed<K: Stack<Cell> + Drop>(frames: &mut Frames<K>) -> Fallen
    ensures step { DropsTo frames.old.flat frames.new.flat (due_of result) }
    ensures live { StaysLive frames.old.flat frames.new.flat }
    ensures due { (reach : Reach) → IsLiveDue reach frames.new.flat (due_of result) }
    ensures less { FallsBelow frames.old.flat frames.new.flat (due_of result) }
    ensures named { (all : Extent) → FallsNamed all frames.old.flat frames.new.flat (due_of result) }
{
    if frames.at_base() {
        return Fallen::Leaving;
    }
    let label = frames.label();
    let again = frames.has_new_label();
    frames.drop_mark();
    match label {
        None => Fallen::Failing,
        Some(address) => {
            frames.go(address);
            if again {
                Fallen::Beginning
            } else {
                Fallen::Running
            }
        }
    }
}
