// What is kept of each co-expression, and how its stack is taken out and put back.
ghost use Rattle.std.specs.Prelude.{◌≡◌, ◌<◌, ℕ, Option, IfSome, length, slice_get, slice_set, vec_len};
ghost use Rattle.icn_value.specs.declared.item.Item.TheVariants as Items;
ghost use Rattle.icn_frames.specs.Stacks as flat;
ghost use Rattle.icn_coexp.specs.Transfers.{exhausted_of};
ghost use Rattle.icn_coexp.specs.KeptEntries.{status_seen, status_at, status_put, activator_put, CanBeGiven, IsGiven, CanFail, Comes, IsOn, WaitsIn};
ghost use Rattle.icn_coexp.specs.declared.entries.RunningStack.TheVariants as Runnings;
ghost use Rattle.icn_coexp.specs.declared.entries.Status.TheVariants as Statuses;

use icn_frames::{Cell, Frames, Stack};
use icn_value::{Item, Val};
use std::mem;

/// Whether a co-expression runs, and its stack where it does not. One that has not begun has the stack with which it will.
#[derive(Drop)]
pub enum Status<K: Stack<Cell> + Drop> {
    Fresh(Frames<K>),
    Active,
    Waiting(Frames<K>),
    Exhausted,
}

/// A co-expression: what entered it last, and what it was made with.
#[derive(Drop)]
pub struct CoexpEntry<K: Stack<Cell> + Drop> {
    pub status: Status<K>,
    pub activator: u32,
    pub values: Vec<Val>,
    pub proc: u32,
    pub address: u32,
}

/// The stack that runs, or that a hop is due.
#[derive(Drop)]
pub enum RunningStack<K: Stack<Cell> + Drop> {
    On(Frames<K>),
    Hopping,
}

impl<K: Stack<Cell> + Drop> RunningStack<K> {
    ghost use Rattle.std.specs.Borrow.{Lends, sem};
    ghost use Rattle.icn_coexp.specs.contracts.entries.RunningStack.{the_row};
    ghost use Rattle.icn_frames.specs.contracts.calls.Frames.{the_row as frames_row};
    ghost use Rattle.icn_coexp.specs.declared.entries.RunningStack.TheVariants.{On};

    /// The stack that runs. No hop may be due.
    pub fn stack_mut(&mut self) -> &mut Frames<K>
        requires { IsOn self.old }
        ensures* writes_back { sem 𝓛
            (Lends (the_row K.row K.Stack) (frames_row K.row K.Stack) self.entry result On) }
        ensures value { self.old ≡ On result.now }
    {
        match self {
            RunningStack::On(stack) => stack,
            RunningStack::Hopping => unreachable!(),
        }
    }
}

/// Puts another status in the place of an entry's, and gives that.
pub fn replace_status<K: Stack<Cell> + Drop>(
    entries: &mut Vec<CoexpEntry<K>>,
    id: u32,
    status: Status<K>,
) -> Status<K>
    requires { id < vec_len entries.old }
    ensures was { status_at id entries.old.items ≡ Some result }
    ensures is { entries.new.items ≡ status_put id status entries.old.items }
    ensures length { vec_len entries.new ≡ vec_len entries.old }
{
    mem::replace(&mut entries[id as usize].status, status)
}

/// Sets what entered an entry last.
pub fn set_activator<K: Stack<Cell> + Drop>(
    entries: &mut Vec<CoexpEntry<K>>,
    id: u32,
    activator: u32,
)
    requires { id < vec_len entries.old }
    ensures is { entries.new.items ≡ activator_put id activator entries.old.items }
    ensures length { vec_len entries.new ≡ vec_len entries.old }
{
    entries[id as usize].activator = activator;
}

/// Whether a co-expression is exhausted.
pub fn is_exhausted<K: Stack<Cell> + Drop>(entries: &Vec<CoexpEntry<K>>, id: u32) -> bool
    requires { id < vec_len entries.now }
    ensures { IfSome (status_at id entries.now.items) (λ status. result ≡ exhausted_of (status_seen status)) }
{
    matches!(entries[id as usize].status, Status::Exhausted)
}

/// Puts a value on a stack that has room for it.
pub fn with_value<K: Stack<Cell> + Drop>(stack: Frames<K>, v: Val) -> Frames<K>
    requires { 0 < stack.spare }
    ensures { result.flat ≡ flat.push (Items.Val v) stack.flat }
{
    let mut stack = stack;
    match stack.push(Item::Val(v)) {
        Ok(()) => stack,
        Err(_) => unreachable!(),
    }
}

/// Takes out the stack of one that is given a value, and makes it the active one.
pub fn give_to<K: Stack<Cell> + Drop>(
    entries: &mut Vec<CoexpEntry<K>>,
    id: u32,
    v: Val,
) -> Frames<K>
    requires live { id < vec_len entries.old }
    requires can { CanBeGiven (status_at id entries.old.items) }
    ensures stack { IsGiven v (status_at id entries.old.items) result.flat }
    ensures is { entries.new.items ≡ status_put id Statuses.Active entries.old.items }
{
    match replace_status(entries, id, Status::Active) {
        Status::Fresh(stack) => stack,
        Status::Waiting(stack) => with_value(stack, v),
        _ => unreachable!(),
    }
}

/// Takes out the stack of a waiting one, and makes it the active one.
pub fn fail_to<K: Stack<Cell> + Drop>(entries: &mut Vec<CoexpEntry<K>>, id: u32) -> Frames<K>
    requires live { id < vec_len entries.old }
    requires can { CanFail (status_at id entries.old.items) }
    ensures stack { Comes (status_at id entries.old.items) result.flat }
    ensures is { entries.new.items ≡ status_put id Statuses.Active entries.old.items }
{
    match replace_status(entries, id, Status::Active) {
        Status::Waiting(stack) => stack,
        _ => unreachable!(),
    }
}

/// Puts the stack that runs into the entry of the active one, which waits.
pub fn wait<K: Stack<Cell> + Drop>(
    entries: &mut Vec<CoexpEntry<K>>,
    active: u32,
    running: &mut RunningStack<K>,
)
    requires live { active < vec_len entries.old }
    requires on { IsOn running.old }
    ensures is { WaitsIn active running.old entries.old.items entries.new.items }
    ensures running { running.new ≡ Runnings.Hopping }
    ensures length { vec_len entries.new ≡ vec_len entries.old }
{
    match mem::replace(running, RunningStack::Hopping) {
        RunningStack::On(stack) => {
            replace_status(entries, active, Status::Waiting(stack));
        }
        RunningStack::Hopping => unreachable!(),
    }
}
