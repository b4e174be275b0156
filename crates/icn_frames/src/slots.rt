// How a cell is kept: a slot of sixteen bytes, and beside it, at the same height, what does not fit in one.
ghost use Rattle.std.specs.Prelude.{◌≡◌, ◌<◌, ◌≤◌, ℕ, Bool, true, false, length, vec_len, vec_capacity, Option, Some, is_some, OnOk, OnErr, IfSome};
ghost use Rattle.std.specs.Bool.{OnFalse};
ghost use Rattle.icn_frames.specs.Slots.{cell_of, control_at, extra_at, no_control, no_extra, ExtrasElsewhere, ControlsElsewhere, IsFree, operand_in, local_in, why_in, content_of, is_plain_cell, count_in, plain_operand, plain_local, plain_value, why_counting, TellsWhy, value_only};
ghost use Rattle.std.specs.Option.{option_map};
ghost use Rattle.icn_frames.specs.Stacks as flat;
ghost use Rattle.icn_value.specs.declared.item.Item.TheVariants as Items;
ghost use Rattle.icn_frames.specs.declared.layout.Cell.TheVariants as CellVariants;
ghost use Rattle.icn_value.specs.declared.val.Val.{Val};
ghost use Rattle.icn_value.specs.declared.item.Item.{Item};
ghost use Rattle.icn_frames.specs.declared.layout.Why.{Why};
ghost use Rattle.icn_frames.specs.declared.layout.Why.TheVariants as Whys;
ghost use Rattle.icn_frames.specs.declared.layout.Registers.{Registers};

use crate::layout::{CellContent, Count, NewestKind, Registers, Why};
use icn_profile::NUMBER_LIMIT;
use icn_value::{File, Item, KeywordVariable, Pair, Residual, Root, Span, Val, VarRef};
use std::alloc::AllocError;

/// What a cell is kept as. No part of a variant is smaller than 32 bits, so that a slot is copied in two or three moves.
#[derive(Clone, Copy)]
pub enum StackSlot {
    /// The lowest frame.
    BaseFrame { proc: u32, locals: u64 },
    /// A frame of a call.
    CallFrame { proc: u32, locals: u64 },
    /// A plain mark without label.
    PlainMark,
    /// A plain mark with the label that it was given.
    LabelMark { label: u32 },
    /// A plain mark with a label that was set anew.
    SetMark { label: u32 },
    /// A limit mark.
    LimitMark { count: u64 },
    /// A suspension of a branch.
    AltHeld { address: u32 },
    /// A suspension of an operation or function, with the residual beside it.
    OpHeld { address: u32 },
    /// A suspension of a count, by the integer that it gave last, with its end and step beside it.
    CountHeld { address: u32, given: i64 },
    /// A suspension of a move in the subject, by the place at which it began.
    MoveHeld { address: u32, old: u64 },
    /// A suspension of a scan, with the pair beside it.
    ScanHeld { address: u32 },
    /// A suspension of a scan that was left.
    EscanHeld { address: u32 },
    /// A suspension of a procedure.
    ProcHeld { address: u32 },
    /// A local with the value beside it.
    LocalOther,
    /// An operand with the value beside it.
    ValOther,
    /// An operand with the variable beside it.
    VarOther,
    // Locals whose values fit.
    LocalNull,
    LocalInteger(i64),
    LocalText { len: u32, start: u64 },
    LocalInput,
    LocalOutput,
    LocalErrout,
    LocalOpened(u32),
    LocalProc(u32),
    LocalRec(u32),
    LocalList(u32),
    LocalSet(u32),
    LocalTable(u32),
    LocalCoexp(u32),
    // Operands that are values which fit.
    ValNull,
    ValInteger(i64),
    ValText { len: u32, start: u64 },
    ValInput,
    ValOutput,
    ValErrout,
    ValOpened(u32),
    ValProc(u32),
    ValRec(u32),
    ValList(u32),
    ValSet(u32),
    ValTable(u32),
    ValCoexp(u32),
    // Operands that are whole variables which fit.
    VarGlobal(u32),
    VarStatic(u32),
    VarLocal(u32),
    VarElement { list: u32, number: i64 },
    VarField { rec: u32, place: u64 },
    VarKey { table: u32, key: i64 },
    VarSubject,
    VarPosition,
    VarRandom,
}

/// Where a count ends, and by how much it goes on.
#[derive(Clone, Copy)]
pub struct CountRange {
    /// The end, which is not passed.
    pub last: i64,
    /// What is added each time.
    pub step: i64,
}

/// What is kept beside the slot of a frame, a mark or a suspension.
#[derive(Clone, Copy)]
pub struct Control {
    /// What comes back.
    pub saved: Registers,
    /// How deep a procedure is called.
    pub level: u64,
    /// Where its caller goes on.
    pub address: u32,
    /// Where a count that is suspended ends.
    pub range: CountRange,
}

/// What is kept beside any other slot that is too small.
#[derive(Clone, Copy)]
pub struct Extra {
    pub value: Val,
    pub variable: VarRef,
    pub residual: Residual,
    pub pair: Pair,
}

/// What stands where nothing was kept.
pub fn blank_control() -> Control
    ensures { result ≡ no_control }
{
    Control {
        saved: Registers {
            base: 0,
            mark: 0,
            newest: None,
            scan: None,
        },
        level: 0,
        address: 0,
        range: CountRange { last: 0, step: 0 },
    }
}

/// What stands where nothing was kept.
pub fn blank_extra() -> Extra
    ensures { result ≡ no_extra }
{
    Extra {
        value: Val::Null,
        variable: VarRef::Whole(Root::Global(0)),
        residual: Residual::FileLines { file: File::Input },
        pair: Pair {
            subject: Span { start: 0, len: 0 },
            position: 0,
        },
    }
}

/// Has something stand at this place, for which there must be room.
pub fn fill(extras: &mut Vec<Extra>, at: u64)
    requires { at < vec_capacity extras.old }
    ensures there { at < vec_len extras.new }
    ensures same { (place : ℕ) → extra_at extras.new.items place ≡ extra_at extras.old.items place }
    ensures capacity { vec_capacity extras.new ≡ vec_capacity extras.old }
{
    while extras.len() as u64 <= at {
        extras.push_reserved(blank_extra());
    }
}

/// The value at this place.
pub fn value_at(extras: &Vec<Extra>, at: u64) -> Val
    ensures { result ≡ (extra_at extras.now.items at).value }
{
    if at < extras.len() as u64 {
        extras[at as usize].value
    } else {
        Val::Null
    }
}

/// The variable at this place.
pub fn variable_at(extras: &Vec<Extra>, at: u64) -> VarRef
    ensures { result ≡ (extra_at extras.now.items at).variable }
{
    if at < extras.len() as u64 {
        extras[at as usize].variable
    } else {
        VarRef::Whole(Root::Global(0))
    }
}

/// The residual at this place.
pub fn residual_at(extras: &Vec<Extra>, at: u64) -> Residual
    ensures { result ≡ (extra_at extras.now.items at).residual }
{
    if at < extras.len() as u64 {
        extras[at as usize].residual
    } else {
        Residual::FileLines { file: File::Input }
    }
}

/// The pair at this place.
pub fn pair_at(extras: &Vec<Extra>, at: u64) -> Pair
    ensures { result ≡ (extra_at extras.now.items at).pair }
{
    if at < extras.len() as u64 {
        extras[at as usize].pair
    } else {
        Pair {
            subject: Span { start: 0, len: 0 },
            position: 0,
        }
    }
}

// Keeps a value at this place.
fn put_value(extras: &mut Vec<Extra>, at: u64, v: Val)
    requires { at < vec_capacity extras.old }
    ensures is { (extra_at extras.new.items at).value ≡ v }
    ensures others { ExtrasElsewhere at extras.old.items extras.new.items }
    ensures capacity { vec_capacity extras.new ≡ vec_capacity extras.old }
{
    fill(extras, at);
    extras[at as usize].value = v;
}

// Keeps a variable at this place.
fn put_variable(extras: &mut Vec<Extra>, at: u64, variable: VarRef)
    requires { at < vec_capacity extras.old }
    ensures is { (extra_at extras.new.items at).variable ≡ variable }
    ensures others { ExtrasElsewhere at extras.old.items extras.new.items }
    ensures capacity { vec_capacity extras.new ≡ vec_capacity extras.old }
{
    fill(extras, at);
    extras[at as usize].variable = variable;
}

/// Keeps a residual at this place.
pub fn put_residual(extras: &mut Vec<Extra>, at: u64, residual: &Residual)
    requires { at < vec_capacity extras.old }
    ensures is { (extra_at extras.new.items at).residual ≡ residual.now }
    ensures others { ExtrasElsewhere at extras.old.items extras.new.items }
    ensures capacity { vec_capacity extras.new ≡ vec_capacity extras.old }
{
    fill(extras, at);
    extras[at as usize].residual = *residual;
}

/// Keeps a pair at this place.
pub fn put_pair(extras: &mut Vec<Extra>, at: u64, pair: Pair)
    requires { at < vec_capacity extras.old }
    ensures is { (extra_at extras.new.items at).pair ≡ pair }
    ensures others { ExtrasElsewhere at extras.old.items extras.new.items }
    ensures capacity { vec_capacity extras.new ≡ vec_capacity extras.old }
{
    fill(extras, at);
    extras[at as usize].pair = pair;
}

/// Keeps at one place all that is kept at another.
pub fn copy_extra(extras: &mut Vec<Extra>, from: u64, at: u64)
    requires { at < vec_capacity extras.old }
    ensures is { extra_at extras.new.items at ≡ extra_at extras.old.items from }
    ensures others { ExtrasElsewhere at extras.old.items extras.new.items }
    ensures capacity { vec_capacity extras.new ≡ vec_capacity extras.old }
{
    let extra = if from < extras.len() as u64 {
        extras[from as usize]
    } else {
        blank_extra()
    };
    fill(extras, at);
    extras[at as usize] = extra;
}

/// The slot of a local at this place, beside which there must be room.
pub fn keep_local(extras: &mut Vec<Extra>, at: u64, v: Val) -> StackSlot
    requires { at < vec_capacity extras.old }
    ensures is { (control : Control) → cell_of control (extra_at extras.new.items at) result
        ≡ CellVariants.Local v }
    ensures others { ExtrasElsewhere at extras.old.items extras.new.items }
    ensures capacity { vec_capacity extras.new ≡ vec_capacity extras.old }
{
    match v {
        Val::Null => StackSlot::LocalNull,
        Val::Integer(number) => StackSlot::LocalInteger(number),
        Val::Text(Span { start, len }) => {
            if len < NUMBER_LIMIT {
                StackSlot::LocalText {
                    len: len as u32,
                    start,
                }
            } else {
                put_value(extras, at, v);
                StackSlot::LocalOther
            }
        }
        Val::Chars(_) => {
            put_value(extras, at, v);
            StackSlot::LocalOther
        }
        Val::Std(File::Input) => StackSlot::LocalInput,
        Val::Std(File::Output) => StackSlot::LocalOutput,
        Val::Std(File::Errout) => StackSlot::LocalErrout,
        Val::Std(File::Opened(number)) => StackSlot::LocalOpened(number),
        Val::Proc(number) => StackSlot::LocalProc(number),
        Val::Rec(number) => StackSlot::LocalRec(number),
        Val::List(number) => StackSlot::LocalList(number),
        Val::Set(number) => StackSlot::LocalSet(number),
        Val::Table(number) => StackSlot::LocalTable(number),
        Val::Coexp(number) => StackSlot::LocalCoexp(number),
    }
}

/// The slot of a value that is an operand at this place, beside which there must be room.
pub fn keep_value(extras: &mut Vec<Extra>, at: u64, v: Val) -> StackSlot
    requires { at < vec_capacity extras.old }
    ensures is { (control : Control)
        → cell_of control (extra_at extras.new.items at) result ≡ CellVariants.Operand (Items.Val v) }
    ensures others { ExtrasElsewhere at extras.old.items extras.new.items }
    ensures capacity { vec_capacity extras.new ≡ vec_capacity extras.old }
{
    match v {
        Val::Null => StackSlot::ValNull,
        Val::Integer(number) => StackSlot::ValInteger(number),
        Val::Text(Span { start, len }) => {
            if len < NUMBER_LIMIT {
                StackSlot::ValText {
                    len: len as u32,
                    start,
                }
            } else {
                put_value(extras, at, v);
                StackSlot::ValOther
            }
        }
        Val::Chars(_) => {
            put_value(extras, at, v);
            StackSlot::ValOther
        }
        Val::Std(File::Input) => StackSlot::ValInput,
        Val::Std(File::Output) => StackSlot::ValOutput,
        Val::Std(File::Errout) => StackSlot::ValErrout,
        Val::Std(File::Opened(number)) => StackSlot::ValOpened(number),
        Val::Proc(number) => StackSlot::ValProc(number),
        Val::Rec(number) => StackSlot::ValRec(number),
        Val::List(number) => StackSlot::ValList(number),
        Val::Set(number) => StackSlot::ValSet(number),
        Val::Table(number) => StackSlot::ValTable(number),
        Val::Coexp(number) => StackSlot::ValCoexp(number),
    }
}

// The slot of a variable that is an operand at this place, beside which there must be room.
fn keep_variable(extras: &mut Vec<Extra>, at: u64, variable: VarRef) -> StackSlot
    requires { at < vec_capacity extras.old }
    ensures is { (control : Control)
        → cell_of control (extra_at extras.new.items at) result ≡ CellVariants.Operand (Items.Var variable) }
    ensures others { ExtrasElsewhere at extras.old.items extras.new.items }
    ensures capacity { vec_capacity extras.new ≡ vec_capacity extras.old }
{
    match variable {
        VarRef::Whole(Root::Global(number)) => StackSlot::VarGlobal(number),
        VarRef::Whole(Root::Static(number)) => StackSlot::VarStatic(number),
        VarRef::Whole(Root::Local(number)) => StackSlot::VarLocal(number),
        VarRef::Whole(Root::Element { list, number }) => StackSlot::VarElement { list, number },
        VarRef::Whole(Root::Field { rec, place }) => StackSlot::VarField {
            rec,
            place: u64::from(place),
        },
        VarRef::Whole(
            Root::Key {
                table,
                key: Val::Integer(key),
            },
        ) => StackSlot::VarKey { table, key },
        VarRef::Whole(Root::Keyword(KeywordVariable::Subject)) => StackSlot::VarSubject,
        VarRef::Whole(Root::Keyword(KeywordVariable::Position)) => StackSlot::VarPosition,
        VarRef::Whole(Root::Keyword(KeywordVariable::Random)) => StackSlot::VarRandom,
        _ => {
            put_variable(extras, at, variable);
            StackSlot::VarOther
        }
    }
}

/// The slot of an operand at this place, beside which there must be room.
pub fn keep_operand(extras: &mut Vec<Extra>, at: u64, x: Item) -> StackSlot
    requires { at < vec_capacity extras.old }
    ensures is { (control : Control)
        → cell_of control (extra_at extras.new.items at) result ≡ CellVariants.Operand x }
    ensures others { ExtrasElsewhere at extras.old.items extras.new.items }
    ensures capacity { vec_capacity extras.new ≡ vec_capacity extras.old }
{
    match x {
        Item::Val(v) => keep_value(extras, at, v),
        Item::Var(variable) => keep_variable(extras, at, variable),
    }
}

/// The value of the local at this place.
pub fn local_of(extras: &Vec<Extra>, at: u64, slot: StackSlot) -> Val
    ensures { (control : Control) (v : Val)
        → cell_of control (extra_at extras.now.items at) slot ≡ CellVariants.Local v → result ≡ v }
{
    match slot {
        StackSlot::LocalOther => value_at(extras, at),
        StackSlot::LocalInteger(number) => Val::Integer(number),
        StackSlot::LocalText { len, start } => Val::Text(Span {
            start,
            len: u64::from(len),
        }),
        StackSlot::LocalInput => Val::Std(File::Input),
        StackSlot::LocalOutput => Val::Std(File::Output),
        StackSlot::LocalErrout => Val::Std(File::Errout),
        StackSlot::LocalOpened(number) => Val::Std(File::Opened(number)),
        StackSlot::LocalProc(number) => Val::Proc(number),
        StackSlot::LocalRec(number) => Val::Rec(number),
        StackSlot::LocalList(number) => Val::List(number),
        StackSlot::LocalSet(number) => Val::Set(number),
        StackSlot::LocalTable(number) => Val::Table(number),
        StackSlot::LocalCoexp(number) => Val::Coexp(number),
        _ => Val::Null,
    }
}

/// The value of the operand at this place, if it is one.
#[inline(always)]
pub fn value_of(extras: &Vec<Extra>, at: u64, slot: StackSlot) -> Option<Val>
    ensures { (control : Control) (x : Item)
        → cell_of control (extra_at extras.now.items at) slot ≡ CellVariants.Operand x
        → result ≡ value_only x }
{
    match slot {
        StackSlot::ValNull => Some(Val::Null),
        StackSlot::ValOther => Some(value_at(extras, at)),
        StackSlot::ValInteger(number) => Some(Val::Integer(number)),
        StackSlot::ValText { len, start } => Some(Val::Text(Span {
            start,
            len: u64::from(len),
        })),
        StackSlot::ValInput => Some(Val::Std(File::Input)),
        StackSlot::ValOutput => Some(Val::Std(File::Output)),
        StackSlot::ValErrout => Some(Val::Std(File::Errout)),
        StackSlot::ValOpened(number) => Some(Val::Std(File::Opened(number))),
        StackSlot::ValProc(number) => Some(Val::Proc(number)),
        StackSlot::ValRec(number) => Some(Val::Rec(number)),
        StackSlot::ValList(number) => Some(Val::List(number)),
        StackSlot::ValSet(number) => Some(Val::Set(number)),
        StackSlot::ValTable(number) => Some(Val::Table(number)),
        StackSlot::ValCoexp(number) => Some(Val::Coexp(number)),
        _ => None,
    }
}

/// The operand at this place.
pub fn operand_of(extras: &Vec<Extra>, at: u64, slot: StackSlot) -> Item
    ensures { (control : Control) (x : Item)
        → cell_of control (extra_at extras.now.items at) slot ≡ CellVariants.Operand x → result ≡ x }
{
    match slot {
        StackSlot::ValOther => Item::Val(value_at(extras, at)),
        StackSlot::VarOther => Item::Var(variable_at(extras, at)),
        StackSlot::ValInteger(number) => Item::Val(Val::Integer(number)),
        StackSlot::ValText { len, start } => Item::Val(Val::Text(Span {
            start,
            len: u64::from(len),
        })),
        StackSlot::ValInput => Item::Val(Val::Std(File::Input)),
        StackSlot::ValOutput => Item::Val(Val::Std(File::Output)),
        StackSlot::ValErrout => Item::Val(Val::Std(File::Errout)),
        StackSlot::ValOpened(number) => Item::Val(Val::Std(File::Opened(number))),
        StackSlot::ValProc(number) => Item::Val(Val::Proc(number)),
        StackSlot::ValRec(number) => Item::Val(Val::Rec(number)),
        StackSlot::ValList(number) => Item::Val(Val::List(number)),
        StackSlot::ValSet(number) => Item::Val(Val::Set(number)),
        StackSlot::ValTable(number) => Item::Val(Val::Table(number)),
        StackSlot::ValCoexp(number) => Item::Val(Val::Coexp(number)),
        StackSlot::VarGlobal(number) => Item::Var(VarRef::Whole(Root::Global(number))),
        StackSlot::VarStatic(number) => Item::Var(VarRef::Whole(Root::Static(number))),
        StackSlot::VarLocal(number) => Item::Var(VarRef::Whole(Root::Local(number))),
        StackSlot::VarElement { list, number } => {
            Item::Var(VarRef::Whole(Root::Element { list, number }))
        }
        StackSlot::VarField { rec, place } => Item::Var(VarRef::Whole(Root::Field {
            rec,
            place: (place % 65536) as u16,
        })),
        StackSlot::VarKey { table, key } => Item::Var(VarRef::Whole(Root::Key {
            table,
            key: Val::Integer(key),
        })),
        StackSlot::VarSubject => Item::Var(VarRef::Whole(Root::Keyword(KeywordVariable::Subject))),
        StackSlot::VarPosition => Item::Var(VarRef::Whole(Root::Keyword(
            KeywordVariable::Position,
        ))),
        StackSlot::VarRandom => Item::Var(VarRef::Whole(Root::Keyword(KeywordVariable::Random))),
        _ => Item::Val(Val::Null),
    }
}

/// Whether a slot is an operand's.
pub fn is_operand(slot: StackSlot) -> bool
    ensures { (control : Control) (extra : Extra)
        → result ≡ is_some (operand_in (Some (cell_of control extra slot))) }
{
    match slot {
        StackSlot::ValOther | StackSlot::VarOther | StackSlot::ValNull | StackSlot::ValInteger(_) =>
            true,
        StackSlot::ValText { .. }
        | StackSlot::ValInput
        | StackSlot::ValOutput
        | StackSlot::ValErrout => true,
        StackSlot::ValOpened(_)
        | StackSlot::ValProc(_)
        | StackSlot::ValRec(_)
        | StackSlot::ValList(_) => true,
        StackSlot::ValSet(_) | StackSlot::ValTable(_) | StackSlot::ValCoexp(_) => true,
        StackSlot::VarGlobal(_) | StackSlot::VarStatic(_) | StackSlot::VarLocal(_) => true,
        StackSlot::VarElement { .. } | StackSlot::VarField { .. } | StackSlot::VarKey { .. } =>
            true,
        StackSlot::VarSubject | StackSlot::VarPosition | StackSlot::VarRandom => true,
        _ => false,
    }
}

/// Whether a slot is a local's.
pub fn is_local(slot: StackSlot) -> bool
    ensures { (control : Control) (extra : Extra)
        → result ≡ is_some (local_in (Some (cell_of control extra slot))) }
{
    match slot {
        StackSlot::LocalOther | StackSlot::LocalNull | StackSlot::LocalInteger(_) => true,
        StackSlot::LocalText { .. }
        | StackSlot::LocalInput
        | StackSlot::LocalOutput
        | StackSlot::LocalErrout => true,
        StackSlot::LocalOpened(_)
        | StackSlot::LocalProc(_)
        | StackSlot::LocalRec(_)
        | StackSlot::LocalList(_) => true,
        StackSlot::LocalSet(_) | StackSlot::LocalTable(_) | StackSlot::LocalCoexp(_) => true,
        _ => false,
    }
}

/// Whether a slot is that of an operand beside which nothing is kept.
pub fn is_plain_operand(slot: StackSlot) -> bool
    ensures { result ≡ is_some (plain_operand slot) }
{
    match slot {
        StackSlot::ValNull
        | StackSlot::ValInteger(_)
        | StackSlot::ValText { .. }
        | StackSlot::ValInput => true,
        StackSlot::ValOutput
        | StackSlot::ValErrout
        | StackSlot::ValOpened(_)
        | StackSlot::ValProc(_) => true,
        StackSlot::ValRec(_)
        | StackSlot::ValList(_)
        | StackSlot::ValSet(_)
        | StackSlot::ValTable(_) => true,
        StackSlot::ValCoexp(_) => true,
        StackSlot::VarGlobal(_) | StackSlot::VarStatic(_) | StackSlot::VarLocal(_) => true,
        StackSlot::VarElement { .. } | StackSlot::VarField { .. } | StackSlot::VarKey { .. } =>
            true,
        StackSlot::VarSubject | StackSlot::VarPosition | StackSlot::VarRandom => true,
        _ => false,
    }
}

/// Whether a slot is that of a local beside which nothing is kept.
pub fn is_plain_local(slot: StackSlot) -> bool
    ensures { result ≡ is_some (plain_local slot) }
{
    match slot {
        StackSlot::LocalNull
        | StackSlot::LocalInteger(_)
        | StackSlot::LocalText { .. }
        | StackSlot::LocalInput => true,
        StackSlot::LocalOutput
        | StackSlot::LocalErrout
        | StackSlot::LocalOpened(_)
        | StackSlot::LocalProc(_) => true,
        StackSlot::LocalRec(_)
        | StackSlot::LocalList(_)
        | StackSlot::LocalSet(_)
        | StackSlot::LocalTable(_)
        | StackSlot::LocalCoexp(_) => true,
        _ => false,
    }
}

/// The slot of an operand that is the value of a local, where nothing is kept beside the slot of the local.
pub fn local_as_operand(slot: StackSlot) -> StackSlot
    ensures { plain_operand result ≡ option_map Items.Val (plain_local slot) }
{
    match slot {
        StackSlot::LocalNull => StackSlot::ValNull,
        StackSlot::LocalInteger(number) => StackSlot::ValInteger(number),
        StackSlot::LocalText { len, start } => StackSlot::ValText { len, start },
        StackSlot::LocalInput => StackSlot::ValInput,
        StackSlot::LocalOutput => StackSlot::ValOutput,
        StackSlot::LocalErrout => StackSlot::ValErrout,
        StackSlot::LocalOpened(number) => StackSlot::ValOpened(number),
        StackSlot::LocalProc(number) => StackSlot::ValProc(number),
        StackSlot::LocalRec(number) => StackSlot::ValRec(number),
        StackSlot::LocalList(number) => StackSlot::ValList(number),
        StackSlot::LocalSet(number) => StackSlot::ValSet(number),
        StackSlot::LocalTable(number) => StackSlot::ValTable(number),
        StackSlot::LocalCoexp(number) => StackSlot::ValCoexp(number),
        _ => StackSlot::ValOther,
    }
}

/// The slot of a local with the value of an operand, where nothing is kept beside the slot of the operand.
pub fn operand_as_local(slot: StackSlot) -> StackSlot
    ensures { plain_local result ≡ plain_value slot }
{
    match slot {
        StackSlot::ValNull => StackSlot::LocalNull,
        StackSlot::ValInteger(number) => StackSlot::LocalInteger(number),
        StackSlot::ValText { len, start } => StackSlot::LocalText { len, start },
        StackSlot::ValInput => StackSlot::LocalInput,
        StackSlot::ValOutput => StackSlot::LocalOutput,
        StackSlot::ValErrout => StackSlot::LocalErrout,
        StackSlot::ValOpened(number) => StackSlot::LocalOpened(number),
        StackSlot::ValProc(number) => StackSlot::LocalProc(number),
        StackSlot::ValRec(number) => StackSlot::LocalRec(number),
        StackSlot::ValList(number) => StackSlot::LocalList(number),
        StackSlot::ValSet(number) => StackSlot::LocalSet(number),
        StackSlot::ValTable(number) => StackSlot::LocalTable(number),
        StackSlot::ValCoexp(number) => StackSlot::LocalCoexp(number),
        _ => StackSlot::LocalOther,
    }
}

/// Whether something may be kept beside a slot.
pub fn is_sided(slot: StackSlot) -> bool
    ensures { OnFalse result (IsFree slot) }
{
    match slot {
        StackSlot::CallFrame { .. } | StackSlot::PlainMark | StackSlot::LabelMark { .. } => true,
        StackSlot::SetMark { .. } | StackSlot::LimitMark { .. } => true,
        StackSlot::AltHeld { .. }
        | StackSlot::OpHeld { .. }
        | StackSlot::CountHeld { .. }
        | StackSlot::MoveHeld { .. }
        | StackSlot::ScanHeld { .. }
        | StackSlot::EscanHeld { .. }
        | StackSlot::ProcHeld { .. } => true,
        StackSlot::LocalOther | StackSlot::ValOther | StackSlot::VarOther => true,
        _ => false,
    }
}

/// The procedure of a frame.
pub fn proc_of(slot: StackSlot) -> u32
    ensures { (control : Control) (extra : Extra)
        → result ≡ flat.proc_of (Some (cell_of control extra slot)) }
{
    match slot {
        StackSlot::BaseFrame { proc, .. } => proc,
        StackSlot::CallFrame { proc, .. } => proc,
        _ => 0,
    }
}

/// How many locals a frame has.
pub fn locals_of(slot: StackSlot) -> u64
    ensures { (control : Control) (extra : Extra)
        → result ≡ flat.locals_of (Some (cell_of control extra slot)) }
{
    match slot {
        StackSlot::BaseFrame { locals, .. } => locals,
        StackSlot::CallFrame { locals, .. } => locals,
        _ => 0,
    }
}

/// The level of a call.
pub fn level_of(slot: StackSlot, level: u64) -> u64
    ensures { (control : Control) (extra : Extra) → control.level ≡ level
        → result ≡ flat.level_of (Some (cell_of control extra slot)) }
{
    match slot {
        StackSlot::CallFrame { .. } => level,
        _ => 1,
    }
}

/// Whether a slot is the lowest frame's.
pub fn is_base_cell(slot: StackSlot) -> bool
    ensures { (control : Control) (extra : Extra)
        → result ≡ flat.is_base_cell (Some (cell_of control extra slot)) }
{
    match slot {
        StackSlot::BaseFrame { .. } => true,
        _ => false,
    }
}

/// The label of a plain mark.
pub fn label_in(slot: StackSlot) -> Option<u32>
    ensures { (control : Control) (extra : Extra)
        → result ≡ flat.label_in (Some (cell_of control extra slot)) }
{
    match slot {
        StackSlot::LabelMark { label } => Some(label),
        StackSlot::SetMark { label } => Some(label),
        _ => None,
    }
}

/// Whether a slot is a plain mark's.
pub fn is_plain(slot: StackSlot) -> bool
    ensures { (control : Control) (extra : Extra)
        → result ≡ is_plain_cell (Some (cell_of control extra slot)) }
{
    match slot {
        StackSlot::PlainMark => true,
        StackSlot::LabelMark { .. } => true,
        StackSlot::SetMark { .. } => true,
        _ => false,
    }
}

/// Whether a slot is that of a mark whose label was set anew.
pub fn is_relabelled(slot: StackSlot) -> bool
    ensures { (control : Control) (extra : Extra)
        → result ≡ flat.is_relabelled_in (Some (cell_of control extra slot)) }
{
    match slot {
        StackSlot::SetMark { .. } => true,
        _ => false,
    }
}

/// The count of a limit mark.
pub fn count_of(slot: StackSlot) -> u64
    ensures { (control : Control) (extra : Extra) → result ≡ count_in (Some (cell_of control extra slot)) }
{
    match slot {
        StackSlot::LimitMark { count } => count,
        _ => 0,
    }
}

/// The slot of a mark, or with a count of a limit mark.
pub fn mark_slot(label: Option<u32>, count: Option<u64>) -> StackSlot
    ensures { (control : Control) (extra : Extra)
        → cell_of control extra result ≡ flat.mark_cell label count control.saved }
{
    match (count, label) {
        (Some(count), _) => StackSlot::LimitMark { count },
        (None, None) => StackSlot::PlainMark,
        (None, Some(label)) => StackSlot::LabelMark { label },
    }
}

/// The slot of a suspension at this place, beside which there must be room.
pub fn keep_why(extras: &mut Vec<Extra>, at: u64, why: &Why, address: u32) -> StackSlot
    requires { at < vec_capacity extras.old }
    ensures is { (control : Control)
        → cell_of control (extra_at extras.new.items at) result
        ≡ CellVariants.Suspension why.now control.saved address }
    ensures others { ExtrasElsewhere at extras.old.items extras.new.items }
    ensures capacity { vec_capacity extras.new ≡ vec_capacity extras.old }
{
    match why {
        Why::Alt => StackSlot::AltHeld { address },
        Why::Op(residual) => {
            put_residual(extras, at, residual);
            StackSlot::OpHeld { address }
        }
        Why::Scan(pair) => {
            put_pair(extras, at, *pair);
            StackSlot::ScanHeld { address }
        }
        Why::Escan => StackSlot::EscanHeld { address },
        Why::Proc => StackSlot::ProcHeld { address },
    }
}

/// Why what is at this place was suspended, where a count ends so.
pub fn why_of(extras: &Vec<Extra>, at: u64, slot: StackSlot, range: CountRange) -> Why
    ensures { (control : Control) (why : Why) (registers : Registers) (address : ℕ)
        → control.range ≡ range
        → cell_of control (extra_at extras.now.items at) slot ≡ CellVariants.Suspension why registers address
        → result ≡ why }
{
    match slot {
        StackSlot::OpHeld { .. } => Why::Op(residual_at(extras, at)),
        StackSlot::CountHeld { given, .. } => Why::Op(Residual::Counting {
            given,
            last: range.last,
            step: range.step,
        }),
        StackSlot::MoveHeld { old, .. } => Why::Op(Residual::UndoPosition { old }),
        StackSlot::ScanHeld { .. } => Why::Scan(pair_at(extras, at)),
        StackSlot::EscanHeld { .. } => Why::Escan,
        StackSlot::ProcHeld { .. } => Why::Proc,
        _ => Why::Alt,
    }
}

/// All that is kept at this place for slots that are too small.
pub fn extra_of(extras: &Vec<Extra>, at: u64) -> Extra
    ensures { result ≡ extra_at extras.now.items at }
{
    if at < extras.len() as u64 {
        extras[at as usize]
    } else {
        blank_extra()
    }
}

/// What a suspension is there for, if the slot is one's, beside which this is kept, where a count ends so.
pub fn suspended_of(extra: Extra, slot: StackSlot, range: CountRange) -> Option<Why>
    ensures { (control : Control) → control.range ≡ range
        → result ≡ why_in (Some (cell_of control extra slot)) }
{
    match slot {
        StackSlot::AltHeld { .. } => Some(Why::Alt),
        StackSlot::OpHeld { .. } => Some(Why::Op(extra.residual)),
        StackSlot::CountHeld { given, .. } => Some(Why::Op(Residual::Counting {
            given,
            last: range.last,
            step: range.step,
        })),
        StackSlot::MoveHeld { old, .. } => Some(Why::Op(Residual::UndoPosition { old })),
        StackSlot::ScanHeld { .. } => Some(Why::Scan(extra.pair)),
        StackSlot::EscanHeld { .. } => Some(Why::Escan),
        StackSlot::ProcHeld { .. } => Some(Why::Proc),
        _ => None,
    }
}

/// What the cell at this place holds in which a value may stand, where a count ends so. It does not call `why_of`, so that resuming has
/// that in its place.
pub fn content_of(extras: &Vec<Extra>, at: u64, slot: StackSlot, range: CountRange) -> CellContent
    ensures { (control : Control) → control.range ≡ range
        → result ≡ content_of (cell_of control (extra_at extras.now.items at) slot) }
{
    if is_operand(slot) {
        return CellContent::Operand(operand_of(extras, at, slot));
    }
    if is_local(slot) {
        return CellContent::Local(local_of(extras, at, slot));
    }
    match suspended_of(extra_of(extras, at), slot, range) {
        Some(why) => CellContent::Suspended(why),
        None => CellContent::Nothing,
    }
}

/// What a slot tells of why something was suspended.
pub fn kind_of(slot: StackSlot) -> NewestKind
    ensures { (control : Control) (extra : Extra) (why : Why) (registers : Registers) (address : ℕ)
        → cell_of control extra slot ≡ CellVariants.Suspension why registers address → TellsWhy result why }
{
    match slot {
        StackSlot::AltHeld { .. } => NewestKind::Alt,
        StackSlot::CountHeld { .. } => NewestKind::Count,
        StackSlot::EscanHeld { .. } => NewestKind::Escan,
        StackSlot::ProcHeld { .. } => NewestKind::Proc,
        _ => NewestKind::Other,
    }
}

/// The count that a slot is the suspension of, where it ends so.
pub fn count_held(slot: StackSlot, range: CountRange) -> Option<Count>
    ensures { (control : Control) (extra : Extra) (why : Why) (registers : Registers) (address : ℕ)
        → control.range ≡ range
        → cell_of control extra slot ≡ CellVariants.Suspension why registers address
        → IfSome result (λ count. why ≡ why_counting count.given count.last count.step) }
{
    match slot {
        StackSlot::CountHeld { given, .. } => Some(Count {
            given,
            last: range.last,
            step: range.step,
        }),
        _ => None,
    }
}

/// The residual that a suspension at this place keeps beside its slot, where it keeps one there.
pub fn residual_held(extras: &Vec<Extra>, at: u64, slot: StackSlot) -> Option<Residual>
    ensures { (control : Control) (why : Why) (registers : Registers) (address : ℕ)
        → cell_of control (extra_at extras.now.items at) slot ≡ CellVariants.Suspension why registers address
        → IfSome result (λ rest. why ≡ Whys.Op rest) }
{
    match slot {
        StackSlot::OpHeld { .. } => Some(residual_at(extras, at)),
        _ => None,
    }
}

/// The address at which a suspension goes on.
pub fn address_of(slot: StackSlot) -> u32
    ensures { (control : Control) (extra : Extra) (why : Why) (registers : Registers) (address : ℕ)
        → cell_of control extra slot ≡ CellVariants.Suspension why registers address → result ≡ address }
{
    match slot {
        StackSlot::AltHeld { address } => address,
        StackSlot::OpHeld { address } => address,
        StackSlot::CountHeld { address, .. } => address,
        StackSlot::MoveHeld { address, .. } => address,
        StackSlot::ScanHeld { address } => address,
        StackSlot::EscanHeld { address } => address,
        StackSlot::ProcHeld { address } => address,
        _ => 0,
    }
}

/// Makes room for something at each of this many places. `AllocError` is want of memory; all is as it was then.
pub fn make_beside(extras: &mut Vec<Extra>, want: u64) -> Result<(), AllocError>
    ensures items { extras.new.items ≡ extras.old.items }
    ensures ok { OnOk result (want ≤ vec_capacity extras.new) }
    ensures capacity { vec_capacity extras.old ≤ vec_capacity extras.new }
{
    let have = extras.len() as u64;
    if want <= have {
        return Ok(());
    }
    extras.reserve((want - have) as usize)
}

/// Has something stand at each of this many places, which are no fewer than there are. `AllocError` is want of memory; all
/// is as it was then.
pub fn make_controls(controls: &mut Vec<Control>, want: u64) -> Result<(), AllocError>
    requires { vec_len controls.old ≤ want }
    ensures same { (place : ℕ) → control_at controls.new.items place ≡ control_at controls.old.items place }
    ensures ok { OnOk result (vec_len controls.new ≡ want) }
    ensures err { OnErr result (vec_len controls.new ≡ vec_len controls.old) }
{
    let have = controls.len() as u64;
    controls.reserve((want - have) as usize)?;
    for _ in have..want {
        controls.push_reserved(blank_control());
    }
    Ok(())
}

/// The registers that are kept at this place.
pub fn saved_of(controls: &Vec<Control>, at: u64) -> Registers
    requires { at < vec_len controls.now }
    ensures { result ≡ (control_at controls.now.items at).saved }
{
    controls[at as usize].saved
}

/// Where the count ends whose range is kept at this place.
pub fn range_of(controls: &Vec<Control>, at: u64) -> CountRange
    requires { at < vec_len controls.now }
    ensures { result ≡ (control_at controls.now.items at).range }
{
    controls[at as usize].range
}

/// The level that is kept at this place.
pub fn depth_of(controls: &Vec<Control>, at: u64) -> u64
    requires { at < vec_len controls.now }
    ensures { result ≡ (control_at controls.now.items at).level }
{
    controls[at as usize].level
}

/// The address that is kept at this place.
pub fn return_of(controls: &Vec<Control>, at: u64) -> u32
    requires { at < vec_len controls.now }
    ensures { result ≡ (control_at controls.now.items at).address }
{
    controls[at as usize].address
}

/// Keeps registers at this place.
pub fn put_saved(controls: &mut Vec<Control>, at: u64, saved: Registers)
    requires { at < vec_len controls.old }
    ensures is { (control_at controls.new.items at).saved ≡ saved }
    ensures others { ControlsElsewhere at controls.old.items controls.new.items }
    ensures len { vec_len controls.new ≡ vec_len controls.old }
{
    controls[at as usize].saved = saved;
}

/// Keeps registers, and where a count ends, at this place.
pub fn put_counted(controls: &mut Vec<Control>, at: u64, saved: Registers, range: CountRange)
    requires { at < vec_len controls.old }
    ensures saved { (control_at controls.new.items at).saved ≡ saved }
    ensures range { (control_at controls.new.items at).range ≡ range }
    ensures others { ControlsElsewhere at controls.old.items controls.new.items }
    ensures len { vec_len controls.new ≡ vec_len controls.old }
{
    controls[at as usize].saved = saved;
    controls[at as usize].range = range;
}

/// Keeps where a count ends at this place.
pub fn put_range(controls: &mut Vec<Control>, at: u64, range: CountRange)
    requires { at < vec_len controls.old }
    ensures saved { (control_at controls.new.items at).saved ≡ (control_at controls.old.items at).saved }
    ensures range { (control_at controls.new.items at).range ≡ range }
    ensures others { ControlsElsewhere at controls.old.items controls.new.items }
    ensures len { vec_len controls.new ≡ vec_len controls.old }
{
    controls[at as usize].range = range;
}

/// Keeps all that a call has at this place.
pub fn put_control(controls: &mut Vec<Control>, at: u64, control: Control)
    requires { at < vec_len controls.old }
    ensures is { control_at controls.new.items at ≡ control }
    ensures others { ControlsElsewhere at controls.old.items controls.new.items }
    ensures len { vec_len controls.new ≡ vec_len controls.old }
{
    controls[at as usize] = control;
}

/// Keeps at one place what is kept at another.
pub fn copy_control(controls: &mut Vec<Control>, from: u64, at: u64)
    requires from { from < vec_len controls.old }
    requires at { at < vec_len controls.old }
    ensures is { control_at controls.new.items at ≡ control_at controls.old.items from }
    ensures others { ControlsElsewhere at controls.old.items controls.new.items }
    ensures len { vec_len controls.new ≡ vec_len controls.old }
{
    let control = controls[from as usize];
    controls[at as usize] = control;
}

/// Keeps beside a slot at one place what is kept beside it at another.
pub fn copy_beside(
    controls: &mut Vec<Control>,
    extras: &mut Vec<Extra>,
    slot: StackSlot,
    from: u64,
    at: u64,
)
    requires from { from < vec_len controls.old }
    requires at { at < vec_len controls.old }
    requires room { at < vec_capacity extras.old }
    ensures is { cell_of (control_at controls.new.items at) (extra_at extras.new.items at) slot
        ≡ cell_of (control_at controls.old.items from) (extra_at extras.old.items from) slot }
    ensures others { ControlsElsewhere at controls.old.items controls.new.items }
    ensures len { vec_len controls.new ≡ vec_len controls.old }
    ensures extras { ExtrasElsewhere at extras.old.items extras.new.items }
    ensures capacity { vec_capacity extras.new ≡ vec_capacity extras.old }
{
    if is_sided(slot) {
        copy_control(controls, from, at);
        copy_extra(extras, from, at);
    }
}
