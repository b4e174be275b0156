// What is called by a number.
ghost use Rattle.std.specs.Prelude.{◌≡◌, ◌+◌, List, length, slice_get, IfSome};
ghost use Rattle.icn_defs.specs.Numbers.{func_of};
ghost use Rattle.icn_heap.specs.Extents.{Extent, value_in};
ghost use Rattle.icn_run.specs.Rows.{Function, Item, apply};
ghost use Rattle.icn_run.specs.Stacks.{Frames, flat as calls};
ghost use Rattle.icn_run.specs.Step.{Store, here, invoke_value, outcome};
ghost use Rattle.icn_code.specs.CodeTables.{tables_of};
ghost use Rattle.icn_calls.specs.Calling.{IsCallee, function_in};

use icn_code::Code;
use icn_text::Func;
use icn_value::Val;

/// What is called by a number. Procedures are numbered before constructors, and these before functions.
#[derive(Clone, Copy, Debug, PartialEq, Eq)]
pub enum Callee {
    /// The procedure of this number.
    Proc,
    /// The constructor of this kind of records.
    Rec(u32),
    /// A built-in function.
    Func(Func),
    /// No number of anything.
    Nothing,
}

// How many procedures a code has.
fn proc_count(code: &Code) -> usize
    ensures { result ≡ length (tables_of code.now).procs }
{
    code.procs.as_slice().len()
}

// How many records a code has.
pub(crate) fn record_count(code: &Code) -> usize
    ensures { result ≡ length (tables_of code.now).records }
{
    code.records.as_slice().len()
}

// The function at a place among some, if there is one.
fn function_among(funcs: &[Func], place: usize) -> Option<Func>
    ensures { result ≡ slice_get funcs.now place }
{
    funcs.get(place).copied()
}

// The function of a number, where the first one has the number 0.
fn function_at(place: u32) -> Option<Func>
    ensures { result ≡ func_of (place + 1) }
{
    function_among(&Func::ALL, place as usize)
}

/// What a number names in a code. It takes no memory.
pub fn callee_of(code: &Code, number: u32) -> Callee
    ensures { IsCallee (tables_of code.now) number result }
{
    let place = number as usize;
    let procs = proc_count(code);
    if place < procs {
        return Callee::Proc;
    }
    let records = record_count(code);
    if place - procs < records {
        return Callee::Rec((place - procs) as u32);
    }
    match function_at((place - procs - records) as u32) {
        Some(func) => Callee::Func(func),
        None => Callee::Nothing,
    }
}

/// The built-in function that a value names, where it names one. It takes no memory.
pub fn function_of(code: &Code, callee: Val) -> Option<Func>
    ensures function { result ≡ function_in (tables_of code.now) callee }
    ensures invoked { IfSome result (λ func. (all : Extent) (items : List Item) (m : Frames)
        (st : Store Frames) → invoke_value calls (tables_of code.now) (value_in all callee) items m st
        ≡ outcome calls (apply st.names (Function func) items (here calls m st)) m st) }
{
    let Val::Proc(number) = callee else {
        return None;
    };
    match callee_of(code, number) {
        Callee::Func(func) => Some(func),
        Callee::Proc => None,
        Callee::Rec(_) => None,
        Callee::Nothing => None,
    }
}
