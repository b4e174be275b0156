// The names of a code.
ghost use Rattle.std.specs.Prelude.{◌≡◌, ◌<◌, length, slice_get, slice_index_or, map, Some, []};
ghost use Rattle.icn_text.specs.Funcs.{func_name};
ghost use Rattle.icn_defs.specs.Images.{functions};
ghost use Rattle.icn_code.specs.CodeTables.{tables_of};
ghost use Rattle.icn_defs.specs.NamedValues.{function_arguments};
ghost use Rattle.icn_apply.specs.CodeNaming.{names_of, proc_arguments, record_arguments};

use icn_code::Code;
use icn_defs::function_arguments;
use icn_text::Func;

// A string of the code, or nothing where it has none there.
fn text(code: &Code, place: u32) -> &[u8]
    ensures { result.now ≡ slice_index_or (tables_of code.now).strings place [] }
{
    match code.strings.get(place as usize) {
        Some(bytes) => bytes.as_slice(),
        None => &[],
    }
}

/// The name of a procedure, by its place.
pub fn procedure_name(code: &Code, place: usize) -> &[u8]
    requires { place < length (tables_of code.now).procs }
    ensures { slice_get (names_of (tables_of code.now)).procedures place ≡ Some result.now }
{
    text(code, code.procs[place].name)
}

/// The name of a record, by its place.
pub fn record_name(code: &Code, place: usize) -> &[u8]
    requires { place < length (tables_of code.now).records }
    ensures { slice_get (names_of (tables_of code.now)).records place ≡ Some result.now }
{
    text(code, code.records[place].name)
}

/// How many arguments a procedure takes, by its place: below 0 where its last parameter collects those that are left.
pub fn procedure_arguments(code: &Code, place: usize) -> i64
    requires { place < length (tables_of code.now).procs }
    ensures { slice_get (map proc_arguments (tables_of code.now).procs) place ≡ Some result }
{
    let entry = &code.procs[place];
    let parameters = i64::from(entry.parameters);
    if entry.collects {
        -parameters
    } else {
        parameters
    }
}

/// How many arguments a constructor takes, by its place: the fields of its records.
pub fn record_arguments(code: &Code, place: usize) -> i64
    requires { place < length (tables_of code.now).records }
    ensures { slice_get (map record_arguments (tables_of code.now).records) place ≡ Some result }
{
    code.records[place].fields.len() as i64
}

/// How many arguments a function takes, by its place among them.
pub fn arguments_of_function(place: usize) -> i64
    requires { place < length functions }
    ensures { slice_get (map function_arguments functions) place ≡ Some result }
{
    function_arguments(Func::ALL[place])
}

/// The name of a function, by its place among them.
pub fn function_name(place: usize) -> &'static [u8]
    requires { place < length functions }
    ensures { slice_get (map func_name functions) place ≡ Some result.now }
{
    Func::ALL[place].name()
}
