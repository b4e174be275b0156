// What variables can hold.
ghost use Rattle.std.specs.Prelude.{◌≡◌, is_some};
ghost use Rattle.icn_defs.specs.Conversions.{held_integer, held_text};
ghost use Rattle.icn_defs.specs.RowFacts.{can_hold, root_holds};
ghost use Rattle.icn_heap.specs.Extents.{Extent, value_in};
ghost use Rattle.icn_vars.specs.Worlds.{root_in, variable_in};

use icn_value::{KeywordVariable, Root, Val, VarRef};

/// Whether a variable can hold a value: a part and &subject a text, &pos, &random and &error an integer, all others any.
pub fn can_hold(variable: VarRef, val: Val) -> bool
    ensures { (all : Extent) → can_hold (variable_in all variable) (value_in all val) ≡ result }
{
    match variable {
        VarRef::Whole(root) => root_holds(root, val),
        VarRef::Part { .. } => is_text(val),
    }
}

fn root_holds(root: Root, val: Val) -> bool
    ensures { (all : Extent) → root_holds (root_in all root) (value_in all val) ≡ result }
{
    match root {
        Root::Global(_) => true,
        Root::Static(_) => true,
        Root::Local(_) => true,
        Root::Element { .. } => true,
        Root::Field { .. } => true,
        Root::Key { .. } => true,
        Root::Keyword(word) => match word {
            KeywordVariable::Subject => is_text(val),
            KeywordVariable::Position => is_integer(val),
            KeywordVariable::Random => is_integer(val),
            KeywordVariable::ErrorCount => is_integer(val),
        },
    }
}

fn is_text(val: Val) -> bool
    ensures { (all : Extent) → is_some (held_text (value_in all val)) ≡ result }
{
    match val {
        Val::Null => false,
        Val::Integer(_) => false,
        Val::Text(_) => true,
        Val::Chars(_) => false,
        Val::Std(_) => false,
        Val::Proc(_) => false,
        Val::Rec(_) => false,
        Val::List(_) => false,
        Val::Set(_) => false,
        Val::Table(_) => false,
        Val::Coexp(_) => false,
    }
}

fn is_integer(val: Val) -> bool
    ensures { (all : Extent) → is_some (held_integer (value_in all val)) ≡ result }
{
    match val {
        Val::Null => false,
        Val::Integer(_) => true,
        Val::Text(_) => false,
        Val::Chars(_) => false,
        Val::Std(_) => false,
        Val::Proc(_) => false,
        Val::Rec(_) => false,
        Val::List(_) => false,
        Val::Set(_) => false,
        Val::Table(_) => false,
        Val::Coexp(_) => false,
    }
}
