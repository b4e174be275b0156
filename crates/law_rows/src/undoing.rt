// Laws of what is taken back.
ghost use Rattle.std.specs.Prelude.{◌≡◌, ◌≤◌, ◌+◌, ◌-◌, ℕ, true, List, length, Some};
ghost use Rattle.icn_defs.specs.ReadAndAssign.{with_part, root_value, table_value};
ghost use Rattle.icn_defs.specs.Rows.{Row};
ghost use Rattle.icn_value.specs.Store.{Setting, Table};
ghost use Rattle.icn_value.specs.Values.{Root, Value};
ghost use Rattle.law_rows.specs.Undos.{assigned_and_undone, is_kept, part_at, with_value};

/// An undo of an assignment to a global, a static, a local, an element or a field leaves everything as it was before the assignment; at a key
/// of a table it is the value that was assigned last that is read; and a part of a text that is replaced, and replaced back, leaves the text.
pub fn undoing_gives_back()
    ensures whole { (root : Root) (value old : Value) (next : Row) (at : Setting) → is_kept root ≡ true
        → root_value at root ≡ Some old → assigned_and_undone root value old next at ≡ next at }
    ensures key { (table : Table) (key value : Value) → table_value (with_value table key value) key ≡ value }
    ensures part { (text new : List ℕ) (place size : ℕ) → 1 ≤ place → place - 1 + size ≤ length text
        → with_part (with_part text place size new) place (length new) (part_at text place size) ≡ text }
{}
