// Laws of what an error leaves.
ghost use Rattle.std.specs.Prelude.{◌≡◌, List, false};
ghost use Rattle.icn_defs.specs.Applying.{again, function_row, operation_row};
ghost use Rattle.icn_defs.specs.Rows.{Residual};
ghost use Rattle.icn_text.specs.declared.func.Func.{Func};
ghost use Rattle.icn_text.specs.declared.op.Op.{Op};
ghost use Rattle.icn_value.specs.Store.{Names, Setting};
ghost use Rattle.icn_value.specs.Values.{Item};
ghost use Rattle.law_rows.specs.Unchanged.{is_exchange, UnchangedByError, undoes_exchange};

/// Where an operation, a function or a resumption is an error that is none of a limit, nothing was charged and nothing changed. Exchanges and
/// their undos alone assign one side before they look at the other.
pub fn errors_change_nothing()
    ensures operations { (op : Op) (items : List Item) (at : Setting) → is_exchange op ≡ false
        → UnchangedByError at (operation_row op items at) }
    ensures functions { (names : Names) (func : Func) (items : List Item) (at : Setting)
        → UnchangedByError at (function_row names func items at) }
    ensures resumed { (residual : Residual) (at : Setting) → undoes_exchange residual ≡ false
        → UnchangedByError at (again residual at) }
{}
