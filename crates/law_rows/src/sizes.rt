// Laws of what every row keeps: how many variables there are, and the limits.
ghost use Rattle.std.specs.Prelude.{List};
ghost use Rattle.icn_defs.specs.Applying.{again, function_row, operation_row};
ghost use Rattle.icn_defs.specs.KeptSizes.{KeepsIn};
ghost use Rattle.icn_defs.specs.Rows.{Residual};
ghost use Rattle.icn_text.specs.declared.func.Func.{Func};
ghost use Rattle.icn_text.specs.declared.op.Op.{Op};
ghost use Rattle.icn_value.specs.Store.{Names, Setting};
ghost use Rattle.icn_value.specs.Values.{Item};

/// Where an operation, a function or a resumption goes on, there are as many locals of the activation at hand, globals and statics as before,
/// and the limits are the same.
pub fn rows_keep()
    ensures operations { (op : Op) (items : List Item) (at : Setting)
        → KeepsIn at (operation_row op items at) }
    ensures functions { (names : Names) (func : Func) (items : List Item) (at : Setting)
        → KeepsIn at (function_row names func items at) }
    ensures resumed { (residual : Residual) (at : Setting) → KeepsIn at (again residual at) }
{}
