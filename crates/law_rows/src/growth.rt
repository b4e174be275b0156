// Laws of what only grows.
ghost use Rattle.std.specs.Prelude.{List};
ghost use Rattle.icn_defs.specs.Applying.{again, function_row, operation_row};
ghost use Rattle.icn_defs.specs.Rows.{Residual};
ghost use Rattle.icn_text.specs.declared.func.Func.{Func};
ghost use Rattle.icn_text.specs.declared.op.Op.{Op};
ghost use Rattle.icn_value.specs.Store.{Names, Setting};
ghost use Rattle.icn_value.specs.Values.{Item};
ghost use Rattle.law_rows.specs.Growths.{GrowsIn};

/// Where an operation, a function or a resumption goes on, nothing that was charged was given back, and no structure was taken away.
pub fn nothing_is_given_back()
    ensures operations { (op : Op) (items : List Item) (at : Setting)
        → GrowsIn at (operation_row op items at) }
    ensures functions { (names : Names) (func : Func) (items : List Item) (at : Setting)
        → GrowsIn at (function_row names func items at) }
    ensures resumed { (residual : Residual) (at : Setting) → GrowsIn at (again residual at) }
{}
