// What rows and runs leave of the outside.
ghost use Rattle.std.specs.Prelude.{ℕ, Bool, List};
ghost use Rattle.icn_text.specs.declared.func.Func.{Func};
ghost use Rattle.icn_text.specs.declared.op.Op.{Op};
ghost use Rattle.icn_value.specs.Store.{Names, Setting};
ghost use Rattle.icn_value.specs.Values.{Item};
ghost use Rattle.icn_defs.specs.Applying.{again, function_row, operation_row};
ghost use Rattle.icn_defs.specs.Rows.{Residual};
ghost use Rattle.icn_defs.specs.Running.{Launch, Observation, after_steps};
ghost use Rattle.icn_code.specs.Codes.{Tables};
ghost use Rattle.icn_run.specs.FlatStep as Flat;
ghost use Rattle.icn_run.specs.LinkedStep as Linked;
ghost use Rattle.icn_run.specs.Stacks.{Frames};
ghost use Rattle.icn_run.specs.Step.{State};
ghost use Rattle.icn_meaning.specs.Meaning.{Means};
ghost use Rattle.icn_meaning.specs.Program.{Program};
ghost use Rattle.law_outside.specs.Outsides.{ExtendsOutside, HasOutside, LeavesOutside, StateExtends};

/// The outside only grows, by events that are done, the input loses what these read, and the files hold what these write: by each operation, function and
/// resumption; from the launch to each state of a run on flat stacks, and from any such state to each later one, with the report of an error or of the
/// bound in it; and by the whole run, as a program means it and of any code, on flat stacks and on linked marks.
pub fn outsides_grow()
    ensures operations { (op : Op) (items : List Item) (at : Setting)
        → LeavesOutside (ExtendsOutside at.outside) (operation_row op items at) }
    ensures functions { (names : Names) (func : Func) (items : List Item) (at : Setting)
        → LeavesOutside (ExtendsOutside at.outside) (function_row names func items at) }
    ensures resumed { (residual : Residual) (at : Setting)
        → LeavesOutside (ExtendsOutside at.outside) (again residual at) }
    ensures reached { (tables : Tables) (launch : Launch) (n : ℕ)
        → HasOutside (ExtendsOutside launch.outside)
        (after_steps (Flat.step tables) n (Flat.start tables launch)) }
    ensures steps { (tables : Tables) (state : State Frames Frames) (n : ℕ)
        → StateExtends state (after_steps (Flat.step tables) n state) }
    ensures meant { (program : Program) (launch : Launch) (seen : Observation) → Means program launch seen
        → ExtendsOutside launch.outside seen.outside }
    ensures on_stacks { (tables : Tables) (launch : Launch) (seen : Observation)
        → Flat.Runs tables launch seen
        → ExtendsOutside launch.outside seen.outside }
    ensures on_marks { (repeats : ℕ → ℕ → Bool) (tables : Tables) (launch : Launch) (seen : Observation)
        → Linked.Runs repeats tables launch seen → ExtendsOutside launch.outside seen.outside }
{}
