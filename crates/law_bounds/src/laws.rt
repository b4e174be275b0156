// What a smaller bound of turns does to a run.
ghost use Rattle.std.specs.Prelude.{◌≤◌, ℕ, List};
ghost use Rattle.icn_text.specs.declared.func.Func.{Func};
ghost use Rattle.icn_text.specs.declared.op.Op.{Op};
ghost use Rattle.icn_tree.specs.Trees.{Declaration};
ghost use Rattle.icn_value.specs.Store.{Names};
ghost use Rattle.icn_value.specs.Values.{Item};
ghost use Rattle.icn_defs.specs.Applying.{again, function_row, operation_row};
ghost use Rattle.icn_defs.specs.Rows.{Residual};
ghost use Rattle.icn_defs.specs.Running.{Launch, Observation};
ghost use Rattle.icn_code.specs.Codes.{Tables};
ghost use Rattle.law_simulation.specs.FirstLaw.{FilesMean, IsLinked, RunsFlat, with_turns};
ghost use Rattle.law_bounds.specs.BoundedTurns.{OverlooksBound};
ghost use Rattle.law_bounds.specs.PartRuns.{IsPartOf};

use law_simulation::same_ends;

/// A smaller bound of turns cuts a run short, and changes nothing else. No operation, function or resumption looks at the bound. Of two
/// runs that differ in it alone, the one under the smaller bound is observed as the other; or it ended at its bound, and what it put,
/// took and wrote until then is a first part of what the other did. So it is of any code, and of what source files mean.
pub fn bounds_cut_runs()
    ensures operations { (bound : ℕ) (op : Op) (items : List Item)
        → OverlooksBound bound (operation_row op items) }
    ensures functions { (bound : ℕ) (names : Names) (func : Func) (items : List Item)
        → OverlooksBound bound (function_row names func items) }
    ensures resumed { (bound : ℕ) (rest : Residual) → OverlooksBound bound (again rest) }
    ensures on_stacks { (tables : Tables) (launch : Launch) (fewer more : ℕ) (part whole : Observation)
        → fewer ≤ more → RunsFlat tables (with_turns fewer launch) part
        → RunsFlat tables (with_turns more launch) whole → IsPartOf part whole }
    ensures meant { (files : List (List Declaration)) (tables : Tables) (launch : Launch) (fewer more : ℕ)
        (part whole : Observation) → IsLinked files tables → fewer ≤ more
        → FilesMean files (with_turns fewer launch) part → FilesMean files (with_turns more launch) whole
        → IsPartOf part whole }
{
    same_ends();
}
