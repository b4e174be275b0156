// Laws of pruned code.
ghost use Rattle.std.specs.Prelude.{◌≡◌, ◌≤◌, ◌↔◌, Bool, List, length, true};
ghost use Rattle.icn_code.specs.Codes.{Tables};
ghost use Rattle.icn_code.specs.Rules.{keeps_rules};
ghost use Rattle.icn_defs.specs.KeptProcedures.{dropped_numbers};
ghost use Rattle.icn_defs.specs.Running.{Launch, Observation};
ghost use Rattle.icn_image.specs.Spelling.{image_of};
ghost use Rattle.icn_prune.specs.KeptCode.{MayBeKept};
ghost use Rattle.icn_prune.specs.PrunedCode.{pruned_tables};
ghost use Rattle.icn_verify.specs.Faults.{IsVerified};
ghost use Rattle.law_simulation.specs.FirstLaw.{RunsFlat, RunsFlatHiding, RunsLinked, RunsLinkedHiding};

use icn_prune::pruned_code_fits;

/// The pruned code has, with all words, limits, inputs and files, the observation of the whole code run with texts naming kept procedures
/// alone; where `main` is kept, and with a procedure all that it mentions. On linked marks, and on the flat stacks that a machine has.
pub fn pruned_code_runs_alike()
    ensures on_marks { (tables : Tables) (keep : List Bool) (launch : Launch) (seen : Observation)
        → keeps_rules tables ≡ true → MayBeKept tables keep
        → RunsLinkedHiding (dropped_numbers keep) tables launch seen
        ↔ RunsLinked (pruned_tables keep tables) launch seen }
    ensures on_stacks { (tables : Tables) (keep : List Bool) (launch : Launch) (seen : Observation)
        → keeps_rules tables ≡ true → MayBeKept tables keep
        → RunsFlatHiding (dropped_numbers keep) tables launch seen
        ↔ RunsFlat (pruned_tables keep tables) launch seen }
{}

/// The pruned code of verified code is verified code.
pub fn pruned_code_is_verified()
    ensures { (tables : Tables) (keep : List Bool) → MayBeKept tables keep → IsVerified tables
        → IsVerified (pruned_tables keep tables) }
{}

/// The image of the pruned code is no longer than that of the whole code.
pub fn pruned_code_is_no_longer()
    ensures { (tables : Tables) (keep : List Bool) → keeps_rules tables ≡ true → MayBeKept tables keep
        → length (image_of (pruned_tables keep tables)) ≤ length (image_of tables) }
{
    pruned_code_fits();
}
