// What is linked from the units of files.
ghost use Rattle.std.specs.Prelude.{◌≡◌, ◌↔◌, ℕ, All, List, [], ◌∷◌, length, true};
ghost use Rattle.icn_tree.specs.Trees.{Declaration};
ghost use Rattle.icn_translate.specs.FileUnits.{translated_unit};
ghost use Rattle.icn_unit.specs.UnitRules.{is_byte_text};
ghost use Rattle.icn_units.specs.Written.{file_fits};
ghost use Rattle.icn_defs.specs.Running.{Launch, Observation};
ghost use Rattle.icn_link.specs.Joined.{joined_code};
ghost use Rattle.icn_link.specs.JoinableUnits.{is_joinable};
ghost use Rattle.law_simulation.specs.Faultless.{IsFaultless};
ghost use Rattle.law_simulation.specs.JoinedFiles.{IsJoined};
ghost use Rattle.law_simulation.specs.FirstLaw.{FilesMean, IsLinked, RunsFlat, RunsLinked, dropped_procedures};
ghost use Rattle.icn_code.specs.Codes.{Tables};
ghost use Rattle.icn_code.specs.Rules.{keeps_rules};
ghost use Rattle.icn_defs.specs.KeptProcedures.{dropped_numbers};
ghost use Rattle.icn_prune.specs.KeptCode.{kept_of};
ghost use Rattle.law_link.specs.InvocableFiles.{names_all, named_procs};
ghost use Rattle.law_link.specs.PrunedUnits.{pruned_code};
ghost use Rattle.law_link.specs.TranslatedUnits.{translated_units};

use icn_prune::kept_is_least;
use icn_units::codes_have_room;
use law_prune::pruned_code_runs_alike;
use law_simulation::same_ends;

/// The linked code of files that break no rule, from their translated units in the same order, is the code of which the first law
/// speaks. Nothing is asked of the names but that there are as many as files, and nothing of what the linker refuses: a name that two
/// files declare is resolved alike on both sides.
pub fn translations_join()
    ensures { (names : List (List ℕ)) (files : List (List Declaration)) → length names ≡ length files
        → All IsFaultless files
        → IsJoined files (joined_code (translated_units names files)) }
{}

/// The procedures that a program keeps are those that its linked code keeps.
pub fn same_kept()
    ensures { (files : List (List Declaration)) (tables : Tables) → IsLinked files tables
        → dropped_procedures files ≡ dropped_numbers (kept_of tables (named_procs files) (names_all files)) }
{}

/// So files that break no rule mean, with some words, limits and input, what the linked code of their units comes to without the
/// procedures that are not kept: how it ends, with its report, what is put on both outputs, the input that is left, and the readings
/// that were made. On linked marks, and on the flat stacks that a machine has.
pub fn translations_run()
    ensures on_marks { (names : List (List ℕ)) (files : List (List Declaration)) (launch : Launch)
        (seen : Observation)
        → length names ≡ length files → All IsFaultless files
        → keeps_rules (joined_code (translated_units names files)) ≡ true
        → FilesMean files launch seen ↔ RunsLinked (pruned_code (translated_units names files)) launch seen }
    ensures on_stacks { (names : List (List ℕ)) (files : List (List Declaration)) (launch : Launch)
        (seen : Observation)
        → length names ≡ length files → All IsFaultless files
        → keeps_rules (joined_code (translated_units names files)) ≡ true
        → FilesMean files launch seen ↔ RunsFlat (pruned_code (translated_units names files)) launch seen }
{
    translations_join();
    same_ends();
    same_kept();
    kept_is_least();
    pruned_code_runs_alike();
}

/// The linked code of a file that breaks no rule, from its translated unit, is the code of which the first law speaks.
pub fn translated_units_join()
    ensures { (name : List ℕ) (file : List Declaration) → IsFaultless file
        → IsJoined (file ∷ []) (joined_code (translated_unit name file ∷ [])) }
{}

/// The translated unit of a file that breaks no rule can be joined, where the texts of the file are bytes. Nothing is asked of how many
/// labels it has.
pub fn translations_are_joinable()
    ensures { (name : List ℕ) (file : List Declaration) → IsFaultless file
        → file_fits is_byte_text file ≡ true
        → is_joinable (translated_unit name file) ≡ true }
{
    codes_have_room();
}
