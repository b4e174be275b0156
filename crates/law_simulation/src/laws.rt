// The first law, for files that break no rule and the tables of their joined code.
ghost use Rattle.std.specs.Prelude.{ℕ, List, ◌↔◌};
ghost use Rattle.icn_tree.specs.Trees.{Declaration};
ghost use Rattle.icn_code.specs.Codes.{Tables};
ghost use Rattle.icn_defs.specs.Running.{Launch, Observation};
ghost use Rattle.icn_defs.specs.Interruptions.{Streams};
ghost use Rattle.law_simulation.specs.FirstLaw.{IsLinked, FilesMean, RunsLinkedHiding, RunsFlatHiding, dropped_procedures};
ghost use Rattle.law_simulation.specs.FirstLaw.{BrokenOff, TakesTurns, TakesStrings, TakesCells};

/// What a program means, with some words, limits, input and files, is what its linked code comes to, with all procedures, where no text
/// names one that is not kept: how it ends, with its report, what is put on both outputs, the input that is left, what the files hold, and
/// the readings and writings that were made. On linked marks, and on the flat stacks that a machine has.
pub fn same_ends()
    ensures on_marks { (files : List (List Declaration)) (tables : Tables) (launch : Launch)
        (seen : Observation)
        → IsLinked files tables → FilesMean files launch seen
        ↔ RunsLinkedHiding (dropped_procedures files) tables launch seen }
    ensures on_stacks { (files : List (List Declaration)) (tables : Tables) (launch : Launch)
        (seen : Observation)
        → IsLinked files tables → FilesMean files launch seen
        ↔ RunsFlatHiding (dropped_procedures files) tables launch seen }
{}

/// Both take the same number of turns, and the same sums of string bytes and of cells are charged: each is told by its limit.
pub fn same_amounts()
    ensures turns { (files : List (List Declaration)) (tables : Tables) (launch : Launch) (amount : ℕ)
        (seen : Observation)
        → IsLinked files tables
        → TakesTurns (FilesMean files) launch amount seen
        ↔ TakesTurns (RunsFlatHiding (dropped_procedures files) tables) launch amount seen }
    ensures strings { (files : List (List Declaration)) (tables : Tables) (launch : Launch) (amount : ℕ)
        (seen : Observation)
        → IsLinked files tables → TakesStrings (FilesMean files) launch amount seen
        ↔ TakesStrings (RunsFlatHiding (dropped_procedures files) tables) launch amount seen }
    ensures cells { (files : List (List Declaration)) (tables : Tables) (launch : Launch) (amount : ℕ)
        (seen : Observation)
        → IsLinked files tables
        → TakesCells (FilesMean files) launch amount seen
        ↔ TakesCells (RunsFlatHiding (dropped_procedures files) tables) launch amount seen }
{}

/// Broken off by a fault, both leave the same.
pub fn same_broken_off()
    ensures { (files : List (List Declaration)) (tables : Tables) (launch : Launch) (before after : Streams)
        → IsLinked files tables
        → BrokenOff (FilesMean files) launch before after
        ↔ BrokenOff (RunsFlatHiding (dropped_procedures files) tables) launch before after }
{}
