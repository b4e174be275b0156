// The table of short lists of tokens.
ghost use Rattle.std.specs.List.{AllByRecursion};
ghost use Rattle.cases_grammar.specs.Rows.{Holds, FileHolds, files, atoms, suffixes, forms, levels, groups, prefixes, nearest, operands};

/// Each list of tokens of the table has the tree that stands beside it.
pub fn rows()
    ensures atoms { AllByRecursion Holds atoms }
    ensures suffixes { AllByRecursion Holds suffixes }
    ensures forms { AllByRecursion Holds forms }
    ensures levels { AllByRecursion Holds levels }
    ensures groups { AllByRecursion Holds groups }
    ensures prefixes { AllByRecursion Holds prefixes }
    ensures nearest { AllByRecursion Holds nearest }
    ensures operands { AllByRecursion Holds operands }
    ensures files { AllByRecursion FileHolds files }
{}
