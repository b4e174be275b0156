// What the definition of the given lines means, in other words.
ghost use Rattle.icn_prep.specs.GivenLineLaws.{CountNeverBinds, OneOutcome, OwnLines, TextFaults};

/// Files and a name have one outcome, and no other.
pub fn one_outcome()
    ensures { OneOutcome }
{}

/// A file without directives gives its own lines, numbered from 1.
pub fn own_lines()
    ensures { OwnLines }
{}

/// Where a named file gives no lines, it is missing or a rule is broken.
pub fn text_faults()
    ensures { TextFaults }
{}

/// A defined word is switched off in its own text, so that allowing more words in a row than there are names changes nothing.
pub fn count_never_binds()
    ensures { CountNeverBinds }
{}
