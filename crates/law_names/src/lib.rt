//! Settings whose values name only what has a name, and whose records are as long as their kinds: rows leave them so.
#![tactic(auto)]

ghost use Rattle.law_names.specs.RowsNamed.{RowsKeepNames};
ghost use Rattle.law_names.specs.RowSizes.{RowsKeepSizes};

/// Where what a row is given names only what has a name, so does what it leaves and gives, and the value that an error is about.
pub fn names_stay()
    ensures kept { RowsKeepNames }
{}

/// A row changes no record's kind, and where each record had as many fields as its kind, each has after it.
pub fn sizes_stay()
    ensures kept { RowsKeepSizes }
{}
