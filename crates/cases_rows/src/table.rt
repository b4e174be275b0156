// The tables of cases.
ghost use Rattle.std.specs.List.{AllByRecursion};
ghost use Rattle.cases_rows.specs.Assigned.{variables};
ghost use Rattle.cases_rows.specs.Cases.{CaseHolds};
ghost use Rattle.cases_rows.specs.Compared.{comparisons};
ghost use Rattle.cases_rows.specs.Limited.{limits};
ghost use Rattle.cases_rows.specs.Named.{named_values};
ghost use Rattle.cases_rows.specs.Numbers.{arithmetic};
ghost use Rattle.cases_rows.specs.OpenedFiles.{opened_files};
ghost use Rattle.cases_rows.specs.Outside.{input_and_output};
ghost use Rattle.cases_rows.specs.Reported.{IsGiven, IsReported, reports, words};
ghost use Rattle.cases_rows.specs.Scanned.{scans};
ghost use Rattle.cases_rows.specs.Structured.{structures};
ghost use Rattle.cases_rows.specs.Texts.{texts};

/// Each case of integers comes to what stands beside it.
pub fn arithmetic()
    ensures { AllByRecursion CaseHolds arithmetic }
{}

/// Each case of tests and comparisons does.
pub fn comparisons()
    ensures { AllByRecursion CaseHolds comparisons }
{}

/// Each case of texts does.
pub fn texts()
    ensures { AllByRecursion CaseHolds texts }
{}

/// Each case of scanning does.
pub fn scans()
    ensures { AllByRecursion CaseHolds scans }
{}

/// Each case of structures does.
pub fn structures()
    ensures { AllByRecursion CaseHolds structures }
{}

/// Each case of variables does.
pub fn variables()
    ensures { AllByRecursion CaseHolds variables }
{}

/// Each case of input and output does.
pub fn input_and_output()
    ensures { AllByRecursion CaseHolds input_and_output }
{}

/// Each case of opened files does.
pub fn opened_files()
    ensures { AllByRecursion CaseHolds opened_files }
{}

/// Each case of names and of numbers of arguments does.
pub fn named_values()
    ensures { AllByRecursion CaseHolds named_values }
{}

/// Each case that comes to a limit does.
pub fn limits()
    ensures { AllByRecursion CaseHolds limits }
{}

/// Each run-time error has the report that stands beside it.
pub fn reports()
    ensures { AllByRecursion IsReported reports }
{}

/// Each keyword gives what stands beside it.
pub fn words()
    ensures { AllByRecursion IsGiven words }
{}
