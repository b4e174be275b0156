// The tables of programs.
ghost use Rattle.std.specs.List.{AllByRecursion};
ghost use Rattle.cases_programs.specs.Cases.{Holds};
ghost use Rattle.cases_programs.specs.Bounded.{bounded_cases};
ghost use Rattle.cases_programs.specs.Coexpressions.{coexpressions};
ghost use Rattle.cases_programs.specs.Errors.{errors};
ghost use Rattle.cases_programs.specs.Failures.{failures};
ghost use Rattle.cases_programs.specs.Generators.{generators};
ghost use Rattle.cases_programs.specs.Joinings.{HasItsCode, joinings};
ghost use Rattle.cases_programs.specs.Library.{library};
ghost use Rattle.cases_programs.specs.Loops.{loops};
ghost use Rattle.cases_programs.specs.Named.{named_calls};
ghost use Rattle.cases_programs.specs.Plain.{plain};
ghost use Rattle.cases_programs.specs.Readings.{Reads, readings};
ghost use Rattle.cases_programs.specs.Scans.{scans};

/// Programs without generators: operations, calls, conditions, declarations.
pub fn plain()
    ensures { AllByRecursion Holds plain }
{}

/// Alternatives, repeated alternation, limits, `to`, elements, and what is taken back.
pub fn generators()
    ensures { AllByRecursion Holds generators }
{}

/// Loops, and the ways out of them.
pub fn loops()
    ensures { AllByRecursion Holds loops }
{}

/// Scanning, and scans that are left by `break`, `next`, `return`, `fail` and `suspend`.
pub fn scans()
    ensures { AllByRecursion Holds scans }
{}

/// Co-expressions: made, refreshed, activated, in a ring, and exhausted.
pub fn coexpressions()
    ensures { AllByRecursion Holds coexpressions }
{}

/// Each error of a form, and of the limits.
pub fn errors()
    ensures { AllByRecursion Holds errors }
{}

/// Errors that become failure.
pub fn failures()
    ensures { AllByRecursion Holds failures }
{}

/// Reading, structures and functions in programs.
pub fn library()
    ensures { AllByRecursion Holds library }
{}

/// Calls by name, and procedures that nothing needs.
pub fn named_calls()
    ensures { AllByRecursion Holds named_calls }
{}

/// Small programs under each bound of turns.
pub fn bounded_programs()
    ensures { AllByRecursion Holds bounded_cases }
{}

/// What a run leaves of the input and of the files, and what it does outside.
pub fn readings()
    ensures { AllByRecursion Reads readings }
{}

/// Files, and their joined code, each table in its order.
pub fn joinings()
    ensures { AllByRecursion HasItsCode joinings }
{}
