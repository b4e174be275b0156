//! What the run of a code names has a name, each record is as long as its kind, and the variables are those of the tables; and
//! rows leave the counts of results.
#![tactic(auto)]

ghost use Rattle.law_steps.specs.KeepingCounts.{RowsKeepCounts};
ghost use Rattle.law_steps.specs.KeepingNames.{StepsKeepNames};
ghost use Rattle.law_steps.specs.KeepingSizes.{StepsKeepSizes};
ghost use Rattle.law_steps.specs.KeepingVariables.{StatesHaveVariables};
ghost use Rattle.law_steps.specs.Starts.{StartsFit, StartsNamed};

use law_names::{names_stay, sizes_stay};

/// Where what the state before a step names has a name, so it is after the step.
pub fn steps_keep_names()
    ensures kept { StepsKeepNames }
{
    names_stay();
}

/// Where each record of the state before a step has as many fields as its kind, it is so after the step.
pub fn steps_keep_sizes()
    ensures kept { StepsKeepSizes }
{
    sizes_stay();
}

/// What the state names with which the run of a code starts has a name.
pub fn start_is_named()
    ensures { StartsNamed }
{
    names_stay();
}

/// Each record of that state has as many fields as its kind.
pub fn start_is_sized()
    ensures { StartsFit }
{
    sizes_stay();
}

/// An operation or a function leaves the limits of the heap and the counts of results, and so does what resumes it.
pub fn counts_stay()
    ensures kept { RowsKeepCounts }
{}

/// Each state of a run has the globals, the statics and the notes of `initial` that its tables say, whatever the outside is
/// before each step.
pub fn variables_stay()
    ensures { StatesHaveVariables }
{}
