//! Laws of a machine's stack: once what its cells hold is read, each of its calls is that of the definitions.
#![tactic(auto)]

ghost use Rattle.icn_frames.specs.Stacks.{FlatStack};
ghost use Rattle.law_frames.specs.ReadStacks.{Interpretation};
ghost use Rattle.law_frames.specs.Agreement.{SameToRead, SameToCall, SameToBegin, TakesByPops};

/// What a machine's stack stands for hangs on what its values, items, residuals and pairs stand for, and on nothing else:
/// for each such reading, each call is that of the definitions.
pub fn calls_are_read()
    ensures begins { (read : Interpretation) → SameToBegin read }
    ensures reads { (read : Interpretation) (m : FlatStack) → SameToRead read m }
    ensures calls { (read : Interpretation) (m : FlatStack) → SameToCall read m }
{}

/// Several operands are taken by taking them one by one.
pub fn takes_by_pops()
    ensures { TakesByPops }
{}
