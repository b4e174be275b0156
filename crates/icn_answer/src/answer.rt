// What a program answers.
ghost use Rattle.std.specs.Prelude.{◌≡◌};

use icn_defs::Ending;
use icn_tree::{Bytes, Rule};

/// What a call of a program comes to.
#[derive(Debug, Drop)]
pub enum Answer {
    /// An image was written.
    Wrote,
    /// The program ran, and ended so.
    Ran(Ending),
    /// A rule refuses this file at this line, which is 0 where the rule speaks of the whole file.
    Refused { file: Bytes, line: u32, rule: Rule },
    /// The words of the command are faulty, in the way of this number.
    Command(u8),
    /// The file of this name is not there.
    Missing(Bytes),
    /// A text of a unit, or the code that was linked with it, breaks this rule; the text of this name.
    BadUcode { name: Bytes, rule: Rule },
    /// The image breaks this rule.
    BadImage(Rule),
    /// The store of files failed.
    FileFault,
    /// The input failed.
    ReadFault,
    /// The output or the error output failed.
    WriteFault,
    /// Memory could not be had.
    NoMemory,
}

impl Answer {
    ghost use Rattle.icn_answer.specs.Answers.{is_fault, status_of};

    /// Whether it says what failed outside. It takes no memory.
    pub fn is_fault(&self) -> bool
        ensures { result ≡ is_fault self.now }
    {
        matches!(
            self,
            Answer::FileFault | Answer::ReadFault | Answer::WriteFault | Answer::NoMemory
        )
    }

    /// The status that the program ends with. It takes no memory.
    pub fn code(&self) -> u8
        ensures { result ≡ status_of self.now }
    {
        match self {
            Answer::Wrote | Answer::Ran(Ending::Done) => 0,
            Answer::Ran(Ending::Exit(status)) => *status,
            Answer::Ran(Ending::Errored(_)) => 1,
            Answer::Ran(Ending::AtBound) => 3,
            Answer::Refused { .. }
            | Answer::Command(_)
            | Answer::Missing(_)
            | Answer::BadUcode { .. }
            | Answer::BadImage(_)
            | Answer::FileFault
            | Answer::ReadFault
            | Answer::WriteFault => 2,
            Answer::NoMemory => 5,
        }
    }
}
