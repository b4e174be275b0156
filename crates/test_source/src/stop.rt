// Why a text is not taken.
use icn_decls::ContextFault;
use icn_lex::LexFault;
use icn_parse::ParseFault;
use icn_tree::Rule;
use std::alloc::{AllocError, AllocFailed, Global};

/// The first rule that a text breaks, with the number of its file and its line, or want of memory.
#[derive(Drop)]
pub enum SourceStop {
    Broken { rule: Rule, file: u32, line: u32 },
    NoMemory,
}

impl From<AllocError> for SourceStop {
    fn from(_: AllocError) -> Self {
        Self::NoMemory
    }
}

impl<T: Drop> From<AllocFailed<T>> for SourceStop {
    fn from(_: AllocFailed<T>) -> Self {
        Self::NoMemory
    }
}

impl From<LexFault> for SourceStop {
    fn from(fault: LexFault) -> Self {
        match fault {
            LexFault::Broken { rule, file, line } => Self::Broken { rule, file, line },
            LexFault::NoMemory => Self::NoMemory,
        }
    }
}

impl From<ParseFault> for SourceStop {
    fn from(fault: ParseFault) -> Self {
        match fault {
            ParseFault::Broken { rule, file, line } => Self::Broken { rule, file, line },
            ParseFault::NoMemory => Self::NoMemory,
        }
    }
}

impl From<ContextFault> for SourceStop {
    fn from(fault: ContextFault) -> Self {
        match fault {
            ContextFault::Broken { rule, file, line } => Self::Broken { rule, file, line },
            ContextFault::NoMemory => Self::NoMemory,
        }
    }
}

/// The code of a rule with the file and the line. Want of memory ends the run.
pub fn rule_text(alloc: Global, stop: SourceStop) -> Result<String, AllocError> {
    match stop {
        SourceStop::Broken { rule, file, line } => format!(in alloc; "{rule:?} {file} {line}"),
        SourceStop::NoMemory => Err(AllocError),
    }
}
