// Outputs that want memory.
ghost use Rattle.std.specs.Prelude.{None};
ghost use Rattle.icn_host.specs.Sinks.{sink_state};

use crate::icont::command::answer_to;
use crate::icont::failing::HandedObject;
use crate::icont::outcome::{CommandSetting, Outcome, shown_outcome};
use icn_host::{Fault, Sink, SureFiles, SureSink, SureSource};
use std::alloc::{AllocError, Global};

// A sink whose first put takes nothing, since it wants memory.
#[derive(Drop)]
struct WantingSink {
    full: bool,
    held: SureSink,
    wants: u64,
}

impl WantingSink {
    fn new(alloc: Global, full: bool) -> WantingSink {
        WantingSink {
            full,
            held: SureSink::new(Vec::new(alloc)),
            wants: 0,
        }
    }
}

impl Sink for WantingSink {
    ghost pending = { λ _. 0 };

    ghost state = { λ s. sink_state None 0 s.wants };

    fn put(&mut self, piece: &[u8]) -> Result<(), Fault> {
        let result = if self.full {
            self.full = false;
            Err(Fault::NoMemory)
        } else {
            self.held.put(piece)
        };
        if result == Err(Fault::NoMemory) {
            self.wants = self.wants.saturating_add(1);
        }
        result
    }

    fn flush(&mut self) -> Result<(), Fault> {
        Ok(())
    }
}

/// What comes of a command where the first put of the output or of the error output wants memory, and how often each of both
/// did. The error is want of memory.
pub fn shown_wanting(
    alloc: Global,
    command: &str,
    setting: CommandSetting,
    object: HandedObject,
) -> Result<String, AllocError> {
    let mut files = SureFiles::new(alloc, setting.files.clone()?);
    let mut input = SureSource::new(setting.input.to_vec(alloc)?);
    let mut out = WantingSink::new(alloc, object == HandedObject::Output);
    let mut err = WantingSink::new(alloc, object == HandedObject::Errors);
    let answer = answer_to(alloc, command, &mut files, &mut input, &mut out, &mut err)?;
    let outcome = Outcome {
        answer,
        output: out.held.content().to_vec(alloc)?,
        errors: err.held.content().to_vec(alloc)?,
        files: files.content().clone()?,
        left: input.content().to_vec(alloc)?,
    };
    let shown = shown_outcome(alloc, &outcome, setting)?;
    let output_wants = out.wants;
    let errors_wants = err.wants;
    format!(in alloc; "{shown}; wants {output_wants} and {errors_wants}")
}
