// The cases, a line at a time.
use crate::icont::command::run;
use crate::icont::failing::{FailingCall, HandedObject, failing_calls, object_named};
use crate::icont::notation::{full_text, hex_text};
use crate::icont::outcome::{CommandSetting, shown_outcome};
use crate::icont::turns::{shown_bytes, shown_turns};
use crate::icont::wanting::shown_wanting;
use icn_host::StoredFiles;
use std::alloc::{AllocError, Global};
use std::collections::BTreeMap;

/// The files that each case has, those of the case that is read, those that its last command left, the input of each command, and
/// what is said of the next one.
#[derive(Drop)]
pub struct Case {
    beside: StoredFiles,
    files: StoredFiles,
    left: StoredFiles,
    input: Vec<u8>,
    told: Vec<u8>,
    failing: Vec<FailingCall>,
    wanting: Option<HandedObject>,
}

impl Case {
    /// A case with no file and no input.
    pub fn new(alloc: Global) -> Case {
        Case {
            beside: BTreeMap::new(alloc),
            files: BTreeMap::new(alloc),
            left: BTreeMap::new(alloc),
            input: Vec::new(alloc),
            told: Vec::new(alloc),
            failing: Vec::new(alloc),
            wanting: None,
        }
    }

    /// Reads a line, and gives what is printed behind it. The error is want of memory.
    pub fn read(&mut self, alloc: Global, line: &str) -> Result<String, AllocError> {
        let (word, text) = line.split_once(" ").unwrap_or((line, ""));
        if word.is_empty() {
            self.begin(alloc)?;
        }
        match word {
            "beside" => {
                put(alloc, &mut self.beside, text)?;
                put(alloc, &mut self.files, text)?;
            }
            "file" => put(alloc, &mut self.files, text)?,
            "input" => self.input = full_text(alloc, text)?,
            "told" => self.told = full_text(alloc, text)?,
            "failing" => self.failing = failing_calls(alloc, text)?,
            "wanting" => self.wanting = object_named(text),
            _ => return self.ask(alloc, word, text),
        }
        Ok(String::new(alloc))
    }

    // Begins the next case, whose commands have the same input.
    fn begin(&mut self, alloc: Global) -> Result<(), AllocError> {
        self.files = self.beside.clone()?;
        self.left = BTreeMap::new(alloc);
        self.end_command(alloc);
        Ok(())
    }

    // Forgets what was said of a command.
    fn end_command(&mut self, alloc: Global) {
        self.told = Vec::new(alloc);
        self.failing = Vec::new(alloc);
        self.wanting = None;
    }

    // What a line asks for. A line of another kind, as a comment, has no outcome.
    fn ask(&mut self, alloc: Global, word: &str, text: &str) -> Result<String, AllocError> {
        let shown = match word {
            "$" => self.run_fresh(alloc, text)?,
            "then" => self.run_next(alloc, text)?,
            "turns" => return shown_turns(alloc, text, self.setting_over(&self.files)),
            "bytes" => shown_bytes(alloc, text, &self.files)?,
            "show" => hex_text(alloc, &self.left, text)?,
            _ => return Ok(String::new(alloc)),
        };
        format!(in alloc; " => {shown}")
    }

    // What a command over these files has.
    fn setting_over<'a>(&'a self, files: &'a StoredFiles) -> CommandSetting<'a> {
        CommandSetting {
            files,
            input: &self.input,
            told: &self.told,
        }
    }

    // Runs a command over the files of the case.
    fn run_fresh(&mut self, alloc: Global, command: &str) -> Result<String, AllocError> {
        if let Some(object) = self.wanting {
            let shown = shown_wanting(alloc, command, self.setting_over(&self.files), object)?;
            self.end_command(alloc);
            return Ok(shown);
        }
        self.left = self.files.clone()?;
        self.run_next(alloc, command)
    }

    // Runs a command over the files that the last one left.
    fn run_next(&mut self, alloc: Global, command: &str) -> Result<String, AllocError> {
        let outcome = run(alloc, command, &self.left, &self.input, &self.failing)?;
        let shown = shown_outcome(alloc, &outcome, self.setting_over(&self.left))?;
        self.left = outcome.files.clone()?;
        self.end_command(alloc);
        Ok(shown)
    }
}

// Puts a file among others: its name, a blank and its text.
fn put(alloc: Global, files: &mut StoredFiles, file: &str) -> Result<(), AllocError> {
    let (name, text) = file.split_once(" ").unwrap_or((file, ""));
    let name = String::from_str(alloc, name)?;
    let text = full_text(alloc, text)?;
    files.insert(name, text)?;
    Ok(())
}
