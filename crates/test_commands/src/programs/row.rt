// The rows, a line at a time.
use crate::programs::command::{outcome, push_lines};
use icn_host::{Files, SureFiles};
use std::alloc::{AllocError, Global};
use std::collections::BTreeMap;

// As many bytes as are read of a file.
const MOST: u64 = 65535;

// The files of a row so far, the one that is begun, and the input that its next command has.
#[derive(Drop)]
pub struct CaseFiles {
    files: SureFiles,
    name: String,
    text: String,
    is_body: bool,
    input: String,
}

impl CaseFiles {
    /// A case with no file and no input.
    pub fn new(alloc: Global) -> Self {
        CaseFiles {
            files: SureFiles::new(alloc, BTreeMap::new(alloc)),
            name: String::new(alloc),
            text: String::new(alloc),
            is_body: false,
            input: String::new(alloc),
        }
    }

    /// Reads a line of rows, and gives what is printed for it. The error is want of memory.
    pub fn read<F: Files>(
        &mut self,
        alloc: Global,
        disk: &mut F,
        line: &str,
    ) -> Result<String, AllocError> {
        let (mark, text) = line.split_once(' ').unwrap_or((line, ""));
        match mark {
            "=" => *self = CaseFiles::new(alloc),
            ":" => self.begin(alloc, text)?,
            "|" => push_line(&mut self.text, text)?,
            "." => self.push_body(alloc, text)?,
            "@" => self.load(alloc, disk, text)?,
            "<" => push_line(&mut self.input, text)?,
            "<<" => self.input.push_str(text)?,
            "$" => return self.run(alloc, line, text),
            "?" => return self.show(alloc, line, text),
            _ => {}
        }
        if mark == "=" || mark == "#" || mark.is_empty() {
            format!(in alloc; "{line}\n")
        } else {
            Ok(String::new(alloc))
        }
    }

    // Begins a file, once the one before is put among the files.
    fn begin(&mut self, alloc: Global, name: &str) -> Result<(), AllocError> {
        self.end(alloc)?;
        self.name = String::from_str(alloc, name)?;
        Ok(())
    }

    // Takes a file of the folder where this runs among the files, if it is there.
    fn load<F: Files>(
        &mut self,
        alloc: Global,
        disk: &mut F,
        name: &str,
    ) -> Result<(), AllocError> {
        let mut bytes = Vec::new(alloc);
        if disk.read(name, MOST, &mut bytes).is_ok() {
            let _ = self.files.write(name, &bytes);
        }
        Ok(())
    }

    // A line of the body of `main` in `f.icn`.
    fn push_body(&mut self, alloc: Global, line: &str) -> Result<(), AllocError> {
        if !self.is_body {
            self.begin(alloc, "f.icn")?;
            self.text.push_str("procedure main()\n")?;
            self.is_body = true;
        }
        push_line(&mut self.text, line)
    }

    // Puts the file that is begun among the files, if there is one.
    fn end(&mut self, alloc: Global) -> Result<(), AllocError> {
        if self.is_body {
            self.text.push_str("end\n")?;
        }
        if !self.name.is_empty() {
            let _ = self.files.write(&self.name, self.text.as_bytes());
        }
        self.name = String::new(alloc);
        self.text = String::new(alloc);
        self.is_body = false;
        Ok(())
    }

    // Runs a command over the files of the row.
    fn run(&mut self, alloc: Global, line: &str, words: &str) -> Result<String, AllocError> {
        self.end(alloc)?;
        let outcome = outcome(alloc, words, &mut self.files, self.input.as_bytes())?;
        self.input = String::new(alloc);
        format!(in alloc; "{line}\n{outcome}")
    }

    // The lines of a file of the row, or that it is not there.
    fn show(&mut self, alloc: Global, line: &str, name: &str) -> Result<String, AllocError> {
        self.end(alloc)?;
        let mut bytes = Vec::new(alloc);
        if self.files.read(name, MOST, &mut bytes).is_err() {
            return format!(in alloc; "{line}\nnot there\n");
        }
        let mut shown = format!(in alloc; "{line}\n")?;
        push_lines(alloc, &mut shown, "| ", &bytes)?;
        Ok(shown)
    }
}

fn push_line(text: &mut String, line: &str) -> Result<(), AllocError> {
    text.push_str(line)?;
    text.push('\n')
}
