// The images and the cases, a line at a time.
use crate::command::run;
use crate::damage::{shown_cuts, shown_spoiled};
use crate::failing::FailedCalls;
use crate::hex::put_hex;
use crate::outcome::shown_outcome;
use icn_host::StoredFiles;
use std::alloc::{AllocError, Global};
use std::collections::BTreeMap;

/// The images, the files that the last command left, the input of each command, and the calls that fail in the next one.
#[derive(Drop)]
pub struct CommandCase {
    images: StoredFiles,
    left: StoredFiles,
    input: String,
    failing: FailedCalls,
}

impl CommandCase {
    /// No image is there yet.
    pub fn new(alloc: Global) -> CommandCase {
        CommandCase {
            images: BTreeMap::new(alloc),
            left: BTreeMap::new(alloc),
            input: String::new(alloc),
            failing: FailedCalls::new(alloc),
        }
    }

    /// Reads a line, and gives what is printed behind it. The error is want of memory.
    pub fn read(&mut self, alloc: Global, line: &str) -> Result<String, AllocError> {
        let (word, text) = line.split_once(" ").unwrap_or((line, ""));
        match word {
            "image" => self.put_image(alloc, text)?,
            "byte" | "front" | "more" => self.put_changed(alloc, word, text)?,
            "input" => self.input = text.replace(alloc, "¶", "\n")?,
            "failing" => self.failing = FailedCalls::of_line(alloc, text)?,
            _ => return self.ask(alloc, word, text),
        }
        Ok(String::new(alloc))
    }

    // Takes an image: its name, a blank and its bytes in base 16.
    fn put_image(&mut self, alloc: Global, text: &str) -> Result<(), AllocError> {
        let (name, hex) = text.split_once(" ").unwrap_or((text, ""));
        let mut bytes = Vec::new(alloc);
        put_hex(&mut bytes, hex)?;
        self.images.insert(String::from_str(alloc, name)?, bytes)?;
        Ok(())
    }

    // Takes an image that another is made into: its name, that of the other, and the change.
    fn put_changed(&mut self, alloc: Global, word: &str, text: &str) -> Result<(), AllocError> {
        let (name, rest) = text.split_once(" ").unwrap_or((text, ""));
        let (other, change) = rest.split_once(" ").unwrap_or((rest, ""));
        let mut bytes = bytes_of(alloc, &self.images, other)?;
        match word {
            "byte" => set_byte(alloc, &mut bytes, change)?,
            "front" => bytes.truncate(change.parse::<u32>().unwrap_or(0) as usize),
            _ => put_hex(&mut bytes, change)?,
        }
        self.images.insert(String::from_str(alloc, name)?, bytes)?;
        Ok(())
    }

    // What a line asks for. A line of another kind, as a comment, has no outcome.
    fn ask(&mut self, alloc: Global, word: &str, text: &str) -> Result<String, AllocError> {
        let shown = match word {
            "$" => {
                self.left = self.images.clone()?;
                self.run(alloc, text)?
            }
            "then" => self.run(alloc, text)?,
            "size" => shown_size(alloc, &self.left, text)?,
            "cuts" => shown_cuts(alloc, &bytes_of(alloc, &self.images, text)?)?,
            "spoiled" => shown_spoiled(alloc, &bytes_of(alloc, &self.images, text)?)?,
            _ => return Ok(String::new(alloc)),
        };
        format!(in alloc; " => {shown}")
    }

    // Runs a command over the files that the last one left.
    fn run(&mut self, alloc: Global, command: &str) -> Result<String, AllocError> {
        let outcome = run(alloc, command, &self.left, &self.input, &self.failing)?;
        let shown = shown_outcome(alloc, &outcome, &self.left, &self.input)?;
        self.left = outcome.files.clone()?;
        self.failing = FailedCalls::new(alloc);
        Ok(shown)
    }
}

// The bytes of a file, or none.
fn bytes_of(alloc: Global, files: &StoredFiles, name: &str) -> Result<Vec<u8>, AllocError> {
    match files.get(name) {
        Some(bytes) => bytes.to_vec(alloc),
        None => Ok(Vec::new(alloc)),
    }
}

// How many bytes a file has.
fn shown_size(alloc: Global, files: &StoredFiles, name: &str) -> Result<String, AllocError> {
    let size = bytes_of(alloc, files, name)?.len();
    format!(in alloc; "{size} bytes")
}

// Sets a byte: its place, from 0, and it in base 16.
fn set_byte(alloc: Global, bytes: &mut Vec<u8>, change: &str) -> Result<(), AllocError> {
    let (place, hex) = change.split_once(" ").unwrap_or((change, ""));
    let place = place.parse::<u32>().unwrap_or(0) as usize;
    let mut value = Vec::new(alloc);
    put_hex(&mut value, hex)?;
    let Some(first) = value.first() else {
        return Ok(());
    };
    if let Some(byte) = bytes.get_mut(place) {
        *byte = *first;
    }
    Ok(())
}
