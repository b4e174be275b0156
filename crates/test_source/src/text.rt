// The tokens of a text.
ghost use Rattle.std.specs.Prelude.{◌≡◌, ◌≤◌, ◌+◌, IsTrue, length, true};
ghost use Rattle.icn_tree.specs.SourceTexts.{joined_len, names_files};

use crate::bytes::cut;
use crate::notation::BETWEEN;
use crate::stop::SourceStop;
use icn_lex::tokens;
use icn_tree::{Bytes, Lines, SourceLine, Token};
use std::alloc::{AllocError, Global};

// Lines that are put together one after another, of a file whose name is empty.
#[derive(Drop)]
struct TextLines {
    names: Vec<Bytes>,
    lines: Vec<SourceLine>,
    len: usize,
    ghost within: { joined_len lines.items ≤ len },
    ghost small: { len ≤ 16777216 },
    ghost named: { IsTrue (names_files names.items lines.items) },
    ghost has_name: { length names.items ≡ 1 },
}

impl TextLines {
    fn new(alloc: Global) -> Result<TextLines, AllocError> {
        let names = vec![in alloc; Bytes::new(Vec::new(alloc))]?;
        Ok(TextLines {
            names,
            lines: Vec::new(alloc),
            len: 0,
        })
    }

    // Adds a line, where the lines stay short enough.
    fn push(&mut self, alloc: Global, bytes: &[u8], number: u32) -> Result<(), AllocError> {
        let len = self.len + bytes.len() + 1;
        let bytes = Bytes::from_slice(alloc, bytes)?;
        if len <= 16777216 {
            let line = SourceLine {
                bytes,
                file: 0,
                number,
            };
            self.len = len;
            self.lines.push(line)?;
        }
        Ok(())
    }

    fn whole(self) -> Lines {
        let TextLines {
            names,
            lines,
            len: _,
        } = self;
        Lines { names, lines }
    }
}

/// The lines of a text, numbered from 1. `AllocError` is want of memory.
pub fn lines_of(alloc: Global, text: &[u8]) -> Result<Lines, AllocError> {
    let mut lines = TextLines::new(alloc)?;
    let mut number = 0u32;
    for line in text.split(|byte| *byte == b'\n') {
        number = number.saturating_add(1);
        lines.push(alloc, line, number)?;
    }
    Ok(lines.whole())
}

/// The lines of a text, of which each begins with its number and a blank. `AllocError` is want of memory.
pub fn numbered_lines(alloc: Global, text: &[u8]) -> Result<Lines, AllocError> {
    let mut lines = TextLines::new(alloc)?;
    for line in text.split(|byte| *byte == b'\n') {
        let (number, line) = cut(line, b' ');
        let number = String::from_utf8_lossy(alloc, number)?;
        let number = number.as_str().parse::<u32>().unwrap_or(0);
        lines.push(alloc, line, number)?;
    }
    Ok(lines.whole())
}

/// The tokens of a text. The error is the first rule that the text breaks, or want of memory.
pub fn scan(alloc: Global, text: &[u8]) -> Result<Vec<Token>, SourceStop> {
    Ok(tokens(alloc, &lines_of(alloc, text)?)?)
}

/// The tokens of texts of one file each, one behind another. The error is the first rule that the text breaks, or want of
/// memory.
pub fn scan_all(alloc: Global, texts: &[u8]) -> Result<Vec<Token>, SourceStop> {
    let mut all = Vec::new(alloc);
    let mut file = 0u32;
    for text in texts.split(|byte| *byte == BETWEEN) {
        for mut token in scan(alloc, text)? {
            token.file = file;
            all.push(token)?;
        }
        file = file.saturating_add(1);
    }
    Ok(all)
}

/// Puts each token on a line of its own. The one behind this many is on line 1.
pub fn number(tokens: &mut Vec<Token>, front: u32) {
    let mut line = 0u32;
    for token in tokens.iter_mut() {
        line = line.saturating_add(1);
        token.line = line.saturating_sub(front);
    }
}
