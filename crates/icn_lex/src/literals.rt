// String and cset literals, which may go on over lines.
ghost use Rattle.std.specs.Prelude.{◌==◌, ◌≡◌, ◌∷◌, ◌&&◌};
ghost use Rattle.icn_tree.specs.IntegerLiterals.{is_nothing};
ghost use Rattle.icn_lex.specs.Outcomes.{ClosesAs, IsNoLonger, IsNoLongerPart, PartIs, StepIs};
ghost use Rattle.icn_lex.specs.Literals.{literal_of, scan_escape, scan_inside};

use crate::escapes::escape;
use crate::fault::LexFault;
use icn_profile::{BACKSLASH, MOST_BYTES_OF_NAME, SINGLE_QUOTE, UNDERSCORE};
use icn_tree::{ByteSet, Bytes, Kind, Rule, SourceLine, Token};
use std::alloc::Global;

// How a literal begins: its quote, the place of that, and whether it is the first token on its line.
#[derive(Clone, Copy)]
pub struct Opening {
    pub quote: u8,
    pub line: u32,
    pub file: u32,
    pub is_first: bool,
}

impl Opening {
    fn fault(self, rule: Rule) -> LexFault
        ensures { result ≡ LexFault.Broken rule self.file self.line }
    {
        LexFault::Broken {
            rule,
            file: self.file,
            line: self.line,
        }
    }

    /// The fault of a literal that is not closed, at the line on which it was opened.
    pub fn unclosed_fault(self) -> LexFault
        ensures { result ≡ LexFault.Broken Rule.L2 self.file self.line }
    {
        self.fault(Rule::L2)
    }
}

// A literal that is not closed yet, with the bytes that it stands for so far.
#[derive(Drop)]
pub struct OpenLiteral {
    pub opening: Opening,
    pub bytes: Vec<u8>,
}

// What a line has of a literal.
pub enum LiteralEnd<'a> {
    // Its end, before these bytes.
    Closed(&'a [u8]),
    // All of the line, and it goes on on the next one.
    Continued,
}

enum Step<'a> {
    Closed(&'a [u8]),
    Continued,
    More(&'a [u8]),
}

/// Reads what the rest of a line has of a literal. The error is the rule that the literal breaks here, or want of memory.
pub fn read_part<'a>(
    opening: Opening,
    bytes: &mut Vec<u8>,
    line: &SourceLine,
    text: &'a [u8],
) -> Result<LiteralEnd<'a>, LexFault>
    ensures exact { PartIs line.now result (literal_of opening bytes.new.items)
        (scan_inside line.now (literal_of opening bytes.old.items) text.now) }
    ensures within { IsNoLongerPart result text.now }
{
    let mut rest = text;
    while let Some((first, others)) = rest.split_first() {
        match read_step(opening, bytes, line, *first, others)? {
            Step::Closed(behind) => return Ok(LiteralEnd::Closed(behind)),
            Step::Continued => return Ok(LiteralEnd::Continued),
            Step::More(more) => rest = more,
        }
    }
    Err(opening.unclosed_fault())
}

// Reads one byte of a literal, or one escape.
fn read_step<'a>(
    opening: Opening,
    bytes: &mut Vec<u8>,
    line: &SourceLine,
    first: u8,
    others: &'a [u8],
) -> Result<Step<'a>, LexFault>
    ensures exact { StepIs line.now result (literal_of opening bytes.new.items)
        (scan_inside line.now (literal_of opening bytes.old.items) (first ∷ others.now)) }
    ensures within { IsNoLonger result others.now }
{
    if first == opening.quote {
        Ok(Step::Closed(others))
    } else if first == BACKSLASH {
        escape_step(opening, bytes, line, others)
    } else if is_continued(first, others) {
        Ok(Step::Continued)
    } else {
        bytes.push(first)?;
        Ok(Step::More(others))
    }
}

// Whether a byte is a `_` at the end of a line.
fn is_continued(first: u8, others: &[u8]) -> bool
    ensures { result ≡ (first == 95 && is_nothing others.now) }
{
    first == UNDERSCORE && is_nothing(others)
}

fn is_nothing(bytes: &[u8]) -> bool
    ensures { result ≡ is_nothing bytes.now }
{
    matches!(bytes.split_first(), None)
}

// Reads the escape behind a backslash.
fn escape_step<'a>(
    opening: Opening,
    bytes: &mut Vec<u8>,
    line: &SourceLine,
    text: &'a [u8],
) -> Result<Step<'a>, LexFault>
    ensures exact { StepIs line.now result (literal_of opening bytes.new.items)
        (scan_escape line.now (literal_of opening bytes.old.items) text.now) }
    ensures within { IsNoLonger result text.now }
{
    if text.is_empty() {
        return Err(opening.unclosed_fault());
    }
    let Some((byte, count)) = escape(text) else {
        return Err(LexFault::on(line, Rule::L3));
    };
    bytes.push(byte)?;
    Ok(Step::More(text.split_at(count).1))
}

/// The token of a literal that is closed. The error is L7 where it is too long, or want of memory.
pub fn close(alloc: Global, opening: Opening, bytes: Vec<u8>) -> Result<Token, LexFault>
    ensures { ClosesAs result (literal_of opening bytes.items) }
{
    if bytes.len() > MOST_BYTES_OF_NAME as usize {
        return Err(opening.fault(Rule::L7));
    }
    let kind = if opening.quote == SINGLE_QUOTE {
        Kind::Cset(ByteSet::from_slice(alloc, &bytes)?)
    } else {
        Kind::Text(Bytes::new(bytes))
    };
    Ok(Token {
        kind,
        line: opening.line,
        file: opening.file,
    })
}
