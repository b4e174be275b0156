// What comes of a case.
use crate::image::hex::put_hex;
use crate::image::listing::code_listing;
use icn_image::{ImageFault, read_image, write_image};
use std::alloc::{AllocError, Global};
use std::fmt::Write;

/// Cases, with the bytes that stand in front of those of each.
#[derive(Drop)]
pub struct Cases {
    front: Vec<u8>,
}

impl Cases {
    /// Cases of which none has set bytes in front.
    pub fn new(alloc: Global) -> Cases {
        Cases {
            front: Vec::new(alloc),
        }
    }

    /// What comes of a case, behind an arrow. A line of another kind, as a comment, has no outcome. The error is want of
    /// memory.
    pub fn outcome(&mut self, alloc: Global, line: &str) -> Result<String, AllocError> {
        let Some((word, hex)) = line.split_once(" ") else {
            return Ok(String::new(alloc));
        };
        if word == "front" {
            self.front = Vec::new(alloc);
            put_hex(&mut self.front, hex)?;
            return Ok(String::new(alloc));
        }
        let mut bytes = Vec::from_slice(alloc, &self.front)?;
        if word == "times" {
            put_times(&mut bytes, hex)?;
        } else {
            put_hex(&mut bytes, hex)?;
        }
        match by_word(alloc, word, bytes)? {
            Some(found) => format!(in alloc; " => {found}"),
            None => Ok(String::new(alloc)),
        }
    }
}

// Adds bytes so many times, and others behind them: a number, and both in base 16.
fn put_times(out: &mut Vec<u8>, case: &str) -> Result<(), AllocError> {
    let Some((count, hex)) = case.split_once(" ") else {
        return Ok(());
    };
    let (repeated, behind) = hex.split_once(" ").unwrap_or((hex, ""));
    for _ in 0..count.parse::<u32>().unwrap_or(0) {
        put_hex(out, repeated)?;
    }
    put_hex(out, behind)
}

fn by_word(alloc: Global, word: &str, bytes: Vec<u8>) -> Result<Option<String>, AllocError> {
    Ok(match word {
        "image" | "times" => Some(read_again(alloc, &bytes)?),
        "code" => Some(show_image(alloc, &bytes)?),
        "cuts" => Some(cuts(alloc, &bytes)?),
        "spoiled" => Some(spoil_bytes(alloc, bytes)?),
        _ => None,
    })
}

// That bytes are an image, which is written again as it was in the second version, or why they are none.
fn read_again(alloc: Global, bytes: &[u8]) -> Result<String, AllocError> {
    match read_image(alloc, bytes) {
        Ok(code) => compare(alloc, bytes, &write_image(alloc, &code)?),
        Err(ImageFault::NoMemory) => Err(AllocError),
        Err(fault) => format!(in alloc; "{fault}"),
    }
}

// What the second version of an image is beside it: the same bytes, or so many others that are written again as they are.
fn compare(alloc: Global, bytes: &[u8], written: &[u8]) -> Result<String, AllocError> {
    if written == bytes {
        return String::from_str(alloc, "an image");
    }
    match read_image(alloc, written) {
        Ok(code) if write_image(alloc, &code)?.as_slice() == written => {
            let length = written.len();
            format!(in alloc; "an image, of {length} bytes in the second version")
        }
        _ => String::from_str(alloc, "other bytes"),
    }
}

// What an image holds.
fn show_image(alloc: Global, bytes: &[u8]) -> Result<String, AllocError> {
    match read_image(alloc, bytes) {
        Ok(code) => code_listing(alloc, &code),
        Err(_) => String::from_str(alloc, "no image"),
    }
}

// What comes of bytes, in short.
fn short(alloc: Global, bytes: &[u8]) -> Result<String, AllocError> {
    match read_image(alloc, bytes) {
        Ok(_) => String::from_str(alloc, "image"),
        Err(ImageFault::NoMemory) => Err(AllocError),
        Err(ImageFault::Broken(rule)) => format!(in alloc; "{rule:?}"),
    }
}

// What comes of each front of the bytes, by its length, where that changes.
fn cuts(alloc: Global, bytes: &[u8]) -> Result<String, AllocError> {
    let mut text = String::new(alloc);
    let mut last = String::new(alloc);
    for len in 0..=bytes.len() {
        let now = short(alloc, &bytes[..len])?;
        if now != last {
            write!(&mut text, " {len}:{now}")?;
        }
        last = now;
    }
    Ok(text)
}

// What comes of the bytes where the one at a place is 255, by that place, where that changes.
fn spoil_bytes(alloc: Global, mut bytes: Vec<u8>) -> Result<String, AllocError> {
    let mut text = String::new(alloc);
    let mut last = String::new(alloc);
    for place in 0..bytes.len() {
        let mut spoiled = Vec::from_slice(alloc, &bytes)?;
        if let Some(byte) = spoiled.get_mut(place) {
            *byte = 255;
        }
        let now = short(alloc, &spoiled)?;
        if now != last {
            write!(&mut text, " {place}:{now}")?;
        }
        last = now;
    }
    bytes.clear();
    Ok(text)
}
