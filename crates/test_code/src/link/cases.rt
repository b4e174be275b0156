// What comes of a case.
use crate::link::listing::code_listing;
use crate::link::units::units;
use icn_code::Code;
use icn_image::write_image;
use icn_link::{DeclPlace, LinkFault, Linked, link};
use icn_tree::Bytes;
use icn_unit::Unit;
use std::alloc::{AllocError, Global};
use std::fmt::Write;

// What is shown of a code.
#[derive(Clone, Copy)]
enum CodeView {
    // its tables and instructions
    Listing,
    // its image, in base 16
    Image,
    // which procedures may be called by their names
    Names,
    // that there is one
    Nothing,
}

fn shown_by(word: &str) -> Option<CodeView> {
    match word {
        "code" => Some(CodeView::Listing),
        "image" => Some(CodeView::Image),
        "names" => Some(CodeView::Names),
        "link" => Some(CodeView::Nothing),
        _ => None,
    }
}

/// What comes of a case, behind an arrow. A line of another kind, as a comment, has no outcome. The error is want of memory.
pub fn outcome(alloc: Global, line: &str) -> Result<String, AllocError> {
    let (word, case) = line.split_once(" ").unwrap_or((line, ""));
    let Some(shown) = shown_by(word) else {
        return Ok(String::new(alloc));
    };
    let outcome = match units(alloc, case)? {
        Some(units) => link_and_show(alloc, shown, &units)?,
        None => String::from_str(alloc, "no unit")?,
    };
    format!(in alloc; " → {outcome}")
}

fn link_and_show(alloc: Global, shown: CodeView, units: &[Unit]) -> Result<String, AllocError> {
    match link(alloc, units) {
        Ok(linked) => linked_text(alloc, shown, &linked),
        Err(
            LinkFault::K1 {
                unit,
                name,
                first,
                second,
            },
        ) => repeat_text(alloc, unit, &name, first, second),
        Err(LinkFault::K2 { unit, name }) => missing_text(alloc, unit, &name),
        Err(LinkFault::K3 { count }) => format!(in alloc; "K3 {count}"),
        Err(LinkFault::K4 { unit, name }) => unknown_text(alloc, unit, &name),
        Err(LinkFault::NoMemory) => Err(AllocError),
    }
}

fn linked_text(alloc: Global, shown: CodeView, linked: &Linked) -> Result<String, AllocError> {
    match shown {
        CodeView::Listing => code_listing(alloc, &linked.code),
        CodeView::Image => image_text(alloc, &linked.code),
        CodeView::Names => names_text(alloc, linked),
        CodeView::Nothing => String::from_str(alloc, "linked"),
    }
}

// The numbers of the procedures that are named, or that all are.
fn names_text(alloc: Global, linked: &Linked) -> Result<String, AllocError> {
    let mut text = String::from_str(alloc, if linked.all { "all" } else { "named" })?;
    for number in &linked.named {
        let number = *number;
        write!(text, " {number}")?;
    }
    Ok(text)
}

fn image_text(alloc: Global, code: &Code) -> Result<String, AllocError> {
    let mut text = String::new(alloc);
    for byte in write_image(alloc, code)?.as_slice() {
        let byte = *byte;
        write!(text, "{byte:02x}")?;
    }
    Ok(text)
}

// K1: the unit, the name, and both declarations by their units and their places there.
fn repeat_text(
    alloc: Global,
    unit: u64,
    name: &Bytes,
    first: DeclPlace,
    second: DeclPlace,
) -> Result<String, AllocError> {
    let mut text = fault_text(alloc, "K1", unit, name)?;
    put_place(&mut text, first)?;
    put_place(&mut text, second)?;
    Ok(text)
}

fn put_place(text: &mut String, place: DeclPlace) -> Result<(), AllocError> {
    let unit = place.unit;
    let decl = place.decl;
    write!(text, " {unit}.{decl}")
}

// K2: the unit, and the name that it links.
fn missing_text(alloc: Global, unit: u64, name: &Bytes) -> Result<String, AllocError> {
    fault_text(alloc, "K2", unit, name)
}

// K4: the unit, and the name that it says may be called.
fn unknown_text(alloc: Global, unit: u64, name: &Bytes) -> Result<String, AllocError> {
    fault_text(alloc, "K4", unit, name)
}

fn fault_text(alloc: Global, rule: &str, unit: u64, name: &Bytes) -> Result<String, AllocError> {
    let mut text = format!(in alloc; "{rule} {unit} ")?;
    for byte in name.as_slice() {
        text.push(char::from(*byte))?;
    }
    Ok(text)
}
