// The code of a program.
use icn_host::{Files, SureFiles, SureSink, SureSource};
use icn_image::read_image;
use icn_verify::{Verified, verify};
use icont_top::icont_main;
use std::alloc::{AllocError, Global};
use std::collections::BTreeMap;

/// The verified code of a program: of declarations, or else of the body of `main`. A pilcrow stands for the end of a line.
/// There is none where it isn't translated. The error is want of memory.
pub fn code_of(alloc: Global, source: &str) -> Result<Option<Verified>, AllocError> {
    let mut files = SureFiles::new(alloc, BTreeMap::new(alloc));
    let text = text_of(alloc, source)?;
    if files.write("f.icn", text.as_bytes()).is_err() {
        return Ok(None);
    }
    translate(alloc, &mut files)?;
    let Some(bytes) = files.content().get("f") else {
        return Ok(None);
    };
    match read_image(alloc, bytes) {
        Ok(code) => match verify(alloc, code) {
            Ok(verified) => Ok(Some(verified)),
            Err(_) => Ok(None),
        },
        Err(_) => Ok(None),
    }
}

// Writes the image of f.icn.
fn translate(alloc: Global, files: &mut SureFiles) -> Result<(), AllocError> {
    let mut words = Vec::new(alloc);
    for word in ["icont", "f.icn"] {
        words.push(String::from_str(alloc, word)?)?;
    }
    let mut input = SureSource::new(Vec::new(alloc));
    let mut out = SureSink::new(Vec::new(alloc));
    let mut err = SureSink::new(Vec::new(alloc));
    icont_main(alloc, &words, files, &mut input, &mut out, &mut err);
    Ok(())
}

fn text_of(alloc: Global, source: &str) -> Result<String, AllocError> {
    let lines = source.replace(alloc, "¶", "\n")?;
    if source.starts_with("procedure") {
        format!(in alloc; "{lines}\n")
    } else {
        format!(in alloc; "procedure main()\n{lines}\nend\n")
    }
}
