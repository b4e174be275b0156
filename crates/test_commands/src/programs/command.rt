// A command of either program.
use icn_host::{SureFiles, SureSink, SureSource};
use icont_top::icont_main;
use iconx_top::iconx_main;
use std::alloc::{AllocError, Global};

/// What a command puts: the lines of its output, those of its error output behind a mark, and its status. The error is want
/// of memory.
pub fn outcome(
    alloc: Global,
    words: &str,
    files: &mut SureFiles,
    input: &[u8],
) -> Result<String, AllocError> {
    let mut given = Vec::new(alloc);
    for word in words.split(' ') {
        given.push(String::from_str(alloc, word)?)?;
    }
    let mut input = SureSource::new(input.to_vec(alloc)?);
    let mut out = SureSink::new(Vec::new(alloc));
    let mut err = SureSink::new(Vec::new(alloc));
    let answer = if words.starts_with("iconx") {
        iconx_main(alloc, &given, files, &mut input, &mut out, &mut err)
    } else {
        icont_main(alloc, &given, files, &mut input, &mut out, &mut err)
    };
    let mut shown = String::new(alloc);
    push_lines(alloc, &mut shown, "", out.content())?;
    push_lines(alloc, &mut shown, "! ", err.content())?;
    let status = answer.code();
    if status != 0 {
        shown.push_str(&format!(in alloc; "status {status}\n")?)?;
    }
    Ok(shown)
}

/// Each line of a text, behind this mark. The error is want of memory.
pub fn push_lines(
    alloc: Global,
    shown: &mut String,
    mark: &str,
    bytes: &[u8],
) -> Result<(), AllocError> {
    let text = String::from_utf8_lossy(alloc, bytes)?;
    for line in text.lines() {
        shown.push_str(mark)?;
        shown.push_str(line)?;
        shown.push('\n')?;
    }
    Ok(())
}
