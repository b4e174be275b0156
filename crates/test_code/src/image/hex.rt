// Bytes as digits of base 16.
use std::alloc::AllocError;

fn digit(byte: u8) -> Option<u8> {
    match byte {
        b'0'..=b'9' => Some(byte - b'0'),
        b'a'..=b'f' => Some(byte - b'a' + 10),
        _ => None,
    }
}

/// Adds the bytes of digits, two a byte; other characters are skipped. The error is want of memory.
pub fn put_hex(out: &mut Vec<u8>, hex: &str) -> Result<(), AllocError> {
    let mut high = None;
    for byte in hex.as_bytes() {
        if let Some(low) = digit(*byte) {
            match high {
                None => high = Some(low),
                Some(first) => {
                    out.push((first << 4) | low)?;
                    high = None;
                }
            }
        }
    }
    Ok(())
}
