// Texts cut at bytes.

/// The text up to the first of these bytes, and what stands behind it, or the whole text.
pub fn cut(text: &[u8], at: u8) -> (&[u8], &[u8]) {
    match text.iter().position(|byte| *byte == at) {
        Some(place) => {
            let (front, rest) = text.split_at(place);
            (front, behind(rest))
        }
        None => (text, &[]),
    }
}

fn behind(rest: &[u8]) -> &[u8] {
    match rest {
        [_, behind @ ..] => behind,
        [] => rest,
    }
}
