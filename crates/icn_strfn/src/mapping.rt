// What bytes become.
ghost use Rattle.std.specs.Prelude.{◌≡◌, ◌<◌, ℕ, slice_index};
ghost use Rattle.icn_defs.specs.Strings.{map_byte};

/// What each byte becomes: a byte of the first text the one at its last place, in the second, and each other one itself.
pub fn images(from: &[u8], to: &[u8]) -> [u8; 256]
    ensures { (byte : ℕ) → byte < 256 → slice_index result byte ≡ map_byte from.now to.now byte }
{
    let mut images = identity_map();
    for (byte, image) in from.iter().zip(to) {
        images[usize::from(*byte)] = *image;
    }
    images
}

// Each byte, at its place.
fn identity_map() -> [u8; 256]
    ensures { (byte : ℕ) → byte < 256 → slice_index result byte ≡ byte }
{
    let mut bytes = [0; 256];
    for byte in 0..256u16 {
        bytes[usize::from(byte)] = byte as u8;
    }
    bytes
}

/// Each byte of a text is below 256. The call does nothing: it tells a caller's proof so.
pub fn bytes_are_small(text: &[u8])
    ensures { (k : ℕ) → slice_index text.now k < 256 }
{
    let _first = text.first();
}
