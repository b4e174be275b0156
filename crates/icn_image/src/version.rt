// The versions of an image.

/// A version of the image, told by the last byte of its head.
#[derive(Clone, Copy, Debug, PartialEq, Eq)]
pub enum Version {
    /// Its numbers have 16 bits.
    First,
    /// Its numbers have 32 bits.
    Second,
}
