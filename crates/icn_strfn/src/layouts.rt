// How a text is laid out in a field.
ghost use Rattle.std.specs.Prelude.{◌≡◌, ◌+◌, ◌≤◌, ℕ, List, length};
ghost use Rattle.icn_defs.specs.Strings.{filling_text};
ghost use Rattle.icn_strfn.specs.Layouts.{in_field, laid_out};

/// Where a text stands in a field.
#[derive(Clone, Copy, Debug, PartialEq, Eq)]
pub enum Layout {
    /// At its left end.
    Left,
    /// At its right end.
    Right,
    /// In its middle.
    Center,
}

/// What stands in a field: a part of a text, and how many bytes are filled before it and behind it.
#[derive(Clone, Copy)]
pub struct Field {
    pub before: u64,
    /// The place of the part in the text.
    pub from: u64,
    /// The length of the part.
    pub len: u64,
    pub behind: u64,
}

/// What stands in a field of so many bytes, of a text of `len` bytes.
pub fn field_of(layout: Layout, len: u64, width: u64) -> Field
    ensures within { result.from + result.len ≤ len }
    ensures width { result.before + (result.len + result.behind) ≡ width }
    ensures field { (text fill : List ℕ) → length text ≡ len
        → in_field result text (filling_text fill) ≡ laid_out layout text width fill }
{
    let missing = width.saturating_sub(len);
    let lost = len.saturating_sub(width);
    match layout {
        Layout::Left => Field {
            before: 0,
            from: 0,
            len: len - lost,
            behind: missing,
        },
        Layout::Right => Field {
            before: missing,
            from: lost,
            len: len - lost,
            behind: 0,
        },
        Layout::Center => Field {
            before: missing / 2,
            from: lost - lost / 2,
            len: len - lost,
            behind: missing - missing / 2,
        },
    }
}
