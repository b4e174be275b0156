// The marks and loops that are open at a place of a procedure.
ghost use Rattle.std.specs.Prelude.{◌≡◌};
ghost use Rattle.icn_translate.specs.OpenMarks.{around, is_loopless, is_nextless};
ghost use Rattle.icn_translate.specs.Views.{open_of};

/// What is open, the innermost first.
#[derive(Clone, Copy)]
pub enum OpenMarks<'a> {
    /// Nothing, in a procedure or a create body.
    Outermost,
    /// A mark.
    Mark(&'a OpenMarks<'a>),
    /// A loop.
    Loop(&'a OpenMarks<'a>),
    /// An `every` in its control expression, where `next` may not stand. Its first mark stays open for its next pass.
    Control(&'a OpenMarks<'a>),
    /// An `every` in its body, whose first mark stays open for its next pass.
    Each(&'a OpenMarks<'a>),
}

/// Whether no loop is open.
pub fn is_loopless(within: OpenMarks<'_>) -> bool
    ensures { result ≡ is_loopless (open_of within.entry) }
{
    match within {
        OpenMarks::Outermost => true,
        OpenMarks::Mark(outer) => is_loopless(*outer),
        OpenMarks::Loop(_) | OpenMarks::Control(_) | OpenMarks::Each(_) => false,
    }
}

/// Whether `next` may not stand here.
pub fn is_nextless(within: OpenMarks<'_>) -> bool
    ensures { result ≡ is_nextless (open_of within.entry) }
{
    match within {
        OpenMarks::Outermost | OpenMarks::Control(_) => true,
        OpenMarks::Mark(outer) => is_nextless(*outer),
        OpenMarks::Loop(_) | OpenMarks::Each(_) => false,
    }
}

/// What is open around the innermost loop.
pub fn around<'a>(within: OpenMarks<'a>) -> OpenMarks<'a>
    ensures { open_of result ≡ around (open_of within.entry) }
{
    match within {
        OpenMarks::Outermost => within,
        OpenMarks::Mark(outer) => around(*outer),
        OpenMarks::Loop(outer) | OpenMarks::Control(outer) | OpenMarks::Each(outer) => *outer,
    }
}
