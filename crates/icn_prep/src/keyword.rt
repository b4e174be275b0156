// The names of directives.
ghost use Rattle.std.specs.Prelude.{◌≡◌};
ghost use Rattle.icn_prep.specs.Directives.{keyword_of};

/// A directive by its name.
#[derive(Clone, Copy, Debug, PartialEq, Eq)]
pub enum DirectiveName {
    Define,
    Undef,
    Include,
    Ifdef,
    Ifndef,
    Else,
    Endif,
    Line,
    Error,
}

impl DirectiveName {
    /// The directive of this name, if there is one.
    pub fn directive_named(name: &[u8]) -> Option<DirectiveName>
        ensures { result ≡ keyword_of name.now }
    {
        if name == b"define".as_slice() {
            Some(DirectiveName::Define)
        } else if name == b"undef".as_slice() {
            Some(DirectiveName::Undef)
        } else if name == b"include".as_slice() {
            Some(DirectiveName::Include)
        } else if name == b"ifdef".as_slice() {
            Some(DirectiveName::Ifdef)
        } else if name == b"ifndef".as_slice() {
            Some(DirectiveName::Ifndef)
        } else if name == b"else".as_slice() {
            Some(DirectiveName::Else)
        } else if name == b"endif".as_slice() {
            Some(DirectiveName::Endif)
        } else if name == b"line".as_slice() {
            Some(DirectiveName::Line)
        } else if name == b"error".as_slice() {
            Some(DirectiveName::Error)
        } else {
            None
        }
    }
}
