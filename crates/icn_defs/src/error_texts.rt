// The texts of run-time errors.
ghost use Rattle.std.specs.Prelude.{◌≡◌};
ghost use Rattle.icn_defs.specs.Errors.{error_text};

/// The text of an error by its number; of a number that is none, nothing. It takes no memory.
pub fn error_text(number: u16) -> &'static [u8]
    ensures { result.now ≡ error_text number }
{
    match number {
        101 => b"integer expected or out of range",
        102 => b"numeric expected",
        103 => b"string expected",
        104 => b"cset expected",
        105 => b"file expected",
        106 => b"procedure or integer expected",
        107 => b"record expected",
        108 => b"list expected",
        109 => b"string or file expected",
        110 => b"string or list expected",
        111 => b"variable expected",
        112 => b"invalid type to size operation",
        113 => b"invalid type to random operation",
        114 => b"invalid type to subscript operation",
        115 => b"structure expected",
        116 => b"invalid type to element generator",
        117 => b"missing main procedure",
        118 => b"co-expression expected",
        119 => b"set expected",
        120 => b"two csets or two sets expected",
        122 => b"set or table expected",
        124 => b"table expected",
        126 => b"list or record expected",
        201 => b"division by zero",
        202 => b"remaindering by zero",
        203 => b"integer overflow",
        205 => b"invalid value",
        207 => b"invalid field name",
        208 => b"second and third arguments to map of unequal length",
        209 => b"invalid second argument to open",
        211 => b"by value equal to zero",
        212 => b"attempt to read file not open for reading",
        213 => b"attempt to write file not open for writing",
        215 => b"attempt to refresh &main",
        301 => b"evaluation stack overflow",
        306 => b"inadequate space in string region",
        307 => b"inadequate space in block region",
        _ => b"",
    }
}
