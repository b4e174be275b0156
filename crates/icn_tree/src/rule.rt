// The rules that can refuse a program text, a unit of code, an image or a save.
ghost use Rattle.std.specs.Prelude.{◌≡◌};

/// A rule that refuses a program text, a unit of code, an image or a save. Its name is the code that a refusal prints.
#[derive(Clone, Copy, Debug, PartialEq, Eq)]
pub enum Rule {
    /// A directive has no name, or one that is none.
    P1,
    /// A directive's operand is missing, wrong or surplus.
    P2,
    /// An `$else` or `$endif` has no conditional that its file began.
    P3,
    /// A file ends with a conditional open.
    P4,
    /// A name is defined again with other text.
    P5,
    /// An included file is not there.
    P6,
    /// Files include one another too deep.
    P7,
    /// The text has an `$error` directive.
    P8,
    /// A file, or what a named file gives, is too long.
    P9,
    /// A byte begins no token.
    L1,
    /// A literal is not closed.
    L2,
    /// An escape in a literal is wrong.
    L3,
    /// An integer is too large.
    L4,
    /// An integer has a wrong radix, or a digit that its radix lacks.
    L5,
    /// A number is not whole.
    L6,
    /// A literal or a name is too long.
    L7,
    /// The tokens are no program.
    S1,
    /// A procedure's tree is too high.
    S2,
    /// A keyword is unknown.
    S3,
    /// A name is declared twice in a procedure.
    C1,
    /// A `break` stands outside a loop.
    C2,
    /// A `next` stands outside a loop, or in the control expression of `every`.
    C3,
    /// A `return`, `fail` or `suspend` stands in a `create`, or a `break` or `next` with no loop in between.
    C4,
    /// A `case` has a second `default` clause.
    C5,
    /// A field of a record is declared twice.
    C6,
    /// A procedure has too many names, or a record too many fields.
    C7,
    /// A procedure or record is declared twice.
    C8,
    /// Units declare a name as procedures or records more than once.
    K1,
    /// A file of ucode that a unit links is not there.
    K2,
    /// A program is too large for the tables of its code.
    K3,
    /// What `invocable` names is not there.
    K4,
    /// A line of ucode is none of the grammar.
    U1,
    /// An instruction of ucode is unknown.
    U2,
    /// An operand of ucode is wrong.
    U3,
    /// A label of ucode is not defined.
    U4,
    /// A label of ucode is defined twice.
    U5,
    /// An `end` of ucode is missing.
    U6,
    /// The two files of a unit name different procedures.
    U7,
    /// A file of ucode is too long.
    U8,
    /// The first bytes of an image are not its head.
    I1,
    /// The bytes of an image end too early.
    I2,
    /// A number of an instruction, a kind or a flag of an image is none.
    I3,
    /// An index, a function, a keyword, an operation or a label of an image is out of range.
    I4,
    /// Bytes stand behind the end of an image.
    I5,
    /// An image is too long.
    I6,
    /// The new image of a code would be too long.
    I7,
    /// An instruction lacks an operand.
    V1,
    /// Two shapes lead to one place, or a label leads back to a place without that shape.
    V2,
    /// A label leads in the wrong direction.
    V3,
    /// An instruction of marks, scans, procedures or co-expressions stands where it can't.
    V4,
    /// The end of a procedure's code is reached.
    V5,
    /// The first bytes of a save are not its head.
    G1,
    /// The bytes of a save end too early.
    G2,
    /// A kind or flag byte of a save is none, a limit is out of its range, or a word or the name of a file is no text.
    G3,
    /// Bytes stand behind the end of a save.
    G4,
    /// The image in a save is none, or its code is not verified.
    G5,
    /// The run of a save's code does not come to what the save tells.
    G6,
    /// A save is too long.
    G7,
}

impl Rule {
    ghost use Rattle.icn_tree.specs.Rules.{rule_text};

    /// The rule's code and what it says, as a refusal prints them.
    pub fn text(&self) -> &'static [u8]
        ensures { result.now ≡ rule_text self.now }
    {
        match self {
            Rule::P1 => b"P1 unknown directive",
            Rule::P2 => b"P2 bad directive operand",
            Rule::P3 => b"P3 unmatched $else or $endif",
            Rule::P4 => b"P4 unclosed conditional",
            Rule::P5 => b"P5 name defined with other text",
            Rule::P6 => b"P6 included file not there",
            Rule::P7 => b"P7 includes deeper than 32",
            Rule::P8 => b"P8 $error",
            Rule::P9 => b"P9 over 16777216 bytes",
            Rule::L1 => b"L1 bad byte",
            Rule::L2 => b"L2 unclosed literal",
            Rule::L3 => b"L3 bad escape",
            Rule::L4 => b"L4 integer too large",
            Rule::L5 => b"L5 bad radix or digit",
            Rule::L6 => b"L6 real literal",
            Rule::L7 => b"L7 literal or name over 65535 bytes",
            Rule::S1 => b"S1 not a program",
            Rule::S2 => b"S2 tree higher than 2000",
            Rule::S3 => b"S3 unknown keyword",
            Rule::C1 => b"C1 name declared twice in a procedure",
            Rule::C2 => b"C2 break outside a loop",
            Rule::C3 => b"C3 next outside a loop",
            Rule::C4 => b"C4 not allowed in create",
            Rule::C5 => b"C5 two default clauses",
            Rule::C6 => b"C6 field declared twice",
            Rule::C7 => b"C7 too many names or fields",
            Rule::C8 => b"C8 procedure or record declared twice",
            Rule::K1 => b"K1 inconsistent redeclaration",
            Rule::K2 => b"K2 linked file not there",
            Rule::K3 => b"K3 program too large",
            Rule::K4 => b"K4 invocable name not there",
            Rule::U1 => b"U1",
            Rule::U2 => b"U2",
            Rule::U3 => b"U3",
            Rule::U4 => b"U4",
            Rule::U5 => b"U5",
            Rule::U6 => b"U6",
            Rule::U7 => b"U7",
            Rule::U8 => b"U8",
            Rule::I1 => b"I1",
            Rule::I2 => b"I2",
            Rule::I3 => b"I3",
            Rule::I4 => b"I4",
            Rule::I5 => b"I5",
            Rule::I6 => b"I6",
            Rule::I7 => b"I7",
            Rule::V1 => b"V1",
            Rule::V2 => b"V2",
            Rule::V3 => b"V3",
            Rule::V4 => b"V4",
            Rule::V5 => b"V5",
            Rule::G1 => b"G1",
            Rule::G2 => b"G2",
            Rule::G3 => b"G3",
            Rule::G4 => b"G4",
            Rule::G5 => b"G5",
            Rule::G6 => b"G6",
            Rule::G7 => b"G7",
        }
    }
}
