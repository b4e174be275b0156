// What an instruction may name where it stands.
ghost use Rattle.std.specs.Prelude.{◌≡◌};

use icn_code::Instr;

// How many there are of what an instruction can name.
#[derive(Clone, Copy, Debug)]
pub struct TableSizes {
    pub integers: u64,
    pub strings: u64,
    pub csets: u64,
    pub globals: u64,
    pub fields: u64,
    // The parameters and other locals of the procedure.
    pub variables: u64,
    pub statics: u64,
    // The instructions of the procedure: a label is at most their number.
    pub labels: u64,
}

impl TableSizes {
    ghost use Rattle.icn_image.specs.Scopes.{names_there};

    /// Whether what an instruction names is there.
    pub fn has(&self, instr: Instr) -> bool
        ensures { result ≡ names_there self.now instr }
    {
        match instr {
            Instr::Int(place) => u64::from(place) < self.integers,
            Instr::Str(place) => u64::from(place) < self.strings,
            Instr::Cset(place) => u64::from(place) < self.csets,
            Instr::Local(place) => u64::from(place) < self.variables,
            Instr::Static(place) => u64::from(place) < self.statics,
            Instr::Global(place) => u64::from(place) < self.globals,
            Instr::Field(place) => u64::from(place) < self.fields,
            Instr::Mark(label)
            | Instr::Chfail(label)
            | Instr::Goto(label)
            | Instr::Loop(label)
            | Instr::Init(label)
            | Instr::Create(label) => u64::from(label) <= self.labels,
            _ => true,
        }
    }
}
