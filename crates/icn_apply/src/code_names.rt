// The names that a code gives.
use crate::names::{
    arguments_of_function, function_name, procedure_arguments, procedure_name, record_arguments,
    record_name,
};
use icn_code::Code;
use icn_convert::{Names, ProcKind};
use icn_text::Func;

/// The names that a code gives its procedures and records.
#[derive(Clone, Copy)]
pub struct CodeNames<'a> {
    code: &'a Code,
}

impl<'a> CodeNames<'a> {
    ghost use Rattle.std.specs.Prelude.{◌≡◌};
    ghost use Rattle.icn_code.specs.CodeTables.{tables_of};
    ghost use Rattle.icn_apply.specs.CodeNaming.{names_of};

    /// The names of this code.
    pub fn new(code: &'a Code) -> Self
        ensures { ⟦<CodeNames<'static> as Names>⟧.known result ≡ names_of (tables_of code.now) }
    {
        CodeNames { code }
    }
}

impl Names for CodeNames<'_> {
    ghost use Rattle.std.specs.Prelude.{refl};
    ghost use Rattle.icn_code.specs.CodeTables.{tables_of};
    ghost use Rattle.icn_apply.specs.CodeNaming.{names_of};

    ghost known = { λ names. names_of (tables_of names.code.now) };

    ghost none_hidden = { λ names. refl };

    fn count(&self) -> u32 {
        (self.code.procs.len() + self.code.records.len() + Func::ALL.len()) as u32
    }

    fn proc(&self, number: u32) -> &[u8] {
        let place = number as usize;
        let procs = self.code.procs.len();
        let records = self.code.records.len();
        if place < procs {
            procedure_name(self.code, place)
        } else if place < procs + records {
            record_name(self.code, place - procs)
        } else {
            function_name(place - procs - records)
        }
    }

    fn arguments(&self, number: u32) -> i64 {
        let place = number as usize;
        let procs = self.code.procs.len();
        let records = self.code.records.len();
        if place < procs {
            procedure_arguments(self.code, place)
        } else if place < procs + records {
            record_arguments(self.code, place - procs)
        } else {
            arguments_of_function(place - procs - records)
        }
    }

    fn proc_kind(&self, number: u32) -> ProcKind {
        let place = number as usize;
        let procs = self.code.procs.len();
        if place < procs {
            ProcKind::Procedure
        } else if place < procs + self.code.records.len() {
            ProcKind::Constructor
        } else {
            ProcKind::Function
        }
    }

    fn rec(&self, kind: u16) -> &[u8] {
        record_name(self.code, kind as usize)
    }
}
