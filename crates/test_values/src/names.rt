// A program that has one record, `p`, and no procedure.
use icn_convert::{Names, ProcKind};
use icn_defs::function_arguments;
use icn_text::Func;

/// Its names.
pub struct OneRecord;

impl Names for OneRecord {
    ghost use Rattle.std.specs.Prelude.{refl};
    ghost use Rattle.test_values.specs.OneRecord.{one_record};

    ghost known = { λ names. one_record };

    ghost none_hidden = { λ names. refl };

    fn count(&self) -> u32 {
        Func::ALL.len() as u32 + 1
    }

    fn proc(&self, number: u32) -> &[u8] {
        if number == 0 {
            return b"p";
        }
        Func::ALL[number as usize - 1].name()
    }

    fn arguments(&self, number: u32) -> i64 {
        if number == 0 {
            return 1;
        }
        function_arguments(Func::ALL[number as usize - 1])
    }

    fn proc_kind(&self, number: u32) -> ProcKind {
        if number == 0 {
            ProcKind::Constructor
        } else {
            ProcKind::Function
        }
    }

    fn rec(&self, _kind: u16) -> &[u8] {
        b"p"
    }
}
