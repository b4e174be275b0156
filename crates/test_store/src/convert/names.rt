// A program with a procedure and two records.
use icn_convert::{Names, ProcKind};
use icn_defs::function_arguments;
use icn_text::Func;

pub struct SomeNames;

impl Names for SomeNames {
    ghost use Rattle.std.specs.Prelude.{refl};
    ghost use Rattle.test_store.specs.SomeNames.{some_names};

    ghost known = { λ names. some_names };

    ghost none_hidden = { λ names. refl };

    fn count(&self) -> u32 {
        Func::ALL.len() as u32 + 3
    }

    fn proc(&self, number: u32) -> &[u8] {
        match number {
            0 => b"main",
            1 => b"p",
            2 => b"q",
            _ => Func::ALL[number as usize - 3].name(),
        }
    }

    fn arguments(&self, number: u32) -> i64 {
        match number {
            0 => 0,
            1 => 1,
            2 => 2,
            _ => function_arguments(Func::ALL[number as usize - 3]),
        }
    }

    fn proc_kind(&self, number: u32) -> ProcKind {
        match number {
            0 => ProcKind::Procedure,
            1 => ProcKind::Constructor,
            2 => ProcKind::Constructor,
            _ => ProcKind::Function,
        }
    }

    fn rec(&self, kind: u16) -> &[u8] {
        if kind == 0 { b"p" } else { b"q" }
    }
}
