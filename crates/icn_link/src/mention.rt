// What an instruction mentions.
ghost use Rattle.std.specs.Prelude.{◌≡◌};
ghost use Rattle.icn_link.specs.Mentions.{mention_of, name_used};
ghost use Rattle.icn_link.specs.Views.{mention_seen};

use icn_unit::UnitInstr;

/// What an instruction has from a table, or how many operands it takes as it says itself.
#[derive(Clone, Copy)]
pub enum Mention<'a> {
    Nothing,
    Integer(i64),
    Text(&'a [u8]),
    Set(&'a [u8]),
    Field(&'a [u8]),
    Operands(u32),
}

/// Which name of its procedure an instruction uses, if it uses one.
pub fn name_used(instr: &UnitInstr) -> Option<u32>
    ensures { result ≡ name_used instr.now }
{
    match instr {
        UnitInstr::Var(place) => Some(*place),
        UnitInstr::Int(_)
        | UnitInstr::Str(_)
        | UnitInstr::Cset(_)
        | UnitInstr::Field(_)
        | UnitInstr::Llist(_)
        | UnitInstr::Invoke(_)
        | UnitInstr::Pnull
        | UnitInstr::Keywd(_)
        | UnitInstr::Pop
        | UnitInstr::Dup
        | UnitInstr::Op(_)
        | UnitInstr::Appl
        | UnitInstr::Mark(_)
        | UnitInstr::Mark0
        | UnitInstr::Unmark
        | UnitInstr::Eret
        | UnitInstr::Esusp
        | UnitInstr::Limit
        | UnitInstr::Lsusp
        | UnitInstr::Efail
        | UnitInstr::Chfail(_)
        | UnitInstr::Goto(_)
        | UnitInstr::Loop(_)
        | UnitInstr::Bscan
        | UnitInstr::Escan
        | UnitInstr::Ccase
        | UnitInstr::Init(_)
        | UnitInstr::Psusp
        | UnitInstr::Pret
        | UnitInstr::Pfail
        | UnitInstr::Create(_)
        | UnitInstr::Coact
        | UnitInstr::Coret
        | UnitInstr::Cofail
        | UnitInstr::Lab(_) => None,
    }
}

/// What an instruction mentions.
pub fn mention_of(instr: &UnitInstr) -> Mention<'_>
    ensures { mention_seen result ≡ mention_of instr.now }
{
    match instr {
        UnitInstr::Int(n) => Mention::Integer(*n),
        UnitInstr::Str(bytes) => Mention::Text(bytes.as_slice()),
        UnitInstr::Cset(set) => Mention::Set(set.as_slice()),
        UnitInstr::Field(name) => Mention::Field(name.as_slice()),
        UnitInstr::Llist(count) => Mention::Operands(*count),
        UnitInstr::Invoke(count) => Mention::Operands(*count),
        UnitInstr::Pnull
        | UnitInstr::Var(_)
        | UnitInstr::Keywd(_)
        | UnitInstr::Pop
        | UnitInstr::Dup
        | UnitInstr::Op(_)
        | UnitInstr::Appl
        | UnitInstr::Mark(_)
        | UnitInstr::Mark0
        | UnitInstr::Unmark
        | UnitInstr::Eret
        | UnitInstr::Esusp
        | UnitInstr::Limit
        | UnitInstr::Lsusp
        | UnitInstr::Efail
        | UnitInstr::Chfail(_)
        | UnitInstr::Goto(_)
        | UnitInstr::Loop(_)
        | UnitInstr::Bscan
        | UnitInstr::Escan
        | UnitInstr::Ccase
        | UnitInstr::Init(_)
        | UnitInstr::Psusp
        | UnitInstr::Pret
        | UnitInstr::Pfail
        | UnitInstr::Create(_)
        | UnitInstr::Coact
        | UnitInstr::Coret
        | UnitInstr::Cofail
        | UnitInstr::Lab(_) => Mention::Nothing,
    }
}
