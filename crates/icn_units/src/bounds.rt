// What the types of codes and declarations say of their numbers and their bytes.
ghost use Rattle.std.specs.Prelude.{◌≡◌, map, true};
ghost use Rattle.std.specs.List.{list_all};
ghost use Rattle.icn_unit.specs.UnitRules.{is_byte, is_number};
ghost use Rattle.icn_unit.specs.UnitViews.{decl_seen, proc_seen};
ghost use Rattle.icn_units.specs.TypeBounds.{bytes_fit, number_fits, numbers_fit};

use icn_unit::{ProcCode, UnitDecl, UnitInstr};

fn number(n: u32)
    ensures { is_number n ≡ true }
{
    let _number = n;
}

fn bytes_are(bytes: &[u8])
    ensures { list_all is_byte bytes.now ≡ true }
{
    let _first = bytes.first();
}

fn instr_fits(instr: &UnitInstr)
    ensures { number_fits instr.now ≡ true }
{
    match instr {
        UnitInstr::Str(bytes) => bytes_are(bytes.as_slice()),
        UnitInstr::Var(place) => number(*place),
        UnitInstr::Llist(count) => number(*count),
        UnitInstr::Invoke(count) => number(*count),
        UnitInstr::Mark(label) => number(*label),
        UnitInstr::Chfail(label) => number(*label),
        UnitInstr::Goto(label) => number(*label),
        UnitInstr::Loop(label) => number(*label),
        UnitInstr::Init(label) => number(*label),
        UnitInstr::Create(label) => number(*label),
        UnitInstr::Lab(label) => number(*label),
        UnitInstr::Pnull
        | UnitInstr::Int(_)
        | UnitInstr::Cset(_)
        | UnitInstr::Keywd(_)
        | UnitInstr::Pop
        | UnitInstr::Dup
        | UnitInstr::Op(_)
        | UnitInstr::Field(_)
        | UnitInstr::Appl
        | UnitInstr::Mark0
        | UnitInstr::Unmark
        | UnitInstr::Eret
        | UnitInstr::Esusp
        | UnitInstr::Limit
        | UnitInstr::Lsusp
        | UnitInstr::Efail
        | UnitInstr::Bscan
        | UnitInstr::Escan
        | UnitInstr::Ccase
        | UnitInstr::Psusp
        | UnitInstr::Pret
        | UnitInstr::Pfail
        | UnitInstr::Coact
        | UnitInstr::Coret
        | UnitInstr::Cofail => {}
    }
}

fn instrs_fit(instrs: &[UnitInstr])
    ensures { list_all number_fits instrs.now ≡ true }
{
    for instr in instrs {
        instr_fits(instr);
    }
}

/// The numbers and the bytes of codes.
pub fn codes_fit(codes: &[ProcCode])
    ensures { list_all numbers_fit (map proc_seen codes.now) ≡ true }
{
    for code in codes {
        instrs_fit(&code.instrs);
    }
}

fn decl_fits(decl: &UnitDecl)
    ensures { bytes_fit (decl_seen decl.now) ≡ true }
{
    match decl {
        UnitDecl::Link(text) => bytes_are(text.as_slice()),
        UnitDecl::Invocable(text) => bytes_are(text.as_slice()),
        UnitDecl::Global(_) | UnitDecl::Proc(_) | UnitDecl::Record(_, _) => {}
    }
}

/// The bytes of declarations.
pub fn decls_fit(decls: &[UnitDecl])
    ensures { list_all bytes_fit (map decl_seen decls.now) ≡ true }
{
    for decl in decls {
        decl_fits(decl);
    }
}
