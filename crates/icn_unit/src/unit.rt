// Units of code, as ucode spells them.
ghost use Rattle.std.specs.Prelude.{◌≡◌, map, true};
ghost use Rattle.icn_unit.specs.UnitRules.{keeps_rules};
ghost use Rattle.icn_unit.specs.UnitViews.{decl_seen, proc_seen};

use icn_text::{Keyword, Op};
use icn_tree::{ByteSet, Bytes};

/// An instruction of a procedure of a unit, or the place of a label.
#[derive(Debug, Drop)]
pub enum UnitInstr {
    /// `pnull`: null.
    Pnull,
    /// `int`: an integer, from 0 on.
    Int(i64),
    /// `str`: a string.
    Str(Bytes),
    /// `cset`: a cset.
    Cset(ByteSet),
    /// `var`: the variable of a name of the procedure, by its place.
    Var(u32),
    /// `keywd`: a keyword.
    Keywd(Keyword),
    /// `pop`: drops a value.
    Pop,
    /// `dup`: doubles a value.
    Dup,
    /// `op`: an operation.
    Op(Op),
    /// `llist`: a list of so many values.
    Llist(u32),
    /// `field`: a field of a record, by its name.
    Field(Bytes),
    /// `invoke`: a call with so many arguments.
    Invoke(u32),
    /// `appl`: `p ! L`.
    Appl,
    /// `mark`: opens a mark with a label.
    Mark(u32),
    /// `mark0`: opens a mark with no label.
    Mark0,
    /// `unmark`: drops the innermost mark.
    Unmark,
    /// `eret`: leaves the mark with its value.
    Eret,
    /// `esusp`: leaves the mark suspended.
    Esusp,
    /// `limit`: opens a limit mark.
    Limit,
    /// `lsusp`: counts a result of a limit down.
    Lsusp,
    /// `efail`: fails.
    Efail,
    /// `chfail`: changes the label of the mark.
    Chfail(u32),
    /// `goto`: goes to a label.
    Goto(u32),
    /// `loop`: goes back to a label.
    Loop(u32),
    /// `bscan`: opens a scan.
    Bscan,
    /// `escan`: leaves a scan.
    Escan,
    /// `ccase`: copies what a case compares.
    Ccase,
    /// `init`: goes to a label where this was done before.
    Init(u32),
    /// `psusp`: suspends the procedure.
    Psusp,
    /// `pret`: returns.
    Pret,
    /// `pfail`: ends the procedure, which fails.
    Pfail,
    /// `create`: a co-expression, whose code ends at a label.
    Create(u32),
    /// `coact`: `v @ C`.
    Coact,
    /// `coret`: leaves a create body with a value.
    Coret,
    /// `cofail`: ends a create body.
    Cofail,
    /// `lab`: the place of a label.
    Lab(u32),
}

/// What a name of a procedure is.
#[derive(Clone, Copy, Debug, PartialEq, Eq)]
pub enum NameKind {
    Parameter,
    Local,
    Static,
    /// A name that the procedure does not declare.
    Undeclared,
}

/// A name of a procedure.
#[derive(Debug, Drop)]
pub struct UnitName {
    pub kind: NameKind,
    pub name: Bytes,
}

/// A procedure of a unit.
#[derive(Debug, Drop)]
pub struct ProcCode {
    pub name: Bytes,
    /// Whether the last parameter collects the arguments that are left.
    pub collects: bool,
    /// Its names: parameters first, then locals and statics as they are declared, then undeclared ones.
    pub names: Vec<UnitName>,
    pub instrs: Vec<UnitInstr>,
}

/// A declaration of a unit.
#[derive(Debug, Drop)]
pub enum UnitDecl {
    Global(Bytes),
    Proc(Bytes),
    /// A file that is to be linked.
    Link(Bytes),
    /// What may be called by its name, or `all`.
    Invocable(Bytes),
    /// A record with its fields.
    Record(Bytes, Vec<Bytes>),
}

/// A unit: what one source file is translated to. It keeps the rules of the format, so that it has one spelling, which is
/// read as this unit.
#[derive(Debug, Drop)]
pub struct Unit {
    /// The base name of its files, which their texts don't hold.
    pub name: Bytes,
    pub procs: Vec<ProcCode>,
    pub decls: Vec<UnitDecl>,
    ghost rules: { keeps_rules (map proc_seen procs.items) (map decl_seen decls.items) ≡ true },
}
