// What the lines of procedures come to, with the names and labels so far as sets.
ghost use Rattle.std.specs.Prelude.{◌≡◌, ◌++◌, ◌∷◌, [], map, IfOk, OnOk};
ghost use Rattle.std.specs.List.{list_all};
ghost use Rattle.icn_unit.specs.PlainUnits.{entry_names, proc_names};
ghost use Rattle.icn_unit.specs.UnitRules.{has_label, has_name, label_in, labels_placed, own_label, placed_labels};
ghost use Rattle.icn_unit.specs.UnitViews.{proc_seen};
ghost use Rattle.icn_ucode.specs.LabelSets.{has_place, holds, known_label, with_place};
ghost use Rattle.icn_tree.specs.NameSets.{has};
ghost use Rattle.icn_ucode.specs.UnitReading.{empty_proc, is_repeated, with_entry, with_instr};

use crate::labels::LabelSet;
use icn_tree::{Bytes, NameSet};
use icn_unit::{NameKind, ProcCode, UnitInstr, UnitName};
use std::alloc::{AllocError, Global};

// The procedures so far, with their names.
#[derive(Drop)]
pub struct Procs<'a> {
    pub procs: Vec<ProcCode>,
    names: NameSet<'a>,
    ghost known: { has names ≡ has_name (proc_names (map proc_seen procs.items)) },
}

impl<'a> Procs<'a> {
    /// None.
    pub fn new(alloc: Global) -> Self
        ensures { result.procs.items ≡ [] }
    {
        Procs {
            procs: Vec::new(alloc),
            names: NameSet::new(alloc),
        }
    }

    /// Whether a procedure has a name.
    pub fn has(&self, name: &'a [u8]) -> bool
        ensures { result ≡ has_name (proc_names (map proc_seen self.now.procs.items)) name.now }
    {
        self.names.has(name)
    }

    // One more, which has a name.
    fn with(self, name: &'a [u8], proc: ProcCode) -> Result<Self, AllocError>
        requires { name.now ≡ proc.name }
        ensures { IfOk result (λ more. more.procs.items ≡ self.entry.procs.items ++ proc ∷ []) }
    {
        let Procs {
            mut procs,
            mut names,
        } = self;
        names.meet(name)?;
        procs.push(proc)?;
        Ok(Procs { procs, names })
    }
}

// A procedure in front of its code, with the names so far.
#[derive(Drop)]
pub struct Begun<'a> {
    pub params: u32,
    pub proc: ProcCode,
    name: &'a [u8],
    names: NameSet<'a>,
    ghost named: { name.now ≡ proc.name },
    ghost known: { has names ≡ has_name (entry_names proc.names.items) },
    ghost codeless: { proc.instrs.items ≡ [] },
}

impl<'a> Begun<'a> {
    /// One of a name, which is to have so many parameters. `AllocError` is want of memory.
    pub fn new(
        alloc: Global,
        name: &'a [u8],
        params: u32,
        collects: bool,
    ) -> Result<Self, AllocError>
        ensures params { IfOk result (λ made. made.params ≡ params) }
        ensures procedure { IfOk result (λ made. proc_seen made.proc
            ≡ empty_proc (record { name = name.now; params = params; collects = collects })) }
    {
        let proc = ProcCode {
            name: Bytes::from_slice(alloc, name)?,
            collects,
            names: Vec::new(alloc),
            instrs: Vec::new(alloc),
        };
        Ok(Begun {
            params,
            proc,
            name,
            names: NameSet::new(alloc),
        })
    }

    /// Whether a name of the procedure is this one.
    pub fn has(&self, name: &'a [u8]) -> bool
        ensures { result ≡ has_name (entry_names self.now.proc.names.items) name.now }
    {
        self.names.has(name)
    }

    /// One more name. `AllocError` is want of memory.
    pub fn with(self, alloc: Global, kind: NameKind, name: &'a [u8]) -> Result<Self, AllocError>
        ensures params { IfOk result (λ more. more.params ≡ self.entry.params) }
        ensures procedure { IfOk result (λ more. proc_seen more.proc
            ≡ with_entry (proc_seen self.entry.proc) (record { kind = kind; name = name.now })) }
    {
        let Begun {
            params,
            mut proc,
            name: own,
            mut names,
        } = self;
        names.meet(name)?;
        let entry = UnitName {
            kind,
            name: Bytes::from_slice(alloc, name)?,
        };
        proc.names.push(entry)?;
        Ok(Begun {
            params,
            proc,
            name: own,
            names,
        })
    }

    /// The procedure at the begin of its code.
    pub fn at_code(self, alloc: Global) -> Coded<'a>
        ensures { result.proc ≡ self.entry.proc }
    {
        Coded {
            proc: self.proc,
            name: self.name,
            labels: LabelSet::new(alloc),
        }
    }
}

// A procedure in its code, with the labels that have their places so far.
#[derive(Drop)]
pub struct Coded<'a> {
    pub proc: ProcCode,
    name: &'a [u8],
    labels: LabelSet,
    ghost named: { name.now ≡ proc.name },
    ghost known: { holds labels ≡ has_label (placed_labels proc.instrs.items) },
}

impl<'a> Coded<'a> {
    /// Whether an instruction is the place of a label that has one.
    pub fn is_repeated(&self, instr: &UnitInstr) -> bool
        ensures { result ≡ is_repeated self.now.proc.instrs.items instr.now }
    {
        has_place(&self.labels, instr)
    }

    /// Whether each label that an instruction goes to has its place.
    pub fn labels_placed(&self) -> bool
        ensures { result ≡ labels_placed self.now.proc.instrs.items }
    {
        are_known(&self.labels, &self.proc.instrs)
    }

    /// One more instruction. `AllocError` is want of memory.
    pub fn with(self, instr: UnitInstr) -> Result<Self, AllocError>
        ensures { IfOk result (λ more. proc_seen more.proc ≡ with_instr (proc_seen self.entry.proc) instr) }
    {
        let Coded {
            mut proc,
            name,
            mut labels,
        } = self;
        add_place(&mut labels, &instr)?;
        proc.instrs.push(instr)?;
        Ok(Coded { proc, name, labels })
    }

    /// The procedures with this one. `AllocError` is want of memory.
    pub fn behind(self, procs: Procs<'a>) -> Result<Procs<'a>, AllocError>
        ensures { IfOk result (λ more. more.procs.items ≡ procs.entry.procs.items ++ self.entry.proc ∷ []) }
    {
        procs.with(self.name, self.proc)
    }
}

// Whether an instruction is the place of one of the labels.
fn has_place(labels: &LabelSet, instr: &UnitInstr) -> bool
    ensures { result ≡ has_place (holds labels.now) (own_label instr.now) }
{
    match instr {
        UnitInstr::Lab(label) => labels.has(*label),
        _ => false,
    }
}

// Whether an instruction goes to no label, or to one of these.
fn is_known(labels: &LabelSet, instr: &UnitInstr) -> bool
    ensures { result ≡ known_label (holds labels.now) (label_in instr.now) }
{
    match instr {
        UnitInstr::Mark(label)
        | UnitInstr::Chfail(label)
        | UnitInstr::Goto(label)
        | UnitInstr::Loop(label)
        | UnitInstr::Init(label)
        | UnitInstr::Create(label) => labels.has(*label),
        _ => true,
    }
}

fn are_known(labels: &LabelSet, instrs: &[UnitInstr]) -> bool
    ensures { result ≡ list_all (λ instr. known_label (holds labels.now) (label_in instr)) instrs.now }
{
    instrs.iter().all(|instr| is_known(labels, instr))
}

// Adds the label that has its place there.
fn add_place(labels: &mut LabelSet, instr: &UnitInstr) -> Result<(), AllocError>
    ensures { OnOk result (holds labels.new ≡ with_place (holds labels.old) (own_label instr.now)) }
{
    match instr {
        UnitInstr::Lab(label) => labels.add(*label),
        _ => Ok(()),
    }
}

// What the lines so far come to, and what the next may be.
#[derive(Drop)]
pub enum ProcStage<'a> {
    Heading,
    Outside,
    Naming(Begun<'a>),
    Coding(Coded<'a>),
}

#[derive(Drop)]
pub struct ProcReading<'a> {
    pub procs: Procs<'a>,
    pub stage: ProcStage<'a>,
}
