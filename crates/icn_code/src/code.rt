// Linked code.
ghost use Rattle.std.specs.Prelude.{IsTrue};
ghost use Rattle.icn_code.specs.Codes.{procs_of, records_of};
ghost use Rattle.icn_code.specs.Rules.{keeps_rules};

use crate::instr::Instr;
use icn_text::Func;
use icn_tree::Bytes;
use icn_value::Cset;

/// A record type: the name of its constructor and its fields.
#[derive(Debug, Drop)]
pub struct LinkedRecord {
    /// Its name, by the place among the strings.
    pub name: u32,
    /// Its fields in their order, by the places among the code's fields.
    pub fields: Vec<u32>,
}

/// What a global variable begins with.
#[derive(Clone, Copy, Debug, PartialEq, Eq)]
pub enum Start {
    Null,
    /// A procedure, by its place.
    Procedure(u32),
    /// A record's constructor, by the record's place.
    Record(u32),
    /// A built-in function.
    Function(Func),
}

/// A global variable.
#[derive(Clone, Copy, Debug, PartialEq, Eq)]
pub struct Global {
    /// Its name, by the place among the strings.
    pub name: u32,
    pub start: Start,
}

/// A procedure.
#[derive(Debug, Drop)]
pub struct LinkedProcedure {
    /// Its name, by the place among the strings.
    pub name: u32,
    /// How many parameters it has.
    pub parameters: u32,
    /// Whether its last parameter collects the arguments that are left.
    pub collects: bool,
    /// How many locals it has besides its parameters.
    pub locals: u32,
    /// How many statics it has.
    pub statics: u32,
    pub instrs: Vec<Instr>,
}

/// The code of a linked program: its tables, whose numbers have 32 bits. Every code keeps the rules of the tables, so that each
/// place in it is one of its table.
#[derive(Debug, Drop)]
pub struct Code {
    pub strings: Vec<Bytes>,
    pub csets: Vec<Cset>,
    pub integers: Vec<i64>,
    /// The names of fields, by their places among the strings.
    pub fields: Vec<u32>,
    pub records: Vec<LinkedRecord>,
    /// The global variables, whose names differ.
    pub globals: Vec<Global>,
    pub procs: Vec<LinkedProcedure>,
    ghost rules: { IsTrue (keeps_rules (record {
      strings = strings.items;
      csets = csets.items;
      integers = integers.items;
      fields = fields.items;
      records = records_of records.items;
      globals = globals.items;
      procs = procs_of procs.items;
    })) },
}
