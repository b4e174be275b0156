// What the lines of declarations come to, with the names so far as sets.
ghost use Rattle.std.specs.Prelude.{◌≡◌, ◌++◌, ◌∷◌, [], map, IfOk};
ghost use Rattle.icn_unit.specs.PlainUnits.{owned_name, owned_names};
ghost use Rattle.icn_unit.specs.UnitRules.{has_name};
ghost use Rattle.icn_unit.specs.UnitViews.{decl_seen};
ghost use Rattle.icn_tree.specs.NameSets.{has};

use icn_tree::{Bytes, NameSet};
use icn_unit::UnitDecl;
use std::alloc::{AllocError, Global};

// The declarations so far, with the names of procedures and records.
#[derive(Drop)]
pub struct Decls<'a> {
    pub decls: Vec<UnitDecl>,
    names: NameSet<'a>,
    ghost known: { has names ≡ has_name (owned_names (map decl_seen decls.items)) },
}

impl<'a> Decls<'a> {
    /// None.
    pub fn new(alloc: Global) -> Self
        ensures { result.decls.items ≡ [] }
    {
        Decls {
            decls: Vec::new(alloc),
            names: NameSet::new(alloc),
        }
    }

    /// Whether a procedure or a record has a name.
    pub fn has(&self, name: &'a [u8]) -> bool
        ensures { result ≡ has_name (owned_names (map decl_seen self.now.decls.items)) name.now }
    {
        self.names.has(name)
    }

    /// One more, which is no procedure and no record. `AllocError` is want of memory.
    pub fn with(self, decl: UnitDecl) -> Result<Self, AllocError>
        requires { owned_name (decl_seen decl) ≡ [] }
        ensures { IfOk result (λ more. more.decls.items ≡ self.entry.decls.items ++ decl ∷ []) }
    {
        let Decls { mut decls, names } = self;
        decls.push(decl)?;
        Ok(Decls { decls, names })
    }

    /// One more, a procedure or a record of a name. `AllocError` is want of memory.
    pub fn with_owner(self, name: &'a [u8], decl: UnitDecl) -> Result<Self, AllocError>
        requires { owned_name (decl_seen decl) ≡ name.now ∷ [] }
        ensures { IfOk result (λ more. more.decls.items ≡ self.entry.decls.items ++ decl ∷ []) }
    {
        let Decls {
            mut decls,
            mut names,
        } = self;
        names.meet(name)?;
        decls.push(decl)?;
        Ok(Decls { decls, names })
    }
}

// The fields of a record so far.
#[derive(Drop)]
pub struct RecordFields<'a> {
    pub fields: Vec<Bytes>,
    names: NameSet<'a>,
    ghost known: { has names ≡ has_name fields.items },
}

impl<'a> RecordFields<'a> {
    /// None.
    pub fn new(alloc: Global) -> Self
        ensures { result.fields.items ≡ [] }
    {
        RecordFields {
            fields: Vec::new(alloc),
            names: NameSet::new(alloc),
        }
    }

    /// Whether a field has a name.
    pub fn has(&self, name: &'a [u8]) -> bool
        ensures { result ≡ has_name self.now.fields.items name.now }
    {
        self.names.has(name)
    }

    /// One more field. `AllocError` is want of memory.
    pub fn with(self, alloc: Global, name: &'a [u8]) -> Result<Self, AllocError>
        ensures { IfOk result (λ more. more.fields.items ≡ self.entry.fields.items ++ name.now ∷ []) }
    {
        let RecordFields {
            mut fields,
            mut names,
        } = self;
        names.meet(name)?;
        fields.push(Bytes::from_slice(alloc, name)?)?;
        Ok(RecordFields { fields, names })
    }
}

// What the lines so far come to, and what the next may be.
#[derive(Clone, Copy)]
pub enum DeclStage {
    Heading,
    Declaring,
    Ended,
}

#[derive(Drop)]
pub struct DeclReading<'a> {
    pub decls: Decls<'a>,
    pub stage: DeclStage,
}
