// Declarations as text.
use crate::shown::{TreeText, Work, Writer};
use icn_tree::{
    Decl, DeclItem, Expr, Initial, LocalDecl, LocalKind, Name, Place, Procedure, SourceFile,
};
use std::alloc::{AllocError, Global};

impl<'a> Writer<'a> {
    fn names(&mut self, names: &'a [Name]) -> Result<(), AllocError> {
        for name in names.iter().rev() {
            self.work.push(Work::Name(name))?;
        }
        Ok(())
    }

    fn items(&mut self, head: &str, place: Place, items: &'a [DeclItem]) -> Result<(), AllocError> {
        self.form(head, place)?;
        for item in items.iter().rev() {
            self.work.push(match item {
                DeclItem::Identifier(name) => Work::Name(name),
                DeclItem::Text(name) => Work::Quoted(name),
            })?;
        }
        Ok(())
    }

    fn locals(&mut self, locals: &'a LocalDecl) -> Result<(), AllocError> {
        let head = match locals.kind {
            LocalKind::Local => "local",
            LocalKind::Static => "static",
        };
        self.form(head, locals.place)?;
        self.names(&locals.names)
    }

    fn initial(&mut self, initial: &'a Initial) -> Result<(), AllocError> {
        self.form("initial", initial.place)?;
        self.part(&initial.value)
    }

    fn parameters(&mut self, procedure: &'a Procedure) -> Result<(), AllocError> {
        self.open("parameters")?;
        if procedure.is_variadic {
            self.work.push(Work::Word("[]"))?;
        }
        self.names(&procedure.parameters)
    }

    fn procedure(&mut self, procedure: &'a Procedure) -> Result<(), AllocError> {
        self.form("procedure", procedure.place)?;
        self.all(&procedure.body)?;
        if let Some(initial) = &procedure.initial {
            self.work.push(Work::Initial(initial))?;
        }
        for locals in procedure.locals.iter().rev() {
            self.work.push(Work::LocalDecl(locals))?;
        }
        self.work.push(Work::Parameters(procedure))?;
        self.work.push(Work::Name(&procedure.name))?;
        Ok(())
    }

    fn decl(&mut self, decl: &'a Decl) -> Result<(), AllocError> {
        match decl {
            Decl::Global { place, names } => {
                self.form("global", *place)?;
                self.names(names)
            }
            Decl::Link { place, items } => self.items("link", *place, items),
            Decl::Invocable { place, items } => self.items("invocable", *place, items),
            Decl::Record {
                place,
                name,
                fields,
            } => {
                self.form("record", *place)?;
                self.names(fields)?;
                self.work.push(Work::Name(name))?;
                Ok(())
            }
            Decl::Procedure(procedure) => self.procedure(procedure),
        }
    }

    fn step(&mut self, work: Work<'a>) -> Result<(), AllocError> {
        match work {
            Work::Tree(expr) => self.tree(expr),
            Work::Clause(clause) => self.clause(clause),
            Work::Name(name) => self.name("", name),
            Work::Quoted(name) => self.name("\"", name),
            Work::Decl(decl) => self.decl(decl),
            Work::Parameters(procedure) => self.parameters(procedure),
            Work::LocalDecl(locals) => self.locals(locals),
            Work::Initial(initial) => self.initial(initial),
            Work::Word(word) => self.word(word),
            Work::Close => self.shown.text.push_str(")"),
        }
    }

    fn write(mut self) -> Result<TreeText, AllocError> {
        for _ in 0..u64::MAX {
            match self.work.pop() {
                Some(work) => self.step(work)?,
                None => break,
            }
        }
        Ok(self.shown)
    }
}

/// Expressions as text, with blanks between them. `AllocError` is want of memory.
pub fn show_exprs(alloc: Global, exprs: &[Expr]) -> Result<TreeText, AllocError> {
    let mut writer = Writer::new(alloc);
    writer.all(exprs)?;
    writer.write()
}

/// The declarations of a file as text, with blanks between them. `AllocError` is want of memory.
pub fn show_file(alloc: Global, file: &SourceFile) -> Result<TreeText, AllocError> {
    let mut writer = Writer::new(alloc);
    for decl in file.decls.iter().rev() {
        writer.work.push(Work::Decl(decl))?;
    }
    writer.write()
}
