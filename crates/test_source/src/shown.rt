// Trees as text. A form is its word or sign with its parts in parentheses, `()` is the empty expression.
use crate::signs::sign;
use icn_tree::{
    Clause, Decl, Expr, Infix, Initial, Literal, LocalDecl, LoopKind, Name, Place, Procedure,
    SectionKind,
};
use std::alloc::{AllocError, Global};
use std::fmt::Write;

/// A tree as text, with the lines of its places in the order in which they are met.
#[derive(Drop)]
pub struct TreeText {
    pub text: String,
    pub places: String,
}

/// What is still to be written.
#[derive(Clone, Copy)]
pub enum Work<'a> {
    Tree(&'a Expr),
    Clause(&'a Clause),
    Name(&'a Name),
    Quoted(&'a Name),
    Decl(&'a Decl),
    Parameters(&'a Procedure),
    LocalDecl(&'a LocalDecl),
    Initial(&'a Initial),
    Word(&'static str),
    Close,
}

/// Writes trees. What is to be written next stands last in `work`, so no depth of a tree costs stack.
#[derive(Drop)]
pub struct Writer<'a> {
    pub shown: TreeText,
    pub work: Vec<Work<'a>>,
}

impl<'a> Writer<'a> {
    /// Nothing is written yet.
    pub fn new(alloc: Global) -> Writer<'a> {
        Writer {
            shown: TreeText {
                text: String::new(alloc),
                places: String::new(alloc),
            },
            work: Vec::new(alloc),
        }
    }

    /// Writes a place as its line. `AllocError` is want of memory.
    pub fn place(&mut self, place: Place) -> Result<(), AllocError> {
        if !self.shown.places.is_empty() {
            self.shown.places.push_str(" ")?;
        }
        let line = place.line;
        write!(&mut self.shown.places, "{line}")
    }

    /// Writes a word as it is. `AllocError` is want of memory.
    pub fn word(&mut self, text: &str) -> Result<(), AllocError> {
        if !self.shown.text.is_empty() {
            self.shown.text.push_str(" ")?;
        }
        self.shown.text.push_str(text)
    }

    /// Writes bytes behind a quote. `AllocError` is want of memory.
    pub fn bytes(&mut self, quote: &str, bytes: &[u8]) -> Result<(), AllocError> {
        self.word(quote)?;
        for byte in bytes {
            self.shown.text.push(char::from(*byte))?;
        }
        self.shown.text.push_str(quote)
    }

    /// Opens a form, whose parts follow, the last one first. `AllocError` is want of memory.
    pub fn open(&mut self, head: &str) -> Result<(), AllocError> {
        self.word("(")?;
        self.shown.text.push_str(head)?;
        self.work.push(Work::Close)?;
        Ok(())
    }

    /// Opens a form at a place. `AllocError` is want of memory.
    pub fn form(&mut self, head: &str, place: Place) -> Result<(), AllocError> {
        self.place(place)?;
        self.open(head)
    }

    /// Has an expression follow as a part. `AllocError` is want of memory.
    pub fn part(&mut self, expr: &'a Expr) -> Result<(), AllocError> {
        self.work.push(Work::Tree(expr))?;
        Ok(())
    }

    fn maybe(&mut self, expr: &'a Option<Box<Expr>>) -> Result<(), AllocError> {
        match expr {
            Some(expr) => self.part(expr),
            None => Ok(()),
        }
    }

    /// Has expressions follow as parts. `AllocError` is want of memory.
    pub fn all(&mut self, exprs: &'a [Expr]) -> Result<(), AllocError> {
        for expr in exprs.iter().rev() {
            self.part(expr)?;
        }
        Ok(())
    }

    fn literal(&mut self, value: &Literal) -> Result<(), AllocError> {
        match value {
            Literal::Integer(n) => {
                self.word("")?;
                write!(&mut self.shown.text, "{n}")
            }
            Literal::Text(bytes) => self.bytes("\"", bytes.as_slice()),
            Literal::Cset(set) => self.bytes("'", set.as_slice()),
        }
    }

    // A form without parts that are trees.
    fn leaf(&mut self, expr: &'a Expr) -> Result<(), AllocError> {
        match expr {
            Expr::Literal { place, value } => {
                self.place(*place)?;
                self.literal(value)
            }
            Expr::Identifier { name } => self.name("", name),
            Expr::Keyword { place, name } => {
                self.form("&", *place)?;
                self.work.push(Work::Name(name))?;
                Ok(())
            }
            Expr::Next { place } => {
                self.place(*place)?;
                self.word("next")
            }
            Expr::Fail { place } => {
                self.place(*place)?;
                self.word("fail")
            }
            _ => self.word("()"),
        }
    }

    /// Writes a name behind a quote. `AllocError` is want of memory.
    pub fn name(&mut self, quote: &str, name: &Name) -> Result<(), AllocError> {
        self.place(name.place)?;
        self.bytes(quote, name.text.as_slice())
    }

    // A form with elements.
    fn list(&mut self, expr: &'a Expr) -> Result<(), AllocError> {
        let (head, place, elements) = match expr {
            Expr::Parentheses { place, elements } => ("parens", place, elements),
            Expr::List { place, elements } => ("list", place, elements),
            Expr::Compound { place, exprs } => ("compound", place, exprs),
            _ => return self.behind(expr),
        };
        self.form(head, *place)?;
        self.all(elements)
    }

    // A form with elements behind a part.
    fn behind(&mut self, expr: &'a Expr) -> Result<(), AllocError> {
        match expr {
            Expr::Call {
                place,
                callee,
                arguments,
            } => {
                self.form("call", *place)?;
                self.all(arguments)?;
                self.part(callee)
            }
            Expr::CoCall {
                place,
                callee,
                arguments,
            } => {
                self.form("cocall", *place)?;
                self.all(arguments)?;
                self.part(callee)
            }
            Expr::Subscript {
                place,
                subject,
                subscripts,
            } => {
                self.form("subscript", *place)?;
                self.all(subscripts)?;
                self.part(subject)
            }
            _ => self.leaf(expr),
        }
    }

    fn section(&mut self, expr: &'a Expr) -> Result<(), AllocError> {
        match expr {
            Expr::Section {
                place,
                kind,
                subject,
                from,
                to,
            } => {
                let head = match kind {
                    SectionKind::Between => "section",
                    SectionKind::Forward => "section+",
                    SectionKind::Backward => "section-",
                };
                self.form(head, *place)?;
                self.part(to)?;
                self.part(from)?;
                self.part(subject)
            }
            Expr::Field {
                place,
                subject,
                name,
            } => {
                self.form(".", *place)?;
                self.work.push(Work::Name(name))?;
                self.part(subject)
            }
            _ => self.list(expr),
        }
    }

    fn infix(&mut self, operator: Infix, place: Place) -> Result<(), AllocError> {
        match operator {
            Infix::Plain(operator) => self.form(sign(operator), place),
            Infix::Augmented(operator) => {
                self.form(sign(operator), place)?;
                self.shown.text.push_str(":=")
            }
        }
    }

    fn operator(&mut self, expr: &'a Expr) -> Result<(), AllocError> {
        match expr {
            Expr::Prefix {
                place,
                operator,
                operand,
            } => {
                self.form(sign(*operator), *place)?;
                self.part(operand)
            }
            Expr::Not { place, operand } => {
                self.form("not", *place)?;
                self.part(operand)
            }
            Expr::Binary {
                place,
                operator,
                left,
                right,
            } => {
                self.infix(*operator, *place)?;
                self.part(right)?;
                self.part(left)
            }
            Expr::To {
                place,
                from,
                to,
                by,
            } => {
                self.form("to", *place)?;
                self.maybe(by)?;
                self.part(to)?;
                self.part(from)
            }
            _ => self.section(expr),
        }
    }

    fn control_form(&mut self, expr: &'a Expr) -> Result<(), AllocError> {
        match expr {
            Expr::Repeat { place, body } => {
                self.form("repeat", *place)?;
                self.part(body)
            }
            Expr::Create { place, body } => {
                self.form("create", *place)?;
                self.part(body)
            }
            Expr::Break { place, value } => {
                self.form("break", *place)?;
                self.part(value)
            }
            Expr::Return { place, value } => {
                self.form("return", *place)?;
                self.part(value)
            }
            Expr::Suspend { place, value, body } => {
                self.form("suspend", *place)?;
                self.maybe(body)?;
                self.part(value)
            }
            _ => self.case(expr),
        }
    }

    fn case(&mut self, expr: &'a Expr) -> Result<(), AllocError> {
        match expr {
            Expr::Case {
                place,
                subject,
                clauses,
            } => {
                self.form("case", *place)?;
                for clause in clauses.iter().rev() {
                    self.work.push(Work::Clause(clause))?;
                }
                self.part(subject)
            }
            _ => self.operator(expr),
        }
    }

    /// Writes an expression. `AllocError` is want of memory.
    pub fn tree(&mut self, expr: &'a Expr) -> Result<(), AllocError> {
        match expr {
            Expr::If {
                place,
                condition,
                then,
                otherwise,
            } => {
                self.form("if", *place)?;
                self.maybe(otherwise)?;
                self.part(then)?;
                self.part(condition)
            }
            Expr::Loop {
                place,
                kind,
                control,
                body,
            } => {
                let head = match kind {
                    LoopKind::While => "while",
                    LoopKind::Until => "until",
                    LoopKind::Every => "every",
                };
                self.form(head, *place)?;
                self.maybe(body)?;
                self.part(control)
            }
            _ => self.control_form(expr),
        }
    }

    /// Writes a clause of a `case`. `AllocError` is want of memory.
    pub fn clause(&mut self, clause: &'a Clause) -> Result<(), AllocError> {
        match clause {
            Clause::Default { place, value } => {
                self.form("default", *place)?;
                self.part(value)
            }
            Clause::Guarded {
                place,
                guard,
                value,
            } => {
                self.form(":", *place)?;
                self.part(value)?;
                self.part(guard)
            }
        }
    }
}
