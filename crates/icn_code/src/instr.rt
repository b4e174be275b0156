// The instructions.
use icn_text::{Keyword, Op};

/// An instruction. What it names stands in a table of its code by a place from 0 on, and a label is a place among the
/// instructions of its procedure, or the one behind the last.
#[derive(Clone, Copy, Debug, PartialEq, Eq)]
pub enum Instr {
    /// Pushes null.
    Pnull,
    /// Pushes an integer of the table.
    Int(u32),
    /// Pushes a string of the table.
    Str(u32),
    /// Pushes a cset of the table.
    Cset(u32),
    /// Pushes the variable of a parameter or local: parameters first, then the other locals.
    Local(u32),
    /// Pushes the variable of a static of the procedure.
    Static(u32),
    /// Pushes the variable of a global.
    Global(u32),
    /// Pushes a keyword.
    Keywd(Keyword),
    /// Drops an operand.
    Pop,
    /// Pushes an operand again.
    Dup,
    /// Applies an operation to as many operands as it has.
    Op(Op),
    /// Makes a list of so many operands.
    Llist(u32),
    /// Takes a field by its entry in the table of fields.
    Field(u32),
    /// Calls the operand below so many arguments with them.
    Invoke(u32),
    /// Calls an operand with the elements of another.
    Appl,
    /// Opens a mark with a label.
    Mark(u32),
    /// Opens a mark without a label.
    Mark0,
    /// Drops the innermost mark with all above it.
    Unmark,
    /// Drops the innermost mark, and pushes its value outside.
    Eret,
    /// Leaves the innermost mark suspended, with its result outside.
    Esusp,
    /// Opens a limit mark, with an operand as its count.
    Limit,
    /// Counts a result of the innermost limit mark down.
    Lsusp,
    /// Fails.
    Efail,
    /// Changes the label of the innermost mark.
    Chfail(u32),
    /// Goes to a label.
    Goto(u32),
    /// Goes back to a label.
    Loop(u32),
    /// Opens a scan of an operand.
    Bscan,
    /// Leaves the innermost scan.
    Escan,
    /// Pushes the operand below the innermost mark again.
    Ccase,
    /// Goes to a label where this was done in the procedure before.
    Init(u32),
    /// Suspends the procedure with a value.
    Psusp,
    /// Returns a value.
    Pret,
    /// Ends the procedure, which fails.
    Pfail,
    /// Makes a co-expression whose code begins at the next instruction, and goes to a label.
    Create(u32),
    /// Activates a co-expression with a value.
    Coact,
    /// Gives a result of a co-expression.
    Coret,
    /// Ends a co-expression, whose expression fails.
    Cofail,
}
