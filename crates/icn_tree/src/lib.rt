//! What the stages of a translation hand on: lines, tokens and trees of a program text, and the rules that can refuse one.
#![tactic(auto)]

mod byte_set;
mod bytes;
mod grammar_laws;
mod lines;
mod names;
mod rule;
mod token;
mod token_laws;
mod tree;

/// Tests of the bytes of a source text.
pub mod characters;

pub use byte_set::ByteSet;
pub use bytes::Bytes;
pub use grammar_laws::{one_tree, tree_by_pieces};
pub use lines::{Lines, SourceLine};
pub use names::NameSet;
pub use rule::Rule;
pub use token::{Kind, Operator, Punctuation, Token, Word};
pub use token_laws::{scan_rules, semicolons_inserted, tokens_bounded, tokens_spelled_again};
pub use tree::{
    Clause, Decl, DeclItem, Expr, Infix, Initial, Literal, LocalDecl, LocalKind, LoopKind, Name,
    Place, Procedure, SectionKind, SourceFile,
};
