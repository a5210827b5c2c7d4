//! The syntax tree of a source text, with the places where its words stand, and the tree of the definitions that it stands for.
//! The layers above read the tree by its types, ask by `is_advisory` whether a memory is, and speak of it in contracts by the views.
#![tactic(auto)]

pub mod memories;
pub mod tree;

pub use memories::is_advisory;
pub use tree::{
    AccessKind, BinaryOp, Expr, Ident, Literal, Location, LockDecl, LockKind, Mem, MemKind, Number,
    Param, Pipe, Span, Start, Stmt,
};
