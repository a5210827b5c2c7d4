//! The text of the Verilog subset: its tokens, its grammar as a table, and the file that a text declares.
//!
//! The layers above may use `read_file`, which answers the file or the line of the first token out of place, and the types of a `File`.
#![tactic(auto)]

mod bytes;
pub mod draft;
pub mod field;
pub mod file;
mod found;
mod lexer;
mod names;
mod numbers;
pub mod part;
mod piece;
pub mod read;
pub mod rule;
pub mod token;

pub use file::{
    ArrayBlock, ArrayDecl, CellDecl, File, OutputDecl, PortDecl, RegBlock, RegDecl, Term, WriteDecl,
};
pub use read::{VerilogError, read_file};
