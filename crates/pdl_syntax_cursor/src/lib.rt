//! The tokens of a source text with the limits of the language: at most 64 brackets are open and at most 256 operators stand in a statement, and from the first token over a limit on each is read as a bad one.
//! The layers above read a text by `Cursor`.
#![tactic(auto)]

pub mod cursor;
pub mod limits;

pub use cursor::Cursor;
