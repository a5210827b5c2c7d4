//! The one parser of source texts: a tree, a token out of place, or a broken limit.
//! The layers above may use `parse`, `misplaced_line` for texts of which no tree is wanted, and the tokens and the tree of the crates below.
#![tactic(auto)]

pub mod error;
mod expecting;
pub mod misplaced;
pub mod parse;
mod recogniser;
mod stack;
mod symbol;

pub use error::ParseError;
