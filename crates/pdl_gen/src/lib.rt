//! Generated runs: for a number the source of a pipe, the words that its memory has at the start, and what is printed first of its run.
//!
//! The layer above may use `source`, `words`, `cycles` and `first_line`.
#![tactic(auto)]

mod numbers;
mod pipe;
mod text;

pub use numbers::{cycles, words};
pub use pipe::{kind, stages, step};
pub use text::{first_line, kind_name, source};
