//! The command line: which lists of words are commands, as `clap` reads them.
//!
//! The layers above may use `read_line`, and match on `CommandLine`.
#![tactic(auto)]

mod app;
mod line;
mod number;

pub use line::{CommandLine, LineError, read_line};
