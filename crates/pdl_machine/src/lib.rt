//! The pipeline machine of an accepted pipe, as a program that shares no code with its netlist.
//!
//! The layer above may use `Machine`, whose clauses have both theorems and Sound state of what it has run.
#![tactic(auto)]

mod machine;
mod replies;

pub use machine::Machine;
pub use pdl_check::Accepted;
