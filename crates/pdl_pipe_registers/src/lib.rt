//! The registers of a pipe's stages, and what each stage begins with: its variables with the answers of a cycle, marks of locations, tickets and the guess.
//!
//! The layer above may use `lay_stages`, each with its nets after its statements, `ended`, and `ways_into`.
#![tactic(auto)]

pub mod entry;
pub mod guess;
pub mod marks;
pub mod nets;
pub mod registers;
pub mod tickets;
pub mod ways;
pub mod whole;

pub use nets::{Earlier, Item, Shared, StageNets, StageRegs};
pub use pdl_pipe_answers::next_of;
pub use registers::ended;
pub use ways::ways_into;
pub use whole::lay_stages;
