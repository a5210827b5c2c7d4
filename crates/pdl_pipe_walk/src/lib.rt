//! The statements of a stage as nets, round any lock module.
//!
//! The layers above may use `WalkNets`, which walks over a stage's statements, and `MemLock`, a memory with its lock.
#![tactic(auto)]

pub mod guesses;
pub mod locks;
pub mod nets;
mod reserves;
pub mod rows;
pub mod tickets;
pub mod update;
pub mod vars;

pub use locks::{MemLock, Setting};
pub use nets::{AdvisingNet, AskNet, BirthNet, LettingNet, MarkNet, PutNet, ReserveNet, WalkNets};
