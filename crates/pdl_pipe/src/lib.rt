//! The netlist of an accepted pipe, generic inside over the modules of its locks: it follows the pipe, and its memories have the locks that they ask for.
//!
//! The layer above may use `compile`, and `compile_named`, which tells besides what the registers and cells stand for; and the definitions `Locks` and `Names` of these.
#![tactic(auto)]

pub mod beside_names;
mod deeds;
pub mod emitting;
pub mod names;
pub mod netlist;
pub mod stage_names;
pub mod steps;

pub use names::{NamedNet, Role};
pub use netlist::{NamedNetlist, compile, compile_named};
pub use pdl_lock_any::AnyLock;
