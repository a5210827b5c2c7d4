//! All nets of a pipe in one circuit, emitted one after the other, are what the law of its netlist asks for; and in each cycle of each run of a netlist that is so made each stage is as the machine's, and each lock is used as the machine's threads use it.
//!
//! The layer above may use the definitions of `specs/` and the lemmas; no function stands here, but those of the moves and the tails are passed on.
#![tactic(auto)]

pub use pdl_pipe_moves::{MoveNets, all_moves};
pub use pdl_pipe_tails::{TailNets, tails};
