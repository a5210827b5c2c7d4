//! The arrays of the memories, the registers of their locks, and what these take next, round any lock module.
//!
//! The layers above may use `lay_memories`, `StageDeeds`, and `set_advice` and `set_locks` of a `Round`.
#![tactic(auto)]

pub mod advice;
pub mod arrays;
pub mod deeds;
mod ports;
pub mod steps;

pub use advice::set_advice;
pub use arrays::{info, lay_memories};
pub use deeds::StageDeeds;
pub use steps::{Round, set_locks};
