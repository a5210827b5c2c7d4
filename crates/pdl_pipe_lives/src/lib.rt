//! What a thread still needs from a stage on: the values of variables, the marks of its locations, its tickets.
//!
//! The layer above may use `Needs`, `mark_from` and `keeps_ticket`.
#![tactic(auto)]

pub mod needs;
pub mod tickets;
pub mod uses;

pub use needs::{Needs, mark_from};
pub use tickets::{has_lock, keeps_ticket};
