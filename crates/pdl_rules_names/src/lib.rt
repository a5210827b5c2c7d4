//! The names of a pipe: which place defines each, and the rules on names, N1 to N3.
//!
//! The layers above may use `check_names`.
#![tactic(auto)]

mod branches;
mod early;
mod first;
mod index;
pub mod names;
mod passed;
mod rules;
mod uses;

pub use names::check_names;
