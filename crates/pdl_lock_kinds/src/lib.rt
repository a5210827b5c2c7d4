//! The locks that the memories of a pipe ask for, by kind and size.
//!
//! The layer above may use `locks_of`.
#![tactic(auto)]

pub mod kinds;

pub use kinds::locks_of;
