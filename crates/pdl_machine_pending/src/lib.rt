//! A memory with its pending writes, and what each kind of lock says of them.
//!
//! The layer above may use `Memory`, which it makes with `new`, asks and changes.
#![tactic(auto)]

mod latest;
mod memory;
mod pending;

pub use memory::Memory;
pub use pending::{Pending, Reserved, Written};
