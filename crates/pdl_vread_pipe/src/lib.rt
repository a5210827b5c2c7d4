//! V5: whether the ports and arrays of a netlist are those of a pipe, and the memories that they tell.
//!
//! The layer above may use `pipe_mems`.
#![tactic(auto)]

pub mod judge;
mod memories;
pub mod port_mem;
mod ports;
pub mod shape;

pub use judge::pipe_mems;
