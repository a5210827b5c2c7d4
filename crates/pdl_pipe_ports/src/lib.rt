//! The ports of a pipe's netlist, with their names: the inputs of its delayed memories, and its outputs.
//!
//! The layer above may use `reply_inputs` and `read_inputs`, `all_outputs` and `show`.
#![tactic(auto)]

pub mod inputs;
pub mod outputs;

pub use inputs::{read_inputs, reply_inputs};
pub use outputs::{OutNet, ShownNets, all_outputs, show};
