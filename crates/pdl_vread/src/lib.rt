//! The reader of netlists: what a text of the Verilog subset declares is wired, checked and made a netlist.
//!
//! The layers above may use `read_verilog`, which answers the netlist or the first of V1 to V5 that the text breaks, at its first line, and the definition `Reads`.
#![tactic(auto)]

pub mod build;
pub mod read;

pub use read::{VError, read_verilog};
