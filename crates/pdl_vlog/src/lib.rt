//! The text of a netlist in the Verilog subset, as a definition and as it is written.
//!
//! The layers above may use `write_verilog`.
#![tactic(auto)]

mod cells;
mod declarations;
mod drives;
mod text;
pub mod write;

pub use write::write_verilog;
