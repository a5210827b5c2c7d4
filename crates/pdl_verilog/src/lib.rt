//! The text of a netlist, and that it reads as that netlist: `pdl_vlog` writes it, and what is written of a well formed netlist with names of PDL reads as it.
//!
//! The layers above may use `verilog_text`, and the theorem: `reads_back`, a call without effect, or its lemma `round_trip`.
#![tactic(auto)]

mod text;

pub use text::{reads_back, verilog_text};
