//! The run of a netlist whose output ports are dumped: `dump` writes the value change dump while the run goes on.
//!
//! The layer above gives the netlist, an image of its memories, a `Schedule` and the sink.
#![tactic(auto)]

mod cycles;
mod ports;
mod run;

pub use run::dump;
