//! The runs of a netlist that the program makes: one whose text is written to a sink while it goes on, or what one counts. The layer above gives the netlist, an image of its memories, a `Schedule` and the sink.
#![tactic(auto)]

mod commits;
mod print;

pub use print::{RunCounts, Schedule, count, run};
