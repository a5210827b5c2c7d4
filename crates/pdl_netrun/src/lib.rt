//! Runs a netlist cycle by cycle, by walking its cells in an order of its own: `Sim` keeps what the meaning of netlists says of registers, arrays, ports and the delayed memories outside.
//!
//! The layer above may use `Sim`, and `count_delayed`; its plan of places and runs is its own affair.
#![tactic(auto)]

mod cycle_plan;
mod held;
mod kinds;
mod narrow_cycle;
mod narrow_lists;
mod narrow_words;
mod operation;
mod operations;
mod order;
mod outside;
mod places;
mod plan;
mod run_kind;
mod sim;
mod start;
mod walk;
mod wide_cycle;
mod wide_walk;
mod widths;
mod writes;

pub use sim::Sim;
pub use start::count_delayed;
