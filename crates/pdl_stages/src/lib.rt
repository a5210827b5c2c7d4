//! The stages of a pipe: where each leads, its forks, the stage of each place, and the greatest number of stages on a path.
//!
//! The layers above may use `stage_graph`, and read a `StageGraph` by its calls.
#![tactic(auto)]

pub mod depth;
pub mod fork;
pub mod graph;

pub use fork::Fork;
pub use graph::{StageGraph, stage_graph};
