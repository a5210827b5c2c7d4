//! The nets that the names of a file stand for, or the first name that stands for nothing of its kind (V2).
//!
//! The layers above may use `wire`, which gives all cells, `assign`s and blocks over nets, and `Places`.
#![tactic(auto)]

pub mod passes;
mod places;
mod scope;
pub mod wiring;

pub use passes::{PassStop, wire};
pub use places::Places;
pub use wiring::{ArrayWrite, OutputDrive, RegDrive, Wiring};
