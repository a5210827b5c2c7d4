//! Which threads come into each stage of a pipe, and what the registers of the stages take next, whatever lets the threads move.
//!
//! The layer above may use `StageLine`, a pipe's stages with their moves, and `set_stages`.
#![tactic(auto)]

pub mod arrivals;
pub mod births;
pub mod coming;
pub mod connecting;
pub mod line;
pub mod nexts;

pub use connecting::set_stages;
pub use line::StageLine;
