//! From which ticket on the squash of a stage drops the pending writes of each memory's lock, as nets.
//!
//! The layer above may use `tails`, and the lemma `has_tails` of `LineTails`: the nets are the tails that the law of a netlist takes.
#![tactic(auto)]

pub mod carried;
pub mod cut;
pub mod reserved;
pub mod whole;

pub use whole::{TailNets, tails};
