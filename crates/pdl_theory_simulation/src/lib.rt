//! The stated machine and the one that the proofs use show the same turns, and what holds of the one holds of the other.
//!
//! The layers above may use its lemmas; no function stands here.
#![tactic(auto)]
