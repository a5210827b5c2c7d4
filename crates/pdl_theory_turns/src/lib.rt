//! The machine that the proofs use, what is taken of an accepted pipe, and one turn of such a pipe, stage by stage: the thread asks, writes and guesses as the sequential thread does, and one after a wrong guess keeps to one path.
//!
//! The layers above may use the definitions of `Derived`, `Alone` and `Simulation`, the record `Sound` of `Facts`, the test `passes_tests` of `SoundChecks`, and the lemmas; no function stands here.
#![tactic(auto)]
