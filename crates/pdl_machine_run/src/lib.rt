//! Runs of pipes in flat form, cycle by cycle as the stated machine says: with delayed and advisory memories, guesses, forks and any locks.
//!
//! The layer above may use `Run`, which it begins with `new`, steps with `cycle` and reads with `shown` and `waited`.
#![tactic(auto)]

mod advice;
mod answers;
mod beside;
mod carry;
mod cycle;
mod decide;
mod deeds;
mod moves;
mod orders;
mod place;
mod requests;
mod running;
mod setup;
mod shown;
mod stage;
mod step;
mod stmts;
mod ways;
mod words;

pub use running::Run;
