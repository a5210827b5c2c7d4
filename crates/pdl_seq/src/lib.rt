//! The sequential run of an accepted pipe: its threads one after another on plain arrays, without stages, locks, guesses or clock.
//!
//! The layer above may use `SeqRun`, which runs a thread with `next_thread` and has all writes so far in `writes`.
#![tactic(auto)]

mod accepted;
mod act;
mod begin;
mod commit;
mod run;
mod setup;
mod turn;
mod words;

pub use accepted::lines;
pub use commit::Write;
pub use run::SeqRun;
