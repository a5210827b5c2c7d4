//! Why a command is not done: what each fault of a file, a text or a sink counts as, the status that the program ends with, and what it says. The layer above makes a `Failure` of each error by `?`, and ends with `report` and `status_of`.
#![tactic(auto)]

mod failure;

pub use failure::{Failure, Position, in_memory, in_text, report, status_of};
