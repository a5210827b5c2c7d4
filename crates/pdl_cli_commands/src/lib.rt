//! What each command of the program writes, from the files that it names, or why it fails: `run`, `sim`, `seq`, `wave` and `view` write while they run, the text of the others is made whole. The layer above chooses the command, and writes the texts that are made.
#![tactic(auto)]

mod assembly;
mod built;
mod dumped;
mod generated;
mod netrun;
mod run;
mod sequential;
mod simulated;
mod start;
mod summary;
mod viewed;

pub use assembly::assembly_text;
pub use built::build;
pub use dumped::wave;
pub use generated::generate;
pub use run::{run_in_turn, run_source, verdict};
pub use simulated::simulate;
pub use viewed::view_source;
