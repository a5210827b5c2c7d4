//! The run of an accepted pipe's machine whose stages are shown: `view` writes, while the machine runs, a line for each cycle, with a letter for each stage.
//!
//! The layer above gives the accepted pipe, an image of its memories, the replies of its delayed ones, a number of cycles and the sink.
#![tactic(auto)]

mod cycles;
mod lines;

pub use cycles::view;
