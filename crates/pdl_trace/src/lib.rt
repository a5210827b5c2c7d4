//! The lines that the program prints, as bytes: commit lines, end lines, the last line of a sequential run, the lines of images, what is said of an accepted source, and refusals.
//! The layer above may use the calls that make a line, none of which takes memory or fails, and `LineOut`, by which lines are written while they are made: it takes no memory and fails by its sink alone.
#![tactic(auto)]

pub mod line;
pub mod line_out;
pub mod lines;
pub mod text_error;

pub use line::Line;
pub use line_out::LineOut;
pub use lines::{
    accepted_line, commit_line, end_line, refused_insn, refused_line, threads_line, word_line,
};
pub use text_error::TextError;
