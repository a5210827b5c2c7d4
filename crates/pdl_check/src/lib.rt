//! Whether a source is accepted: its grammar, its length and the rules of its tree, of which the first that fails refuses it.
//!
//! The layers above may use `check`, and read an `Accepted` by its calls, with the facts that it keeps of its pipe.
#![tactic(auto)]

pub mod accepted;
pub mod check;
mod infos;
mod read;
pub mod typed_pipe;

pub use accepted::Accepted;
pub use typed_pipe::TypedPipe;
