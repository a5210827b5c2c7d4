//! What `pdl_names` writes: the text of a source's netlist, and below it a comment for each net that has a name, what it shows of the machine's threads.
//!
//! The program may use `named_text`.
#![tactic(auto)]

mod named;
mod names;

pub use named::named_text;
