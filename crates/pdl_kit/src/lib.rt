//! What every crate of the compiler may use: lists and names that contracts see as their values, sinks with a count of faults, rules and refusals.
//!
//! The layers above write by the trait `Sink` with `write_whole`, keep lists in `Seq` and `Boxed`, and name what is wrong by `Rule` and `Refusal`.
#![tactic(auto)]

pub mod boxed;
pub mod files;
pub mod mem_info;
pub mod mem_sink;
pub mod name;
pub mod no_memory;
pub mod refusal;
pub mod rule;
pub mod seq;
pub mod sink;

pub use boxed::Boxed;
pub use files::{LONGEST_FILE, ReadError};
pub use mem_info::MemInfo;
pub use mem_sink::MemSink;
pub use name::Name;
pub use no_memory::NoMemory;
pub use refusal::Refusal;
pub use rule::Rule;
pub use seq::Seq;
pub use sink::{Sink, WriteFailed, write_whole};
