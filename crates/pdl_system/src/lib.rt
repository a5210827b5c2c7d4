//! The files of the system and its outputs, of which clauses see what they gave and took; and files in memory in their place.
//!
//! The layers above read by the trait `Files`, and never see the account of its answers but in clauses.
#![tactic(auto)]

pub mod account;
pub mod files;
pub mod mem_file;
pub mod mem_files;
pub mod real_files;
pub mod std_sink;

pub use files::Files;
pub use mem_file::MemFile;
pub use mem_files::MemFiles;
pub use real_files::RealFiles;
pub use std_sink::StdSink;
