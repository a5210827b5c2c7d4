//! The answers of delayed memories as nets: which memory answers whom, and variables with the answers of a cycle.
//!
//! The layers above may use `read_delayed`, `port_of`, `gets_answer`, `with_answers` and `all_answered`, `both_bits`, and the definitions `Ports`.
#![tactic(auto)]

pub mod answers;
pub mod awaited;
pub mod readings;

pub use answers::{port_of, with_answers};
pub use awaited::{all_answered, both_bits};
pub use readings::{Reading, gets_answer, leads_to, next_of, read_delayed};
