//! V3 and V4: the widths of a file whose names stand for nets, and what is declared or driven more than once or not at all.
//!
//! The layer above may use `check_widths` and `check_once`, each of which answers the line of the first place that breaks its rule.
#![tactic(auto)]

pub mod once;
pub mod table;
pub mod widths;

pub use once::check_once;
pub use table::bits;
pub use widths::check_widths;
