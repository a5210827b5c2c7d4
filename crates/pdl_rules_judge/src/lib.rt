//! All rules of the language asked of the tree of a pipe: the lowest that it breaks, at its lowest place, or what they found of it. The limits Z2 to Z7 and the rules on forks, delayed reads and memories without lock, F1 to F5, stand here.
//!
//! The layer above may use `judge` with its `Findings` and `Plans`; which crate asks which rule is its own affair.
#![tactic(auto)]

mod counts;
mod fork_rules;
mod fork_scan;
mod inside;
mod limit_lines;
mod limits;
mod literals;
pub mod order;
mod over;
mod sizes;

pub use order::{Findings, Plans, judge};
pub use pdl_spec::SpecPlan;
