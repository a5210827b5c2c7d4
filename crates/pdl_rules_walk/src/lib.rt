//! Rules of paths that are asked together, on one walk along each path: for each the line of the lowest place that breaks it on some path.
//!
//! The layers above may use `broken_lines` over the trait `PathRules`, with `Alone` for one rule and `Both` for more.
#![tactic(auto)]

pub mod alone;
pub mod both;
pub mod path_rules;
pub mod walk;

pub use alone::{Alone, Course};
pub use both::Both;
pub use path_rules::PathRules;
pub use walk::broken_lines;
