//! Rules that are asked on each path: what such a rule is, by what it knows of the places passed.
//!
//! The layers above write a rule as a `PathRule`, tell the line of a place by `line_at`, and cite the lemmas `Lines`, `Nth` and `Steps`.
#![tactic(auto)]

pub mod line;
pub mod path_rule;

pub use line::line_at;
pub use path_rule::PathRule;
