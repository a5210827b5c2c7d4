//! Rules that are asked at each place of a text, by the places before it: the first place that breaks one.
//!
//! The layers above write a rule as a `TextRule`, ask it by `line_broken`, and keep what is broken as `Broken`, a rule with a line.
#![tactic(auto)]

pub mod broken;
pub mod first_line;
pub mod lowest;
pub mod text_rule;

pub use broken::{Broken, lowest_of};
pub use first_line::noted_line;
pub use lowest::line_broken;
pub use text_rule::TextRule;
