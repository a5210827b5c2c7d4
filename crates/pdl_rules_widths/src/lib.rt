//! The widths of a pipe: its variables with theirs, the rules on widths, W1 to W6, and the rule on advised variables, P1.
//!
//! The layers above may use `widths_broken`, `advice_broken`, and `Variables`, the variables with their widths and whether they are advised.
#![tactic(auto)]

pub mod advice;
mod advised;
mod arguments;
mod faults;
mod lines;
mod measure;
mod memories;
pub mod variables;
mod width;
pub mod widths;

pub use advice::advice_broken;
pub use variables::Variables;
pub use widths::widths_broken;
