//! The rules on calls and guesses, S1 to S7, and the stages that verify and update guesses; S3 and S7 are asked of the text, the others on each path.
//!
//! The layers above may use `check_spec` and `SpecPlan`, and for a walk with further rules `spec_path_rules`, `SpecLines` and `plan_spec`.
#![tactic(auto)]

pub mod check;
pub mod checked;
pub mod lines;
pub mod one_call;
pub mod plan;
pub mod sure;
pub mod updated_once;
pub mod verified;

pub use check::{check_spec, plan_spec};
pub use lines::{SpecLines, SpecRules, spec_path_rules};
pub use plan::SpecPlan;
