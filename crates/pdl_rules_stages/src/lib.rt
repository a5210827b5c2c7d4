//! The stage of each place of a pipe, by the text, and the rules that ask for it alone: which statements stand in one stage.
//!
//! The layers above may use `stages_of`, `stage_in` and `begun_before`, `are_outer` of branches, `first_stage` of a kind of statement, `is_update`, `astray_line`, and `next_on`, the stage that comes next on a path.
#![tactic(auto)]

pub mod along;
pub mod astray;
pub mod branches;
pub mod first;
pub mod stages;

pub use along::{all_true, among, begun_before, next_on};
pub use astray::{Kinds, astray_line};
pub use branches::are_outer;
pub use first::{SoughtPlace, first_stage, is_update};
pub use stages::{stage_at, stage_in, stages_of};
