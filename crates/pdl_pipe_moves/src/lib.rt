//! Which threads of a pipe move.
//!
//! The layer above may use `stage_moves`, a stage's move by those of the later ones and the gate of what stands beside, and the parts of that gate.
#![tactic(auto)]

pub mod controls;
pub mod gates;
pub mod moving;
pub mod passing;
pub mod squash;
pub mod turns;
pub mod ways;
pub mod whole;

pub use controls::{Controls, gate};
pub use gates::{barrier_open, ports_open, unsquashed};
pub use moving::stage_moves;
pub use squash::StageSquash;
pub use turns::{branch_turn, turn};
pub use ways::way_turn;
pub use whole::{MoveNets, all_moves};
