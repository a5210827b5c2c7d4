//! The rules on locks, L1 to L8, and what was done on a path so far; L2 is asked of the text, the others on each path.
//!
//! The layers above may use `check_locks` and `LockPlan`, the stages of each memory's reserves and releases, and for a walk with further rules `LockFacts`, `lock_path_rules`, `LockLines` and `plan_locks`.
#![tactic(auto)]

pub mod at_locations;
pub mod at_memories;
pub mod bound;
pub mod check;
pub mod facts;
pub mod hold;
pub mod numbers;
pub mod plan;
pub mod turns;
pub mod uses;
pub mod walk;

pub use at_locations::{AtLocations, LocationRule, pass};
pub use at_memories::{AtMemories, MemoryRule};
pub use bound::BoundInTime;
pub use check::{check_locks, plan_locks, refuse};
pub use facts::LockFacts;
pub use hold::Hold;
pub use numbers::{Keys, first_places, number_of};
pub use plan::LockPlan;
pub use turns::{Turns, WrittenInTurn};
pub use uses::{LocationUse, MemoryUse, use_at};
pub use walk::{LockLines, LockRules, PerRule, lock_path_rules};
