//! The pending writes of a lock as a ring of slots that never move: what queue, bypass and renaming lock share.
//!
//! The lock modules alone may use its calls, which make slots, looks and steps, and its lemmas on `HasEntries`.
#![tactic(auto)]

pub mod choice;
pub mod fill;
pub mod layout;
pub mod look;
pub mod slot;
pub mod state;
pub mod step;
pub mod taken;
pub mod youngest;
