//! The places of a pipe: what stands at each, under which guards, and the paths that lead through it.
//!
//! The layers above may use `places`, `Guards` with `of` and `set_masks`, and `PathIter`, read a `Place` by its line, its names, its location and its branches, and ask whether a path leads through a place by `on_path`.
#![tactic(auto)]

pub mod action;
pub mod branch;
pub mod guards;
pub mod mask;
pub mod memories;
pub mod numbered;
pub mod path;
pub mod place;
pub mod readers;
pub mod walk;

pub use action::Action;
pub use branch::{Branch, Guard, is_same_guard};
pub use guards::Guards;
pub use mask::Mask;
pub use memories::is_locked;
pub use numbered::on_path;
pub use path::{Path, PathIter};
pub use place::Place;
pub use readers::{
    branches_at, guess_at, is_call, is_separator, location_at, memory_at, name_at, variable_at,
};
pub use walk::places;
