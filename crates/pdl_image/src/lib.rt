//! Files that a run reads beside its source: images, which give the words of memories at the start, and delay files, which give the replies of delayed memories cycle by cycle.
//!
//! The layers above may use `read_image` with `Image`, and `read_delays` with `Delays`; and of what files are made of `split_line`, `find_byte` and `is_name`.
#![tactic(auto)]

pub mod delays;
mod fields;
pub mod file_error;
pub mod image;
mod lines;
pub mod read;
mod schedule;
mod slots;
mod word;

pub use delays::Delays;
pub use fields::is_name;
pub use file_error::FileError;
pub use image::Image;
pub use lines::{find_byte, split_line};
pub use read::read_image;
pub use schedule::read_delays;
