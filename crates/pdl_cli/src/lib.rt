//! The whole program as one call, `top`, which reads the words and the files and writes the lines; and what is answered where there are no words, `without_words`.
//!
//! The program may use these two; `one_refusal`, `same_as_run` and `told_files` say three things of its commands by their clauses alone.
#![tactic(auto)]

mod alike;
mod program;
mod told;
mod unique;
mod words;

pub use alike::same_as_run;
pub use program::top;
pub use told::told_files;
pub use unique::one_refusal;
pub use words::{NoWords, without_words};
