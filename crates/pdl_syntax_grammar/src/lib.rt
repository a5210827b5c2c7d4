//! The grammar of the language: which texts are pipes, with their trees, and which token of any other text is the first out of place.
//! The layers above may use `read`, and the definitions `Grammar` and `Text`; how the text is read is its own affair.
#![tactic(auto)]

mod branch;
mod declaration;
pub mod error;
mod expression;
mod item;
pub mod read;
mod statement;
mod stop;
mod text;
mod words;

pub use error::GrammarError;
