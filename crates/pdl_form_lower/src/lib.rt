//! The flat form of a pipe, made from its tree and the table of its variables: names become numbers, each statement gets its stage and its guards, and the separators give the stages.
//!
//! The layers above may use `lower`, and the lemma that a pipe which keeps the rules can be lowered.
#![tactic(auto)]

mod advised;
mod append;
mod body;
mod both;
mod count;
mod expr;
mod mems;
mod parts;
mod pipe;
mod row;
mod vars;
mod walk;

pub use pipe::lower;
