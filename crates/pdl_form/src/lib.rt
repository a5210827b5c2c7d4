//! The flat form of a pipe: its statements in text order over numbered variables and memories, each with its stage and its guards, and its stages.
//!
//! The layers above may use its types, and read a `FlatPipe` by its calls; contracts see it as the flat form of the definitions.
#![tactic(auto)]

pub mod flat;
pub mod form;
pub mod pipe;
pub mod rows;
pub mod sides;
pub mod stmts;

pub use flat::FlatPipe;
pub use form::{
    FlatBranch, FlatBranches, FlatExpr, FlatGuard, FlatMem, FlatStage, FlatStmt, Lock, NO_BRANCHES,
    Next, Op,
};
pub use sides::{side_in, side_of};
