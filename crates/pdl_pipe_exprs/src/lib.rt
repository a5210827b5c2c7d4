//! Expressions over numbered variables and conditions of guards, as nets of a builder.
//!
//! The layers above may use `value`, `values` and `all_taken`, and `Bits`, the constant bits; each says which value its net has.
#![tactic(auto)]

pub mod bits;
pub mod exprs;
pub mod guards;

pub use bits::{Bits, are_same};
pub use exprs::{value, values};
pub use guards::all_taken;
