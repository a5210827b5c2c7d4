//! What flat expressions, arguments and guards say where the variables have their values, and which memories some path reserves twice to write.
//!
//! The layers above may use `value_of`, `values_of`, `variable`, `are_taken`, `fill` and `all_twice`, and the definitions `IsSafe` and `Fit`.
#![tactic(auto)]

mod arguments;
mod guards;
mod operators;
mod twice;
mod value;

pub use arguments::fill;
pub use guards::are_taken;
pub use twice::all_twice;
pub use value::{value_of, values_of, variable};
