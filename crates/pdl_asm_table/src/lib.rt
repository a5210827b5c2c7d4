//! Tables of instruction sets: the names of registers, and for each instruction its arguments and its bits, read from TOML.
//! The layer above may use `read_table`, the fields of a `Table`, and `Dictionary`, values by name of which the first definition holds.
#![tactic(auto)]

mod checks;
pub mod dictionary;
mod document;
mod insns;
pub mod names;
pub mod read;
pub mod table;
pub mod table_error;

pub use dictionary::Dictionary;
pub use read::read_table;
pub use table::{Arg, ArgumentKind, Insn, Table};
pub use table_error::TableError;
