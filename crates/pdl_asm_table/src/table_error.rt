// Why a table was not taken.
ghost use Rattle.pdl_asm_table.specs.declared.table_error.TableError.TheVariants.{NoMemory as no_memory};
ghost use Rattle.std.specs.Prelude.{◌≡◌};

use pdl_kit::{NoMemory, Rule};
use std::alloc::{AllocError, AllocFailed};

/// Why a table was not taken: a rule that it breaks, with the instruction (counted from 1; 0 for what stands in none), or want of memory.
#[derive(Clone, Copy)]
pub enum TableError {
    Refused { rule: Rule, insn: usize },
    NoMemory,
}

impl From<NoMemory> for TableError {
    ghost from_gives = { λ _ e. e ≡ no_memory };

    fn from(_e: NoMemory) -> TableError {
        TableError::NoMemory
    }
}

impl From<AllocError> for TableError {
    ghost from_gives = { λ _ e. e ≡ no_memory };

    fn from(_e: AllocError) -> TableError {
        TableError::NoMemory
    }
}

impl<T: Drop> From<AllocFailed<T>> for TableError {
    ghost from_gives = { λ _ e. e ≡ no_memory };

    fn from(_e: AllocFailed<T>) -> TableError {
        TableError::NoMemory
    }
}
