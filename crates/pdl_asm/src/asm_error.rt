// Why a text was not assembled.
ghost use Rattle.pdl_asm.specs.declared.asm_error.AsmError.TheVariants.{NoMemory as no_memory};
ghost use Rattle.std.specs.Prelude.{◌≡◌};

use pdl_kit::{NoMemory, Rule};
use std::alloc::{AllocError, AllocFailed};

/// Why a text was not assembled: a rule that it breaks, with the line (counted from 1), or want of memory.
#[derive(Clone, Copy)]
pub enum AsmError {
    Refused { rule: Rule, line: u32 },
    NoMemory,
}

impl From<NoMemory> for AsmError {
    ghost from_gives = { λ _ e. e ≡ no_memory };

    fn from(_e: NoMemory) -> AsmError {
        AsmError::NoMemory
    }
}

impl From<AllocError> for AsmError {
    ghost from_gives = { λ _ e. e ≡ no_memory };

    fn from(_e: AllocError) -> AsmError {
        AsmError::NoMemory
    }
}

impl<T: Drop> From<AllocFailed<T>> for AsmError {
    ghost from_gives = { λ _ e. e ≡ no_memory };

    fn from(_e: AllocFailed<T>) -> AsmError {
        AsmError::NoMemory
    }
}
