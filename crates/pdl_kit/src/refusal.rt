// Why a file was refused.
ghost use Rattle.std.specs.Prelude.{◌≡◌};
ghost use Rattle.pdl_kit.specs.declared.refusal.Refusal.TheVariants.{NoMemory as no_memory};

use crate::no_memory::NoMemory;
use crate::rule::Rule;
use std::alloc::{AllocError, AllocFailed};

/// Why a file was not taken: a rule that it breaks, with the line (counted from 1) of the place, or want of memory.
#[derive(Clone, Copy, PartialEq, Eq)]
pub enum Refusal {
    Refused { rule: Rule, line: u32 },
    NoMemory,
}

impl From<NoMemory> for Refusal {
    ghost from_gives = { λ _ e. e ≡ no_memory };

    fn from(_e: NoMemory) -> Refusal {
        Refusal::NoMemory
    }
}

impl From<AllocError> for Refusal {
    ghost from_gives = { λ _ e. e ≡ no_memory };

    fn from(_e: AllocError) -> Refusal {
        Refusal::NoMemory
    }
}

impl<T: Drop> From<AllocFailed<T>> for Refusal {
    ghost from_gives = { λ _ e. e ≡ no_memory };

    fn from(_e: AllocFailed<T>) -> Refusal {
        Refusal::NoMemory
    }
}
