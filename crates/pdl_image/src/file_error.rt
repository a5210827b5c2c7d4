//! Why a file was refused.
ghost use Rattle.pdl_image.specs.declared.file_error.FileError.TheVariants.{NoMemory as no_memory};
ghost use Rattle.std.specs.Prelude.{◌≡◌};

use pdl_kit::{NoMemory, Rule};
use std::alloc::AllocError;

/// Why a file was not taken: a rule that its text breaks, with the line (counted from 1), or want of memory.
#[derive(Clone, Copy)]
pub enum FileError {
    Refused { rule: Rule, line: u32 },
    NoMemory,
}

impl From<NoMemory> for FileError {
    ghost from_gives = { λ _ e. e ≡ no_memory };

    fn from(_e: NoMemory) -> FileError {
        FileError::NoMemory
    }
}

impl From<AllocError> for FileError {
    ghost from_gives = { λ _ e. e ≡ no_memory };

    fn from(_e: AllocError) -> FileError {
        FileError::NoMemory
    }
}
