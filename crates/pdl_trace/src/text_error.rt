//! Why a text that is written while it is made is not written whole.
ghost use Rattle.pdl_trace.specs.declared.text_error.TextError.TheVariants.{NoMemory as no_memory, WriteFailed as write_failed};
ghost use Rattle.std.specs.Prelude.{◌≡◌};

use pdl_kit::NoMemory;
use pdl_kit::sink::WriteFailed;
use std::alloc::AllocError;

/// Why a text was not written whole: memory was wanting before its first byte, or a write failed.
#[derive(Clone, Copy)]
pub enum TextError {
    NoMemory,
    WriteFailed,
}

impl From<NoMemory> for TextError {
    ghost from_gives = { λ _ e. e ≡ no_memory };

    fn from(_e: NoMemory) -> TextError {
        TextError::NoMemory
    }
}

impl From<AllocError> for TextError {
    ghost from_gives = { λ _ e. e ≡ no_memory };

    fn from(_e: AllocError) -> TextError {
        TextError::NoMemory
    }
}

impl From<WriteFailed> for TextError {
    ghost from_gives = { λ _ e. e ≡ write_failed };

    fn from(_e: WriteFailed) -> TextError {
        TextError::WriteFailed
    }
}
