// How long a file may be, and why one was not read.
use crate::no_memory::NoMemory;

/// The greatest length of a file in bytes, 256 MiB. No read gives a longer one.
pub const LONGEST_FILE: usize = 268_435_456;

/// Why a file was not read: the files had a fault, or memory ran out.
#[derive(Clone, Copy, PartialEq, Eq)]
pub enum ReadError {
    Failed,
    NoMemory,
}

impl From<NoMemory> for ReadError {
    ghost use Rattle.std.specs.Prelude.{◌≡◌};
    ghost use Rattle.pdl_kit.specs.declared.files.ReadError.TheVariants.{NoMemory as no_memory};

    ghost from_gives = { λ _ e. e ≡ no_memory };

    fn from(_e: NoMemory) -> ReadError {
        ReadError::NoMemory
    }
}
