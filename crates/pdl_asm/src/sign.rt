// Powers of 2, and the words below them.
ghost use Rattle.std.specs.Prelude.{◌≡◌, ◌≤◌, ◌-◌, ◌^◌, nat_lt};
ghost use Rattle.pdl_word.specs.Words.{widest};

use pdl_word::{WIDEST, Word};

/// Whether a word has no more than so many bits.
pub fn has_bits(word: Word, bits: u8) -> bool
    requires { bits ≤ widest }
    ensures { result ≡ nat_lt word (2 ^ bits) }
{
    bits == WIDEST || word < 1 << bits
}

/// The largest word of so many bits.
pub fn ones(bits: u8) -> Word
    requires { bits ≤ widest }
    ensures { result ≡ 2 ^ bits - 1 }
{
    if bits == WIDEST {
        Word::MAX
    } else {
        (1 << bits) - 1
    }
}
