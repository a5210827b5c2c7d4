// A text that grows.
ghost use Rattle.std.specs.Prelude.{◌≡◌, ◌++◌, ◌≤◌, [], OnOk, decimal};
ghost use Rattle.pdl_word.specs.Digits.{hex, most_hex};

use itoa::Buffer;
use pdl_kit::NoMemory;
use pdl_word::{Word, hex_digit};
use std::alloc::Global;
use std::marker::Model;

/// The bytes that were written so far.
#[derive(Drop)]
pub struct Text {
    bytes: Vec<u8>,
}

impl Model for Text {
    ghost use Rattle.std.specs.Prelude.{List, ℕ};

    ghost Value = { List ℕ };

    ghost view = { λ t. t.bytes.items };
}

impl Text {
    /// Nothing is written.
    pub fn new(alloc: Global) -> Text
        ensures { result ≡ [] }
    {
        Text {
            bytes: Vec::new(alloc),
        }
    }

    /// The bytes.
    pub fn into_bytes(self) -> Vec<u8>
        ensures { result.items ≡ self }
    {
        self.bytes
    }

    /// Appends bytes.
    pub fn push(&mut self, bytes: &[u8]) -> Result<(), NoMemory>
        ensures { OnOk result (self.new ≡ self.old ++ bytes.now) }
    {
        self.bytes.extend_from_slice(bytes)?;
        Ok(())
    }

    /// Appends a number in decimal.
    pub fn push_decimal(&mut self, n: u64) -> Result<(), NoMemory>
        ensures { OnOk result (self.new ≡ self.old ++ decimal n) }
    {
        let mut buffer = Buffer::new();
        self.push(buffer.format(n).as_bytes())
    }

    /// Appends the `count` lowest hexadecimal digits of a value, most significant first.
    pub fn push_hex(&mut self, count: u8, value: Word) -> Result<(), NoMemory>
        requires { count ≤ most_hex }
        ensures { OnOk result (self.new ≡ self.old ++ hex count value) }
    {
        for done in 0..count {
            let place = count - 1 - done;
            self.push(&[hex_digit((value >> (4 * place)) % 16)])?;
        }
        Ok(())
    }
}
