// A line of text in a buffer of fixed size, so that printing takes no memory.
ghost use Rattle.std.specs.Prelude.{◌≡◌, ◌+◌, ◌*◌, ◌/◌, ◌%◌, ◌≤◌, ◌<◌, ◌^◌, ◌++◌, [], ◌∷◌, length, decimal};
ghost use Rattle.pdl_word.specs.Digits.{hex, most_hex};

use itoa::Buffer;
use pdl_word::{Word, hex_digit};
use std::marker::Model;

/// A line of up to 128 bytes, its line feed included, seen as those bytes.
#[derive(Drop)]
pub struct Line {
    bytes: [u8; 128],
    len: usize,
}

impl Model for Line {
    ghost use Rattle.std.specs.Prelude.{List, ℕ, ◌≤◌, take};

    ghost Value = { List ℕ };

    ghost view = { λ l. take l.len l.bytes };

    ghost invariant = { λ l. l.len ≤ 128 };
}

impl Line {
    /// An empty line.
    pub(crate) fn new() -> Line
        ensures { result ≡ [] }
    {
        Line {
            bytes: [0; 128],
            len: 0,
        }
    }

    /// The line's bytes.
    pub fn as_bytes(&self) -> &[u8]
        ensures bytes { result.now ≡ self.now }
        ensures short { length result.now ≤ 128 }
    {
        &self.bytes[..self.len]
    }

    /// These bytes after those before them.
    pub(crate) fn push(&mut self, piece: &[u8])
        requires { length self.old + length piece.now ≤ 128 }
        ensures text { self.new ≡ self.old ++ piece.now }
        ensures len { length self.new ≡ length self.old + length piece.now }
    {
        let start = self.len;
        let end = start + piece.len();
        self.bytes[start..end].copy_from_slice(piece);
        self.len = end;
    }

    /// A number in decimal, of at most 20 digits.
    pub(crate) fn push_decimal(&mut self, n: u64)
        requires { length self.old + 20 ≤ 128 }
        ensures text { self.new ≡ self.old ++ decimal n }
        ensures len { length self.new ≤ length self.old + 20 }
    {
        let mut buffer = Buffer::new();
        self.push(buffer.format(n).as_bytes());
    }
}

// The hexadecimal digit of a value at a place, which is counted from the lowest. Values of 64 bits are moved as such, which takes fewer instructions.
fn digit_at(value: Word, place: u8) -> Word
    requires { place < most_hex }
    ensures { result ≡ value / 2 ^ (4 * place) % 16 }
{
    match u64::try_from(value) {
        Ok(low) if place < 16 => Word::from((low >> (4 * place)) % 16),
        _ => (value >> (4 * place)) % 16,
    }
}

impl Line {
    /// The `count` lowest hexadecimal digits of a value, most significant first.
    pub(crate) fn push_hex(&mut self, count: u8, value: Word)
        requires digits { count ≤ most_hex }
        requires room { length self.old + most_hex ≤ 128 }
        ensures text { self.new ≡ self.old ++ hex count value }
        ensures len { length self.new ≡ length self.old + count }
    {
        for done in 0..count {
            let place = count - 1 - done;
            self.push(&[hex_digit(digit_at(value, place))]);
        }
    }
}
