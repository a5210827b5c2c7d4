// A line of a dump in a buffer of fixed size, so that writing one takes no memory.
ghost use Rattle.std.specs.Prelude.{◌≡◌, ◌+◌, ◌≤◌, ◌<◌, ◌^◌, ◌++◌, [], ◌∷◌, length, decimal};
ghost use Rattle.pdl_wave.specs.Dump.{binary, code as code_of};

use crate::lines::code;
use itoa::Buffer;
use std::marker::Model;

/// A line of up to 256 bytes, its line feed included, seen as those bytes.
#[derive(Drop)]
pub struct WaveLine {
    bytes: [u8; 256],
    len: usize,
}

impl Model for WaveLine {
    ghost use Rattle.std.specs.Prelude.{List, ℕ, ◌≤◌, take};

    ghost Value = { List ℕ };

    ghost view = { λ l. take l.len l.bytes };

    ghost invariant = { λ l. l.len ≤ 256 };
}

impl WaveLine {
    /// An empty line.
    pub(crate) fn new() -> WaveLine
        ensures { result ≡ [] }
    {
        WaveLine {
            bytes: [0; 256],
            len: 0,
        }
    }

    /// The line's bytes, at most 256.
    pub fn as_bytes(&self) -> &[u8]
        ensures bytes { result.now ≡ self.now }
        ensures len { length result.now ≤ 256 }
    {
        &self.bytes[..self.len]
    }

    /// These bytes after those before them.
    pub(crate) fn push(&mut self, piece: &[u8])
        requires { length self.old + length piece.now ≤ 256 }
        ensures text { self.new ≡ self.old ++ piece.now }
        ensures len { length self.new ≡ length self.old + length piece.now }
    {
        let start = self.len;
        let end = start + piece.len();
        self.bytes[start..end].copy_from_slice(piece);
        self.len = end;
    }

    /// A number in decimal, of at most 20 digits.
    pub(crate) fn push_decimal(&mut self, n: u64)
        requires { length self.old + 20 ≤ 256 }
        ensures text { self.new ≡ self.old ++ decimal n }
        ensures len { length self.new ≤ length self.old + 20 }
    {
        let mut buffer = Buffer::new();
        self.push(buffer.format(n).as_bytes());
    }

    /// The `count` lowest binary digits of a value, most significant first.
    pub(crate) fn push_binary(&mut self, count: u8, value: u128)
        requires digits { count ≤ 128 }
        requires room { length self.old + 128 ≤ 256 }
        ensures text { self.new ≡ self.old ++ binary count value }
        ensures len { length self.new ≡ length self.old + count }
    {
        for done in 0..count {
            let place = count - 1 - done;
            let digit = ((value >> place) % 2) as u8;
            self.push(&[b'0' + digit]);
        }
    }

    /// The code of the i-th port, of at most two bytes.
    pub(crate) fn push_code(&mut self, i: usize)
        requires below { i < 8930 }
        requires room { length self.old + 2 ≤ 256 }
        ensures text { self.new ≡ self.old ++ code_of i }
        ensures len { length self.new ≤ length self.old + 2 }
    {
        let (bytes, len) = code(i);
        self.push(&bytes[..len]);
    }
}
