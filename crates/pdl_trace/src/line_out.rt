// Lines that are written while they are made.
ghost use Rattle.std.specs.Prelude.{◌≡◌, ◌+◌, ◌%◌, ◌≤◌, ◌++◌, [], length, OnOk, OnErr};
ghost use Rattle.pdl_kit.specs.Counts.{HasCause};
ghost use Rattle.pdl_trace.specs.Passed.{Passes, WritesText};

use pdl_kit::sink::{Sink, WriteFailed, write_whole};
use std::marker::Model;

/// Lines on their way to a sink, which is handed 4,096 bytes at a time: seen as the bytes that are held until then.
#[derive(Drop)]
pub struct LineOut {
    bytes: [u8; 4096],
    len: usize,
}

impl Model for LineOut {
    ghost use Rattle.std.specs.Prelude.{List, ℕ, ◌≤◌, take};

    ghost Value = { List ℕ };

    ghost view = { λ l. take l.len l.bytes };

    ghost invariant = { λ l. l.len ≤ 4096 };
}

impl LineOut {
    /// Holds nothing yet.
    pub fn new() -> LineOut
        ensures { result ≡ [] }
    {
        LineOut {
            bytes: [0; 4096],
            len: 0,
        }
    }

    // How many bytes more it can hold.
    fn room(&self) -> usize
        ensures { result + length self.now ≡ 4096 }
    {
        4096 - self.len
    }

    // Holds these bytes after the others.
    fn hold(&mut self, piece: &[u8])
        requires { length self.old + length piece.now ≤ 4096 }
        ensures { self.new ≡ self.old ++ piece.now }
    {
        let start = self.len;
        let end = start + piece.len();
        self.bytes[start..end].copy_from_slice(piece);
        self.len = end;
    }

    // Hands on all that it holds, and then holds nothing.
    fn hand_on<S: Sink>(&mut self, sink: &mut S) -> Result<(), WriteFailed>
        ensures empty { self.new ≡ [] }
        ensures bytes { WritesText (S.written sink.old) (S.written sink.new) result self.old }
        ensures cause { HasCause (S.faults sink.old) (S.faults sink.new) result }
    {
        let len = self.len;
        self.len = 0;
        write_whole(sink, &self.bytes[..len])
    }

    /// A line of at most 256 bytes follows those before it; where it makes 4,096 bytes or more with what is held, the first 4,096 are handed on at once, so that a line may be split.
    ///
    /// It takes no memory. `WriteFailed` comes only where the sink's count of faults rose, or stands at the last value of a `u64`; then nothing is held, and the sink has a prefix of what was held and the line.
    pub fn push<S: Sink>(&mut self, sink: &mut S, line: &[u8]) -> Result<(), WriteFailed>
        requires { length line.now ≤ 256 }
        ensures bytes { Passes (S.written sink.old) (S.written sink.new) result
            (self.old ++ line.now) self.new }
        ensures held { OnOk result (length self.new ≡ (length self.old + length line.now) % 4096) }
        ensures empty { OnErr result (self.new ≡ []) }
        ensures cause { HasCause (S.faults sink.old) (S.faults sink.new) result }
    {
        let room = self.room();
        if line.len() < room {
            self.hold(line);
            return Ok(());
        }
        self.hold(&line[..room]);
        self.hand_on(sink)?;
        self.hold(&line[room..]);
        Ok(())
    }

    /// Hands on the rest, if any: the sink then has all lines.
    ///
    /// It takes no memory, and `WriteFailed` comes as at `push`.
    pub fn finish<S: Sink>(self, sink: &mut S) -> Result<(), WriteFailed>
        ensures bytes { WritesText (S.written sink.old) (S.written sink.new) result self }
        ensures cause { HasCause (S.faults sink.old) (S.faults sink.new) result }
    {
        write_whole(sink, &self.bytes[..self.len])
    }
}
