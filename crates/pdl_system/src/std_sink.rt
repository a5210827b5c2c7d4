// A sink over a writer of std.
ghost use Rattle.std.specs.Prelude.{◌≡◌, [], Some};

use crate::account::Taken;
use pdl_kit::sink::{Sink, WriteFailed};
use std::io::Write;

/// A sink over a writer of std, as standard output or standard error. Clauses see what the writer took.
///
/// Those two keep no buffer: what a write took is with the system when the write returns.
#[derive(Drop)]
pub struct StdSink<W> {
    writer: W,
    taken: Taken,
    faults: u64,
}

impl<W: Write> StdSink<W> {
    /// Writes to `writer`; it took nothing yet, and no fault is counted.
    pub fn new(writer: W) -> StdSink<W>
        ensures written { ⟦<StdSink<W> as Sink>⟧.written result ≡ Some [] }
        ensures faults { ⟦<StdSink<W> as Sink>⟧.faults result ≡ 0 }
    {
        StdSink {
            writer,
            taken: Taken::none(),
            faults: 0,
        }
    }
}

impl<W: Write> Sink for StdSink<W> {
    ghost written = { λ s. Some s.taken.bytes };

    ghost faults = { λ s. s.faults };

    fn write(&mut self, piece: &[u8]) -> Result<usize, WriteFailed> {
        match self.writer.write(piece) {
            Ok(taken) if taken > 0 || piece.is_empty() => {
                self.taken.take(&piece[..taken]);
                Ok(taken)
            }
            _ => {
                self.faults = self.faults.saturating_add(1);
                Err(WriteFailed)
            }
        }
    }
}
