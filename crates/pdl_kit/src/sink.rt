// Sinks, which take bytes.
ghost use Rattle.std.specs.Prelude.{◌≡◌, ℕ, ◌≤◌, ◌<◌, List, length, IfOk, OnOk, OnErr};
ghost use Rattle.std.specs.declared.option.Option.{Option};
ghost use Rattle.pdl_kit.specs.Counts.{HasCause};
ghost use Rattle.pdl_kit.specs.Sinks.{Takes, TakesPrefix, with_bytes};

/// A write failed, and the sink took nothing.
#[derive(Clone, Copy, PartialEq, Eq)]
pub struct WriteFailed;

/// What takes bytes.
pub trait Sink {
    /// The bytes written so far, where it tells them.
    ghost written: { Self → Option (List ℕ) };

    /// How often it has failed, up to the last value of a `u64`.
    ghost faults: { Self → ℕ };

    /// Takes a prefix of the piece and answers its length in bytes, or takes nothing and fails.
    ///
    /// `WriteFailed` comes only where the count of faults rose, or stands at the last value of a `u64`. To take nothing of a piece that isn't empty is a fault.
    fn write(&mut self, piece: &[u8]) -> Result<usize, WriteFailed>
        ensures bound { IfOk result (λ n. n ≤ length piece.now) }
        ensures progress { IfOk result (λ n. 0 < length piece.now → 0 < n) }
        ensures bytes { Takes (written self.old) (written self.new) result piece.now }
        ensures cause { HasCause (faults self.old) (faults self.new) result };
}

/// Writes the whole piece, or a prefix of it and fails. It takes no memory of its own.
#[tactic(auto, using(crate::proofs::ResumedWrites::told_on, crate::proofs::ResumedWrites::told_none))]
pub fn write_whole<S: Sink>(sink: &mut S, piece: &[u8]) -> Result<(), WriteFailed>
    ensures whole { OnOk result (S.written sink.new ≡ with_bytes piece.now (S.written sink.old)) }
    ensures part { OnErr result (TakesPrefix (S.written sink.old) (S.written sink.new) piece.now) }
    ensures cause { HasCause (S.faults sink.old) (S.faults sink.new) result }
{
    let mut done = 0;
    while done < piece.len() {
        let taken = sink.write(&piece[done..])?;
        done += taken;
    }
    Ok(())
}
