//! What a value change dump is, its lines, and what a dump says: the text in which a waveform viewer is told when the ports of a run change (docs/waves.md).
//!
//! The layer above may use `header_line`, `time_line`, `change_line` and `code`, none of which takes memory or fails, and the theorem that a dump says what it was made of (`reads_back`).
#![tactic(auto)]

ghost use Rattle.std.specs.Prelude.{ℕ, List};
ghost use Rattle.pdl_wave.specs.declared.port.WavePort.{WavePort};
ghost use Rattle.pdl_wave.specs.Dump.{dump, IsRun};
ghost use Rattle.pdl_wave.specs.Wave.{IsWaveOf};

pub mod line;
pub mod lines;
pub mod port;

pub use line::WaveLine;
pub use lines::{change_line, code, header_line, time_line};
pub use port::WavePort;

/// The dump of each run is read as that run: it has its name and its ports, its count of cycles, and in each cycle the value of each port.
#[tactic(auto, using(crate::proofs::WaveForm::wave_form))]
pub fn reads_back()
    ensures { (name : List ℕ) (ports : List WavePort) (rows : List (List ℕ)) → IsRun name ports rows
        → IsWaveOf (dump name ports rows) name ports rows }
{}
