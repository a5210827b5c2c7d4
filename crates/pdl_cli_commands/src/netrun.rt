// The run of a netlist from the files that a command names, whatever gives the netlist.
ghost use Rattle.std.specs.Prelude.{◌≡◌, ◌≤◌, ◌∷◌, IsTrue, ℕ, List, All, Some, length};
ghost use Rattle.pdl_system.specs.Answers.{Since, gave};
ghost use Rattle.pdl_system.specs.Files.{AreTold};
ghost use Rattle.pdl_semantics.specs.Tree.{Pipe as pipes};
ghost use Rattle.pdl_net.specs.Pipe.{IsWellFormed};
ghost use Rattle.pdl_law_follows.specs.Follows.{Follows};
ghost use Rattle.pdl_image.specs.Images.{IsImage};
ghost use Rattle.pdl_vread.specs.Reads.{Reads};
ghost use Rattle.pdl_cli_args.specs.Line as command;
ghost use Rattle.pdl_cli_args.specs.View.{text_of};
ghost use Rattle.pdl_netrun_lines.specs.Printed.{run_text, schedule};
ghost use Rattle.pdl_cli_commands.specs.Replies.{AllowsFile};
ghost use Rattle.pdl_cli_commands.specs.Commands.{IsAccepted};
ghost use Rattle.pdl_cli_commands.specs.Outcomes.{seen_of, Explains, Streamed};

use crate::start::{RunStart, start_of};
use pdl_cli_failure::{Failure, in_text};
use pdl_kit::sink::Sink;
use pdl_net::Netlist;
use pdl_netrun_lines::{Schedule, run};
use pdl_system::Files;
use std::alloc::Global;

// Writes the text of a run of a netlist while it runs.
fn print_run<O: Sink>(
    alloc: Global,
    netlist: &Netlist,
    start: &RunStart,
    cycles: u32,
    out: &mut O,
) -> Result<(), Failure>
    requires well { IsWellFormed netlist.now }
    requires short { All (λ m. length m.name ≤ 32) netlist.now.mems }
    requires image { IsImage netlist.now.mems start.now.image }
    requires few { cycles ≤ 1000000 }
    ensures text { Streamed
        (λ t. t ≡ run_text netlist.now start.now.image (schedule start.now.delays cycles))
        (O.written out.old) (O.written out.new) (O.faults out.old) (O.faults out.new) result }
    ensures written { O.faults out.old ≤ O.faults out.new }
{
    let schedule = Schedule {
        delays: &start.delays,
        cycles,
    };
    in_text(run(alloc, netlist, &start.image, &schedule, out))
}

/// Runs a netlist from the image with this name, with the replies of the delay file, if one is named, and writes what it prints: as `run` does for each source whose pipe it follows, and `sim` for each file that holds it. All memory is taken before the first byte is written.
pub fn run_netlist<F: Files, O: Sink>(
    alloc: Global,
    files: &mut F,
    netlist: &Netlist,
    image: &str,
    cycles: u32,
    delays: Option<&str>,
    out: &mut O,
) -> Result<(), Failure>
    requires image { IsTrue (F.may files.old image.now) }
    requires delays { AllowsFile (F.may files.old) (text_of delays) }
    requires well { IsWellFormed netlist.now }
    requires short { All (λ m. length m.name ≤ 32) netlist.now.mems }
    requires few { cycles ≤ 1000000 }
    ensures source { (source b : List ℕ) (p : pipes) → IsAccepted b p → Follows p netlist.now
        → Since (F.answers files.old) (F.answers files.new) (λ reads. Explains
        (Some (command.run source image.now cycles (text_of delays.entry)))
        (seen_of (gave source b ∷ reads) (F.faults files.old) (F.faults files.new)
        (O.written out.old) (O.written out.new) (O.faults out.old) (O.faults out.new)) result) }
    ensures netlist { (v b : List ℕ) → Reads b netlist.now
        → Since (F.answers files.old) (F.answers files.new) (λ reads. Explains
        (Some (command.sim v image.now cycles (text_of delays.entry)))
        (seen_of (gave v b ∷ reads) (F.faults files.old) (F.faults files.new)
        (O.written out.old) (O.written out.new) (O.faults out.old) (O.faults out.new)) result) }
    ensures held { F.holds files.new ≡ F.holds files.old }
    ensures told { AreTold (F.holds files.old) (F.answers files.old)
        → AreTold (F.holds files.new) (F.answers files.new) }
    ensures allowed { (n : List ℕ) → F.may files.new n ≡ F.may files.old n }
    ensures later { F.faults files.old ≤ F.faults files.new }
    ensures written { O.faults out.old ≤ O.faults out.new }
{
    match start_of(alloc, files, netlist, image, delays) {
        Ok(start) => print_run(alloc, netlist, &start, cycles, out),
        Err(failure) => Err(failure),
    }
}
