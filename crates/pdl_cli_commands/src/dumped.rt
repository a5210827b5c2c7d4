// What the command `wave` does.
ghost use Rattle.std.specs.Prelude.{◌≡◌, ◌≤◌, ◌∷◌, IsTrue, ℕ, List, Some};
ghost use Rattle.pdl_system.specs.Answers.{Since, gave};
ghost use Rattle.pdl_system.specs.Files.{AreTold};
ghost use Rattle.pdl_semantics.specs.Tree.{Pipe as pipes};
ghost use Rattle.pdl_syntax_tree.specs.View.{pipe_view};
ghost use Rattle.pdl_net.specs.Pipe.{IsWellFormed};
ghost use Rattle.pdl_law_follows.specs.Follows.{Follows};
ghost use Rattle.pdl_pipe.specs.KeptPlaces.{KeepsPlaces};
ghost use Rattle.pdl_image.specs.Images.{IsImage};
ghost use Rattle.pdl_cli_args.specs.Line as command;
ghost use Rattle.pdl_cli_args.specs.View.{text_of};
ghost use Rattle.pdl_netrun_lines.specs.Printed.{schedule};
ghost use Rattle.pdl_netrun_wave.specs.Dumped.{run_dump, CanBeDumped};
ghost use Rattle.pdl_cli_commands.specs.Replies.{AllowsFile};
ghost use Rattle.pdl_cli_commands.specs.Commands.{IsAccepted};
ghost use Rattle.pdl_cli_commands.specs.Outcomes.{seen_of, Explains, Streamed};

use crate::run::accept;
use crate::start::{RunStart, start_of};
use pdl_check::Accepted;
use pdl_cli_failure::{Failure, in_text};
use pdl_kit::sink::Sink;
use pdl_net::Netlist;
use pdl_netrun_lines::Schedule;
use pdl_netrun_wave::dump;
use pdl_pipe::compile;
use pdl_system::Files;
use std::alloc::Global;

// Writes the dump of a run of a netlist while it runs.
fn print_dump<O: Sink>(
    alloc: Global,
    netlist: &Netlist,
    start: &RunStart,
    cycles: u32,
    out: &mut O,
) -> Result<(), Failure>
    requires well { IsWellFormed netlist.now }
    requires dumpable { CanBeDumped netlist.now }
    requires image { IsImage netlist.now.mems start.now.image }
    ensures text { Streamed
        (λ t. t ≡ run_dump netlist.now start.now.image (schedule start.now.delays cycles))
        (O.written out.old) (O.written out.new) (O.faults out.old) (O.faults out.new) result }
    ensures written { O.faults out.old ≤ O.faults out.new }
{
    let schedule = Schedule {
        delays: &start.delays,
        cycles,
    };
    in_text(dump(alloc, netlist, &start.image, &schedule, out))
}

// Dumps a run of a netlist from the image with this name, with the replies of the delay file, if one is named: as the command does for each source whose pipe it follows.
fn dump_netlist<F: Files, O: Sink>(
    alloc: Global,
    files: &mut F,
    netlist: &Netlist,
    image: &str,
    cycles: u32,
    delays: Option<&str>,
    out: &mut O,
) -> Result<(), Failure>
    requires image { IsTrue (F.may files.old image.now) }
    requires delays { AllowsFile (F.may files.old) (text_of delays) }
    requires well { IsWellFormed netlist.now }
    requires dumpable { CanBeDumped netlist.now }
    requires few { cycles ≤ 1000000 }
    ensures explained { (source b : List ℕ) (p : pipes) → IsAccepted b p
        → Follows p netlist.now → KeepsPlaces p netlist.now
        → Since (F.answers files.old) (F.answers files.new) (λ reads. Explains
        (Some (command.wave source image.now cycles (text_of delays.entry)))
        (seen_of (gave source b ∷ reads) (F.faults files.old) (F.faults files.new)
        (O.written out.old) (O.written out.new) (O.faults out.old) (O.faults out.new)) result) }
    ensures held { F.holds files.new ≡ F.holds files.old }
    ensures told { AreTold (F.holds files.old) (F.answers files.old)
        → AreTold (F.holds files.new) (F.answers files.new) }
    ensures allowed { (n : List ℕ) → F.may files.new n ≡ F.may files.old n }
    ensures later { F.faults files.old ≤ F.faults files.new }
    ensures written { O.faults out.old ≤ O.faults out.new }
{
    match start_of(alloc, files, netlist, image, delays) {
        Ok(start) => print_dump(alloc, netlist, &start, cycles, out),
        Err(failure) => Err(failure),
    }
}

// Dumps a run of the netlist of an accepted pipe: as the command does for whatever source is the pipe's text.
fn dump_accepted<F: Files, O: Sink>(
    alloc: Global,
    files: &mut F,
    accepted: &Accepted,
    image: &str,
    cycles: u32,
    delays: Option<&str>,
    out: &mut O,
) -> Result<(), Failure>
    requires image { IsTrue (F.may files.old image.now) }
    requires delays { AllowsFile (F.may files.old) (text_of delays) }
    requires accepted { (b : List ℕ) × IsAccepted b (pipe_view accepted.now.typed.pipe) }
    requires few { cycles ≤ 1000000 }
    ensures explained { (source b : List ℕ) → IsAccepted b (pipe_view accepted.now.typed.pipe)
        → Since (F.answers files.old) (F.answers files.new) (λ reads. Explains
        (Some (command.wave source image.now cycles (text_of delays.entry)))
        (seen_of (gave source b ∷ reads) (F.faults files.old) (F.faults files.new)
        (O.written out.old) (O.written out.new) (O.faults out.old) (O.faults out.new)) result) }
    ensures held { F.holds files.new ≡ F.holds files.old }
    ensures told { AreTold (F.holds files.old) (F.answers files.old)
        → AreTold (F.holds files.new) (F.answers files.new) }
    ensures allowed { (n : List ℕ) → F.may files.new n ≡ F.may files.old n }
    ensures later { F.faults files.old ≤ F.faults files.new }
    ensures written { O.faults out.old ≤ O.faults out.new }
{
    match compile(alloc, accepted) {
        Ok(netlist) => dump_netlist(alloc, files, &netlist, image, cycles, delays, out),
        Err(_) => Err(Failure::NoMemory),
    }
}

/// Does what `wave` asks for, with a source and an image of these names, a delay file, if one is named, and so many cycles: all memory is taken before the first byte is written.
pub fn wave<F: Files, O: Sink>(
    alloc: Global,
    files: &mut F,
    source: &str,
    image: &str,
    cycles: u32,
    delays: Option<&str>,
    out: &mut O,
) -> Result<(), Failure>
    requires source { IsTrue (F.may files.old source.now) }
    requires image { IsTrue (F.may files.old image.now) }
    requires delays { AllowsFile (F.may files.old) (text_of delays) }
    requires few { cycles ≤ 1000000 }
    ensures explained { Since (F.answers files.old) (F.answers files.new) (λ reads. Explains
        (Some (command.wave source.now image.now cycles (text_of delays.entry)))
        (seen_of reads (F.faults files.old) (F.faults files.new)
        (O.written out.old) (O.written out.new) (O.faults out.old) (O.faults out.new)) result) }
    ensures held { F.holds files.new ≡ F.holds files.old }
    ensures told { AreTold (F.holds files.old) (F.answers files.old)
        → AreTold (F.holds files.new) (F.answers files.new) }
    ensures allowed { (n : List ℕ) → F.may files.new n ≡ F.may files.old n }
    ensures later { F.faults files.old ≤ F.faults files.new }
    ensures written { O.faults out.old ≤ O.faults out.new }
{
    match accept(alloc, files, source) {
        Ok(accepted) => dump_accepted(alloc, files, &accepted, image, cycles, delays, out),
        Err(failure) => Err(failure),
    }
}
