// What the command `view` does.
ghost use Rattle.std.specs.Prelude.{◌≡◌, ◌≤◌, ◌∷◌, IsTrue, IfOk, IfErr, ℕ, List, Some, count_by};
ghost use Rattle.pdl_system.specs.Answers.{Since, gave};
ghost use Rattle.pdl_system.specs.Files.{AreTold};
ghost use Rattle.pdl_syntax_tree.specs.View.{pipe_view};
ghost use Rattle.pdl_semantics.specs.Flatten.{flat};
ghost use Rattle.pdl_semantics.specs.Lines.{view_lines};
ghost use Rattle.pdl_law_parts.specs.Places.{delayed_count};
ghost use Rattle.pdl_law_follows.specs.Memories.{replies_in};
ghost use Rattle.pdl_image.specs.Images.{IsImage};
ghost use Rattle.pdl_cli_args.specs.Line as command;
ghost use Rattle.pdl_cli_args.specs.View.{text_of};
ghost use Rattle.pdl_netrun_lines.specs.Printed.{schedule};
ghost use Rattle.pdl_cli_commands.specs.Replies.{AllowsFile};
ghost use Rattle.pdl_cli_commands.specs.Commands.{IsAccepted};
ghost use Rattle.pdl_cli_commands.specs.Begun.{StartFails, IsBegun};
ghost use Rattle.pdl_cli_commands.specs.Outcomes.{seen_of, Explains, Streamed};
ghost use Rattle.pdl_rules.specs.Memories.{infos_of};

use crate::run::{accept, load};
use crate::start::{RunStart, replies};
use pdl_check::Accepted;
use pdl_cli_failure::{Failure, in_text};
use pdl_kit::MemInfo;
use pdl_kit::sink::Sink;
use pdl_machine_view::view;
use pdl_system::Files;
use std::alloc::Global;

// How many memories are delayed.
fn count_delayed(mems: &[MemInfo]) -> usize
    ensures { result ≡ count_by (λ m. m.delayed) mems.now }
{
    mems.iter().filter(|mem| mem.delayed).count()
}

// How many memories of an accepted pipe are delayed: at most 16.
fn few_delayed(accepted: &Accepted) -> u8
    ensures count { result ≡ delayed_count (flat (pipe_view accepted.now.typed.pipe)) }
    ensures few { result ≤ 16 }
{
    count_delayed(accepted.mems()) as u8
}

// Reads an image of this name for the memories of a pipe, and after it the delay file for its delayed ones, if one is named.
#[tactic(auto, using(crate::proofs::Starts::is_begun, crate::proofs::Starts::replies_off))]
fn start_of<F: Files>(
    alloc: Global,
    files: &mut F,
    accepted: &Accepted,
    image: &str,
    delays: Option<&str>,
) -> Result<RunStart, Failure>
    requires image { IsTrue (F.may files.old image.now) }
    requires delays { AllowsFile (F.may files.old) (text_of delays) }
    requires accepted { (b : List ℕ) × IsAccepted b (pipe_view accepted.now.typed.pipe) }
    ensures ok { IfOk result (λ s. IsBegun (F.answers files.old) (F.answers files.new) image.now
        (text_of delays.entry) (infos_of (pipe_view accepted.now.typed.pipe).mems)
        (delayed_count (flat (pipe_view accepted.now.typed.pipe))) s.image s.delays) }
    ensures err { IfErr result (StartFails (F.answers files.old) (F.answers files.new)
        (F.faults files.old) (F.faults files.new) image.now (text_of delays.entry)
        (infos_of (pipe_view accepted.now.typed.pipe).mems)
        (delayed_count (flat (pipe_view accepted.now.typed.pipe)))) }
    ensures held { F.holds files.new ≡ F.holds files.old }
    ensures told { AreTold (F.holds files.old) (F.answers files.old)
        → AreTold (F.holds files.new) (F.answers files.new) }
    ensures allowed { (n : List ℕ) → F.may files.new n ≡ F.may files.old n }
    ensures later { F.faults files.old ≤ F.faults files.new }
{
    let image = load(alloc, files, image, accepted)?;
    let delays = replies(alloc, files, delays, few_delayed(accepted))?;
    Ok(RunStart { image, delays })
}

// Writes the view of a run of an accepted pipe while it runs.
fn print_view<O: Sink>(
    alloc: Global,
    accepted: &Accepted,
    start: &RunStart,
    cycles: u32,
    out: &mut O,
) -> Result<(), Failure>
    requires image { IsImage (infos_of (pipe_view accepted.now.typed.pipe).mems) start.now.image }
    requires few { cycles ≤ 1000000 }
    ensures text { Streamed (λ t. t ≡ view_lines (pipe_view accepted.now.typed.pipe)
        start.now.image (replies_in (flat (pipe_view accepted.now.typed.pipe))
        (schedule start.now.delays cycles)))
        (O.written out.old) (O.written out.new) (O.faults out.old) (O.faults out.new) result }
    ensures written { O.faults out.old ≤ O.faults out.new }
{
    let image = &start.image;
    in_text(view(alloc, accepted, image, &start.delays, cycles, out))
}

// Shows the stages of an accepted pipe in a run from the image with this name, with the replies of the delay file, if one is named: as the command does for whatever source is the pipe's text.
fn view_accepted<F: Files, O: Sink>(
    alloc: Global,
    files: &mut F,
    accepted: &Accepted,
    image: &str,
    cycles: u32,
    delays: Option<&str>,
    out: &mut O,
) -> Result<(), Failure>
    requires image { IsTrue (F.may files.old image.now) }
    requires delays { AllowsFile (F.may files.old) (text_of delays) }
    requires accepted { (b : List ℕ) × IsAccepted b (pipe_view accepted.now.typed.pipe) }
    requires few { cycles ≤ 1000000 }
    ensures explained { (source b : List ℕ) → IsAccepted b (pipe_view accepted.now.typed.pipe)
        → Since (F.answers files.old) (F.answers files.new) (λ reads. Explains
        (Some (command.view source image.now cycles (text_of delays.entry)))
        (seen_of (gave source b ∷ reads) (F.faults files.old) (F.faults files.new)
        (O.written out.old) (O.written out.new) (O.faults out.old) (O.faults out.new)) result) }
    ensures held { F.holds files.new ≡ F.holds files.old }
    ensures told { AreTold (F.holds files.old) (F.answers files.old)
        → AreTold (F.holds files.new) (F.answers files.new) }
    ensures allowed { (n : List ℕ) → F.may files.new n ≡ F.may files.old n }
    ensures later { F.faults files.old ≤ F.faults files.new }
    ensures written { O.faults out.old ≤ O.faults out.new }
{
    match start_of(alloc, files, accepted, image, delays) {
        Ok(start) => print_view(alloc, accepted, &start, cycles, out),
        Err(failure) => Err(failure),
    }
}

/// Does what `view` asks for, with a source and an image of these names, a delay file, if one is named, and so many cycles: all memory is taken before the first byte is written.
pub fn view_source<F: Files, O: Sink>(
    alloc: Global,
    files: &mut F,
    source: &str,
    image: &str,
    cycles: u32,
    delays: Option<&str>,
    out: &mut O,
) -> Result<(), Failure>
    requires source { IsTrue (F.may files.old source.now) }
    requires image { IsTrue (F.may files.old image.now) }
    requires delays { AllowsFile (F.may files.old) (text_of delays) }
    requires few { cycles ≤ 1000000 }
    ensures explained { Since (F.answers files.old) (F.answers files.new) (λ reads. Explains
        (Some (command.view source.now image.now cycles (text_of delays.entry)))
        (seen_of reads (F.faults files.old) (F.faults files.new)
        (O.written out.old) (O.written out.new) (O.faults out.old) (O.faults out.new)) result) }
    ensures held { F.holds files.new ≡ F.holds files.old }
    ensures told { AreTold (F.holds files.old) (F.answers files.old)
        → AreTold (F.holds files.new) (F.answers files.new) }
    ensures allowed { (n : List ℕ) → F.may files.new n ≡ F.may files.old n }
    ensures later { F.faults files.old ≤ F.faults files.new }
    ensures written { O.faults out.old ≤ O.faults out.new }
{
    match accept(alloc, files, source) {
        Ok(accepted) => view_accepted(alloc, files, &accepted, image, cycles, delays, out),
        Err(failure) => Err(failure),
    }
}
