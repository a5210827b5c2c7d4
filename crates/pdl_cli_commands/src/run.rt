// What the commands `check`, `run` and `seq` do.
ghost use Rattle.std.specs.Prelude.{◌≡◌, ◌≤◌, [], ◌∷◌, ◌++◌, IsTrue, IfOk, IfErr, ℕ, List, Some, length};
ghost use Rattle.pdl_system.specs.Answers.{Since, gave};
ghost use Rattle.pdl_system.specs.Files.{AreTold};
ghost use Rattle.pdl_syntax_tree.specs.View.{pipe_view};
ghost use Rattle.pdl_semantics.specs.Lines.{accepted_line as accepted_text};
ghost use Rattle.pdl_image.specs.Images.{IsImage, IsRefusal, image as image_words};
ghost use Rattle.pdl_cli_args.specs.Line as command;
ghost use Rattle.pdl_cli_args.specs.View.{text_of};
ghost use Rattle.pdl_cli_commands.specs.Replies.{AllowsFile};
ghost use Rattle.pdl_cli_commands.specs.Commands.{IsAccepted, IsTaken};
ghost use Rattle.pdl_cli_commands.specs.Begun.{FileFails, IsRefusedSource, IsRefusedImage};
ghost use Rattle.pdl_cli_commands.specs.Outcomes.{seen_of, Explains, IsMade, Fails};
ghost use Rattle.pdl_rules.specs.Memories.{infos_of};

use crate::netrun::run_netlist;
use crate::sequential::sequential;
use pdl_check::Accepted;
use pdl_check::check::check;
use pdl_cli_failure::{Failure, in_memory};
use pdl_image::{FileError, Image, read_image};
use pdl_kit::NoMemory;
use pdl_kit::files::LONGEST_FILE;
use pdl_kit::sink::Sink;
use pdl_pipe::compile;
use pdl_system::Files;
use pdl_trace::accepted_line;
use std::alloc::Global;
use std::mem::drop;

/// Reads and checks a source.
#[tactic(auto, using(crate::proofs::FileFailures::source_refused))]
pub fn accept<F: Files>(alloc: Global, files: &mut F, name: &str) -> Result<Accepted, Failure>
    requires { IsTrue (F.may files.old name.now) }
    ensures ok { IfOk result (λ a. (b : List ℕ)
        × (F.answers files.new ≡ F.answers files.old ++ gave name.now b ∷ [])
        × IsAccepted b (pipe_view a.typed.pipe)) }
    ensures err { IfErr result (FileFails IsRefusedSource (F.answers files.old)
        (F.answers files.new) (F.faults files.old) (F.faults files.new) name.now) }
    ensures held { F.holds files.new ≡ F.holds files.old }
    ensures told { AreTold (F.holds files.old) (F.answers files.old)
        → AreTold (F.holds files.new) (F.answers files.new) }
    ensures allowed { (n : List ℕ) → F.may files.new n ≡ F.may files.old n }
    ensures later { F.faults files.old ≤ F.faults files.new }
{
    let source = files.read(name)?;
    Ok(check(alloc, source.as_slice())?)
}

/// Reads an image for the memories of a pipe.
#[tactic(auto, using(crate::proofs::FileFailures::image_refused))]
pub fn load<F: Files>(
    alloc: Global,
    files: &mut F,
    name: &str,
    accepted: &Accepted,
) -> Result<Image, Failure>
    requires may { IsTrue (F.may files.old name.now) }
    requires accepted { (b : List ℕ) × IsAccepted b (pipe_view accepted.now.typed.pipe) }
    ensures ok { IfOk result (λ i. (b : List ℕ)
        × (F.answers files.new ≡ F.answers files.old ++ gave name.now b ∷ [])
        × IsTaken (pipe_view accepted.now.typed.pipe) b i
        × IsImage (infos_of (pipe_view accepted.now.typed.pipe).mems) i) }
    ensures err { IfErr result
        (FileFails (IsRefusedImage (infos_of (pipe_view accepted.now.typed.pipe).mems))
        (F.answers files.old) (F.answers files.new) (F.faults files.old) (F.faults files.new)
        name.now) }
    ensures held { F.holds files.new ≡ F.holds files.old }
    ensures told { AreTold (F.holds files.old) (F.answers files.old)
        → AreTold (F.holds files.new) (F.answers files.new) }
    ensures allowed { (n : List ℕ) → F.may files.new n ≡ F.may files.old n }
    ensures later { F.faults files.old ≤ F.faults files.new }
{
    let text = files.read(name)?;
    Ok(image_of(alloc, accepted, text.as_slice())?)
}

/// The image of a text for the memories of a pipe.
pub fn image_of(alloc: Global, accepted: &Accepted, text: &[u8]) -> Result<Image, FileError>
    requires accepted { (b : List ℕ) × IsAccepted b (pipe_view accepted.now.typed.pipe) }
    requires short { length text.now ≤ LONGEST_FILE }
    ensures ok { IfOk result (λ i. IsTaken (pipe_view accepted.now.typed.pipe) text.now i
        × IsImage (infos_of (pipe_view accepted.now.typed.pipe).mems) i) }
    ensures err { IfErr result
        (IsRefusal (image_words (infos_of (pipe_view accepted.now.typed.pipe).mems) text.now)) }
{
    read_image(alloc, accepted.mems(), text)
}

// What is said of an accepted pipe.
fn verdict_of(alloc: Global, accepted: &Accepted) -> Result<Vec<u8>, NoMemory>
    ensures { IfOk result (λ t. t.items ≡ accepted_text (pipe_view accepted.now.typed.pipe)) }
{
    let line = accepted_line(accepted.graph().count(), accepted.depth());
    let mut text = Vec::new(alloc);
    text.extend_from_slice(line.as_bytes())?;
    Ok(text)
}

/// The text that `check` writes for a source with this name.
pub fn verdict<F: Files>(alloc: Global, files: &mut F, source: &str) -> Result<Vec<u8>, Failure>
    requires { IsTrue (F.may files.old source.now) }
    ensures ok { IfOk result (λ t. Since (F.answers files.old) (F.answers files.new)
        (λ reads. IsMade (command.check source.now) reads t.items)) }
    ensures err { IfErr result (λ f. Since (F.answers files.old) (F.answers files.new)
        (λ reads. Fails (command.check source.now) reads (F.faults files.old)
        (F.faults files.new) f)) }
    ensures held { F.holds files.new ≡ F.holds files.old }
    ensures told { AreTold (F.holds files.old) (F.answers files.old)
        → AreTold (F.holds files.new) (F.answers files.new) }
    ensures allowed { (n : List ℕ) → F.may files.new n ≡ F.may files.old n }
    ensures later { F.faults files.old ≤ F.faults files.new }
{
    let accepted = accept(alloc, files, source)?;
    let text = in_memory(verdict_of(alloc, &accepted));
    drop(accepted);
    text
}

// Runs the netlist of an accepted pipe from the image with this name, with the replies of the delay file, if one is named: as the command does for whatever source is the pipe's text.
fn run_accepted<F: Files, O: Sink>(
    alloc: Global,
    files: &mut F,
    accepted: &Accepted,
    image: &str,
    cycles: u32,
    delays: Option<&str>,
    out: &mut O,
) -> Result<(), Failure>
    requires image { IsTrue (F.may files.old image.now) }
    requires delays { AllowsFile (F.may files.old) (text_of delays) }
    requires accepted { (b : List ℕ) × IsAccepted b (pipe_view accepted.now.typed.pipe) }
    requires few { cycles ≤ 1000000 }
    ensures explained { (source b : List ℕ) → IsAccepted b (pipe_view accepted.now.typed.pipe)
        → Since (F.answers files.old) (F.answers files.new) (λ reads. Explains
        (Some (command.run source image.now cycles (text_of delays.entry)))
        (seen_of (gave source b ∷ reads) (F.faults files.old) (F.faults files.new)
        (O.written out.old) (O.written out.new) (O.faults out.old) (O.faults out.new)) result) }
    ensures held { F.holds files.new ≡ F.holds files.old }
    ensures told { AreTold (F.holds files.old) (F.answers files.old)
        → AreTold (F.holds files.new) (F.answers files.new) }
    ensures allowed { (n : List ℕ) → F.may files.new n ≡ F.may files.old n }
    ensures later { F.faults files.old ≤ F.faults files.new }
    ensures written { O.faults out.old ≤ O.faults out.new }
{
    match compile(alloc, accepted) {
        Ok(netlist) => run_netlist(alloc, files, &netlist, image, cycles, delays, out),
        Err(_) => Err(Failure::NoMemory),
    }
}

// Runs the threads of an accepted pipe one after another from the image with this name, likewise.
fn run_accepted_in_turn<F: Files, O: Sink>(
    alloc: Global,
    files: &mut F,
    accepted: &Accepted,
    image: &str,
    threads: u32,
    out: &mut O,
) -> Result<(), Failure>
    requires image { IsTrue (F.may files.old image.now) }
    requires accepted { (b : List ℕ) × IsAccepted b (pipe_view accepted.now.typed.pipe) }
    ensures explained { (source b : List ℕ) → IsAccepted b (pipe_view accepted.now.typed.pipe)
        → Since (F.answers files.old) (F.answers files.new) (λ reads. Explains
        (Some (command.seq source image.now threads))
        (seen_of (gave source b ∷ reads) (F.faults files.old) (F.faults files.new)
        (O.written out.old) (O.written out.new) (O.faults out.old) (O.faults out.new)) result) }
    ensures held { F.holds files.new ≡ F.holds files.old }
    ensures told { AreTold (F.holds files.old) (F.answers files.old)
        → AreTold (F.holds files.new) (F.answers files.new) }
    ensures allowed { (n : List ℕ) → F.may files.new n ≡ F.may files.old n }
    ensures later { F.faults files.old ≤ F.faults files.new }
    ensures written { O.faults out.old ≤ O.faults out.new }
{
    match load(alloc, files, image, accepted) {
        Ok(words) => sequential(alloc, accepted, &words, threads, out),
        Err(failure) => Err(failure),
    }
}

/// Does what `run` asks for, with a source and an image of these names, a delay file, if one is named, and so many cycles: all memory is taken before the first byte is written.
pub fn run_source<F: Files, O: Sink>(
    alloc: Global,
    files: &mut F,
    source: &str,
    image: &str,
    cycles: u32,
    delays: Option<&str>,
    out: &mut O,
) -> Result<(), Failure>
    requires source { IsTrue (F.may files.old source.now) }
    requires image { IsTrue (F.may files.old image.now) }
    requires delays { AllowsFile (F.may files.old) (text_of delays) }
    requires few { cycles ≤ 1000000 }
    ensures explained { Since (F.answers files.old) (F.answers files.new) (λ reads. Explains
        (Some (command.run source.now image.now cycles (text_of delays.entry)))
        (seen_of reads (F.faults files.old) (F.faults files.new)
        (O.written out.old) (O.written out.new) (O.faults out.old) (O.faults out.new)) result) }
    ensures held { F.holds files.new ≡ F.holds files.old }
    ensures told { AreTold (F.holds files.old) (F.answers files.old)
        → AreTold (F.holds files.new) (F.answers files.new) }
    ensures allowed { (n : List ℕ) → F.may files.new n ≡ F.may files.old n }
    ensures later { F.faults files.old ≤ F.faults files.new }
    ensures written { O.faults out.old ≤ O.faults out.new }
{
    match accept(alloc, files, source) {
        Ok(accepted) => run_accepted(alloc, files, &accepted, image, cycles, delays, out),
        Err(failure) => Err(failure),
    }
}

/// Does what `seq` asks for, with a source and an image of these names, and so many threads: all memory is taken before the first byte is written.
pub fn run_in_turn<F: Files, O: Sink>(
    alloc: Global,
    files: &mut F,
    source: &str,
    image: &str,
    threads: u32,
    out: &mut O,
) -> Result<(), Failure>
    requires source { IsTrue (F.may files.old source.now) }
    requires image { IsTrue (F.may files.old image.now) }
    ensures explained { Since (F.answers files.old) (F.answers files.new) (λ reads. Explains
        (Some (command.seq source.now image.now threads))
        (seen_of reads (F.faults files.old) (F.faults files.new)
        (O.written out.old) (O.written out.new) (O.faults out.old) (O.faults out.new)) result) }
    ensures held { F.holds files.new ≡ F.holds files.old }
    ensures told { AreTold (F.holds files.old) (F.answers files.old)
        → AreTold (F.holds files.new) (F.answers files.new) }
    ensures allowed { (n : List ℕ) → F.may files.new n ≡ F.may files.old n }
    ensures later { F.faults files.old ≤ F.faults files.new }
    ensures written { O.faults out.old ≤ O.faults out.new }
{
    match accept(alloc, files, source) {
        Ok(accepted) => run_accepted_in_turn(alloc, files, &accepted, image, threads, out),
        Err(failure) => Err(failure),
    }
}
