// The whole program.
ghost use Rattle.std.specs.Prelude.{◌≡◌, ◌≤◌, ℕ, List, Option, IsTrue, IfOk, IfErr, map, string_bytes};
ghost use Rattle.std.specs.Prelude.{Some, Err};
ghost use Rattle.pdl_cli_args.specs.Line.{line};
ghost use Rattle.pdl_cli_args.specs.View.{view};
ghost use Rattle.pdl_system.specs.Answers.{Since};
ghost use Rattle.pdl_system.specs.Files.{AreTold};
ghost use Rattle.pdl_cli_failure.specs.Texts.{Says};
ghost use Rattle.pdl_cli_commands.specs.Outcomes.{seen_of, Explains, Streamed};
ghost use Rattle.pdl_cli.specs.Top.{Allows, IsFew, Answers, Decides};

use pdl_cli_args::{CommandLine, read_line};
use pdl_cli_commands::{
    assembly_text, build, generate, run_in_turn, run_source, simulate, verdict, view_source, wave,
};
use pdl_cli_failure::{Failure, report, status_of};
use pdl_kit::sink::{Sink, write_whole};
use pdl_system::Files;
use std::alloc::Global;

// Writes a text that was made whole, if it was.
fn write_text<O: Sink>(text: Result<Vec<u8>, Failure>, out: &mut O) -> Result<(), Failure>
    ensures made { IfOk text (λ t. Streamed (λ bytes. bytes ≡ t.items) (O.written out.old)
        (O.written out.new) (O.faults out.old) (O.faults out.new) result) }
    ensures failed { IfErr text (λ f. (result ≡ Err f) × (O.written out.new ≡ O.written out.old)) }
    ensures written { O.faults out.old ≤ O.faults out.new }
{
    match text {
        Ok(text) => match write_whole(out, text.as_slice()) {
            Ok(()) => Ok(()),
            Err(_) => Err(Failure::WriteFault),
        },
        Err(failure) => Err(failure),
    }
}

// Does what a command asks for.
#[tactic(auto, using(pdl_cli_commands::proofs::Explanations::text_explains))]
fn obey_line<F: Files, O: Sink>(
    alloc: Global,
    line: CommandLine<'_>,
    files: &mut F,
    out: &mut O,
) -> Result<(), Failure>
    requires allowed { Allows (F.may files.old) (Some (view line)) }
    requires few { IsFew (view line) }
    ensures explained { Since (F.answers files.old) (F.answers files.new)
        (λ reads. Explains (Some (view line.entry))
        (seen_of reads (F.faults files.old) (F.faults files.new)
        (O.written out.old) (O.written out.new) (O.faults out.old) (O.faults out.new)) result) }
    ensures held { F.holds files.new ≡ F.holds files.old }
    ensures told { AreTold (F.holds files.old) (F.answers files.old)
        → AreTold (F.holds files.new) (F.answers files.new) }
    ensures allowed { (n : List ℕ) → F.may files.new n ≡ F.may files.old n }
    ensures later { F.faults files.old ≤ F.faults files.new }
    ensures written { O.faults out.old ≤ O.faults out.new }
{
    match line {
        CommandLine::Check { source } => write_text(verdict(alloc, files, source), out),
        CommandLine::Run {
            source,
            image,
            cycles,
            delays,
        } => run_source(alloc, files, source, image, cycles, delays, out),
        CommandLine::Seq {
            source,
            image,
            threads,
        } => run_in_turn(alloc, files, source, image, threads, out),
        CommandLine::Asm { table, text } => write_text(
            assembly_text(alloc, files, table, text),
            out,
        ),
        CommandLine::Gen { number } => write_text(generate(alloc, number), out),
        CommandLine::Build { source } => write_text(build(alloc, files, source), out),
        CommandLine::Sim {
            netlist,
            image,
            cycles,
            delays,
        } => simulate(alloc, files, netlist, image, cycles, delays, out),
        CommandLine::Wave {
            source,
            image,
            cycles,
            delays,
        } => wave(alloc, files, source, image, cycles, delays, out),
        CommandLine::View {
            source,
            image,
            cycles,
            delays,
        } => view_source(alloc, files, source, image, cycles, delays, out),
    }
}

// Does what the words ask for.
#[tactic(auto, using(crate::proofs::CycleLimits::few))]
fn obey<F: Files, O: Sink>(
    alloc: Global,
    words: &Vec<String>,
    files: &mut F,
    out: &mut O,
) -> Result<(), Failure>
    requires { Allows (F.may files.old) (line (map string_bytes words.now.items)) }
    ensures explained { Since (F.answers files.old) (F.answers files.new)
        (λ reads. Explains (line (map string_bytes words.now.items))
        (seen_of reads (F.faults files.old) (F.faults files.new)
        (O.written out.old) (O.written out.new) (O.faults out.old) (O.faults out.new)) result) }
    ensures held { F.holds files.new ≡ F.holds files.old }
    ensures told { AreTold (F.holds files.old) (F.answers files.old)
        → AreTold (F.holds files.new) (F.answers files.new) }
    ensures allowed { (n : List ℕ) → F.may files.new n ≡ F.may files.old n }
    ensures later { F.faults files.old ≤ F.faults files.new }
    ensures written { O.faults out.old ≤ O.faults out.new }
{
    match read_line(alloc, words.as_slice()) {
        Ok(line) => obey_line(alloc, line, files, out),
        Err(error) => Err(Failure::from(error)),
    }
}

/// Does all that the program does: reads the words after its name, the files that they name, writes to `out`, and says on `err` why it does not.
///
/// The files are read in the order of the words, each once, and none after one that is wrong or could not be read. The status that it answers is 0 where all was done; 1 where the words are no command; 2 where the first wrong file is refused; 3 where a file could not be read and the count of faults of the files rose, and 4 where that of `out` did, or where it stands at the last value of a `u64`; 5 where memory ran out, which no clause tells.
#[tactic(auto, using(crate::proofs::ExitStatus::answers_since))]
pub fn top<F: Files, O: Sink, E: Sink>(
    alloc: Global,
    words: &Vec<String>,
    files: &mut F,
    out: &mut O,
    err: &mut E,
) -> u8
    requires { Allows (F.may files.old) (line (map string_bytes words.now.items)) }
    // The status is that of an outcome that what was read, and is seen, explains; err has its text.
    ensures outcome { Since (F.answers files.old) (F.answers files.new)
        (λ reads. Answers (line (map string_bytes words.now.items))
        (seen_of reads (F.faults files.old) (F.faults files.new)
        (O.written out.old) (O.written out.new) (O.faults out.old) (O.faults out.new))
        (Says (E.written err.old) (E.written err.new) (E.faults err.old) (E.faults err.new))
        result) }
    // What was read, and is seen, decides the status, but that memory may have run out.
    ensures decided { Since (F.answers files.old) (F.answers files.new)
        (λ reads. Decides (line (map string_bytes words.now.items))
        (seen_of reads (F.faults files.old) (F.faults files.new)
        (O.written out.old) (O.written out.new) (O.faults out.old) (O.faults out.new)) result) }
    // The files hold what they held, and where they tell it, reads gave that.
    ensures held { F.holds files.new ≡ F.holds files.old }
    ensures told { AreTold (F.holds files.old) (F.answers files.old)
        → AreTold (F.holds files.new) (F.answers files.new) }
    // The same names may be read as before, and no count of faults falls.
    ensures allowed { (n : List ℕ) → F.may files.new n ≡ F.may files.old n }
    ensures later { F.faults files.old ≤ F.faults files.new }
    ensures written { O.faults out.old ≤ O.faults out.new }
    ensures said { E.faults err.old ≤ E.faults err.new }
{
    let outcome = obey(alloc, words, files, out);
    report(outcome, err);
    status_of(outcome)
}
