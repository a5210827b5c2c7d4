// What a sequential run prints.
ghost use Rattle.std.specs.Prelude.{◌≡◌, ◌≤◌, ◌<◌, ◌++◌, ◌^◌, ◌-◌, ℕ, List, All, true, Ok, Err, MatchResult, length, map, codes, decimal};
ghost use Rattle.std.specs.List.{flat_map};
ghost use Rattle.pdl_kit.specs.Counts.{HasCause};
ghost use Rattle.pdl_syntax_tree.specs.View.{pipe_view};
ghost use Rattle.pdl_semantics.specs.Flat.{arrays_of};
ghost use Rattle.pdl_semantics.specs.Lines.{seq_lines};
ghost use Rattle.pdl_semantics.specs.Sequential as meaning;
ghost use Rattle.pdl_cli_failure.specs.declared.failure.Failure.TheVariants.{WriteFault};
ghost use Rattle.pdl_form.specs.FormView.{form};
ghost use Rattle.pdl_image.specs.Images.{IsImage};
ghost use Rattle.pdl_law_parts.specs.Runs.{column_of};
ghost use Rattle.pdl_seq.specs.Runs.{HasRun, numbered_writes, write_line};
ghost use Rattle.pdl_trace.specs.Passed.{Passes, WritesText};
ghost use Rattle.pdl_cli_commands.specs.Commands.{IsAccepted};
ghost use Rattle.pdl_cli_commands.specs.Outcomes.{Streamed};
ghost use Rattle.pdl_rules.specs.Memories.{infos_of};
ghost use Rattle.pdl_word.specs.Words.{widest};

use pdl_check::Accepted;
use pdl_cli_failure::Failure;
use pdl_image::Image;
use pdl_kit::MemInfo;
use pdl_kit::sink::{Sink, WriteFailed};
use pdl_seq::{SeqRun, Write};
use pdl_trace::{LineOut, commit_line, threads_line};
use std::alloc::Global;

// The line of a write.
fn push_write<O: Sink>(
    lines: &mut LineOut,
    out: &mut O,
    mems: &[MemInfo],
    write: Write,
) -> Result<(), WriteFailed>
    requires names { All (λ m. length m.name ≤ 32) mems.now }
    requires widths { All (λ m. m.width ≤ widest) mems.now }
    requires there { write.mem < length mems.now }
    ensures bytes { Passes (O.written out.old) (O.written out.new) result
        (lines.old ++ write_line (map column_of mems.now) write) lines.new }
    ensures cause { HasCause (O.faults out.old) (O.faults out.new) result }
{
    let mem = &mems[write.mem];
    let address = u64::from(write.addr);
    let line = commit_line(write.thread, &mem.name, address, write.value, mem.width);
    lines.push(out, line.as_bytes())
}

// The lines of writes.
fn push_writes<O: Sink>(
    lines: &mut LineOut,
    out: &mut O,
    mems: &[MemInfo],
    writes: &[Write],
) -> Result<(), WriteFailed>
    requires names { All (λ m. length m.name ≤ 32) mems.now }
    requires widths { All (λ m. m.width ≤ widest) mems.now }
    requires there { All (λ w. w.mem < length mems.now) writes.now }
    ensures bytes { Passes (O.written out.old) (O.written out.new) result
        (lines.old ++ flat_map (write_line (map column_of mems.now)) writes.now) lines.new }
    ensures cause { HasCause (O.faults out.old) (O.faults out.new) result }
{
    for write in writes {
        push_write(lines, out, mems, *write)?;
    }
    Ok(())
}

// Runs so many threads, the first ones, and passes on the lines of their writes.
fn push_threads<O: Sink>(
    lines: &mut LineOut,
    out: &mut O,
    run: &mut SeqRun<'_>,
    mems: &[MemInfo],
    threads: u32,
) -> Result<(), WriteFailed>
    requires names { All (λ m. length m.name ≤ 32) mems.now }
    requires widths { All (λ m. m.width ≤ widest) mems.now }
    requires mems { length (form run.old.pipe).pipe.mems ≡ length mems.now }
    requires first { run.old.run ≡ 0 }
    requires streams { run.old.streams ≡ true }
    requires room { run.old.threads ≡ 2 ^ 32 - 1 }
    ensures bytes { (image : List (List ℕ)) → HasRun run.old image
        → Passes (O.written out.old) (O.written out.new) result
        (lines.old ++ flat_map (write_line (map column_of mems.now))
        (numbered_writes 1 (meaning.threads (form run.old.pipe).pipe (arrays_of image) threads)))
        lines.new }
    ensures cause { HasCause (O.faults out.old) (O.faults out.new) result }
{
    for _done in 0..threads {
        run.next_thread();
        push_writes(lines, out, mems, run.writes())?;
    }
    Ok(())
}

// Passes on the lines of a run of so many threads, the first ones.
fn push_run<O: Sink>(
    lines: &mut LineOut,
    out: &mut O,
    run: &mut SeqRun<'_>,
    mems: &[MemInfo],
    threads: u32,
) -> Result<(), WriteFailed>
    requires names { All (λ m. length m.name ≤ 32) mems.now }
    requires widths { All (λ m. m.width ≤ widest) mems.now }
    requires mems { length (form run.old.pipe).pipe.mems ≡ length mems.now }
    requires first { run.old.run ≡ 0 }
    requires streams { run.old.streams ≡ true }
    requires room { run.old.threads ≡ 2 ^ 32 - 1 }
    ensures bytes { (image : List (List ℕ)) → HasRun run.old image
        → Passes (O.written out.old) (O.written out.new) result (lines.old
        ++ (flat_map (write_line (map column_of mems.now))
        (numbered_writes 1 (meaning.threads (form run.old.pipe).pipe (arrays_of image) threads))
        ++ codes "end threads " ++ decimal threads ++ codes "\n"))
        lines.new }
    ensures cause { HasCause (O.faults out.old) (O.faults out.new) result }
{
    push_threads(lines, out, run, mems, threads)?;
    let line = threads_line(threads);
    lines.push(out, line.as_bytes())
}

// Writes the text of a run of so many threads, the first ones, while it runs, and takes no memory.
fn print_run<O: Sink>(
    out: &mut O,
    run: &mut SeqRun<'_>,
    mems: &[MemInfo],
    threads: u32,
) -> Result<(), WriteFailed>
    requires names { All (λ m. length m.name ≤ 32) mems.now }
    requires widths { All (λ m. m.width ≤ widest) mems.now }
    requires mems { length (form run.old.pipe).pipe.mems ≡ length mems.now }
    requires first { run.old.run ≡ 0 }
    requires streams { run.old.streams ≡ true }
    requires room { run.old.threads ≡ 2 ^ 32 - 1 }
    ensures bytes { (image : List (List ℕ)) → HasRun run.old image
        → WritesText (O.written out.old) (O.written out.new) result
        (flat_map (write_line (map column_of mems.now))
        (numbered_writes 1 (meaning.threads (form run.old.pipe).pipe (arrays_of image) threads))
        ++ codes "end threads " ++ decimal threads ++ codes "\n") }
    ensures cause { HasCause (O.faults out.old) (O.faults out.new) result }
{
    let mut lines = LineOut::new();
    push_run(&mut lines, out, run, mems, threads)?;
    lines.finish(out)
}

// What came of a text whose memory was there.
fn in_writing(outcome: Result<(), WriteFailed>) -> Result<(), Failure>
    ensures { MatchResult outcome (λ x. result ≡ Ok x) (λ e. result ≡ Err WriteFault) }
{
    match outcome {
        Ok(()) => Ok(()),
        Err(_) => Err(Failure::WriteFault),
    }
}

/// Writes the text of a sequential run of an accepted pipe from an image while it runs: the writes of so many threads, and how many they were. All memory is taken before the first byte.
pub fn sequential<O: Sink>(
    alloc: Global,
    accepted: &Accepted,
    image: &Image,
    threads: u32,
    out: &mut O,
) -> Result<(), Failure>
    requires accepted { (b : List ℕ) × IsAccepted b (pipe_view accepted.now.typed.pipe) }
    requires image { IsImage (infos_of (pipe_view accepted.now.typed.pipe).mems) image.now }
    ensures text { Streamed
        (λ t. t ≡ seq_lines (pipe_view accepted.now.typed.pipe) image.now threads)
        (O.written out.old) (O.written out.new) (O.faults out.old) (O.faults out.new) result }
    ensures written { O.faults out.old ≤ O.faults out.new }
{
    pdl_seq::lines();
    match SeqRun::streaming(alloc, accepted, image) {
        Ok(mut run) => in_writing(print_run(out, &mut run, accepted.mems(), threads)),
        Err(_) => Err(Failure::NoMemory),
    }
}
