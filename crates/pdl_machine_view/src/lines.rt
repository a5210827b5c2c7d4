// The line of a cycle.
ghost use Rattle.std.specs.Prelude.{◌≡◌, ◌≤◌, ◌<◌, ◌+◌, ◌*◌, ◌++◌, codes, decimal, length};
ghost use Rattle.pdl_kit.specs.Counts.{HasCause};
ghost use Rattle.pdl_trace.specs.Passed.{Passes};
ghost use Rattle.pdl_machine_view.specs.Lines.{letter_at, letters_from, cycle_line};

use itoa::Buffer;
use pdl_kit::sink::{Sink, WriteFailed};
use pdl_machine::Machine;
use pdl_trace::LineOut;

// The letter of a stage in the last cycle: `.` where it held no thread, `M` where its thread moved, `S` where that stood.
fn letter(machine: &Machine<'_>, stage: usize) -> u8
    requires shown { 2 * stage + 1 < length machine.now.shown }
    requires few { stage < 64 }
    ensures { result ≡ letter_at machine.now.shown stage }
{
    let holds = machine.port(2 * stage) == 1;
    let moves = machine.port(2 * stage + 1) == 1;
    match (holds, moves) {
        (false, _) => b'.',
        (true, true) => b'M',
        (true, false) => b'S',
    }
}

// Passes on a number and a space.
fn push_number<S: Sink>(out: &mut LineOut, sink: &mut S, number: u32) -> Result<(), WriteFailed>
    ensures bytes { Passes (S.written sink.old) (S.written sink.new) result
        (out.old ++ (decimal number ++ codes " ")) out.new }
    ensures cause { HasCause (S.faults sink.old) (S.faults sink.new) result }
{
    let mut buffer = Buffer::new();
    out.push(sink, buffer.format(number).as_bytes())?;
    out.push(sink, b" ")
}

// Passes on the letter of each stage in the last cycle.
fn push_letters<S: Sink>(
    out: &mut LineOut,
    sink: &mut S,
    machine: &Machine<'_>,
    stages: usize,
) -> Result<(), WriteFailed>
    requires shown { 2 * stages ≤ length machine.now.shown }
    requires few { stages ≤ 64 }
    ensures bytes { Passes (S.written sink.old) (S.written sink.new) result
        (out.old ++ letters_from machine.now.shown 0 stages) out.new }
    ensures cause { HasCause (S.faults sink.old) (S.faults sink.new) result }
{
    for stage in 0..stages {
        out.push(sink, &[letter(machine, stage)])?;
    }
    Ok(())
}

// Passes on these letters and the line feed.
fn push_stages<S: Sink>(
    out: &mut LineOut,
    sink: &mut S,
    machine: &Machine<'_>,
    stages: usize,
) -> Result<(), WriteFailed>
    requires shown { 2 * stages ≤ length machine.now.shown }
    requires few { stages ≤ 64 }
    ensures bytes { Passes (S.written sink.old) (S.written sink.new) result
        (out.old ++ (letters_from machine.now.shown 0 stages ++ codes "\n")) out.new }
    ensures cause { HasCause (S.faults sink.old) (S.faults sink.new) result }
{
    push_letters(out, sink, machine, stages)?;
    out.push(sink, b"\n")
}

/// Passes on the line of the last cycle, which has this number, with a letter for each of so many stages.
pub fn push_line<S: Sink>(
    out: &mut LineOut,
    sink: &mut S,
    cycle: u32,
    machine: &Machine<'_>,
    stages: usize,
) -> Result<(), WriteFailed>
    requires shown { 2 * stages ≤ length machine.now.shown }
    requires few { stages ≤ 64 }
    ensures bytes { Passes (S.written sink.old) (S.written sink.new) result
        (out.old ++ cycle_line cycle machine.now.shown stages) out.new }
    ensures cause { HasCause (S.faults sink.old) (S.faults sink.new) result }
{
    push_number(out, sink, cycle)?;
    push_stages(out, sink, machine, stages)
}
