// The run whose stages are shown.
ghost use Rattle.std.specs.Prelude.{◌≡◌, ◌≤◌, ◌++◌, length};
ghost use Rattle.pdl_kit.specs.Counts.{HasCause};
ghost use Rattle.pdl_trace.specs.Passed.{Passes, Streams};
ghost use Rattle.pdl_syntax_tree.specs.View.{pipe_view};
ghost use Rattle.pdl_rules.specs.Memories.{infos_of};
ghost use Rattle.pdl_image.specs.Images.{IsImage};
ghost use Rattle.pdl_netrun_lines.specs.Printed.{schedule};
ghost use Rattle.pdl_machine.specs.Running.{flat_of, state_of};
ghost use Rattle.pdl_machine_view.specs.Lines.{lines_from};
ghost use Rattle.pdl_machine_view.specs.Viewed.{view_text};

use crate::lines::push_line;
use pdl_image::{Delays, Image};
use pdl_kit::sink::{Sink, WriteFailed};
use pdl_machine::{Accepted, Machine};
use pdl_trace::{LineOut, TextError};
use std::alloc::Global;

// Runs a machine for so many cycles from its start, with the reply bits of each, and passes on the line of each.
fn push_cycles<S: Sink>(
    out: &mut LineOut,
    sink: &mut S,
    machine: &mut Machine<'_>,
    stages: usize,
    delays: &Delays,
    cycles: u32,
) -> Result<(), WriteFailed>
    requires start { machine.old.cycles ≡ 0 }
    requires stages { stages ≡ length (flat_of machine.old).stages }
    requires few_stages { stages ≤ 64 }
    requires few { cycles ≤ 1000000 }
    ensures bytes { Passes (S.written sink.old) (S.written sink.new) result
        (out.old ++ lines_from 1 (flat_of machine.old) (state_of machine.old)
        (schedule delays.now cycles)) out.new }
    ensures cause { HasCause (S.faults sink.old) (S.faults sink.new) result }
{
    for done in 0..cycles {
        machine.cycle(delays.bits(done + 1));
        push_line(out, sink, done + 1, machine, stages)?;
    }
    Ok(())
}

// Writes the lines of a machine that runs for so many cycles while it runs, and takes no memory.
fn print_view<S: Sink>(
    sink: &mut S,
    machine: &mut Machine<'_>,
    stages: usize,
    delays: &Delays,
    cycles: u32,
) -> Result<(), TextError>
    requires start { machine.old.cycles ≡ 0 }
    requires stages { stages ≡ length (flat_of machine.old).stages }
    requires few_stages { stages ≤ 64 }
    requires few { cycles ≤ 1000000 }
    ensures text { Streams (S.written sink.old) (S.written sink.new)
        (S.faults sink.old) (S.faults sink.new)
        (lines_from 1 (flat_of machine.old) (state_of machine.old) (schedule delays.now cycles))
        result }
    ensures later { S.faults sink.old ≤ S.faults sink.new }
{
    let mut out = LineOut::new();
    push_cycles(&mut out, sink, machine, stages, delays, cycles)?;
    match out.finish(sink) {
        Ok(()) => Ok(()),
        Err(_) => Err(TextError::WriteFailed),
    }
}

/// Writes the view of a run of an accepted pipe, with this image and the reply bits of these delays, for so many cycles, while its machine runs: all memory is taken before the first byte.
///
/// `WriteFailed` comes only where the sink's count of faults rose, or stands at the last value of a `u64`; the sink then has a prefix of the text. On `NoMemory` it has what it had.
pub fn view<S: Sink>(
    alloc: Global,
    accepted: &Accepted,
    image: &Image,
    delays: &Delays,
    cycles: u32,
    sink: &mut S,
) -> Result<(), TextError>
    requires image { IsImage (infos_of (pipe_view accepted.now.typed.pipe).mems) image.now }
    requires few { cycles ≤ 1000000 }
    ensures text { Streams (S.written sink.old) (S.written sink.new)
        (S.faults sink.old) (S.faults sink.new)
        (view_text (pipe_view accepted.now.typed.pipe) image.now
        (schedule delays.now cycles)) result }
    ensures later { S.faults sink.old ≤ S.faults sink.new }
{
    let mut machine = Machine::new(alloc, accepted, image)?;
    let stages = accepted.graph().count();
    print_view(sink, &mut machine, stages, delays, cycles)
}
