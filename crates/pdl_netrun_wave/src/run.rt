// The dump of a run.
ghost use Rattle.std.specs.Prelude.{◌≡◌, ◌≤◌, ◌<◌, ◌+◌, ◌++◌, All, length, flat_map};
ghost use Rattle.pdl_kit.specs.Counts.{HasCause};
ghost use Rattle.pdl_trace.specs.Passed.{Passes, Streams};
ghost use Rattle.pdl_image.specs.Images.{IsImage};
ghost use Rattle.pdl_net.specs.Pipe.{IsWellFormed};
ghost use Rattle.pdl_net.specs.Run.{nports_from};
ghost use Rattle.pdl_netrun_lines.specs.Printed.{replies_of};
ghost use Rattle.pdl_wave.specs.Dump.{dump as dump_of, ended, header};
ghost use Rattle.pdl_netrun_wave.specs.Cycles.{cycles_text, AreDumpable, IsFit};
ghost use Rattle.pdl_netrun_wave.specs.Dumped.{wave_ports as ports_of, rows_of, run_dump, CanBeDumped};

use crate::cycles::push_cycle;
use crate::ports::wave_ports;
use pdl_image::Image;
use pdl_kit::Name;
use pdl_kit::sink::{Sink, WriteFailed};
use pdl_net::Netlist;
use pdl_netrun::Sim;
use pdl_netrun_lines::Schedule;
use pdl_trace::{LineOut, TextError};
use pdl_wave::{WavePort, header_line, time_line};
use pdl_word::Word;
use std::alloc::Global;

// What the header of a dump says: the name of the netlist, and its output ports.
#[derive(Clone, Copy)]
struct Heading<'a> {
    name: &'a Name,
    ports: &'a [WavePort],
}

// Passes on the header.
fn push_header<S: Sink>(
    out: &mut LineOut,
    sink: &mut S,
    heading: &Heading<'_>,
) -> Result<(), WriteFailed>
    requires name { length heading.now.name.now ≤ 64 }
    requires names { All (λ p. length p.name ≤ 64) heading.now.ports.now }
    requires few { length heading.now.ports.now < 8930 }
    ensures bytes { Passes (S.written sink.old) (S.written sink.new) result
        (out.old ++ flat_map ended (header heading.now.name.now heading.now.ports.now)) out.new }
    ensures cause { HasCause (S.faults sink.old) (S.faults sink.new) result }
{
    for k in 0..heading.ports.len() + 4 {
        let line = header_line(heading.name, heading.ports, k);
        out.push(sink, line.as_bytes())?;
    }
    Ok(())
}

// Runs cycles numbered from 1, with the reply bits of each, and passes on what is dumped of them.
fn push_cycles<S: Sink>(
    out: &mut LineOut,
    sink: &mut S,
    ports: &[WavePort],
    before: &mut [Word],
    sim: &mut Sim,
    schedule: &Schedule<'_>,
) -> Result<(), WriteFailed>
    requires dumpable { AreDumpable ports.now }
    requires own { ports.now ≡ ports_of sim.old.netlist }
    requires fit { IsFit sim.old.netlist sim.old.held }
    requires before { length before.old ≡ length ports.now }
    ensures bytes { Passes (S.written sink.old) (S.written sink.new) result
        (out.old ++ cycles_text ports.now 1 before.old
        (rows_of (nports_from sim.old.netlist sim.old.held (replies_of schedule.now)))) out.new }
    ensures cause { HasCause (S.faults sink.old) (S.faults sink.new) result }
{
    for done in 0..schedule.cycles {
        sim.cycle(schedule.delays.bits(done + 1));
        push_cycle(out, sink, ports, done + 1, before, sim)?;
    }
    Ok(())
}

// Passes on the whole dump of a run with this schedule.
fn push_dump<S: Sink>(
    out: &mut LineOut,
    sink: &mut S,
    heading: &Heading<'_>,
    before: &mut [Word],
    sim: &mut Sim,
    schedule: &Schedule<'_>,
) -> Result<(), WriteFailed>
    requires name { length heading.now.name.now ≤ 64 }
    requires names { All (λ p. length p.name ≤ 64) heading.now.ports.now }
    requires dumpable { AreDumpable heading.now.ports.now }
    requires own { heading.now.ports.now ≡ ports_of sim.old.netlist }
    requires fit { IsFit sim.old.netlist sim.old.held }
    requires before { length before.old ≡ length heading.now.ports.now }
    ensures bytes { Passes (S.written sink.old) (S.written sink.new) result
        (out.old ++ dump_of heading.now.name.now heading.now.ports.now
        (rows_of (nports_from sim.old.netlist sim.old.held (replies_of schedule.now)))) out.new }
    ensures cause { HasCause (S.faults sink.old) (S.faults sink.new) result }
{
    push_header(out, sink, heading)?;
    push_cycles(out, sink, heading.ports, before, sim, schedule)?;
    let line = time_line(u64::from(schedule.cycles) + 1);
    out.push(sink, line.as_bytes())
}

// Writes the dump of a run with this schedule while it runs, and takes no memory.
fn print_dump<S: Sink>(
    sink: &mut S,
    heading: &Heading<'_>,
    before: &mut [Word],
    sim: &mut Sim,
    schedule: &Schedule<'_>,
) -> Result<(), TextError>
    requires name { length heading.now.name.now ≤ 64 }
    requires names { All (λ p. length p.name ≤ 64) heading.now.ports.now }
    requires dumpable { AreDumpable heading.now.ports.now }
    requires own { heading.now.ports.now ≡ ports_of sim.old.netlist }
    requires fit { IsFit sim.old.netlist sim.old.held }
    requires before { length before.old ≡ length heading.now.ports.now }
    ensures text { Streams (S.written sink.old) (S.written sink.new)
        (S.faults sink.old) (S.faults sink.new)
        (dump_of heading.now.name.now heading.now.ports.now
        (rows_of (nports_from sim.old.netlist sim.old.held (replies_of schedule.now)))) result }
    ensures later { S.faults sink.old ≤ S.faults sink.new }
{
    let mut out = LineOut::new();
    push_dump(&mut out, sink, heading, before, sim, schedule)?;
    match out.finish(sink) {
        Ok(()) => Ok(()),
        Err(_) => Err(TextError::WriteFailed),
    }
}

/// Writes the value change dump of a run of a netlist, with this image and this schedule, while it runs: all memory is taken before the first byte.
///
/// The netlist has fewer than 8,930 output ports, and the names of these and its own have at most 64 bytes. `WriteFailed` comes only where the sink's count of faults rose, or stands at the last value of a `u64`; the sink then has a prefix of the dump. On `NoMemory` it has what it had.
pub fn dump<S: Sink>(
    alloc: Global,
    net: &Netlist,
    image: &Image,
    schedule: &Schedule<'_>,
    sink: &mut S,
) -> Result<(), TextError>
    requires well { IsWellFormed net.now }
    requires image { IsImage net.now.mems image.now }
    requires dumpable { CanBeDumped net.now }
    ensures text { Streams (S.written sink.old) (S.written sink.new)
        (S.faults sink.old) (S.faults sink.new)
        (run_dump net.now image.now (replies_of schedule.now)) result }
    ensures later { S.faults sink.old ≤ S.faults sink.new }
{
    let ports = wave_ports(alloc, net)?;
    let mut before = vec![in alloc; 0; ports.len()]?;
    let mut sim = Sim::new(alloc, net, image)?;
    let heading = Heading {
        name: &net.name,
        ports: &ports,
    };
    print_dump(sink, &heading, &mut before, &mut sim, schedule)
}
