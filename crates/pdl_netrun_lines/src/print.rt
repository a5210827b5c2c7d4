// A run that is printed while it goes on, and one that is counted.
ghost use Rattle.std.specs.Prelude.{◌≡◌, ◌≤◌, ◌<◌, ◌+◌, ◌-◌, ◌++◌, ℕ, List, All, IfOk, length, map, vec_len, if◌then◌else◌};
ghost use Rattle.pdl_semantics.specs.Lines.{lines_from, lines, end_line as end_text};
ghost use Rattle.pdl_net.specs.Circuit.{circuit_of, outputs_of};
ghost use Rattle.pdl_law_parts.specs.Runs.{column_of, cycle_of, commit_mems, output_count};
ghost use Rattle.pdl_netrun_lines.specs.Printed.{AreOrdered, cycles_from, run_text, replies_of};
ghost use Rattle.pdl_net.specs.Pipe.{IsWellFormed};
ghost use Rattle.pdl_net.specs.Run.{nports};
ghost use Rattle.pdl_image.specs.Delays.{bits_in};
ghost use Rattle.pdl_image.specs.Images.{IsImage};
ghost use Rattle.pdl_netrun.specs.Sim.{run_after};
ghost use Rattle.pdl_netrun_lines.specs.Tally.{tallied_of, counts_of};
ghost use Rattle.pdl_kit.specs.Counts.{HasCause};
ghost use Rattle.pdl_trace.specs.Passed.{Passes, Streams};
ghost use Rattle.pdl_word.specs.Words.{widest};

use crate::commits::{commit_order, push_commits};
use pdl_image::{Delays, Image};
use pdl_kit::sink::{Sink, WriteFailed};
use pdl_kit::{MemInfo, NoMemory};
use pdl_net::{Dir, Netlist};
use pdl_netrun::Sim;
use pdl_trace::{LineOut, TextError, end_line};
use std::alloc::Global;

/// What a run is given besides its image: the replies of the delayed memories, cycle by cycle, and how many cycles it has.
#[derive(Clone, Copy)]
pub struct Schedule<'a> {
    pub delays: &'a Delays,
    pub cycles: u32,
}

/// How many cycles a run has had, in how many a thread ended, a request stayed unanswered, and a squash happened.
#[derive(Clone, Copy)]
pub struct RunCounts {
    pub ended: u32,
    pub waits: u32,
    pub squashes: u32,
}

// What is watched of a netlist while it runs: its memories, the numbers of those with a commit port in the order of these ports, and how many outputs there are.
#[derive(Clone, Copy)]
struct Probes<'a> {
    mems: &'a [MemInfo],
    order: &'a [usize],
    outputs: usize,
}

// One where it holds, else none.
fn one_if(holds: bool) -> u32
    ensures { result ≡ (if holds then 1 else 0) }
{
    if holds { 1 } else { 0 }
}

// Counts with the last cycle; `outputs` is how many outputs there are.
fn with_cycle(counts: RunCounts, sim: &Sim, outputs: usize) -> RunCounts
    requires outputs { outputs ≡ output_count sim.now.netlist }
    requires two { 2 ≤ outputs }
    requires room { (counts.ended < 1000000) × (counts.waits < 1000000)
        × (counts.squashes < 1000000) }
    ensures { result ≡ tallied_of counts (cycle_of sim.now.netlist sim.now.last) }
{
    RunCounts {
        ended: counts.ended + one_if(sim.port(outputs - 2) == 1),
        waits: counts.waits + one_if(sim.waited()),
        squashes: counts.squashes + one_if(sim.port(outputs - 1) == 1),
    }
}

// Runs the cycle of this number, with its reply bits.
fn run_cycle(sim: &mut Sim, delays: &Delays, number: u32)
    requires first { 1 ≤ number }
    requires few { number ≤ 1000000 }
    ensures { sim.new ≡ run_after sim.old (bits_in delays.now number) }
{
    sim.cycle(delays.bits(number));
}

// Runs cycles numbered from 1, with the reply bits of each, and passes on the lines of what they commit.
fn run_cycles<S: Sink>(
    out: &mut LineOut,
    sink: &mut S,
    sim: &mut Sim,
    probes: &Probes<'_>,
    schedule: &Schedule<'_>,
) -> Result<RunCounts, WriteFailed>
    requires mems { probes.now.mems.now ≡ sim.old.netlist.mems }
    requires order { AreOrdered sim.old.netlist probes.now.order.now }
    requires names { All (λ m. length m.name ≤ 32) probes.now.mems.now }
    requires widths { All (λ m. m.width ≤ widest) probes.now.mems.now }
    requires outputs { probes.now.outputs ≡ output_count sim.old.netlist }
    requires two { 2 ≤ probes.now.outputs }
    requires few { schedule.now.cycles ≤ 1000000 }
    ensures bytes { Passes (S.written sink.old) (S.written sink.new) result (out.old
        ++ lines_from 1 (map column_of (commit_mems sim.old.netlist))
        (cycles_from sim.old.netlist sim.old.held (replies_of schedule.now))) out.new }
    ensures counts { IfOk result
        (λ c. c ≡ counts_of (cycles_from sim.old.netlist sim.old.held (replies_of schedule.now))) }
    ensures cause { HasCause (S.faults sink.old) (S.faults sink.new) result }
{
    let mut counts = RunCounts {
        ended: 0,
        waits: 0,
        squashes: 0,
    };
    for done in 0..schedule.cycles {
        run_cycle(sim, schedule.delays, done + 1);
        push_commits(out, sink, done + 1, probes.mems, probes.order, sim)?;
        counts = with_cycle(counts, sim, probes.outputs);
    }
    Ok(counts)
}

// Passes on the lines of a run with this schedule.
#[tactic(auto, using(crate::proofs::RunSteps::run_length))]
fn push_run<S: Sink>(
    out: &mut LineOut,
    sink: &mut S,
    sim: &mut Sim,
    probes: &Probes<'_>,
    schedule: &Schedule<'_>,
) -> Result<(), WriteFailed>
    requires mems { probes.now.mems.now ≡ sim.old.netlist.mems }
    requires order { AreOrdered sim.old.netlist probes.now.order.now }
    requires names { All (λ m. length m.name ≤ 32) probes.now.mems.now }
    requires widths { All (λ m. m.width ≤ widest) probes.now.mems.now }
    requires outputs { probes.now.outputs ≡ output_count sim.old.netlist }
    requires two { 2 ≤ probes.now.outputs }
    requires few { schedule.now.cycles ≤ 1000000 }
    ensures bytes { Passes (S.written sink.old) (S.written sink.new) result (out.old
        ++ lines (map column_of (commit_mems sim.old.netlist))
        (cycles_from sim.old.netlist sim.old.held (replies_of schedule.now))) out.new }
    ensures cause { HasCause (S.faults sink.old) (S.faults sink.new) result }
{
    let counts = run_cycles(out, sink, sim, probes, schedule)?;
    let line = end_line(schedule.cycles, counts.ended, counts.waits, counts.squashes);
    out.push(sink, line.as_bytes())
}

// Writes the text of a run with this schedule while it runs, and takes no memory.
fn print_run<S: Sink>(
    sink: &mut S,
    sim: &mut Sim,
    probes: &Probes<'_>,
    schedule: &Schedule<'_>,
) -> Result<(), TextError>
    requires mems { probes.now.mems.now ≡ sim.old.netlist.mems }
    requires order { AreOrdered sim.old.netlist probes.now.order.now }
    requires names { All (λ m. length m.name ≤ 32) probes.now.mems.now }
    requires widths { All (λ m. m.width ≤ widest) probes.now.mems.now }
    requires outputs { probes.now.outputs ≡ output_count sim.old.netlist }
    requires two { 2 ≤ probes.now.outputs }
    requires few { schedule.now.cycles ≤ 1000000 }
    ensures text { Streams (S.written sink.old) (S.written sink.new)
        (S.faults sink.old) (S.faults sink.new)
        (lines (map column_of (commit_mems sim.old.netlist))
        (cycles_from sim.old.netlist sim.old.held (replies_of schedule.now))) result }
    ensures later { S.faults sink.old ≤ S.faults sink.new }
{
    let mut out = LineOut::new();
    push_run(&mut out, sink, sim, probes, schedule)?;
    match out.finish(sink) {
        Ok(()) => Ok(()),
        Err(_) => Err(TextError::WriteFailed),
    }
}

// Runs cycles with the reply bits of each, and counts them.
fn count_cycles(sim: &mut Sim, outputs: usize, schedule: &Schedule<'_>) -> RunCounts
    requires outputs { outputs ≡ output_count sim.old.netlist }
    requires two { 2 ≤ outputs }
    requires few { schedule.now.cycles ≤ 1000000 }
    ensures { result
        ≡ counts_of (cycles_from sim.old.netlist sim.old.held (replies_of schedule.now)) }
{
    let mut counts = RunCounts {
        ended: 0,
        waits: 0,
        squashes: 0,
    };
    for done in 0..schedule.cycles {
        run_cycle(sim, schedule.delays, done + 1);
        counts = with_cycle(counts, sim, outputs);
    }
    counts
}

// How many outputs a netlist has.
fn count_outputs(net: &Netlist) -> usize
    ensures { result ≡ output_count net.now }
{
    let mut count = 0;
    for port in net.ports.as_slice() {
        if let Dir::Out(_) = port.dir {
            count += 1;
        }
    }
    count
}

/// Writes the text of a run of a netlist, with this image and this schedule, while it runs: all memory is taken before the first byte.
///
/// `WriteFailed` comes only where the sink's count of faults rose, or stands at the last value of a `u64`; the sink then has a prefix of the text. On `NoMemory` it has what it had.
pub fn run<S: Sink>(
    alloc: Global,
    net: &Netlist,
    image: &Image,
    schedule: &Schedule<'_>,
    sink: &mut S,
) -> Result<(), TextError>
    requires well { IsWellFormed net.now }
    requires image { IsImage net.now.mems image.now }
    requires names { All (λ m. length m.name ≤ 32) net.now.mems }
    requires widths { All (λ m. m.width ≤ widest) net.now.mems }
    requires two { 2 ≤ output_count net.now }
    requires few { schedule.now.cycles ≤ 1000000 }
    ensures text { Streams (S.written sink.old) (S.written sink.new)
        (S.faults sink.old) (S.faults sink.new)
        (run_text net.now image.now (replies_of schedule.now)) result }
    ensures later { S.faults sink.old ≤ S.faults sink.new }
{
    let order = commit_order(alloc, net)?;
    let mut sim = Sim::new(alloc, net, image)?;
    let probes = Probes {
        mems: net.mems.as_slice(),
        order: &order,
        outputs: count_outputs(net),
    };
    print_run(sink, &mut sim, &probes, schedule)
}

/// The counts of a run of a netlist, with this image and this schedule.
pub fn count(
    alloc: Global,
    net: &Netlist,
    image: &Image,
    schedule: &Schedule<'_>,
) -> Result<RunCounts, NoMemory>
    requires well { IsWellFormed net.now }
    requires image { IsImage net.now.mems image.now }
    requires two { 2 ≤ output_count net.now }
    requires few { schedule.now.cycles ≤ 1000000 }
    ensures { IfOk result (λ c. c ≡ counts_of
        (map (cycle_of net.now) (nports net.now image.now (replies_of schedule.now)))) }
{
    let mut sim = Sim::new(alloc, net, image)?;
    Ok(count_cycles(&mut sim, count_outputs(net), schedule))
}
