// The run of a netlist held against the machine of its pipe, each output of each cycle, where memories answer late.
ghost use Rattle.std.specs.Prelude.{◌≡◌, ◌≤◌, ◌<◌, length, IfOk};
ghost use Rattle.pdl_syntax_tree.specs.View.{pipe_view};
ghost use Rattle.pdl_image.specs.Images.{IsImage};
ghost use Rattle.pdl_net.specs.Circuit.{circuit_of, outputs_of};
ghost use Rattle.pdl_net.specs.Pipe.{IsWellFormed};
ghost use Rattle.pdl_rules.specs.Memories.{infos_of};

use crate::delayed_chances::CHANCES;
use crate::delayed_runs::{BURSTS, DelayedCounts, DelayedRun, STEADY};
use crate::images::image_of;
use pdl_check::Accepted;
use pdl_check::check::check;
use pdl_image::{FileError, Image, read_image};
use pdl_kit::NoMemory;
use pdl_kit::files::LONGEST_FILE;
use pdl_machine::Machine;
use pdl_net::{Dir, Netlist};
use pdl_netrun::Sim;
use pdl_pipe::compile;
use std::alloc::Global;
use std::mem::drop;
use std::process::Abort;

// How many outputs a netlist has.
fn count_outputs(netlist: &Netlist) -> usize
    ensures { result ≡ length (outputs_of (circuit_of netlist.now)) }
{
    let mut count = 0;
    for port in netlist.ports.as_slice() {
        if let Dir::Out(_) = port.dir {
            count += 1;
        }
    }
    count
}

// Whether the machine shows in its last cycle what a netlist with so many outputs shows in its own.
fn shows_same(sim: &Sim<'_>, machine: &Machine<'_>, outputs: usize) -> bool
    requires { outputs ≡ length (outputs_of (circuit_of sim.now.netlist)) }
{
    if machine.port_count() != outputs {
        return false;
    }
    for i in 0..outputs {
        if sim.port(i) != machine.port(i) {
            return false;
        }
    }
    sim.waited() == machine.waited()
}

// The reply bit of a memory in a cycle, by its replies in all cycles, the first in the lowest bit.
fn reply_in(replies: u128, cycle: u32) -> u16
    requires { cycle < 128 }
    ensures { result ≤ 1 }
{
    if (replies >> cycle) % 2 == 1 { 1 } else { 0 }
}

// The reply bits of three memories in a cycle.
fn bits_in(replies: [u128; 3], cycle: u32) -> u16
    requires { cycle < 128 }
{
    let [first, second, third] = replies;
    reply_in(first, cycle) + 2 * reply_in(second, cycle) + 4 * reply_in(third, cycle)
}

// Counts with the machine's last cycle: whether a thread ended is its last output but one, and whether a guess was wrong the last.
fn with_cycle(counts: DelayedCounts, machine: &Machine<'_>) -> DelayedCounts {
    let outputs = machine.port_count();
    if outputs < 2 {
        return counts;
    }
    DelayedCounts {
        ended: counts
            .ended
            .saturating_add(u64::from(machine.port(outputs - 2) == 1)),
        waits: counts.waits.saturating_add(u64::from(machine.waited())),
        squashes: counts
            .squashes
            .saturating_add(u64::from(machine.port(outputs - 1) == 1)),
    }
}

// What 100 cycles of both count, with the replies of three memories in each, if both show the same in each.
fn counted(
    sim: &mut Sim<'_>,
    machine: &mut Machine<'_>,
    outputs: usize,
    replies: [u128; 3],
) -> Option<DelayedCounts>
    requires begun { machine.old.cycles ≡ 0 }
    requires outputs { outputs ≡ length (outputs_of (circuit_of sim.old.netlist)) }
{
    let mut counts = DelayedCounts::default();
    for cycle in 0..100_u32 {
        let bits = bits_in(replies, cycle);
        sim.cycle(bits);
        machine.cycle(bits);
        if !shows_same(sim, machine, outputs) {
            return None;
        }
        counts = with_cycle(counts, machine);
    }
    Some(counts)
}

// The image of a text for the memories of a netlist.
fn words_of(alloc: Global, netlist: &Netlist, text: &[u8]) -> Result<Image, FileError>
    requires well { IsWellFormed netlist.now }
    requires short { length text.now ≤ LONGEST_FILE }
    ensures { IfOk result (λ i. IsImage netlist.now.mems i) }
{
    read_image(alloc, netlist.mems.as_slice(), text)
}

// The same of a netlist and of an accepted pipe, from images for both.
fn counted_from(
    alloc: Global,
    netlist: &Netlist,
    words: &Image,
    accepted: &Accepted,
    image: &Image,
    replies: [u128; 3],
) -> Result<Option<DelayedCounts>, NoMemory>
    requires well { IsWellFormed netlist.now }
    requires words { IsImage netlist.now.mems words.now }
    requires image { IsImage (infos_of (pipe_view accepted.now.typed.pipe).mems) image.now }
{
    let mut sim = Sim::new(alloc, netlist, words)?;
    let mut machine = Machine::new(alloc, accepted, image)?;
    let outputs = count_outputs(netlist);
    Ok(counted(&mut sim, &mut machine, outputs, replies))
}

// The same of a netlist and its pipe, from the text of an image, if it is taken.
fn counted_with(
    alloc: Global,
    netlist: &Netlist,
    accepted: &Accepted,
    run: &DelayedRun,
) -> Option<DelayedCounts>
    requires well { IsWellFormed netlist.now }
    requires short { length run.now.image.now ≤ LONGEST_FILE }
{
    match words_of(alloc, netlist, run.image) {
        Ok(words) => match image_of(alloc, accepted, run.image) {
            Ok(image) => {
                counted_from(alloc, netlist, &words, accepted, &image, run.replies).ok()?
            }
            Err(_) => None,
        },
        Err(_) => None,
    }
}

// The same of an accepted pipe and the netlist that is compiled of it.
fn counted_of(alloc: Global, accepted: &Accepted, run: &DelayedRun) -> Option<DelayedCounts>
    requires { length run.now.image.now ≤ LONGEST_FILE }
{
    match compile(alloc, accepted) {
        Ok(netlist) => counted_with(alloc, &netlist, accepted, run),
        Err(_) => None,
    }
}

// Whether 100 cycles of a run show the same and count what they have to.
fn is_as_counted(alloc: Global, run: &DelayedRun) -> bool {
    if run.source.len() > 2000 || run.image.len() > 2000 {
        return false;
    }
    match check(alloc, run.source) {
        Ok(accepted) => {
            let counts = counted_of(alloc, &accepted, run);
            drop(accepted);
            counts == Some(run.counts)
        }
        Err(_) => false,
    }
}

fn ask_counted(rt: &impl Abort, alloc: Global, runs: &[DelayedRun]) {
    for run in runs {
        assert!(rt; is_as_counted(alloc, run));
    }
}

/// The netlists of pipes made at random show in each cycle what the machines of the pipes show: where every request is answered at once, or none is.
#[test]
fn shows_the_machines(rt: HostRuntime) {
    ask_counted(&rt, rt.alloc(), &STEADY);
}

/// The same where answers come in bursts.
#[test]
fn shows_the_machines_in_bursts(rt: HostRuntime) {
    ask_counted(&rt, rt.alloc(), &BURSTS);
}

/// The same where they come by chance.
#[test]
fn shows_the_machines_by_chance(rt: HostRuntime) {
    ask_counted(&rt, rt.alloc(), &CHANCES);
}
