// The lines of what the memories commit in a cycle, in the order of their commit ports.
ghost use Rattle.std.specs.Prelude.{◌≡◌, ◌≤◌, ◌<◌, ◌++◌, All, IfOk, IfSome, length, map, position, bytes_eq, codes};
ghost use Rattle.pdl_kit.specs.Counts.{HasCause};
ghost use Rattle.pdl_semantics.specs.Lines.{mem_lines, cycle_lines};
ghost use Rattle.pdl_law_parts.specs.Runs.{column_of, puts_of, cycle_of, commit_mems};
ghost use Rattle.pdl_netrun_lines.specs.Printed.{AreOrdered};
ghost use Rattle.pdl_trace.specs.Passed.{Passes};
ghost use Rattle.pdl_word.specs.Words.{widest};

use pdl_kit::sink::{Sink, WriteFailed};
use pdl_kit::{MemInfo, Name, NoMemory};
use pdl_net::{Dir, Netlist};
use pdl_netrun::Sim;
use pdl_trace::{LineOut, commit_line};
use pdl_word::Word;
use std::alloc::Global;

// Whether a port of this name is the one by which a memory of that name commits.
fn is_commit_port(port: &[u8], mem: &Name) -> bool
    ensures { result ≡ bytes_eq port.now (codes "c_" ++ mem.now) }
{
    match port.strip_prefix(b"c_") {
        Some(name) => name == mem.as_bytes(),
        None => false,
    }
}

// The number of the memory whose commit port has this name.
fn committing(mems: &[MemInfo], port: &[u8]) -> Option<usize>
    ensures value { result ≡ position (λ m. bytes_eq port.now (codes "c_" ++ m.name)) mems.now }
    ensures within { IfSome result (λ i. i < length mems.now) }
{
    mems.iter().position(|mem| is_commit_port(port, &mem.name))
}

/// The numbers of the memories with a commit port, in the order of these ports.
pub fn commit_order(alloc: Global, net: &Netlist) -> Result<Vec<usize>, NoMemory>
    ensures { IfOk result (λ v. AreOrdered net.now v.items) }
{
    let mut order = Vec::new(alloc);
    for port in net.ports.as_slice() {
        if let Dir::Out(_) = port.dir {
            if let Some(mem) = committing(net.mems.as_slice(), port.name.as_bytes()) {
                order.push(mem)?;
            }
        }
    }
    Ok(order)
}

// The line of a commit of a memory in a cycle of this number, if there is one.
#[tactic(auto, using(pdl_trace::proofs::BytePieces::nothing_more))]
fn push_commit<S: Sink>(
    out: &mut LineOut,
    sink: &mut S,
    cycle: u32,
    mem: &MemInfo,
    commit: Option<(u64, Word)>,
) -> Result<(), WriteFailed>
    requires name { length mem.now.name ≤ 32 }
    requires width { mem.now.width ≤ widest }
    ensures bytes { Passes (S.written sink.old) (S.written sink.new) result
        (out.old ++ mem_lines cycle (column_of mem.now) (puts_of commit)) out.new }
    ensures cause { HasCause (S.faults sink.old) (S.faults sink.new) result }
{
    match commit {
        Some((address, value)) => {
            let line = commit_line(cycle, &mem.name, address, value, mem.width);
            out.push(sink, line.as_bytes())
        }
        None => Ok(()),
    }
}

// The lines of what one memory commits in a cycle of this number: the first commit before the second.
fn push_memory<S: Sink>(
    out: &mut LineOut,
    sink: &mut S,
    cycle: u32,
    mem: &MemInfo,
    first: Option<(u64, Word)>,
    second: Option<(u64, Word)>,
) -> Result<(), WriteFailed>
    requires name { length mem.now.name ≤ 32 }
    requires width { mem.now.width ≤ widest }
    ensures bytes { Passes (S.written sink.old) (S.written sink.new) result
        (out.old ++ mem_lines cycle (column_of mem.now) (puts_of first ++ puts_of second))
        out.new }
    ensures cause { HasCause (S.faults sink.old) (S.faults sink.new) result }
{
    push_commit(out, sink, cycle, mem, first)?;
    push_commit(out, sink, cycle, mem, second)
}

/// The lines of what the memories commit in the last cycle, which has this number.
pub fn push_commits<S: Sink>(
    out: &mut LineOut,
    sink: &mut S,
    cycle: u32,
    mems: &[MemInfo],
    order: &[usize],
    sim: &Sim,
) -> Result<(), WriteFailed>
    requires mems { mems.now ≡ sim.now.netlist.mems }
    requires order { AreOrdered sim.now.netlist order.now }
    requires names { All (λ m. length m.name ≤ 32) mems.now }
    requires widths { All (λ m. m.width ≤ widest) mems.now }
    ensures bytes { Passes (S.written sink.old) (S.written sink.new) result
        (out.old ++ cycle_lines cycle (map column_of (commit_mems sim.now.netlist))
        (cycle_of sim.now.netlist sim.now.last).puts) out.new }
    ensures cause { HasCause (S.faults sink.old) (S.faults sink.new) result }
{
    for i in order {
        push_memory(out, sink, cycle, &mems[*i], sim.commit(*i), sim.commit2(*i))?;
    }
    Ok(())
}
