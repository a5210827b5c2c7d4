// The threads that come into a stage out of other ones.
ghost use Rattle.std.specs.Prelude.{◌≡◌, ◌<◌, ◌≤◌, IfOk, OnOk, length};
ghost use Rattle.pdl_machine_facts.specs.Slots.{ways};
ghost use Rattle.pdl_net.specs.Signal.{mux_signal};
ghost use Rattle.pdl_net.specs.Meaning.{Means, signal};
ghost use Rattle.pdl_net.specs.HasWidth.{HasWidth};
ghost use Rattle.pdl_net.specs.Growth.{Extends};
ghost use Rattle.pdl_pipe_exprs.specs.Conditions.{AreBits};
ghost use Rattle.pdl_pipe_nexts.specs.Lines.{bit_signal, line_pipe, line_views, line_moves, IsLineIn};
ghost use Rattle.pdl_pipe_nexts.specs.Arrivals.{Comes, AreArrivals};

use crate::line::{StageLine, stage_of};
use pdl_build::Builder;
use pdl_form::Next;
use pdl_kit::{NoMemory, Seq};
use pdl_net::Net;
use pdl_pipe_exprs::Bits;
use pdl_pipe_exprs::exprs::variable;
use pdl_pipe_registers::{next_of, ways_into};
use std::alloc::Global;

/// A thread that may come into a stage: the stage that it comes out of, and whether it comes, 1 bit.
#[derive(Clone, Copy)]
pub struct Arrival {
    pub from: usize,
    pub comes: Net,
}

// A bit that never changes.
fn bit(b: &Builder, bits: Bits, on: bool) -> Net
    requires bits { AreBits b.now bits }
    ensures { Means b.now result (bit_signal on) }
{
    let _regs = b.reg_count();
    if on { bits.one } else { bits.zero }
}

// Whether the thread of a stage that forks goes to stage q, by the net of its condition.
fn way(b: &mut Builder, bits: Bits, choice: Net, first: bool, second: bool) -> Result<Net, NoMemory>
    requires bits { AreBits b.old bits }
    requires choice { HasWidth b.old choice 1 }
    ensures means { IfOk result (λ y.
        Means b.new y (mux_signal (signal b.old choice) (bit_signal first) (bit_signal second))) }
    ensures one { IfOk result (λ y. (signal b.new y).width ≡ 1) }
    ensures extends { Extends b.old b.new }
    ensures regs { b.new.regs ≡ b.old.regs }
{
    let yes = bit(b, bits, first);
    let no = bit(b, bits, second);
    b.mux(choice, yes, no)
}

// Whether the thread of stage j moves to stage q.
fn comes(b: &mut Builder, line: &StageLine<'_>, j: usize, q: usize) -> Result<Net, NoMemory>
    requires line { IsLineIn b.old line.now }
    requires low { j < length (line_pipe line.now).stages }
    ensures arrives { IfOk result (λ y. Comes b.new (line_pipe line.now)
        (line_views b.old line.now) (line_moves b.old line.now) q j y) }
    ensures extends { Extends b.old b.new }
    ensures regs { b.new.regs ≡ b.old.regs }
{
    let own = variable(b, line.moves, j);
    let bits = line.shared.bits;
    match next_of(line.pipe, j) {
        Next::Goes(to) if to == q => Ok(own),
        Next::Ends | Next::Goes(_) => Ok(bits.zero),
        Next::Forks { x, first, second } => {
            let s = stage_of(line, j);
            let choice = variable(b, s.end.vars.as_slice(), x);
            let to = way(b, bits, choice, first == q, second == q)?;
            let on = bits.both(b, own, to)?;
            Ok(on)
        }
    }
}

/// The threads that may come into stage q out of other ones, those of the lower stages first.
pub fn threads_into(
    alloc: Global,
    b: &mut Builder,
    line: &StageLine<'_>,
    q: usize,
) -> Result<Seq<Arrival>, NoMemory>
    requires line { IsLineIn b.old line.now }
    requires low { q < length (line_pipe line.now).stages }
    ensures arrivals { IfOk result (λ as'. AreArrivals b.new (line_pipe line.now)
        (line_views b.old line.now) (line_moves b.old line.now) q
        (ways (line_pipe line.now) q) as') }
    ensures extends { Extends b.old b.new }
    ensures regs { b.new.regs ≡ b.old.regs }
{
    let ways = ways_into(alloc, line.pipe, q)?;
    let mut list = Seq::new(alloc);
    for j in ways.as_slice() {
        let net = comes(b, line, *j, q)?;
        list.push(Arrival {
            from: *j,
            comes: net,
        })?;
    }
    Ok(list)
}
