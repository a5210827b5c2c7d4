// What lets the thread of a stage move, beside the locks and the stages after it.
ghost use Rattle.std.specs.Prelude.{◌≡◌, ◌<◌, IfOk, length};
ghost use Rattle.pdl_net.specs.Growth.{Extends};
ghost use Rattle.pdl_pipe_exprs.specs.Nets.{signals_in, signal_at};
ghost use Rattle.pdl_pipe_answers.specs.Ports.{IsBit, IsBitFor};
ghost use Rattle.pdl_pipe_nexts.specs.Lines.{line_pipe, line_views, IsLineIn};
ghost use Rattle.pdl_pipe_moves.specs.Inside.{LeadsInside};
ghost use Rattle.pdl_pipe_moves.specs.Signs.{gate_by, path_by, signs_by, IsControlled};
ghost use Rattle.pdl_word.specs.Each.{Each};

use crate::gates::{barrier_open, ports_open, unsquashed};
use crate::ways::way_turn;
use pdl_build::Builder;
use pdl_kit::NoMemory;
use pdl_net::Net;
use pdl_order::OrderRegs;
use pdl_pipe_answers::{all_answered, both_bits};
use pdl_pipe_beside::Squashes;
use pdl_pipe_exprs::exprs::variable;
use pdl_pipe_nexts::StageLine;
use pdl_pipe_nexts::line::stage_of;

/// What the gates of stages go by: the orders of the forks, by the stages that fork, whether a squash happens by one stage or another, and of each stage whether no later one up to the one that verifies holds a thread, 1 bit each.
#[derive(Clone, Copy)]
pub struct Controls<'a> {
    pub orders: &'a [Option<OrderRegs>],
    pub squashes: Squashes,
    pub clear: &'a [Net],
}

// Whether the ports of the thread of stage k are free, no barrier holds it, and it is its turn.
fn path_open(
    b: &mut Builder,
    line: &StageLine<'_>,
    controls: &Controls<'_>,
    frees: &[Net],
    k: usize,
) -> Result<Net, NoMemory>
    requires line { IsLineIn b.old line.now }
    requires inside { LeadsInside (line_pipe line.now) }
    requires controls { IsControlled b.old (line_pipe line.now) controls.now }
    requires count { length frees.now ≡ length (line_pipe line.now).mems }
    requires frees { Each (IsBit b.old) frees.now }
    requires low { k < length (line_pipe line.now).stages }
    ensures on { IfOk result (λ y. IsBitFor b.new y (path_by (line_pipe line.now)
        (line_views b.old line.now) (signs_by b.old line.now controls.now)
        (signal_at (signals_in b.old frees.now)) k)) }
    ensures extends { Extends b.old b.new }
    ensures regs { b.new.regs ≡ b.old.regs }
{
    let bits = line.shared.bits;
    let s = stage_of(line, k);
    let turn = way_turn(b, line, controls.orders, k)?;
    let clear = variable(b, controls.clear, k);
    let barrier = barrier_open(b, line.pipe, bits, k, s.end.barrier, clear)?;
    let later = both_bits(b, bits, barrier, turn)?;
    let ports = ports_open(b, bits, s.end.asks.as_slice(), frees)?;
    let path = both_bits(b, bits, ports, later)?;
    Ok(path)
}

/// Whether what stands beside the stages lets the thread of stage k move, 1 bit: it awaits no answer, no squash keeps it, its ports are free, no barrier holds it, and it is its turn. `frees` tells of each memory whether its port is free.
pub fn gate(
    b: &mut Builder,
    line: &StageLine<'_>,
    controls: &Controls<'_>,
    frees: &[Net],
    k: usize,
) -> Result<Net, NoMemory>
    requires line { IsLineIn b.old line.now }
    requires inside { LeadsInside (line_pipe line.now) }
    requires controls { IsControlled b.old (line_pipe line.now) controls.now }
    requires count { length frees.now ≡ length (line_pipe line.now).mems }
    requires frees { Each (IsBit b.old) frees.now }
    requires low { k < length (line_pipe line.now).stages }
    ensures on { IfOk result (λ y. IsBitFor b.new y (gate_by (line_pipe line.now)
        (line_views b.old line.now) (signs_by b.old line.now controls.now)
        (signal_at (signals_in b.old frees.now)) k)) }
    ensures extends { Extends b.old b.new }
    ensures regs { b.new.regs ≡ b.old.regs }
{
    let bits = line.shared.bits;
    let path = path_open(b, line, controls, frees, k)?;
    let unsquashed = unsquashed(b, line.pipe, bits, k, controls.squashes)?;
    let passes = both_bits(b, bits, unsquashed, path)?;
    let answered = all_answered(b, line.pipe, bits, line.shared.ports, k)?;
    let gate = both_bits(b, bits, answered, passes)?;
    Ok(gate)
}
