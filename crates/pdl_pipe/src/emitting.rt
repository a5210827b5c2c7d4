// All nets of a pipe, one after the other.
ghost use Rattle.std.specs.Prelude.{◌≡◌, [], IfOk, length};
ghost use Rattle.pdl_word.specs.Each.{Each};
ghost use Rattle.pdl_form.specs.FormView.{form};
ghost use Rattle.pdl_build.specs.Change.{empty_circuit};
ghost use Rattle.pdl_pipe_walk.specs.Locked.{members};
ghost use Rattle.pdl_pipe_walk.specs.Setting.{TellsTwice};
ghost use Rattle.pdl_pipe_nexts.specs.Lines.{line_form, IsLineIn};
ghost use Rattle.pdl_pipe_locks.specs.Suited.{AreSuited};
ghost use Rattle.pdl_pipe_emitted.specs.Emitted.{CanEmit};
ghost use Rattle.pdl_pipe.specs.Emitted.{HasMemoriesIn, HasMoves, IsLaidOut};
ghost use Rattle.pdl_pipe.specs.NamedNets.{IsNamedEmitted};

use crate::deeds::{stage_ends, stage_ports};
use crate::names::{NamedNet, Parts, names_of};
use crate::steps::{Standing, set_registers};
use pdl_build::Builder;
use pdl_form::FlatPipe;
use pdl_form_values::all_twice;
use pdl_kit::NoMemory;
use pdl_lockapi::LockModule;
use pdl_net::Net;
use pdl_order::OrderRegs;
use pdl_pipe_beside::{BesideRound, lay_orders, lay_ports, requests};
use pdl_pipe_emitted::{MoveNets, all_moves};
use pdl_pipe_exprs::Bits;
use pdl_pipe_locks::lay_memories;
use pdl_pipe_nexts::StageLine;
use pdl_pipe_ports::{all_outputs, read_inputs, reply_inputs, show};
use pdl_pipe_registers::tickets::next_tickets;
use pdl_pipe_registers::whole::zeros;
use pdl_pipe_registers::{Shared, lay_stages};
use pdl_pipe_walk::MemLock;
use pdl_port::PortRegs;
use std::alloc::Global;

// What is asked of delayed memories, what the registers take next, and the outputs; and what all nets stand for.
fn emit_steps<L: LockModule>(
    alloc: Global,
    b: &mut Builder,
    line: &StageLine<'_>,
    locks: &[Option<MemLock<L>>],
    twice: &[bool],
    orders: &[Option<OrderRegs>],
    moves: &MoveNets,
) -> Result<Vec<NamedNet>, NoMemory>
    requires can { CanEmit (line_form line.now) }
    requires twice { TellsTwice (line_form line.now) twice.now }
    requires line { IsLineIn b.old line.now }
    requires moved { HasMoves (members L.LockModule) b.old line.now locks.now orders.now moves.now }
    ensures { IfOk result (λ ns. IsNamedEmitted (members L.LockModule) b.new
        (line_form line.now) ns.items) }
{
    let ends = stage_ends(alloc, line)?;
    let round = BesideRound {
        pipe: line.pipe,
        bits: line.shared.bits,
        ends: ends.as_slice(),
    };
    let asked = requests(alloc, b, &round)?;
    let all = Standing {
        line,
        locks,
        twice,
        orders,
        squash: moves.squash,
        squashes: moves.squashes,
    };
    let steps = set_registers(alloc, b, &all, ends.as_slice())?;
    let shown = stage_ports(alloc, line)?;
    let outs = all_outputs(
        alloc,
        line.pipe,
        twice,
        shown.as_slice(),
        steps.commits.as_slice(),
        asked.as_slice(),
        moves.squash,
    )?;
    show(b, outs.as_slice())?;
    let parts = Parts {
        line,
        locks,
        orders,
        tails: &steps.tails,
    };
    names_of(alloc, b, &parts)
}

// Who moves, and all that follows from it; of the line neither moves nor removals are looked at.
fn emit_moves<L: LockModule>(
    alloc: Global,
    b: &mut Builder,
    line: &StageLine<'_>,
    locks: &[Option<MemLock<L>>],
    twice: &[bool],
    orders: &[Option<OrderRegs>],
) -> Result<Vec<NamedNet>, NoMemory>
    requires can { CanEmit (line_form line.now) }
    requires twice { TellsTwice (line_form line.now) twice.now }
    requires line { IsLineIn b.old line.now }
    requires laid { IsLaidOut (members L.LockModule) b.old line.now locks.now orders.now }
    ensures { IfOk result (λ ns. IsNamedEmitted (members L.LockModule) b.new
        (line_form line.now) ns.items) }
{
    let moves = all_moves(alloc, b, line, orders)?;
    let moving = StageLine {
        pipe: line.pipe,
        shared: line.shared,
        stages: line.stages,
        moves: moves.moves.as_slice(),
        kills: moves.kills.as_slice(),
    };
    emit_steps(alloc, b, &moving, locks, twice, orders, &moves)
}

// A bit that is 0 for each stage.
fn blank(alloc: Global, bits: Bits, count: usize) -> Result<Vec<Net>, NoMemory>
    ensures count { IfOk result (λ xs. length xs.items ≡ count) }
    ensures each { IfOk result (λ xs. Each (λ x. x ≡ bits.zero) xs.items) }
{
    let nets = vec![in alloc; bits.zero; count]?;
    Ok(nets)
}

// The orders of forks, the stages, and all that follows from them.
fn emit_stages<L: LockModule>(
    alloc: Global,
    b: &mut Builder,
    pipe: &FlatPipe,
    bits: Bits,
    locks: &[Option<MemLock<L>>],
    twice: &[bool],
    ports: &[Option<PortRegs>],
) -> Result<Vec<NamedNet>, NoMemory>
    requires can { CanEmit (form pipe.now) }
    requires twice { TellsTwice (form pipe.now) twice.now }
    requires memories { HasMemoriesIn (members L.LockModule) b.old
        (form pipe.now) bits locks.now ports.now }
    ensures { IfOk result (λ ns. IsNamedEmitted (members L.LockModule) b.new
        (form pipe.now) ns.items) }
{
    let orders = lay_orders(alloc, b, pipe)?;
    let zeros = zeros(alloc, b, pipe)?;
    let next = next_tickets(alloc, locks, bits.zero)?;
    let shared = Shared {
        bits,
        zeros,
        next,
        ports,
    };
    let stages = lay_stages(alloc, b, pipe, &shared, locks, twice)?;
    let blank = blank(alloc, bits, stages.len())?;
    let line = StageLine {
        pipe,
        shared: &shared,
        stages: stages.as_slice(),
        moves: blank.as_slice(),
        kills: blank.as_slice(),
    };
    emit_moves(alloc, b, &line, locks, twice, orders.as_slice())
}

/// All nets of a pipe in an empty netlist, with these locks for its memories: inputs, memories with their locks, ports, and what follows from them; and what they stand for.
pub fn emit_all<L: LockModule + Copy>(
    alloc: Global,
    b: &mut Builder,
    pipe: &FlatPipe,
    locks: &[Option<L>],
) -> Result<Vec<NamedNet>, NoMemory>
    requires empty { b.old ≡ empty_circuit }
    requires can { CanEmit (form pipe.now) }
    requires suited { AreSuited L.suits (members L.LockModule) (form pipe.now) locks.now }
    ensures { IfOk result (λ ns. IsNamedEmitted (members L.LockModule) b.new
        (form pipe.now) ns.items) }
{
    let inputs = reply_inputs(alloc, b, pipe)?;
    let reads = read_inputs(alloc, pipe, inputs.as_slice())?;
    let made = lay_memories(alloc, b, pipe, locks)?;
    let bits = Bits::new(b)?;
    let ports = lay_ports(alloc, b, pipe, reads.as_slice())?;
    let twice = all_twice(alloc, pipe)?;
    let flags = twice.as_slice();
    emit_stages(
        alloc,
        b,
        pipe,
        bits,
        made.as_slice(),
        flags,
        ports.as_slice(),
    )
}
