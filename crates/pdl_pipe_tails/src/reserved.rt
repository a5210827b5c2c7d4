// The next ticket of each lock after what this cycle's threads reserve.
ghost use Rattle.std.specs.Prelude.{◌≡◌, ◌<◌, [], ◌∷◌, IfOk, length, map};
ghost use Rattle.pdl_net.specs.Meaning.{IsThere, signal};
ghost use Rattle.pdl_net.specs.Growth.{Extends};
ghost use Rattle.pdl_pipe_exprs.specs.Conditions.{AreBits};
ghost use Rattle.pdl_law_parts.specs.Ports.{reserves_to};
ghost use Rattle.pdl_pipe_walk.specs.Parts.{reservation_in};
ghost use Rattle.pdl_pipe_nexts.specs.Lines.{IsBit, IsLineIn};
ghost use Rattle.pdl_pipe_tails.specs.Reserved.{IsAfter, IsAfterAll, AreAfterAll, IsReserve};
ghost use Rattle.pdl_word.specs.Each.{Each};

use pdl_build::Builder;
use pdl_kit::{NoMemory, Seq};
use pdl_net::Net;
use pdl_pipe_exprs::Bits;
use pdl_pipe_exprs::exprs::variable;
use pdl_pipe_nexts::StageLine;
use pdl_pipe_nexts::line::stage_of;
use pdl_pipe_walk::ReserveNet;
use pdl_pipe_walk::tickets::one_more;
use std::alloc::Global;

// The ticket after a reservation of the memory, where the thread moves that makes it.
fn after_reserve(
    b: &mut Builder,
    bits: Bits,
    reserve: &ReserveNet,
    moves: Net,
    mem: usize,
    ticket: Net,
) -> Result<Net, NoMemory>
    requires bits { AreBits b.old bits }
    requires reserve { IsBit b.old reserve.now.on }
    requires moves { IsBit b.old moves }
    requires ticket { IsThere b.old ticket }
    ensures there { IfOk result (λ x. IsThere b.new x) }
    ensures after { IfOk result (λ x. IsAfter (signal b.old ticket) (signal b.new x)
        (reserves_to mem (signal b.old moves) (reservation_in b.old reserve.now ∷ []))) }
    ensures extends { Extends b.old b.new }
    ensures regs { b.new.regs ≡ b.old.regs }
{
    if reserve.mem != mem {
        return Ok(ticket);
    }
    let on = bits.both(b, moves, reserve.on)?;
    let net = one_more(b, on, ticket)?;
    Ok(net)
}

// The ticket after all that a stage's thread reserves of the memory, where it moves.
fn after_stage(
    b: &mut Builder,
    bits: Bits,
    reserves: &[ReserveNet],
    moves: Net,
    mem: usize,
    ticket: Net,
) -> Result<Net, NoMemory>
    requires bits { AreBits b.old bits }
    requires reserves { Each (IsReserve b.old) reserves.now }
    requires moves { IsBit b.old moves }
    requires ticket { IsThere b.old ticket }
    ensures there { IfOk result (λ x. IsThere b.new x) }
    ensures after { IfOk result (λ x. IsAfter (signal b.old ticket) (signal b.new x)
        (reserves_to mem (signal b.old moves) (map (reservation_in b.old) reserves.now))) }
    ensures extends { Extends b.old b.new }
    ensures regs { b.new.regs ≡ b.old.regs }
{
    let mut net = ticket;
    for r in reserves {
        net = after_reserve(b, bits, r, moves, mem, net)?;
    }
    Ok(net)
}

// The next ticket of the memory's lock after all that the moving threads reserve.
fn after_all(b: &mut Builder, line: &StageLine<'_>, mem: usize) -> Result<Net, NoMemory>
    requires line { IsLineIn b.old line.now }
    requires low { mem < length line.now.shared.now.next }
    ensures there { IfOk result (λ x. IsThere b.new x) }
    ensures after { IfOk result (λ x. IsAfterAll b.old line.now mem (signal b.new x)) }
    ensures extends { Extends b.old b.new }
    ensures regs { b.new.regs ≡ b.old.regs }
{
    let bits = line.shared.bits;
    let mut net = variable(b, line.shared.next.as_slice(), mem);
    for k in 0..line.stages.len() {
        let s = stage_of(line, k);
        let moves = variable(b, line.moves, k);
        net = after_stage(b, bits, s.end.reserves.as_slice(), moves, mem, net)?;
    }
    Ok(net)
}

/// The next ticket of each memory's lock after all that the moving threads reserve.
pub fn next_after(
    alloc: Global,
    b: &mut Builder,
    line: &StageLine<'_>,
) -> Result<Seq<Net>, NoMemory>
    requires line { IsLineIn b.old line.now }
    ensures after { IfOk result (λ xs. AreAfterAll b.old b.new line.now xs) }
    ensures extends { Extends b.old b.new }
    ensures regs { b.new.regs ≡ b.old.regs }
{
    let mut nets = Seq::new(alloc);
    for m in 0..line.shared.next.len() {
        let net = after_all(b, line, m)?;
        nets.push(net)?;
    }
    Ok(nets)
}
