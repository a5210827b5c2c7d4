// What the registers of a pipe take next.
ghost use Rattle.std.specs.Prelude.{◌≡◌, IfOk, length};
ghost use Rattle.pdl_pipe_answers.specs.Ports.{IsBit};
ghost use Rattle.pdl_pipe_walk.specs.Locked.{members, AreLocked, AreTickets};
ghost use Rattle.pdl_pipe_walk.specs.Setting.{TellsTwice};
ghost use Rattle.pdl_pipe_beside.specs.Ends.{AreEnds};
ghost use Rattle.pdl_pipe_beside.specs.Ports.{StandPorts};
ghost use Rattle.pdl_pipe_beside.specs.Orders.{StandOrders};
ghost use Rattle.pdl_pipe_beside.specs.Squashed.{HasSquashes};
ghost use Rattle.pdl_pipe_registers.specs.Staged.{AreApart, next_signals};
ghost use Rattle.pdl_pipe_exprs.specs.Nets.{signals_in};
ghost use Rattle.pdl_pipe_nexts.specs.Lines.{line_pipe, line_form, IsLineIn};
ghost use Rattle.pdl_pipe_locks.specs.Lawful.{AreLawful, AreUnwritten};
ghost use Rattle.pdl_pipe_emitted.specs.Emitted.{CanEmit};
ghost use Rattle.pdl_pipe.specs.Emitted.{HasLockSteps, HasSteps};

use crate::deeds::deeds;
use pdl_build::Builder;
use pdl_kit::NoMemory;
use pdl_lockapi::{LockModule, LockNets};
use pdl_net::Net;
use pdl_order::OrderRegs;
use pdl_pipe_beside::{BesideRound, Squashes, StageEnd, set_orders, set_ports};
use pdl_pipe_emitted::{TailNets, tails};
use pdl_pipe_locks::{Round as LockRound, set_advice, set_locks};
use pdl_pipe_nexts::{StageLine, set_stages};
use pdl_pipe_walk::MemLock;
use std::alloc::Global;

/// Where a squash would cut the locks, and what the memories commit.
#[derive(Drop)]
pub struct StepNets {
    pub tails: TailNets,
    pub commits: Vec<Option<LockNets>>,
}

/// What is told of a pipe when its registers are: the stages with their moves, its locks, which memories some path reserves twice to write, the orders of its forks, whether a squash happens, and by which stage.
#[derive(Drop)]
pub struct Standing<'a, L> {
    pub line: &'a StageLine<'a>,
    pub locks: &'a [Option<MemLock<L>>],
    pub twice: &'a [bool],
    pub orders: &'a [Option<OrderRegs>],
    pub squash: Net,
    pub squashes: Squashes,
}

// What the arrays of the advisory memories take next, and then the locks.
fn set_memories<L: LockModule>(
    alloc: Global,
    b: &mut Builder,
    all: &Standing<'_, L>,
    cut: &[Net],
) -> Result<Vec<Option<LockNets>>, NoMemory>
    requires line { IsLineIn b.old all.now.line.now }
    requires locked { AreLocked (members L.LockModule) b.old
        (line_pipe all.now.line.now) all.now.locks.now }
    requires lawful { AreLawful (members L.LockModule) b.old
        (line_pipe all.now.line.now) all.now.locks.now }
    requires unwritten { AreUnwritten b.old (line_pipe all.now.line.now) }
    requires twice { TellsTwice (line_form all.now.line.now) all.now.twice.now }
    requires next { signals_in b.old all.now.line.now.shared.now.next
        ≡ next_signals b.old all.now.locks.now }
    requires squash { IsBit b.old all.now.squash }
    requires cut { AreTickets (members L.LockModule) b.old all.now.locks.now cut.now }
    ensures { IfOk result (λ ns. HasLockSteps (members L.LockModule) b.old b.new
        all.now.line.now all.now.locks.now all.now.squash cut.now ns.items) }
{
    let deeds = deeds(alloc, all.line)?;
    let round = LockRound {
        pipe: all.line.pipe,
        bits: all.line.shared.bits,
        locks: all.locks,
        twice: all.twice,
        deeds: deeds.as_slice(),
        squash: all.squash,
        tails: cut,
    };
    set_advice(b, &round)?;
    let nets = set_locks(alloc, b, &round)?;
    Ok(nets)
}

/// What the registers of stages, tails, ports, orders and locks take next, where the stages end so.
pub fn set_registers<L: LockModule>(
    alloc: Global,
    b: &mut Builder,
    all: &Standing<'_, L>,
    ends: &[StageEnd<'_>],
) -> Result<StepNets, NoMemory>
    requires can { CanEmit (line_form all.now.line.now) }
    requires line { IsLineIn b.old all.now.line.now }
    requires apart { AreApart 0 (length b.old.regs) all.now.line.now.stages.now }
    requires ends { AreEnds b.old (line_form all.now.line.now) ends.now }
    requires ports { StandPorts b.old
        (line_pipe all.now.line.now) all.now.line.now.shared.now.ports.now }
    requires orders { StandOrders b.old (line_pipe all.now.line.now) all.now.orders.now }
    requires locked { AreLocked (members L.LockModule) b.old
        (line_pipe all.now.line.now) all.now.locks.now }
    requires lawful { AreLawful (members L.LockModule) b.old
        (line_pipe all.now.line.now) all.now.locks.now }
    requires unwritten { AreUnwritten b.old (line_pipe all.now.line.now) }
    requires twice { TellsTwice (line_form all.now.line.now) all.now.twice.now }
    requires next { signals_in b.old all.now.line.now.shared.now.next
        ≡ next_signals b.old all.now.locks.now }
    requires squash { IsBit b.old all.now.squash }
    requires squashes { HasSquashes b.old all.now.squashes }
    ensures { IfOk result (λ y. HasSteps (members L.LockModule) b.old b.new all.now.line.now
        all.now.locks.now all.now.orders.now ends.now all.now.squash all.now.squashes
        y.tails y.commits.items) }
{
    set_stages(alloc, b, all.line)?;
    let tails = tails(alloc, b, all.line, all.squashes.verify)?;
    let round = BesideRound {
        pipe: all.line.pipe,
        bits: all.line.shared.bits,
        ends,
    };
    set_ports(alloc, b, &round, all.line.shared.ports)?;
    set_orders(b, &round, all.squashes, all.orders)?;
    let commits = set_memories(alloc, b, all, tails.cut.as_slice())?;
    Ok(StepNets { tails, commits })
}
