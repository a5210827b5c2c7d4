// Which threads of a pipe move, which one squashes, and which are removed.
ghost use Rattle.std.specs.Prelude.{◌≡◌, ℕ, ◌<◌, ◌≤◌, IfOk, Some, None, length};
ghost use Rattle.pdl_semantics.specs.Stages.{verify_stage};
ghost use Rattle.pdl_semantics.specs.Updates.{update_stage};
ghost use Rattle.pdl_net.specs.Growth.{Extends};
ghost use Rattle.pdl_net.specs.Meaning.{signal};
ghost use Rattle.pdl_pipe_exprs.specs.Nets.{signals_in, signal_at};
ghost use Rattle.pdl_pipe_beside.specs.Ports.{StandPorts};
ghost use Rattle.pdl_pipe_answers.specs.Ports.{IsBit};
ghost use Rattle.pdl_pipe_nexts.specs.Lines.{line_pipe, IsLineIn};
ghost use Rattle.pdl_pipe_moves.specs.Gates.{HasTurns};
ghost use Rattle.pdl_pipe_moves.specs.Inside.{LeadsInside};
ghost use Rattle.pdl_pipe_moves.specs.StageSquashes.{AreFilled};
ghost use Rattle.pdl_pipe_moves.specs.Passed.{AreMoved, AreVerified, IsBlank};

use crate::controls::Controls;
use crate::passing::Passages;
use crate::squash::{StageSquash, filled, joined, net_of, stage_squash};
use pdl_build::Builder;
use pdl_kit::{NoMemory, Seq};
use pdl_net::Net;
use pdl_order::OrderRegs;
use pdl_pipe_beside::Squashes;
use pdl_pipe_nexts::StageLine;
use std::alloc::Global;

/// Of each stage whether its thread moves, of each memory whether its port is free for the stage that reads it, whether a squash happens and by which stage, which threads it removes, and of which stages no later one up to the one that verifies holds a thread; 1 bit each.
#[derive(Drop)]
pub struct MoveNets {
    pub moves: Vec<Net>,
    pub frees: Vec<Seq<Net>>,
    pub squash: Net,
    pub squashes: Squashes,
    pub kills: Vec<Net>,
    pub clear: Vec<Net>,
}

/// The stages down to one, with the squash of the one that verifies.
#[derive(Drop)]
pub struct Verified {
    pub found: Passages,
    pub squash: StageSquash,
}

// No stage is asked yet.
fn none_passed(alloc: Global, zero: Net, count: usize) -> Result<Passages, NoMemory>
    ensures { IfOk result (λ z. IsBlank zero count z) }
{
    let mut frees = Vec::new(alloc);
    for _ in 0..count {
        frees.push(Seq::new(alloc))?;
    }
    let moves = filled(alloc, zero, count)?;
    Ok(Passages { moves, frees })
}

// The threads of the stages from `low` on, of which stage v verifies guesses.
fn verified_moves(
    alloc: Global,
    b: &mut Builder,
    line: &StageLine<'_>,
    orders: &[Option<OrderRegs>],
    v: usize,
    low: usize,
    blank: &[Net],
) -> Result<Verified, NoMemory>
    requires line { IsLineIn b.old line.now }
    requires inside { LeadsInside (line_pipe line.now) }
    requires stand { StandPorts b.old (line_pipe line.now) line.now.shared.now.ports.now }
    requires turns { HasTurns b.old (line_pipe line.now) orders.now }
    requires stage { verify_stage (line_pipe line.now).stmts ≡ Some v }
    requires last { v < length (line_pipe line.now).stages }
    requires low { low ≤ v }
    requires blank { AreFilled line.now.shared.now.bits.zero
        (length (line_pipe line.now).stages) blank.now }
    ensures made { IfOk result (λ z. AreVerified b.new line.now orders.now v low z) }
    ensures extends { Extends b.old b.new }
{
    let zero = line.shared.bits.zero;
    let mut found = none_passed(alloc, zero, line.stages.len())?;
    let calm = Controls {
        orders,
        squashes: Squashes {
            verify: zero,
            update: zero,
        },
        clear: blank,
    };
    found.pass_down(alloc, b, line, &calm, v, line.stages.len())?;
    let own = net_of(found.moves.as_slice(), v);
    let squash = stage_squash(alloc, b, line, v, own)?;
    let controls = Controls {
        orders,
        squashes: Squashes {
            verify: squash.happens,
            update: zero,
        },
        clear: squash.clear.as_slice(),
    };
    found.pass_down(alloc, b, line, &controls, low, v)?;
    Ok(Verified { found, squash })
}

// The threads of a pipe of which stage v verifies guesses, and none updates one.
fn guessing_moves(
    alloc: Global,
    b: &mut Builder,
    line: &StageLine<'_>,
    orders: &[Option<OrderRegs>],
    v: usize,
    blank: &[Net],
) -> Result<MoveNets, NoMemory>
    requires line { IsLineIn b.old line.now }
    requires inside { LeadsInside (line_pipe line.now) }
    requires stand { StandPorts b.old (line_pipe line.now) line.now.shared.now.ports.now }
    requires turns { HasTurns b.old (line_pipe line.now) orders.now }
    requires stage { verify_stage (line_pipe line.now).stmts ≡ Some v }
    requires none { update_stage (line_pipe line.now).stmts ≡ None }
    requires low { v < length (line_pipe line.now).stages }
    requires blank { AreFilled line.now.shared.now.bits.zero
        (length (line_pipe line.now).stages) blank.now }
    ensures moved { IfOk result (λ z. AreMoved b.new line.now orders.now z) }
    ensures extends { Extends b.old b.new }
{
    let made = verified_moves(alloc, b, line, orders, v, 0, blank)?;
    let Verified { found, squash } = made;
    Ok(MoveNets {
        moves: found.moves,
        frees: found.frees,
        squash: squash.happens,
        squashes: Squashes {
            verify: squash.happens,
            update: line.shared.bits.zero,
        },
        kills: squash.removed,
        clear: squash.clear,
    })
}

// The threads of a pipe of which stage v verifies guesses, and stage u updates them.
fn updating_moves(
    alloc: Global,
    b: &mut Builder,
    line: &StageLine<'_>,
    orders: &[Option<OrderRegs>],
    v: usize,
    u: usize,
    blank: &[Net],
) -> Result<MoveNets, NoMemory>
    requires line { IsLineIn b.old line.now }
    requires inside { LeadsInside (line_pipe line.now) }
    requires stand { StandPorts b.old (line_pipe line.now) line.now.shared.now.ports.now }
    requires turns { HasTurns b.old (line_pipe line.now) orders.now }
    requires stage { verify_stage (line_pipe line.now).stmts ≡ Some v }
    requires update { update_stage (line_pipe line.now).stmts ≡ Some u }
    requires low { v < length (line_pipe line.now).stages }
    requires blank { AreFilled line.now.shared.now.bits.zero
        (length (line_pipe line.now).stages) blank.now }
    ensures moved { IfOk result (λ z. AreMoved b.new line.now orders.now z) }
    ensures extends { Extends b.old b.new }
{
    let made = verified_moves(alloc, b, line, orders, v, u, blank)?;
    let Verified { mut found, squash } = made;
    let own = net_of(found.moves.as_slice(), u);
    let again = stage_squash(alloc, b, line, u, own)?;
    let squashes = Squashes {
        verify: squash.happens,
        update: again.happens,
    };
    let controls = Controls {
        orders,
        squashes,
        clear: squash.clear.as_slice(),
    };
    found.pass_down(alloc, b, line, &controls, 0, u)?;
    let bits = line.shared.bits;
    let either = b.mux(squash.happens, bits.one, again.happens)?;
    let kills = joined(
        alloc,
        b,
        bits,
        squash.removed.as_slice(),
        again.removed.as_slice(),
        u,
    )?;
    Ok(MoveNets {
        moves: found.moves,
        frees: found.frees,
        squash: either,
        squashes,
        kills,
        clear: squash.clear,
    })
}

// The threads of a pipe without guesses.
fn certain_moves(
    alloc: Global,
    b: &mut Builder,
    line: &StageLine<'_>,
    orders: &[Option<OrderRegs>],
    blank: &[Net],
) -> Result<MoveNets, NoMemory>
    requires line { IsLineIn b.old line.now }
    requires inside { LeadsInside (line_pipe line.now) }
    requires stand { StandPorts b.old (line_pipe line.now) line.now.shared.now.ports.now }
    requires turns { HasTurns b.old (line_pipe line.now) orders.now }
    requires none { verify_stage (line_pipe line.now).stmts ≡ None }
    requires blank { AreFilled line.now.shared.now.bits.zero
        (length (line_pipe line.now).stages) blank.now }
    ensures moved { IfOk result (λ z. AreMoved b.new line.now orders.now z) }
    ensures extends { Extends b.old b.new }
{
    let count = line.stages.len();
    let zero = line.shared.bits.zero;
    let mut found = none_passed(alloc, zero, count)?;
    let squashes = Squashes {
        verify: zero,
        update: zero,
    };
    let calm = Controls {
        orders,
        squashes,
        clear: blank,
    };
    found.pass_down(alloc, b, line, &calm, 0, count)?;
    let kills = filled(alloc, zero, count)?;
    let clear = filled(alloc, zero, count)?;
    Ok(MoveNets {
        moves: found.moves,
        frees: found.frees,
        squash: zero,
        squashes,
        kills,
        clear,
    })
}

/// Which threads of a pipe move, which of its stages squashes, and whom that removes, by the orders of its forks. Of the line neither moves nor removals are looked at.
pub fn all_moves(
    alloc: Global,
    b: &mut Builder,
    line: &StageLine<'_>,
    orders: &[Option<OrderRegs>],
) -> Result<MoveNets, NoMemory>
    requires line { IsLineIn b.old line.now }
    requires inside { LeadsInside (line_pipe line.now) }
    requires stand { StandPorts b.old (line_pipe line.now) line.now.shared.now.ports.now }
    requires turns { HasTurns b.old (line_pipe line.now) orders.now }
    requires verify { (v : ℕ) → verify_stage (line_pipe line.now).stmts ≡ Some v →
        v < length (line_pipe line.now).stages }
    ensures moved { IfOk result (λ z. AreMoved b.new line.now orders.now z) }
    ensures extends { Extends b.old b.new }
{
    let blank = filled(alloc, line.shared.bits.zero, line.stages.len())?;
    let Some(v) = line.pipe.verify_stage() else {
        return certain_moves(alloc, b, line, orders, blank.as_slice());
    };
    match line.pipe.update_stage() {
        None => guessing_moves(alloc, b, line, orders, v, blank.as_slice()),
        Some(u) => updating_moves(alloc, b, line, orders, v, u, blank.as_slice()),
    }
}
