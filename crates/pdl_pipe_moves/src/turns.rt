// Whose turn it is where branches meet.
ghost use Rattle.std.specs.Prelude.{◌≡◌, ◌<◌, true, IfOk, Some, is_some, length, if◌then◌else◌};
ghost use Rattle.pdl_form.specs.FormView.{form};
ghost use Rattle.pdl_semantics.specs.Stages.{stage_at};
ghost use Rattle.pdl_form.specs.View.{stage_view};
ghost use Rattle.pdl_net.specs.Signal.{mux_signal};
ghost use Rattle.pdl_net.specs.Growth.{Extends};
ghost use Rattle.pdl_net.specs.Meaning.{Means, signal};
ghost use Rattle.pdl_pipe_exprs.specs.Conditions.{AreBits};
ghost use Rattle.pdl_law_parts.specs.Walk.{one, zero_bit};
ghost use Rattle.pdl_order.specs.Laws.{HasOrderNets};
ghost use Rattle.pdl_pipe_answers.specs.Ports.{IsBitFor};
ghost use Rattle.pdl_pipe_moves.specs.Gates.{turn_by, turn_in, HasTurns};
ghost use Rattle.pdl_pipe_walk.specs.Locked.{some_at};

use pdl_build::Builder;
use pdl_form::{FlatPipe, FlatStage, side_in};
use pdl_kit::NoMemory;
use pdl_net::Net;
use pdl_order::OrderRegs;
use pdl_pipe_exprs::Bits;

// Whether the oldest thread inside took this branch.
fn took(b: &mut Builder, bits: Bits, order: &OrderRegs, first: bool) -> Result<Net, NoMemory>
    requires bits { AreBits b.old bits }
    requires nets { HasOrderNets b.old order.now }
    ensures means { IfOk result (λ y. Means b.new y (if first then signal b.old order.now.first
        else mux_signal (signal b.old order.now.first) zero_bit one)) }
    ensures wide { IfOk result (λ y. (signal b.new y).width ≡ 1) }
    ensures extends { Extends b.old b.new }
    ensures regs { b.new.regs ≡ b.old.regs }
{
    if first {
        return Ok(order.first);
    }
    let net = b.mux(order.first, bits.zero, bits.one)?;
    Ok(net)
}

/// Whether a thread that comes from this side of a fork, or straight from it, may go into the merge: it is the oldest of those that the fork sent on.
pub fn branch_turn(
    b: &mut Builder,
    bits: Bits,
    order: &OrderRegs,
    side: Option<bool>,
) -> Result<Net, NoMemory>
    requires bits { AreBits b.old bits }
    requires nets { HasOrderNets b.old order.now }
    ensures on { IfOk result (λ y. IsBitFor b.new y (turn_by (signal b.old order.now.first)
        (signal b.old order.now.empty) side)) }
    ensures extends { Extends b.old b.new }
    ensures regs { b.new.regs ≡ b.old.regs }
{
    match side {
        None => Ok(order.empty),
        Some(first) => {
            let own = took(b, bits, order, first)?;
            let net = b.mux(order.empty, bits.zero, own)?;
            Ok(net)
        }
    }
}

// A stage of a pipe.
fn pipe_stage(pipe: &FlatPipe, k: usize) -> FlatStage
    requires { k < length (form pipe.now).pipe.stages }
    ensures { stage_view result ≡ stage_at (form pipe.now).pipe k }
{
    pipe.stages()[k]
}

// The order of a fork.
fn order_of(orders: &[Option<OrderRegs>], f: usize) -> &OrderRegs
    requires low { f < length orders.now }
    requires some { is_some (some_at orders.now f) ≡ true }
    ensures { some_at orders.now f ≡ Some result.now }
{
    match &orders[f] {
        Some(order) => order,
        None => unreachable!(),
    }
}

/// Whether it is the turn of the thread of stage k to go into stage q.
pub fn turn(
    b: &mut Builder,
    pipe: &FlatPipe,
    bits: Bits,
    orders: &[Option<OrderRegs>],
    k: usize,
    q: usize,
) -> Result<Net, NoMemory>
    requires bits { AreBits b.old bits }
    requires turns { HasTurns b.old (form pipe.now).pipe orders.now }
    requires k { k < length (form pipe.now).pipe.stages }
    requires q { q < length (form pipe.now).pipe.stages }
    ensures on { IfOk result (λ y.
        IsBitFor b.new y (turn_in b.old (form pipe.now).pipe orders.now k q)) }
    ensures extends { Extends b.old b.new }
    ensures regs { b.new.regs ≡ b.old.regs }
{
    match pipe_stage(pipe, q).merges {
        None => Ok(bits.one),
        Some(f) => {
            let side = side_in(pipe_stage(pipe, k).branches, f);
            let net = branch_turn(b, bits, order_of(orders, f), side)?;
            Ok(net)
        }
    }
}
