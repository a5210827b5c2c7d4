// What the registers of orders take next.
ghost use Rattle.std.specs.Prelude.{◌≡◌, ◌<◌, ◌≤◌, ℕ, IfOk, OnOk, length, slice_index, take, suc};
ghost use Rattle.pdl_semantics.specs.Stages.{is_inside as inside};
ghost use Rattle.pdl_semantics.specs.Updates.{squash_stages};
ghost use Rattle.pdl_semantics.specs.Cycle.{merges_by};
ghost use Rattle.pdl_form.specs.FormView.{form};
ghost use Rattle.pdl_form.specs.View.{stages_view};
ghost use Rattle.pdl_form_types.specs.Stmts.{AreForks};
ghost use Rattle.pdl_net.specs.Signal.{mux_signal};
ghost use Rattle.pdl_net.specs.Meaning.{Means, signal};
ghost use Rattle.pdl_net.specs.HasWidth.{HasWidth};
ghost use Rattle.pdl_net.specs.Growth.{Extends, ExtendsBut};
ghost use Rattle.pdl_semantics.specs.Stages.{stage_at};
ghost use Rattle.pdl_pipe_exprs.specs.Conditions.{AreBits};
ghost use Rattle.pdl_pipe_exprs.specs.Nets.{signals_in, signal_at};
ghost use Rattle.pdl_order.specs.Laws.{own as order_own, HasPorts, step_signals};
ghost use Rattle.pdl_law_parts.specs.Walk.{zero_bit, both};
ghost use Rattle.pdl_law_sides.specs.Sides.{into_first as first_signal, into_second as second_signal, into_merge as merge_signal, merging, leaves_fork as leaves_signal, emptied_by as emptied_signal};
ghost use Rattle.pdl_pipe_walk.specs.Locked.{some_at};
ghost use Rattle.pdl_pipe_beside.specs.Parts.{own_at, ExtendsParts};
ghost use Rattle.pdl_pipe_beside.specs.Orders.{merged_in, StandOrders};
ghost use Rattle.pdl_pipe_beside.specs.Ends.{ends_in, moves_in, AreEnds};
ghost use Rattle.pdl_pipe_beside.specs.Squashed.{either as either_signal, squashes_in, HasSquashes};
ghost use Rattle.pdl_pipe_beside.specs.Steps.{leave_or as leave_signal, order_signals, IsOrderStepped};

use crate::ends::{BesideRound, Squashes, end_at};
use crate::orders::{is_merged, merges, stands_in};
use pdl_build::Builder;
use pdl_form::{FlatPipe, FlatStage, Next};
use pdl_kit::NoMemory;
use pdl_net::Net;
use pdl_order::{OrderPorts, OrderRegs, emit_order_step};
use pdl_pipe_answers::next_of;
use pdl_pipe_exprs::Bits;
use pdl_pipe_exprs::exprs::variable;

// Whether a stage stands in a branch of a fork.
fn is_inside(pipe: &FlatPipe, fork: usize, k: usize) -> bool
    ensures { result ≡ inside (form pipe.now).pipe fork k }
{
    match pipe.stages().get(k) {
        Some(stage) => stands_in(stage, fork),
        None => false,
    }
}

// Whether a thread that comes into a stage comes into the merge of a fork.
fn merge_bit(b: &Builder, round: &BesideRound<'_, '_>, fork: usize, q: usize) -> Net
    requires bits { AreBits b.now round.now.bits }
    ensures { Means b.now result (merging (form round.now.pipe.now).pipe fork q) }
{
    let _regs = b.reg_count();
    match round.pipe.stages().get(q) {
        Some(stage) => {
            if merges(stage, fork) {
                round.bits.one
            } else {
                round.bits.zero
            }
        }
        None => round.bits.zero,
    }
}

// A bit where the variable of a stage is 1, else another one.
fn by_variable(
    b: &mut Builder,
    round: &BesideRound<'_, '_>,
    k: usize,
    x: usize,
    yes: Net,
    no: Net,
) -> Result<Net, NoMemory>
    requires ends { AreEnds b.old (form round.now.pipe.now) round.now.ends.now }
    requires stage { k < length (form round.now.pipe.now).pipe.stages }
    requires var { x < length (form round.now.pipe.now).widths }
    requires wide { slice_index (form round.now.pipe.now).widths x ≡ 1 }
    requires yes { HasWidth b.old yes 1 }
    requires no { HasWidth b.old no 1 }
    ensures means { IfOk result (λ y.
        Means b.new y (mux_signal ((ends_in b.old round.now.ends.now k).ended.vars x)
        (signal b.old yes) (signal b.old no))) }
    ensures one { IfOk result (λ y. (signal b.new y).width ≡ 1) }
    ensures extends { Extends b.old b.new }
{
    let end = end_at(round.ends, k);
    let choice = variable(b, end.ended.vars.as_slice(), x);
    b.mux(choice, yes, no)
}

// Whether the thread of a stage that forks goes into the first branch.
fn into_first(b: &mut Builder, round: &BesideRound<'_, '_>, fork: usize) -> Result<Net, NoMemory>
    requires bits { AreBits b.old round.now.bits }
    requires forks { AreForks (form round.now.pipe.now).widths
        (form round.now.pipe.now).pipe.stages }
    requires ends { AreEnds b.old (form round.now.pipe.now) round.now.ends.now }
    requires stage { fork < length (form round.now.pipe.now).pipe.stages }
    ensures means { IfOk result (λ y.
        Means b.new y (first_signal (form round.now.pipe.now).pipe fork
        (stage_at (form round.now.pipe.now).pipe fork).next
        (ends_in b.old round.now.ends.now fork).ended)) }
    ensures one { IfOk result (λ y. (signal b.new y).width ≡ 1) }
    ensures extends { Extends b.old b.new }
{
    match next_of(round.pipe, fork) {
        Next::Forks { x, first, .. } if is_inside(round.pipe, fork, first) => {
            by_variable(b, round, fork, x, round.bits.one, round.bits.zero)
        }
        _ => Ok(round.bits.zero),
    }
}

// Whether it goes into the second branch.
fn into_second(b: &mut Builder, round: &BesideRound<'_, '_>, fork: usize) -> Result<Net, NoMemory>
    requires bits { AreBits b.old round.now.bits }
    requires forks { AreForks (form round.now.pipe.now).widths
        (form round.now.pipe.now).pipe.stages }
    requires ends { AreEnds b.old (form round.now.pipe.now) round.now.ends.now }
    requires stage { fork < length (form round.now.pipe.now).pipe.stages }
    ensures means { IfOk result (λ y.
        Means b.new y (second_signal (form round.now.pipe.now).pipe fork
        (stage_at (form round.now.pipe.now).pipe fork).next
        (ends_in b.old round.now.ends.now fork).ended)) }
    ensures one { IfOk result (λ y. (signal b.new y).width ≡ 1) }
    ensures extends { Extends b.old b.new }
{
    match next_of(round.pipe, fork) {
        Next::Forks { x, second, .. } if is_inside(round.pipe, fork, second) => {
            by_variable(b, round, fork, x, round.bits.zero, round.bits.one)
        }
        _ => Ok(round.bits.zero),
    }
}

// Whether the thread of a stage goes into the merge of a fork.
fn into_merge(
    b: &mut Builder,
    round: &BesideRound<'_, '_>,
    fork: usize,
    k: usize,
) -> Result<Net, NoMemory>
    requires bits { AreBits b.old round.now.bits }
    requires forks { AreForks (form round.now.pipe.now).widths
        (form round.now.pipe.now).pipe.stages }
    requires ends { AreEnds b.old (form round.now.pipe.now) round.now.ends.now }
    requires stage { k < length (form round.now.pipe.now).pipe.stages }
    ensures means { IfOk result (λ y.
        Means b.new y (merge_signal (form round.now.pipe.now).pipe fork
        (stage_at (form round.now.pipe.now).pipe k).next
        (ends_in b.old round.now.ends.now k).ended)) }
    ensures one { IfOk result (λ y. (signal b.new y).width ≡ 1) }
    ensures extends { Extends b.old b.new }
{
    match next_of(round.pipe, k) {
        Next::Ends => Ok(round.bits.zero),
        Next::Goes(to) => Ok(merge_bit(b, round, fork, to)),
        Next::Forks { x, first, second } => {
            let yes = merge_bit(b, round, fork, first);
            let no = merge_bit(b, round, fork, second);
            by_variable(b, round, k, x, yes, no)
        }
    }
}

// Whether the thread of a stage in a branch of a fork goes into the merge, or else one of the rest.
fn leave_or(
    b: &mut Builder,
    round: &BesideRound<'_, '_>,
    fork: usize,
    k: usize,
    rest: Net,
) -> Result<Net, NoMemory>
    requires bits { AreBits b.old round.now.bits }
    requires forks { AreForks (form round.now.pipe.now).widths
        (form round.now.pipe.now).pipe.stages }
    requires ends { AreEnds b.old (form round.now.pipe.now) round.now.ends.now }
    requires stage { k < length (form round.now.pipe.now).pipe.stages }
    requires rest { HasWidth b.old rest 1 }
    ensures means { IfOk result (λ y.
        Means b.new y
        (leave_signal (form round.now.pipe.now).pipe (ends_in b.old round.now.ends.now)
        (moves_in b.old round.now.ends.now) fork k (signal b.old rest))) }
    ensures one { IfOk result (λ y. (signal b.new y).width ≡ 1) }
    ensures extends { Extends b.old b.new }
{
    if !is_inside(round.pipe, fork, k) {
        return Ok(rest);
    }
    let end = end_at(round.ends, k);
    let merges = into_merge(b, round, fork, k)?;
    let leaves = round.bits.both(b, end.moves, merges)?;
    b.mux(leaves, round.bits.one, rest)
}

// Whether a thread leaves the branches of a fork.
fn leaves_fork(b: &mut Builder, round: &BesideRound<'_, '_>, fork: usize) -> Result<Net, NoMemory>
    requires bits { AreBits b.old round.now.bits }
    requires forks { AreForks (form round.now.pipe.now).widths
        (form round.now.pipe.now).pipe.stages }
    requires ends { AreEnds b.old (form round.now.pipe.now) round.now.ends.now }
    ensures means { IfOk result (λ y.
        Means b.new y
        (leaves_signal (form round.now.pipe.now).pipe (ends_in b.old round.now.ends.now)
        (moves_in b.old round.now.ends.now) fork
        (length (form round.now.pipe.now).pipe.stages) 0)) }
    ensures one { IfOk result (λ y. (signal b.new y).width ≡ 1) }
    ensures extends { Extends b.old b.new }
{
    let count = round.ends.len();
    let mut net = round.bits.zero;
    for i in 0..count {
        net = leave_or(b, round, fork, count - 1 - i, net)?;
    }
    Ok(net)
}

// The first of the stages.
fn front(stages: &[FlatStage], count: usize) -> &[FlatStage]
    requires { count ≤ length stages.now }
    ensures { result.now ≡ take count stages.now }
{
    &stages[..count]
}

// Whether one of the stages up to this one merges a fork.
fn is_merged_by(stages: &[FlatStage], fork: usize, last: usize) -> bool
    ensures { result ≡ merged_in (take (suc last) (stages_view stages.now)) fork }
{
    if last < stages.len() {
        is_merged(front(stages, last + 1), fork)
    } else {
        is_merged(stages, fork)
    }
}

// Whether the squash of a stage, where there is one, empties the order of a fork.
fn is_emptied(pipe: &FlatPipe, fork: usize, stage: Option<usize>) -> bool
    ensures { result ≡ merges_by (form pipe.now).pipe fork stage }
{
    match stage {
        None => false,
        Some(v) => is_merged_by(pipe.stages(), fork, v),
    }
}

// Whether the stage of the verifies squashes, or that of the updates, as far as they count.
fn either(
    b: &mut Builder,
    bits: Bits,
    squashes: Squashes,
    verify: bool,
    update: bool,
) -> Result<Net, NoMemory>
    requires bits { AreBits b.old bits }
    requires squashes { HasSquashes b.old squashes }
    ensures means { IfOk result (λ y. Means b.new y
        (either_signal verify update (signal b.old squashes.verify)
        (signal b.old squashes.update))) }
    ensures one { IfOk result (λ y. (signal b.new y).width ≡ 1) }
    ensures extends { Extends b.old b.new }
{
    match (verify, update) {
        (true, true) => b.mux(squashes.verify, bits.one, squashes.update),
        (true, false) => Ok(squashes.verify),
        (false, true) => Ok(squashes.update),
        (false, false) => Ok(bits.zero),
    }
}

// Whether a squash empties the order of a fork.
fn emptied(
    b: &mut Builder,
    round: &BesideRound<'_, '_>,
    squashes: Squashes,
    fork: usize,
) -> Result<Net, NoMemory>
    requires bits { AreBits b.old round.now.bits }
    requires squashes { HasSquashes b.old squashes }
    ensures means { IfOk result (λ y. Means b.new y
        (emptied_signal (form round.now.pipe.now).pipe fork
        (squash_stages (form round.now.pipe.now).pipe.stmts)
        (squashes_in b.old (form round.now.pipe.now).pipe squashes))) }
    ensures one { IfOk result (λ y. (signal b.new y).width ≡ 1) }
    ensures extends { Extends b.old b.new }
{
    let verify = is_emptied(round.pipe, fork, round.pipe.verify_stage());
    let update = is_emptied(round.pipe, fork, round.pipe.update_stage());
    let net = either(b, round.bits, squashes, verify, update)?;
    Ok(net)
}

// Whether the thread of a fork moves, and goes where a net says.
fn enters(
    b: &mut Builder,
    round: &BesideRound<'_, '_>,
    fork: usize,
    goes: Net,
) -> Result<Net, NoMemory>
    requires bits { AreBits b.old round.now.bits }
    requires ends { AreEnds b.old (form round.now.pipe.now) round.now.ends.now }
    requires stage { fork < length (form round.now.pipe.now).pipe.stages }
    requires goes { HasWidth b.old goes 1 }
    ensures means { IfOk result (λ y.
        Means b.new y (both (moves_in b.old round.now.ends.now fork) (signal b.old goes))) }
    ensures one { IfOk result (λ y. (signal b.new y).width ≡ 1) }
    ensures extends { Extends b.old b.new }
{
    let end = end_at(round.ends, fork);
    round.bits.both(b, end.moves, goes)
}

// What the stages do to the order of a fork.
fn order_ports(
    b: &mut Builder,
    round: &BesideRound<'_, '_>,
    squashes: Squashes,
    fork: usize,
) -> Result<OrderPorts, NoMemory>
    requires bits { AreBits b.old round.now.bits }
    requires forks { AreForks (form round.now.pipe.now).widths
        (form round.now.pipe.now).pipe.stages }
    requires ends { AreEnds b.old (form round.now.pipe.now) round.now.ends.now }
    requires squashes { HasSquashes b.old squashes }
    requires stage { fork < length (form round.now.pipe.now).pipe.stages }
    ensures ports { IfOk result (λ x. HasPorts b.new x) }
    ensures same { IfOk result (λ x. step_signals b.new x
        ≡ order_signals b.old (form round.now.pipe.now).pipe round.now.ends.now squashes fork) }
    ensures extends { Extends b.old b.new }
{
    let first = into_first(b, round, fork)?;
    let entered_first = enters(b, round, fork, first)?;
    let second = into_second(b, round, fork)?;
    let entered_second = enters(b, round, fork, second)?;
    let left = leaves_fork(b, round, fork)?;
    let emptied = emptied(b, round, squashes, fork)?;
    Ok(OrderPorts {
        entered_first,
        entered_second,
        left,
        emptied,
    })
}

// The order of a number.
fn order_at(orders: &[Option<OrderRegs>], fork: usize) -> &Option<OrderRegs>
    requires { fork < length orders.now }
    ensures { result.now ≡ some_at orders.now fork }
{
    &orders[fork]
}

// The step of the order of a fork, where it has one.
fn set_order(
    b: &mut Builder,
    round: &BesideRound<'_, '_>,
    squashes: Squashes,
    orders: &[Option<OrderRegs>],
    fork: usize,
) -> Result<(), NoMemory>
    requires bits { AreBits b.old round.now.bits }
    requires forks { AreForks (form round.now.pipe.now).widths
        (form round.now.pipe.now).pipe.stages }
    requires ends { AreEnds b.old (form round.now.pipe.now) round.now.ends.now }
    requires squashes { HasSquashes b.old squashes }
    requires stage { fork < length (form round.now.pipe.now).pipe.stages }
    requires orders { StandOrders b.old (form round.now.pipe.now).pipe orders.now }
    ensures stepped { OnOk result (IsOrderStepped b.old b.new (form round.now.pipe.now).pipe
        round.now.ends.now squashes orders.now fork) }
    ensures extends { ExtendsBut (own_at order_own orders.now fork) b.old b.new }
{
    match order_at(orders, fork) {
        None => Ok(()),
        Some(order) => {
            let ports = order_ports(b, round, squashes, fork)?;
            emit_order_step(b, order, &ports)?;
            Ok(())
        }
    }
}

/// What the registers of all orders take next, by what the stages do: which thread goes into which branch, which leaves, and whether a squash removes all. It is called once.
pub fn set_orders(
    b: &mut Builder,
    round: &BesideRound<'_, '_>,
    squashes: Squashes,
    orders: &[Option<OrderRegs>],
) -> Result<(), NoMemory>
    requires bits { AreBits b.old round.now.bits }
    requires forks { AreForks (form round.now.pipe.now).widths
        (form round.now.pipe.now).pipe.stages }
    requires ends { AreEnds b.old (form round.now.pipe.now) round.now.ends.now }
    requires squashes { HasSquashes b.old squashes }
    requires orders { StandOrders b.old (form round.now.pipe.now).pipe orders.now }
    ensures stepped { OnOk result ((f : ℕ) → f < length (form round.now.pipe.now).pipe.stages →
        IsOrderStepped b.old b.new (form round.now.pipe.now).pipe
        round.now.ends.now squashes orders.now f) }
    ensures extends { ExtendsParts (own_at order_own orders.now)
        (length (form round.now.pipe.now).pipe.stages) b.old b.new }
{
    for fork in 0..round.pipe.stages().len() {
        set_order(b, round, squashes, orders, fork)?;
    }
    Ok(())
}
