//! The step of an order: what its two registers take next.
ghost use Rattle.std.specs.Prelude.{◌≡◌, ◌+◌, ◌^◌, ◌<◌, ◌≤◌, IfOk, OnOk};
ghost use Rattle.pdl_net.specs.Signal.{const_signal};
ghost use Rattle.pdl_net.specs.Meaning.{IsThere, Means, signal};
ghost use Rattle.pdl_net.specs.Growth.{Extends, ExtendsBut};
ghost use Rattle.pdl_order.specs.Laws.{own, HasPorts, step_signals, StepLaw};
ghost use Rattle.pdl_order.specs.Words.{HasWords, ArePlaced, stands};
ghost use Rattle.pdl_order.specs.Nets.{used_left, sides_left, more_signal, used_entered, sides_entered, next_used, next_sides, NextWords, own_words};

use crate::layout::OrderLayout;
use crate::{OrderPorts, OrderRegs};
use pdl_build::Builder;
use pdl_kit::NoMemory;
use pdl_net::{BinOp, Net};

/// The nets of the two words of an order.
#[derive(Clone, Copy)]
struct WordNets {
    used: Net,
    sides: Net,
}

/// The words after the oldest thread has left, where it does.
#[tactic(auto, using(crate::proofs::Lists::one_fits))]
fn emit_left(b: &mut Builder, l: OrderLayout, p: &OrderPorts) -> Result<WordNets, NoMemory>
    requires words { HasWords b.old l }
    requires ports { HasPorts b.old p.now }
    ensures used { IfOk result (λ x. Means b.new x.used (used_left l (step_signals b.old p.now))) }
    ensures sides { IfOk result (λ x.
        Means b.new x.sides (sides_left l (step_signals b.old p.now))) }
    ensures extends { Extends b.old b.new }
{
    let used = Net::Reg(l.from);
    let sides = Net::Reg(l.from + 1);
    let one = b.constant(l.stages, 1)?;
    let fewer_used = b.bin(BinOp::Shr, used, one)?;
    let fewer_sides = b.bin(BinOp::Shr, sides, one)?;
    Ok(WordNets {
        used: b.mux(p.left, fewer_used, used)?,
        sides: b.mux(p.left, fewer_sides, sides)?,
    })
}

/// The words with the bit of one thread more, from those after the oldest has left.
#[tactic(auto, using(crate::proofs::Lists::one_fits))]
fn emit_more(
    b: &mut Builder,
    l: OrderLayout,
    p: &OrderPorts,
    left: WordNets,
) -> Result<WordNets, NoMemory>
    requires words { HasWords b.old l }
    requires used { Means b.old left.used (used_left l (step_signals b.old p.now)) }
    requires sides { Means b.old left.sides (sides_left l (step_signals b.old p.now)) }
    ensures used { IfOk result (λ x.
        Means b.new x.used (more_signal l (step_signals b.old p.now)
        (used_left l (step_signals b.old p.now)))) }
    ensures sides { IfOk result (λ x.
        Means b.new x.sides (more_signal l (step_signals b.old p.now)
        (sides_left l (step_signals b.old p.now)))) }
    ensures extends { Extends b.old b.new }
{
    let one = b.constant(l.stages, 1)?;
    let place = b.bin(BinOp::Add, left.used, one)?;
    let used = b.bin(BinOp::Add, left.used, place)?;
    let sides = b.bin(BinOp::Add, left.sides, place)?;
    Ok(WordNets { used, sides })
}

/// The words with the thread that comes in.
#[tactic(auto, using(crate::proofs::OrderGrowth::words_kept))]
fn emit_entered(b: &mut Builder, l: OrderLayout, p: &OrderPorts) -> Result<WordNets, NoMemory>
    requires words { HasWords b.old l }
    requires ports { HasPorts b.old p.now }
    ensures used { IfOk result (λ x.
        Means b.new x.used (used_entered l (step_signals b.old p.now))) }
    ensures sides { IfOk result (λ x.
        Means b.new x.sides (sides_entered l (step_signals b.old p.now))) }
    ensures extends { Extends b.old b.new }
{
    let left = emit_left(b, l, p)?;
    let more = emit_more(b, l, p, left)?;
    let second = b.mux(p.entered_second, more.used, left.used)?;
    let used = b.mux(p.entered_first, more.used, second)?;
    let sides = b.mux(p.entered_first, more.sides, left.sides)?;
    Ok(WordNets { used, sides })
}

/// What the two registers take next.
fn emit_next(b: &mut Builder, l: OrderLayout, p: &OrderPorts) -> Result<WordNets, NoMemory>
    requires words { HasWords b.old l }
    requires ports { HasPorts b.old p.now }
    ensures used { IfOk result (λ x. Means b.new x.used (next_used l (step_signals b.old p.now))) }
    ensures sides { IfOk result (λ x.
        Means b.new x.sides (next_sides l (step_signals b.old p.now))) }
    ensures extends { Extends b.old b.new }
{
    let entered = emit_entered(b, l, p)?;
    let none = b.constant(l.stages, 0)?;
    Ok(WordNets {
        used: b.mux(p.emptied, none, entered.used)?,
        sides: b.mux(p.emptied, none, entered.sides)?,
    })
}

/// Sets what the two registers take next.
#[tactic(auto, using(crate::proofs::OrderGrowth::words_kept))]
fn emit_words(b: &mut Builder, l: OrderLayout, p: &OrderPorts) -> Result<(), NoMemory>
    requires words { HasWords b.old l }
    requires ports { HasPorts b.old p.now }
    ensures next { OnOk result (NextWords b.new l (step_signals b.old p.now)) }
    ensures extends { ExtendsBut (own_words l) b.old b.new }
{
    let next = emit_next(b, l, p)?;
    b.next(l.from, next.used);
    b.next(l.from + 1, next.sides);
    Ok(())
}

/// Makes what the registers of an order take next; it is called once.
pub fn emit_order_step(b: &mut Builder, r: &OrderRegs, p: &OrderPorts) -> Result<(), NoMemory>
    requires placed { ArePlaced b.old r.now }
    requires ports { HasPorts b.old p.now }
    ensures law { OnOk result (StepLaw (stands r.now) r.now.stages (own r.now) b.new
        (step_signals b.old p.now)) }
    ensures extends { ExtendsBut (own r.now) b.old b.new }
{
    let l = OrderLayout::of(r);
    emit_words(b, l, p)?;
    Ok(())
}
