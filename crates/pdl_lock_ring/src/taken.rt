//! The reservations of a cycle: their addresses, and the slots that they are given.
ghost use Rattle.std.specs.Prelude.{◌≡◌, ℕ, ◌+◌, ◌-◌, ◌*◌, ◌^◌, ◌<◌, ◌≤◌, length, IfOk, slice_index_or};
ghost use Rattle.pdl_net.specs.Signal.{const_signal, mux_signal};
ghost use Rattle.pdl_net.specs.Meaning.{Means, signal};
ghost use Rattle.pdl_net.specs.HasWidth.{HasWidth};
ghost use Rattle.pdl_net.specs.Growth.{Extends};
ghost use Rattle.pdl_lockapi.specs.Laws.{step_signals, reserve_at};
ghost use Rattle.pdl_lock_ring.specs.Looks.{slot_of};
ghost use Rattle.pdl_lock_ring.specs.Asks.{IsAsked, IsAskedNext};
ghost use Rattle.pdl_lock_ring.specs.Ready.{HasPorts, IsReady};
ghost use Rattle.pdl_lock_ring.specs.Slots.{IsSized, HasSlots};

use crate::layout::RingLayout;
use crate::look::{by_kind, emit_slot_of};
use crate::state::emit_ticket2;
use pdl_build::Builder;
use pdl_kit::NoMemory;
use pdl_lockapi::{LockPorts, ReservePort};
use pdl_net::Net;
use pdl_word::Word;

/// Whether one reserve port asks for an entry, whether two do, the address of the last that does, and that of the one before it.
#[derive(Clone, Copy)]
pub struct Asked {
    pub one: Net,
    pub two: Net,
    pub last: Net,
    pub before: Net,
}

/// Whether one entry is taken, whether two are, the addresses of the first and the second one, and their slots, which are a number that no slot has where there is none.
#[derive(Clone, Copy)]
pub struct Taken {
    pub one: Net,
    pub two: Net,
    pub first: Net,
    pub second: Net,
    pub first_slot: Net,
    pub second_slot: Net,
}

/// The reserve port of a number.
fn reserve_port(p: &LockPorts, k: usize) -> ReservePort
    requires { k < length p.now.reserves }
    ensures { slice_index_or p.now.reserves k result ≡ result }
{
    p.reserves.as_slice()[k]
}

/// What is asked after reserve port k; one for reading asks for no entry.
#[tactic(auto, using(crate::proofs::Reserves::reserve_is, crate::proofs::Reserves::reserve_width, crate::proofs::Reserves::taken_means))]
fn emit_ask(
    b: &mut Builder,
    l: RingLayout,
    p: &LockPorts,
    k: usize,
    before: Asked,
) -> Result<Asked, NoMemory>
    requires given { HasPorts b.old l p.now }
    requires within { k < length p.now.reserves }
    requires asked { IsAsked b.old l (step_signals b.old p.now) k before }
    ensures asked { IfOk result (λ x.
        IsAskedNext b.old b.new l (step_signals b.old p.now) k before x) }
    ensures extends { Extends b.old b.new }
{
    let port = reserve_port(p, k);
    let one = b.constant(1, 1)?;
    let zero = b.constant(1, 0)?;
    let enable = by_kind(port.kind, zero, port.enable);
    let two = b.mux(enable, before.one, before.two)?;
    let one = b.mux(enable, one, before.one)?;
    let last = b.mux(enable, port.addr, before.last)?;
    let before = b.mux(enable, before.last, before.before)?;
    Ok(Asked {
        one,
        two,
        last,
        before,
    })
}

/// What all reserve ports ask.
#[tactic(auto, using(crate::proofs::Reserves::asked_none, crate::proofs::Reserves::asked_more, pdl_lockapi::proofs::LockGrowth::ports))]
fn emit_asked(b: &mut Builder, l: RingLayout, p: &LockPorts) -> Result<Asked, NoMemory>
    requires given { HasPorts b.old l p.now }
    ensures asked { IfOk result (λ x.
        IsAsked b.new l (step_signals b.old p.now) (length p.now.reserves) x) }
    ensures extends { Extends b.old b.new }
{
    let zero = b.constant(1, 0)?;
    let none = b.constant(l.bits, 0)?;
    let mut asked = Asked {
        one: zero,
        two: zero,
        last: none,
        before: none,
    };
    for k in 0..p.reserves.len() {
        asked = emit_ask(b, l, p, k, asked)?;
    }
    Ok(asked)
}

/// The slot of a ticket where a net is 1, else a number that no slot has.
#[tactic(auto)]
pub fn emit_gate(b: &mut Builder, l: RingLayout, on: Net, ticket: Net) -> Result<Net, NoMemory>
    requires sized { IsSized l }
    requires on { HasWidth b.old on 1 }
    requires ticket { HasWidth b.old ticket l.ticket }
    ensures means { IfOk result (λ x.
        Means b.new x (mux_signal (signal b.old on) (slot_of l (signal b.old ticket))
        (const_signal l.ticket l.size))) }
    ensures wide { IfOk result (λ x. (signal b.new x).width ≡ l.ticket) }
    ensures extends { Extends b.old b.new }
{
    let slot = emit_slot_of(b, l, ticket)?;
    let none = b.constant(l.ticket, l.size as Word)?;
    b.mux(on, slot, none)
}

/// The entries that a cycle's reservations take.
#[tactic(auto, using(crate::proofs::RingGrowth::slots_kept, pdl_lockapi::proofs::LockGrowth::ports))]
pub fn emit_taken(b: &mut Builder, l: RingLayout, p: &LockPorts) -> Result<Taken, NoMemory>
    requires given { HasPorts b.old l p.now }
    ensures ready { IfOk result (λ t. IsReady b.new l p.now t) }
    ensures extends { Extends b.old b.new }
{
    let asked = emit_asked(b, l, p)?;
    let first = b.mux(asked.two, asked.before, asked.last)?;
    let ticket2 = emit_ticket2(b, l)?;
    let first_slot = emit_gate(b, l, asked.one, Net::Reg(l.from + 1))?;
    let second_slot = emit_gate(b, l, asked.two, ticket2)?;
    Ok(Taken {
        one: asked.one,
        two: asked.two,
        first,
        second: asked.last,
        first_slot,
        second_slot,
    })
}
