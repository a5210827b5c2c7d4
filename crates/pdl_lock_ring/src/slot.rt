//! What the slots take next, and the slot of a ticket after a cycle's reservations and writes.
ghost use Rattle.std.specs.Prelude.{◌≡◌, ℕ, ◌+◌, ◌-◌, ◌*◌, ◌^◌, ◌<◌, ◌≤◌, length, IfOk, OnOk};
ghost use Rattle.pdl_net.specs.Meaning.{Means, signal, next_signal};
ghost use Rattle.pdl_net.specs.HasWidth.{HasWidth};
ghost use Rattle.pdl_net.specs.Growth.{Extends, ExtendsBut};
ghost use Rattle.pdl_lockapi.specs.Laws.{step_signals};
ghost use Rattle.pdl_lock_ring.specs.Registers.{row_of};
ghost use Rattle.pdl_lock_ring.specs.Slots.{IsSized, addr_at, has_at, value_at};
ghost use Rattle.pdl_lock_ring.specs.Ready.{HasPorts, IsReady};
ghost use Rattle.pdl_lock_ring.specs.Steps.{slot_addr, slot_bit, slot_value, addr_of, content_of, NextAddrs, NextBits, NextContents, own_reg, own_addrs, own_bits, own_contents, own_slots};

use crate::choice::{Registers, emit_register};
use crate::fill::{emit_addr, emit_bit, emit_content, emit_filled, emit_reserved};
use crate::layout::RingLayout;
use crate::look::emit_slot_of;
use crate::taken::Taken;
use pdl_build::Builder;
use pdl_kit::NoMemory;
use pdl_lockapi::LockPorts;
use pdl_net::Net;

/// A slot's address and what it holds.
#[derive(Clone, Copy)]
pub struct Slot {
    pub addr: Net,
    pub content: Net,
}

/// The registers of the slots' addresses.
fn addr_registers(l: RingLayout) -> Registers
    requires { IsSized l }
    ensures { result ≡ row_of l (l.from + 2) l.bits }
{
    Registers {
        first: l.from + 2,
        count: l.size,
        width: l.bits,
    }
}

/// The registers of what the slots hold.
fn content_registers(l: RingLayout) -> Registers
    requires { IsSized l }
    ensures { result ≡ row_of l (l.from + 2 + 2 * l.size) l.kept }
{
    Registers {
        first: l.from + 2 + 2 * l.size,
        count: l.size,
        width: l.kept,
    }
}

/// The address of a ticket's slot after the reservations.
#[tactic(auto, using(crate::proofs::RingGrowth::ready_kept))]
fn emit_addr_of(
    b: &mut Builder,
    l: RingLayout,
    p: &LockPorts,
    t: Taken,
    ticket: Net,
) -> Result<Net, NoMemory>
    requires ready { IsReady b.old l p.now t }
    requires ticket { HasWidth b.old ticket l.ticket }
    ensures means { IfOk result (λ x.
        Means b.new x (addr_of l (step_signals b.old p.now) (signal b.old ticket))) }
    ensures wide { IfOk result (λ x. (signal b.new x).width ≡ l.bits) }
    ensures extends { Extends b.old b.new }
{
    let addrs = addr_registers(l);
    let addr = emit_register(b, addrs, ticket, l.ticket - 1, 0)?;
    let slot = emit_slot_of(b, l, ticket)?;
    let reserved = emit_reserved(b, l, p, t, addr, slot)?;
    Ok(reserved)
}

/// The content of a ticket's slot after the writes.
#[tactic(auto, using(crate::proofs::RingGrowth::ports_kept))]
fn emit_content_of(
    b: &mut Builder,
    l: RingLayout,
    p: &LockPorts,
    ticket: Net,
) -> Result<Net, NoMemory>
    requires given { HasPorts b.old l p.now }
    requires ticket { HasWidth b.old ticket l.ticket }
    ensures means { IfOk result (λ x.
        Means b.new x (content_of l (step_signals b.old p.now) (signal b.old ticket))) }
    ensures wide { IfOk result (λ x. (signal b.new x).width ≡ l.kept) }
    ensures extends { Extends b.old b.new }
{
    let contents = content_registers(l);
    let content = emit_register(b, contents, ticket, l.ticket - 1, 0)?;
    let slot = emit_slot_of(b, l, ticket)?;
    let filled = emit_filled(b, l, p, content, slot)?;
    Ok(filled)
}

/// The slot of a ticket after the reservations and writes.
#[tactic(auto, using(crate::proofs::RingGrowth::ready_kept))]
pub fn emit_at(
    b: &mut Builder,
    l: RingLayout,
    p: &LockPorts,
    t: Taken,
    ticket: Net,
) -> Result<Slot, NoMemory>
    requires ready { IsReady b.old l p.now t }
    requires ticket { HasWidth b.old ticket l.ticket }
    ensures addr { IfOk result (λ s.
        Means b.new s.addr (addr_of l (step_signals b.old p.now) (signal b.old ticket))) }
    ensures content { IfOk result (λ s.
        Means b.new s.content (content_of l (step_signals b.old p.now) (signal b.old ticket))) }
    ensures addr_wide { IfOk result (λ s. (signal b.new s.addr).width ≡ l.bits) }
    ensures content_wide { IfOk result (λ s. (signal b.new s.content).width ≡ l.kept) }
    ensures extends { Extends b.old b.new }
{
    let addr = emit_addr_of(b, l, p, t, ticket)?;
    let content = emit_content_of(b, l, p, ticket)?;
    Ok(Slot { addr, content })
}

/// What slot k's address takes next.
#[tactic(auto, using(crate::proofs::RingGrowth::slots_kept))]
fn emit_next_addr(
    b: &mut Builder,
    l: RingLayout,
    p: &LockPorts,
    t: Taken,
    k: usize,
) -> Result<(), NoMemory>
    requires ready { IsReady b.old l p.now t }
    requires slot_in { k < l.size }
    ensures next { OnOk result (next_signal b.new (addr_at l k)
        ≡ slot_addr l (step_signals b.old p.now) k) }
    ensures extends { ExtendsBut (own_reg (addr_at l k)) b.old b.new }
{
    let addr = emit_addr(b, l, p, t, k)?;
    b.next(l.from + 2 + k, addr);
    Ok(())
}

/// What slot k's value bit takes next.
#[tactic(auto, using(crate::proofs::Fills::bit_width, crate::proofs::RingGrowth::slots_kept))]
fn emit_next_bit(
    b: &mut Builder,
    l: RingLayout,
    p: &LockPorts,
    t: Taken,
    k: usize,
) -> Result<(), NoMemory>
    requires ready { IsReady b.old l p.now t }
    requires slot_in { k < l.size }
    ensures next { OnOk result (next_signal b.new (has_at l k)
        ≡ slot_bit l (step_signals b.old p.now) k) }
    ensures extends { ExtendsBut (own_reg (has_at l k)) b.old b.new }
{
    let bit = emit_bit(b, l, p, t, k)?;
    b.next(l.from + 2 + l.size + k, bit);
    Ok(())
}

/// What slot k's value takes next.
#[tactic(auto, using(crate::proofs::RingGrowth::slots_kept))]
fn emit_next_content(
    b: &mut Builder,
    l: RingLayout,
    p: &LockPorts,
    k: usize,
) -> Result<(), NoMemory>
    requires given { HasPorts b.old l p.now }
    requires slot_in { k < l.size }
    ensures next { OnOk result (next_signal b.new (value_at l k)
        ≡ slot_value l (step_signals b.old p.now) k) }
    ensures extends { ExtendsBut (own_reg (value_at l k)) b.old b.new }
{
    let content = emit_content(b, l, p, k)?;
    b.next(l.from + 2 + 2 * l.size + k, content);
    Ok(())
}

/// What all addresses take next.
fn emit_addrs(b: &mut Builder, l: RingLayout, p: &LockPorts, t: Taken) -> Result<(), NoMemory>
    requires ready { IsReady b.old l p.now t }
    ensures next { OnOk result (NextAddrs b.new l (step_signals b.old p.now) l.size) }
    ensures extends { ExtendsBut (own_addrs l) b.old b.new }
{
    for k in 0..l.size {
        emit_next_addr(b, l, p, t, k)?;
    }
    Ok(())
}

/// What all value bits take next.
fn emit_bits(b: &mut Builder, l: RingLayout, p: &LockPorts, t: Taken) -> Result<(), NoMemory>
    requires ready { IsReady b.old l p.now t }
    ensures next { OnOk result (NextBits b.new l (step_signals b.old p.now) l.size) }
    ensures extends { ExtendsBut (own_bits l) b.old b.new }
{
    for k in 0..l.size {
        emit_next_bit(b, l, p, t, k)?;
    }
    Ok(())
}

/// What all values take next.
pub fn emit_contents(b: &mut Builder, l: RingLayout, p: &LockPorts) -> Result<(), NoMemory>
    requires given { HasPorts b.old l p.now }
    ensures next { OnOk result (NextContents b.new l (step_signals b.old p.now) l.size) }
    ensures extends { ExtendsBut (own_contents l) b.old b.new }
{
    for k in 0..l.size {
        emit_next_content(b, l, p, k)?;
    }
    Ok(())
}

/// What the addresses and value bits of all slots take next.
#[tactic(auto, using(crate::proofs::RingGrowth::ready_kept_but))]
pub fn emit_slots(b: &mut Builder, l: RingLayout, p: &LockPorts, t: Taken) -> Result<(), NoMemory>
    requires ready { IsReady b.old l p.now t }
    ensures addrs { OnOk result (NextAddrs b.new l (step_signals b.old p.now) l.size) }
    ensures bits { OnOk result (NextBits b.new l (step_signals b.old p.now) l.size) }
    ensures extends { ExtendsBut (own_slots l) b.old b.new }
{
    emit_addrs(b, l, p, t)?;
    emit_bits(b, l, p, t)?;
    Ok(())
}
