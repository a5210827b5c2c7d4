//! What reservations and writes put into a slot.
ghost use Rattle.std.specs.Prelude.{◌≡◌, ℕ, ◌+◌, ◌-◌, ◌*◌, ◌^◌, ◌<◌, ◌≤◌, length, IfOk, slice_index_or};
ghost use Rattle.pdl_net.specs.declared.BinOp.TheVariants.{Eq};
ghost use Rattle.pdl_net.specs.Signal.{const_signal, bin_signal, mux_signal};
ghost use Rattle.pdl_net.specs.Meaning.{Means, signal};
ghost use Rattle.pdl_net.specs.HasWidth.{HasWidth};
ghost use Rattle.pdl_net.specs.Growth.{Extends};
ghost use Rattle.pdl_lockapi.specs.Laws.{step_signals, ticket_at};
ghost use Rattle.pdl_lock_ring.specs.Slots.{IsSized};
ghost use Rattle.pdl_lock_ring.specs.Ready.{HasPorts, IsReady};
ghost use Rattle.pdl_lock_ring.specs.Steps.{first_slot, second_slot, number_at, reserved_addr, written_slot, fills_slot, filled_bit, filled_value, content_after, slot_addr, slot_bit, slot_value};

use crate::layout::{Content, RingLayout};
use crate::taken::{Taken, emit_gate};
use pdl_build::Builder;
use pdl_kit::NoMemory;
use pdl_lockapi::{LockPorts, TicketWrite};
use pdl_net::{BinOp, Net};
use pdl_word::Word;

/// The write port of a number.
pub fn write_port(p: &LockPorts, j: usize) -> TicketWrite
    requires { j < length p.now.writes }
    ensures { slice_index_or p.now.writes j result ≡ result }
{
    p.writes.as_slice()[j]
}

/// Whether the slot of this number is given to the first reservation, and whether to the second one.
#[tactic(auto, using(crate::proofs::RingGrowth::ready_kept))]
fn emit_takes(
    b: &mut Builder,
    l: RingLayout,
    p: &LockPorts,
    t: Taken,
    slot: Net,
) -> Result<(Net, Net), NoMemory>
    requires ready { IsReady b.old l p.now t }
    requires slot { HasWidth b.old slot l.ticket }
    ensures first { IfOk result (λ x. Means b.new x.0
        (bin_signal Eq (first_slot l (step_signals b.old p.now)) (signal b.old slot))) }
    ensures second { IfOk result (λ x. Means b.new x.1
        (bin_signal Eq (second_slot l (step_signals b.old p.now)) (signal b.old slot))) }
    ensures extends { Extends b.old b.new }
{
    let first = b.bin(BinOp::Eq, t.first_slot, slot)?;
    let second = b.bin(BinOp::Eq, t.second_slot, slot)?;
    Ok((first, second))
}

/// The address of the slot of this number after the reservations, from what it was before.
#[tactic(auto, using(crate::proofs::Fills::reserved_addr_is, crate::proofs::RingGrowth::ready_kept))]
pub fn emit_reserved(
    b: &mut Builder,
    l: RingLayout,
    p: &LockPorts,
    t: Taken,
    addr: Net,
    slot: Net,
) -> Result<Net, NoMemory>
    requires ready { IsReady b.old l p.now t }
    requires addr { HasWidth b.old addr l.bits }
    requires slot { HasWidth b.old slot l.ticket }
    ensures means { IfOk result (λ x.
        Means b.new x (reserved_addr l (step_signals b.old p.now) (signal b.old addr)
        (signal b.old slot))) }
    ensures wide { IfOk result (λ x. (signal b.new x).width ≡ l.bits) }
    ensures extends { Extends b.old b.new }
{
    let (first, second) = emit_takes(b, l, p, t, slot)?;
    let kept = b.mux(first, t.first, addr)?;
    let addr = b.mux(second, t.second, kept)?;
    Ok(addr)
}

/// The number of slot k.
#[tactic(auto)]
fn emit_number(b: &mut Builder, l: RingLayout, k: usize) -> Result<Net, NoMemory>
    requires sized { IsSized l }
    requires slot_in { k < l.size }
    ensures means { IfOk result (λ x. Means b.new x (number_at l k)) }
    ensures extends { Extends b.old b.new }
{
    b.constant(l.ticket, k as Word)
}

/// Slot k's address after the reservations.
#[tactic(auto, using(crate::proofs::RingGrowth::ready_kept))]
pub fn emit_addr(
    b: &mut Builder,
    l: RingLayout,
    p: &LockPorts,
    t: Taken,
    k: usize,
) -> Result<Net, NoMemory>
    requires ready { IsReady b.old l p.now t }
    requires slot_in { k < l.size }
    ensures means { IfOk result (λ x. Means b.new x (slot_addr l (step_signals b.old p.now) k)) }
    ensures wide { IfOk result (λ x. (signal b.new x).width ≡ l.bits) }
    ensures extends { Extends b.old b.new }
{
    let slot = emit_number(b, l, k)?;
    let addr = emit_reserved(b, l, p, t, Net::Reg(l.from + 2 + k), slot)?;
    Ok(addr)
}

/// Slot k's value bit after the reservations.
#[tactic(auto, using(crate::proofs::Fills::filling, crate::proofs::RingGrowth::ready_kept))]
fn emit_emptied(
    b: &mut Builder,
    l: RingLayout,
    p: &LockPorts,
    t: Taken,
    k: usize,
) -> Result<Net, NoMemory>
    requires ready { IsReady b.old l p.now t }
    requires slot_in { k < l.size }
    ensures means { IfOk result (λ x. Means b.new x (filled_bit l (step_signals b.old p.now) k 0)) }
    ensures extends { Extends b.old b.new }
{
    let slot = emit_number(b, l, k)?;
    let (first, second) = emit_takes(b, l, p, t, slot)?;
    let zero = b.constant(1, 0)?;
    let kept = b.mux(first, zero, Net::Reg(l.from + 2 + l.size + k))?;
    let bit = b.mux(second, zero, kept)?;
    Ok(bit)
}

/// The slot into which write port j writes, or a number that no slot has.
#[tactic(auto, using(crate::proofs::Fills::ticket_is))]
pub fn emit_written(
    b: &mut Builder,
    l: RingLayout,
    p: &LockPorts,
    j: usize,
) -> Result<Net, NoMemory>
    requires given { HasPorts b.old l p.now }
    requires within { j < length p.now.writes }
    ensures means { IfOk result (λ x. Means b.new x (written_slot l (step_signals b.old p.now) j)) }
    ensures wide { IfOk result (λ x. (signal b.new x).width ≡ l.ticket) }
    ensures extends { Extends b.old b.new }
{
    let port = write_port(p, j);
    emit_gate(b, l, port.enable, port.ticket)
}

/// Whether write port j writes into slot k.
#[tactic(auto)]
fn emit_match(
    b: &mut Builder,
    l: RingLayout,
    p: &LockPorts,
    k: usize,
    j: usize,
) -> Result<Net, NoMemory>
    requires given { HasPorts b.old l p.now }
    requires slot_in { k < l.size }
    requires within { j < length p.now.writes }
    ensures means { IfOk result (λ x. Means b.new x (fills_slot l (step_signals b.old p.now) k j)) }
    ensures extends { Extends b.old b.new }
{
    let written = emit_written(b, l, p, j)?;
    let slot = emit_number(b, l, k)?;
    b.bin(BinOp::Eq, written, slot)
}

/// Slot k's value bit after the reservations and all write ports.
#[tactic(auto, using(crate::proofs::Fills::filling, crate::proofs::RingGrowth::ports_kept))]
pub fn emit_bit(
    b: &mut Builder,
    l: RingLayout,
    p: &LockPorts,
    t: Taken,
    k: usize,
) -> Result<Net, NoMemory>
    requires ready { IsReady b.old l p.now t }
    requires slot_in { k < l.size }
    ensures bit { IfOk result (λ x. Means b.new x (slot_bit l (step_signals b.old p.now) k)) }
    ensures extends { Extends b.old b.new }
{
    let one = b.constant(1, 1)?;
    let mut bit = emit_emptied(b, l, p, t, k)?;
    for j in 0..p.writes.len() {
        let fills = emit_match(b, l, p, k, j)?;
        bit = b.mux(fills, one, bit)?;
    }
    Ok(bit)
}

/// The value of the slot of this number after write port j.
#[tactic(auto, using(crate::proofs::Fills::ticket_is, crate::proofs::RingGrowth::ports_kept))]
fn emit_put(
    b: &mut Builder,
    l: RingLayout,
    p: &LockPorts,
    j: usize,
    value: Net,
    slot: Net,
) -> Result<Net, NoMemory>
    requires given { HasPorts b.old l p.now }
    requires within { j < length p.now.writes }
    requires value { HasWidth b.old value l.width }
    requires slot { HasWidth b.old slot l.ticket }
    ensures value { IfOk result (λ x. Means b.new x
        (mux_signal (bin_signal Eq (written_slot l (step_signals b.old p.now) j) (signal b.old slot))
        (ticket_at (step_signals b.old p.now).writes j).value (signal b.old value))) }
    ensures value_wide { IfOk result (λ x. (signal b.new x).width ≡ l.width) }
    ensures extends { Extends b.old b.new }
{
    let port = write_port(p, j);
    let written = emit_written(b, l, p, j)?;
    let fills = b.bin(BinOp::Eq, written, slot)?;
    let put = b.mux(fills, port.value, value)?;
    Ok(put)
}

/// The value of the slot of this number after all write ports, from what it was before.
#[tactic(auto, using(crate::proofs::Fills::filling, crate::proofs::RingGrowth::ports_kept))]
pub fn emit_value(
    b: &mut Builder,
    l: RingLayout,
    p: &LockPorts,
    before: Net,
    slot: Net,
) -> Result<Net, NoMemory>
    requires given { HasPorts b.old l p.now }
    requires before { HasWidth b.old before l.width }
    requires slot { HasWidth b.old slot l.ticket }
    ensures value { IfOk result (λ x.
        Means b.new x (filled_value l (step_signals b.old p.now) (signal b.old before)
        (signal b.old slot) (length p.now.writes))) }
    ensures value_wide { IfOk result (λ x. (signal b.new x).width ≡ l.width) }
    ensures extends { Extends b.old b.new }
{
    let mut value = before;
    for j in 0..p.writes.len() {
        value = emit_put(b, l, p, j, value, slot)?;
    }
    Ok(value)
}

/// What the slot of this number holds after all write ports, a value or a place.
#[tactic(auto, using(crate::proofs::Fills::contents))]
pub fn emit_filled(
    b: &mut Builder,
    l: RingLayout,
    p: &LockPorts,
    content: Net,
    slot: Net,
) -> Result<Net, NoMemory>
    requires given { HasPorts b.old l p.now }
    requires content { HasWidth b.old content l.kept }
    requires slot { HasWidth b.old slot l.ticket }
    ensures content { IfOk result (λ x.
        Means b.new x (content_after l.content l (step_signals b.old p.now)
        (signal b.old content) (signal b.old slot))) }
    ensures content_wide { IfOk result (λ x. (signal b.new x).width ≡ l.kept) }
    ensures extends { Extends b.old b.new }
{
    match l.content {
        Content::Value => emit_value(b, l, p, content, slot),
        Content::Place => Ok(content),
    }
}

/// What slot k holds after all write ports.
#[tactic(auto, using(crate::proofs::RingGrowth::ports_kept))]
pub fn emit_content(
    b: &mut Builder,
    l: RingLayout,
    p: &LockPorts,
    k: usize,
) -> Result<Net, NoMemory>
    requires given { HasPorts b.old l p.now }
    requires slot_in { k < l.size }
    ensures content { IfOk result (λ x. Means b.new x (slot_value l (step_signals b.old p.now) k)) }
    ensures content_wide { IfOk result (λ x. (signal b.new x).width ≡ l.kept) }
    ensures extends { Extends b.old b.new }
{
    let slot = emit_number(b, l, k)?;
    let content = emit_filled(b, l, p, Net::Reg(l.from + 2 + 2 * l.size + k), slot)?;
    Ok(content)
}
