//! Looks: which pending writes are older and have the address, and the word of the array.
ghost use Rattle.std.specs.Prelude.{◌≡◌, ℕ, ◌+◌, ◌-◌, ◌*◌, ◌^◌, ◌<◌, ◌≤◌, IfOk};
ghost use Rattle.pdl_net.specs.Meaning.{Means, signal};
ghost use Rattle.pdl_net.specs.HasWidth.{HasWidth};
ghost use Rattle.pdl_net.specs.Growth.{Extends};
ghost use Rattle.pdl_lock_ring.specs.Slots.{IsSized, HasSlots};
ghost use Rattle.pdl_lock_ring.specs.Looks.{slot_of, shifted_slots, slots_from, turns_of, passed_slots, oldest_slot, older_slots, same_at, same_slots, hit_slots, net_by_kind, GivesWord};

use crate::choice::power;
use crate::layout::RingLayout;
use pdl_build::Builder;
use pdl_kit::NoMemory;
use pdl_lockapi::Kind;
use pdl_net::{BinOp, Net};
use pdl_word::Word;

/// A number modulo the number of slots.
#[tactic(auto)]
pub fn emit_slot_of(b: &mut Builder, l: RingLayout, ticket: Net) -> Result<Net, NoMemory>
    requires sized { IsSized l }
    requires ticket { HasWidth b.old ticket l.ticket }
    ensures means { IfOk result (λ x. Means b.new x (slot_of l (signal b.old ticket))) }
    ensures extends { Extends b.old b.new }
{
    let mask = b.constant(l.ticket, l.size as Word - 1)?;
    b.bin(BinOp::And, ticket, mask)
}

/// A word with a bit for each slot, moved up by the slot of a ticket.
#[tactic(auto, using(crate::proofs::SlotWidths::extending))]
fn emit_shifted(b: &mut Builder, l: RingLayout, slots: Word, ticket: Net) -> Result<Net, NoMemory>
    requires sized { IsSized l }
    requires ticket { HasWidth b.old ticket l.ticket }
    requires few { slots < 2 ^ l.size }
    ensures means { IfOk result (λ x.
        Means b.new x (shifted_slots l slots (signal b.old ticket))) }
    ensures wide { IfOk result (λ x. (signal b.new x).width ≡ l.size) }
    ensures extends { Extends b.old b.new }
{
    let slots = b.constant(l.size as u8, slots)?;
    let slot = emit_slot_of(b, l, ticket)?;
    let places = b.zero_extend(slot, l.size as u8)?;
    b.bin(BinOp::Shl, slots, places)
}

/// The slots from that of a ticket on.
#[tactic(auto)]
pub fn emit_from(b: &mut Builder, l: RingLayout, ticket: Net) -> Result<Net, NoMemory>
    requires sized { IsSized l }
    requires ticket { HasWidth b.old ticket l.ticket }
    ensures means { IfOk result (λ x. Means b.new x (slots_from l (signal b.old ticket))) }
    ensures wide { IfOk result (λ x. (signal b.new x).width ≡ l.size) }
    ensures extends { Extends b.old b.new }
{
    let all = power(l.size as u8) as Word - 1;
    emit_shifted(b, l, all, ticket)
}

/// These, and in every second round of the ring the others.
#[tactic(auto, unfolding(crate::specs::Looks::turns_of))]
fn emit_turns(b: &mut Builder, l: RingLayout, ticket: Net) -> Result<Net, NoMemory>
    requires sized { IsSized l }
    requires ticket { HasWidth b.old ticket l.ticket }
    ensures means { IfOk result (λ x. Means b.new x (turns_of l (signal b.old ticket))) }
    ensures wide { IfOk result (λ x. (signal b.new x).width ≡ l.size) }
    ensures extends { Extends b.old b.new }
{
    let from = emit_from(b, l, ticket)?;
    let before = b.not(from)?;
    let round = b.slice(ticket, l.ticket - 1, l.ticket - 1)?;
    b.mux(round, before, from)
}

/// The slots that have a ticket from the head's up to this one.
#[tactic(auto, using(crate::proofs::RingGrowth::slots_kept), unfolding(crate::specs::Looks::passed_slots))]
fn emit_passed(b: &mut Builder, l: RingLayout, ticket: Net) -> Result<Net, NoMemory>
    requires sized { IsSized l }
    requires slots { HasSlots b.old l }
    requires ticket { HasWidth b.old ticket l.ticket }
    ensures means { IfOk result (λ x. Means b.new x (passed_slots l (signal b.old ticket))) }
    ensures wide { IfOk result (λ x. (signal b.new x).width ≡ l.size) }
    ensures extends { Extends b.old b.new }
{
    let turns = emit_turns(b, l, ticket)?;
    let first = emit_turns(b, l, Net::Reg(l.from))?;
    b.bin(BinOp::Xor, turns, first)
}

/// The head's slot where the ticket is another one than the head's.
#[tactic(auto, using(crate::proofs::RingGrowth::slots_kept), unfolding(crate::specs::Looks::oldest_slot, crate::specs::Looks::head_slot))]
fn emit_oldest_slot(b: &mut Builder, l: RingLayout, ticket: Net) -> Result<Net, NoMemory>
    requires sized { IsSized l }
    requires slots { HasSlots b.old l }
    requires ticket { HasWidth b.old ticket l.ticket }
    ensures means { IfOk result (λ x. Means b.new x (oldest_slot l (signal b.old ticket))) }
    ensures wide { IfOk result (λ x. (signal b.new x).width ≡ l.size) }
    ensures extends { Extends b.old b.new }
{
    let head = Net::Reg(l.from);
    let later = b.bin(BinOp::Ne, ticket, head)?;
    let slot = emit_shifted(b, l, 1, head)?;
    let none = b.constant(l.size as u8, 0)?;
    b.mux(later, slot, none)
}

/// The pending writes with lower tickets than this one.
#[tactic(auto, using(crate::proofs::RingGrowth::slots_kept), unfolding(crate::specs::Looks::older_slots))]
fn emit_older(b: &mut Builder, l: RingLayout, ticket: Net) -> Result<Net, NoMemory>
    requires sized { IsSized l }
    requires slots { HasSlots b.old l }
    requires ticket { HasWidth b.old ticket l.ticket }
    ensures means { IfOk result (λ x. Means b.new x (older_slots l (signal b.old ticket))) }
    ensures wide { IfOk result (λ x. (signal b.new x).width ≡ l.size) }
    ensures extends { Extends b.old b.new }
{
    let pending = emit_passed(b, l, Net::Reg(l.from + 1))?;
    let passed = emit_passed(b, l, ticket)?;
    let oldest = emit_oldest_slot(b, l, ticket)?;
    let before = b.bin(BinOp::Or, oldest, passed)?;
    b.bin(BinOp::And, pending, before)
}

/// Whether slot k has the address.
#[tactic(auto)]
fn emit_same(b: &mut Builder, l: RingLayout, addr: Net, k: usize) -> Result<Net, NoMemory>
    requires sized { IsSized l }
    requires slots { HasSlots b.old l }
    requires within { k < l.size }
    requires addr { HasWidth b.old addr l.bits }
    ensures means { IfOk result (λ x. Means b.new x (same_at l (signal b.old addr) k)) }
    ensures extends { Extends b.old b.new }
{
    b.bin(BinOp::Eq, Net::Reg(l.from + 2 + k), addr)
}

/// The slots that have the address.
#[tactic(auto, using(crate::proofs::RingGrowth::slots_kept, crate::proofs::SlotBits::gathering))]
fn emit_same_slots(b: &mut Builder, l: RingLayout, addr: Net) -> Result<Net, NoMemory>
    requires sized { IsSized l }
    requires slots { HasSlots b.old l }
    requires addr { HasWidth b.old addr l.bits }
    ensures means { IfOk result (λ x. Means b.new x (same_slots l (signal b.old addr))) }
    ensures wide { IfOk result (λ x. (signal b.new x).width ≡ l.size) }
    ensures extends { Extends b.old b.new }
{
    let mut slots = emit_same(b, l, addr, 0)?;
    for k in 1..l.size {
        let same = emit_same(b, l, addr, k)?;
        slots = b.cat(same, slots)?;
    }
    Ok(slots)
}

/// The older pending writes of the address.
#[tactic(auto, using(crate::proofs::RingGrowth::slots_kept), unfolding(crate::specs::Looks::hit_slots))]
pub fn emit_hits(b: &mut Builder, l: RingLayout, addr: Net, ticket: Net) -> Result<Net, NoMemory>
    requires sized { IsSized l }
    requires slots { HasSlots b.old l }
    requires addr { HasWidth b.old addr l.bits }
    requires ticket { HasWidth b.old ticket l.ticket }
    ensures means { IfOk result (λ x.
        Means b.new x (hit_slots l (signal b.old addr) (signal b.old ticket))) }
    ensures wide { IfOk result (λ x. (signal b.new x).width ≡ l.size) }
    ensures extends { Extends b.old b.new }
{
    let older = emit_older(b, l, ticket)?;
    let same = emit_same_slots(b, l, addr)?;
    b.bin(BinOp::And, same, older)
}

/// The word of the array at an address; a delayed memory has none.
pub fn emit_read(b: &mut Builder, l: RingLayout, addr: Net) -> Result<Option<Net>, NoMemory>
    requires slots { HasSlots b.old l }
    requires addr { HasWidth b.old addr l.bits }
    ensures word { IfOk result (λ v. GivesWord b.new l (signal b.old addr) v) }
    ensures extends { Extends b.old b.new }
{
    match l.array {
        None => Ok(None),
        Some(m) => {
            let word = b.read(m, addr)?;
            Ok(Some(word))
        }
    }
}

/// Of two nets the one for looks and reservations of this kind.
pub fn by_kind(kind: Kind, reads: Net, writes: Net) -> Net
    ensures { result ≡ net_by_kind kind reads writes }
{
    match kind {
        Kind::R => reads,
        Kind::W => writes,
    }
}
