//! The registers and the array of the ring, and the nets of room and tickets.
ghost use Rattle.std.specs.Prelude.{◌≡◌, ℕ, [], ◌+◌, ◌-◌, ◌*◌, ◌^◌, ◌<◌, ◌≤◌, length, not, IfOk, OnOk, is_some};
ghost use Rattle.pdl_net.specs.Meaning.{IsThere, Means, signal};
ghost use Rattle.pdl_net.specs.Growth.{Extends, ExtendsArrays, Keeps};
ghost use Rattle.pdl_semantics.specs.Tree.{Queue};
ghost use Rattle.pdl_lockapi.specs.Laws.{arrays_of, IsFragment, HasRegNets, HasNoPorts, StartLaw, RoomLaw, TicketLaw};
ghost use Rattle.pdl_lockapi.specs.Second.{HasSecondNets, Room2Law, Ticket2Law};
ghost use Rattle.pdl_lockapi.specs.SlotLaws.{SlotsLaw};
ghost use Rattle.pdl_lock_ring.specs.Slots.{Suits, IsMemDepth, IsSized, HasOwnArray, HasSlots, AreFirst, AreReset, IsMemArray, IsLayout, ArePlaced, Stands, layout_of, ticket_bits, numbers_from, slot_numbers, slots_of};
ghost use Rattle.pdl_lock_ring.specs.Registers.{HasRow, IsRowReset, row_of};
ghost use Rattle.pdl_lock_ring.specs.Looks.{count_signal, second_ticket, room_signal, room2_signal};
ghost use Rattle.pdl_word.specs.Words.{widest};

use crate::choice::Registers;
use crate::layout::{Content, RingLayout, address_bits, ticket_width};
use pdl_build::Builder;
use pdl_kit::{MemInfo, NoMemory, Seq};
use pdl_lockapi::LockRegs;
use pdl_net::{BinOp, Net};
use pdl_word::Word;
use std::alloc::Global;

/// How many writes are pending.
#[tactic(auto)]
fn emit_count(b: &mut Builder, l: RingLayout) -> Result<Net, NoMemory>
    requires sized { IsSized l }
    requires slots { HasSlots b.old l }
    ensures means { IfOk result (λ x. Means b.new x (count_signal l)) }
    ensures extends { Extends b.old b.new }
{
    b.bin(BinOp::Sub, Net::Reg(l.from + 1), Net::Reg(l.from))
}

/// The ticket after the next one.
#[tactic(auto)]
pub fn emit_ticket2(b: &mut Builder, l: RingLayout) -> Result<Net, NoMemory>
    requires sized { IsSized l }
    requires slots { HasSlots b.old l }
    ensures means { IfOk result (λ x. Means b.new x (second_ticket l)) }
    ensures wide { IfOk result (λ x. (signal b.new x).width ≡ l.ticket) }
    ensures extends { Extends b.old b.new }
{
    let one = b.constant(l.ticket, 1)?;
    b.bin(BinOp::Add, Net::Reg(l.from + 1), one)
}

/// Room for one reservation: fewer writes are pending than there are slots.
#[tactic(auto)]
pub fn emit_room(b: &mut Builder, l: RingLayout) -> Result<Net, NoMemory>
    requires sized { IsSized l }
    requires slots { HasSlots b.old l }
    ensures means { IfOk result (λ x. Means b.new x (room_signal l)) }
    ensures extends { Extends b.old b.new }
{
    let count = emit_count(b, l)?;
    let all = b.constant(l.ticket, l.size as Word)?;
    b.bin(BinOp::Lt, count, all)
}

/// Room for two reservations.
#[tactic(auto)]
pub fn emit_room2(b: &mut Builder, l: RingLayout) -> Result<Net, NoMemory>
    requires sized { IsSized l }
    requires slots { HasSlots b.old l }
    ensures means { IfOk result (λ x. Means b.new x (room2_signal l)) }
    ensures extends { Extends b.old b.new }
{
    let count = emit_count(b, l)?;
    let all = b.constant(l.ticket, l.size as Word - 1)?;
    b.bin(BinOp::Lt, count, all)
}

/// So many registers of one width; they hold numbers from `start` on in the first cycle, each `step` greater than the one before.
#[tactic(auto, using(crate::proofs::Rows::row_none, crate::proofs::Rows::row_more, crate::proofs::Rows::reset_none, crate::proofs::Rows::reset_more, crate::proofs::Rows::fits))]
pub fn emit_row(b: &mut Builder, r: Registers, start: Word, step: Word) -> Result<(), NoMemory>
    requires first { r.first ≡ length b.old.regs }
    requires low { 1 ≤ r.width }
    requires high { r.width ≤ widest }
    requires fits { start + step * r.count ≤ 2 ^ r.width }
    requires below { start < 2 ^ r.width }
    requires few { step ≤ 1 }
    ensures row { OnOk result (HasRow b.new r r.count) }
    ensures reset { OnOk result (IsRowReset b.new r start step r.count) }
    ensures count { OnOk result (length b.new.regs ≡ r.first + r.count) }
    ensures small { OnOk result (r.first + r.count < 2 ^ 64) }
    ensures extends { Extends b.old b.new }
{
    for k in 0..r.count {
        b.reg(r.width, start + step * k as Word)?;
    }
    let _count = b.reg_count();
    Ok(())
}

/// A row of registers for the slots, from this one on.
fn row(l: RingLayout, first: usize, width: u8) -> Registers
    ensures { result ≡ row_of l first width }
{
    Registers {
        first,
        count: l.size,
        width,
    }
}

/// What the slots hold in the first cycle: 0, or places that are numbered from `place` on.
#[tactic(auto, using(crate::proofs::Rows::contents_made))]
fn emit_first_contents(b: &mut Builder, l: RingLayout, place: Word) -> Result<(), NoMemory>
    requires first { length b.old.regs ≡ l.from + 2 + 2 * l.size }
    requires places { l.content ≡ Content.Place → place + l.size ≤ 2 ^ l.kept }
    requires below { place < 2 ^ l.kept }
    requires kept_low { 1 ≤ l.kept }
    requires kept_high { l.kept ≤ widest }
    ensures row { OnOk result (HasRow b.new
        (row_of l (l.from + 2 + 2 * l.size) l.kept) l.size) }
    ensures reset { OnOk result (AreFirst b.new l place) }
    ensures count { OnOk result (length b.new.regs ≡ l.from + 2 + 3 * l.size) }
    ensures small { OnOk result (l.from + 2 + 3 * l.size < 2 ^ 64) }
    ensures extends { Extends b.old b.new }
{
    let contents = row(l, b.reg_count(), l.kept);
    match l.content {
        Content::Value => emit_row(b, contents, 0, 0),
        Content::Place => emit_row(b, contents, place, 1),
    }
}

/// The registers of a layout; in the first cycle head and tail are 0, and places are numbered from `place` on.
#[tactic(auto, using(crate::proofs::Rows::slots_made, crate::proofs::Rows::reset_made))]
pub fn emit_registers(b: &mut Builder, l: RingLayout, place: Word) -> Result<(), NoMemory>
    requires from { l.from ≡ length b.old.regs }
    requires places { l.content ≡ Content.Place → place + l.size ≤ 2 ^ l.kept }
    requires below { place < 2 ^ l.kept }
    requires ticket_low { 1 ≤ l.ticket }
    requires ticket_high { l.ticket ≤ widest }
    requires bits_low { 1 ≤ l.bits }
    requires bits_high { l.bits ≤ widest }
    requires kept_low { 1 ≤ l.kept }
    requires kept_high { l.kept ≤ widest }
    requires array { HasOwnArray b.old l }
    ensures small { OnOk result (l.from + 2 + 3 * l.size < 2 ^ 64) }
    ensures count { OnOk result (length b.new.regs ≡ l.from + 2 + 3 * l.size) }
    ensures slots { OnOk result (HasSlots b.new l) }
    ensures reset { OnOk result (AreReset b.new l place) }
    ensures extends { Extends b.old b.new }
{
    b.reg(l.ticket, 0)?;
    b.reg(l.ticket, 0)?;
    let _count = b.reg_count();
    let addrs = row(l, l.from + 2, l.bits);
    emit_row(b, addrs, 0, 0)?;
    let bits = row(l, l.from + 2 + l.size, 1);
    emit_row(b, bits, 0, 0)?;
    emit_first_contents(b, l, place)?;
    Ok(())
}

/// The array of a memory; a delayed one has none.
#[tactic(auto, using(pdl_net::proofs::Keeps::keeping))]
fn emit_array(b: &mut Builder, mem: &MemInfo) -> Result<Option<usize>, NoMemory>
    requires width_low { 1 ≤ mem.now.width }
    requires width_high { mem.now.width ≤ widest }
    requires depth { IsMemDepth mem.now.depth }
    ensures array { IfOk result (λ m. IsMemArray b.old b.new mem.now m) }
    ensures regs { OnOk result (b.new.regs ≡ b.old.regs) }
    ensures extends { OnOk result (ExtendsArrays b.old b.new (arrays_of Queue mem.now)) }
    ensures keeps { Keeps b.old b.new }
{
    if mem.delayed {
        return Ok(None);
    }
    let array = b.array(&mem.name, mem.width, mem.depth)?;
    Ok(Some(array))
}

/// The registers and the array of so many slots for a memory.
#[tactic(auto, using(crate::proofs::RingGrowth::arrays_extends, crate::proofs::RingGrowth::mem_array_kept, crate::proofs::Sizes::sizes, pdl_net::proofs::Keeps::keeping, pdl_net::proofs::Keeps::keeps_trans))]
fn emit_layout(b: &mut Builder, size: u8, mem: &MemInfo) -> Result<RingLayout, NoMemory>
    requires suits { Suits size mem.now }
    ensures layout { IfOk result (λ l. IsLayout size mem.now (length b.old.regs) l) }
    ensures count { IfOk result (λ l. length b.new.regs ≡ l.from + 2 + 3 * l.size) }
    ensures sized { IfOk result (λ l. IsSized l) }
    ensures slots { IfOk result (λ l. HasSlots b.new l) }
    ensures reset { IfOk result (λ l. AreReset b.new l 0) }
    ensures array { IfOk result (λ l. IsMemArray b.old b.new mem.now l.array) }
    ensures extends { OnOk result (ExtendsArrays b.old b.new (arrays_of Queue mem.now)) }
    ensures keeps { Keeps b.old b.new }
{
    let array = emit_array(b, mem)?;
    let l = RingLayout {
        size: size as usize,
        ticket: ticket_width(size),
        width: mem.width,
        kept: mem.width,
        bits: address_bits(mem.depth),
        from: b.reg_count(),
        array,
        content: Content::Value,
    };
    emit_registers(b, l, 0)?;
    Ok(l)
}

/// The registers of slot k that only its own reservations and writes change.
fn slot_registers(alloc: Global, l: RingLayout, k: usize) -> Result<Seq<usize>, NoMemory>
    requires sized { IsSized l }
    requires slot_in { k < l.size }
    ensures { IfOk result (λ s. s ≡ slot_numbers l.content l k) }
{
    let mut found = Seq::new(alloc);
    found.push(l.from + 2 + k)?;
    if let Content::Value = l.content {
        found.push(l.from + 2 + 2 * l.size + k)?;
    }
    found.push(l.from + 2 + l.size + k)?;
    Ok(found)
}

/// Those of each slot.
#[tactic(auto, using(crate::proofs::Sizes::slots_push))]
pub fn slots(alloc: Global, l: RingLayout) -> Result<Seq<Seq<usize>>, NoMemory>
    requires { IsSized l }
    ensures { IfOk result (λ s. s ≡ slots_of l l.size) }
{
    let mut found = Seq::new(alloc);
    for k in 0..l.size {
        let slot = slot_registers(alloc, l, k)?;
        found.push(slot)?;
    }
    Ok(found)
}

/// What is answered of a ring's registers: their numbers, and the nets of room and tickets.
#[tactic(auto, using(crate::proofs::RingGrowth::slots_kept))]
pub fn emit_regs(
    alloc: Global,
    b: &mut Builder,
    l: RingLayout,
    array: Option<usize>,
    count: usize,
) -> Result<LockRegs, NoMemory>
    requires sized { IsSized l }
    requires slots { HasSlots b.old l }
    requires small { l.from + count < 2 ^ 64 }
    ensures regs { IfOk result (λ r. r.regs ≡ numbers_from l.from count) }
    ensures array { IfOk result (λ r. r.array ≡ array) }
    ensures room { IfOk result (λ r. Means b.new r.room (room_signal l)) }
    ensures ticket { IfOk result (λ r. r.ticket ≡ Net.Reg (l.from + 1)) }
    ensures room2 { IfOk result (λ r. Means b.new r.room2 (room2_signal l)) }
    ensures ticket2 { IfOk result (λ r. Means b.new r.ticket2 (second_ticket l)) }
    ensures slots { IfOk result (λ r. r.slots ≡ slots_of l l.size) }
    ensures width { IfOk result (λ r. r.width ≡ l.width) }
    ensures bits { IfOk result (λ r. r.bits ≡ l.bits) }
    ensures extends { Extends b.old b.new }
{
    let room = emit_room(b, l)?;
    let room2 = emit_room2(b, l)?;
    let ticket2 = emit_ticket2(b, l)?;
    let regs = numbers(alloc, l.from, count)?;
    let slots = slots(alloc, l)?;
    Ok(LockRegs {
        regs,
        array,
        room,
        ticket: Net::Reg(l.from + 1),
        room2,
        ticket2,
        slots,
        width: l.width,
        bits: l.bits,
    })
}

/// The state of a lock whose slots keep the values: registers and array, and the nets of room and next ticket.
pub fn emit_state(
    alloc: Global,
    b: &mut Builder,
    size: u8,
    mem: &MemInfo,
) -> Result<LockRegs, NoMemory>
    requires suits { Suits size mem.now }
    ensures some { 1 ≤ size }
    ensures width { IfOk result (λ r. r.width ≡ mem.now.width) }
    ensures bits { IfOk result (λ r. 2 ^ r.bits ≡ mem.now.depth) }
    ensures bits_low { IfOk result (λ r. 1 ≤ r.bits) }
    ensures bits_high { IfOk result (λ r. r.bits ≤ 16) }
    ensures array { IfOk result (λ r. is_some r.array ≡ not mem.now.delayed) }
    ensures placed { IfOk result (λ r. ArePlaced size b.new r) }
    ensures fragment { IfOk result (λ r. IsFragment b.old b.new r) }
    ensures empty { IfOk result (λ r. HasNoPorts r.array b.new) }
    ensures nets { IfOk result (λ r. HasRegNets (ticket_bits size) b.new r) }
    ensures second { IfOk result (λ r. HasSecondNets (ticket_bits size) b.new r) }
    ensures start { IfOk result (λ r. StartLaw (Stands (layout_of size r)) Queue b.new r) }
    ensures room { IfOk result (λ r.
        RoomLaw (Stands (layout_of size r)) size (signal b.new r.room)) }
    ensures ticket { IfOk result (λ r.
        TicketLaw (Stands (layout_of size r)) (ticket_bits size) (signal b.new r.ticket)) }
    ensures room2 { IfOk result (λ r.
        Room2Law (Stands (layout_of size r)) size (signal b.new r.room2)) }
    ensures ticket2 { IfOk result (λ r.
        Ticket2Law (Stands (layout_of size r)) (ticket_bits size) (signal b.new r.ticket2)) }
    ensures slots { IfOk result (λ r. SlotsLaw (Stands (layout_of size r)) Queue size r) }
    ensures extends { OnOk result (ExtendsArrays b.old b.new (arrays_of Queue mem.now)) }
    ensures keeps { Keeps b.old b.new }
{
    let l = emit_layout(b, size, mem)?;
    let r = emit_regs(alloc, b, l, l.array, 2 + 3 * l.size)?;
    Ok(r)
}

/// So many numbers from this one on.
#[tactic(auto, using(crate::proofs::Sizes::numbers_push))]
pub fn numbers(alloc: Global, from: usize, count: usize) -> Result<Seq<usize>, NoMemory>
    requires { from + count < 2 ^ 64 }
    ensures { IfOk result (λ s. s ≡ numbers_from from count) }
{
    let mut found = Seq::new(alloc);
    for k in 0..count {
        found.push(from + k)?;
    }
    Ok(found)
}
