//! The places of the slots: what they take next.
ghost use Rattle.std.specs.Prelude.{◌≡◌, ℕ, ◌+◌, ◌*◌, ◌^◌, ◌<◌, ◌≤◌, IfOk, OnOk};
ghost use Rattle.pdl_net.specs.Meaning.{IsThere, Means, signal, next_signal};
ghost use Rattle.pdl_net.specs.Growth.{Extends, ExtendsBut};
ghost use Rattle.pdl_lockapi.specs.Laws.{step_signals};
ghost use Rattle.pdl_lock_ring.specs.Slots.{value_at};
ghost use Rattle.pdl_lock_ring.specs.Ready.{HasPorts};
ghost use Rattle.pdl_lock_ring.specs.Steps.{own_reg, own_contents};
ghost use Rattle.pdl_lock_ring.specs.Oldest.{AreOldest};
ghost use Rattle.pdl_rename.specs.Places.{IsRenaming, HasMap};
ghost use Rattle.pdl_rename.specs.Nets.{freed2_place, next_place, NextPlaces};
ghost use Rattle.pdl_rename.specs.Freed.{AreFreed};

use crate::layout::Layout;
use crate::look::emit_mapped;
use pdl_build::Builder;
use pdl_kit::NoMemory;
use pdl_lock_ring::step::{Oldest, emit_next_head};
use pdl_lock_ring::taken::emit_gate;
use pdl_lockapi::LockPorts;
use pdl_net::{BinOp, Net};
use pdl_word::Word;

/// The slots that a cycle releases, a number that no slot has where there is none, and the places that their releases set free.
#[derive(Clone, Copy)]
pub struct Freed {
    pub slot: Net,
    pub place: Net,
    pub slot2: Net,
    pub place2: Net,
}

/// The place that the second release sets free: that of the word which the first has left.
#[tactic(auto, using(crate::proofs::ChoiceWidths::widths, pdl_lock_ring::proofs::RingGrowth::oldest_kept))]
fn emit_freed2(b: &mut Builder, l: Layout, p: &LockPorts, o: Oldest) -> Result<Net, NoMemory>
    requires renaming { IsRenaming l }
    requires map { HasMap b.old l l.depth }
    requires given { HasPorts b.old l.slots p.now }
    requires oldest { AreOldest b.old l.slots (step_signals b.old p.now) o }
    ensures means { IfOk result (λ x. Means b.new x (freed2_place l (step_signals b.old p.now))) }
    ensures extends { Extends b.old b.new }
{
    let mapped = emit_mapped(b, l, o.second.addr)?;
    let same = b.bin(BinOp::Eq, o.second.addr, o.first.addr)?;
    b.mux(same, o.first.content, mapped)
}

/// What a cycle's releases set free.
#[tactic(auto, using(pdl_lock_ring::proofs::RingGrowth::ports_kept, pdl_lock_ring::proofs::RingGrowth::oldest_kept, crate::proofs::MadeRegisters::map_kept, crate::proofs::ChoiceWidths::widths))]
pub fn emit_freed(b: &mut Builder, l: Layout, p: &LockPorts, o: Oldest) -> Result<Freed, NoMemory>
    requires renaming { IsRenaming l }
    requires map { HasMap b.old l l.depth }
    requires given { HasPorts b.old l.slots p.now }
    requires oldest { AreOldest b.old l.slots (step_signals b.old p.now) o }
    ensures freed { IfOk result (λ x. AreFreed b.new l (step_signals b.old p.now) x) }
    ensures extends { Extends b.old b.new }
{
    let next = emit_next_head(b, l.slots)?;
    let slot = emit_gate(b, l.slots, p.release, Net::Reg(l.slots.from))?;
    let place = emit_mapped(b, l, o.first.addr)?;
    let slot2 = emit_gate(b, l.slots, p.release2, next)?;
    let place2 = emit_freed2(b, l, p, o)?;
    Ok(Freed {
        slot,
        place,
        slot2,
        place2,
    })
}

/// What slot k's place takes next.
#[tactic(auto, using(pdl_lock_ring::proofs::RingGrowth::ports_kept))]
fn emit_place(b: &mut Builder, l: Layout, p: &LockPorts, f: Freed, k: usize) -> Result<(), NoMemory>
    requires renaming { IsRenaming l }
    requires given { HasPorts b.old l.slots p.now }
    requires freed { AreFreed b.old l (step_signals b.old p.now) f }
    requires slot_in { k < l.slots.size }
    ensures next { OnOk result (next_signal b.new (value_at l.slots k)
        ≡ next_place l (step_signals b.old p.now) k) }
    ensures extends { ExtendsBut (own_reg (value_at l.slots k)) b.old b.new }
{
    let number = b.constant(l.slots.ticket, k as Word)?;
    let first = b.bin(BinOp::Eq, f.slot, number)?;
    let second = b.bin(BinOp::Eq, f.slot2, number)?;
    let place = b.mux(
        first,
        f.place,
        Net::Reg(l.slots.from + 2 + 2 * l.slots.size + k),
    )?;
    let next = b.mux(second, f.place2, place)?;
    b.next(l.slots.from + 2 + 2 * l.slots.size + k, next);
    Ok(())
}

/// What all places take next.
pub fn emit_places(b: &mut Builder, l: Layout, p: &LockPorts, f: Freed) -> Result<(), NoMemory>
    requires renaming { IsRenaming l }
    requires given { HasPorts b.old l.slots p.now }
    requires freed { AreFreed b.old l (step_signals b.old p.now) f }
    ensures next { OnOk result (NextPlaces b.new l (step_signals b.old p.now) l.slots.size) }
    ensures extends { ExtendsBut (own_contents l.slots) b.old b.new }
{
    for k in 0..l.slots.size {
        emit_place(b, l, p, f, k)?;
    }
    Ok(())
}
