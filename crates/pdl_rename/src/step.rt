//! The step of a renaming lock: the commit ports, and what head, tail, slots, places, map and array take next.
ghost use Rattle.std.specs.Prelude.{◌≡◌, ℕ, [], ◌∷◌, ◌++◌, ◌+◌, ◌-◌, ◌*◌, ◌^◌, ◌<◌, ◌≤◌, length, IfOk, OnOk};
ghost use Rattle.pdl_net.specs.Signal.{mux_signal};
ghost use Rattle.pdl_net.specs.Meaning.{Means, signal, write_signals};
ghost use Rattle.pdl_net.specs.HasWidth.{HasWidth};
ghost use Rattle.pdl_net.specs.Growth.{Extends, ExtendsBut};
ghost use Rattle.pdl_lockapi.specs.Laws.{step_signals, ticket_at};
ghost use Rattle.pdl_lock_ring.specs.Looks.{slot_of, head_signal};
ghost use Rattle.pdl_lock_ring.specs.Steps.{next_head};
ghost use Rattle.pdl_lock_ring.specs.Ready.{HasPorts, IsReady};
ghost use Rattle.pdl_lock_ring.specs.Oldest.{AreOldest};
ghost use Rattle.pdl_rename.specs.Places.{IsRenaming, HasMap, HasStore};
ghost use Rattle.pdl_rename.specs.Freed.{AreFreed};
ghost use Rattle.pdl_rename.specs.Nets.{place_of, place_writes, one_put, stored_signal, oldest_value, next_value, AreRenamed, NextRename, own_store, own_rename};

use crate::layout::Layout;
use crate::look::place_registers;
use crate::map::emit_map;
use crate::places::{Freed, emit_freed, emit_places};
use pdl_build::Builder;
use pdl_kit::NoMemory;
use pdl_lock_ring::choice::emit_register;
use pdl_lock_ring::fill::{emit_value, write_port};
use pdl_lock_ring::look::emit_slot_of;
use pdl_lock_ring::slot::emit_slots;
use pdl_lock_ring::step::{Oldest, emit_commit, emit_ends, emit_next_head, emit_oldest};
use pdl_lock_ring::taken::{Taken, emit_taken};
use pdl_lockapi::{LockNets, LockPorts};
use pdl_net::{BinOp, Net};

/// The word at a place, which is that of the slot of this number, after this cycle's writes.
#[tactic(auto, using(pdl_lock_ring::proofs::Fills::filling, pdl_lock_ring::proofs::RingGrowth::ports_kept))]
fn emit_stored(
    b: &mut Builder,
    l: Layout,
    p: &LockPorts,
    place: Net,
    slot: Net,
) -> Result<Net, NoMemory>
    requires renaming { IsRenaming l }
    requires given { HasPorts b.old l.slots p.now }
    requires store { HasStore b.old l }
    requires place { HasWidth b.old place l.slots.kept }
    requires slot { HasWidth b.old slot l.slots.ticket }
    ensures means { IfOk result (λ x.
        Means b.new x (stored_signal l (step_signals b.old p.now) (signal b.old place)
        (signal b.old slot))) }
    ensures wide { IfOk result (λ x. (signal b.new x).width ≡ l.slots.width) }
    ensures extends { Extends b.old b.new }
{
    let word = b.read(l.array, place)?;
    let stored = emit_value(b, l.slots, p, word, slot)?;
    Ok(stored)
}

/// The words that a cycle's releases commit.
#[tactic(auto, using(pdl_lock_ring::proofs::RingGrowth::ports_kept, pdl_lock_ring::proofs::RingGrowth::oldest_kept, crate::proofs::MadeRegisters::store_kept))]
fn emit_words(b: &mut Builder, l: Layout, p: &LockPorts, o: Oldest) -> Result<(Net, Net), NoMemory>
    requires renaming { IsRenaming l }
    requires given { HasPorts b.old l.slots p.now }
    requires store { HasStore b.old l }
    requires oldest { AreOldest b.old l.slots (step_signals b.old p.now) o }
    ensures first { IfOk result (λ x. Means b.new x.0 (oldest_value l (step_signals b.old p.now))) }
    ensures second { IfOk result (λ x. Means b.new x.1 (next_value l (step_signals b.old p.now))) }
    ensures first_wide { IfOk result (λ x. (signal b.new x.0).width ≡ l.slots.width) }
    ensures second_wide { IfOk result (λ x. (signal b.new x.1).width ≡ l.slots.width) }
    ensures extends { Extends b.old b.new }
{
    let slot = emit_slot_of(b, l.slots, Net::Reg(l.slots.from))?;
    let first = emit_stored(b, l, p, o.first.content, slot)?;
    let next = emit_next_head(b, l.slots)?;
    let slot2 = emit_slot_of(b, l.slots, next)?;
    let second = emit_stored(b, l, p, o.second.content, slot2)?;
    Ok((first, second))
}

/// The commit ports.
#[tactic(auto, using(pdl_lock_ring::proofs::Ends::release_is, pdl_lock_ring::proofs::RingGrowth::ports_kept, pdl_lock_ring::proofs::RingGrowth::oldest_kept))]
fn emit_commits(b: &mut Builder, l: Layout, p: &LockPorts, o: Oldest) -> Result<LockNets, NoMemory>
    requires renaming { IsRenaming l }
    requires given { HasPorts b.old l.slots p.now }
    requires store { HasStore b.old l }
    requires oldest { AreOldest b.old l.slots (step_signals b.old p.now) o }
    ensures commits { IfOk result (λ n. AreRenamed b.new l (step_signals b.old p.now) n) }
    ensures extends { Extends b.old b.new }
{
    let (first, second) = emit_words(b, l, p, o)?;
    let (addr, value) = emit_commit(b, l.slots, p.release, o.first.addr, first)?;
    let (addr2, value2) = emit_commit(b, l.slots, p.release2, o.second.addr, second)?;
    Ok(LockNets {
        commit: p.release,
        addr,
        value,
        commit2: p.release2,
        addr2,
        value2,
    })
}

/// Write port j as a port of the array, at the place of its ticket's slot.
#[tactic(auto, using(pdl_lock_ring::proofs::Fills::ticket_is, crate::proofs::ChoiceWidths::widths, crate::proofs::MadeRegisters::places_there, crate::proofs::MadeRegisters::store_kept))]
fn emit_put(b: &mut Builder, l: Layout, p: &LockPorts, j: usize) -> Result<(), NoMemory>
    requires renaming { IsRenaming l }
    requires given { HasPorts b.old l.slots p.now }
    requires store { HasStore b.old l }
    requires within { j < length p.now.writes }
    ensures write { OnOk result (write_signals b.new l.array
        ≡ write_signals b.old l.array ++ one_put l (step_signals b.old p.now) j ∷ []) }
    ensures extends { ExtendsBut (own_store l) b.old b.new }
{
    let port = write_port(p, j);
    let bits = l.slots.ticket - 1;
    let places = place_registers(l);
    let place = emit_register(b, places, port.ticket, bits, 0)?;
    b.write(l.array, port.enable, place, port.value)?;
    Ok(())
}

/// What the array takes next.
fn emit_writes(b: &mut Builder, l: Layout, p: &LockPorts) -> Result<(), NoMemory>
    requires renaming { IsRenaming l }
    requires given { HasPorts b.old l.slots p.now }
    requires store { HasStore b.old l }
    requires empty { write_signals b.old l.array ≡ [] }
    ensures writes { OnOk result (write_signals b.new l.array
        ≡ place_writes l (step_signals b.old p.now) (length p.now.writes)) }
    ensures extends { ExtendsBut (own_store l) b.old b.new }
{
    for j in 0..p.writes.len() {
        emit_put(b, l, p, j)?;
    }
    Ok(())
}

/// What all registers and the array take next.
fn emit_nexts(
    b: &mut Builder,
    l: Layout,
    p: &LockPorts,
    t: Taken,
    o: Oldest,
    f: Freed,
) -> Result<(), NoMemory>
    requires renaming { IsRenaming l }
    requires ready { IsReady b.old l.slots p.now t }
    requires oldest { AreOldest b.old l.slots (step_signals b.old p.now) o }
    requires freed { AreFreed b.old l (step_signals b.old p.now) f }
    requires map { HasMap b.old l l.depth }
    requires store { HasStore b.old l }
    requires empty { write_signals b.old l.array ≡ [] }
    ensures next { OnOk result (NextRename b.new l (step_signals b.old p.now)) }
    ensures extends { ExtendsBut (own_rename l) b.old b.new }
{
    emit_slots(b, l.slots, p, t)?;
    emit_ends(b, l.slots, p, t)?;
    emit_places(b, l, p, f)?;
    emit_map(b, l, p, o)?;
    emit_writes(b, l, p)?;
    Ok(())
}

/// The commit nets, and what all registers and the array take next.
pub fn emit_step(b: &mut Builder, l: Layout, p: &LockPorts) -> Result<LockNets, NoMemory>
    requires renaming { IsRenaming l }
    requires given { HasPorts b.old l.slots p.now }
    requires map { HasMap b.old l l.depth }
    requires store { HasStore b.old l }
    requires empty { write_signals b.old l.array ≡ [] }
    ensures next { OnOk result (NextRename b.new l (step_signals b.old p.now)) }
    ensures commits { IfOk result (λ n. AreRenamed b.new l (step_signals b.old p.now) n) }
    ensures extends { ExtendsBut (own_rename l) b.old b.new }
{
    let taken = emit_taken(b, l.slots, p)?;
    let oldest = emit_oldest(b, l.slots, p, taken)?;
    let nets = emit_commits(b, l, p, oldest)?;
    let freed = emit_freed(b, l, p, oldest)?;
    emit_nexts(b, l, p, taken, oldest, freed)?;
    Ok(nets)
}
