//! The map from addresses to the places of their words: what it takes next.
ghost use Rattle.std.specs.Prelude.{◌≡◌, ℕ, ◌+◌, ◌*◌, ◌^◌, ◌<◌, ◌≤◌, IfOk, OnOk};
ghost use Rattle.pdl_net.specs.Meaning.{IsThere, Means, signal, next_signal};
ghost use Rattle.pdl_net.specs.Growth.{Extends, ExtendsBut};
ghost use Rattle.pdl_lockapi.specs.Laws.{step_signals};
ghost use Rattle.pdl_lock_ring.specs.Ready.{HasPorts};
ghost use Rattle.pdl_lock_ring.specs.Steps.{own_reg};
ghost use Rattle.pdl_lock_ring.specs.Oldest.{AreOldest};
ghost use Rattle.pdl_rename.specs.Places.{IsRenaming, HasMap, map_at};
ghost use Rattle.pdl_rename.specs.Nets.{first_map, next_map, NextMap, own_map};

use crate::layout::Layout;
use pdl_build::Builder;
use pdl_kit::NoMemory;
use pdl_lock_ring::step::Oldest;
use pdl_lockapi::LockPorts;
use pdl_net::{BinOp, Net};
use pdl_word::Word;

/// The place of an address's word after the first release.
#[tactic(auto, using(pdl_lock_ring::proofs::Ends::release_is, crate::proofs::MadeRegisters::map_kept))]
fn emit_first_word(
    b: &mut Builder,
    l: Layout,
    p: &LockPorts,
    o: Oldest,
    a: usize,
) -> Result<Net, NoMemory>
    requires renaming { IsRenaming l }
    requires map { HasMap b.old l l.depth }
    requires given { HasPorts b.old l.slots p.now }
    requires oldest { AreOldest b.old l.slots (step_signals b.old p.now) o }
    requires address { a < l.depth }
    ensures means { IfOk result (λ x. Means b.new x (first_map l (step_signals b.old p.now) a)) }
    ensures extends { Extends b.old b.new }
{
    let word = Net::Reg(l.map + a);
    let number = b.constant(l.slots.bits, a as Word)?;
    let same = b.bin(BinOp::Eq, o.first.addr, number)?;
    let here = b.mux(same, o.first.content, word)?;
    b.mux(p.release, here, word)
}

/// What the map has next for an address.
#[tactic(auto, using(pdl_lock_ring::proofs::Ends::release_is, pdl_lock_ring::proofs::RingGrowth::oldest_kept, crate::proofs::MadeRegisters::map_kept))]
fn emit_word(b: &mut Builder, l: Layout, p: &LockPorts, o: Oldest, a: usize) -> Result<(), NoMemory>
    requires renaming { IsRenaming l }
    requires map { HasMap b.old l l.depth }
    requires given { HasPorts b.old l.slots p.now }
    requires oldest { AreOldest b.old l.slots (step_signals b.old p.now) o }
    requires address { a < l.depth }
    ensures next { OnOk result (next_signal b.new (map_at l a)
        ≡ next_map l (step_signals b.old p.now) a) }
    ensures extends { ExtendsBut (own_reg (map_at l a)) b.old b.new }
{
    let first = emit_first_word(b, l, p, o, a)?;
    let number = b.constant(l.slots.bits, a as Word)?;
    let same = b.bin(BinOp::Eq, o.second.addr, number)?;
    let here = b.mux(same, o.second.content, first)?;
    let next = b.mux(p.release2, here, first)?;
    b.next(l.map + a, next);
    Ok(())
}

/// What the whole map has next.
pub fn emit_map(b: &mut Builder, l: Layout, p: &LockPorts, o: Oldest) -> Result<(), NoMemory>
    requires renaming { IsRenaming l }
    requires map { HasMap b.old l l.depth }
    requires given { HasPorts b.old l.slots p.now }
    requires oldest { AreOldest b.old l.slots (step_signals b.old p.now) o }
    ensures next { OnOk result (NextMap b.new l (step_signals b.old p.now) l.depth) }
    ensures extends { ExtendsBut (own_map l) b.old b.new }
{
    for a in 0..l.depth {
        emit_word(b, l, p, o, a)?;
    }
    Ok(())
}
