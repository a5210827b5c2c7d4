//! Looks: the place of the youngest older pending write of the address or of the word, and what the array has there.
ghost use Rattle.std.specs.Prelude.{◌≡◌, ℕ, ◌+◌, ◌*◌, ◌^◌, ◌<◌, ◌≤◌, IfOk};
ghost use Rattle.pdl_net.specs.Meaning.{Means, signal};
ghost use Rattle.pdl_net.specs.HasWidth.{HasWidth};
ghost use Rattle.pdl_net.specs.Growth.{Extends};
ghost use Rattle.pdl_lock_ring.specs.Slots.{HasSlots};
ghost use Rattle.pdl_lock_ring.specs.Looks.{youngest_look, youngest_ready};
ghost use Rattle.pdl_rename.specs.Places.{IsRenaming, HasMap, HasStore};
ghost use Rattle.pdl_rename.specs.Nets.{mapped_place, found_word, registers_of_map, registers_of_places};

use crate::layout::Layout;
use pdl_build::Builder;
use pdl_kit::NoMemory;
use pdl_lock_ring::choice::{Registers, emit_register};
use pdl_lock_ring::look::by_kind;
use pdl_lock_ring::youngest::emit_youngest;
use pdl_lockapi::Kind;
use pdl_net::Net;

/// The registers of the map.
pub fn map_registers(l: Layout) -> Registers
    ensures { result ≡ registers_of_map l }
{
    Registers {
        first: l.map,
        count: l.depth,
        width: l.slots.kept,
    }
}

/// The registers of the slots' places.
pub fn place_registers(l: Layout) -> Registers
    requires { IsRenaming l }
    ensures { result ≡ registers_of_places l }
{
    Registers {
        first: l.slots.from + 2 + 2 * l.slots.size,
        count: l.slots.size,
        width: l.slots.kept,
    }
}

/// The place of an address's word.
#[tactic(auto, using(crate::proofs::MadeRegisters::map_there))]
pub fn emit_mapped(b: &mut Builder, l: Layout, addr: Net) -> Result<Net, NoMemory>
    requires renaming { IsRenaming l }
    requires map { HasMap b.old l l.depth }
    requires addr { HasWidth b.old addr l.slots.bits }
    ensures means { IfOk result (λ x. Means b.new x (mapped_place l (signal b.old addr))) }
    ensures extends { Extends b.old b.new }
{
    let map = map_registers(l);
    emit_register(b, map, addr, l.slots.bits, 0)
}

/// The nets of a look: whether it is ready, and its value.
#[tactic(auto, using(pdl_lock_ring::proofs::RingGrowth::slots_kept, pdl_lock_ring::proofs::Reserves::picked_means, crate::proofs::MadeRegisters::map_kept, crate::proofs::MadeRegisters::store_kept, crate::proofs::ChoiceWidths::widths))]
pub fn emit_look(
    b: &mut Builder,
    l: Layout,
    kind: Kind,
    addr: Net,
    ticket: Net,
) -> Result<(Net, Net), NoMemory>
    requires renaming { IsRenaming l }
    requires slots { HasSlots b.old l.slots }
    requires map { HasMap b.old l l.depth }
    requires store { HasStore b.old l }
    requires addr { HasWidth b.old addr l.slots.bits }
    requires ticket { HasWidth b.old ticket l.slots.ticket }
    ensures ready { IfOk result (λ x.
        Means b.new x.0 (youngest_look kind
        (youngest_ready l.slots (signal b.old addr) (signal b.old ticket)))) }
    ensures value { IfOk result (λ x.
        Means b.new x.1 (found_word l (signal b.old addr) (signal b.old ticket))) }
    ensures extends { Extends b.old b.new }
{
    let one = b.constant(1, 1)?;
    let place = emit_mapped(b, l, addr)?;
    let (ready, place) = emit_youngest(b, l.slots, addr, ticket, place)?;
    let value = b.read(l.array, place)?;
    let picked = by_kind(kind, ready, one);
    Ok((picked, value))
}
