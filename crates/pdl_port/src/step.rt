//! The step of a port: what its registers take next.
ghost use Rattle.std.specs.Prelude.{◌≡◌, ◌+◌, ◌^◌, ◌<◌, length, IfOk, OnOk};
ghost use Rattle.pdl_net.specs.Meaning.{Means, signal};
ghost use Rattle.pdl_net.specs.Growth.{Extends, ExtendsBut};
ghost use Rattle.pdl_port.specs.Laws.{places, own, HasBits, StepLaw, step_signals};
ghost use Rattle.pdl_port.specs.Places.{HasPlaces, HasStep, ArePlaced, stands};
ghost use Rattle.pdl_port.specs.Nets.{next_owns, orphan_signal, NextPlaces, NextPort, own_places, own_all};

use crate::free::net;
use crate::layout::PortLayout;
use crate::{PortRegs, PortStep};
use pdl_build::Builder;
use pdl_kit::NoMemory;
use pdl_net::Net;

/// Whether the thread of place k owns the outstanding request after a cycle.
fn emit_owner(
    b: &mut Builder,
    l: PortLayout,
    r: &PortRegs,
    p: &PortStep,
    k: usize,
) -> Result<Net, NoMemory>
    requires small { l.from + l.places + 1 < 2 ^ 64 }
    requires places { HasPlaces b.old l l.places }
    requires nets { HasStep b.old l.places r.now p.now }
    requires within { k < l.places }
    ensures means { IfOk result (λ x.
        Means b.new x (next_owns l (step_signals b.old r.now p.now) k)) }
    ensures extends { Extends b.old b.new }
{
    let one = b.constant(1, 1)?;
    let zero = b.constant(1, 0)?;
    let open = b.mux(r.reply, zero, Net::Reg(l.from + k + 1))?;
    let stays = b.mux(net(&p.removed, k), zero, open)?;
    b.mux(net(&p.asked, k), one, stays)
}

/// What the registers of all places take next.
#[tactic(auto, using(crate::proofs::PortGrowth::places_kept, crate::proofs::PortGrowth::places_kept_but, crate::proofs::PortGrowth::step_kept_but))]
fn emit_places(b: &mut Builder, l: PortLayout, r: &PortRegs, p: &PortStep) -> Result<(), NoMemory>
    requires small { l.from + l.places + 1 < 2 ^ 64 }
    requires places { HasPlaces b.old l l.places }
    requires nets { HasStep b.old l.places r.now p.now }
    ensures next { OnOk result
        (NextPlaces b.new l (step_signals b.old r.now p.now) l.places) }
    ensures extends { ExtendsBut (own_places l) b.old b.new }
{
    for k in 0..l.places {
        let owns = emit_owner(b, l, r, p, k)?;
        b.next(l.from + k + 1, owns);
    }
    Ok(())
}

/// Whether an orphan is left.
#[tactic(auto, using(crate::proofs::Steps::orphans, crate::proofs::PortGrowth::places_kept, crate::proofs::PortGrowth::step_kept))]
fn emit_orphan(b: &mut Builder, l: PortLayout, r: &PortRegs, p: &PortStep) -> Result<Net, NoMemory>
    requires small { l.from + l.places + 1 < 2 ^ 64 }
    requires places { HasPlaces b.old l l.places }
    requires nets { HasStep b.old l.places r.now p.now }
    ensures means { IfOk result (λ x.
        Means b.new x (orphan_signal l (step_signals b.old r.now p.now) l.places)) }
    ensures one { IfOk result (λ x. (signal b.new x).width ≡ 1) }
    ensures extends { Extends b.old b.new }
{
    let one = b.constant(1, 1)?;
    let zero = b.constant(1, 0)?;
    let mut orphan = b.mux(r.reply, zero, Net::Reg(l.from))?;
    for k in 0..l.places {
        let open = b.mux(r.reply, zero, Net::Reg(l.from + k + 1))?;
        let left = b.mux(open, one, orphan)?;
        orphan = b.mux(net(&p.removed, k), left, orphan)?;
    }
    Ok(orphan)
}

/// What all registers of a port take next.
#[tactic(auto, using(crate::proofs::PortGrowth::places_kept, crate::proofs::PortGrowth::places_kept_but, crate::proofs::PortGrowth::step_kept, crate::proofs::PortGrowth::step_kept_but))]
fn emit_all(b: &mut Builder, l: PortLayout, r: &PortRegs, p: &PortStep) -> Result<(), NoMemory>
    requires small { l.from + l.places + 1 < 2 ^ 64 }
    requires places { HasPlaces b.old l l.places }
    requires nets { HasStep b.old l.places r.now p.now }
    ensures next { OnOk result (NextPort b.new l (step_signals b.old r.now p.now)) }
    ensures extends { ExtendsBut (own_all l) b.old b.new }
{
    let orphan = emit_orphan(b, l, r, p)?;
    b.next(l.from, orphan);
    emit_places(b, l, r, p)?;
    Ok(())
}

/// Makes what the registers of a port take next; it is called once.
pub fn emit_port_step(b: &mut Builder, r: &PortRegs, p: &PortStep) -> Result<(), NoMemory>
    requires placed { ArePlaced b.old r.now }
    requires asked { HasBits b.old p.now.asked (places r.now) }
    requires moves { HasBits b.old p.now.moves (places r.now) }
    requires removed { HasBits b.old p.now.removed (places r.now) }
    ensures law { OnOk result (StepLaw (stands r.now) (places r.now) (own r.now) b.new
        (step_signals b.old r.now p.now)) }
    ensures extends { ExtendsBut (own r.now) b.old b.new }
{
    let l = PortLayout::of(r);
    emit_all(b, l, r, p)?;
    Ok(())
}
