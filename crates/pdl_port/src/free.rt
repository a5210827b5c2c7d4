//! Whether a port is free.
ghost use Rattle.std.specs.Prelude.{◌≡◌, ◌+◌, ◌^◌, ◌<◌, length, IfOk};
ghost use Rattle.pdl_net.specs.Meaning.{Means, signal};
ghost use Rattle.pdl_net.specs.HasWidth.{HasWidth};
ghost use Rattle.pdl_net.specs.Growth.{Extends};
ghost use Rattle.pdl_port.specs.Laws.{places, net_at, signal_at, HasBits, FreeLaw};
ghost use Rattle.pdl_port.specs.Places.{HasPlaces, ArePlaced, stands};
ghost use Rattle.pdl_port.specs.Nets.{free_signal};

use crate::PortRegs;
use crate::layout::PortLayout;
use pdl_build::Builder;
use pdl_kit::{NoMemory, Seq};
use pdl_net::Net;

/// One of some nets, by its place.
pub fn net(nets: &Seq<Net>, k: usize) -> Net
    requires { k < length nets.now }
    ensures { result ≡ net_at nets.now k }
{
    nets.as_slice()[k]
}

/// Whether the port is free, over the places from the first on.
#[tactic(auto, using(crate::proofs::Steps::frees, crate::proofs::PortGrowth::places_kept, crate::proofs::PortGrowth::bits_kept))]
fn emit_free(b: &mut Builder, l: PortLayout, reply: Net, moves: &Seq<Net>) -> Result<Net, NoMemory>
    requires small { l.from + l.places + 1 < 2 ^ 64 }
    requires places { HasPlaces b.old l l.places }
    requires reply { HasWidth b.old reply 1 }
    requires moves { HasBits b.old moves.now l.places }
    ensures means { IfOk result (λ x.
        Means b.new x (free_signal l (signal b.old reply) (signal_at b.old moves.now) l.places)) }
    ensures one { IfOk result (λ x. (signal b.new x).width ≡ 1) }
    ensures extends { Extends b.old b.new }
{
    let one = b.constant(1, 1)?;
    let zero = b.constant(1, 0)?;
    let mut free = b.mux(Net::Reg(l.from), reply, one)?;
    for k in 0..l.places {
        let leaves = b.mux(reply, net(moves, k), zero)?;
        free = b.mux(Net::Reg(l.from + k + 1), leaves, free)?;
    }
    Ok(free)
}

/// Makes the net that says whether a port is free, from the moves of the next stages.
pub fn emit_port_free(b: &mut Builder, r: &PortRegs, moves: &Seq<Net>) -> Result<Net, NoMemory>
    requires placed { ArePlaced b.old r.now }
    requires moves { HasBits b.old moves.now (places r.now) }
    ensures bit { IfOk result (λ x. HasWidth b.new x 1) }
    ensures law { IfOk result (λ x.
        FreeLaw (stands r.now) (places r.now) (signal b.old r.now.reply)
        (signal_at b.old moves.now) (signal b.new x)) }
    ensures extends { Extends b.old b.new }
{
    let l = PortLayout::of(r);
    let free = emit_free(b, l, r.reply, moves)?;
    Ok(free)
}
