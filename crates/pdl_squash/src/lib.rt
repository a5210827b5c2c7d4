//! The circuit of a stage that squashes: whether it does, which threads that removes, and for each stage before it whether a thread there is past all doubt.
//!
//! The layers above may use `emit_squash`, and know its nets by `SquashLaw` alone.
#![tactic(auto)]

ghost use Rattle.std.specs.Prelude.{◌≡◌, ◌<◌, length, IfOk};
ghost use Rattle.pdl_net.specs.Meaning.{Means, signal};
ghost use Rattle.pdl_net.specs.HasWidth.{HasWidth};
ghost use Rattle.pdl_net.specs.Growth.{Extends};
ghost use Rattle.pdl_squash.specs.Laws.{net_at, signal_at, AreBits, squash_signals, SquashLaw};
ghost use Rattle.pdl_squash.specs.Nets.{squash_signal, removed_signal, clear_signal, MeanFrom};

use pdl_build::Builder;
use pdl_kit::{NoMemory, Seq};
use pdl_net::Net;
use std::alloc::Global;

/// What a squash goes by.
#[derive(Drop)]
pub struct SquashPorts {
    /// Whether a stage holds a thread, 1 bit for each stage.
    pub valid: Seq<Net>,
    /// The stage that squashes, by number.
    pub stage: usize,
    /// Whether its thread moves, 1 bit.
    pub moves: Net,
    /// Whether its guess fails, 1 bit; it counts where the thread moves.
    pub fails: Net,
}

/// What a squash does, each net 1 bit.
#[derive(Drop)]
pub struct SquashNets {
    /// Whether a squash happens.
    pub squash: Net,
    /// Whether the thread of a stage is removed, for each stage before the one that squashes.
    pub removed: Seq<Net>,
    /// Whether no stage after a stage, up to the one that squashes, holds a thread, for each stage before it.
    pub clear: Seq<Net>,
}

/// One of some nets, by its place.
fn net(nets: &Seq<Net>, k: usize) -> Net
    requires { k < length nets.now }
    ensures { result ≡ net_at nets.now k }
{
    nets.as_slice()[k]
}

/// Which threads a squash removes.
fn emit_removed(
    alloc: Global,
    b: &mut Builder,
    p: &SquashPorts,
    squash: Net,
) -> Result<Seq<Net>, NoMemory>
    requires stage { p.now.stage < length p.now.valid }
    requires valid { AreBits b.old p.now.valid (length p.now.valid) }
    requires squash_bit { HasWidth b.old squash 1 }
    requires squash { signal b.old squash ≡ squash_signal (squash_signals b.old p.now) }
    ensures means { IfOk result (λ xs. MeanFrom b.new xs 0 p.now.stage
        (removed_signal (squash_signals b.old p.now))) }
    ensures extends { Extends b.old b.new }
{
    let zero = b.constant(1, 0)?;
    let mut removed = Seq::new(alloc);
    for k in 0..p.stage {
        let valid = net(&p.valid, k);
        removed.push(b.mux(squash, valid, zero)?)?;
    }
    Ok(removed)
}

/// Which stages have no thread in the stages after them, made from the last one down.
fn emit_clear(alloc: Global, b: &mut Builder, p: &SquashPorts) -> Result<Seq<Net>, NoMemory>
    requires stage { p.now.stage < length p.now.valid }
    requires valid { AreBits b.old p.now.valid (length p.now.valid) }
    ensures means { IfOk result (λ xs. MeanFrom b.new xs 0 p.now.stage
        (clear_signal (squash_signals b.old p.now))) }
    ensures extends { Extends b.old b.new }
{
    let zero = b.constant(1, 0)?;
    let mut none = b.constant(1, 1)?;
    let mut clear = vec![in alloc; none; p.stage]?;
    for n in 0..p.stage {
        let valid = net(&p.valid, p.stage - n);
        none = b.mux(valid, zero, none)?;
        clear[p.stage - n - 1] = none;
    }
    Ok(Seq::from_vec(clear))
}

/// Makes the nets of a squash by a stage.
pub fn emit_squash(alloc: Global, b: &mut Builder, p: &SquashPorts) -> Result<SquashNets, NoMemory>
    requires stage { p.now.stage < length p.now.valid }
    requires valid { AreBits b.old p.now.valid (length p.now.valid) }
    requires moves { HasWidth b.old p.now.moves 1 }
    requires fails { HasWidth b.old p.now.fails 1 }
    ensures squash { IfOk result (λ n. HasWidth b.new n.squash 1) }
    ensures removed { IfOk result (λ n. AreBits b.new n.removed p.now.stage) }
    ensures clear { IfOk result (λ n. AreBits b.new n.clear p.now.stage) }
    ensures law { IfOk result (λ n. SquashLaw (squash_signals b.old p.now)
        (signal b.new n.squash) (signal_at b.new n.removed) (signal_at b.new n.clear)) }
    ensures extends { Extends b.old b.new }
{
    let zero = b.constant(1, 0)?;
    let squash = b.mux(p.moves, p.fails, zero)?;
    let removed = emit_removed(alloc, b, p, squash)?;
    let clear = emit_clear(alloc, b, p)?;
    Ok(SquashNets {
        squash,
        removed,
        clear,
    })
}
