//! The youngest older pending write of an address: the slot that is hit where no younger one is.
ghost use Rattle.std.specs.Prelude.{◌≡◌, ℕ, ◌+◌, ◌-◌, ◌*◌, ◌^◌, ◌<◌, ◌≤◌, IfOk};
ghost use Rattle.pdl_net.specs.declared.BinOp.TheVariants.{Ne};
ghost use Rattle.pdl_net.specs.Signal.{const_signal, bin_signal, mux_signal};
ghost use Rattle.pdl_net.specs.Meaning.{IsThere, Means, signal};
ghost use Rattle.pdl_net.specs.HasWidth.{HasWidth};
ghost use Rattle.pdl_net.specs.Growth.{Extends};
ghost use Rattle.pdl_lock_ring.specs.Slots.{IsSized, HasSlots, content_signal};
ghost use Rattle.pdl_lock_ring.specs.Looks.{no_slots, young_slots, wins_at, youngest_ready, youngest_value};
ghost use Rattle.pdl_lock_ring.specs.Seeks.{IsWon, IsEither};
ghost use Rattle.pdl_word.specs.Words.{widest};

use crate::choice::power;
use crate::layout::RingLayout;
use crate::look::{emit_from, emit_hits};
use pdl_build::Builder;
use pdl_kit::NoMemory;
use pdl_net::{BinOp, Net};
use pdl_word::Word;

/// What the winner among some slots holds: whether it has its value, and its content; 0 where the winner is none of them.
#[derive(Clone, Copy)]
pub struct Won {
    pub has: Net,
    pub content: Net,
}

/// Slot k and the slots of younger pending writes.
#[tactic(auto, using(crate::proofs::RingGrowth::slots_kept), unfolding(crate::specs::Looks::young_slots))]
fn emit_young(b: &mut Builder, l: RingLayout, k: usize) -> Result<Net, NoMemory>
    requires sized { IsSized l }
    requires slots { HasSlots b.old l }
    requires within { k < l.size }
    ensures means { IfOk result (λ x. Means b.new x (young_slots l k)) }
    ensures wide { IfOk result (λ x. (signal b.new x).width ≡ l.size) }
    ensures extends { Extends b.old b.new }
{
    let place = k as u8;
    let from = emit_from(b, l, Net::Reg(l.from))?;
    let second = b.not(from)?;
    let rest = b.constant(
        l.size as u8,
        power(l.size as u8) as Word - power(place) as Word,
    )?;
    let first = b.slice(from, place, place)?;
    let either = b.bin(BinOp::Or, rest, second)?;
    let both = b.bin(BinOp::And, rest, second)?;
    b.mux(first, either, both)
}

/// Whether slot k is hit, and no younger one.
#[tactic(auto, using(crate::proofs::RingGrowth::slots_kept), unfolding(crate::specs::Looks::wins_at))]
fn emit_wins(b: &mut Builder, l: RingLayout, hits: Net, k: usize) -> Result<Net, NoMemory>
    requires sized { IsSized l }
    requires slots { HasSlots b.old l }
    requires within { k < l.size }
    requires hits { HasWidth b.old hits l.size }
    ensures means { IfOk result (λ x.
        Means b.new x (wins_at l (signal b.old hits) k)) }
    ensures wide { IfOk result (λ x. (signal b.new x).width ≡ 1) }
    ensures extends { Extends b.old b.new }
{
    let young = emit_young(b, l, k)?;
    let seen = b.bin(BinOp::And, hits, young)?;
    let alone = b.constant(l.size as u8, power(k as u8) as Word)?;
    b.bin(BinOp::Eq, seen, alone)
}

/// A net where another one is 1, else 0.
#[tactic(auto)]
fn emit_gated(b: &mut Builder, on: Net, net: Net, width: u8) -> Result<Net, NoMemory>
    requires low { 1 ≤ width }
    requires high { width ≤ widest }
    requires on { HasWidth b.old on 1 }
    requires net { HasWidth b.old net width }
    ensures means { IfOk result (λ x. Means b.new x
        (mux_signal (signal b.old on) (signal b.old net) (const_signal width 0))) }
    ensures wide { IfOk result (λ x. (signal b.new x).width ≡ width) }
    ensures extends { Extends b.old b.new }
{
    let zero = b.constant(width, 0)?;
    b.mux(on, net, zero)
}

/// What slot k holds where it wins, else 0.
#[tactic(auto, using(crate::proofs::Trees::either, crate::proofs::RingGrowth::slots_kept))]
fn emit_won(b: &mut Builder, l: RingLayout, hits: Net, k: usize) -> Result<Won, NoMemory>
    requires sized { IsSized l }
    requires slots { HasSlots b.old l }
    requires within { k < l.size }
    requires hits { HasWidth b.old hits l.size }
    ensures won { IfOk result (λ x.
        IsWon b.new l (signal b.old hits) 0 k x) }
    ensures extends { Extends b.old b.new }
{
    let wins = emit_wins(b, l, hits, k)?;
    let has = emit_gated(b, wins, Net::Reg(l.from + 2 + l.size + k), 1)?;
    let content = emit_gated(b, wins, Net::Reg(l.from + 2 + 2 * l.size + k), l.kept)?;
    Ok(Won { has, content })
}

/// What the winner among two halves holds.
#[tactic(auto)]
fn emit_either(b: &mut Builder, low: Won, high: Won) -> Result<Won, NoMemory>
    requires has { HasWidth b.old low.has 1 }
    requires has2 { HasWidth b.old high.has 1 }
    requires content { IsThere b.old low.content }
    requires content2 { IsThere b.old high.content }
    requires contents { (signal b.old high.content).width ≡ (signal b.old low.content).width }
    ensures either { IfOk result (λ z. IsEither b.old b.new low high z) }
    ensures extends { Extends b.old b.new }
{
    let has = b.bin(BinOp::Or, high.has, low.has)?;
    let content = b.bin(BinOp::Or, high.content, low.content)?;
    Ok(Won { has, content })
}

/// What the winner among the `2 ^ bits` slots from `from` on holds.
#[tactic(auto, using(crate::proofs::Trees::either, crate::proofs::RingGrowth::slots_kept))]
fn emit_winner(
    b: &mut Builder,
    l: RingLayout,
    hits: Net,
    bits: u8,
    from: usize,
) -> Result<Won, NoMemory>
    requires sized { IsSized l }
    requires slots { HasSlots b.old l }
    requires hits { HasWidth b.old hits l.size }
    requires bits { bits ≤ 16 }
    requires within { from + 2 ^ bits ≤ l.size }
    ensures won { IfOk result (λ x.
        IsWon b.new l (signal b.old hits) bits from x) }
    ensures extends { Extends b.old b.new }
{
    if bits == 0 {
        return emit_won(b, l, hits, from);
    }
    let top = bits - 1;
    let half = power(top);
    let low = emit_winner(b, l, hits, top, from)?;
    let high = emit_winner(b, l, hits, top, from + half)?;
    let won = emit_either(b, low, high)?;
    Ok(won)
}

/// Whether a slot is hit.
#[tactic(auto)]
fn emit_found(b: &mut Builder, l: RingLayout, hits: Net) -> Result<Net, NoMemory>
    requires sized { IsSized l }
    requires hits { HasWidth b.old hits l.size }
    ensures means { IfOk result (λ x.
        Means b.new x (bin_signal Ne (signal b.old hits) (no_slots l))) }
    ensures extends { Extends b.old b.new }
{
    let none = b.constant(l.size as u8, 0)?;
    b.bin(BinOp::Ne, hits, none)
}

/// Whether the youngest older pending write of the address has its value or there is none, and what its slot holds, else `other`.
#[tactic(auto, using(crate::proofs::RingGrowth::slots_kept))]
pub fn emit_youngest(
    b: &mut Builder,
    l: RingLayout,
    addr: Net,
    ticket: Net,
    other: Net,
) -> Result<(Net, Net), NoMemory>
    requires sized { IsSized l }
    requires slots { HasSlots b.old l }
    requires addr { HasWidth b.old addr l.bits }
    requires ticket { HasWidth b.old ticket l.ticket }
    requires other { HasWidth b.old other l.kept }
    ensures ready { IfOk result (λ x.
        Means b.new x.0 (youngest_ready l (signal b.old addr) (signal b.old ticket))) }
    ensures value { IfOk result (λ x.
        Means b.new x.1 (youngest_value l (content_signal l) (signal b.old other)
        (signal b.old addr) (signal b.old ticket))) }
    ensures extends { Extends b.old b.new }
{
    let hits = emit_hits(b, l, addr, ticket)?;
    let won = emit_winner(b, l, hits, l.ticket - 1, 0)?;
    let found = emit_found(b, l, hits)?;
    let one = b.constant(1, 1)?;
    let ready = b.mux(found, won.has, one)?;
    let value = b.mux(found, won.content, other)?;
    Ok((ready, value))
}
