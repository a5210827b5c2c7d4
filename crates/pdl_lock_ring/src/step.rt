//! The step of slots that keep values: the commit ports, and what head, tail, slots and array take next.
ghost use Rattle.std.specs.Prelude.{◌≡◌, ℕ, [], ◌+◌, ◌-◌, ◌*◌, ◌^◌, ◌<◌, ◌≤◌, length, IfOk, OnOk, IsTrue};
ghost use Rattle.pdl_net.specs.Circuit.{State};
ghost use Rattle.pdl_net.specs.Signal.{const_signal, mux_signal};
ghost use Rattle.pdl_net.specs.Meaning.{IsThere, Means, signal, next_signal};
ghost use Rattle.pdl_net.specs.HasWidth.{HasWidth};
ghost use Rattle.pdl_net.specs.Growth.{Extends, ExtendsBut};
ghost use Rattle.pdl_lockapi.specs.Laws.{PortsThere, PortsFit, HasNoPorts, HasCommitNets, StepLaw, own, step_signals};
ghost use Rattle.pdl_lockapi.specs.Second.{Commit2Law};
ghost use Rattle.pdl_lockapi.specs.SlotLaws.{StillLaw};
ghost use Rattle.pdl_lock_ring.specs.Slots.{IsSized, HasSlots, ArePlaced, Stands, layout_of, ticket_bits};
ghost use Rattle.pdl_lock_ring.specs.Ready.{HasPorts, IsReady};
ghost use Rattle.pdl_lock_ring.specs.Looks.{head_signal};
ghost use Rattle.pdl_lock_ring.specs.Steps.{next_head, head_after, tail_after, slot_addr, slot_value, oldest_addr, oldest_value, next_addr, next_value, NextEnds, NextValues, WritesArray, two_writes, own_ends, own_array, own_all};
ghost use Rattle.pdl_lock_ring.specs.Oldest.{AreOldest, AreCommits};

use crate::layout::RingLayout;
use crate::slot::{Slot, emit_at, emit_contents, emit_slots};
use crate::state::emit_ticket2;
use crate::taken::{Taken, emit_taken};
use pdl_build::Builder;
use pdl_kit::NoMemory;
use pdl_lockapi::{LockNets, LockPorts, LockRegs};
use pdl_net::{BinOp, Net};

/// The oldest pending write and the one after it.
#[derive(Clone, Copy)]
pub struct Oldest {
    pub first: Slot,
    pub second: Slot,
}

/// The ticket after the oldest one.
#[tactic(auto)]
pub fn emit_next_head(b: &mut Builder, l: RingLayout) -> Result<Net, NoMemory>
    requires sized { IsSized l }
    requires slots { HasSlots b.old l }
    ensures means { IfOk result (λ x. Means b.new x (next_head l)) }
    ensures extends { Extends b.old b.new }
{
    let one = b.constant(l.ticket, 1)?;
    b.bin(BinOp::Add, Net::Reg(l.from), one)
}

/// The two oldest pending writes after the reservations and writes.
#[tactic(auto, using(crate::proofs::RingGrowth::ready_kept, pdl_lockapi::proofs::LockGrowth::ports))]
pub fn emit_oldest(
    b: &mut Builder,
    l: RingLayout,
    p: &LockPorts,
    t: Taken,
) -> Result<Oldest, NoMemory>
    requires ready { IsReady b.old l p.now t }
    ensures oldest { IfOk result (λ o. AreOldest b.new l (step_signals b.old p.now) o) }
    ensures extends { Extends b.old b.new }
{
    let head = Net::Reg(l.from);
    let next = emit_next_head(b, l)?;
    let first = emit_at(b, l, p, t, head)?;
    let second = emit_at(b, l, p, t, next)?;
    Ok(Oldest { first, second })
}

/// Address and value of a commit, both 0 where none is.
#[tactic(auto)]
pub fn emit_commit(
    b: &mut Builder,
    l: RingLayout,
    commit: Net,
    addr: Net,
    value: Net,
) -> Result<(Net, Net), NoMemory>
    requires sized { IsSized l }
    requires commit { HasWidth b.old commit 1 }
    requires addr { HasWidth b.old addr l.bits }
    requires value { HasWidth b.old value l.width }
    ensures addr { IfOk result (λ x. Means b.new x.0
        (mux_signal (signal b.old commit) (signal b.old addr) (const_signal l.bits 0))) }
    ensures value { IfOk result (λ x. Means b.new x.1
        (mux_signal (signal b.old commit) (signal b.old value) (const_signal l.width 0))) }
    ensures extends { Extends b.old b.new }
{
    let no_addr = b.constant(l.bits, 0)?;
    let no_value = b.constant(l.width, 0)?;
    let addr = b.mux(commit, addr, no_addr)?;
    let value = b.mux(commit, value, no_value)?;
    Ok((addr, value))
}

/// The commit ports.
#[tactic(auto, using(crate::proofs::Ends::release_is, crate::proofs::RingGrowth::oldest_kept, pdl_lockapi::proofs::LockGrowth::ports))]
fn emit_commits(
    b: &mut Builder,
    l: RingLayout,
    p: &LockPorts,
    o: Oldest,
) -> Result<LockNets, NoMemory>
    requires given { HasPorts b.old l p.now }
    requires same { l.kept ≡ l.width }
    requires oldest { AreOldest b.old l (step_signals b.old p.now) o }
    ensures commits { IfOk result (λ n. AreCommits b.new l (step_signals b.old p.now) n) }
    ensures extends { Extends b.old b.new }
{
    let (addr, value) = emit_commit(b, l, p.release, o.first.addr, o.first.content)?;
    let (addr2, value2) = emit_commit(b, l, p.release2, o.second.addr, o.second.content)?;
    Ok(LockNets {
        commit: p.release,
        addr,
        value,
        commit2: p.release2,
        addr2,
        value2,
    })
}

/// What the head takes next.
#[tactic(auto, using(crate::proofs::Ends::afters, crate::proofs::RingGrowth::ports_kept))]
fn emit_head(b: &mut Builder, l: RingLayout, p: &LockPorts) -> Result<Net, NoMemory>
    requires given { HasPorts b.old l p.now }
    ensures means { IfOk result (λ x. Means b.new x (head_after l (step_signals b.old p.now))) }
    ensures wide { IfOk result (λ x. (signal b.new x).width ≡ l.ticket) }
    ensures extends { Extends b.old b.new }
{
    let next = emit_next_head(b, l)?;
    let one = b.constant(l.ticket, 1)?;
    let after = b.bin(BinOp::Add, next, one)?;
    let kept = b.mux(p.release, next, Net::Reg(l.from))?;
    let head = b.mux(p.release2, after, kept)?;
    Ok(head)
}

/// What the tail takes next.
#[tactic(auto, using(crate::proofs::Ends::afters, crate::proofs::RingGrowth::ready_kept))]
fn emit_tail(b: &mut Builder, l: RingLayout, p: &LockPorts, t: Taken) -> Result<Net, NoMemory>
    requires ready { IsReady b.old l p.now t }
    ensures means { IfOk result (λ x. Means b.new x (tail_after l (step_signals b.old p.now))) }
    ensures wide { IfOk result (λ x. (signal b.new x).width ≡ l.ticket) }
    ensures extends { Extends b.old b.new }
{
    let next = emit_ticket2(b, l)?;
    let one = b.constant(l.ticket, 1)?;
    let after = b.bin(BinOp::Add, next, one)?;
    let kept = b.mux(t.one, next, Net::Reg(l.from + 1))?;
    let pushed = b.mux(t.two, after, kept)?;
    let tail = b.mux(p.squash, p.tail, pushed)?;
    Ok(tail)
}

/// Sets what head and tail take next.
#[tactic(auto, using(crate::proofs::RingGrowth::ready_kept))]
pub fn emit_ends(b: &mut Builder, l: RingLayout, p: &LockPorts, t: Taken) -> Result<(), NoMemory>
    requires ready { IsReady b.old l p.now t }
    ensures next { OnOk result (NextEnds b.new l (step_signals b.old p.now)) }
    ensures extends { ExtendsBut (own_ends l) b.old b.new }
{
    let head = emit_head(b, l, p)?;
    let tail = emit_tail(b, l, p, t)?;
    b.next(l.from, head);
    b.next(l.from + 1, tail);
    Ok(())
}

/// Whether a net is known to be 0 in every state.
fn is_off(b: &Builder, net: Net) -> bool
    requires { IsThere b.now net }
    ensures { IsTrue result → (s : State) → (signal b.now net).value s ≡ 0 }
{
    match b.constant_of(net) {
        Some(value) => value == 0,
        None => false,
    }
}

/// The writes of a cycle's commits into the array; a second port is made only where there may be a second release.
fn emit_write(
    b: &mut Builder,
    l: RingLayout,
    p: &LockPorts,
    o: Oldest,
    m: usize,
) -> Result<(), NoMemory>
    requires given { HasPorts b.old l p.now }
    requires same { l.kept ≡ l.width }
    requires array { l.array ≡ Some m }
    requires empty { HasNoPorts l.array b.old }
    requires oldest { AreOldest b.old l (step_signals b.old p.now) o }
    ensures write { OnOk result (WritesArray b.new l
        (two_writes (step_signals b.old p.now).release (signal b.old o.first.addr)
        (signal b.old o.first.content) (step_signals b.old p.now).release2
        (signal b.old o.second.addr) (signal b.old o.second.content))) }
    ensures extends { ExtendsBut (own_array l) b.old b.new }
{
    let off = is_off(b, p.release2);
    b.write(m, p.release, o.first.addr, o.first.content)?;
    if off {
        return Ok(());
    }
    b.write(m, p.release2, o.second.addr, o.second.content)?;
    Ok(())
}

/// What the array takes next, where there is one.
fn emit_writes(b: &mut Builder, l: RingLayout, p: &LockPorts, o: Oldest) -> Result<(), NoMemory>
    requires given { HasPorts b.old l p.now }
    requires same { l.kept ≡ l.width }
    requires empty { HasNoPorts l.array b.old }
    requires oldest { AreOldest b.old l (step_signals b.old p.now) o }
    ensures write { OnOk result (WritesArray b.new l
        (two_writes (step_signals b.old p.now).release (signal b.old o.first.addr)
        (signal b.old o.first.content) (step_signals b.old p.now).release2
        (signal b.old o.second.addr) (signal b.old o.second.content))) }
    ensures extends { ExtendsBut (own_array l) b.old b.new }
{
    match l.array {
        None => Ok(()),
        Some(m) => emit_write(b, l, p, o, m),
    }
}

/// The nets of the commit ports, and what head, tail, slots and array take next.
fn emit_all(b: &mut Builder, l: RingLayout, p: &LockPorts) -> Result<LockNets, NoMemory>
    requires given { HasPorts b.old l p.now }
    requires same { l.kept ≡ l.width }
    requires empty { HasNoPorts l.array b.old }
    ensures next { OnOk result (NextValues b.new l (step_signals b.old p.now)) }
    ensures commits { IfOk result (λ n. AreCommits b.new l (step_signals b.old p.now) n) }
    ensures extends { ExtendsBut (own_all l) b.old b.new }
{
    let taken = emit_taken(b, l, p)?;
    let oldest = emit_oldest(b, l, p, taken)?;
    let nets = emit_commits(b, l, p, oldest)?;
    emit_slots(b, l, p, taken)?;
    emit_contents(b, l, p)?;
    emit_ends(b, l, p, taken)?;
    emit_writes(b, l, p, oldest)?;
    Ok(nets)
}

/// The step of a lock whose slots keep the values.
pub fn emit_step(
    b: &mut Builder,
    size: u8,
    r: &LockRegs,
    p: &LockPorts,
) -> Result<LockNets, NoMemory>
    requires placed { ArePlaced size b.old r.now }
    requires empty { HasNoPorts r.now.array b.old }
    requires ports { PortsThere b.old p.now }
    requires fit { PortsFit b.old r.now.bits r.now.width (ticket_bits size) p.now }
    ensures nets { IfOk result (λ n.
        HasCommitNets b.new r.now.bits r.now.width n.commit n.addr n.value) }
    ensures law { IfOk result (λ n.
        StepLaw (Stands (layout_of size r.now)) size (ticket_bits size) (own r.now) b.new
        (step_signals b.old p.now) (signal b.new n.commit) (signal b.new n.addr)
        (signal b.new n.value)) }
    ensures nets2 { IfOk result (λ n.
        HasCommitNets b.new r.now.bits r.now.width n.commit2 n.addr2 n.value2) }
    ensures law2 { IfOk result (λ n.
        Commit2Law (Stands (layout_of size r.now)) size (ticket_bits size)
        (step_signals b.old p.now) (signal b.new n.commit2) (signal b.new n.addr2)
        (signal b.new n.value2)) }
    ensures still { OnOk result (StillLaw (Stands (layout_of size r.now)) size
        (ticket_bits size) (own r.now) b.new (step_signals b.old p.now) r.now) }
    ensures extends { ExtendsBut (own r.now) b.old b.new }
{
    let l = RingLayout::of(size, r);
    let nets = emit_all(b, l, p)?;
    Ok(nets)
}
