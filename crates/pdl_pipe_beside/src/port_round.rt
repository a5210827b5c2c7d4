// What the registers of ports take next.
ghost use Rattle.std.specs.Prelude.{◌≡◌, ◌<◌, ℕ, IfOk, OnOk, length, slice_index};
ghost use Rattle.pdl_form.specs.FormView.{form};
ghost use Rattle.pdl_form.specs.View.{next_view};
ghost use Rattle.pdl_form_types.specs.Stmts.{AreForks};
ghost use Rattle.pdl_net.specs.Meaning.{Means, signal};
ghost use Rattle.pdl_net.specs.HasWidth.{HasWidth};
ghost use Rattle.pdl_semantics.specs.Stages.{stage_at};
ghost use Rattle.pdl_law_parts.specs.Walk.{both};
ghost use Rattle.pdl_law_sides.specs.Sides.{asks_memory as memory_asked, goes_to_place as goes_to_signal, asked_into};
ghost use Rattle.pdl_net.specs.Growth.{Extends, ExtendsBut};
ghost use Rattle.pdl_port.specs.Laws.{own as port_own};
ghost use Rattle.pdl_pipe_exprs.specs.Conditions.{AreBits};
ghost use Rattle.pdl_machine_inflight.specs.Readings.{places_of, places, place_at};
ghost use Rattle.pdl_pipe_answers.specs.Readings.{reading_view};
ghost use Rattle.pdl_pipe_beside.specs.Parts.{own_at, ExtendsParts};
ghost use Rattle.pdl_pipe_beside.specs.Ports.{ReadsLeadOn, StandPorts};
ghost use Rattle.pdl_pipe_beside.specs.Ends.{ends_in, moves_in, kills_in, AreEnds};
ghost use Rattle.pdl_pipe_beside.specs.Steps.{AreNetsOf, IsPortStepped};

use crate::asks::{asks_memory, goes_to_place};
use crate::ends::{BesideRound, end_at};
use crate::ports::place_count;
use pdl_build::Builder;
use pdl_form::Next;
use pdl_kit::{NoMemory, Seq};
use pdl_net::Net;
use pdl_pipe_answers::{Reading, next_of, port_of, read_delayed};
use pdl_port::{PortRegs, PortStep, emit_port_step};
use std::alloc::Global;

// The stage of the place of a number.
pub(crate) fn place(next: Next, i: usize) -> usize
    requires { i < length (places_of (next_view next)) }
    ensures { result ≡ slice_index (places_of (next_view next)) i }
{
    match next {
        Next::Ends => unreachable!(),
        Next::Goes(to) => to,
        Next::Forks { first, second, .. } => { if i == 0 { first } else { second } }
    }
}

// Whether the thread asks that comes into a place of a stage, where `asks` says whether the stage's thread does.
fn asks_into(
    b: &mut Builder,
    round: &BesideRound<'_, '_>,
    asks: Net,
    stage: usize,
    i: usize,
) -> Result<Net, NoMemory>
    requires bits { AreBits b.old round.now.bits }
    requires forks { AreForks (form round.now.pipe.now).widths
        (form round.now.pipe.now).pipe.stages }
    requires ends { AreEnds b.old (form round.now.pipe.now) round.now.ends.now }
    requires stage { stage < length (form round.now.pipe.now).pipe.stages }
    requires asks { HasWidth b.old asks 1 }
    ensures means { IfOk result (λ y.
        Means b.new y (both (signal b.old asks) (goes_to_signal
        (stage_at (form round.now.pipe.now).pipe stage).next i
        (ends_in b.old round.now.ends.now stage).ended))) }
    ensures one { IfOk result (λ y. (signal b.new y).width ≡ 1) }
    ensures extends { Extends b.old b.new }
{
    let end = end_at(round.ends, stage);
    let next = next_of(round.pipe, stage);
    let goes = goes_to_place(b, round.bits, end.ended, next, i)?;
    round.bits.both(b, asks, goes)
}

// Whether the thread of a stage moves and asks a memory.
fn stage_asks(
    b: &mut Builder,
    round: &BesideRound<'_, '_>,
    m: usize,
    stage: usize,
) -> Result<Net, NoMemory>
    requires bits { AreBits b.old round.now.bits }
    requires ends { AreEnds b.old (form round.now.pipe.now) round.now.ends.now }
    requires stage { stage < length (form round.now.pipe.now).pipe.stages }
    ensures means { IfOk result (λ y.
        Means b.new y (memory_asked m (moves_in b.old round.now.ends.now stage)
        (ends_in b.old round.now.ends.now stage).ended.asks)) }
    ensures one { IfOk result (λ y. (signal b.new y).width ≡ 1) }
    ensures extends { Extends b.old b.new }
{
    let end = end_at(round.ends, stage);
    asks_memory(b, round.bits, end.ended.asks.as_slice(), end.moves, m)
}

// What the stages do to the port of a memory, for a delayed read.
fn step_nets(
    alloc: Global,
    b: &mut Builder,
    round: &BesideRound<'_, '_>,
    m: usize,
    r: Reading,
) -> Result<PortStep, NoMemory>
    requires bits { AreBits b.old round.now.bits }
    requires forks { AreForks (form round.now.pipe.now).widths
        (form round.now.pipe.now).pipe.stages }
    requires ends { AreEnds b.old (form round.now.pipe.now) round.now.ends.now }
    requires stage { r.stage < length (form round.now.pipe.now).pipe.stages }
    requires to { (i : ℕ) → i < length (places (form round.now.pipe.now).pipe (reading_view r)) →
        place_at (form round.now.pipe.now).pipe (reading_view r) i
        < length (form round.now.pipe.now).pipe.stages }
    ensures asked { IfOk result (λ x. AreNetsOf b.new x.asked
        (length (places (form round.now.pipe.now).pipe (reading_view r)))
        (asked_into (form round.now.pipe.now).pipe (ends_in b.old round.now.ends.now)
        (moves_in b.old round.now.ends.now) m (reading_view r))) }
    ensures moves { IfOk result (λ x. AreNetsOf b.new x.moves
        (length (places (form round.now.pipe.now).pipe (reading_view r)))
        (λ i. moves_in b.old round.now.ends.now
        (place_at (form round.now.pipe.now).pipe (reading_view r) i))) }
    ensures removed { IfOk result (λ x. AreNetsOf b.new x.removed
        (length (places (form round.now.pipe.now).pipe (reading_view r)))
        (λ i. kills_in b.old round.now.ends.now
        (place_at (form round.now.pipe.now).pipe (reading_view r) i))) }
    ensures extends { Extends b.old b.new }
{
    let asks = stage_asks(b, round, m, r.stage)?;
    let next = next_of(round.pipe, r.stage);
    let mut asked = Seq::new(alloc);
    let mut moves = Seq::new(alloc);
    let mut removed = Seq::new(alloc);
    for i in 0..place_count(next) as usize {
        let end = end_at(round.ends, place(next, i));
        asked.push(asks_into(b, round, asks, r.stage, i)?)?;
        moves.push(end.moves)?;
        removed.push(end.killed)?;
    }
    Ok(PortStep {
        asked,
        moves,
        removed,
    })
}

// The step of a memory's port, where it is read delayed.
fn set_port(
    alloc: Global,
    b: &mut Builder,
    round: &BesideRound<'_, '_>,
    ports: &[Option<PortRegs>],
    m: usize,
) -> Result<(), NoMemory>
    requires bits { AreBits b.old round.now.bits }
    requires forks { AreForks (form round.now.pipe.now).widths
        (form round.now.pipe.now).pipe.stages }
    requires leads { ReadsLeadOn (form round.now.pipe.now).pipe }
    requires ends { AreEnds b.old (form round.now.pipe.now) round.now.ends.now }
    requires ports { StandPorts b.old (form round.now.pipe.now).pipe ports.now }
    ensures stepped { OnOk result (IsPortStepped b.old b.new (form round.now.pipe.now).pipe
        round.now.ends.now ports.now m) }
    ensures extends { ExtendsBut (own_at port_own ports.now m) b.old b.new }
{
    match read_delayed(round.pipe, m) {
        None => Ok(()),
        Some(r) => {
            let step = step_nets(alloc, b, round, m, r)?;
            emit_port_step(b, port_of(ports, m), &step)?;
            Ok(())
        }
    }
}

/// What the registers of all ports take next, by what the stages do: which thread asks, which moves, and which is removed. It is called once.
pub fn set_ports(
    alloc: Global,
    b: &mut Builder,
    round: &BesideRound<'_, '_>,
    ports: &[Option<PortRegs>],
) -> Result<(), NoMemory>
    requires bits { AreBits b.old round.now.bits }
    requires forks { AreForks (form round.now.pipe.now).widths
        (form round.now.pipe.now).pipe.stages }
    requires leads { ReadsLeadOn (form round.now.pipe.now).pipe }
    requires ends { AreEnds b.old (form round.now.pipe.now) round.now.ends.now }
    requires ports { StandPorts b.old (form round.now.pipe.now).pipe ports.now }
    ensures stepped { OnOk result ((m : ℕ) → IsPortStepped b.old b.new
        (form round.now.pipe.now).pipe round.now.ends.now ports.now m) }
    ensures extends { ExtendsParts (own_at port_own ports.now)
        (length (form round.now.pipe.now).pipe.mems) b.old b.new }
{
    for m in 0..round.pipe.mems().len() {
        set_port(alloc, b, round, ports, m)?;
    }
    Ok(())
}
