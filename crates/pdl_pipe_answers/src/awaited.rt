// Whether a stage's thread awaits no answer any more.
ghost use Rattle.std.specs.Prelude.{◌≡◌, ◌+◌, ◌-◌, ◌<◌, ◌≤◌, ℕ, IfOk, length};
ghost use Rattle.pdl_form.specs.FormView.{form};
ghost use Rattle.pdl_form.specs.View.{next_view};
ghost use Rattle.pdl_net.specs.Growth.{Extends};
ghost use Rattle.pdl_net.specs.Meaning.{signal};
ghost use Rattle.pdl_pipe_exprs.specs.Conditions.{AreBits};
ghost use Rattle.pdl_law_sides.specs.Walk.{both};
ghost use Rattle.pdl_port.specs.Laws.{HasAnswerNets, answer_signals, places as port_places};
ghost use Rattle.pdl_law_sides.specs.Readings.{places_of, reading as read_of};
ghost use Rattle.pdl_law_sides.specs.Sides.{place_answered, memory_answered, all_answered as all_signal};
ghost use Rattle.pdl_pipe_answers.specs.Ports.{answers_in, HasAnswers, IsBit, IsBitFor, answered_where};

use crate::answers::{answer_of, port_of};
use crate::readings::{next_of, read_delayed};
use pdl_build::Builder;
use pdl_form::{FlatPipe, Next};
use pdl_kit::NoMemory;
use pdl_net::Net;
use pdl_pipe_exprs::{Bits, are_same};
use pdl_port::PortRegs;

/// Both of two bits: the other one where one is the constant 1.
pub fn both_bits(b: &mut Builder, bits: Bits, x: Net, y: Net) -> Result<Net, NoMemory>
    requires bits { AreBits b.old bits }
    requires x { IsBit b.old x }
    requires y { IsBit b.old y }
    ensures on { IfOk result (λ z.
        IsBitFor b.new z (both (signal b.old x) (signal b.old y))) }
    ensures extends { Extends b.old b.new }
    ensures regs { b.new.regs ≡ b.old.regs }
{
    if are_same(y, bits.one) {
        return Ok(x);
    }
    if are_same(x, bits.one) {
        return Ok(y);
    }
    let net = bits.both(b, x, y)?;
    Ok(net)
}

// Where `here` is true, that nothing is awaited through a place, beside the rest.
fn place_or(
    b: &mut Builder,
    bits: Bits,
    port: &PortRegs,
    i: usize,
    here: bool,
    rest: Net,
) -> Result<Net, NoMemory>
    requires bits { AreBits b.old bits }
    requires place { i < port_places port.now }
    requires rest { IsBit b.old rest }
    requires width { (w : ℕ) × HasAnswerNets b.old w port.now }
    ensures on { IfOk result (λ y. IsBitFor b.new y
        (answered_where here (answer_signals b.old port.now i) (signal b.old rest))) }
    ensures extends { Extends b.old b.new }
    ensures regs { b.new.regs ≡ b.old.regs }
{
    if !here {
        return Ok(rest);
    }
    both_bits(b, bits, answer_of(port, i).answered, rest)
}

// That nothing is awaited in stage k through the places to which a stage leads.
fn places_done(
    b: &mut Builder,
    bits: Bits,
    port: &PortRegs,
    next: Next,
    k: usize,
) -> Result<Net, NoMemory>
    requires bits { AreBits b.old bits }
    requires places { port_places port.now ≡ length (places_of (next_view next)) }
    requires width { (w : ℕ) × HasAnswerNets b.old w port.now }
    ensures on { IfOk result (λ y. IsBitFor b.new y
        (place_answered (answer_signals b.old port.now) k (places_of (next_view next)) 0)) }
    ensures extends { Extends b.old b.new }
    ensures regs { b.new.regs ≡ b.old.regs }
{
    match next {
        Next::Ends => Ok(bits.one),
        Next::Goes(to) => place_or(b, bits, port, 0, to == k, bits.one),
        Next::Forks { first, second, .. } => {
            let later = place_or(b, bits, port, 1, second == k, bits.one)?;
            let done = place_or(b, bits, port, 0, first == k, later)?;
            Ok(done)
        }
    }
}

// That nothing is awaited in stage k of a memory.
fn memory_done(
    b: &mut Builder,
    pipe: &FlatPipe,
    bits: Bits,
    ports: &[Option<PortRegs>],
    k: usize,
    m: usize,
) -> Result<Net, NoMemory>
    requires bits { AreBits b.old bits }
    requires low { m < length (form pipe.now).pipe.mems }
    requires ports { HasAnswers b.old (form pipe.now).pipe ports.now }
    ensures on { IfOk result (λ y. IsBitFor b.new y (memory_answered (form pipe.now).pipe
        (answers_in b.old ports.now) k m (read_of (form pipe.now).pipe m))) }
    ensures extends { Extends b.old b.new }
    ensures regs { b.new.regs ≡ b.old.regs }
{
    match read_delayed(pipe, m) {
        None => Ok(bits.one),
        Some(r) => places_done(b, bits, port_of(ports, m), next_of(pipe, r.stage), k),
    }
}

/// Whether the thread of stage k awaits no answer any more, 1 bit.
pub fn all_answered(
    b: &mut Builder,
    pipe: &FlatPipe,
    bits: Bits,
    ports: &[Option<PortRegs>],
    k: usize,
) -> Result<Net, NoMemory>
    requires bits { AreBits b.old bits }
    requires ports { HasAnswers b.old (form pipe.now).pipe ports.now }
    ensures on { IfOk result (λ y. IsBitFor b.new y (all_signal (form pipe.now).pipe
        (answers_in b.old ports.now) k (length (form pipe.now).pipe.mems) 0)) }
    ensures extends { Extends b.old b.new }
    ensures regs { b.new.regs ≡ b.old.regs }
{
    let count = pipe.mems().len();
    let mut net = bits.one;
    for i in 0..count {
        let done = memory_done(b, pipe, bits, ports, k, count - 1 - i)?;
        net = both_bits(b, bits, done, net)?;
    }
    Ok(net)
}
