// Variables with the answers of a cycle, and whether a stage's thread has all that it awaits.
ghost use Rattle.std.specs.Prelude.{◌≡◌, ℕ, ◌+◌, ◌-◌, ◌<◌, ◌≤◌, true, IfOk, Some, is_some, length};
ghost use Rattle.pdl_form.specs.FormView.{form};
ghost use Rattle.pdl_form.specs.View.{next_view};
ghost use Rattle.pdl_net.specs.Meaning.{IsThere, Means, signal};
ghost use Rattle.pdl_net.specs.Growth.{Extends};
ghost use Rattle.pdl_port.specs.Laws.{HasAnswerNets, answer_at, answer_signals, places as port_places};
ghost use Rattle.pdl_law_sides.specs.Readings.{places_of, reading as read_of};
ghost use Rattle.pdl_law_sides.specs.Sides.{place_answer as place_signal, memory_answer as memory_signal, with_answer};
ghost use Rattle.pdl_pipe_answers.specs.Ports.{port_at, answers_in, HasAnswers, BindsWide, answer_where};

use crate::readings::{next_of, read_delayed};
use pdl_build::Builder;
use pdl_form::{FlatPipe, Next};
use pdl_kit::NoMemory;
use pdl_net::Net;
use pdl_port::{Answer, PortRegs};

// What a port tells of a place.
pub(crate) fn answer_of(port: &PortRegs, i: usize) -> Answer
    requires { i < port_places port.now }
    ensures { result ≡ answer_at port.now i }
{
    port.answers.as_slice()[i]
}

// The answer of a place where `here` is true and it has one, else `rest`.
fn answer_or(
    b: &mut Builder,
    port: &PortRegs,
    i: usize,
    here: bool,
    rest: Net,
) -> Result<Net, NoMemory>
    requires place { i < port_places port.now }
    requires rest { IsThere b.old rest }
    requires nets { HasAnswerNets b.old (signal b.old rest).width port.now }
    ensures means { IfOk result (λ y.
        Means b.new y (answer_where here (answer_signals b.old port.now i) (signal b.old rest))) }
    ensures wide { IfOk result (λ y. (signal b.new y).width ≡ (signal b.old rest).width) }
    ensures extends { Extends b.old b.new }
    ensures regs { b.new.regs ≡ b.old.regs }
{
    if !here {
        return Ok(rest);
    }
    let answer = answer_of(port, i);
    b.mux(answer.given, answer.value, rest)
}

// The answer that comes into stage k through one of the places to which a stage leads, else `rest`.
fn place_answer(
    b: &mut Builder,
    port: &PortRegs,
    next: Next,
    k: usize,
    rest: Net,
) -> Result<Net, NoMemory>
    requires places { port_places port.now ≡ length (places_of (next_view next)) }
    requires rest { IsThere b.old rest }
    requires nets { HasAnswerNets b.old (signal b.old rest).width port.now }
    ensures means { IfOk result (λ y.
        Means b.new y (place_signal (answer_signals b.old port.now) k (places_of (next_view next)) 0
        (signal b.old rest))) }
    ensures wide { IfOk result (λ y. (signal b.new y).width ≡ (signal b.old rest).width) }
    ensures extends { Extends b.old b.new }
    ensures regs { b.new.regs ≡ b.old.regs }
{
    match next {
        Next::Ends => Ok(rest),
        Next::Goes(to) => answer_or(b, port, 0, to == k, rest),
        Next::Forks { first, second, .. } => {
            let later = answer_or(b, port, 1, second == k, rest)?;
            answer_or(b, port, 0, first == k, later)
        }
    }
}

/// The port of a memory that has one.
pub fn port_of(ports: &[Option<PortRegs>], m: usize) -> &PortRegs
    requires low { m < length ports.now }
    requires some { is_some (port_at ports.now m) ≡ true }
    ensures { port_at ports.now m ≡ Some result.now }
{
    match &ports[m] {
        Some(port) => port,
        None => unreachable!(),
    }
}

// The answer of a memory that comes for a variable into stage k, else `rest`.
fn memory_answer(
    b: &mut Builder,
    pipe: &FlatPipe,
    ports: &[Option<PortRegs>],
    k: usize,
    x: usize,
    m: usize,
    rest: Net,
) -> Result<Net, NoMemory>
    requires low { m < length (form pipe.now).pipe.mems }
    requires rest { IsThere b.old rest }
    requires ports { HasAnswers b.old (form pipe.now).pipe ports.now }
    requires wide { BindsWide (form pipe.now).pipe x (signal b.old rest).width m }
    ensures means { IfOk result (λ y.
        Means b.new y (memory_signal (form pipe.now).pipe (answers_in b.old ports.now) k x m
        (read_of (form pipe.now).pipe m) (signal b.old rest))) }
    ensures wide { IfOk result (λ y. (signal b.new y).width ≡ (signal b.old rest).width) }
    ensures extends { Extends b.old b.new }
    ensures regs { b.new.regs ≡ b.old.regs }
{
    match read_delayed(pipe, m) {
        None => Ok(rest),
        Some(r) if r.var == x => {
            let port = port_of(ports, m);
            place_answer(b, port, next_of(pipe, r.stage), k, rest)
        }
        Some(_) => Ok(rest),
    }
}

/// A variable with the answers of this cycle that come for it into stage k, where it was kept as `kept`.
pub fn with_answers(
    b: &mut Builder,
    pipe: &FlatPipe,
    ports: &[Option<PortRegs>],
    k: usize,
    x: usize,
    kept: Net,
) -> Result<Net, NoMemory>
    requires kept { IsThere b.old kept }
    requires ports { HasAnswers b.old (form pipe.now).pipe ports.now }
    requires wide { (m : ℕ) → BindsWide (form pipe.now).pipe x (signal b.old kept).width m }
    ensures means { IfOk result (λ y.
        Means b.new y (with_answer (form pipe.now).pipe (answers_in b.old ports.now) k x
        (signal b.old kept))) }
    ensures wide { IfOk result (λ y. (signal b.new y).width ≡ (signal b.old kept).width) }
    ensures extends { Extends b.old b.new }
    ensures regs { b.new.regs ≡ b.old.regs }
{
    let count = pipe.mems().len();
    let mut net = kept;
    for i in 0..count {
        net = memory_answer(b, pipe, ports, k, x, count - 1 - i, net)?;
    }
    Ok(net)
}
