// Tails that go with the threads, in registers of their own.
ghost use Rattle.std.specs.Prelude.{◌≡◌, ℕ, ◌<◌, ◌≤◌, [], IfOk, length, slice_index_or};
ghost use Rattle.pdl_form.specs.FormView.{form};
ghost use Rattle.pdl_net.specs.Meaning.{IsThere, Means, signal};
ghost use Rattle.pdl_net.specs.HasWidth.{HasWidth};
ghost use Rattle.pdl_net.specs.Growth.{Extends};
ghost use Rattle.pdl_net.specs.Signal.{Signal};
ghost use Rattle.pdl_pipe_exprs.specs.Nets.{NetsThere, signals_in, signal_at};
ghost use Rattle.pdl_pipe_nexts.specs.Lines.{line_pipe, IsLineIn};
ghost use Rattle.pdl_pipe_tails.specs.Reserved.{AreAfterAll};
ghost use Rattle.pdl_pipe_tails.specs.Carried.{brought_tail, carries_tail as has_tail, tail_in, AreComing, HaveTails, IsCarried};
ghost use Rattle.pdl_pipe_tails.specs.Tails.{AreStageTails, IsTail};
ghost use Rattle.pdl_word.specs.Words.{widest};

use pdl_build::Builder;
use pdl_form::FlatPipe;
use pdl_kit::{NoMemory, Seq};
use pdl_net::Net;
use pdl_pipe_exprs::exprs::variable;
use pdl_pipe_lives::has_lock;
use pdl_pipe_nexts::StageLine;
use pdl_pipe_nexts::arrivals::{Arrival, threads_into};
use pdl_pipe_nexts::coming::arrival_at;
use std::alloc::Global;

/// The tails of an earlier stage.
pub(crate) fn row_at<'a>(before: &'a [Seq<Net>], k: usize) -> &'a Seq<Net>
    requires { k < length before.now }
    ensures { result.now ≡ slice_index_or before.now k [] }
{
    &before[k]
}

// The tail of a memory that the first thread brings which comes, else `rest`; `before` has the tails of the stages that it may come out of.
fn coming(
    b: &mut Builder,
    arrivals: &[Arrival],
    before: &[Seq<Net>],
    mem: usize,
    rest: Net,
) -> Result<Net, NoMemory>
    requires arrivals { AreComing b.old (length before.now) arrivals.now }
    requires before { HaveTails b.old mem (signal b.old rest).width before.now }
    requires rest { IsThere b.old rest }
    ensures means { IfOk result (λ x.
        Means b.new x (brought_tail b.old before.now mem arrivals.now (signal b.old rest))) }
    ensures wide { IfOk result (λ x. (signal b.new x).width ≡ (signal b.old rest).width) }
    ensures extends { Extends b.old b.new }
    ensures regs { b.new.regs ≡ b.old.regs }
{
    let mut net = rest;
    for i in 0..arrivals.len() {
        let arrival = arrival_at(arrivals, arrivals.len() - 1 - i);
        let row = row_at(before, arrival.from);
        let tail = variable(b, row.as_slice(), mem);
        net = b.mux(arrival.comes, tail, net)?;
    }
    Ok(net)
}

// A register that keeps the tail with which its thread came.
fn carried(
    b: &mut Builder,
    arrivals: &[Arrival],
    before: &[Seq<Net>],
    mem: usize,
    width: u8,
) -> Result<Net, NoMemory>
    requires low { 1 ≤ width }
    requires high { width ≤ widest }
    requires arrivals { AreComing b.old (length before.now) arrivals.now }
    requires before { HaveTails b.old mem width before.now }
    ensures wide { IfOk result (λ x. HasWidth b.new x width) }
    ensures carried { IfOk result (λ x. IsCarried b.new (length b.old.regs) (signal b.new x)
        (brought_tail b.old before.now mem arrivals.now (signal b.new x))) }
    ensures extends { Extends b.old b.new }
{
    let r = b.reg(width, 0)?;
    let own = Net::Reg(r);
    let net = coming(b, arrivals, before, mem, own)?;
    b.next(r, net);
    Ok(own)
}

// Whether a thread in a stage has its own tail of a memory: the memory has a lock, and the stage of its reserves is past.
fn carries_tail(pipe: &FlatPipe, stage: usize, mem: usize) -> bool
    requires mem { mem < length (form pipe.now).pipe.mems }
    requires reserves { length (form pipe.now).pipe.reserves_at ≡ length (form pipe.now).pipe.mems }
    ensures { result ≡ has_tail (form pipe.now).pipe stage mem }
{
    let from = pipe.reserved(mem).unwrap_or(0);
    has_lock(pipe, mem) && from < stage
}

// The tail of a memory in a stage, where the fresh tails, the tails of the stages before and the threads that may come are these.
fn stage_tail(
    b: &mut Builder,
    pipe: &FlatPipe,
    fresh: &[Net],
    before: &[Seq<Net>],
    arrivals: &[Arrival],
    stage: usize,
    mem: usize,
) -> Result<Net, NoMemory>
    requires mem { mem < length (form pipe.now).pipe.mems }
    requires reserves { length (form pipe.now).pipe.reserves_at ≡ length (form pipe.now).pipe.mems }
    requires fresh { NetsThere b.old fresh.now }
    requires low { mem < length fresh.now }
    requires before { HaveTails b.old mem (signal_at (signals_in b.old fresh.now) mem).width
        before.now }
    requires arrivals { AreComing b.old (length before.now) arrivals.now }
    ensures there { IfOk result (λ x. IsThere b.new x) }
    ensures tail { IfOk result (λ x. IsTail b.old b.new (form pipe.now).pipe fresh.now before.now
        arrivals.now stage mem (signal b.new x)) }
    ensures extends { Extends b.old b.new }
{
    let own = variable(b, fresh, mem);
    if !carries_tail(pipe, stage, mem) {
        return Ok(own);
    }
    let width = b.width(own);
    carried(b, arrivals, before, mem, width)
}

/// The tails of all memories in a stage, where the fresh tails and the tails of the stages before are these.
pub fn stage_tails(
    alloc: Global,
    b: &mut Builder,
    line: &StageLine<'_>,
    fresh: &[Net],
    before: &[Seq<Net>],
    stage: usize,
) -> Result<Seq<Net>, NoMemory>
    requires line { IsLineIn b.old line.now }
    requires reserves { length (line_pipe line.now).reserves_at ≡ length (line_pipe line.now).mems }
    requires low { stage < length (line_pipe line.now).stages }
    requires fresh { AreAfterAll b.old b.old line.now fresh.now }
    requires count { length before.now ≡ stage }
    requires before { (m : ℕ) → m < length fresh.now →
        HaveTails b.old m (signal_at (signals_in b.old fresh.now) m).width before.now }
    ensures tails { (tails : ℕ → ℕ → Signal) →
        ((j m : ℕ) → j < stage → tails j m ≡ tail_in b.old before.now [] j m) →
        IfOk result (λ xs. AreStageTails b.old b.new line.now tails stage xs) }
    ensures extends { Extends b.old b.new }
{
    let list = threads_into(alloc, b, line, stage)?;
    let arrivals = list.as_slice();
    let mut nets = Seq::new(alloc);
    for m in 0..fresh.len() {
        let net = stage_tail(b, line.pipe, fresh, before, arrivals, stage, m)?;
        nets.push(net)?;
    }
    Ok(nets)
}
