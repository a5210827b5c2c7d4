// The arguments of the guess with which a stage begins.
ghost use Rattle.std.specs.Prelude.{◌≡◌, ◌<◌, IsTrue, IfOk, IfSome, OnOk, length, take};
ghost use Rattle.pdl_form.specs.FormView.{form};
ghost use Rattle.pdl_net.specs.Growth.{Extends};
ghost use Rattle.pdl_pipe_exprs.specs.Nets.{NetsThere, signals_in, widths_of};
ghost use Rattle.pdl_form_types.specs.Stmts.{IsTypedForm};
ghost use Rattle.pdl_law_parts.specs.Lives.{verifies_from as is_verified};
ghost use Rattle.pdl_word.specs.Each.{Each};
ghost use Rattle.pdl_pipe_registers.specs.declared.nets.Item.TheVariants.{Guess};
ghost use Rattle.pdl_pipe_registers.specs.Items.{ended_item};
ghost use Rattle.pdl_pipe_registers.specs.Stages.{end_of, IsFrame, IsTwin, AreOwn};
ghost use Rattle.pdl_pipe_registers.specs.Begun.{earlier_views, earlier_count, IsShared, IsEarlier, IsItem, IsSparedAfter, IsLonger, MayBegin, AreBegun};

use crate::entry::begin_item;
use crate::nets::{Earlier, Item, Shared, StageRegs};
use crate::registers::coming;
use pdl_build::Builder;
use pdl_form::FlatPipe;
use pdl_kit::{NoMemory, Seq};
use pdl_net::Net;
use pdl_pipe_answers::gets_answer;
use pdl_pipe_exprs::are_same;
use pdl_pipe_exprs::exprs::variable;
use std::alloc::Global;

// Whether there is a stage that may lead here, and each ends with one net for two items.
fn end_alike(
    b: &Builder,
    pipe: &FlatPipe,
    shared: &Shared<'_>,
    earlier: &Earlier<'_>,
    first: Item,
    second: Item,
) -> bool
    requires shared { IsShared b.now (form pipe.now) shared.now }
    requires earlier { IsEarlier b.now (form pipe.now)
        (signals_in b.now shared.now.next) earlier.now }
    requires first { IsItem (form pipe.now) first }
    requires second { IsItem (form pipe.now) second }
    ensures some { IsTrue result → 0 < length earlier.now.ways.now }
    ensures same { IsTrue result → Each (λ j.
        ended_item (earlier_views b.now earlier.now j) first
        ≡ ended_item (earlier_views b.now earlier.now j) second) earlier.now.ways.now }
{
    for i in 0..earlier.ways.len() {
        let net = coming(b, pipe, shared, earlier, i, first);
        if !are_same(net, coming(b, pipe, shared, earlier, i, second)) {
            return false;
        }
    }
    !earlier.ways.is_empty()
}

// A variable that lives on, gets no answer here, and has the net of an argument of the guess wherever a thread comes from.
fn twin_of(
    b: &Builder,
    pipe: &FlatPipe,
    shared: &Shared<'_>,
    earlier: &Earlier<'_>,
    i: usize,
) -> Option<usize>
    requires typed { IsTypedForm (form pipe.now) }
    requires shared { IsShared b.now (form pipe.now) shared.now }
    requires earlier { IsEarlier b.now (form pipe.now)
        (signals_in b.now shared.now.next) earlier.now }
    requires stage { earlier_count earlier.now < length (form pipe.now).pipe.stages }
    requires after { 0 < earlier_count earlier.now }
    requires low { i < length (form pipe.now).pipe.start }
    ensures low { IfSome result (λ x. x < length (form pipe.now).widths) }
    ensures twin { IfSome result (λ x. IsTwin (form pipe.now).pipe
        (earlier_views b.now earlier.now) (earlier_count earlier.now) i x) }
{
    let stage = earlier.stages.len();
    for x in 0..pipe.vars() {
        if end_alike(b, pipe, shared, earlier, Item::Guess(i), Item::Var(x))
            && earlier.needs.lives_from(pipe, stage, x)
            && !gets_answer(pipe, stage, x)
        {
            return Some(x);
        }
    }
    None
}

// An argument of the guess: zero where no stage from here on verifies it, and a variable's net where that always has its value.
fn begin_argument(
    b: &mut Builder,
    pipe: &FlatPipe,
    shared: &Shared<'_>,
    earlier: &Earlier<'_>,
    regs: &mut StageRegs,
    vars: &[Net],
    i: usize,
) -> Result<Net, NoMemory>
    requires typed { IsTypedForm (form pipe.now) }
    requires shared { IsShared b.old (form pipe.now) shared.now }
    requires earlier { IsEarlier b.old (form pipe.now)
        (signals_in b.old shared.now.next) earlier.now }
    requires stage { earlier_count earlier.now < length (form pipe.now).pipe.stages }
    requires vars { NetsThere b.old vars.now }
    requires wide { widths_of (signals_in b.old vars.now) ≡ (form pipe.now).widths }
    requires low { i < length (form pipe.now).pipe.start }
    requires last { end_of regs.old ≡ length b.old.regs }
    ensures begins { IfOk result (λ net.
        MayBegin b.new (form pipe.now) (signals_in b.old shared.now.next)
        (earlier_count earlier.now)
        (is_verified (form pipe.now).pipe (earlier_count earlier.now))
        regs.old regs.new (Guess i) net
        (IsSparedAfter b.old (form pipe.now) earlier.now vars.now (Guess i))) }
    ensures last { OnOk result (end_of regs.new ≡ length b.new.regs) }
    ensures extends { Extends b.old b.new }
{
    let zero = variable(b, shared.zeros.as_slice(), i);
    let stage = earlier.stages.len();
    if stage == 0 || !earlier.needs.verifies_from(pipe, stage) {
        return Ok(zero);
    }
    if let Some(x) = twin_of(b, pipe, shared, earlier, i) {
        return Ok(variable(b, vars, x));
    }
    begin_item(
        b,
        pipe,
        shared,
        earlier,
        regs,
        Item::Guess(i),
        pipe.width(i),
    )
}

/// The arguments of the guess, where the variables have these nets.
pub(crate) fn begin_guess(
    alloc: Global,
    b: &mut Builder,
    pipe: &FlatPipe,
    shared: &Shared<'_>,
    earlier: &Earlier<'_>,
    regs: &mut StageRegs,
    vars: &[Net],
) -> Result<Seq<Net>, NoMemory>
    requires typed { IsTypedForm (form pipe.now) }
    requires shared { IsShared b.old (form pipe.now) shared.now }
    requires earlier { IsEarlier b.old (form pipe.now)
        (signals_in b.old shared.now.next) earlier.now }
    requires stage { earlier_count earlier.now < length (form pipe.now).pipe.stages }
    requires vars { NetsThere b.old vars.now }
    requires wide { widths_of (signals_in b.old vars.now) ≡ (form pipe.now).widths }
    requires frame { IsFrame b.old (form pipe.now) (signals_in b.old shared.now.next)
        (earlier_count earlier.now) regs.old }
    requires own { AreOwn (form pipe.now) (earlier_count earlier.now) regs.old }
    ensures frame { OnOk result (IsFrame b.new (form pipe.now)
        (signals_in b.old shared.now.next) (earlier_count earlier.now) regs.new) }
    ensures own { OnOk result (AreOwn (form pipe.now) (earlier_count earlier.now) regs.new) }
    ensures longer { OnOk result (IsLonger regs.old regs.new) }
    ensures guess { IfOk result (λ xs. AreBegun b.new (form pipe.now)
        (signals_in b.old shared.now.next) regs.new Guess
        (λ i. is_verified (form pipe.now).pipe (earlier_count earlier.now))
        (λ i. IsSparedAfter b.old (form pipe.now) earlier.now vars.now (Guess i))
        (take (length (form pipe.now).pipe.start) (form pipe.now).widths) xs) }
    ensures extends { Extends b.old b.new }
{
    let mut nets = Seq::new(alloc);
    for i in 0..pipe.start().len() {
        let net = begin_argument(b, pipe, shared, earlier, regs, vars, i)?;
        nets.push(net)?;
    }
    Ok(nets)
}
