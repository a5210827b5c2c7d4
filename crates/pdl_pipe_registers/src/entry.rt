// What a stage begins with: registers for what its thread keeps.
ghost use Rattle.std.specs.Prelude.{◌≡◌, ℕ, ◌+◌, ◌<◌, ◌≤◌, ◌^◌, [], true, false, IsTrue, IfOk, OnOk, length, take, slice_index};
ghost use Rattle.pdl_form.specs.FormView.{form};
ghost use Rattle.pdl_net.specs.Signal.{const_signal};
ghost use Rattle.pdl_net.specs.Meaning.{IsThere, Means, signal};
ghost use Rattle.pdl_net.specs.Growth.{Extends};
ghost use Rattle.pdl_pipe_exprs.specs.Nets.{NetsThere, signals_in, signal_at, widths_of};
ghost use Rattle.pdl_form_types.specs.Stmts.{IsTypedForm};
ghost use Rattle.pdl_pipe_lives.specs.Needs.{goes_with};
ghost use Rattle.pdl_law_parts.specs.Lives.{lives_from as is_live};
ghost use Rattle.pdl_pipe_walk.specs.Parts.{walk_of, walk_in};
ghost use Rattle.pdl_pipe_walk.specs.Sized.{IsWalk};
ghost use Rattle.pdl_pipe_answers.specs.Ports.{answers_in};
ghost use Rattle.pdl_pipe_registers.specs.declared.nets.Item.TheVariants.{Var};
ghost use Rattle.pdl_pipe_registers.specs.Items.{IsZero, item_width, is_answered as gets_item};
ghost use Rattle.pdl_pipe_registers.specs.Stages.{end_of, begun_parts, IsFrame, IsBegun, AreOwn};
ghost use Rattle.pdl_pipe_registers.specs.Begun.{earlier_views, earlier_count, IsShared, IsEarlier, IsItem, IsSettledAfter, IsLonger, MayAdd, MayBegin, AreBegun, AreAnswered, IsFresh};
ghost use Rattle.pdl_word.specs.Words.{widest};

use crate::guess::begin_guess;
use crate::marks::begin_marks;
use crate::nets::{Earlier, Item, Shared, StageNets, StageRegs};
use crate::registers::common;
use crate::tickets::begin_tickets;
use pdl_build::Builder;
use pdl_form::FlatPipe;
use pdl_kit::{NoMemory, Seq};
use pdl_net::Net;
use pdl_pipe_answers::{gets_answer, with_answers};
use pdl_pipe_exprs::Bits;
use pdl_pipe_exprs::exprs::variable;
use pdl_pipe_walk::{MarkNet, WalkNets};
use pdl_word::Word;
use std::alloc::Global;

// Whether a thread may get an item in a stage by an answer.
fn is_answered(pipe: &FlatPipe, stage: usize, item: Item) -> bool
    ensures { result ≡ gets_item (form pipe.now).pipe stage item }
{
    match item {
        Item::Var(x) => gets_answer(pipe, stage, x),
        Item::Mark { .. } | Item::Ticket(_) | Item::Guess(_) => false,
    }
}

// An item of a stage after other ones: what all that may lead here end with for it, where that never changes and no answer comes, else a register.
pub(crate) fn begin_item(
    b: &mut Builder,
    pipe: &FlatPipe,
    shared: &Shared<'_>,
    earlier: &Earlier<'_>,
    regs: &mut StageRegs,
    item: Item,
    width: u8,
) -> Result<Net, NoMemory>
    requires shared { IsShared b.old (form pipe.now) shared.now }
    requires earlier { IsEarlier b.old (form pipe.now)
        (signals_in b.old shared.now.next) earlier.now }
    requires after { 0 < earlier_count earlier.now }
    requires item { IsItem (form pipe.now) item }
    requires low { 1 ≤ width }
    requires high { width ≤ widest }
    requires wide { width ≡ item_width (form pipe.now) (signals_in b.old shared.now.next) item }
    requires last { end_of regs.old ≡ length b.old.regs }
    ensures may { IfOk result (λ net.
        MayAdd b.new regs.old regs.new item width 0 net
        (IsSettledAfter b.old (form pipe.now) earlier.now item)) }
    ensures last { OnOk result (end_of regs.new ≡ length b.new.regs) }
    ensures extends { Extends b.old b.new }
{
    let stage = earlier.stages.len();
    if !is_answered(pipe, stage, item) {
        if let Some(net) = common(b, pipe, shared, earlier, item) {
            return Ok(net);
        }
    }
    regs.keep(b, item, width, 0)
}

// The first thread's argument for a parameter.
fn start_of(pipe: &FlatPipe, x: usize) -> Word
    requires { x < length (form pipe.now).pipe.start }
    ensures { result ≡ slice_index (form pipe.now).pipe.start x }
{
    pipe.start()[x]
}

// A variable of the first stage: parameters have the first thread's arguments at reset.
fn first_var(
    b: &mut Builder,
    pipe: &FlatPipe,
    regs: &mut StageRegs,
    zero: Net,
    x: usize,
) -> Result<Net, NoMemory>
    requires typed { IsTypedForm (form pipe.now) }
    requires low { x < length (form pipe.now).widths }
    requires zero { Means b.old zero (const_signal (slice_index (form pipe.now).widths x) 0) }
    requires last { end_of regs.old ≡ length b.old.regs }
    ensures may { IfOk result (λ net.
        MayAdd b.new regs.old regs.new (Var x) (slice_index (form pipe.now).widths x)
        (slice_index (form pipe.now).pipe.start x) net (IsZero (form pipe.now).pipe (Var x))) }
    ensures own { length (form pipe.now).pipe.start ≤ x → OnOk result (regs.new ≡ regs.old) }
    ensures last { OnOk result (end_of regs.new ≡ length b.new.regs) }
    ensures extends { Extends b.old b.new }
{
    if x < pipe.start().len() {
        regs.keep(b, Item::Var(x), pipe.width(x), start_of(pipe, x))
    } else {
        Ok(zero)
    }
}

// A variable of a stage; one that doesn't live needs no register.
fn begin_var(
    b: &mut Builder,
    pipe: &FlatPipe,
    shared: &Shared<'_>,
    earlier: &Earlier<'_>,
    regs: &mut StageRegs,
    x: usize,
) -> Result<Net, NoMemory>
    requires typed { IsTypedForm (form pipe.now) }
    requires shared { IsShared b.old (form pipe.now) shared.now }
    requires earlier { IsEarlier b.old (form pipe.now)
        (signals_in b.old shared.now.next) earlier.now }
    requires stage { earlier_count earlier.now < length (form pipe.now).pipe.stages }
    requires low { x < length (form pipe.now).widths }
    requires last { end_of regs.old ≡ length b.old.regs }
    ensures begins { IfOk result (λ net.
        MayBegin b.new (form pipe.now) (signals_in b.old shared.now.next)
        (earlier_count earlier.now)
        (is_live (form pipe.now).pipe (earlier_count earlier.now) x) regs.old regs.new (Var x) net
        (IsSettledAfter b.old (form pipe.now) earlier.now (Var x))) }
    ensures last { OnOk result (end_of regs.new ≡ length b.new.regs) }
    ensures extends { Extends b.old b.new }
{
    let zero = variable(b, shared.zeros.as_slice(), x);
    let stage = earlier.stages.len();
    if !earlier.needs.lives_from(pipe, stage, x) {
        Ok(zero)
    } else if stage == 0 {
        first_var(b, pipe, regs, zero, x)
    } else {
        begin_item(b, pipe, shared, earlier, regs, Item::Var(x), pipe.width(x))
    }
}

// The variables of a stage.
fn begin_vars(
    alloc: Global,
    b: &mut Builder,
    pipe: &FlatPipe,
    shared: &Shared<'_>,
    earlier: &Earlier<'_>,
    regs: &mut StageRegs,
) -> Result<Seq<Net>, NoMemory>
    requires typed { IsTypedForm (form pipe.now) }
    requires shared { IsShared b.old (form pipe.now) shared.now }
    requires earlier { IsEarlier b.old (form pipe.now)
        (signals_in b.old shared.now.next) earlier.now }
    requires stage { earlier_count earlier.now < length (form pipe.now).pipe.stages }
    requires frame { IsFrame b.old (form pipe.now) (signals_in b.old shared.now.next)
        (earlier_count earlier.now) regs.old }
    requires own { AreOwn (form pipe.now) (earlier_count earlier.now) regs.old }
    ensures frame { OnOk result (IsFrame b.new (form pipe.now)
        (signals_in b.old shared.now.next) (earlier_count earlier.now) regs.new) }
    ensures own { OnOk result (AreOwn (form pipe.now) (earlier_count earlier.now) regs.new) }
    ensures longer { OnOk result (IsLonger regs.old regs.new) }
    ensures vars { IfOk result (λ xs. AreBegun b.new (form pipe.now)
        (signals_in b.old shared.now.next) regs.new Var
        (is_live (form pipe.now).pipe (earlier_count earlier.now))
        (λ x. IsSettledAfter b.old (form pipe.now) earlier.now (Var x)) (form pipe.now).widths xs) }
    ensures extends { Extends b.old b.new }
{
    let mut nets = Seq::new(alloc);
    for x in 0..pipe.vars() {
        let net = begin_var(b, pipe, shared, earlier, regs, x)?;
        nets.push(net)?;
    }
    Ok(nets)
}

// The variables with the answers of this cycle.
fn begin_answers(
    alloc: Global,
    b: &mut Builder,
    pipe: &FlatPipe,
    shared: &Shared<'_>,
    stage: usize,
    vars: &[Net],
) -> Result<Seq<Net>, NoMemory>
    requires shared { IsShared b.old (form pipe.now) shared.now }
    requires typed { IsTypedForm (form pipe.now) }
    requires vars { NetsThere b.old vars.now }
    requires wide { widths_of (signals_in b.old vars.now) ≡ (form pipe.now).widths }
    ensures answered { IfOk result (λ xs. AreAnswered b.new (form pipe.now)
        (answers_in b.old shared.now.ports.now) stage vars.now xs) }
    ensures extends { Extends b.old b.new }
    ensures regs { b.new.regs ≡ b.old.regs }
{
    let mut nets = Seq::new(alloc);
    for x in 0..vars.len() {
        let kept = variable(b, vars, x);
        let net = with_answers(b, pipe, shared.ports, stage, x, kept)?;
        nets.push(net)?;
    }
    Ok(nets)
}

// The walk over the statements, before the first one.
fn begin_walk(
    alloc: Global,
    bits: Bits,
    vars: &[Net],
    marks: &[MarkNet],
    guess: &[Net],
) -> Result<WalkNets, NoMemory>
    ensures { IfOk result (λ w. IsFresh bits vars.now marks.now guess.now w) }
{
    Ok(WalkNets {
        vars: Vec::from_slice(alloc, vars)?,
        marks: Vec::from_slice(alloc, marks)?,
        ready: bits.one,
        reserves: Seq::new(alloc),
        puts: Seq::new(alloc),
        lettings: Seq::new(alloc),
        births: Vec::new(alloc),
        asks: Seq::new(alloc),
        advises: Seq::new(alloc),
        guess: Seq::from_vec(Vec::from_slice(alloc, guess)?),
        fails: bits.zero,
        barrier: bits.zero,
    })
}

/// The stage after these, before its statements: at reset the first one holds the first thread with its arguments, and another none.
pub fn begin(
    alloc: Global,
    b: &mut Builder,
    pipe: &FlatPipe,
    shared: &Shared<'_>,
    earlier: &Earlier<'_>,
) -> Result<StageNets, NoMemory>
    requires typed { IsTypedForm (form pipe.now) }
    requires shared { IsShared b.old (form pipe.now) shared.now }
    requires earlier { IsEarlier b.old (form pipe.now)
        (signals_in b.old shared.now.next) earlier.now }
    requires stage { earlier_count earlier.now < length (form pipe.now).pipe.stages }
    requires reserves { length (form pipe.now).pipe.reserves_at ≡ length (form pipe.now).pipe.mems }
    requires releases { length (form pipe.now).pipe.releases_at ≡ length (form pipe.now).pipe.mems }
    ensures begun { IfOk result (λ s.
        IsBegun b.new (form pipe.now) (signals_in b.old shared.now.next)
        (answers_in b.old shared.now.ports.now) (earlier_views b.old earlier.now)
        (earlier_count earlier.now) s) }
    ensures place { IfOk result (λ s. s.regs.valid ≡ length b.old.regs) }
    ensures extends { Extends b.old b.new }
{
    let stage = earlier.stages.len();
    let mut regs = StageRegs::new(alloc, b, Word::from(stage == 0))?;
    let vars = begin_vars(alloc, b, pipe, shared, earlier, &mut regs)?;
    let marks = begin_marks(alloc, b, pipe, shared, earlier, &mut regs)?;
    let tickets = begin_tickets(alloc, b, pipe, shared, stage, &mut regs)?;
    let guess = begin_guess(alloc, b, pipe, shared, earlier, &mut regs, vars.as_slice())?;
    let begun = begin_answers(alloc, b, pipe, shared, stage, vars.as_slice())?;
    let end = begin_walk(
        alloc,
        shared.bits,
        begun.as_slice(),
        marks.as_slice(),
        guess.as_slice(),
    )?;
    Ok(StageNets {
        regs,
        vars,
        begun,
        marks,
        tickets,
        guess,
        end,
    })
}
