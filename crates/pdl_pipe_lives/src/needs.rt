// What the statements from a stage on still need.
ghost use Rattle.std.specs.Prelude.{◌≡◌, ℕ, ◌<◌, ◌&&◌, ◌||◌, None, drop, length, nat_le, replicate, IfOk};
ghost use Rattle.pdl_semantics.specs.Stages.{is_verify};
ghost use Rattle.pdl_form.specs.FormView.{form};
ghost use Rattle.pdl_form.specs.View.{act_view, next_view, stages_view, stmts_view};
ghost use Rattle.pdl_law_parts.specs.Lives.{lives_from as is_live, mark_from as is_asked, asks_held as asks_whether_held, asks_late as asks_whether_late, asks_mark as asks_for, forks_by as goes_by, verifies_from as is_verified};
ghost use Rattle.pdl_pipe_lives.specs.Needs.{rows_use, rows_verify, any_forks_by, lasts as stays, lasts_at, AreNoted, IsNoted, AreNeeds};

use crate::uses::{later, note, note_statement};
use pdl_form::{FlatPipe, FlatStage, FlatStmt, Next, Op};
use pdl_kit::NoMemory;
use pdl_law_parts::Mark;
use std::alloc::Global;

/// How long a thread needs the values of its variables and the arguments of its guess.
#[derive(Drop)]
pub struct Needs {
    // The last stage that uses a variable, by the number of the variable.
    uses: Vec<Option<usize>>,
    // The last stage that verifies the guess.
    verifies: Option<usize>,
}

// The stages of statements use the variables of these.
fn note_statements(last: &mut [Option<usize>], stmts: &[FlatStmt])
    ensures { AreNoted last.old last.new (λ k x. rows_use k x (stmts_view stmts.now)) }
{
    for s in stmts {
        note_statement(last, s);
    }
}

// A stage that forks uses the variable that it forks by.
fn note_fork(last: &mut [Option<usize>], stage: usize, next: &Next)
    ensures { IsNoted last.old last.new stage (goes_by (next_view next.now)) }
{
    match next {
        Next::Forks { x, .. } => note(last, stage, *x),
        Next::Ends => {}
        Next::Goes(_) => {}
    }
}

// The stages that fork use the variables that they fork by.
fn note_forks(last: &mut [Option<usize>], stages: &[FlatStage])
    ensures { AreNoted last.old last.new (λ k x.
        any_forks_by x (drop k (stages_view stages.now))) }
{
    for (stage, s) in stages.iter().enumerate() {
        note_fork(last, stage, &s.next);
    }
}

// Whether an operation verifies the guess.
fn verifies(op: &Op) -> bool
    ensures { result ≡ is_verify (act_view op.now) }
{
    match op {
        Op::Verify { last, .. } => *last,
        Op::Bind { .. } | Op::CombRead { .. } | Op::DelayedRead { .. } | Op::Write { .. } => false,
        Op::ReserveRead { .. } | Op::ReserveWrite { .. } | Op::Block { .. } => false,
        Op::Release { .. } | Op::Call(_) | Op::SpecCall(_) => false,
        Op::SpecCheck | Op::SpecBarrier => false,
        Op::AdviceBind { .. } | Op::AdviceRead { .. } | Op::AdviceWrite { .. } => false,
    }
}

// The last stage that verifies the guess, with one more statement.
fn with_verify(last: Option<usize>, s: &FlatStmt) -> Option<usize>
    ensures { (k : ℕ) → stays k result
        ≡ (stays k last || (nat_le k s.now.stage && is_verify (act_view s.now.op))) }
{
    if verifies(&s.op) {
        Some(later(last, s.stage))
    } else {
        last
    }
}

// The last stage that verifies the guess.
fn last_verify(stmts: &[FlatStmt]) -> Option<usize>
    ensures { (k : ℕ) → stays k result ≡ rows_verify k (stmts_view stmts.now) }
{
    let mut last = None;
    for s in stmts {
        last = with_verify(last, s);
    }
    last
}

// Whether a last stage, where there is one, is this one or a later one.
fn lasts(last: Option<usize>, stage: usize) -> bool
    ensures { result ≡ stays stage last }
{
    match last {
        Some(last) => stage <= last,
        None => false,
    }
}

// The stages of a pipe use the variables that they need.
fn note_pipe(last: &mut [Option<usize>], pipe: &FlatPipe)
    ensures { AreNoted last.old last.new (is_live (form pipe.now).pipe) }
{
    note_statements(last, pipe.stmts());
    note_forks(last, pipe.stages());
}

// None of so many variables is used.
fn no_uses(alloc: Global, count: usize) -> Result<Vec<Option<usize>>, NoMemory>
    ensures { IfOk result (λ v. v.items ≡ replicate count None) }
{
    Ok(Vec::from_elem(alloc, None, count)?)
}

// The last stage that uses a variable, by the number of the variable.
#[tactic(auto, using(crate::proofs::LastStages::unused))]
fn last_uses(alloc: Global, pipe: &FlatPipe) -> Result<Vec<Option<usize>>, NoMemory>
    ensures count { IfOk result (λ v. length v.items ≡ length (form pipe.now).widths) }
    ensures lives { IfOk result (λ v. (k x : ℕ) → x < length (form pipe.now).widths →
        lasts_at v.items k x ≡ is_live (form pipe.now).pipe k x) }
{
    let mut last = no_uses(alloc, pipe.vars())?;
    note_pipe(&mut last, pipe);
    Ok(last)
}

impl Needs {
    /// What the threads of a pipe need, by one walk over its statements. The error is that memory ran out.
    pub fn new(alloc: Global, pipe: &FlatPipe) -> Result<Needs, NoMemory>
        ensures { IfOk result (λ n. AreNeeds (form pipe.now) n) }
    {
        let uses = last_uses(alloc, pipe)?;
        let verifies = last_verify(pipe.stmts());
        Ok(Needs { uses, verifies })
    }

    /// Whether a statement or a fork of the stage or a later one uses a variable of the pipe, whose needs these are.
    pub fn lives_from(&self, pipe: &FlatPipe, stage: usize, x: usize) -> bool
        requires needs { AreNeeds (form pipe.now) self.now }
        requires low { x < length (form pipe.now).widths }
        ensures { result ≡ is_live (form pipe.now).pipe stage x }
    {
        let _vars = pipe.vars();
        lasts(self.uses[x], stage)
    }

    /// Whether a statement of the stage or a later one of the pipe, whose needs these are, verifies the guess.
    pub fn verifies_from(&self, pipe: &FlatPipe, stage: usize) -> bool
        requires { AreNeeds (form pipe.now) self.now }
        ensures { result ≡ is_verified (form pipe.now).pipe stage }
    {
        let _vars = pipe.vars();
        lasts(self.verifies, stage)
    }
}

// Whether an operation asks whether a location is held.
fn asks_held(op: &Op, mem: usize, var: usize) -> bool
    ensures { result ≡ asks_whether_held (act_view op.now) mem var }
{
    match op {
        Op::Block { m, a } => *m == mem && *a == var,
        Op::Release { m, a } => *m == mem && *a == var,
        Op::Bind { .. } | Op::CombRead { .. } | Op::DelayedRead { .. } | Op::Write { .. } => false,
        Op::ReserveRead { .. } | Op::ReserveWrite { .. } => false,
        Op::Call(_) | Op::SpecCall(_) | Op::Verify { .. } => false,
        Op::SpecCheck | Op::SpecBarrier => false,
        Op::AdviceBind { .. } | Op::AdviceRead { .. } | Op::AdviceWrite { .. } => false,
    }
}

// Whether an operation asks whether the reservation of a location is the second one.
fn asks_late(op: &Op, mem: usize, var: usize) -> bool
    ensures { result ≡ asks_whether_late (act_view op.now) mem var }
{
    match op {
        Op::Write { m, a, .. } => *m == mem && *a == var,
        Op::Bind { .. } | Op::CombRead { .. } | Op::DelayedRead { .. } => false,
        Op::ReserveRead { .. } | Op::ReserveWrite { .. } => false,
        Op::Block { .. } | Op::Release { .. } => false,
        Op::Call(_) | Op::SpecCall(_) | Op::Verify { .. } => false,
        Op::SpecCheck | Op::SpecBarrier => false,
        Op::AdviceBind { .. } | Op::AdviceRead { .. } | Op::AdviceWrite { .. } => false,
    }
}

// Whether an operation asks for a mark of a location.
fn asks_mark(op: &Op, mark: Mark, mem: usize, var: usize) -> bool
    ensures { result ≡ asks_for mark (act_view op.now) mem var }
{
    match mark {
        Mark::Held => asks_held(op, mem, var),
        Mark::Late => asks_late(op, mem, var),
    }
}

/// Whether a statement of the stage or a later one asks for a mark of a location, by its memory and the variable of its address.
pub fn mark_from(pipe: &FlatPipe, stage: usize, mark: Mark, mem: usize, var: usize) -> bool
    ensures { result ≡ is_asked (form pipe.now).pipe stage mark mem var }
{
    for s in pipe.stmts() {
        if stage <= s.stage && asks_mark(&s.op, mark, mem, var) {
            return true;
        }
    }
    false
}
