// The delayed reads of a pipe.
ghost use Rattle.std.specs.Prelude.{◌≡◌, ◌+◌, ◌<◌, ◌≤◌, ◌-◌, length, option_map};
ghost use Rattle.pdl_law_sides.specs.Slots.{leads_to as may_lead};
ghost use Rattle.pdl_form.specs.FormView.{form};
ghost use Rattle.pdl_form.specs.View.{act_view, next_view, stmts_view};
ghost use Rattle.pdl_semantics.specs.Stages.{stage_at};
ghost use Rattle.pdl_law_sides.specs.Readings.{reading as read_of, reading_in};
ghost use Rattle.pdl_pipe_answers.specs.Readings.{reading_view, bound_by, gets_one, gets_some, gets_answer as gets};

use pdl_form::{FlatPipe, FlatStmt, Next, Op};

/// A delayed read of a memory: the stage that reads, and the variable that it binds.
#[derive(Clone, Copy)]
pub struct Reading {
    pub stage: usize,
    pub var: usize,
}

// The variable that an operation binds to an answer of a memory.
fn bound(op: &Op, mem: usize) -> Option<usize>
    ensures { result ≡ bound_by mem (act_view op.now) }
{
    match op {
        Op::DelayedRead { x, m, .. } if *m == mem => Some(*x),
        _ => None,
    }
}

// The first delayed read of a memory among statements.
fn find(stmts: &[FlatStmt], mem: usize) -> Option<Reading>
    ensures { option_map reading_view result ≡ reading_in mem (stmts_view stmts.now) }
{
    for s in stmts {
        if let Some(var) = bound(&s.op, mem) {
            return Some(Reading {
                stage: s.stage,
                var,
            });
        }
    }
    None
}

/// The delayed read of a memory, where there is one.
pub fn read_delayed(pipe: &FlatPipe, mem: usize) -> Option<Reading>
    ensures { option_map reading_view result ≡ read_of (form pipe.now).pipe mem }
{
    find(pipe.stmts(), mem)
}

/// Where a stage leads.
pub fn next_of(pipe: &FlatPipe, stage: usize) -> Next
    ensures { next_view result ≡ (stage_at (form pipe.now).pipe stage).next }
{
    match pipe.stages().get(stage) {
        Some(s) => s.next,
        None => Next::Ends,
    }
}

/// Whether a stage may lead to another one.
pub fn leads_to(next: Next, to: usize) -> bool
    ensures { result ≡ may_lead (next_view next) to }
{
    match next {
        Next::Ends => false,
        Next::Goes(only) => only == to,
        Next::Forks { first, second, .. } => first == to || second == to,
    }
}

// Whether the answer of a memory may come for a variable in a stage.
fn gets_from(pipe: &FlatPipe, stage: usize, x: usize, mem: usize) -> bool
    ensures { result ≡ gets_one (form pipe.now).pipe stage x (read_of (form pipe.now).pipe mem) }
{
    match read_delayed(pipe, mem) {
        None => false,
        Some(r) => r.var == x && leads_to(next_of(pipe, r.stage), stage),
    }
}

/// Whether the answer of a delayed read may come for a variable in a stage.
pub fn gets_answer(pipe: &FlatPipe, stage: usize, x: usize) -> bool
    ensures { result ≡ gets (form pipe.now).pipe stage x }
{
    for m in 0..pipe.mems().len() {
        if gets_from(pipe, stage, x, m) {
            return true;
        }
    }
    false
}
