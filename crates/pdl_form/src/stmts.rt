// Statements of a flat form by stage, and the stages of reserves, releases, verifies and updates.
ghost use Rattle.std.specs.Prelude.{◌≡◌, ℕ, map, length, IfOk};
ghost use Rattle.pdl_semantics.specs.Flatten.{first_stage};
ghost use Rattle.pdl_semantics.specs.Stages as stages;
ghost use Rattle.pdl_semantics.specs.Updates as updates;
ghost use Rattle.pdl_form.specs.View.{act_view, stmts_view};
ghost use Rattle.pdl_form.specs.Form.{rows_in};

use crate::form::{FlatStmt, Op};
use pdl_kit::NoMemory;
use std::alloc::Global;

/// The numbers of the statements of a stage.
pub fn rows(alloc: Global, stmts: &[FlatStmt], stage: usize) -> Result<Vec<usize>, NoMemory>
    ensures { IfOk result (λ r. r.items ≡ rows_in stage 0 (stmts_view stmts.now)) }
{
    let mut rows = Vec::new(alloc);
    for (i, stmt) in stmts.iter().enumerate() {
        if stmt.stage == stage {
            rows.push(i)?;
        }
    }
    Ok(rows)
}

fn is_reserve_of(op: &Op, mem: usize) -> bool
    ensures { result ≡ stages.is_reserve mem (act_view op.now) }
{
    match op {
        Op::ReserveRead { m, .. } | Op::ReserveWrite { m, .. } => *m == mem,
        Op::Bind { .. } | Op::CombRead { .. } | Op::DelayedRead { .. } | Op::Write { .. } => false,
        Op::Block { .. } | Op::Release { .. } => false,
        Op::Call(_) | Op::SpecCall(_) | Op::Verify { .. } | Op::SpecCheck => false,
        Op::SpecBarrier | Op::AdviceBind { .. } | Op::AdviceRead { .. } => false,
        Op::AdviceWrite { .. } => false,
    }
}

fn is_release_of(op: &Op, mem: usize) -> bool
    ensures { result ≡ stages.is_release mem (act_view op.now) }
{
    match op {
        Op::Release { m, .. } => *m == mem,
        Op::Bind { .. } | Op::CombRead { .. } | Op::DelayedRead { .. } | Op::Write { .. } => false,
        Op::ReserveRead { .. } | Op::ReserveWrite { .. } | Op::Block { .. } => false,
        Op::Call(_) | Op::SpecCall(_) | Op::Verify { .. } | Op::SpecCheck => false,
        Op::SpecBarrier | Op::AdviceBind { .. } | Op::AdviceRead { .. } => false,
        Op::AdviceWrite { .. } => false,
    }
}

fn is_verify(op: &Op) -> bool
    ensures { result ≡ stages.is_verify (act_view op.now) }
{
    match op {
        Op::Verify { last, .. } => *last,
        Op::Bind { .. } | Op::CombRead { .. } | Op::DelayedRead { .. } | Op::Write { .. } => false,
        Op::ReserveRead { .. } | Op::ReserveWrite { .. } | Op::Block { .. } => false,
        Op::Release { .. } | Op::Call(_) | Op::SpecCall(_) | Op::SpecCheck => false,
        Op::SpecBarrier | Op::AdviceBind { .. } | Op::AdviceRead { .. } => false,
        Op::AdviceWrite { .. } => false,
    }
}

fn is_update(op: &Op) -> bool
    ensures { result ≡ updates.is_update (act_view op.now) }
{
    match op {
        Op::Verify { last, .. } => !*last,
        Op::Bind { .. } | Op::CombRead { .. } | Op::DelayedRead { .. } | Op::Write { .. } => false,
        Op::ReserveRead { .. } | Op::ReserveWrite { .. } | Op::Block { .. } => false,
        Op::Release { .. } | Op::Call(_) | Op::SpecCall(_) | Op::SpecCheck => false,
        Op::SpecBarrier | Op::AdviceBind { .. } | Op::AdviceRead { .. } => false,
        Op::AdviceWrite { .. } => false,
    }
}

/// The stage of a memory's reserves: that of the first one in the text.
pub fn reserve_stage(stmts: &[FlatStmt], mem: usize) -> Option<usize>
    ensures { result ≡ first_stage (stages.is_reserve mem) (stmts_view stmts.now) }
{
    for stmt in stmts {
        if is_reserve_of(&stmt.op, mem) {
            return Some(stmt.stage);
        }
    }
    None
}

/// The stage of a memory's releases: that of the first one in the text.
pub fn release_stage(stmts: &[FlatStmt], mem: usize) -> Option<usize>
    ensures { result ≡ first_stage (stages.is_release mem) (stmts_view stmts.now) }
{
    for stmt in stmts {
        if is_release_of(&stmt.op, mem) {
            return Some(stmt.stage);
        }
    }
    None
}

/// The stage of the verifies: that of the first one in the text.
pub fn verify_stage(stmts: &[FlatStmt]) -> Option<usize>
    ensures { result ≡ stages.verify_stage (stmts_view stmts.now) }
{
    for stmt in stmts {
        if is_verify(&stmt.op) {
            return Some(stmt.stage);
        }
    }
    None
}

// The stage of the first update in the text.
fn first_update(stmts: &[FlatStmt]) -> Option<usize>
    ensures { result ≡ updates.first_update (stmts_view stmts.now) }
{
    for stmt in stmts {
        if is_update(&stmt.op) {
            return Some(stmt.stage);
        }
    }
    None
}

// The second one of two stages, where it is before the first one.
fn earlier(v: Option<usize>, u: Option<usize>) -> Option<usize>
    ensures { result ≡ updates.earlier v u }
{
    match (v, u) {
        (Some(v), Some(u)) if u < v => Some(u),
        _ => None,
    }
}

/// The stage of the updates: that of the first one in the text, where it is before that of the verifies.
pub fn update_stage(stmts: &[FlatStmt]) -> Option<usize>
    ensures { result ≡ updates.update_stage (stmts_view stmts.now) }
{
    earlier(verify_stage(stmts), first_update(stmts))
}
