// Which memories some path reserves twice to write.
ghost use Rattle.std.specs.Prelude.{◌≡◌, ◌&&◌, ◌++◌, IfOk};
ghost use Rattle.pdl_semantics.specs.Flat.{list_all};
ghost use Rattle.pdl_semantics.specs.Stages.{list_any, is_write_reserve};
ghost use Rattle.pdl_form.specs.View.{act_view, guard_view, guards_view, stmt_view, stmts_view};
ghost use Rattle.pdl_form.specs.FormView.{form};
ghost use Rattle.pdl_semantics.specs.SecondWrites as writes;

use pdl_form::{FlatGuard, FlatPipe, FlatStmt, Op};
use pdl_kit::NoMemory;
use std::alloc::Global;

// Whether two truth values are the same.
fn same_truth(a: bool, b: bool) -> bool
    ensures { result ≡ writes.same_truth a b }
{
    match (a, b) {
        (true, true) | (false, false) => true,
        (true, false) | (false, true) => false,
    }
}

// Whether two guards can hold together.
fn agrees(a: FlatGuard, b: FlatGuard) -> bool
    ensures { result ≡ writes.agrees_with (guard_view a) (guard_view b) }
{
    b.var != a.var || same_truth(b.first, a.first)
}

// Whether a guard can hold with each of these.
fn agrees_with_all(guard: FlatGuard, guards: &[FlatGuard]) -> bool
    ensures { result
        ≡ list_all (writes.agrees_with (guard_view guard)) (guards_view guards.now) }
{
    for other in guards {
        if !agrees(guard, *other) {
            return false;
        }
    }
    true
}

// Whether no two of these guards, and then of those, ask for opposite values of a variable.
fn are_consistent(these: &[FlatGuard], those: &[FlatGuard]) -> bool
    ensures { result ≡ writes.are_consistent (guards_view these.now ++ guards_view those.now) }
{
    match these.split_first() {
        Some((guard, rest)) => {
            agrees_with_all(*guard, rest)
                && agrees_with_all(*guard, those)
                && are_consistent(rest, those)
        }
        None => match those.split_first() {
            Some((guard, rest)) => agrees_with_all(*guard, rest) && are_consistent(rest, &[]),
            None => true,
        },
    }
}

// Whether this reserves memory m to write.
fn is_write_reserve(m: usize, op: &Op) -> bool
    ensures { result ≡ is_write_reserve m (act_view op.now) }
{
    match op {
        Op::ReserveWrite { m: n, a: _ } => *n == m,
        Op::Bind { .. } | Op::CombRead { .. } | Op::DelayedRead { .. } | Op::Write { .. } => false,
        Op::ReserveRead { .. } | Op::Block { .. } | Op::Release { .. } => false,
        Op::Call(_) | Op::SpecCall(_) | Op::Verify { .. } | Op::SpecCheck => false,
        Op::SpecBarrier | Op::AdviceBind { .. } | Op::AdviceRead { .. } => false,
        Op::AdviceWrite { .. } => false,
    }
}

// Whether one of these statements reserves memory m on a path on which one under these guards stands.
fn one_reserves_too(m: usize, guards: &[FlatGuard], stmts: &[FlatStmt]) -> bool
    ensures { result
        ≡ list_any (writes.reserves_too m (guards_view guards.now)) (stmts_view stmts.now) }
{
    for stmt in stmts {
        if is_write_reserve(m, &stmt.op) && are_consistent(guards, stmt.guards.as_slice()) {
            return true;
        }
    }
    false
}

// Whether some path reserves memory m twice to write.
fn reserves_twice(m: usize, stmts: &[FlatStmt]) -> bool
    ensures { result ≡ writes.reserves_twice m (stmts_view stmts.now) }
{
    for (k, stmt) in stmts.iter().enumerate() {
        if is_write_reserve(m, &stmt.op)
            && one_reserves_too(m, stmt.guards.as_slice(), &stmts[k + 1..])
        {
            return true;
        }
    }
    false
}

/// Of each memory of a pipe, whether some path reserves it twice to write.
pub fn all_twice(alloc: Global, pipe: &FlatPipe) -> Result<Vec<bool>, NoMemory>
    ensures { IfOk result (λ v. v.items
        ≡ writes.all_twice (form pipe.now).pipe.stmts 0 (form pipe.now).pipe.mems) }
{
    let mut twice = Vec::new(alloc);
    let stmts = pipe.stmts();
    for m in 0..pipe.mems().len() {
        twice.push(reserves_twice(m, stmts))?;
    }
    Ok(twice)
}
