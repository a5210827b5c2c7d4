// The walk over the statements of a pipe.
ghost use Rattle.std.specs.Prelude.{◌≡◌, ◌≤◌, ◌<◌, ◌++◌, ◌+◌, ◌==◌, suc, true, false, [], ◌∷◌, map, IfOk, OnOk, length, if◌then◌else◌};
ghost use Rattle.pdl_semantics.specs.Flat as flat;
ghost use Rattle.pdl_semantics.specs.Flatten as spec;
ghost use Rattle.pdl_syntax_tree.specs.View as tree;
ghost use Rattle.pdl_form.specs.View.{guards_view, stmts_view, stages_view, next_view, branches_view};
ghost use Rattle.pdl_form_lower.specs.Sized.{AreSizedMems};
ghost use Rattle.pdl_form_lower.specs.Lowerable.{IsLowerable, IsLowerableStmt, AreLowerableStmts};
ghost use Rattle.pdl_form_lower.specs.Walking.{place_of, IsWhole, closed_stages, next_at, settled_stages};

use crate::count::separators;
use crate::expr::flat_expr;
use crate::row::{add, row};
use crate::walk::{StmtContext, Walk, begin, lead, mark};
use pdl_form::{FlatBranch, FlatBranches, FlatGuard, FlatStage, Next, Op};
use pdl_kit::{NoMemory, Seq};
use pdl_syntax_tree::{Expr, Mem, Stmt};
use std::alloc::Global;

// The variable of a condition's truth value: the plain variable itself, else one of its own, which is bound here.
fn guard(
    alloc: Global,
    walk: &mut Walk<'_>,
    guards: &[FlatGuard],
    c: &Expr,
) -> Result<usize, NoMemory>
    requires { IsLowerable walk.old.vars.table (tree.expr_view c.now) }
    ensures var { IfOk result (λ x. x ≡ spec.guard_of walk.old.vars.vars (tree.expr_view c.now)) }
    ensures stmts { OnOk result (stmts_view walk.new.stmts.items
        ≡ stmts_view walk.old.stmts.items ++ spec.binds_guard (guards_view guards.now)
        (place_of walk.old) (tree.expr_view c.now)) }
    ensures place { OnOk result (place_of walk.new
        ≡ spec.with_guard (tree.expr_view c.now) (place_of walk.old)) }
    ensures table { OnOk result (walk.new.vars.table ≡ walk.old.vars.table) }
    ensures stages { OnOk result (walk.new.stages.items ≡ walk.old.stages.items) }
{
    if let Expr::Variable(x) = c {
        return Ok(walk.vars.number(&x.name));
    }
    let value = flat_expr(alloc, &walk.vars, c)?;
    let x = walk.vars.len();
    add(alloc, walk, guards, Op::Bind { x, e: value.e })?;
    walk.vars.define_guard(alloc)?;
    Ok(x)
}

// An `if` that the walk has come to: its guard, its stage with where that stage led so far, the stage that begins after both branches, and whether it is a fork.
#[derive(Clone, Copy)]
struct Choice {
    var: usize,
    stage: usize,
    before: Next,
    begun: usize,
    merge: usize,
}

// Where a stage leads.
fn way_on(stages: &[FlatStage], k: usize) -> Next
    requires { k < length stages.now }
    ensures { next_view result ≡ next_at k (stages_view stages.now) }
{
    stages[k].next
}

// Enters an `if` in which this many stages begin.
fn enter(
    alloc: Global,
    walk: &mut Walk<'_>,
    guards: &[FlatGuard],
    c: &Expr,
    more: usize,
) -> Result<Choice, NoMemory>
    requires whole { IsWhole walk.old }
    requires few { walk.old.begun + more ≤ 63 }
    requires lowerable { IsLowerable walk.old.vars.table (tree.expr_view c.now) }
    ensures stmts { OnOk result (stmts_view walk.new.stmts.items
        ≡ stmts_view walk.old.stmts.items ++ spec.binds_guard (guards_view guards.now)
        (place_of walk.old) (tree.expr_view c.now)) }
    ensures place { OnOk result (place_of walk.new
        ≡ spec.with_guard (tree.expr_view c.now) (place_of walk.old)) }
    ensures table { OnOk result (walk.new.vars.table ≡ walk.old.vars.table) }
    ensures stages { OnOk result (walk.new.stages.items ≡ walk.old.stages.items) }
    ensures var { IfOk result (λ x.
        x.var ≡ spec.guard_of walk.old.vars.vars (tree.expr_view c.now)) }
    ensures stage { IfOk result (λ x. x.stage ≡ walk.old.stage) }
    ensures before { IfOk result (λ x.
        next_view x.before ≡ next_at walk.old.stage (stages_view walk.old.stages.items)) }
    ensures begun { IfOk result (λ x. x.begun ≡ walk.old.begun) }
    ensures merge { IfOk result (λ x. x.merge ≡ suc (walk.old.begun + more)) }
{
    let stage = walk.stage;
    let before = way_on(walk.stages.as_slice(), stage);
    let begun = walk.begun;
    let var = guard(alloc, walk, guards, c)?;
    Ok(Choice {
        var,
        stage,
        before,
        begun,
        merge: begun + more + 1,
    })
}

// Branches with one more before them. There is room for it, as rule F2 allows no fork of the fifth level.
fn within(branches: FlatBranches, fork: usize, first: bool) -> Result<FlatBranches, NoMemory>
    ensures { IfOk result (λ r.
        branches_view r ≡ spec.side fork first ∷ branches_view branches) }
{
    if branches.fourth.is_some() {
        return Err(NoMemory);
    }
    Ok(FlatBranches {
        first: Some(FlatBranch { fork, first }),
        second: branches.first,
        third: branches.second,
        fourth: branches.third,
    })
}

// The branches of the stages that begin in a branch, if any do.
fn branches_in(
    branches: FlatBranches,
    fork: usize,
    first: bool,
    ss: &[Stmt],
) -> Result<FlatBranches, NoMemory>
    requires few { spec.separators (tree.stmts_view ss.now) ≤ 63 }
    ensures { IfOk result (λ r. branches_view r
        ≡ (if spec.separators (tree.stmts_view ss.now) == 0 then branches_view branches
        else spec.side fork first ∷ branches_view branches)) }
{
    if separators(ss) == 0 {
        Ok(branches)
    } else {
        within(branches, fork, first)
    }
}

// What stands round a branch of these statements.
fn inside(
    alloc: Global,
    round: &StmtContext,
    choice: Choice,
    first: bool,
    ss: &[Stmt],
) -> Result<StmtContext, NoMemory>
    requires few { spec.separators (tree.stmts_view ss.now) ≤ 63 }
    ensures guards { IfOk result (λ r.
        guards_view r.guards ≡ guards_view round.now.guards ++ record {
          var = choice.var;
          first = first;
        } ∷ []) }
    ensures branches { IfOk result (λ r. branches_view r.branches
        ≡ (if spec.separators (tree.stmts_view ss.now) == 0 then branches_view round.now.branches
        else spec.side choice.stage first ∷ branches_view round.now.branches)) }
    ensures exit { IfOk result (λ r. next_view r.exit ≡ flat.Goes choice.merge) }
{
    let mut guards = Seq::copy_of(alloc, round.guards.as_slice())?;
    let var = choice.var;
    guards.push(FlatGuard { var, first })?;
    let branches = branches_in(round.branches, choice.stage, first, ss)?;
    Ok(StmtContext {
        guards,
        branches,
        exit: Next::Goes(choice.merge),
    })
}

// The stage to which this one leads alone.
fn entry(stages: &[FlatStage], k: usize) -> usize
    requires { k < length stages.now }
    ensures { result ≡ spec.entry (next_at k (stages_view stages.now)) }
{
    match way_on(stages, k) {
        Next::Goes(to) => to,
        Next::Ends | Next::Forks { .. } => 0,
    }
}

// Ends an `if` whose branches enter these stages first, and answers whether a fork now stands in its stage.
fn leave(walk: &mut Walk<'_>, choice: Choice, first: usize, second: usize, forked: bool) -> bool
    requires whole { IsWhole walk.old }
    requires stage { choice.stage ≤ walk.old.begun }
    requires begun { choice.begun ≤ walk.old.begun }
    ensures place { place_of walk.new ≡ place_of walk.old }
    ensures table { walk.new.vars.table ≡ walk.old.vars.table }
    ensures stmts { walk.new.stmts.items ≡ walk.old.stmts.items }
    ensures stages { stages_view walk.new.stages.items
        ≡ settled_stages (walk.old.begun == choice.begun) forked choice.stage choice.begun
        (next_view choice.before) (flat.Forks choice.var first second)
        (stages_view walk.old.stages.items) }
    ensures whole { IsWhole walk.new }
    ensures value { result ≡ (if walk.old.begun == choice.begun then forked else true) }
{
    let x = choice.var;
    if walk.begun == choice.begun {
        lead(&mut walk.stages, choice.stage, choice.before);
        return forked;
    }
    if forked {
        lead(&mut walk.stages, choice.stage, choice.before);
        mark(&mut walk.stages, choice.begun + 1, choice.stage);
    } else {
        let next = Next::Forks { x, first, second };
        lead(&mut walk.stages, choice.stage, next);
    }
    true
}

// Walks over a branch, goes back to the stage of its `if`, and answers the stage that the branch enters first.
#[cycle(walk)]
fn branch(
    alloc: Global,
    walk: &mut Walk<'_>,
    mems: &[Mem],
    around: &StmtContext,
    choice: Choice,
    first: bool,
    ss: &[Stmt],
) -> Result<usize, NoMemory>
    requires whole { IsWhole walk.old }
    requires stage { walk.old.stage ≡ choice.stage }
    requires few { walk.old.begun + spec.separators (tree.stmts_view ss.now) ≤ 63 }
    requires lowerable { AreLowerableStmts walk.old.vars.table (tree.stmts_view ss.now) }
    requires mems { AreSizedMems (map tree.mem_view mems.now) }
    ensures place { OnOk result (place_of walk.new
        ≡ spec.back_in choice.stage
        (spec.past_all (map tree.mem_view mems.now) (tree.stmts_view ss.now) (place_of walk.old))) }
    ensures stmts { OnOk result (stmts_view walk.new.stmts.items
        ≡ stmts_view walk.old.stmts.items ++ spec.flat_stmts (map tree.mem_view mems.now)
        (guards_view around.now.guards ++ record { var = choice.var; first = first } ∷ [])
        (tree.stmts_view ss.now) (place_of walk.old)) }
    ensures graph { OnOk result (stages_view walk.new.stages.items
        ≡ closed_stages choice.stage false (stages_view walk.old.stages.items)
        (spec.graph (map tree.mem_view mems.now)
        (spec.side choice.stage first ∷ branches_view around.now.branches)
        (flat.Goes choice.merge) (tree.stmts_view ss.now) (place_of walk.old))) }
    ensures entry { IfOk result (λ k.
        k ≡ spec.entry (spec.graph (map tree.mem_view mems.now)
        (spec.side choice.stage first ∷ branches_view around.now.branches)
        (flat.Goes choice.merge) (tree.stmts_view ss.now) (place_of walk.old)).next) }
    ensures table { OnOk result (walk.new.vars.table ≡ walk.old.vars.table) }
    ensures whole { OnOk result (IsWhole walk.new) }
    ensures count { OnOk result (walk.new.begun
        ≡ walk.old.begun + spec.separators (tree.stmts_view ss.now)) }
{
    let round = inside(alloc, around, choice, first, ss)?;
    statements(alloc, walk, mems, &round, ss)?;
    walk.stage = choice.stage;
    Ok(entry(walk.stages.as_slice(), choice.stage))
}

/// Walks over a statement, and answers whether a fork now stands in the stage of the walk.
#[cycle(walk)]
pub fn statement(
    alloc: Global,
    walk: &mut Walk<'_>,
    mems: &[Mem],
    round: &StmtContext,
    forked: bool,
    s: &Stmt,
) -> Result<bool, NoMemory>
    requires whole { IsWhole walk.old }
    requires few { walk.old.begun + spec.separators_in (tree.stmt_view s.now) ≤ 63 }
    requires lowerable { IsLowerableStmt walk.old.vars.table (tree.stmt_view s.now) }
    requires mems { AreSizedMems (map tree.mem_view mems.now) }
    ensures place { OnOk result (place_of walk.new
        ≡ spec.past (map tree.mem_view mems.now) (tree.stmt_view s.now) (place_of walk.old)) }
    ensures stmts { OnOk result (stmts_view walk.new.stmts.items
        ≡ stmts_view walk.old.stmts.items ++ spec.flat_stmt (map tree.mem_view mems.now)
        (guards_view round.now.guards) (tree.stmt_view s.now) (place_of walk.old)) }
    ensures graph { IfOk result (λ after. (rest : spec.Graph) →
        closed_stages walk.new.stage after (stages_view walk.new.stages.items) rest
        ≡ closed_stages walk.old.stage forked (stages_view walk.old.stages.items)
        (spec.graph_before (map tree.mem_view mems.now) (branches_view round.now.branches)
        (tree.stmt_view s.now) (place_of walk.old) rest)) }
    ensures table { OnOk result (walk.new.vars.table ≡ walk.old.vars.table) }
    ensures whole { OnOk result (IsWhole walk.new) }
    ensures count { OnOk result (walk.new.begun
        ≡ walk.old.begun + spec.separators_in (tree.stmt_view s.now)) }
{
    match s {
        Stmt::Separator { .. } => {
            begin(walk, round.branches, forked)?;
            Ok(false)
        }
        Stmt::If {
            condition,
            then,
            otherwise,
            ..
        } => {
            let guards = round.guards.as_slice();
            let when = then.as_slice();
            let other = otherwise.as_slice();
            let more = separators(when) + separators(other);
            let choice = enter(alloc, walk, guards, condition, more)?;
            let first = branch(alloc, walk, mems, round, choice, true, when)?;
            let second = branch(alloc, walk, mems, round, choice, false, other)?;
            Ok(leave(walk, choice, first, second, forked))
        }
        _ => {
            row(alloc, walk, mems, round.guards.as_slice(), s)?;
            Ok(forked)
        }
    }
}

/// Walks over statements.
#[cycle(walk)]
pub fn statements(
    alloc: Global,
    walk: &mut Walk<'_>,
    mems: &[Mem],
    round: &StmtContext,
    ss: &[Stmt],
) -> Result<(), NoMemory>
    requires whole { IsWhole walk.old }
    requires few { walk.old.begun + spec.separators (tree.stmts_view ss.now) ≤ 63 }
    requires lowerable { AreLowerableStmts walk.old.vars.table (tree.stmts_view ss.now) }
    requires mems { AreSizedMems (map tree.mem_view mems.now) }
    ensures place { OnOk result (place_of walk.new
        ≡ spec.past_all (map tree.mem_view mems.now) (tree.stmts_view ss.now) (place_of walk.old)) }
    ensures stmts { OnOk result (stmts_view walk.new.stmts.items
        ≡ stmts_view walk.old.stmts.items ++ spec.flat_stmts (map tree.mem_view mems.now)
        (guards_view round.now.guards) (tree.stmts_view ss.now) (place_of walk.old)) }
    ensures graph { OnOk result (stages_view walk.new.stages.items
        ≡ closed_stages walk.old.stage false (stages_view walk.old.stages.items)
        (spec.graph (map tree.mem_view mems.now) (branches_view round.now.branches)
        (next_view round.now.exit) (tree.stmts_view ss.now) (place_of walk.old))) }
    ensures table { OnOk result (walk.new.vars.table ≡ walk.old.vars.table) }
    ensures whole { OnOk result (IsWhole walk.new) }
    ensures count { OnOk result (walk.new.begun
        ≡ walk.old.begun + spec.separators (tree.stmts_view ss.now)) }
{
    let mut forked = false;
    for s in ss {
        forked = statement(alloc, walk, mems, round, forked, s)?;
    }
    if !forked {
        let stage = walk.stage;
        lead(&mut walk.stages, stage, round.exit);
    }
    Ok(())
}
