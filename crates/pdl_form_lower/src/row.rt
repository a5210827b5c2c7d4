// Statements that stand in a stage: all but separators and `if`s.
ghost use Rattle.std.specs.Prelude.{◌≡◌, ◌≤◌, ◌∷◌, [], ◌++◌, false, IsTrue, map, length, IfOk, OnOk, List, ℕ};
ghost use Rattle.pdl_semantics.specs.Flat as flat;
ghost use Rattle.pdl_semantics.specs.Flatten as spec;
ghost use Rattle.pdl_syntax_tree.specs.View as tree;
ghost use Rattle.pdl_rules.specs.Typed.{is_named};
ghost use Rattle.pdl_form.specs.View.{guards_view, stmts_view, act_view, expr_view, exprs_view};
ghost use Rattle.pdl_form_lower.specs.Sized.{AreSizedMems};
ghost use Rattle.pdl_form_lower.specs.Lowerable.{IsLowerable, IsLowerableStmt};
ghost use Rattle.pdl_form_lower.specs.Walking.{place_of, is_plain, is_act};
ghost use Rattle.pdl_word.specs.Words.{widest};

use crate::advised::is_advised;
use crate::append::append;
use crate::expr::{flat_expr, flat_exprs};
use crate::mems::{mem_of, mem_width};
use crate::vars::Vars;
use crate::walk::Walk;
use pdl_form::{FlatExpr, FlatGuard, FlatStmt, Op};
use pdl_kit::{Name, NoMemory, Seq};
use pdl_syntax_tree::{AccessKind, Expr, Ident, Location, Mem, Stmt as Tree, is_advisory};
use std::alloc::Global;

// A location by numbers: the memory, and the variable of the address.
#[derive(Clone, Copy)]
struct Spot {
    m: usize,
    a: usize,
}

fn spot_of(vars: &Vars<'_>, mems: &[Mem], at: &Location) -> Spot
    requires { IsTrue (is_named vars.now.table at.now.address.name) }
    ensures m { result.m ≡ spec.mem_of (map tree.mem_view mems.now) at.now.mem.name }
    ensures a { result.a ≡ spec.var_of vars.now.vars at.now.address.name }
{
    Spot {
        m: mem_of(mems, &at.mem.name),
        a: vars.number(&at.address.name),
    }
}

/// Adds a statement that stands where the walk is.
pub fn add(alloc: Global, walk: &mut Walk<'_>, guards: &[FlatGuard], op: Op) -> Result<(), NoMemory>
    ensures stmts { OnOk result (stmts_view walk.new.stmts.items
        ≡ stmts_view walk.old.stmts.items ++ spec.at_position (guards_view guards.now)
        (place_of walk.old) (act_view op)) }
    ensures place { OnOk result (place_of walk.new ≡ place_of walk.old) }
    ensures table { OnOk result (walk.new.vars.table ≡ walk.old.vars.table) }
    ensures stages { OnOk result (walk.new.stages.items ≡ walk.old.stages.items) }
{
    push(alloc, &mut walk.stmts, walk.stage, guards, op)
}

// Adds a statement of a stage.
fn push(
    alloc: Global,
    stmts: &mut Vec<FlatStmt>,
    stage: usize,
    guards: &[FlatGuard],
    op: Op,
) -> Result<(), NoMemory>
    ensures { OnOk result (stmts_view stmts.new.items ≡ stmts_view stmts.old.items ++ record {
      stage = stage;
      guards = guards_view guards.now;
      op = act_view op;
    } ∷ []) }
{
    let guards = Seq::copy_of(alloc, guards)?;
    append(stmts, FlatStmt { stage, guards, op })
}

// Adds a statement that binds a variable of this width.
fn bind_to(
    alloc: Global,
    walk: &mut Walk<'_>,
    guards: &[FlatGuard],
    x: &Name,
    op: Op,
    width: u8,
    advised: bool,
) -> Result<(), NoMemory>
    requires known { IsTrue (is_named walk.old.vars.table x.now) }
    requires small { width ≤ widest }
    ensures stmts { OnOk result (stmts_view walk.new.stmts.items
        ≡ stmts_view walk.old.stmts.items ++ spec.at_position (guards_view guards.now)
        (place_of walk.old) (act_view op)) }
    ensures place { OnOk result (place_of walk.new
        ≡ spec.with_var x.now width advised (place_of walk.old)) }
    ensures table { OnOk result (walk.new.vars.table ≡ walk.old.vars.table) }
    ensures stages { OnOk result (walk.new.stages.items ≡ walk.old.stages.items) }
{
    add(alloc, walk, guards, op)?;
    walk.vars.define(x, width, advised)
}

// Adds a binding.
fn bind(
    alloc: Global,
    walk: &mut Walk<'_>,
    guards: &[FlatGuard],
    x: &Ident,
    e: &Expr,
) -> Result<(), NoMemory>
    requires known { IsTrue (is_named walk.old.vars.table x.now.name) }
    requires value { IsLowerable walk.old.vars.table (tree.expr_view e.now) }
    ensures stmts { OnOk result (stmts_view walk.new.stmts.items
        ≡ stmts_view walk.old.stmts.items ++ spec.at_position (guards_view guards.now)
        (place_of walk.old) (spec.bind_op
        (spec.is_advised walk.old.vars.vars (tree.expr_view e.now))
        (length walk.old.vars.vars)
        (spec.flat_expr walk.old.vars.vars (tree.expr_view e.now)))) }
    ensures place { OnOk result (place_of walk.new
        ≡ spec.with_var x.now.name (spec.width_of walk.old.vars.vars (tree.expr_view e.now))
        (spec.is_advised walk.old.vars.vars (tree.expr_view e.now)) (place_of walk.old)) }
    ensures table { OnOk result (walk.new.vars.table ≡ walk.old.vars.table) }
    ensures stages { OnOk result (walk.new.stages.items ≡ walk.old.stages.items) }
{
    let advised = is_advised(&walk.vars, e);
    let value = flat_expr(alloc, &walk.vars, e)?;
    let op = bind_op(advised, walk.vars.len(), value.e);
    bind_to(alloc, walk, guards, &x.name, op, value.width, advised)
}

fn bind_op(advised: bool, x: usize, e: FlatExpr) -> Op
    ensures { act_view result ≡ spec.bind_op advised x (expr_view e) }
{
    if advised {
        Op::AdviceBind { x, e }
    } else {
        Op::Bind { x, e }
    }
}

// Adds a read that binds in its own stage.
fn comb_read(
    alloc: Global,
    walk: &mut Walk<'_>,
    mems: &[Mem],
    guards: &[FlatGuard],
    x: &Ident,
    from: &Location,
) -> Result<(), NoMemory>
    requires known { IsTrue (is_named walk.old.vars.table x.now.name) }
    requires address { IsTrue (is_named walk.old.vars.table from.now.address.name) }
    requires mems { AreSizedMems (map tree.mem_view mems.now) }
    ensures stmts { OnOk result (stmts_view walk.new.stmts.items
        ≡ stmts_view walk.old.stmts.items ++ spec.at_position (guards_view guards.now)
        (place_of walk.old) (spec.read_op
        (spec.is_advisory_mem (map tree.mem_view mems.now) from.now.mem.name)
        (length walk.old.vars.vars)
        (spec.mem_of (map tree.mem_view mems.now) from.now.mem.name)
        (spec.var_of walk.old.vars.vars from.now.address.name))) }
    ensures place { OnOk result (place_of walk.new
        ≡ spec.with_var x.now.name (spec.mem_width (map tree.mem_view mems.now) from.now.mem.name)
        (spec.is_advisory_mem (map tree.mem_view mems.now) from.now.mem.name)
        (place_of walk.old)) }
    ensures table { OnOk result (walk.new.vars.table ≡ walk.old.vars.table) }
    ensures stages { OnOk result (walk.new.stages.items ≡ walk.old.stages.items) }
{
    let Spot { m, a } = spot_of(&walk.vars, mems, from);
    let advised = is_advisory(mems, &from.mem.name);
    let op = read_op(advised, walk.vars.len(), m, a);
    let width = mem_width(mems, &from.mem.name);
    bind_to(alloc, walk, guards, &x.name, op, width, advised)
}

fn read_op(advised: bool, x: usize, m: usize, a: usize) -> Op
    ensures { act_view result ≡ spec.read_op advised x m a }
{
    if advised {
        Op::AdviceRead { x, m, a }
    } else {
        Op::CombRead { x, m, a }
    }
}

// Adds a read that binds in the next stage.
fn delayed_read(
    alloc: Global,
    walk: &mut Walk<'_>,
    mems: &[Mem],
    guards: &[FlatGuard],
    x: &Ident,
    from: &Location,
) -> Result<(), NoMemory>
    requires known { IsTrue (is_named walk.old.vars.table x.now.name) }
    requires address { IsTrue (is_named walk.old.vars.table from.now.address.name) }
    requires mems { AreSizedMems (map tree.mem_view mems.now) }
    ensures stmts { OnOk result (stmts_view walk.new.stmts.items
        ≡ stmts_view walk.old.stmts.items ++ spec.at_position (guards_view guards.now)
        (place_of walk.old) (flat.DelayedRead (length walk.old.vars.vars)
        (spec.mem_of (map tree.mem_view mems.now) from.now.mem.name)
        (spec.var_of walk.old.vars.vars from.now.address.name))) }
    ensures place { OnOk result (place_of walk.new
        ≡ spec.with_var x.now.name (spec.mem_width (map tree.mem_view mems.now) from.now.mem.name)
        false (place_of walk.old)) }
    ensures table { OnOk result (walk.new.vars.table ≡ walk.old.vars.table) }
    ensures stages { OnOk result (walk.new.stages.items ≡ walk.old.stages.items) }
{
    let Spot { m, a } = spot_of(&walk.vars, mems, from);
    let op = Op::DelayedRead {
        x: walk.vars.len(),
        m,
        a,
    };
    let width = mem_width(mems, &from.mem.name);
    bind_to(alloc, walk, guards, &x.name, op, width, false)
}

fn write_op(advised: bool, m: usize, a: usize, e: FlatExpr) -> Op
    ensures { act_view result ≡ spec.write_op advised m a (expr_view e) }
{
    if advised {
        Op::AdviceWrite { m, a, e }
    } else {
        Op::Write { m, a, e }
    }
}

fn reserve(kind: AccessKind, m: usize, a: usize) -> Op
    ensures { act_view result ≡ spec.reserve_op (tree.kind_view kind) m a }
{
    match kind {
        AccessKind::R => Op::ReserveRead { m, a },
        AccessKind::W => Op::ReserveWrite { m, a },
    }
}

// A check of the guess, the last one or not.
fn verify(last: bool, args: Seq<FlatExpr>) -> Op
    ensures { act_view result ≡ flat.Verify last (exprs_view args) }
{
    Op::Verify { last, args }
}

// What a statement does that binds nothing.
fn act_of(alloc: Global, vars: &Vars<'_>, mems: &[Mem], s: &Tree) -> Result<Op, NoMemory>
    requires act { IsTrue (is_act (tree.stmt_view s.now)) }
    requires lowerable { IsLowerableStmt vars.now.table (tree.stmt_view s.now) }
    ensures { IfOk result (λ op. (gs : List flat.Guard) (stage begun : ℕ) →
        spec.flat_stmt (map tree.mem_view mems.now) gs (tree.stmt_view s.now)
        (record { vars = vars.now.vars; stage = stage; begun = begun })
        ≡ record { stage = stage; guards = gs; op = act_view op } ∷ []) }
{
    match s {
        Tree::Write { to, e, .. } => {
            let Spot { m, a } = spot_of(vars, mems, to);
            let e = flat_expr(alloc, vars, e)?.e;
            Ok(write_op(is_advisory(mems, &to.mem.name), m, a, e))
        }
        Tree::Reserve { at, kind, .. } => {
            let Spot { m, a } = spot_of(vars, mems, at);
            Ok(reserve(*kind, m, a))
        }
        Tree::Block { at, .. } => {
            let Spot { m, a } = spot_of(vars, mems, at);
            Ok(Op::Block { m, a })
        }
        Tree::Release { at, .. } => {
            let Spot { m, a } = spot_of(vars, mems, at);
            Ok(Op::Release { m, a })
        }
        Tree::SpecCall { args, .. } => {
            Ok(Op::SpecCall(flat_exprs(alloc, vars, args.as_slice())?))
        }
        Tree::Call { args, .. } => Ok(Op::Call(flat_exprs(alloc, vars, args.as_slice())?)),
        Tree::Verify { args, .. } => Ok(verify(true, flat_exprs(alloc, vars, args.as_slice())?)),
        Tree::Update { args, .. } => Ok(verify(false, flat_exprs(alloc, vars, args.as_slice())?)),
        Tree::SpecCheck { .. } => Ok(Op::SpecCheck),
        Tree::SpecBarrier { .. } => Ok(Op::SpecBarrier),
        Tree::Separator { .. } | Tree::If { .. } => unreachable!(),
        Tree::Bind { .. } | Tree::CombRead { .. } | Tree::DelayedRead { .. } => unreachable!(),
    }
}

/// Adds what a statement does that is neither a separator nor an `if`.
pub fn row(
    alloc: Global,
    walk: &mut Walk<'_>,
    mems: &[Mem],
    guards: &[FlatGuard],
    s: &Tree,
) -> Result<(), NoMemory>
    requires plain { IsTrue (is_plain (tree.stmt_view s.now)) }
    requires lowerable { IsLowerableStmt walk.old.vars.table (tree.stmt_view s.now) }
    requires mems { AreSizedMems (map tree.mem_view mems.now) }
    ensures stmts { OnOk result (stmts_view walk.new.stmts.items
        ≡ stmts_view walk.old.stmts.items ++ spec.flat_stmt (map tree.mem_view mems.now)
        (guards_view guards.now) (tree.stmt_view s.now) (place_of walk.old)) }
    ensures place { OnOk result (place_of walk.new
        ≡ spec.past (map tree.mem_view mems.now) (tree.stmt_view s.now) (place_of walk.old)) }
    ensures table { OnOk result (walk.new.vars.table ≡ walk.old.vars.table) }
    ensures stages { OnOk result (walk.new.stages.items ≡ walk.old.stages.items) }
{
    match s {
        Tree::Bind { x, e, .. } => bind(alloc, walk, guards, x, e),
        Tree::CombRead { x, from, .. } => comb_read(alloc, walk, mems, guards, x, from),
        Tree::DelayedRead { x, from, .. } => delayed_read(alloc, walk, mems, guards, x, from),
        _ => {
            let op = act_of(alloc, &walk.vars, mems, s)?;
            add(alloc, walk, guards, op)
        }
    }
}
