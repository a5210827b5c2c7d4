// The last stage that uses a variable, noted expression by expression.
ghost use Rattle.std.specs.Prelude.{◌≡◌, ◌<◌, ◌==◌, length};
ghost use Rattle.pdl_form.specs.View.{expr_view, exprs_view, act_view, guards_view, stmt_view};
ghost use Rattle.pdl_law_parts.specs.Lives.{uses_var, are_using, op_uses, guards_use, row_uses};
ghost use Rattle.pdl_pipe_lives.specs.Needs.{IsLater, IsNoted};

use pdl_form::{FlatExpr, FlatGuard, FlatStmt, Op};

// The later one of a stage and the last one so far.
pub(crate) fn later(last: Option<usize>, stage: usize) -> usize
    ensures { IsLater last stage result }
{
    match last {
        Some(other) if stage < other => other,
        _ => stage,
    }
}

/// A stage uses a variable.
pub(crate) fn note(last: &mut [Option<usize>], stage: usize, x: usize)
    ensures { IsNoted last.old last.new stage (λ y. x == y) }
{
    if x < last.len() {
        last[x] = Some(later(last[x], stage));
    }
}

// A stage uses the variables of an expression.
fn note_expression(last: &mut [Option<usize>], stage: usize, e: &FlatExpr)
    ensures { IsNoted last.old last.new stage (uses_var (expr_view e.now)) }
{
    match e {
        FlatExpr::Constant { .. } => {}
        FlatExpr::Variable(x) => note(last, stage, *x),
        FlatExpr::Slice { x, .. } => note(last, stage, *x),
        FlatExpr::Not { a, .. } => note_expression(last, stage, a.get()),
        FlatExpr::Binary { a, b, .. } => {
            note_expression(last, stage, a.get());
            note_expression(last, stage, b.get());
        }
        FlatExpr::Cat { a, b, .. } => {
            note_expression(last, stage, a.get());
            note_expression(last, stage, b.get());
        }
        FlatExpr::LessSigned { a, b, .. } => {
            note_expression(last, stage, a.get());
            note_expression(last, stage, b.get());
        }
        FlatExpr::ZeroExtend { a, .. } => note_expression(last, stage, a.get()),
        FlatExpr::SignExtend { a, .. } => note_expression(last, stage, a.get()),
        FlatExpr::Choose { c, a, b } => {
            note_expression(last, stage, c.get());
            note_expression(last, stage, a.get());
            note_expression(last, stage, b.get());
        }
    }
}

// A stage uses the variables of some expressions.
fn note_expressions(last: &mut [Option<usize>], stage: usize, es: &[FlatExpr])
    ensures { IsNoted last.old last.new stage (are_using (exprs_view es.now)) }
{
    for e in es {
        note_expression(last, stage, e);
    }
}

// A stage uses the variables of an operation; a write and a release find their location without its address.
fn note_operation(last: &mut [Option<usize>], stage: usize, op: &Op)
    ensures { IsNoted last.old last.new stage (op_uses (act_view op.now)) }
{
    match op {
        Op::Bind { e, .. } => note_expression(last, stage, e),
        Op::CombRead { a, .. } => note(last, stage, *a),
        Op::DelayedRead { a, .. } => note(last, stage, *a),
        Op::Write { e, .. } => note_expression(last, stage, e),
        Op::ReserveWrite { a, .. } => note(last, stage, *a),
        Op::Block { a, .. } => note(last, stage, *a),
        Op::Call(args) => note_expressions(last, stage, args.as_slice()),
        Op::SpecCall(args) => note_expressions(last, stage, args.as_slice()),
        Op::Verify { args, .. } => note_expressions(last, stage, args.as_slice()),
        Op::AdviceBind { e, .. } => note_expression(last, stage, e),
        Op::AdviceRead { a, .. } => note(last, stage, *a),
        Op::AdviceWrite { a, e, .. } => {
            note(last, stage, *a);
            note_expression(last, stage, e);
        }
        Op::ReserveRead { .. } => {}
        Op::Release { .. } => {}
        Op::SpecCheck => {}
        Op::SpecBarrier => {}
    }
}

// A stage uses the variables of some guards.
fn note_guards(last: &mut [Option<usize>], stage: usize, gs: &[FlatGuard])
    ensures { IsNoted last.old last.new stage (guards_use (guards_view gs.now)) }
{
    for g in gs {
        note(last, stage, g.var);
    }
}

/// The stage of a statement uses the variables of the statement and of its guards.
pub(crate) fn note_statement(last: &mut [Option<usize>], s: &FlatStmt)
    ensures { IsNoted last.old last.new s.now.stage (row_uses (stmt_view s.now)) }
{
    note_guards(last, s.stage, s.guards.as_slice());
    note_operation(last, s.stage, &s.op);
}
