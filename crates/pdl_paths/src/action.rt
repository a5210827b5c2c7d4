// What stands at a place.
ghost use Rattle.std.specs.Prelude.{◌≡◌, List};
ghost use Rattle.pdl_syntax_tree.specs.View.{span_view, stmt_view};
ghost use Rattle.pdl_rules.specs.Places as rules;
ghost use Rattle.pdl_paths.specs.Actions.{place_at};

use pdl_syntax_tree::{AccessKind, Expr, Ident, Location, Mem, Param, Span, Start, Stmt};

/// What stands at a place: a parameter, a memory, one of the kinds of statement with its parts, the end of the body or the start clause.
#[derive(Clone, Copy)]
pub enum Action<'a> {
    Parameter(&'a Param),
    Memory(&'a Mem),
    Separator,
    CombRead(&'a Ident, &'a Location),
    Bind(&'a Ident, &'a Expr),
    SpecCall(&'a Ident, &'a [Expr]),
    DelayedRead(&'a Ident, &'a Location),
    Write(&'a Location, &'a Expr),
    Reserve(&'a Location, AccessKind),
    Block(&'a Location),
    Release(&'a Location),
    If(&'a Expr, &'a [Stmt], &'a [Stmt]),
    Call(&'a [Expr]),
    Verify(&'a Ident, &'a [Expr]),
    Update(&'a Ident, &'a [Expr]),
    SpecCheck,
    SpecBarrier,
    End,
    StartClause(&'a Start),
}

/// The action of a statement.
pub fn action_of(stmt: &Stmt) -> Action<'_>
    ensures { (bs : List rules.Branch) →
        place_at (rules.span_of (stmt_view stmt.now)) bs result
        ≡ rules.Statement (stmt_view stmt.now) bs }
{
    match stmt {
        Stmt::Separator { span: _ } => Action::Separator,
        Stmt::CombRead { span: _, x, from } => Action::CombRead(x, from),
        Stmt::Bind { span: _, x, e } => Action::Bind(x, e),
        Stmt::SpecCall {
            span: _,
            guess,
            args,
        } => Action::SpecCall(guess, args.as_slice()),
        Stmt::DelayedRead { span: _, x, from } => Action::DelayedRead(x, from),
        Stmt::Write { span: _, to, e } => Action::Write(to, e),
        Stmt::Reserve { span: _, at, kind } => Action::Reserve(at, *kind),
        Stmt::Block { span: _, at } => Action::Block(at),
        Stmt::Release { span: _, at } => Action::Release(at),
        Stmt::If {
            span: _,
            condition,
            then,
            otherwise,
        } => Action::If(condition, then.as_slice(), otherwise.as_slice()),
        Stmt::Call { span: _, args } => Action::Call(args.as_slice()),
        Stmt::Verify {
            span: _,
            guess,
            args,
        } => Action::Verify(guess, args.as_slice()),
        Stmt::Update {
            span: _,
            guess,
            args,
        } => Action::Update(guess, args.as_slice()),
        Stmt::SpecCheck { span: _ } => Action::SpecCheck,
        Stmt::SpecBarrier { span: _ } => Action::SpecBarrier,
    }
}

/// Where a statement stands.
pub fn span_of(stmt: &Stmt) -> Span
    ensures { span_view result ≡ rules.span_of (stmt_view stmt.now) }
{
    match stmt {
        Stmt::Separator { span } | Stmt::CombRead { span, .. } | Stmt::Bind { span, .. } => *span,
        Stmt::SpecCall { span, .. } | Stmt::DelayedRead { span, .. } => *span,
        Stmt::Write { span, .. } | Stmt::Reserve { span, .. } | Stmt::Block { span, .. } => *span,
        Stmt::Release { span, .. } | Stmt::If { span, .. } | Stmt::Call { span, .. } => *span,
        Stmt::Verify { span, .. } | Stmt::Update { span, .. } | Stmt::SpecCheck { span } => *span,
        Stmt::SpecBarrier { span } => *span,
    }
}
