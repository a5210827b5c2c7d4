// Guards and branches.
ghost use Rattle.std.specs.Prelude.{◌≡◌};
ghost use Rattle.pdl_syntax_tree.specs.View.{expr_view, span_view};
ghost use Rattle.pdl_rules.specs.Places as rules;
ghost use Rattle.pdl_paths.specs.Guards.{guard_view};

use pdl_kit::Name;
use pdl_syntax_tree::{Expr, Span, Stmt};

/// What decides an `if`: a variable, with every other `if` on that variable, or a condition of its own, known by the byte at which its `if` begins.
#[derive(Clone, Copy)]
pub enum Guard<'a> {
    Shared(&'a Name),
    Own(u32),
}

/// A branch that a place stands in: it is taken where the guard has this truth value; and the statements inside it.
#[derive(Clone, Copy)]
pub struct Branch<'a> {
    pub guard: Guard<'a>,
    pub truth: bool,
    pub inside: &'a [Stmt],
}

/// The guard of an `if` with this span and condition.
pub fn guard_of<'a>(span: Span, condition: &'a Expr) -> Guard<'a>
    ensures { guard_view result ≡ rules.guard_of (span_view span) (expr_view condition.now) }
{
    match condition {
        Expr::Variable(x) => Guard::Shared(&x.name),
        Expr::Constant(_) | Expr::Slice { .. } | Expr::Not(_) | Expr::Binary { .. } => {
            Guard::Own(span.start)
        }
        Expr::Cat(_, _) | Expr::LessSigned(_, _) | Expr::ZeroExtend(_, _) => Guard::Own(span.start),
        Expr::SignExtend(_, _) | Expr::Choose(_, _, _) => Guard::Own(span.start),
    }
}

/// Whether two guards are the same.
pub fn is_same_guard(a: Guard<'_>, b: Guard<'_>) -> bool
    ensures { result ≡ rules.same_guard (guard_view a.entry) (guard_view b.entry) }
{
    match (a, b) {
        (Guard::Shared(x), Guard::Shared(y)) => *x == *y,
        (Guard::Own(m), Guard::Own(n)) => m == n,
        (Guard::Shared(_), Guard::Own(_)) | (Guard::Own(_), Guard::Shared(_)) => false,
    }
}
