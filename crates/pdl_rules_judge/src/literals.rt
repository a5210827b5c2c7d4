// The widths of literals.
ghost use Rattle.std.specs.Prelude.{◌≡◌, map};
ghost use Rattle.std.specs.List.{list_any};
ghost use Rattle.pdl_syntax_tree.specs.View.{expr_view, exprs_view, literal_view};
ghost use Rattle.pdl_rules.specs.Limits as spec;
ghost use Rattle.pdl_rules.specs.Parts.{some_part, of_constant};

use crate::sizes::is_width;
use pdl_syntax_tree::{Expr, Literal};

fn is_wrong_literal(literal: &Literal) -> bool
    ensures { result ≡ spec.is_wrong_literal (literal_view literal.now) }
{
    !is_width(literal.width)
}

/// Whether one of these literals has a width that may not be.
pub fn has_wrong_literal(literals: &[Literal]) -> bool
    ensures { result ≡ list_any spec.is_wrong_literal (map literal_view literals.now) }
{
    for literal in literals {
        if is_wrong_literal(literal) {
            return true;
        }
    }
    false
}

/// Whether a literal in one of these arguments has a width that may not be.
pub fn in_args(args: &[Expr]) -> bool
    ensures { result ≡ list_any (some_part (of_constant spec.is_wrong_literal))
        (exprs_view args.now) }
{
    for e in args {
        if in_expr(e) {
            return true;
        }
    }
    false
}

/// Whether a literal in an expression has a width that may not be.
pub fn in_expr(e: &Expr) -> bool
    ensures { result ≡ some_part (of_constant spec.is_wrong_literal) (expr_view e.now) }
{
    match e {
        Expr::Constant(literal) => is_wrong_literal(literal),
        Expr::Variable(_) => false,
        Expr::Slice {
            x: _,
            high: _,
            low: _,
        } => false,
        Expr::Not(a) => in_expr(a.get()),
        Expr::Binary { op: _, a, b } => in_expr(a.get()) || in_expr(b.get()),
        Expr::Cat(a, b) => in_expr(a.get()) || in_expr(b.get()),
        Expr::LessSigned(a, b) => in_expr(a.get()) || in_expr(b.get()),
        Expr::ZeroExtend(a, _) => in_expr(a.get()),
        Expr::SignExtend(a, _) => in_expr(a.get()),
        Expr::Choose(c, a, b) => in_expr(c.get()) || (in_expr(a.get()) || in_expr(b.get())),
    }
}
