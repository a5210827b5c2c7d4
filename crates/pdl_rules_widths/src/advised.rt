// Advised expressions: those that use an advised variable.
ghost use Rattle.std.specs.Prelude.{◌≡◌, map};
ghost use Rattle.std.specs.List.{list_any};
ghost use Rattle.pdl_semantics.specs.Flatten as spec;
ghost use Rattle.pdl_syntax_tree.specs.View.{expr_view, exprs_view};

use crate::variables::Variables;
use pdl_syntax_tree::Expr;

/// Whether an expression uses an advised variable.
pub fn is_advised(variables: &Variables, e: &Expr) -> bool
    ensures { result ≡ spec.is_advised variables.now (expr_view e.now) }
{
    match e {
        Expr::Constant(_) => false,
        Expr::Variable(x) => variables.is_advised(&x.name),
        Expr::Slice { x, high: _, low: _ } => variables.is_advised(&x.name),
        Expr::Not(a) => is_advised(variables, a.get()),
        Expr::Binary { op: _, a, b } => {
            is_advised(variables, a.get()) || is_advised(variables, b.get())
        }
        Expr::Cat(a, b) => is_advised(variables, a.get()) || is_advised(variables, b.get()),
        Expr::LessSigned(a, b) => is_advised(variables, a.get()) || is_advised(variables, b.get()),
        Expr::ZeroExtend(a, _) => is_advised(variables, a.get()),
        Expr::SignExtend(a, _) => is_advised(variables, a.get()),
        Expr::Choose(c, a, b) => {
            is_advised(variables, c.get())
                || (is_advised(variables, a.get()) || is_advised(variables, b.get()))
        }
    }
}

/// Whether one of these expressions uses an advised variable.
pub fn is_some_advised(variables: &Variables, es: &[Expr]) -> bool
    ensures { result ≡ list_any (spec.is_advised variables.now) (exprs_view es.now) }
{
    for e in es {
        if is_advised(variables, e) {
            return true;
        }
    }
    false
}
