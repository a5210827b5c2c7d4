// Advised expressions: those that use an advised variable.
ghost use Rattle.std.specs.Prelude.{◌≡◌};
ghost use Rattle.pdl_semantics.specs.Flatten as spec;
ghost use Rattle.pdl_syntax_tree.specs.View.{expr_view as tree_view};
ghost use Rattle.pdl_form_lower.specs.Lowerable.{IsLowerable};

use crate::vars::Vars;
use pdl_syntax_tree::Expr as Tree;

/// Whether an expression uses an advised variable.
pub fn is_advised(vars: &Vars<'_>, e: &Tree) -> bool
    requires { IsLowerable vars.now.table (tree_view e.now) }
    ensures { result ≡ spec.is_advised vars.now.vars (tree_view e.now) }
{
    match e {
        Tree::Constant(_) => false,
        Tree::Variable(x) => vars.is_advised(&x.name),
        Tree::Slice { x, .. } => vars.is_advised(&x.name),
        Tree::Not(a) => is_advised(vars, a.get()),
        Tree::Binary { a, b, .. } => is_advised(vars, a.get()) || is_advised(vars, b.get()),
        Tree::Cat(a, b) => is_advised(vars, a.get()) || is_advised(vars, b.get()),
        Tree::LessSigned(a, b) => is_advised(vars, a.get()) || is_advised(vars, b.get()),
        Tree::ZeroExtend(a, _) => is_advised(vars, a.get()),
        Tree::SignExtend(a, _) => is_advised(vars, a.get()),
        Tree::Choose(c, a, b) => {
            is_advised(vars, c.get()) || (is_advised(vars, a.get()) || is_advised(vars, b.get()))
        }
    }
}
