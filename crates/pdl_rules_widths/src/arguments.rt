// Arguments.
ghost use Rattle.std.specs.Prelude.{◌≡◌, nat_eq, map};
ghost use Rattle.std.specs.List.{list_any};
ghost use Rattle.std.specs.Cmp.Lexicographic.{pointwise};
ghost use Rattle.pdl_semantics.specs.Flatten as flatten;
ghost use Rattle.pdl_semantics.specs.Tree as tree;
ghost use Rattle.pdl_syntax_tree.specs.View.{exprs_view, literal_view, param_view};
ghost use Rattle.pdl_rules.specs.Widths as spec;

use crate::measure::is_too_large;
use crate::variables::Variables;
use crate::width::width_of;
use pdl_syntax_tree::{Expr, Literal, Param};

/// Whether arguments are as many as the parameters and as wide.
pub fn call_fits(variables: &Variables, args: &[Expr], params: &[Param]) -> bool
    ensures { result ≡ pointwise nat_eq (map (flatten.width_of variables.now) (exprs_view args.now))
        (map (λ (a : tree.Param). a.width.value) (map param_view params.now)) }
{
    if args.len() != params.len() {
        return false;
    }
    for i in 0..args.len() {
        if width_of(variables, &args[i]) != params[i].width.value as u128 {
            return false;
        }
    }
    true
}

/// The same of the arguments of the start clause.
pub fn start_fits(args: &[Literal], params: &[Param]) -> bool
    ensures { result ≡ pointwise nat_eq
        (map (λ (l : tree.Literal). l.width) (map literal_view args.now))
        (map (λ (a : tree.Param). a.width.value) (map param_view params.now)) }
{
    if args.len() != params.len() {
        return false;
    }
    for i in 0..args.len() {
        if args[i].width != params[i].width.value {
            return false;
        }
    }
    true
}

/// Whether one of these literals is too large for its width.
pub fn has_too_large(literals: &[Literal]) -> bool
    ensures { result ≡ list_any spec.is_too_large (map literal_view literals.now) }
{
    for literal in literals {
        if is_too_large(literal) {
            return true;
        }
    }
    false
}
