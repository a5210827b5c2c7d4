// The values of expressions.
ghost use Rattle.std.specs.Prelude.{◌≡◌, ◌≤◌, slice_index, length, vec_capacity};
ghost use Rattle.pdl_semantics.specs.Flat as flat;
ghost use Rattle.pdl_form.specs.View.{expr_view, exprs_view};
ghost use Rattle.pdl_form_values.specs.Safe.{IsSafe, AreSafe};

use crate::operators::apply;
use pdl_form::FlatExpr;
use pdl_word::Word;

/// The value of the variable of a number, 0 where there is none.
pub fn variable(values: &[Word], x: usize) -> Word
    ensures { result ≡ slice_index values.now x }
{
    match values.get(x) {
        Some(value) => *value,
        None => 0,
    }
}

/// The value of an expression where the variables have these values, which are of the widths that its operators want.
pub fn value_of(e: &FlatExpr, values: &[Word]) -> Word
    requires { IsSafe (expr_view e.now) values.now }
    ensures { result ≡ flat.value_of (expr_view e.now) values.now }
{
    match e {
        FlatExpr::Constant { width: _, value } => *value,
        FlatExpr::Variable(x) => variable(values, *x),
        FlatExpr::Slice { x, high, low } => pdl_word::slice(*high, *low, variable(values, *x)),
        FlatExpr::Not { width, a } => pdl_word::complement(*width, value_of(a.get(), values)),
        FlatExpr::Binary { op, width, a, b } => {
            let first = value_of(a.get(), values);
            let second = value_of(b.get(), values);
            apply(*op, *width, first, second)
        }
        FlatExpr::Cat { a, width, b } => {
            let above = value_of(a.get(), values);
            let below = value_of(b.get(), values);
            pdl_word::cat(*width, above, below)
        }
        FlatExpr::LessSigned { width, a, b } => {
            let first = value_of(a.get(), values);
            let second = value_of(b.get(), values);
            pdl_word::lts(*width, first, second)
        }
        FlatExpr::ZeroExtend { wide: _, a } => pdl_word::zext(value_of(a.get(), values)),
        FlatExpr::SignExtend { width, wide, a } => {
            pdl_word::sext(*width, *wide, value_of(a.get(), values))
        }
        FlatExpr::Choose { c, a, b } => {
            let choice = value_of(c.get(), values);
            let first = value_of(a.get(), values);
            let second = value_of(b.get(), values);
            pdl_word::mux(choice, first, second)
        }
    }
}

/// Puts the values of arguments into a vector in place of what it held, without taking memory.
pub fn values_of(args: &[FlatExpr], values: &[Word], given: &mut Vec<Word>)
    requires safe { AreSafe (exprs_view args.now) values.now }
    requires room { length args.now ≤ vec_capacity given.old }
    ensures values { given.new.items ≡ flat.values_of (exprs_view args.now) values.now }
    ensures capacity { vec_capacity given.new ≡ vec_capacity given.old }
{
    given.clear();
    for arg in args {
        given.push_reserved(value_of(arg, values));
    }
}
