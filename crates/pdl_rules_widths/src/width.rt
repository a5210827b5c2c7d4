// The widths of expressions.
ghost use Rattle.std.specs.Prelude.{◌≡◌, ◌+◌, ◌-◌, if◌then◌else◌, nat_lt};
ghost use Rattle.pdl_semantics.specs.Flatten as spec;
ghost use Rattle.pdl_syntax_tree.specs.View.{expr_view, op_view};
ghost use Rattle.pdl_word.specs.Words.{widest};

use crate::variables::Variables;
use pdl_syntax_tree::{BinaryOp, Expr};
use pdl_word::WIDEST;

/// The width of an expression in bits, defined also where it breaks a rule.
pub fn width_of(variables: &Variables, e: &Expr) -> u128
    ensures { result ≡ spec.width_of variables.now (expr_view e.now) }
{
    match e {
        Expr::Constant(literal) => literal.width as u128,
        Expr::Variable(x) => variables.width(&x.name),
        Expr::Slice { x: _, high, low } => slice_width(high.value, low.value),
        Expr::Not(a) => width_of(variables, a.get()),
        Expr::Binary { op, a, b: _ } => op_width(*op, width_of(variables, a.get())),
        Expr::Cat(a, b) => cat_width(width_of(variables, a.get()), width_of(variables, b.get())),
        Expr::LessSigned(_, _) => 1,
        Expr::ZeroExtend(_, width) => width.value as u128,
        Expr::SignExtend(_, width) => width.value as u128,
        Expr::Choose(_, a, _) => width_of(variables, a.get()),
    }
}

/// The width of the bits from high down to low, 1 where there are none.
pub fn slice_width(high: u64, low: u64) -> u128
    ensures { result ≡ (if nat_lt high low then 1 else high + 1 - low) }
{
    if high < low {
        1
    } else {
        high as u128 + 1 - low as u128
    }
}

/// The width of an operator's value, by its operands' width.
pub fn op_width(op: BinaryOp, width: u128) -> u128
    ensures { result ≡ spec.op_width (op_view op) width }
{
    match op {
        BinaryOp::Equal | BinaryOp::Differ | BinaryOp::Less => 1,
        BinaryOp::Add | BinaryOp::Sub | BinaryOp::Mul => width,
        BinaryOp::And | BinaryOp::Or | BinaryOp::Xor => width,
        BinaryOp::ShiftLeft | BinaryOp::ShiftRight => width,
    }
}

/// The width of two values side by side, 1 where they are too wide together.
pub fn cat_width(above: u128, below: u128) -> u128
    ensures { result ≡ (if nat_lt widest (above + below) then 1 else above + below) }
{
    let both = above.saturating_add(below);
    if both > u128::from(WIDEST) { 1 } else { both }
}
