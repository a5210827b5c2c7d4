// What the rules on widths ask of expressions.
ghost use Rattle.std.specs.Prelude.{◌≡◌, ◌||◌, ◌==◌, ◌+◌, false, not, nat_lt, if◌then◌else◌};
ghost use Rattle.std.specs.List.{list_any};
ghost use Rattle.pdl_semantics.specs.Flatten as flatten;
ghost use Rattle.pdl_syntax_tree.specs.View.{expr_view, exprs_view, literal_view};
ghost use Rattle.pdl_rules.specs.Parts.{some_part, of_constant};
ghost use Rattle.pdl_rules.specs.Widths as spec;
ghost use Rattle.pdl_word.specs.Words.{widest};

use crate::variables::Variables;
use crate::width::{cat_width, op_width, slice_width};
use pdl_syntax_tree::{Expr, Literal};
use pdl_word::WIDEST;

/// The width of an expression, and whether a part of it has operands of two widths, is out of range, is a choice by more than one bit, or is a literal that is too large for its width.
#[derive(Clone, Copy)]
pub struct Measure {
    pub width: u128,
    pub unequal: bool,
    pub out_of_range: bool,
    pub wide_choice: bool,
    pub too_large: bool,
}

// Nothing is wrong.
fn right(width: u128) -> Measure
    ensures width { result.width ≡ width }
    ensures unequal { result.unequal ≡ false }
    ensures out_of_range { result.out_of_range ≡ false }
    ensures wide_choice { result.wide_choice ≡ false }
    ensures too_large { result.too_large ≡ false }
{
    Measure {
        width,
        unequal: false,
        out_of_range: false,
        wide_choice: false,
        too_large: false,
    }
}

impl Measure {
    // The same width, and what is wrong with either.
    fn with(self, other: Measure) -> Measure
        ensures width { result.width ≡ self.width }
        ensures unequal { result.unequal ≡ (self.unequal || other.unequal) }
        ensures out_of_range { result.out_of_range ≡ (self.out_of_range || other.out_of_range) }
        ensures wide_choice { result.wide_choice ≡ (self.wide_choice || other.wide_choice) }
        ensures too_large { result.too_large ≡ (self.too_large || other.too_large) }
    {
        Measure {
            width: self.width,
            unequal: self.unequal || other.unequal,
            out_of_range: self.out_of_range || other.out_of_range,
            wide_choice: self.wide_choice || other.wide_choice,
            too_large: self.too_large || other.too_large,
        }
    }
}

/// The measure of an expression.
pub fn measure_of(variables: &Variables, e: &Expr) -> Measure
    ensures width { result.width ≡ flatten.width_of variables.now (expr_view e.now) }
    ensures unequal { result.unequal ≡ some_part (spec.is_unequal variables.now) (expr_view e.now) }
    ensures out_of_range { result.out_of_range
        ≡ some_part (spec.is_out_of_range variables.now) (expr_view e.now) }
    ensures wide_choice { result.wide_choice
        ≡ some_part (spec.is_wide_choice variables.now) (expr_view e.now) }
    ensures too_large { result.too_large
        ≡ some_part (of_constant spec.is_too_large) (expr_view e.now) }
{
    match e {
        Expr::Constant(literal) => {
            let mut own = right(literal.width as u128);
            own.too_large = is_too_large(literal);
            own
        }
        Expr::Variable(x) => right(variables.width(&x.name)),
        Expr::Slice { x, high, low } => {
            let mut own = right(slice_width(high.value, low.value));
            own.out_of_range = high.value < low.value
                || variables.width(&x.name) <= high.value as u128;
            own
        }
        Expr::Not(a) => measure_of(variables, a.get()),
        Expr::Binary { op, a, b } => {
            let left = measure_of(variables, a.get());
            let other = measure_of(variables, b.get());
            of_operands(op_width(*op, left.width), left, other)
        }
        Expr::Cat(a, b) => {
            let above = measure_of(variables, a.get());
            let below = measure_of(variables, b.get());
            of_cat(above, below)
        }
        Expr::LessSigned(a, b) => {
            let left = measure_of(variables, a.get());
            let other = measure_of(variables, b.get());
            of_operands(1, left, other)
        }
        Expr::ZeroExtend(a, width) => of_extension(width.value, measure_of(variables, a.get())),
        Expr::SignExtend(a, width) => of_extension(width.value, measure_of(variables, a.get())),
        Expr::Choose(c, a, b) => {
            let condition = measure_of(variables, c.get());
            let first = measure_of(variables, a.get());
            let second = measure_of(variables, b.get());
            of_choice(condition, first, second)
        }
    }
}

// An expression of this width over two operands that need one width.
fn of_operands(width: u128, a: Measure, b: Measure) -> Measure
    ensures width { result.width ≡ width }
    ensures unequal { result.unequal ≡ (not (a.width == b.width) || (a.unequal || b.unequal)) }
    ensures out_of_range { result.out_of_range ≡ (a.out_of_range || b.out_of_range) }
    ensures wide_choice { result.wide_choice ≡ (a.wide_choice || b.wide_choice) }
    ensures too_large { result.too_large ≡ (a.too_large || b.too_large) }
{
    let mut own = right(width);
    own.unequal = a.width != b.width;
    own.with(a.with(b))
}

// Two expressions side by side.
fn of_cat(a: Measure, b: Measure) -> Measure
    ensures width { result.width ≡ (if nat_lt widest
        (a.width + b.width) then 1 else a.width + b.width) }
    ensures unequal { result.unequal ≡ (a.unequal || b.unequal) }
    ensures out_of_range { result.out_of_range
        ≡ (nat_lt widest (a.width + b.width) || (a.out_of_range || b.out_of_range)) }
    ensures wide_choice { result.wide_choice ≡ (a.wide_choice || b.wide_choice) }
    ensures too_large { result.too_large ≡ (a.too_large || b.too_large) }
{
    let mut own = right(cat_width(a.width, b.width));
    own.out_of_range = a.width.saturating_add(b.width) > u128::from(WIDEST);
    own.with(a.with(b))
}

// An extension to this width.
fn of_extension(width: u64, a: Measure) -> Measure
    ensures width { result.width ≡ width }
    ensures unequal { result.unequal ≡ a.unequal }
    ensures out_of_range { result.out_of_range
        ≡ (spec.is_no_extension a.width width || a.out_of_range) }
    ensures wide_choice { result.wide_choice ≡ a.wide_choice }
    ensures too_large { result.too_large ≡ a.too_large }
{
    let mut own = right(width as u128);
    own.out_of_range = (width as u128) < a.width || width > u64::from(WIDEST);
    own.with(a)
}

// A choice between two arms, which need one width.
fn of_choice(c: Measure, a: Measure, b: Measure) -> Measure
    ensures width { result.width ≡ a.width }
    ensures unequal { result.unequal
        ≡ (not (a.width == b.width) || (c.unequal || (a.unequal || b.unequal))) }
    ensures out_of_range { result.out_of_range
        ≡ (c.out_of_range || (a.out_of_range || b.out_of_range)) }
    ensures wide_choice { result.wide_choice
        ≡ (not (c.width == 1) || (c.wide_choice || (a.wide_choice || b.wide_choice))) }
    ensures too_large { result.too_large ≡ (c.too_large || (a.too_large || b.too_large)) }
{
    let mut own = right(a.width);
    own.unequal = a.width != b.width;
    own.wide_choice = c.width != 1;
    own.with(c.with(a.with(b)))
}

/// Whether a literal's value doesn't fit its width.
pub fn is_too_large(literal: &Literal) -> bool
    ensures { result ≡ spec.is_too_large (literal_view literal.now) }
{
    match literal.value {
        None => true,
        Some(value) => {
            if literal.width < u64::from(WIDEST) {
                value >> literal.width != 0
            } else {
                false
            }
        }
    }
}

/// What is wrong with arguments, in a measure of no width.
pub fn measured_args(variables: &Variables, args: &[Expr]) -> Measure
    ensures unequal { result.unequal
        ≡ list_any (some_part (spec.is_unequal variables.now)) (exprs_view args.now) }
    ensures out_of_range { result.out_of_range
        ≡ list_any (some_part (spec.is_out_of_range variables.now)) (exprs_view args.now) }
    ensures wide_choice { result.wide_choice
        ≡ list_any (some_part (spec.is_wide_choice variables.now)) (exprs_view args.now) }
    ensures too_large { result.too_large
        ≡ list_any (some_part (of_constant spec.is_too_large)) (exprs_view args.now) }
{
    let mut all = right(0);
    for e in args {
        all = all.with(measure_of(variables, e));
    }
    all
}
