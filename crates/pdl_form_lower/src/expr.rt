// Expressions over numbered variables.
ghost use Rattle.std.specs.Prelude.{◌≡◌, ℕ, ◌+◌, ◌-◌, ◌≤◌, ◌<◌, if◌then◌else◌, nat_lt, unwrap_or, map, IfOk, IsTrue, Ok};
ghost use Rattle.pdl_semantics.specs.Flat as flat;
ghost use Rattle.pdl_semantics.specs.Flatten as spec;
ghost use Rattle.pdl_syntax_tree.specs.View.{expr_view as tree_view, exprs_view as trees_view, op_view};
ghost use Rattle.pdl_rules.specs.Typed.{is_named};
ghost use Rattle.pdl_form.specs.View.{expr_view};
ghost use Rattle.pdl_form_lower.specs.Lowerable.{IsLowerable, AreLowerable};
ghost use Rattle.pdl_word.specs.Words.{widest};

use crate::both::both;
use crate::vars::Vars;
use pdl_form::FlatExpr;
use pdl_kit::{Boxed, Name, NoMemory, Seq};
use pdl_syntax_tree::{BinaryOp, Expr as Tree, Literal};
use pdl_word::WIDEST;
use std::alloc::Global;

/// An expression with the width of its value in bits.
#[derive(Drop)]
pub struct Wide {
    pub e: FlatExpr,
    pub width: u8,
}

fn constant(l: &Literal) -> Wide
    requires { l.now.width ≤ widest }
    ensures form { expr_view result.e ≡ flat.Constant l.now.width (unwrap_or l.now.value 0) }
    ensures width { result.width ≡ l.now.width }
{
    let width = l.width as u8;
    let value = match l.value {
        Some(value) => value,
        None => 0,
    };
    Wide {
        e: FlatExpr::Constant { width, value },
        width,
    }
}

fn variable(vars: &Vars<'_>, name: &Name) -> Wide
    requires { IsTrue (is_named vars.now.table name.now) }
    ensures form { expr_view result.e ≡ flat.Variable (spec.var_of vars.now.vars name.now) }
    ensures width { result.width ≡ spec.var_width vars.now.vars name.now }
    ensures small { result.width ≤ widest }
{
    Wide {
        e: FlatExpr::Variable(vars.number(name)),
        width: vars.width(name),
    }
}

// The width of the bits from high down to low, 1 where there are none.
fn slice_width(high: u8, low: u8) -> u8
    requires { high < widest }
    ensures value { result ≡ (if nat_lt high low then 1 else high + 1 - low) }
    ensures small { result ≤ widest }
{
    if high < low { 1 } else { high + 1 - low }
}

fn slice(vars: &Vars<'_>, name: &Name, high: u64, low: u64) -> Wide
    requires known { IsTrue (is_named vars.now.table name.now) }
    requires high { high < widest }
    requires low { low < widest }
    ensures form { expr_view result.e ≡ flat.Slice (spec.var_of vars.now.vars name.now) high low }
    ensures width { result.width ≡ (if nat_lt high low then 1 else high + 1 - low) }
    ensures small { result.width ≤ widest }
{
    let high = high as u8;
    let low = low as u8;
    Wide {
        e: FlatExpr::Slice {
            x: vars.number(name),
            high,
            low,
        },
        width: slice_width(high, low),
    }
}

// An operand in a place of its own, with the width of its value.
#[derive(Drop)]
struct LoweredOperand {
    e: Boxed<FlatExpr>,
    width: u8,
}

// An expression as an operand, where memory held for it.
#[inline(never)]
fn boxed(alloc: Global, of: Result<Wide, NoMemory>) -> Result<LoweredOperand, NoMemory>
    ensures { IfOk result (λ r. of ≡ Ok (record { e = r.e; width = r.width })) }
{
    let Wide { e, width } = of?;
    Ok(LoweredOperand {
        e: Boxed::new(alloc, e)?,
        width,
    })
}

fn not(alloc: Global, a: Result<LoweredOperand, NoMemory>) -> Result<Wide, NoMemory>
    ensures form { (x : flat.Expr) (w : ℕ) → IfOk a (λ a. expr_view a.e ≡ x) →
        IfOk a (λ a. a.width ≡ w) → IfOk result (λ r. expr_view r.e ≡ flat.Not w x) }
    ensures width { (w : ℕ) → IfOk a (λ a. a.width ≡ w) → IfOk result (λ r. r.width ≡ w) }
    ensures small { IfOk a (λ a. a.width ≤ widest) → IfOk result (λ r. r.width ≤ widest) }
{
    let LoweredOperand { e, width } = a?;
    Ok(Wide {
        e: FlatExpr::Not { width, a: e },
        width,
    })
}

// The width of an operator's value, by its operands' width.
fn op_width(op: BinaryOp, width: u8) -> u8
    requires { width ≤ widest }
    ensures value { result ≡ spec.op_width (op_view op) width }
    ensures small { result ≤ widest }
{
    match op {
        BinaryOp::Equal | BinaryOp::Differ | BinaryOp::Less => 1,
        BinaryOp::Add | BinaryOp::Sub | BinaryOp::Mul => width,
        BinaryOp::And | BinaryOp::Or | BinaryOp::Xor => width,
        BinaryOp::ShiftLeft | BinaryOp::ShiftRight => width,
    }
}

fn binary(
    alloc: Global,
    op: BinaryOp,
    a: Result<LoweredOperand, NoMemory>,
    b: Result<LoweredOperand, NoMemory>,
) -> Result<Wide, NoMemory>
    requires { IfOk a (λ a. a.width ≤ widest) }
    ensures form { (x y : flat.Expr) (w : ℕ) → IfOk a (λ a. expr_view a.e ≡ x) →
        IfOk b (λ b. expr_view b.e ≡ y) → IfOk a (λ a. a.width ≡ w) →
        IfOk result (λ r. expr_view r.e ≡ flat.Binary (op_view op) w x y) }
    ensures width { (w : ℕ) → IfOk a (λ a. a.width ≡ w) →
        IfOk result (λ r. r.width ≡ spec.op_width (op_view op) w) }
    ensures small { IfOk result (λ r. r.width ≤ widest) }
{
    let (a, b) = both(a, b)?;
    let width = a.width;
    Ok(Wide {
        e: FlatExpr::Binary {
            op,
            width,
            a: a.e,
            b: b.e,
        },
        width: op_width(op, width),
    })
}

// The width of two values side by side, 1 where they are too wide together.
fn cat_width(above: u8, below: u8) -> u8
    requires above { above ≤ widest }
    requires below { below ≤ widest }
    ensures value { result ≡ (if nat_lt widest (above + below) then 1 else above + below) }
    ensures small { result ≤ widest }
{
    // Both together may not fit a `u8`.
    if above > WIDEST - below {
        1
    } else {
        above + below
    }
}

fn cat(
    alloc: Global,
    a: Result<LoweredOperand, NoMemory>,
    b: Result<LoweredOperand, NoMemory>,
) -> Result<Wide, NoMemory>
    requires a_small { IfOk a (λ a. a.width ≤ widest) }
    requires b_small { IfOk b (λ b. b.width ≤ widest) }
    ensures form { (x y : flat.Expr) (w : ℕ) → IfOk a (λ a. expr_view a.e ≡ x) →
        IfOk b (λ b. expr_view b.e ≡ y) → IfOk b (λ b. b.width ≡ w) →
        IfOk result (λ r. expr_view r.e ≡ flat.Cat x w y) }
    ensures width { (v w : ℕ) → IfOk a (λ a. a.width ≡ v) → IfOk b (λ b. b.width ≡ w) →
        IfOk result (λ r. r.width ≡ (if nat_lt widest (v + w) then 1 else v + w)) }
    ensures small { IfOk result (λ r. r.width ≤ widest) }
{
    let (a, b) = both(a, b)?;
    let width = b.width;
    Ok(Wide {
        e: FlatExpr::Cat {
            a: a.e,
            width,
            b: b.e,
        },
        width: cat_width(a.width, width),
    })
}

fn less_signed(
    alloc: Global,
    a: Result<LoweredOperand, NoMemory>,
    b: Result<LoweredOperand, NoMemory>,
) -> Result<Wide, NoMemory>
    ensures form { (x y : flat.Expr) (w : ℕ) → IfOk a (λ a. expr_view a.e ≡ x) →
        IfOk b (λ b. expr_view b.e ≡ y) → IfOk a (λ a. a.width ≡ w) →
        IfOk result (λ r. expr_view r.e ≡ flat.LessSigned w x y) }
    ensures width { IfOk result (λ r. r.width ≡ 1) }
{
    let (a, b) = both(a, b)?;
    let width = a.width;
    Ok(Wide {
        e: FlatExpr::LessSigned {
            width,
            a: a.e,
            b: b.e,
        },
        width: 1,
    })
}

fn zero_extend(
    alloc: Global,
    a: Result<LoweredOperand, NoMemory>,
    wide: u64,
) -> Result<Wide, NoMemory>
    requires { wide ≤ widest }
    ensures form { (x : flat.Expr) → IfOk a (λ a. expr_view a.e ≡ x) →
        IfOk result (λ r. expr_view r.e ≡ flat.ZeroExtend wide x) }
    ensures width { IfOk result (λ r. r.width ≡ wide) }
{
    let wide = wide as u8;
    let a = a?.e;
    Ok(Wide {
        e: FlatExpr::ZeroExtend { wide, a },
        width: wide,
    })
}

fn sign_extend(
    alloc: Global,
    a: Result<LoweredOperand, NoMemory>,
    wide: u64,
) -> Result<Wide, NoMemory>
    requires { wide ≤ widest }
    ensures form { (x : flat.Expr) (w : ℕ) → IfOk a (λ a. expr_view a.e ≡ x) →
        IfOk a (λ a. a.width ≡ w) → IfOk result (λ r. expr_view r.e ≡ flat.SignExtend w wide x) }
    ensures width { IfOk result (λ r. r.width ≡ wide) }
{
    let wide = wide as u8;
    let LoweredOperand { e, width } = a?;
    Ok(Wide {
        e: FlatExpr::SignExtend { width, wide, a: e },
        width: wide,
    })
}

#[inline(never)]
fn choose(
    alloc: Global,
    c: Result<LoweredOperand, NoMemory>,
    a: Result<LoweredOperand, NoMemory>,
    b: Result<LoweredOperand, NoMemory>,
) -> Result<Wide, NoMemory>
    ensures form { (z x y : flat.Expr) → IfOk c (λ c. expr_view c.e ≡ z) →
        IfOk a (λ a. expr_view a.e ≡ x) → IfOk b (λ b. expr_view b.e ≡ y) →
        IfOk result (λ r. expr_view r.e ≡ flat.Choose z x y) }
    ensures width { (w : ℕ) → IfOk a (λ a. a.width ≡ w) → IfOk result (λ r. r.width ≡ w) }
    ensures small { IfOk a (λ a. a.width ≤ widest) → IfOk result (λ r. r.width ≤ widest) }
{
    let (c, arms) = both(c, both(a, b))?;
    let (a, b) = arms;
    let width = a.width;
    Ok(Wide {
        e: FlatExpr::Choose {
            c: c.e,
            a: a.e,
            b: b.e,
        },
        width,
    })
}

// An expression as an operand in a place of its own, which takes less of the stack than the expression.
#[cycle(flat)]
#[inline(never)]
fn flat_operand(alloc: Global, vars: &Vars<'_>, e: &Tree) -> Result<LoweredOperand, NoMemory>
    requires e { IsLowerable vars.now.table (tree_view e.now) }
    ensures form { IfOk result (λ r.
        expr_view r.e ≡ spec.flat_expr vars.now.vars (tree_view e.now)) }
    ensures width { IfOk result (λ r. r.width ≡ spec.width_of vars.now.vars (tree_view e.now)) }
    ensures small { IfOk result (λ r. r.width ≤ widest) }
{
    boxed(alloc, flat_expr(alloc, vars, e))
}

// An inverted expression.
#[cycle(flat)]
#[inline(never)]
fn flat_not(alloc: Global, vars: &Vars<'_>, a: &Tree) -> Result<Wide, NoMemory>
    requires a { IsLowerable vars.now.table (tree_view a.now) }
    ensures form { IfOk result (λ r. expr_view r.e
        ≡ flat.Not (spec.width_of vars.now.vars (tree_view a.now))
        (spec.flat_expr vars.now.vars (tree_view a.now))) }
    ensures width { IfOk result (λ r. r.width ≡ spec.width_of vars.now.vars (tree_view a.now)) }
    ensures small { IfOk result (λ r. r.width ≤ widest) }
{
    not(alloc, flat_operand(alloc, vars, a))
}

// An extension by zeros.
#[cycle(flat)]
#[inline(never)]
fn flat_zero_extend(alloc: Global, vars: &Vars<'_>, wide: u64, a: &Tree) -> Result<Wide, NoMemory>
    requires a { IsLowerable vars.now.table (tree_view a.now) }
    requires wide { wide ≤ widest }
    ensures form { IfOk result (λ r. expr_view r.e
        ≡ flat.ZeroExtend wide (spec.flat_expr vars.now.vars (tree_view a.now))) }
    ensures width { IfOk result (λ r. r.width ≡ wide) }
    ensures small { IfOk result (λ r. r.width ≤ widest) }
{
    zero_extend(alloc, flat_operand(alloc, vars, a), wide)
}

// An extension by the sign.
#[cycle(flat)]
#[inline(never)]
fn flat_sign_extend(alloc: Global, vars: &Vars<'_>, wide: u64, a: &Tree) -> Result<Wide, NoMemory>
    requires a { IsLowerable vars.now.table (tree_view a.now) }
    requires wide { wide ≤ widest }
    ensures form { IfOk result (λ r. expr_view r.e
        ≡ flat.SignExtend (spec.width_of vars.now.vars (tree_view a.now)) wide
        (spec.flat_expr vars.now.vars (tree_view a.now))) }
    ensures width { IfOk result (λ r. r.width ≡ wide) }
    ensures small { IfOk result (λ r. r.width ≤ widest) }
{
    sign_extend(alloc, flat_operand(alloc, vars, a), wide)
}

// An operator and its right operand, after the left one.
#[cycle(flat)]
#[inline(never)]
fn binary_with(
    alloc: Global,
    vars: &Vars<'_>,
    op: BinaryOp,
    a: Result<LoweredOperand, NoMemory>,
    b: &Tree,
) -> Result<Wide, NoMemory>
    requires b { IsLowerable vars.now.table (tree_view b.now) }
    requires a_small { IfOk a (λ a. a.width ≤ widest) }
    ensures form { (x : flat.Expr) (w : ℕ) → IfOk a (λ a. expr_view a.e ≡ x) →
        IfOk a (λ a. a.width ≡ w) → IfOk result (λ r.
        expr_view r.e
        ≡ flat.Binary (op_view op) w x (spec.flat_expr vars.now.vars (tree_view b.now))) }
    ensures width { (w : ℕ) → IfOk a (λ a. a.width ≡ w) →
        IfOk result (λ r. r.width ≡ spec.op_width (op_view op) w) }
    ensures small { IfOk result (λ r. r.width ≤ widest) }
{
    let b = flat_operand(alloc, vars, b);
    binary(alloc, op, a, b)
}

// The lower one of two expressions side by side, after the upper one.
#[cycle(flat)]
#[inline(never)]
fn cat_with(
    alloc: Global,
    vars: &Vars<'_>,
    a: Result<LoweredOperand, NoMemory>,
    b: &Tree,
) -> Result<Wide, NoMemory>
    requires b { IsLowerable vars.now.table (tree_view b.now) }
    requires a_small { IfOk a (λ a. a.width ≤ widest) }
    ensures form { (x : flat.Expr) → IfOk a (λ a. expr_view a.e ≡ x) → IfOk result (λ r.
        expr_view r.e ≡ flat.Cat x (spec.width_of vars.now.vars (tree_view b.now))
        (spec.flat_expr vars.now.vars (tree_view b.now))) }
    ensures width { (v : ℕ) → IfOk a (λ a. a.width ≡ v) → IfOk result (λ r. r.width ≡
        (if nat_lt widest (v + spec.width_of vars.now.vars (tree_view b.now)) then 1
        else v + spec.width_of vars.now.vars (tree_view b.now))) }
    ensures small { IfOk result (λ r. r.width ≤ widest) }
{
    let b = flat_operand(alloc, vars, b);
    cat(alloc, a, b)
}

// The right side of a comparison of signed numbers, after the left one.
#[cycle(flat)]
#[inline(never)]
fn less_with(
    alloc: Global,
    vars: &Vars<'_>,
    a: Result<LoweredOperand, NoMemory>,
    b: &Tree,
) -> Result<Wide, NoMemory>
    requires b { IsLowerable vars.now.table (tree_view b.now) }
    ensures form { (x : flat.Expr) (w : ℕ) → IfOk a (λ a. expr_view a.e ≡ x) →
        IfOk a (λ a. a.width ≡ w) → IfOk result (λ r.
        expr_view r.e ≡ flat.LessSigned w x (spec.flat_expr vars.now.vars (tree_view b.now))) }
    ensures width { IfOk result (λ r. r.width ≡ 1) }
    ensures small { IfOk result (λ r. r.width ≤ widest) }
{
    let b = flat_operand(alloc, vars, b);
    less_signed(alloc, a, b)
}

// The second arm of a choice, after its condition and its first arm.
#[cycle(flat)]
#[inline(never)]
fn choice_with(
    alloc: Global,
    vars: &Vars<'_>,
    c: Result<LoweredOperand, NoMemory>,
    a: Result<LoweredOperand, NoMemory>,
    b: &Tree,
) -> Result<Wide, NoMemory>
    requires b { IsLowerable vars.now.table (tree_view b.now) }
    ensures form { (z x : flat.Expr) → IfOk c (λ c. expr_view c.e ≡ z) →
        IfOk a (λ a. expr_view a.e ≡ x) → IfOk result (λ r.
        expr_view r.e ≡ flat.Choose z x (spec.flat_expr vars.now.vars (tree_view b.now))) }
    ensures width { (w : ℕ) → IfOk a (λ a. a.width ≡ w) → IfOk result (λ r. r.width ≡ w) }
    ensures small { IfOk a (λ a. a.width ≤ widest) → IfOk result (λ r. r.width ≤ widest) }
{
    let b = flat_operand(alloc, vars, b);
    choose(alloc, c, a, b)
}

/// An expression over the variables' numbers, with its width. What comes after a first operand has a function of its own, so that expressions in one another take little stack.
#[cycle(flat)]
#[inline(never)]
pub fn flat_expr(alloc: Global, vars: &Vars<'_>, e: &Tree) -> Result<Wide, NoMemory>
    requires { IsLowerable vars.now.table (tree_view e.now) }
    ensures form { IfOk result (λ r.
        expr_view r.e ≡ spec.flat_expr vars.now.vars (tree_view e.now)) }
    ensures width { IfOk result (λ r. r.width ≡ spec.width_of vars.now.vars (tree_view e.now)) }
    ensures small { IfOk result (λ r. r.width ≤ widest) }
{
    match e {
        Tree::Constant(l) => Ok(constant(l)),
        Tree::Variable(x) => Ok(variable(vars, &x.name)),
        Tree::Slice { x, high, low } => Ok(slice(vars, &x.name, high.value, low.value)),
        Tree::Not(a) => flat_not(alloc, vars, a.get()),
        Tree::Binary { op, a, b } => {
            let a = flat_operand(alloc, vars, a.get());
            binary_with(alloc, vars, *op, a, b.get())
        }
        Tree::Cat(a, b) => {
            let a = flat_operand(alloc, vars, a.get());
            cat_with(alloc, vars, a, b.get())
        }
        Tree::LessSigned(a, b) => {
            let a = flat_operand(alloc, vars, a.get());
            less_with(alloc, vars, a, b.get())
        }
        Tree::ZeroExtend(a, wide) => flat_zero_extend(alloc, vars, wide.value, a.get()),
        Tree::SignExtend(a, wide) => flat_sign_extend(alloc, vars, wide.value, a.get()),
        Tree::Choose(c, a, b) => {
            let c = flat_operand(alloc, vars, c.get());
            let a = flat_operand(alloc, vars, a.get());
            choice_with(alloc, vars, c, a, b.get())
        }
    }
}

/// Arguments over the variables' numbers.
pub fn flat_exprs(alloc: Global, vars: &Vars<'_>, es: &[Tree]) -> Result<Seq<FlatExpr>, NoMemory>
    requires { AreLowerable vars.now.table (trees_view es.now) }
    ensures { IfOk result (λ r. map expr_view r
        ≡ spec.flat_exprs vars.now.vars (trees_view es.now)) }
{
    let mut args = Seq::new(alloc);
    for e in es {
        let arg = flat_expr(alloc, vars, e)?;
        args.push(arg.e)?;
    }
    Ok(args)
}
