// Expressions as nets.
ghost use Rattle.std.specs.Prelude.{◌≡◌, ℕ, ◌≤◌, ◌<◌, IfOk, length};
ghost use Rattle.pdl_syntax_tree.specs.View.{op_view};
ghost use Rattle.pdl_net.specs.Signal.{slice_signal};
ghost use Rattle.pdl_net.specs.Meaning.{IsThere, Means, signal};
ghost use Rattle.pdl_net.specs.Growth.{Extends};
ghost use Rattle.pdl_build.specs.Operators.{op_of};
ghost use Rattle.pdl_pipe_exprs.specs.Nets.{NetsThere, signals_in, signal_at, widths_of};
ghost use Rattle.pdl_form.specs.View.{expr_view, exprs_view};
ghost use Rattle.pdl_form_types.specs.Exprs.{IsTyped, AreTyped};
ghost use Rattle.pdl_pipe_exprs.specs.Values.{value_signal, value_signals, IsValue};

use pdl_build::Builder;
use pdl_form::FlatExpr;
use pdl_kit::{NoMemory, Seq};
use pdl_net::{BinOp, Net};
use pdl_syntax_tree::BinaryOp;
use std::alloc::Global;

// The operator of a cell.
fn bin_op(op: BinaryOp) -> BinOp
    ensures { result ≡ op_of (op_view op) }
{
    match op {
        BinaryOp::Add => BinOp::Add,
        BinaryOp::Sub => BinOp::Sub,
        BinaryOp::Mul => BinOp::Mul,
        BinaryOp::And => BinOp::And,
        BinaryOp::Or => BinOp::Or,
        BinaryOp::Xor => BinOp::Xor,
        BinaryOp::Equal => BinOp::Eq,
        BinaryOp::Differ => BinOp::Ne,
        BinaryOp::Less => BinOp::Lt,
        BinaryOp::ShiftLeft => BinOp::Shl,
        BinaryOp::ShiftRight => BinOp::Shr,
    }
}

/// The net of a variable.
pub fn variable(b: &Builder, vars: &[Net], x: usize) -> Net
    requires there { NetsThere b.now vars.now }
    requires low { x < length vars.now }
    ensures { Means b.now result (signal_at (signals_in b.now vars.now) x) }
{
    let _circuit = b.reg_count();
    vars[x]
}

// Some bits of a variable.
fn slice_of(b: &mut Builder, vars: &[Net], x: usize, high: u8, low: u8) -> Result<Net, NoMemory>
    requires there { NetsThere b.old vars.now }
    requires below { x < length vars.now }
    requires order { low ≤ high }
    requires top { high < (signal_at (signals_in b.old vars.now) x).width }
    ensures means { IfOk result (λ y.
        Means b.new y (slice_signal high low (signal_at (signals_in b.old vars.now) x))) }
    ensures extends { Extends b.old b.new }
    ensures regs { b.new.regs ≡ b.old.regs }
{
    let a = variable(b, vars, x);
    b.slice(a, high, low)
}

// The net of an expression, which means its signal.
fn expr_net(b: &mut Builder, vars: &[Net], e: &FlatExpr) -> Result<Net, NoMemory>
    requires there { NetsThere b.old vars.now }
    requires typed { IsTyped (widths_of (signals_in b.old vars.now)) (expr_view e.now) }
    ensures means { IfOk result (λ x.
        Means b.new x (value_signal (signals_in b.old vars.now) (expr_view e.now))) }
    ensures extends { Extends b.old b.new }
    ensures regs { b.new.regs ≡ b.old.regs }
{
    match e {
        FlatExpr::Constant { width, value } => b.constant(*width, *value),
        FlatExpr::Variable(x) => Ok(variable(b, vars, *x)),
        FlatExpr::Slice { x, high, low } => slice_of(b, vars, *x, *high, *low),
        FlatExpr::Not { a, .. } => {
            let a = expr_net(b, vars, a.get())?;
            b.not(a)
        }
        FlatExpr::Binary { op, a, b: c, .. } => {
            let a = expr_net(b, vars, a.get())?;
            let c = expr_net(b, vars, c.get())?;
            b.bin(bin_op(*op), a, c)
        }
        FlatExpr::Cat { a, b: c, .. } => {
            let a = expr_net(b, vars, a.get())?;
            let c = expr_net(b, vars, c.get())?;
            b.cat(a, c)
        }
        FlatExpr::LessSigned { a, b: c, .. } => {
            let a = expr_net(b, vars, a.get())?;
            let c = expr_net(b, vars, c.get())?;
            b.less_signed(a, c)
        }
        FlatExpr::ZeroExtend { wide, a } => {
            let a = expr_net(b, vars, a.get())?;
            b.zero_extend(a, *wide)
        }
        FlatExpr::SignExtend { wide, a, .. } => {
            let a = expr_net(b, vars, a.get())?;
            b.sign_extend(a, *wide)
        }
        FlatExpr::Choose { c, a, b: d } => {
            let c = expr_net(b, vars, c.get())?;
            let a = expr_net(b, vars, a.get())?;
            let d = expr_net(b, vars, d.get())?;
            b.mux(c, a, d)
        }
    }
}

/// The net of an expression over the nets of the variables: it has the value of the expression in each state where these have values within their widths.
///
/// Where memory runs out, cells may have been added, and every earlier net means what it meant.
#[tactic(auto, using(crate::proofs::SignalValues::net_value))]
pub fn value(b: &mut Builder, vars: &[Net], e: &FlatExpr) -> Result<Net, NoMemory>
    requires there { NetsThere b.old vars.now }
    requires typed { IsTyped (widths_of (signals_in b.old vars.now)) (expr_view e.now) }
    ensures means { IfOk result (λ x.
        Means b.new x (value_signal (signals_in b.old vars.now) (expr_view e.now))) }
    ensures value { IfOk result (λ x.
        IsValue (signals_in b.old vars.now) (expr_view e.now) (signal b.new x)) }
    ensures extends { Extends b.old b.new }
    ensures regs { b.new.regs ≡ b.old.regs }
{
    expr_net(b, vars, e)
}

/// The nets of expressions.
pub fn values(
    alloc: Global,
    b: &mut Builder,
    vars: &[Net],
    es: &[FlatExpr],
) -> Result<Seq<Net>, NoMemory>
    requires there { NetsThere b.old vars.now }
    requires typed { AreTyped (widths_of (signals_in b.old vars.now)) (exprs_view es.now) }
    ensures there { IfOk result (λ xs. NetsThere b.new xs) }
    ensures means { IfOk result (λ xs.
        signals_in b.new xs ≡ value_signals (signals_in b.old vars.now) (exprs_view es.now)) }
    ensures extends { Extends b.old b.new }
    ensures regs { b.new.regs ≡ b.old.regs }
{
    let mut nets = Seq::new(alloc);
    for e in es {
        let net = value(b, vars, e)?;
        nets.push(net)?;
    }
    Ok(nets)
}
