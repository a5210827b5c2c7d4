// Conditions of guards.
ghost use Rattle.std.specs.Prelude.{◌≡◌, ◌<◌, ℕ, IfOk, length, get_or};
ghost use Rattle.pdl_form.specs.View.{guard_view, guards_view};
ghost use Rattle.pdl_net.specs.Meaning.{IsThere, Means, signal};
ghost use Rattle.pdl_net.specs.HasWidth.{HasWidth};
ghost use Rattle.pdl_net.specs.Growth.{Extends};
ghost use Rattle.pdl_pipe_exprs.specs.Nets.{NetsThere, signals_in, signal_at, widths_of};
ghost use Rattle.pdl_pipe_exprs.specs.Conditions.{both, literal as literal_signal, taken_signal, AreBits};
ghost use Rattle.pdl_form_types.specs.Stmts.{AreGuards};

use crate::bits::Bits;
use crate::exprs::variable;
use pdl_build::Builder;
use pdl_form::FlatGuard;
use pdl_kit::NoMemory;
use pdl_net::Net;

// Whether a branch is taken, by the net of its variable.
fn literal(b: &mut Builder, first: bool, x: Net) -> Result<Net, NoMemory>
    requires { IsThere b.old x }
    ensures means { IfOk result (λ y. Means b.new y (literal_signal first (signal b.old x))) }
    ensures width { IfOk result (λ y. (signal b.new y).width ≡ (signal b.old x).width) }
    ensures extends { Extends b.old b.new }
    ensures regs { b.new.regs ≡ b.old.regs }
{
    if first { Ok(x) } else { b.not(x) }
}

// Whether `on` is 1 and a branch is taken.
fn and_taken(
    bits: Bits,
    b: &mut Builder,
    vars: &[Net],
    on: Net,
    g: &FlatGuard,
) -> Result<Net, NoMemory>
    requires bits { AreBits b.old bits }
    requires there { NetsThere b.old vars.now }
    requires on { HasWidth b.old on 1 }
    requires low { g.now.var < length vars.now }
    requires one { (signal_at (signals_in b.old vars.now) g.now.var).width ≡ 1 }
    ensures means { IfOk result (λ y.
        Means b.new y (both (signal b.old on)
        (literal_signal g.now.first (signal_at (signals_in b.old vars.now) g.now.var)))) }
    ensures one { IfOk result (λ y. (signal b.new y).width ≡ 1) }
    ensures extends { Extends b.old b.new }
    ensures regs { b.new.regs ≡ b.old.regs }
{
    let x = variable(b, vars, g.var);
    let branch = literal(b, g.first, x)?;
    bits.both(b, on, branch)
}

/// Whether each of the guards is taken, by the nets of the variables.
pub fn all_taken(
    bits: Bits,
    b: &mut Builder,
    vars: &[Net],
    guards: &[FlatGuard],
) -> Result<Net, NoMemory>
    requires bits { AreBits b.old bits }
    requires there { NetsThere b.old vars.now }
    requires guards { AreGuards (widths_of (signals_in b.old vars.now)) (guards_view guards.now) }
    ensures means { IfOk result (λ x.
        Means b.new x (taken_signal (signals_in b.old vars.now) (guards_view guards.now))) }
    ensures one { IfOk result (λ x. (signal b.new x).width ≡ 1) }
    ensures extends { Extends b.old b.new }
    ensures regs { b.new.regs ≡ b.old.regs }
{
    let mut on = bits.one;
    for g in guards {
        on = and_taken(bits, b, vars, on, g)?;
    }
    Ok(on)
}
