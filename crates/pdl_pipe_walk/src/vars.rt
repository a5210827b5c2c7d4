// What the statements of a stage read of its variables.
ghost use Rattle.std.specs.Prelude.{◌≡◌, ◌<◌, IfOk, length};
ghost use Rattle.pdl_form.specs.FormView.{form};
ghost use Rattle.pdl_form.specs.View.{guards_view, expr_view, exprs_view};
ghost use Rattle.pdl_form_types.specs.Exprs.{width_in, IsTyped};
ghost use Rattle.pdl_form_types.specs.Stmts.{AreGuards, AreArguments, param_widths};
ghost use Rattle.pdl_net.specs.Meaning.{Means, signal};
ghost use Rattle.pdl_net.specs.Growth.{Extends};
ghost use Rattle.pdl_pipe_exprs.specs.Nets.{NetsThere, signals_in, signal_at, widths_of};
ghost use Rattle.pdl_pipe_exprs.specs.Conditions.{AreBits};
ghost use Rattle.pdl_pipe_walk.specs.Sized.{IsWalkOf};
ghost use Rattle.pdl_pipe_walk.specs.Parts.{taken_by, value_by, values_by};

use crate::nets::WalkNets;
use pdl_build::Builder;
use pdl_form::{FlatExpr, FlatGuard, FlatPipe};
use pdl_kit::{NoMemory, Seq};
use pdl_net::Net;
use pdl_pipe_exprs::{Bits, exprs, guards as conditions};
use std::alloc::Global;

impl WalkNets {
    // The net of a variable.
    pub(crate) fn variable(&self, b: &Builder, pipe: &FlatPipe, x: usize) -> Net
        requires walk { IsWalkOf (form pipe.now) b.now self.now }
        requires low { x < length (form pipe.now).widths }
        ensures { Means b.now result (signal_at (signals_in b.now self.now.vars.items) x) }
    {
        exprs::variable(b, self.vars.as_slice(), x)
    }

    // Whether guards are taken.
    pub(crate) fn all_taken(
        &self,
        b: &mut Builder,
        pipe: &FlatPipe,
        bits: Bits,
        guards: &[FlatGuard],
    ) -> Result<Net, NoMemory>
        requires walk { IsWalkOf (form pipe.now) b.old self.now }
        requires bits { AreBits b.old bits }
        requires guards { AreGuards (form pipe.now).widths (guards_view guards.now) }
        ensures means { IfOk result (λ x. Means b.new x (taken_by b.old self.now guards.now)) }
        ensures one { IfOk result (λ x. (signal b.new x).width ≡ 1) }
        ensures extends { Extends b.old b.new }
    {
        conditions::all_taken(bits, b, self.vars.as_slice(), guards)
    }

    // The value of an expression.
    pub(crate) fn value(
        &self,
        b: &mut Builder,
        pipe: &FlatPipe,
        e: &FlatExpr,
    ) -> Result<Net, NoMemory>
        requires walk { IsWalkOf (form pipe.now) b.old self.now }
        requires typed { IsTyped (form pipe.now).widths (expr_view e.now) }
        ensures means { IfOk result (λ x. Means b.new x (value_by b.old self.now e.now)) }
        ensures wide { IfOk result (λ x.
            (signal b.new x).width ≡ width_in (form pipe.now).widths (expr_view e.now)) }
        ensures extends { Extends b.old b.new }
    {
        exprs::value(b, self.vars.as_slice(), e)
    }

    // The arguments of a call.
    pub(crate) fn values(
        &self,
        alloc: Global,
        b: &mut Builder,
        pipe: &FlatPipe,
        args: &[FlatExpr],
    ) -> Result<Seq<Net>, NoMemory>
        requires walk { IsWalkOf (form pipe.now) b.old self.now }
        requires typed { AreArguments (form pipe.now).widths (param_widths (form pipe.now))
            (exprs_view args.now) }
        ensures there { IfOk result (λ xs. NetsThere b.new xs) }
        ensures means { IfOk result (λ xs.
            signals_in b.new xs ≡ values_by b.old self.now args.now) }
        ensures wide { IfOk result (λ xs.
            widths_of (signals_in b.new xs) ≡ param_widths (form pipe.now)) }
        ensures extends { Extends b.old b.new }
    {
        exprs::values(alloc, b, self.vars.as_slice(), args)
    }
}
