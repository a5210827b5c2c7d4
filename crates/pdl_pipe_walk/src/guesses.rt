// Guesses: what a call guesses, and whether a verify or an update finds that wrong.
ghost use Rattle.std.specs.Prelude.{◌≡◌, ◌<◌, ◌∷◌, [], ℕ, IfOk, OnOk, length};
ghost use Rattle.pdl_form.specs.FormView.{form};
ghost use Rattle.pdl_form.specs.View.{guards_view, exprs_view};
ghost use Rattle.pdl_form_types.specs.Stmts.{AreGuards, AreArguments, param_widths};
ghost use Rattle.pdl_net.specs.Signal.{mux_signal};
ghost use Rattle.pdl_net.specs.Meaning.{IsThere, Means, signal};
ghost use Rattle.pdl_net.specs.HasWidth.{HasWidth};
ghost use Rattle.pdl_net.specs.Growth.{Extends};
ghost use Rattle.pdl_pipe_exprs.specs.Nets.{NetsThere, signals_in, signal_at, widths_of};
ghost use Rattle.pdl_pipe_exprs.specs.Conditions.{AreBits};
ghost use Rattle.pdl_law_parts.specs.Walk.{one, both};
ghost use Rattle.pdl_pipe_walk.specs.Guesses.{choices, or_differ, differ_signal};
ghost use Rattle.pdl_pipe_walk.specs.Parts.{parts_in, taken_by, values_by};
ghost use Rattle.pdl_pipe_walk.specs.Sized.{IsWalkOf};
ghost use Rattle.pdl_pipe_walk.specs.Steps.{with_guess, with_verify, with_update, with_compare, with_barrier};

use crate::nets::WalkNets;
use pdl_build::Builder;
use pdl_form::{FlatExpr, FlatGuard, FlatPipe};
use pdl_kit::{NoMemory, Seq};
use pdl_net::{BinOp, Net};
use pdl_pipe_exprs::Bits;
use pdl_pipe_exprs::exprs::variable;
use std::alloc::Global;

/// Where `on` is 1 each of the nets `xs`, else each of `ys`.
pub fn choose(
    alloc: Global,
    b: &mut Builder,
    on: Net,
    xs: &[Net],
    ys: &[Net],
) -> Result<Seq<Net>, NoMemory>
    requires on { HasWidth b.old on 1 }
    requires xs { NetsThere b.old xs.now }
    requires ys { NetsThere b.old ys.now }
    requires widths { widths_of (signals_in b.old xs.now) ≡ widths_of (signals_in b.old ys.now) }
    ensures there { IfOk result (λ zs. NetsThere b.new zs) }
    ensures means { IfOk result (λ zs.
        signals_in b.new zs ≡ choices (signal b.old on) (signals_in b.old xs.now)
        (signals_in b.old ys.now)) }
    ensures extends { Extends b.old b.new }
{
    let mut nets = Seq::new(alloc);
    for i in 0..xs.len() {
        let x = variable(b, xs, i);
        let y = variable(b, ys, i);
        let net = b.mux(on, x, y)?;
        nets.push(net)?;
    }
    Ok(nets)
}

// Whether `found` is 1 or two nets differ.
fn find_different(b: &mut Builder, bits: Bits, found: Net, x: Net, y: Net) -> Result<Net, NoMemory>
    requires bits { AreBits b.old bits }
    requires found { HasWidth b.old found 1 }
    requires x { IsThere b.old x }
    requires y { IsThere b.old y }
    requires widths { (signal b.old x).width ≡ (signal b.old y).width }
    ensures means { IfOk result (λ z.
        Means b.new z (or_differ (signal b.old found) (signal b.old x) (signal b.old y))) }
    ensures extends { Extends b.old b.new }
{
    let different = b.bin(BinOp::Ne, x, y)?;
    b.mux(different, bits.one, found)
}

// Whether any of the nets `xs` differs from that of `ys` at its place.
fn differ(b: &mut Builder, bits: Bits, xs: &[Net], ys: &[Net]) -> Result<Net, NoMemory>
    requires bits { AreBits b.old bits }
    requires xs { NetsThere b.old xs.now }
    requires ys { NetsThere b.old ys.now }
    requires widths { widths_of (signals_in b.old xs.now) ≡ widths_of (signals_in b.old ys.now) }
    ensures means { IfOk result (λ z.
        Means b.new z (differ_signal (signals_in b.old xs.now) (signals_in b.old ys.now))) }
    ensures one { IfOk result (λ z. (signal b.new z).width ≡ 1) }
    ensures extends { Extends b.old b.new }
{
    let mut found = bits.zero;
    for i in 0..xs.len() {
        let x = variable(b, xs, i);
        let y = variable(b, ys, i);
        found = find_different(b, bits, found, x, y)?;
    }
    Ok(found)
}

impl WalkNets {
    // Other arguments of the guess.
    fn put_guess(&mut self, guess: Seq<Net>)
        ensures { self.new ≡ record self.old { guess = guess } }
    {
        self.guess = guess;
    }

    // A verify fails, or an update changes the guess, where `on` and `wrong` are 1: the net of both.
    fn fail(
        &mut self,
        b: &mut Builder,
        pipe: &FlatPipe,
        bits: Bits,
        on: Net,
        wrong: Net,
    ) -> Result<Net, NoMemory>
        requires walk { IsWalkOf (form pipe.now) b.old self.old }
        requires bits { AreBits b.old bits }
        requires on { HasWidth b.old on 1 }
        requires wrong { HasWidth b.old wrong 1 }
        ensures means { IfOk result (λ x.
            Means b.new x (both (signal b.old on) (signal b.old wrong))) }
        ensures walk { OnOk result (IsWalkOf (form pipe.now) b.new self.new) }
        ensures parts { OnOk result (parts_in b.new self.new
            ≡ record (parts_in b.old self.old) {
              fails = mux_signal (both (signal b.old on) (signal b.old wrong)) one
                  (parts_in b.old self.old).fails;
            }) }
        ensures extends { Extends b.old b.new }
    {
        let here = bits.both(b, on, wrong)?;
        let fails = b.mux(here, bits.one, self.fails)?;
        self.fails = fails;
        Ok(here)
    }

    /// A call that guesses: where its guards are taken its arguments become the guess.
    pub(crate) fn spec_call(
        &mut self,
        alloc: Global,
        b: &mut Builder,
        pipe: &FlatPipe,
        bits: Bits,
        guards: &[FlatGuard],
        args: &[FlatExpr],
    ) -> Result<(), NoMemory>
        requires walk { IsWalkOf (form pipe.now) b.old self.old }
        requires bits { AreBits b.old bits }
        requires guards { AreGuards (form pipe.now).widths (guards_view guards.now) }
        requires typed { AreArguments (form pipe.now).widths (param_widths (form pipe.now))
            (exprs_view args.now) }
        ensures walk { OnOk result (IsWalkOf (form pipe.now) b.new self.new) }
        ensures parts { OnOk result (parts_in b.new self.new
            ≡ with_guess (taken_by b.old self.old guards.now) (values_by b.old self.old args.now)
            (parts_in b.old self.old)) }
        ensures extends { Extends b.old b.new }
    {
        let on = self.all_taken(b, pipe, bits, guards)?;
        let nets = self.values(alloc, b, pipe, args)?;
        let guess = choose(alloc, b, on, nets.as_slice(), self.guess.as_slice())?;
        self.put_guess(guess);
        self.push_birth(on, nets)
    }

    // A verify: it fails where its guards are taken and an argument isn't that of the guess, and then calls with its own.
    fn verify(
        &mut self,
        alloc: Global,
        b: &mut Builder,
        pipe: &FlatPipe,
        bits: Bits,
        guards: &[FlatGuard],
        args: &[FlatExpr],
    ) -> Result<(), NoMemory>
        requires walk { IsWalkOf (form pipe.now) b.old self.old }
        requires bits { AreBits b.old bits }
        requires guards { AreGuards (form pipe.now).widths (guards_view guards.now) }
        requires typed { AreArguments (form pipe.now).widths (param_widths (form pipe.now))
            (exprs_view args.now) }
        ensures walk { OnOk result (IsWalkOf (form pipe.now) b.new self.new) }
        ensures parts { OnOk result (parts_in b.new self.new
            ≡ with_verify (taken_by b.old self.old guards.now) (values_by b.old self.old args.now)
            (parts_in b.old self.old)) }
        ensures extends { Extends b.old b.new }
    {
        let on = self.all_taken(b, pipe, bits, guards)?;
        let nets = self.values(alloc, b, pipe, args)?;
        let wrong = differ(b, bits, nets.as_slice(), self.guess.as_slice())?;
        let fails = self.fail(b, pipe, bits, on, wrong)?;
        self.push_birth(fails, nets)
    }

    // The guess with these arguments in its place, where the guards are taken.
    fn replaced(
        &self,
        alloc: Global,
        b: &mut Builder,
        pipe: &FlatPipe,
        bits: Bits,
        guards: &[FlatGuard],
        args: &[FlatExpr],
    ) -> Result<Seq<Net>, NoMemory>
        requires walk { IsWalkOf (form pipe.now) b.old self.now }
        requires bits { AreBits b.old bits }
        requires guards { AreGuards (form pipe.now).widths (guards_view guards.now) }
        requires typed { AreArguments (form pipe.now).widths (param_widths (form pipe.now))
            (exprs_view args.now) }
        ensures there { IfOk result (λ zs. NetsThere b.new zs) }
        ensures means { IfOk result (λ zs. signals_in b.new zs
            ≡ choices (taken_by b.old self.now guards.now) (values_by b.old self.now args.now)
            (signals_in b.old self.now.guess)) }
        ensures wide { IfOk result (λ zs. widths_of (signals_in b.new zs)
            ≡ param_widths (form pipe.now)) }
        ensures extends { Extends b.old b.new }
    {
        let on = self.all_taken(b, pipe, bits, guards)?;
        let nets = self.values(alloc, b, pipe, args)?;
        let guess = choose(alloc, b, on, nets.as_slice(), self.guess.as_slice())?;
        Ok(guess)
    }

    // An update: as a verify, but where its guards are taken its arguments become the guess.
    fn update(
        &mut self,
        alloc: Global,
        b: &mut Builder,
        pipe: &FlatPipe,
        bits: Bits,
        guards: &[FlatGuard],
        args: &[FlatExpr],
    ) -> Result<(), NoMemory>
        requires walk { IsWalkOf (form pipe.now) b.old self.old }
        requires bits { AreBits b.old bits }
        requires guards { AreGuards (form pipe.now).widths (guards_view guards.now) }
        requires typed { AreArguments (form pipe.now).widths (param_widths (form pipe.now))
            (exprs_view args.now) }
        ensures walk { OnOk result (IsWalkOf (form pipe.now) b.new self.new) }
        ensures parts { OnOk result (parts_in b.new self.new
            ≡ with_update (taken_by b.old self.old guards.now) (values_by b.old self.old args.now)
            (parts_in b.old self.old)) }
        ensures extends { Extends b.old b.new }
    {
        let guess = self.replaced(alloc, b, pipe, bits, guards, args)?;
        self.verify(alloc, b, pipe, bits, guards, args)?;
        self.put_guess(guess);
        Ok(())
    }

    /// A verify, or where it isn't the last one an update.
    pub(crate) fn compare(
        &mut self,
        alloc: Global,
        b: &mut Builder,
        pipe: &FlatPipe,
        bits: Bits,
        guards: &[FlatGuard],
        last: bool,
        args: &[FlatExpr],
    ) -> Result<(), NoMemory>
        requires walk { IsWalkOf (form pipe.now) b.old self.old }
        requires bits { AreBits b.old bits }
        requires guards { AreGuards (form pipe.now).widths (guards_view guards.now) }
        requires typed { AreArguments (form pipe.now).widths (param_widths (form pipe.now))
            (exprs_view args.now) }
        ensures walk { OnOk result (IsWalkOf (form pipe.now) b.new self.new) }
        ensures parts { OnOk result (parts_in b.new self.new
            ≡ with_compare last (taken_by b.old self.old guards.now)
            (values_by b.old self.old args.now) (parts_in b.old self.old)) }
        ensures extends { Extends b.old b.new }
    {
        if last {
            self.verify(alloc, b, pipe, bits, guards, args)
        } else {
            self.update(alloc, b, pipe, bits, guards, args)
        }
    }

    /// A barrier, where its guards are taken.
    pub(crate) fn spec_barrier(
        &mut self,
        b: &mut Builder,
        pipe: &FlatPipe,
        bits: Bits,
        guards: &[FlatGuard],
    ) -> Result<(), NoMemory>
        requires walk { IsWalkOf (form pipe.now) b.old self.old }
        requires bits { AreBits b.old bits }
        requires guards { AreGuards (form pipe.now).widths (guards_view guards.now) }
        ensures walk { OnOk result (IsWalkOf (form pipe.now) b.new self.new) }
        ensures parts { OnOk result (parts_in b.new self.new
            ≡ with_barrier (taken_by b.old self.old guards.now) (parts_in b.old self.old)) }
        ensures extends { Extends b.old b.new }
    {
        let on = self.all_taken(b, pipe, bits, guards)?;
        let barrier = b.mux(on, bits.one, self.barrier)?;
        self.barrier = barrier;
        Ok(())
    }
}
