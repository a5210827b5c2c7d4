// The statements of a stage, one after another.
ghost use Rattle.std.specs.Prelude.{◌≡◌, ◌==◌, ◌<◌, ◌≤◌, ◌^◌, ◌++◌, ◌∷◌, [], true, false, IfOk, OnOk, length, map, slice_index};
ghost use Rattle.pdl_semantics.specs.Flat.{is_delayed};
ghost use Rattle.pdl_semantics.specs.Stages.{mem_at, in_stage};
ghost use Rattle.pdl_form.specs.FormView.{form};
ghost use Rattle.pdl_form.specs.Form.{stmt_at};
ghost use Rattle.pdl_form.specs.View.{guards_view, stmt_view, stmts_view, expr_view, exprs_view};
ghost use Rattle.pdl_net.specs.Meaning.{signal};
ghost use Rattle.pdl_net.specs.HasWidth.{HasWidth};
ghost use Rattle.pdl_net.specs.Growth.{Extends};
ghost use Rattle.pdl_pipe_exprs.specs.Nets.{signals_in, signal_at};
ghost use Rattle.pdl_pipe_exprs.specs.Conditions.{AreBits};
ghost use Rattle.pdl_form_types.specs.Stmts.{AreGuards, IsLocation, AreArguments, param_widths};
ghost use Rattle.pdl_form_types.specs.Exprs.{width_in, IsTyped};
ghost use Rattle.pdl_law_parts.specs.declared.Mark.TheVariants.{Held};
ghost use Rattle.pdl_law_parts.specs.Walk.{is_locked, one, both};
ghost use Rattle.pdl_law_parts.specs.Rows.{IsUnlocked};
ghost use Rattle.pdl_pipe_walk.specs.Parts.{mark_of, parts_in, walk_in, taken_by, value_by, values_by};
ghost use Rattle.pdl_pipe_walk.specs.Locked.{members};
ghost use Rattle.pdl_pipe_walk.specs.Setting.{HasLocks, HasTickets, HasTwice, set_locks, set_tickets, AreSetSteps};
ghost use Rattle.pdl_pipe_walk.specs.Sized.{IsWalked, AreWalked, AreWalkedRows, IsWalkOf};
ghost use Rattle.pdl_pipe_walk.specs.Words.{IsLooked, IsRead, IsBlocked};
ghost use Rattle.pdl_pipe_walk.specs.Steps.{with_var, with_put, with_release, with_call, with_ask, with_advising, IsStep};

use crate::locks::{Setting, look_held, word};
use crate::nets::{AdvisingNet, AskNet, MarkNet, PutNet, WalkNets};
use pdl_build::Builder;
use pdl_form::{FlatExpr, FlatGuard, FlatPipe, FlatStmt, Op};
use pdl_kit::NoMemory;
use pdl_law_parts::Mark;
use pdl_lockapi::LockModule;
use pdl_net::Net;
use pdl_pipe_exprs::Bits;
use pdl_pipe_exprs::exprs::variable;
use std::alloc::Global;

// The statement of a number.
fn row(stmts: &[FlatStmt], i: usize) -> &FlatStmt
    requires { i < length stmts.now }
    ensures { stmt_view result.now ≡ stmt_at (stmts_view stmts.now) i }
{
    &stmts[i]
}

impl WalkNets {
    /// A binding: where its guards are taken a variable becomes the value.
    pub(crate) fn bind(
        &mut self,
        b: &mut Builder,
        pipe: &FlatPipe,
        bits: Bits,
        guards: &[FlatGuard],
        x: usize,
        e: &FlatExpr,
    ) -> Result<(), NoMemory>
        requires walk { IsWalkOf (form pipe.now) b.old self.old }
        requires bits { AreBits b.old bits }
        requires guards { AreGuards (form pipe.now).widths (guards_view guards.now) }
        requires low { x < length (form pipe.now).widths }
        requires typed { IsTyped (form pipe.now).widths (expr_view e.now) }
        requires wide { width_in (form pipe.now).widths (expr_view e.now)
            ≡ slice_index (form pipe.now).widths x }
        ensures walk { OnOk result (IsWalkOf (form pipe.now) b.new self.new) }
        ensures parts { OnOk result (parts_in b.new self.new
            ≡ with_var x (taken_by b.old self.old guards.now) (value_by b.old self.old e.now)
            (parts_in b.old self.old)) }
        ensures extends { Extends b.old b.new }
    {
        let on = self.all_taken(b, pipe, bits, guards)?;
        let net = self.value(b, pipe, e)?;
        self.set(b, pipe, bits, on, x, net)
    }

    /// A read: where its guards are taken a variable becomes the word.
    pub(crate) fn read<L: LockModule>(
        &mut self,
        b: &mut Builder,
        setting: &Setting<'_, L>,
        guards: &[FlatGuard],
        x: usize,
        m: usize,
        a: usize,
    ) -> Result<(), NoMemory>
        requires walk { IsWalkOf (form setting.now.pipe.now) b.old self.old }
        requires bits { AreBits b.old setting.now.bits }
        requires guards { AreGuards (form setting.now.pipe.now).widths (guards_view guards.now) }
        requires locks { HasLocks (members L.LockModule) b.old setting.now }
        requires tickets { HasTickets (members L.LockModule) b.old setting.now }
        requires low { x < length (form setting.now.pipe.now).widths }
        requires wide { slice_index (form setting.now.pipe.now).widths x
            ≡ (mem_at (form setting.now.pipe.now).pipe m).width }
        requires at { IsLocation (form setting.now.pipe.now).pipe
            (form setting.now.pipe.now).widths m a }
        requires at_once { is_delayed (mem_at (form setting.now.pipe.now).pipe m).kind ≡ false }
        ensures walk { OnOk result (IsWalkOf (form setting.now.pipe.now) b.new self.new) }
        ensures parts { OnOk result (IsRead (form setting.now.pipe.now).pipe
            (set_locks (members L.LockModule) b.old setting.now) (set_tickets b.old setting.now)
            (taken_by b.old self.old guards.now) x m a (parts_in b.old self.old)
            (parts_in b.new self.new)) }
        ensures extends { Extends b.old b.new }
    {
        let on = self.all_taken(b, setting.pipe, setting.bits, guards)?;
        let addr = self.variable(b, setting.pipe, a);
        let ticket = variable(b, setting.tickets, m);
        let net = word(b, setting, m, addr, ticket)?;
        self.set(b, setting.pipe, setting.bits, on, x, net)
    }

    /// A request of a delayed memory: where its guards are taken it asks for the word, which a variable becomes later.
    pub(crate) fn delayed_read<L: LockModule>(
        &mut self,
        b: &mut Builder,
        setting: &Setting<'_, L>,
        guards: &[FlatGuard],
        x: usize,
        m: usize,
        a: usize,
    ) -> Result<(), NoMemory>
        requires walk { IsWalkOf (form setting.now.pipe.now) b.old self.old }
        requires bits { AreBits b.old setting.now.bits }
        requires guards { AreGuards (form setting.now.pipe.now).widths (guards_view guards.now) }
        requires at { IsLocation (form setting.now.pipe.now).pipe
            (form setting.now.pipe.now).widths m a }
        ensures walk { OnOk result (IsWalkOf (form setting.now.pipe.now) b.new self.new) }
        ensures parts { OnOk result (parts_in b.new self.new
            ≡ with_ask m x a (taken_by b.old self.old guards.now) (parts_in b.old self.old)) }
        ensures extends { Extends b.old b.new }
    {
        let on = self.all_taken(b, setting.pipe, setting.bits, guards)?;
        let addr = self.variable(b, setting.pipe, a);
        self.push_ask(AskNet {
            mem: m,
            var: x,
            on,
            addr,
        })
    }

    /// A write.
    pub(crate) fn write<L: LockModule>(
        &mut self,
        b: &mut Builder,
        setting: &Setting<'_, L>,
        guards: &[FlatGuard],
        m: usize,
        a: usize,
        e: &FlatExpr,
    ) -> Result<(), NoMemory>
        requires walk { IsWalkOf (form setting.now.pipe.now) b.old self.old }
        requires bits { AreBits b.old setting.now.bits }
        requires guards { AreGuards (form setting.now.pipe.now).widths (guards_view guards.now) }
        requires low { m < length (form setting.now.pipe.now).pipe.mems }
        requires typed { IsTyped (form setting.now.pipe.now).widths (expr_view e.now) }
        requires wide { width_in (form setting.now.pipe.now).widths (expr_view e.now)
            ≡ (mem_at (form setting.now.pipe.now).pipe m).width }
        ensures walk { OnOk result (IsWalkOf (form setting.now.pipe.now) b.new self.new) }
        ensures parts { OnOk result (parts_in b.new self.new
            ≡ with_put m a (taken_by b.old self.old guards.now) (value_by b.old self.old e.now)
            (parts_in b.old self.old)) }
        ensures extends { Extends b.old b.new }
    {
        let on = self.all_taken(b, setting.pipe, setting.bits, guards)?;
        let value = self.value(b, setting.pipe, e)?;
        self.push_put(PutNet {
            mem: m,
            var: a,
            on,
            value,
        })
    }

    /// A write of an advisory memory.
    pub(crate) fn advise(
        &mut self,
        b: &mut Builder,
        pipe: &FlatPipe,
        bits: Bits,
        guards: &[FlatGuard],
        m: usize,
        a: usize,
        e: &FlatExpr,
    ) -> Result<(), NoMemory>
        requires walk { IsWalkOf (form pipe.now) b.old self.old }
        requires bits { AreBits b.old bits }
        requires guards { AreGuards (form pipe.now).widths (guards_view guards.now) }
        requires at { IsLocation (form pipe.now).pipe (form pipe.now).widths m a }
        requires unlocked { IsUnlocked (form pipe.now).pipe m }
        requires typed { IsTyped (form pipe.now).widths (expr_view e.now) }
        requires wide { width_in (form pipe.now).widths (expr_view e.now)
            ≡ (mem_at (form pipe.now).pipe m).width }
        ensures walk { OnOk result (IsWalkOf (form pipe.now) b.new self.new) }
        ensures parts { OnOk result (parts_in b.new self.new
            ≡ with_advising m a (taken_by b.old self.old guards.now)
            (value_by b.old self.old e.now) (parts_in b.old self.old)) }
        ensures extends { Extends b.old b.new }
    {
        let on = self.all_taken(b, pipe, bits, guards)?;
        let addr = self.variable(b, pipe, a);
        let value = self.value(b, pipe, e)?;
        self.push_advising(AdvisingNet {
            mem: m,
            on,
            addr,
            value,
        })
    }

    // Whether a location is ready for its block.
    fn look_ready<L: LockModule>(
        &self,
        b: &mut Builder,
        setting: &Setting<'_, L>,
        m: usize,
        a: usize,
    ) -> Result<Net, NoMemory>
        requires walk { IsWalkOf (form setting.now.pipe.now) b.old self.now }
        requires bits { AreBits b.old setting.now.bits }
        requires locks { HasLocks (members L.LockModule) b.old setting.now }
        requires tickets { HasTickets (members L.LockModule) b.old setting.now }
        requires at { IsLocation (form setting.now.pipe.now).pipe
            (form setting.now.pipe.now).widths m a }
        requires locked { is_locked (form setting.now.pipe.now).pipe m ≡ true }
        ensures bit { IfOk result (λ x. HasWidth b.new x 1) }
        ensures looked { IfOk result (λ x.
            IsLooked (set_locks (members L.LockModule) b.old setting.now) m
            (mark_of (parts_in b.old self.now).marks Held m a)
            (signal_at (signals_in b.old self.now.vars.items) a) (set_tickets b.old setting.now m)
            (signal b.new x)) }
        ensures extends { Extends b.old b.new }
    {
        let held = self.is_marked(b, setting.bits, Mark::Held, m, a);
        let addr = self.variable(b, setting.pipe, a);
        let ticket = variable(b, setting.tickets, m);
        look_held(b, setting, m, held, addr, ticket)
    }

    /// A block: it waits until a look at its location is ready.
    pub(crate) fn block<L: LockModule>(
        &mut self,
        b: &mut Builder,
        setting: &Setting<'_, L>,
        guards: &[FlatGuard],
        m: usize,
        a: usize,
    ) -> Result<(), NoMemory>
        requires walk { IsWalkOf (form setting.now.pipe.now) b.old self.old }
        requires bits { AreBits b.old setting.now.bits }
        requires guards { AreGuards (form setting.now.pipe.now).widths (guards_view guards.now) }
        requires locks { HasLocks (members L.LockModule) b.old setting.now }
        requires tickets { HasTickets (members L.LockModule) b.old setting.now }
        requires at { IsLocation (form setting.now.pipe.now).pipe
            (form setting.now.pipe.now).widths m a }
        requires locked { is_locked (form setting.now.pipe.now).pipe m ≡ true }
        ensures walk { OnOk result (IsWalkOf (form setting.now.pipe.now) b.new self.new) }
        ensures parts { OnOk result (IsBlocked (set_locks (members L.LockModule) b.old setting.now)
            (set_tickets b.old setting.now) (taken_by b.old self.old guards.now) m a
            (parts_in b.old self.old) (parts_in b.new self.new)) }
        ensures extends { Extends b.old b.new }
    {
        let on = self.all_taken(b, setting.pipe, setting.bits, guards)?;
        let ready = self.look_ready(b, setting, m, a)?;
        self.wait(b, setting.pipe, setting.bits, on, ready)
    }

    /// A release.
    pub(crate) fn release(
        &mut self,
        b: &mut Builder,
        pipe: &FlatPipe,
        bits: Bits,
        guards: &[FlatGuard],
        m: usize,
        a: usize,
    ) -> Result<(), NoMemory>
        requires walk { IsWalkOf (form pipe.now) b.old self.old }
        requires bits { AreBits b.old bits }
        requires guards { AreGuards (form pipe.now).widths (guards_view guards.now) }
        ensures walk { OnOk result (IsWalkOf (form pipe.now) b.new self.new) }
        ensures parts { OnOk result (parts_in b.new self.new
            ≡ with_release m a (taken_by b.old self.old guards.now) (parts_in b.old self.old)) }
        ensures extends { Extends b.old b.new }
    {
        let on = self.all_taken(b, pipe, bits, guards)?;
        let held = self.is_marked(b, bits, Mark::Held, m, a);
        let lets = bits.both(b, on, held)?;
        let let_go = MarkNet {
            mark: Mark::Held,
            mem: m,
            var: a,
            net: bits.zero,
        };
        self.set_mark(b, pipe, bits, on, let_go)?;
        self.push_letting(m, lets)
    }

    /// A call.
    pub(crate) fn call(
        &mut self,
        alloc: Global,
        b: &mut Builder,
        pipe: &FlatPipe,
        bits: Bits,
        guards: &[FlatGuard],
        args: &[FlatExpr],
    ) -> Result<(), NoMemory>
        requires walk { IsWalkOf (form pipe.now) b.old self.old }
        requires bits { AreBits b.old bits }
        requires guards { AreGuards (form pipe.now).widths (guards_view guards.now) }
        requires typed { AreArguments (form pipe.now).widths (param_widths (form pipe.now))
            (exprs_view args.now) }
        ensures walk { OnOk result (IsWalkOf (form pipe.now) b.new self.new) }
        ensures parts { OnOk result (parts_in b.new self.new
            ≡ with_call (taken_by b.old self.old guards.now) (values_by b.old self.old args.now)
            (parts_in b.old self.old)) }
        ensures extends { Extends b.old b.new }
    {
        let on = self.all_taken(b, pipe, bits, guards)?;
        let nets = self.values(alloc, b, pipe, args)?;
        self.push_birth(on, nets)
    }

    /// A statement.
    pub(crate) fn statement<L: LockModule>(
        &mut self,
        alloc: Global,
        b: &mut Builder,
        setting: &Setting<'_, L>,
        s: &FlatStmt,
    ) -> Result<(), NoMemory>
        requires walk { IsWalkOf (form setting.now.pipe.now) b.old self.old }
        requires bits { AreBits b.old setting.now.bits }
        requires locks { HasLocks (members L.LockModule) b.old setting.now }
        requires tickets { HasTickets (members L.LockModule) b.old setting.now }
        requires twice { HasTwice setting.now }
        requires typed { IsWalked (form setting.now.pipe.now) (stmt_view s.now) }
        ensures walk { OnOk result (IsWalkOf (form setting.now.pipe.now) b.new self.new) }
        ensures step { OnOk result (IsStep b.new (form setting.now.pipe.now).pipe
            (set_locks (members L.LockModule) b.old setting.now) (set_tickets b.old setting.now)
            (stmt_view s.now).guards (stmt_view s.now).op (walk_in b.old self.old)
            (walk_in b.new self.new)) }
        ensures extends { Extends b.old b.new }
    {
        let guards = s.guards.as_slice();
        let pipe = setting.pipe;
        let bits = setting.bits;
        match &s.op {
            Op::Bind { x, e } => self.bind(b, pipe, bits, guards, *x, e),
            Op::CombRead { x, m, a } => self.read(b, setting, guards, *x, *m, *a),
            Op::Write { m, a, e } => self.write(b, setting, guards, *m, *a, e),
            Op::ReserveRead { .. } => Ok(()),
            Op::ReserveWrite { m, a } => self.reserve(b, setting, guards, *m, *a),
            Op::Block { m, a } => self.block(b, setting, guards, *m, *a),
            Op::Release { m, a } => self.release(b, pipe, bits, guards, *m, *a),
            Op::Call(args) => self.call(alloc, b, pipe, bits, guards, args.as_slice()),
            Op::DelayedRead { x, m, a } => self.delayed_read(b, setting, guards, *x, *m, *a),
            Op::SpecCall(args) => self.spec_call(alloc, b, pipe, bits, guards, args.as_slice()),
            Op::Verify { last, args } => {
                self.compare(alloc, b, pipe, bits, guards, *last, args.as_slice())
            }
            Op::SpecCheck => Ok(()),
            Op::SpecBarrier => self.spec_barrier(b, pipe, bits, guards),
            Op::AdviceBind { x, e } => self.bind(b, pipe, bits, guards, *x, e),
            Op::AdviceRead { x, m, a } => self.read(b, setting, guards, *x, *m, *a),
            Op::AdviceWrite { m, a, e } => self.advise(b, pipe, bits, guards, *m, *a, e),
        }
    }

    // The statements of these numbers.
    fn walk_rows<L: LockModule>(
        &mut self,
        alloc: Global,
        b: &mut Builder,
        setting: &Setting<'_, L>,
        stmts: &[FlatStmt],
        rows: &[usize],
    ) -> Result<(), NoMemory>
        requires walk { IsWalkOf (form setting.now.pipe.now) b.old self.old }
        requires bits { AreBits b.old setting.now.bits }
        requires locks { HasLocks (members L.LockModule) b.old setting.now }
        requires tickets { HasTickets (members L.LockModule) b.old setting.now }
        requires twice { HasTwice setting.now }
        requires typed { AreWalkedRows (form setting.now.pipe.now) (stmts_view stmts.now) rows.now }
        ensures walk { OnOk result (IsWalkOf (form setting.now.pipe.now) b.new self.new) }
        ensures steps { OnOk result (AreSetSteps (members L.LockModule) setting.now
            (map (stmt_at (stmts_view stmts.now)) rows.now) b.old self.old b.new self.new) }
        ensures extends { Extends b.old b.new }
    {
        for i in rows {
            let s = row(stmts, *i);
            self.statement(alloc, b, setting, s)?;
        }
        Ok(())
    }

    /// The statements of a stage, one after another.
    ///
    /// Where memory runs out, cells may have been added, and every earlier net means what it meant.
    pub fn walk<L: LockModule>(
        &mut self,
        alloc: Global,
        b: &mut Builder,
        setting: &Setting<'_, L>,
        stage: usize,
    ) -> Result<(), NoMemory>
        requires walk { IsWalkOf (form setting.now.pipe.now) b.old self.old }
        requires bits { AreBits b.old setting.now.bits }
        requires locks { HasLocks (members L.LockModule) b.old setting.now }
        requires tickets { HasTickets (members L.LockModule) b.old setting.now }
        requires twice { HasTwice setting.now }
        requires stage { stage < length (form setting.now.pipe.now).pipe.stages }
        requires typed { AreWalked (form setting.now.pipe.now)
            (form setting.now.pipe.now).pipe.stmts }
        ensures walk { OnOk result (IsWalkOf (form setting.now.pipe.now) b.new self.new) }
        ensures steps { OnOk result (AreSetSteps (members L.LockModule) setting.now
            (in_stage stage (form setting.now.pipe.now).pipe.stmts) b.old self.old b.new self.new) }
        ensures extends { Extends b.old b.new }
    {
        let rows = setting.pipe.rows(stage);
        self.walk_rows(alloc, b, setting, setting.pipe.stmts(), rows)
    }
}
