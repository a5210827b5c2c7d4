// All stages of a pipe, one after the other.
ghost use Rattle.std.specs.Prelude.{◌≡◌, ◌<◌, ◌≤◌, ◌++◌, ◌∷◌, [], IfOk, OnOk, length, map};
ghost use Rattle.pdl_form.specs.FormView.{form};
ghost use Rattle.pdl_net.specs.Growth.{Extends};
ghost use Rattle.pdl_pipe_exprs.specs.Nets.{NetsThere, signals_in};
ghost use Rattle.pdl_form_types.specs.Stmts.{IsTypedForm, AreWidths};
ghost use Rattle.pdl_pipe_walk.specs.Locked.{members, AreLocked, locks_in};
ghost use Rattle.pdl_pipe_walk.specs.Setting.{TellsTwice};
ghost use Rattle.pdl_pipe_walk.specs.Sized.{AreWalked};
ghost use Rattle.pdl_pipe_lives.specs.Needs.{AreNeeds};
ghost use Rattle.pdl_pipe_answers.specs.Ports.{answers_in};
ghost use Rattle.pdl_pipe_registers.specs.Stages.{zero_signal, end_of};
ghost use Rattle.pdl_pipe_registers.specs.Begun.{IsShared, AreEnded};
ghost use Rattle.pdl_pipe_registers.specs.Staged.{IsStaged, AreStaged, AreApart, next_signals};

use crate::entry::begin;
use crate::nets::{Earlier, Shared, StageNets};
use crate::ways::ways_into;
use pdl_build::Builder;
use pdl_form::FlatPipe;
use pdl_kit::{NoMemory, Seq};
use pdl_lockapi::LockModule;
use pdl_net::Net;
use pdl_pipe_lives::Needs;
use pdl_pipe_walk::{MemLock, Setting};
use std::alloc::Global;

/// A zero of the width of each variable.
pub fn zeros(alloc: Global, b: &mut Builder, pipe: &FlatPipe) -> Result<Seq<Net>, NoMemory>
    requires wide { AreWidths (form pipe.now).widths }
    ensures there { IfOk result (λ xs. NetsThere b.new xs) }
    ensures means { IfOk result (λ xs.
        signals_in b.new xs ≡ map zero_signal (form pipe.now).widths) }
    ensures extends { Extends b.old b.new }
{
    let mut nets = Seq::new(alloc);
    for x in 0..pipe.vars() {
        let net = b.constant(pipe.width(x), 0)?;
        nets.push(net)?;
    }
    Ok(nets)
}

// A stage after those before it, with its statements.
fn lay_stage<L: LockModule>(
    alloc: Global,
    b: &mut Builder,
    pipe: &FlatPipe,
    shared: &Shared<'_>,
    locks: &[Option<MemLock<L>>],
    twice: &[bool],
    needs: &Needs,
    before: &[StageNets],
) -> Result<StageNets, NoMemory>
    requires typed { IsTypedForm (form pipe.now) }
    requires walked { AreWalked (form pipe.now) (form pipe.now).pipe.stmts }
    requires shared { IsShared b.old (form pipe.now) shared.now }
    requires locks { AreLocked (members L.LockModule) b.old (form pipe.now).pipe locks.now }
    requires twice { TellsTwice (form pipe.now) twice.now }
    requires next { signals_in b.old shared.now.next ≡ next_signals b.old locks.now }
    requires needs { AreNeeds (form pipe.now) needs.now }
    requires before { AreEnded b.old (form pipe.now) (signals_in b.old shared.now.next) before.now }
    requires stage { length before.now < length (form pipe.now).pipe.stages }
    requires reserves { length (form pipe.now).pipe.reserves_at ≡ length (form pipe.now).pipe.mems }
    requires releases { length (form pipe.now).pipe.releases_at ≡ length (form pipe.now).pipe.mems }
    ensures staged { IfOk result (λ s.
        IsStaged b.new (form pipe.now) (signals_in b.old shared.now.next)
        (answers_in b.old shared.now.ports.now)
        (locks_in (members L.LockModule) (form pipe.now).pipe b.old locks.now) before.now
        (length before.now) s) }
    ensures place { IfOk result (λ s. s.regs.valid ≡ length b.old.regs) }
    ensures last { IfOk result (λ s. end_of s.regs ≤ length b.new.regs) }
    ensures extends { Extends b.old b.new }
{
    let ways = ways_into(alloc, pipe, before.len())?;
    let earlier = Earlier {
        stages: before,
        ways: ways.as_slice(),
        needs,
    };
    let mut s = begin(alloc, b, pipe, shared, &earlier)?;
    let tickets = s.tickets.as_slice();
    let setting = Setting {
        pipe,
        bits: shared.bits,
        locks,
        twice,
        tickets,
    };
    s.end.walk(alloc, b, &setting, before.len())?;
    Ok(s)
}

// Adds an item.
fn append<T: Drop>(items: &mut Vec<T>, item: T) -> Result<(), NoMemory>
    ensures { OnOk result (items.new.items ≡ items.old.items ++ item ∷ []) }
{
    items.push(item)?;
    Ok(())
}

/// The stages of a pipe, one after the other, round these locks and what they share, where `twice` says of each memory whether some path reserves it twice to write.
pub fn lay_stages<L: LockModule>(
    alloc: Global,
    b: &mut Builder,
    pipe: &FlatPipe,
    shared: &Shared<'_>,
    locks: &[Option<MemLock<L>>],
    twice: &[bool],
) -> Result<Vec<StageNets>, NoMemory>
    requires typed { IsTypedForm (form pipe.now) }
    requires walked { AreWalked (form pipe.now) (form pipe.now).pipe.stmts }
    requires shared { IsShared b.old (form pipe.now) shared.now }
    requires locks { AreLocked (members L.LockModule) b.old (form pipe.now).pipe locks.now }
    requires twice { TellsTwice (form pipe.now) twice.now }
    requires next { signals_in b.old shared.now.next ≡ next_signals b.old locks.now }
    requires reserves { length (form pipe.now).pipe.reserves_at ≡ length (form pipe.now).pipe.mems }
    requires releases { length (form pipe.now).pipe.releases_at ≡ length (form pipe.now).pipe.mems }
    ensures count { IfOk result (λ ss. length ss.items ≡ length (form pipe.now).pipe.stages) }
    ensures staged { IfOk result (λ ss.
        AreStaged b.new (form pipe.now) (next_signals b.old locks.now)
        (answers_in b.old shared.now.ports.now)
        (locks_in (members L.LockModule) (form pipe.now).pipe b.old locks.now) ss.items) }
    ensures apart { IfOk result (λ ss. AreApart (length b.old.regs) (length b.new.regs) ss.items) }
    ensures extends { Extends b.old b.new }
{
    let needs = Needs::new(alloc, pipe)?;
    let mut stages = Vec::new(alloc);
    let line = pipe.stages();
    for _ in 0..line.len() {
        let s = lay_stage(
            alloc,
            b,
            pipe,
            shared,
            locks,
            twice,
            &needs,
            stages.as_slice(),
        )?;
        append(&mut stages, s)?;
    }
    Ok(stages)
}
