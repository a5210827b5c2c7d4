// The tickets of the locks.
ghost use Rattle.std.specs.Prelude.{◌≡◌, ℕ, List, ◌<◌, ◌≤◌, IfOk, OnOk, false, length, map};
ghost use Rattle.pdl_form.specs.FormView.{form};
ghost use Rattle.pdl_net.specs.Signal.{Signal};
ghost use Rattle.pdl_net.specs.Meaning.{IsThere, signal};
ghost use Rattle.pdl_net.specs.Growth.{Extends};
ghost use Rattle.pdl_pipe_exprs.specs.Nets.{signals_in, signal_at, widths_of};
ghost use Rattle.pdl_pipe_lives.specs.Needs.{goes_with};
ghost use Rattle.pdl_law_parts.specs.Views.{View};
ghost use Rattle.pdl_pipe_registers.specs.declared.nets.Item.TheVariants.{Ticket};
ghost use Rattle.pdl_pipe_registers.specs.Stages.{end_of, IsFrame, IsSettled, AreOwn};
ghost use Rattle.pdl_pipe_registers.specs.Begun.{ticket_net, IsShared, IsLonger, MayBegin, AreBegun, AreNextTickets};

use crate::nets::{Item, Shared, StageRegs};
use pdl_build::Builder;
use pdl_form::FlatPipe;
use pdl_kit::{NoMemory, Seq};
use pdl_net::Net;
use pdl_pipe_exprs::exprs::variable;
use pdl_pipe_lives::keeps_ticket;
use pdl_pipe_walk::MemLock;
use std::alloc::Global;

// The next ticket of a lock, `none` where there is none.
fn next_ticket<L>(lock: &Option<MemLock<L>>, none: Net) -> Net
    ensures { result ≡ ticket_net none lock.now }
{
    match lock {
        Some(x) => x.regs.ticket,
        None => none,
    }
}

/// The next ticket of each memory's lock, `none` where it has no lock.
pub fn next_tickets<L>(
    alloc: Global,
    locks: &[Option<MemLock<L>>],
    none: Net,
) -> Result<Seq<Net>, NoMemory>
    ensures { IfOk result (λ xs. xs ≡ map (ticket_net none) locks.now) }
{
    let mut nets = Seq::new(alloc);
    for lock in locks {
        nets.push(next_ticket(lock, none))?;
    }
    Ok(nets)
}

// The ticket of a memory's lock in a stage, of which `next` is the next one: that, where the thread has none of its own.
fn begin_ticket(
    b: &mut Builder,
    pipe: &FlatPipe,
    shared: &Shared<'_>,
    stage: usize,
    regs: &mut StageRegs,
    mem: usize,
    next: Net,
) -> Result<Net, NoMemory>
    requires shared { IsShared b.old (form pipe.now) shared.now }
    requires same { signal b.old next ≡ signal_at (signals_in b.old shared.now.next) mem }
    requires low { mem < length (form pipe.now).pipe.mems }
    requires reserves { length (form pipe.now).pipe.reserves_at ≡ length (form pipe.now).pipe.mems }
    requires releases { length (form pipe.now).pipe.releases_at ≡ length (form pipe.now).pipe.mems }
    requires next { IsThere b.old next }
    requires last { end_of regs.old ≡ length b.old.regs }
    ensures begins { (us : ℕ → View) → IfOk result (λ net.
        MayBegin b.new (form pipe.now) (signals_in b.old shared.now.next) stage
        (goes_with (form pipe.now).pipe stage mem) regs.old regs.new (Ticket mem) net
        (IsSettled (form pipe.now).pipe us stage (Ticket mem))) }
    ensures same { goes_with (form pipe.now).pipe stage mem ≡ false →
        IfOk result (λ net. signal b.new net ≡ signal b.old next) }
    ensures last { OnOk result (end_of regs.new ≡ length b.new.regs) }
    ensures extends { Extends b.old b.new }
{
    if keeps_ticket(pipe, stage, mem) {
        let width = b.width(next);
        regs.keep(b, Item::Ticket(mem), width, 0)
    } else {
        Ok(next)
    }
}

/// The tickets of all locks, as a stage begins.
pub(crate) fn begin_tickets(
    alloc: Global,
    b: &mut Builder,
    pipe: &FlatPipe,
    shared: &Shared<'_>,
    stage: usize,
    regs: &mut StageRegs,
) -> Result<Seq<Net>, NoMemory>
    requires shared { IsShared b.old (form pipe.now) shared.now }
    requires reserves { length (form pipe.now).pipe.reserves_at ≡ length (form pipe.now).pipe.mems }
    requires releases { length (form pipe.now).pipe.releases_at ≡ length (form pipe.now).pipe.mems }
    requires frame { IsFrame b.old (form pipe.now)
        (signals_in b.old shared.now.next) stage regs.old }
    requires own { AreOwn (form pipe.now) stage regs.old }
    ensures frame { OnOk result (IsFrame b.new (form pipe.now)
        (signals_in b.old shared.now.next) stage regs.new) }
    ensures own { OnOk result (AreOwn (form pipe.now) stage regs.new) }
    ensures longer { OnOk result (IsLonger regs.old regs.new) }
    ensures tickets { (us : ℕ → View) → IfOk result (λ xs. AreBegun b.new (form pipe.now)
        (signals_in b.old shared.now.next) regs.new Ticket (goes_with (form pipe.now).pipe stage)
        (λ m. IsSettled (form pipe.now).pipe us stage (Ticket m))
        (widths_of (signals_in b.old shared.now.next)) xs) }
    ensures same { IfOk result (λ xs. AreNextTickets b.new (form pipe.now).pipe
        (signals_in b.old shared.now.next) stage xs) }
    ensures extends { Extends b.old b.new }
{
    let mut nets = Seq::new(alloc);
    for m in 0..shared.next.len() {
        let next = variable(b, shared.next.as_slice(), m);
        let net = begin_ticket(b, pipe, shared, stage, regs, m, next)?;
        nets.push(net)?;
    }
    Ok(nets)
}
