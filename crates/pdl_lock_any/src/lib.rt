//! A lock of any of the three kinds, chosen when a pipe is compiled, and proper use of a lock told by its history: what the cycles so far did to it.
//!
//! The layers above may use `AnyLock` by the laws of `LockModule` alone, and the lemmas `Asked`, that the lock which a memory asks for serves it. `history` does nothing: its clauses are laws of the definitions of proper use.
#![tactic(auto)]

ghost use Rattle.pdl_lock_any.specs.Any.{any_kind, any_size, any_tickets, any_suits, any_placed, any_stands, any_stays};
ghost use Rattle.pdl_lock_any.specs.Laws.{IsProperByState, IsCoveredByState, ArePending, DropsLater};

use pdl_build::Builder;
use pdl_bypass::BypassLock;
use pdl_kit::{MemInfo, NoMemory};
use pdl_lockapi::{Kind, LockModule, LockNets, LockPorts, LockRegs, LookNets};
use pdl_net::Net;
use pdl_queue::QueueLock;
use pdl_rename::RenameFile;
use std::alloc::Global;

/// One of the three kinds.
#[derive(Clone, Copy)]
pub enum AnyLock {
    Queue(QueueLock),
    Bypass(BypassLock),
    Rename(RenameFile),
}

impl LockModule for AnyLock {
    ghost kind_of = { any_kind };

    ghost size = { any_size };

    ghost tickets = { any_tickets };

    ghost suits = { any_suits };

    ghost placed = { any_placed };

    ghost stands = { any_stands };

    fn ticket_width(&self) -> u8 {
        match self {
            AnyLock::Queue(lock) => lock.ticket_width(),
            AnyLock::Bypass(lock) => lock.ticket_width(),
            AnyLock::Rename(lock) => lock.ticket_width(),
        }
    }

    fn emit_state(
        &self,
        alloc: Global,
        b: &mut Builder,
        mem: &MemInfo,
    ) -> Result<LockRegs, NoMemory> {
        match self {
            AnyLock::Queue(lock) => lock.emit_state(alloc, b, mem),
            AnyLock::Bypass(lock) => lock.emit_state(alloc, b, mem),
            AnyLock::Rename(lock) => lock.emit_state(alloc, b, mem),
        }
    }

    fn emit_look(
        &self,
        b: &mut Builder,
        r: &LockRegs,
        kind: Kind,
        addr: Net,
        ticket: Net,
    ) -> Result<LookNets, NoMemory> {
        match self {
            AnyLock::Queue(lock) => lock.emit_look(b, r, kind, addr, ticket),
            AnyLock::Bypass(lock) => lock.emit_look(b, r, kind, addr, ticket),
            AnyLock::Rename(lock) => lock.emit_look(b, r, kind, addr, ticket),
        }
    }

    fn emit_step(
        &self,
        b: &mut Builder,
        r: &LockRegs,
        p: &LockPorts,
    ) -> Result<LockNets, NoMemory> {
        match self {
            AnyLock::Queue(lock) => lock.emit_step(b, r, p),
            AnyLock::Bypass(lock) => lock.emit_step(b, r, p),
            AnyLock::Rename(lock) => lock.emit_step(b, r, p),
        }
    }

    ghost stays = { any_stays };
}

/// Where each cycle was proper use by what came before it, each is one by the lock's state, a look with a ticket that still stands is covered, and each squash drops what was reserved after its cycle.
pub fn history()
    ensures proper { IsProperByState }
    ensures covered { IsCoveredByState }
    ensures pending { ArePending }
    ensures squash { DropsLater }
{}
