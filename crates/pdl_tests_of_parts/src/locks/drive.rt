// Cycles of random proper use, in the circuit and in the lock that is written by hand.
use crate::drives::{ReserveDrive, WriteDrive};
use crate::locks::bench::Bench;
use crate::locks::board::Board;
use crate::locks::model::{ModelAct, ModelCommit, ModelLock, ModelPending, ModelWrite};
use pdl_net::Net;

/// Numbers that look random (Marsaglia's xorshift).
#[derive(Clone, Copy)]
pub struct Random {
    state: u64,
}

impl Random {
    /// Numbers that go on from a seed.
    pub fn new(seed: u64) -> Random {
        Random { state: seed | 1 }
    }

    fn next(&mut self) -> u64 {
        self.state ^= self.state << 13;
        self.state ^= self.state >> 7;
        self.state ^= self.state << 17;
        self.state
    }

    /// A number below this one, or 0.
    pub fn below(&mut self, limit: u64) -> u64 {
        let n = self.next();
        if limit == 0 { 0 } else { n % limit }
    }

    /// True once in so many times.
    pub fn once_in(&mut self, times: u64) -> bool {
        self.below(times) == 0
    }
}

/// How many addresses there are.
const DEPTH: u64 = 16;

/// A reservation, where one may be made.
fn reserved(random: &mut Random, room: bool) -> Option<u64> {
    if room && random.once_in(2) {
        Some(random.below(DEPTH) % 4)
    } else {
        None
    }
}

/// A write through one of so many tickets from this one on.
fn written(random: &mut Random, base: u64, count: u64) -> Option<ModelWrite> {
    let ticket = base.wrapping_add(random.below(count));
    let value = random.below(256);
    if count > 0 && random.once_in(2) {
        Some(ModelWrite { ticket, value })
    } else {
        None
    }
}

/// What a cycle may do first: up to two reservations where there is room, and writes through tickets that are pending then.
fn first_act(random: &mut Random, lock: &ModelLock) -> ModelAct {
    let reserve = reserved(random, lock.has_room());
    let room = if reserve.is_some() {
        lock.has_room2()
    } else {
        lock.has_room()
    };
    let reserve2 = reserved(random, room);
    let more = (reserve.is_some() as u64).wrapping_add(reserve2.is_some() as u64);
    let count = lock.count().wrapping_add(more);
    ModelAct {
        reserve,
        reserve2,
        write: written(random, lock.base(), count),
        write2: written(random, lock.base(), count),
        release: false,
        release2: false,
        tail: None,
    }
}

/// And then: releases of writes that have their values, and a squash from a ticket after them.
fn last_act(random: &mut Random, lock: &ModelLock, act: ModelAct) -> ModelAct {
    let release = lock.is_done(0) && random.once_in(2);
    let release2 = release && lock.is_done(1) && random.once_in(2);
    let released = (release as u64).wrapping_add(release2 as u64);
    let base = lock.base().wrapping_add(released);
    let span = lock.next().wrapping_sub(base).wrapping_add(1);
    let tail = if random.once_in(6) {
        Some(base.wrapping_add(random.below(span)))
    } else {
        None
    };
    ModelAct {
        reserve: act.reserve,
        reserve2: act.reserve2,
        write: act.write,
        write2: act.write2,
        release,
        release2,
        tail,
    }
}

/// Sets what drives a reservation.
fn set_reserve(board: &mut Board, d: ReserveDrive, reserve: Option<u64>) {
    board.set(d.enable, reserve.is_some() as u64);
    board.set(d.addr, reserve.unwrap_or(0));
}

/// Sets what drives a write.
fn set_write(board: &mut Board, d: WriteDrive, write: Option<ModelWrite>, tickets: u64) {
    let w = write.unwrap_or(ModelWrite {
        ticket: 0,
        value: 0,
    });
    board.set(d.enable, write.is_some() as u64);
    board.set(d.ticket, w.ticket & tickets);
    board.set(d.value, w.value);
}

/// Sets what drives the ports.
fn set_ports(board: &mut Board, bench: &Bench, act: ModelAct, tickets: u64) {
    let d = bench.lock.ports;
    set_reserve(board, d.reserve, act.reserve);
    set_reserve(board, d.reserve2, act.reserve2);
    set_write(board, d.write, act.write, tickets);
    set_write(board, d.write2, act.write2, tickets);
    board.set(d.end.release, act.release as u64);
    board.set(d.end.release2, act.release2 as u64);
    board.set(d.end.squash, act.tail.is_some() as u64);
    board.set(d.end.tail, act.tail.unwrap_or(0) & tickets);
}

/// Whether a look shows what the lock finds.
fn looks_agree(board: &Board, bench: &Bench, lock: &ModelLock, addr: u64, ticket: u64) -> bool {
    let net = &bench.netlist;
    let found = lock.find(addr, ticket);
    let word = board.show(net, bench.lock.read.value.unwrap_or(bench.lock.regs.room));
    let read = board.show(net, bench.lock.read.ready) == found.ready as u64;
    let value = !found.ready | (word == found.word);
    let write = board.show(net, bench.lock.write.ready) == lock.may_write(addr, ticket) as u64;
    read & value & write
}

/// Whether room and tickets are the lock's, for one reservation and for two.
fn rooms_agree(board: &Board, bench: &Bench, lock: &ModelLock, tickets: u64) -> bool {
    let net = &bench.netlist;
    let regs = &bench.lock.regs;
    let room = board.show(net, regs.room) == lock.has_room() as u64;
    let room2 = board.show(net, regs.room2) == lock.has_room2() as u64;
    let next = board.show(net, regs.ticket) == lock.next() & tickets;
    let after = board.show(net, regs.ticket2) == lock.next().wrapping_add(1) & tickets;
    room & room2 & next & after
}

/// Whether a commit port shows this commit, and zeros where there is none.
fn commit_agrees(
    board: &Board,
    bench: &Bench,
    nets: (Net, Net, Net),
    of: Option<ModelCommit>,
) -> bool {
    let net = &bench.netlist;
    let shown = of.unwrap_or(ModelCommit { addr: 0, value: 0 });
    let commit = board.show(net, nets.0) == of.is_some() as u64;
    let addr = board.show(net, nets.1) == shown.addr;
    commit & addr & (board.show(net, nets.2) == shown.value)
}

/// Whether both do.
fn commits_agree(
    board: &Board,
    bench: &Bench,
    of: (Option<ModelCommit>, Option<ModelCommit>),
) -> bool {
    let n = bench.lock.nets;
    let first = commit_agrees(board, bench, (n.commit, n.addr, n.value), of.0);
    first & commit_agrees(board, bench, (n.commit2, n.addr2, n.value2), of.1)
}

/// Whether the slot of a pending write has its address, and its value where slots have three registers.
fn slot_agrees(board: &Board, slot: &[usize], pending: ModelPending) -> bool {
    let addr = slot.len() > 0 && board.reg(slot[0]).0 == pending.addr;
    let value = match pending.value {
        Some(value) if slot.len() > 2 => board.reg(slot[1]).0 == value,
        _ => true,
    };
    addr & value
}

/// Whether each pending write stands in the slot of its ticket.
fn slots_agree(board: &Board, bench: &Bench, lock: &ModelLock) -> bool {
    let slots = bench.lock.regs.slots.as_slice();
    let mut at = lock.base();
    let mut agree = true;
    for p in lock.pending() {
        let k = at.checked_rem(lock.size()).unwrap_or(0) as usize;
        agree &= match slots.get(k) {
            Some(slot) => slot_agrees(board, slot.as_slice(), *p),
            None => false,
        };
        at = at.wrapping_add(1);
    }
    agree
}

/// Whether a cycle that begins with this next ticket has a reservation or a write of a ticket that slot k serves.
fn is_touched(act: ModelAct, next: u64, size: u64, k: u64) -> bool {
    let serves = |ticket: u64| ticket.checked_rem(size) == Some(k);
    let second = next.wrapping_add(act.reserve.is_some() as u64);
    let first = act.reserve.is_some() && serves(next);
    let write = match act.write {
        Some(w) => serves(w.ticket),
        None => false,
    };
    let write2 = match act.write2 {
        Some(w) => serves(w.ticket),
        None => false,
    };
    first | (act.reserve2.is_some() && serves(second)) | write | write2
}

/// Whether a slot's registers are as they were in the cycle before.
fn is_still(board: &Board, slot: &[usize]) -> bool {
    let mut still = true;
    for r in slot {
        let (now, before) = board.reg(*r);
        still &= now == before;
    }
    still
}

/// Whether all slots that a cycle doesn't touch stay as they were.
fn slots_stay(board: &Board, bench: &Bench, act: ModelAct, next: u64, size: u64) -> bool {
    let mut stay = true;
    let mut k = 0;
    for slot in bench.lock.regs.slots.as_slice() {
        stay &= is_touched(act, next, size, k) || is_still(board, slot.as_slice());
        k = k.wrapping_add(1);
    }
    stay
}

/// One cycle in both; whether they agree.
fn agree_once(
    board: &mut Board,
    bench: &Bench,
    lock: &mut ModelLock,
    random: &mut Random,
    tickets: u64,
) -> bool {
    let late = (lock.size() > 1) as u64;
    let span = lock.count().wrapping_add(1).wrapping_add(late);
    let ticket = lock.base().wrapping_add(random.below(span));
    let addr = random.below(DEPTH) % 4;
    let first = first_act(random, lock);
    board.set(bench.lock.looks.addr, addr);
    board.set(bench.lock.looks.ticket, ticket & tickets);
    board.settle(&bench.netlist);
    let looks = looks_agree(board, bench, lock, addr, ticket);
    let rooms = rooms_agree(board, bench, lock, tickets);
    let next = lock.next();
    lock.fill(first);
    let act = last_act(random, lock, first);
    set_ports(board, bench, act, tickets);
    board.settle(&bench.netlist);
    let commits = commits_agree(board, bench, lock.leave(act));
    board.step(&bench.netlist);
    let slots = slots_agree(board, bench, lock);
    looks & rooms & commits & slots & slots_stay(board, bench, act, next, lock.size())
}

/// How many of 200 cycles agree.
pub fn agreed(board: &mut Board, bench: &Bench, lock: &mut ModelLock, tickets: u64) -> u32 {
    let mut random = Random::new(2463534242);
    let mut count: u32 = 0;
    for _ in 0..200u32 {
        if agree_once(board, bench, lock, &mut random, tickets) {
            count = count.wrapping_add(1);
        }
    }
    count
}
