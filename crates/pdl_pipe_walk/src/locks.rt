// Looks at the locks, and words of memories.
ghost use Rattle.std.specs.Prelude.{◌≡◌, ◌^◌, ◌<◌, ◌≤◌, true, false, not, Some, IfOk, length, count_by, is_some, option_map};
ghost use Rattle.pdl_form.specs.FormView.{form};
ghost use Rattle.pdl_semantics.specs.Flat.{is_delayed};
ghost use Rattle.pdl_semantics.specs.Stages.{mem_at};
ghost use Rattle.pdl_syntax_tree.specs.View.{mem_kind_view};
ghost use Rattle.pdl_net.specs.Meaning.{IsThere, Means, signal};
ghost use Rattle.pdl_net.specs.HasWidth.{HasWidth};
ghost use Rattle.pdl_net.specs.Growth.{Extends};
ghost use Rattle.pdl_lockapi.specs.declared.Kind.TheVariants as look_kind;
ghost use Rattle.pdl_lockapi.specs.Laws.{HasValueNet};
ghost use Rattle.pdl_pipe_exprs.specs.Nets.{signals_in, signal_at};
ghost use Rattle.pdl_pipe_exprs.specs.Conditions.{AreBits};
ghost use Rattle.pdl_law_parts.specs.Walk.{is_locked};
ghost use Rattle.pdl_law_parts.specs.Places.{comb_place};
ghost use Rattle.pdl_pipe_walk.specs.Locked.{members, some_at, room_net, room2_net};
ghost use Rattle.pdl_pipe_walk.specs.Setting.{HasLocks, set_locks};
ghost use Rattle.pdl_pipe_walk.specs.Words.{IsLookOf, IsWordSignal, IsLooked};

use pdl_build::Builder;
use pdl_form::{FlatMem, FlatPipe};
use pdl_kit::NoMemory;
use pdl_lockapi::{Kind, LockModule, LockRegs, LookNets};
use pdl_net::Net;
use pdl_pipe_exprs::{Bits, are_same};

/// The lock of a memory: what makes it, and its part of the circuit.
#[derive(Drop)]
pub struct MemLock<L> {
    pub lock: L,
    pub regs: LockRegs,
}

/// What the statements of a stage are made nets in: the pipe, the constant bits, the locks of the memories, whether some path reserves each twice to write, and a ticket for each.
#[derive(Drop)]
pub struct Setting<'a, L> {
    pub pipe: &'a FlatPipe,
    pub bits: Bits,
    pub locks: &'a [Option<MemLock<L>>],
    pub twice: &'a [bool],
    pub tickets: &'a [Net],
}

// The lock of a memory that has one.
fn lock_of<L>(locks: &[Option<MemLock<L>>], m: usize) -> &MemLock<L>
    requires low { m < length locks.now }
    requires some { is_some (some_at locks.now m) ≡ true }
    ensures { some_at locks.now m ≡ Some result.now }
{
    match &locks[m] {
        Some(x) => x,
        None => unreachable!(),
    }
}

// Whether a memory has a lock.
fn has_lock<L>(locks: &[Option<MemLock<L>>], m: usize) -> bool
    requires { m < length locks.now }
    ensures { result ≡ is_some (some_at locks.now m) }
{
    locks[m].is_some()
}

// The value of a look.
fn value_of(look: LookNets) -> Net
    requires { is_some look.value ≡ true }
    ensures { look.value ≡ Some result }
{
    match look.value {
        Some(x) => x,
        None => unreachable!(),
    }
}

// How many memories answer at once.
fn count_at_once(mems: &[FlatMem]) -> usize
    ensures { result ≡ count_by (λ (x : FlatMem). not (is_delayed (mem_kind_view x.kind))) mems.now }
{
    mems.iter().filter(|mem| !mem.kind.is_delayed()).count()
}

/// The number of a memory's array: memories that answer at once have theirs in order.
pub fn array_of(pipe: &FlatPipe, m: usize) -> usize
    requires { m ≤ length (form pipe.now).pipe.mems }
    ensures { result ≡ comb_place (form pipe.now).pipe m }
{
    count_at_once(&pipe.mems()[..m])
}

/// A look through the lock of a memory, at an address with a ticket.
pub(crate) fn look<L: LockModule>(
    b: &mut Builder,
    setting: &Setting<'_, L>,
    m: usize,
    kind: Kind,
    addr: Net,
    ticket: Net,
) -> Result<LookNets, NoMemory>
    requires locks { HasLocks (members L.LockModule) b.old setting.now }
    requires low { m < length (form setting.now.pipe.now).pipe.mems }
    requires locked { is_locked (form setting.now.pipe.now).pipe m ≡ true }
    requires addr_there { IsThere b.old addr }
    requires addr_reach { 2 ^ (signal b.old addr).width
        ≡ (mem_at (form setting.now.pipe.now).pipe m).depth }
    requires ticket { HasWidth b.old ticket
        ((set_locks (members L.LockModule) b.old setting.now).bits m) }
    ensures ready { IfOk result (λ l. HasWidth b.new l.ready 1) }
    ensures has_value { IfOk result (λ l.
        is_some l.value ≡ not (is_delayed (mem_at (form setting.now.pipe.now).pipe m).kind)) }
    ensures value { IfOk result (λ l.
        HasValueNet b.new (mem_at (form setting.now.pipe.now).pipe m).width l.value) }
    ensures law { IfOk result (λ l.
        IsLookOf (set_locks (members L.LockModule) b.old setting.now) m kind (signal b.old addr)
        (signal b.old ticket) (signal b.new l.ready) (option_map (signal b.new) l.value)) }
    ensures extends { Extends b.old b.new }
{
    let x = lock_of(setting.locks, m);
    x.lock.emit_look(b, &x.regs, kind, addr, ticket)
}

/// The word at an address of a memory that answers at once.
pub(crate) fn word<L: LockModule>(
    b: &mut Builder,
    setting: &Setting<'_, L>,
    m: usize,
    addr: Net,
    ticket: Net,
) -> Result<Net, NoMemory>
    requires locks { HasLocks (members L.LockModule) b.old setting.now }
    requires low { m < length (form setting.now.pipe.now).pipe.mems }
    requires at_once { is_delayed (mem_at (form setting.now.pipe.now).pipe m).kind ≡ false }
    requires addr_there { IsThere b.old addr }
    requires addr_reach { 2 ^ (signal b.old addr).width
        ≡ (mem_at (form setting.now.pipe.now).pipe m).depth }
    requires ticket_there { IsThere b.old ticket }
    requires ticket_wide { is_locked (form setting.now.pipe.now).pipe m ≡ true →
        (signal b.old ticket).width ≡ (set_locks (members L.LockModule) b.old setting.now).bits m }
    ensures wide { IfOk result (λ x.
        HasWidth b.new x (mem_at (form setting.now.pipe.now).pipe m).width) }
    ensures word { IfOk result (λ x.
        IsWordSignal (form setting.now.pipe.now).pipe
        (set_locks (members L.LockModule) b.old setting.now) m (signal b.old addr)
        (signal b.old ticket) (signal b.new x)) }
    ensures extends { Extends b.old b.new }
{
    if has_lock(setting.locks, m) {
        let look = look(b, setting, m, Kind::R, addr, ticket)?;
        Ok(value_of(look))
    } else {
        let array = array_of(setting.pipe, m);
        b.read(array, addr)
    }
}

/// Whether a reservation for writing has room.
pub(crate) fn room<L: LockModule>(locks: &[Option<MemLock<L>>], m: usize) -> Net
    requires low { m < length locks.now }
    requires some { is_some (some_at locks.now m) ≡ true }
    ensures { result ≡ room_net (some_at locks.now m) }
{
    lock_of(locks, m).regs.room
}

/// Whether a second reservation for writing has room too.
pub(crate) fn room2<L: LockModule>(locks: &[Option<MemLock<L>>], m: usize) -> Net
    requires low { m < length locks.now }
    requires some { is_some (some_at locks.now m) ≡ true }
    ensures { result ≡ room2_net (some_at locks.now m) }
{
    lock_of(locks, m).regs.room2
}

/// Whether a look is ready, for writing where `held` is 1 and else for reading.
pub(crate) fn look_held<L: LockModule>(
    b: &mut Builder,
    setting: &Setting<'_, L>,
    m: usize,
    held: Net,
    addr: Net,
    ticket: Net,
) -> Result<Net, NoMemory>
    requires locks { HasLocks (members L.LockModule) b.old setting.now }
    requires low { m < length (form setting.now.pipe.now).pipe.mems }
    requires locked { is_locked (form setting.now.pipe.now).pipe m ≡ true }
    requires bits { AreBits b.old setting.now.bits }
    requires held { HasWidth b.old held 1 }
    requires addr_there { IsThere b.old addr }
    requires addr_reach { 2 ^ (signal b.old addr).width
        ≡ (mem_at (form setting.now.pipe.now).pipe m).depth }
    requires ticket { HasWidth b.old ticket
        ((set_locks (members L.LockModule) b.old setting.now).bits m) }
    ensures bit { IfOk result (λ x. HasWidth b.new x 1) }
    ensures looked { IfOk result (λ x.
        IsLooked (set_locks (members L.LockModule) b.old setting.now) m (signal b.old held)
        (signal b.old addr) (signal b.old ticket) (signal b.new x)) }
    ensures extends { Extends b.old b.new }
{
    if are_same(held, setting.bits.one) {
        let write = look(b, setting, m, Kind::W, addr, ticket)?;
        return Ok(write.ready);
    }
    let read = look(b, setting, m, Kind::R, addr, ticket)?;
    if are_same(held, setting.bits.zero) {
        return Ok(read.ready);
    }
    let write = look(b, setting, m, Kind::W, addr, ticket)?;
    b.mux(held, write.ready, read.ready)
}
