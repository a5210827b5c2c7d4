// Reservations for writing, of which a stage may make two of one memory.
ghost use Rattle.std.specs.Prelude.{◌≡◌, ◌<◌, ◌++◌, ◌∷◌, [], true, IfOk, OnOk, length, map, slice_index_or};
ghost use Rattle.pdl_word.specs.Each.{Each};
ghost use Rattle.pdl_semantics.specs.SecondWrites.{reserves_twice};
ghost use Rattle.pdl_form.specs.FormView.{form};
ghost use Rattle.pdl_form.specs.View.{guards_view};
ghost use Rattle.pdl_form_types.specs.Stmts.{AreGuards, IsLocation};
ghost use Rattle.pdl_net.specs.Meaning.{Means, signal};
ghost use Rattle.pdl_net.specs.HasWidth.{HasWidth};
ghost use Rattle.pdl_net.specs.Growth.{Extends};
ghost use Rattle.pdl_pipe_exprs.specs.Conditions.{AreBits};
ghost use Rattle.pdl_law_parts.specs.Walk.{is_locked, reserved_signal};
ghost use Rattle.pdl_pipe_walk.specs.Parts.{parts_in, reservation_in, taken_by};
ghost use Rattle.pdl_pipe_walk.specs.Locked.{members};
ghost use Rattle.pdl_pipe_walk.specs.Setting.{HasLocks, HasTwice, set_locks};
ghost use Rattle.pdl_pipe_walk.specs.Sized.{IsWalkOf};
ghost use Rattle.pdl_pipe_walk.specs.Steps.{reserved_or as or_reserved, with_second, with_room, with_reserve};

use crate::locks::{Setting, room, room2};
use crate::nets::{MarkNet, ReserveNet, WalkNets};
use pdl_build::Builder;
use pdl_form::{FlatGuard, FlatPipe};
use pdl_kit::NoMemory;
use pdl_law_parts::Mark;
use pdl_lockapi::LockModule;
use pdl_net::Net;
use pdl_pipe_exprs::Bits;

// Whether a reservation is made of a memory, or a later one, as `rest` tells.
fn reserved_or(
    b: &mut Builder,
    bits: Bits,
    r: ReserveNet,
    m: usize,
    rest: Net,
) -> Result<Net, NoMemory>
    requires bits { AreBits b.old bits }
    requires on { HasWidth b.old r.on 1 }
    requires rest { HasWidth b.old rest 1 }
    ensures means { IfOk result (λ x.
        Means b.new x (or_reserved m (reservation_in b.old r) (signal b.old rest))) }
    ensures extends { Extends b.old b.new }
{
    if r.mem != m {
        return Ok(rest);
    }
    b.mux(r.on, bits.one, rest)
}

// The reservation of a number.
fn reserve_at(reserves: &[ReserveNet], k: usize) -> ReserveNet
    requires { k < length reserves.now }
    ensures { result ≡ slice_index_or reserves.now k result }
{
    reserves[k]
}

// Whether one of these reservations is made of a memory.
fn reserved(b: &mut Builder, bits: Bits, reserves: &[ReserveNet], m: usize) -> Result<Net, NoMemory>
    requires bits { AreBits b.old bits }
    requires given { Each (λ (r : ReserveNet). HasWidth b.old r.on 1) reserves.now }
    ensures means { IfOk result (λ x.
        Means b.new x (reserved_signal m (map (reservation_in b.old) reserves.now))) }
    ensures extends { Extends b.old b.new }
{
    let mut net = bits.zero;
    let count = reserves.len();
    for i in 0..count {
        let r = reserve_at(reserves, count - 1 - i);
        net = reserved_or(b, bits, r, m, net)?;
    }
    Ok(net)
}

// Whether some path reserves a memory twice to write.
fn is_twice<L>(setting: &Setting<'_, L>, m: usize) -> bool
    requires twice { HasTwice setting.now }
    requires low { m < length (form setting.now.pipe.now).pipe.mems }
    ensures { result ≡ reserves_twice m (form setting.now.pipe.now).pipe.stmts }
{
    setting.twice[m]
}

impl WalkNets {
    // A reservation of a memory that some path reserves twice: where an earlier one is made its location becomes late, and it waits for room for two.
    fn follow(
        &mut self,
        b: &mut Builder,
        pipe: &FlatPipe,
        bits: Bits,
        reserve: ReserveNet,
        room: Net,
        room2: Net,
    ) -> Result<(), NoMemory>
        requires walk { IsWalkOf (form pipe.now) b.old self.old }
        requires bits { AreBits b.old bits }
        requires on { HasWidth b.old reserve.on 1 }
        requires room { HasWidth b.old room 1 }
        requires room2 { HasWidth b.old room2 1 }
        ensures walk { OnOk result (IsWalkOf (form pipe.now) b.new self.new) }
        ensures parts { OnOk result (parts_in b.new self.new
            ≡ with_second reserve.mem reserve.var (signal b.old reserve.on) (signal b.old room)
            (signal b.old room2) (parts_in b.old self.old)) }
        ensures extends { Extends b.old b.new }
    {
        let before = reserved(b, bits, self.reserves.as_slice(), reserve.mem)?;
        let late = MarkNet {
            mark: Mark::Late,
            mem: reserve.mem,
            var: reserve.var,
            net: before,
        };
        self.set_mark(b, pipe, bits, reserve.on, late)?;
        let free = b.mux(before, room2, room)?;
        self.wait(b, pipe, bits, reserve.on, free)
    }

    // A reservation waits for room, after an earlier one that is made for room for two.
    fn wait_for_room<L: LockModule>(
        &mut self,
        b: &mut Builder,
        setting: &Setting<'_, L>,
        reserve: ReserveNet,
    ) -> Result<(), NoMemory>
        requires walk { IsWalkOf (form setting.now.pipe.now) b.old self.old }
        requires bits { AreBits b.old setting.now.bits }
        requires on { HasWidth b.old reserve.on 1 }
        requires locks { HasLocks (members L.LockModule) b.old setting.now }
        requires twice { HasTwice setting.now }
        requires low { reserve.mem < length (form setting.now.pipe.now).pipe.mems }
        requires locked { is_locked (form setting.now.pipe.now).pipe reserve.mem ≡ true }
        ensures walk { OnOk result (IsWalkOf (form setting.now.pipe.now) b.new self.new) }
        ensures parts { OnOk result (parts_in b.new self.new
            ≡ with_room (set_locks (members L.LockModule) b.old setting.now) reserve.mem
            reserve.var (signal b.old reserve.on) (parts_in b.old self.old)) }
        ensures extends { Extends b.old b.new }
    {
        let bits = setting.bits;
        let one = room(setting.locks, reserve.mem);
        if is_twice(setting, reserve.mem) {
            let two = room2(setting.locks, reserve.mem);
            self.follow(b, setting.pipe, bits, reserve, one, two)
        } else {
            self.wait(b, setting.pipe, bits, reserve.on, one)
        }
    }

    /// A reservation for writing: it waits for room.
    pub(crate) fn reserve<L: LockModule>(
        &mut self,
        b: &mut Builder,
        setting: &Setting<'_, L>,
        guards: &[FlatGuard],
        m: usize,
        a: usize,
    ) -> Result<(), NoMemory>
        requires walk { IsWalkOf (form setting.now.pipe.now) b.old self.old }
        requires bits { AreBits b.old setting.now.bits }
        requires guards { AreGuards (form setting.now.pipe.now).widths (guards_view guards.now) }
        requires locks { HasLocks (members L.LockModule) b.old setting.now }
        requires twice { HasTwice setting.now }
        requires at { IsLocation (form setting.now.pipe.now).pipe
            (form setting.now.pipe.now).widths m a }
        requires locked { is_locked (form setting.now.pipe.now).pipe m ≡ true }
        ensures walk { OnOk result (IsWalkOf (form setting.now.pipe.now) b.new self.new) }
        ensures parts { OnOk result (parts_in b.new self.new
            ≡ with_reserve (set_locks (members L.LockModule) b.old setting.now) m a
            (taken_by b.old self.old guards.now) (parts_in b.old self.old)) }
        ensures extends { Extends b.old b.new }
    {
        let on = self.all_taken(b, setting.pipe, setting.bits, guards)?;
        let addr = self.variable(b, setting.pipe, a);
        let held = MarkNet {
            mark: Mark::Held,
            mem: m,
            var: a,
            net: setting.bits.one,
        };
        self.set_mark(b, setting.pipe, setting.bits, on, held)?;
        let reserve = ReserveNet {
            mem: m,
            var: a,
            on,
            addr,
        };
        self.wait_for_room(b, setting, reserve)?;
        self.push_reserve(reserve)
    }
}
