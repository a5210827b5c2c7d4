// The ports of a memory's lock: what the stages reserve, write and release, the last stage first.
ghost use Rattle.std.specs.Prelude.{◌≡◌, ◌<◌, ◌∷◌, [], IfOk, OnOk, map, length, slice_index_or};
ghost use Rattle.pdl_net.specs.Meaning.{IsThere, Means, signal};
ghost use Rattle.pdl_net.specs.HasWidth.{HasWidth};
ghost use Rattle.pdl_net.specs.Growth.{Extends};
ghost use Rattle.pdl_pipe_exprs.specs.Conditions.{AreBits};
ghost use Rattle.pdl_law_parts.specs.Ports.{reserves_to, all_reserves, tickets_to, puts_to, all_puts};
ghost use Rattle.pdl_pipe_walk.specs.Parts.{reservation_in, put_in, letting_in};
ghost use Rattle.pdl_word.specs.Each.{Each};
ghost use Rattle.pdl_pipe_locks.specs.Deeds.{view_in, views_in, moves_in};
ghost use Rattle.pdl_pipe_locks.specs.Ports.{IsGivenReserve, IsGivenPut, IsGivenLetting, IsGiven, IsThereReserve, IsThereWrite, AreReserves, AreWrites, AddsReserves, AddsWrites, HaveReleases, AreReleases, releases_signal, second_with, releases_after, releases_of, ArePorts, signals_of};

use crate::deeds::{StageDeeds, deed_at};
use pdl_build::Builder;
use pdl_kit::{NoMemory, Seq};
use pdl_law_parts::Mark;
use pdl_lockapi::{Kind, LockPorts, ReservePort, TicketWrite};
use pdl_net::Net;
use pdl_pipe_exprs::Bits;
use pdl_pipe_walk::tickets::one_more;
use pdl_pipe_walk::{LettingNet, PutNet, ReserveNet};
use std::alloc::Global;

/// Whether a write reservation of a memory is released, and whether two are, 1 bit each.
#[derive(Clone, Copy)]
pub struct ReleaseNets {
    pub first: Net,
    pub second: Net,
}

/// A squash as a lock sees it: whether it happens, 1 bit, and the ticket from which on it drops the pending writes.
#[derive(Clone, Copy)]
pub struct SquashNets {
    pub on: Net,
    pub tail: Net,
}

// The net of a number.
fn net_at(nets: &[Net], k: usize) -> Net
    requires { k < length nets.now }
    ensures { result ≡ slice_index_or nets.now k result }
{
    nets[k]
}

// The letting of a number.
fn letting_at(lettings: &[LettingNet], k: usize) -> LettingNet
    requires { k < length lettings.now }
    ensures { result ≡ slice_index_or lettings.now k result }
{
    lettings[k]
}

// A reservation, where it is for the memory.
fn push_reserve(
    b: &mut Builder,
    bits: Bits,
    ports: &mut Seq<ReservePort>,
    r: &ReserveNet,
    moves: Net,
    m: usize,
) -> Result<(), NoMemory>
    requires bits { AreBits b.old bits }
    requires ports { Each (IsThereReserve b.old) ports.old }
    requires given { IsGivenReserve b.old r.now }
    requires moves { HasWidth b.old moves 1 }
    ensures adds { OnOk result (AddsReserves b.old b.new ports.old ports.new
        (reserves_to m (signal b.old moves) (reservation_in b.old r.now ∷ []))) }
    ensures extends { Extends b.old b.new }
{
    if r.mem != m {
        return Ok(());
    }
    let enable = bits.both(b, moves, r.on)?;
    ports.push(ReservePort {
        enable,
        kind: Kind::W,
        addr: r.addr,
    })?;
    Ok(())
}

// The reservations of a stage for a memory.
fn push_reserves(
    b: &mut Builder,
    bits: Bits,
    ports: &mut Seq<ReservePort>,
    reserves: &[ReserveNet],
    moves: Net,
    m: usize,
) -> Result<(), NoMemory>
    requires bits { AreBits b.old bits }
    requires ports { Each (IsThereReserve b.old) ports.old }
    requires given { Each (IsGivenReserve b.old) reserves.now }
    requires moves { HasWidth b.old moves 1 }
    ensures adds { OnOk result (AddsReserves b.old b.new ports.old ports.new
        (reserves_to m (signal b.old moves) (map (reservation_in b.old) reserves.now))) }
    ensures extends { Extends b.old b.new }
{
    for r in reserves {
        push_reserve(b, bits, ports, r, moves, m)?;
    }
    Ok(())
}

// The reservations of all stages for a memory.
fn reserve_ports<'d>(
    alloc: Global,
    b: &mut Builder,
    bits: Bits,
    deeds: &[StageDeeds<'d>],
    m: usize,
) -> Result<Seq<ReservePort>, NoMemory>
    requires bits { AreBits b.old bits }
    requires given { Each (IsGiven b.old m) deeds.now }
    ensures are { IfOk result (λ ps.
        AreReserves b.new ps (all_reserves m (views_in b.old deeds.now) (moves_in b.old deeds.now)
        (length deeds.now) 0)) }
    ensures extends { Extends b.old b.new }
{
    let mut ports = Seq::new(alloc);
    let count = deeds.len();
    for i in 0..count {
        let deed = deed_at(deeds, count - 1 - i);
        push_reserves(
            b,
            bits,
            &mut ports,
            deed.ended.reserves.as_slice(),
            deed.moves,
            m,
        )?;
    }
    Ok(ports)
}

// The ticket of a location of the memory: its thread's, or the one after it where the location is late.
fn location_ticket<'d>(
    b: &mut Builder,
    bits: Bits,
    deed: &StageDeeds<'d>,
    m: usize,
    twice: bool,
    var: usize,
) -> Result<Net, NoMemory>
    requires bits { AreBits b.old bits }
    requires given { IsGiven b.old m deed.now }
    ensures means { IfOk result (λ x.
        Means b.new x (tickets_to twice m (view_in b.old deed.now) var)) }
    ensures extends { Extends b.old b.new }
{
    let ticket = net_at(deed.tickets, m);
    if !twice {
        return Ok(ticket);
    }
    let late = deed.ended.is_marked(b, bits, Mark::Late, m, var);
    let net = one_more(b, late, ticket)?;
    Ok(net)
}

// A write of a stage through the ticket of its location, where it is to the memory.
fn push_write<'d>(
    b: &mut Builder,
    bits: Bits,
    ports: &mut Seq<TicketWrite>,
    x: &PutNet,
    deed: &StageDeeds<'d>,
    m: usize,
    twice: bool,
) -> Result<(), NoMemory>
    requires bits { AreBits b.old bits }
    requires ports { Each (IsThereWrite b.old) ports.old }
    requires put { IsGivenPut b.old x.now }
    requires given { IsGiven b.old m deed.now }
    ensures adds { OnOk result (AddsWrites b.old b.new ports.old ports.new
        (puts_to m (signal b.old deed.now.moves) (tickets_to twice m (view_in b.old deed.now))
        (put_in b.old x.now ∷ []))) }
    ensures extends { Extends b.old b.new }
{
    if x.mem != m {
        return Ok(());
    }
    let ticket = location_ticket(b, bits, deed, m, twice, x.var)?;
    let enable = bits.both(b, deed.moves, x.on)?;
    ports.push(TicketWrite {
        enable,
        ticket,
        value: x.value,
    })?;
    Ok(())
}

// The writes of a stage to a memory.
fn push_writes<'d>(
    b: &mut Builder,
    bits: Bits,
    ports: &mut Seq<TicketWrite>,
    puts: &[PutNet],
    deed: &StageDeeds<'d>,
    m: usize,
    twice: bool,
) -> Result<(), NoMemory>
    requires bits { AreBits b.old bits }
    requires ports { Each (IsThereWrite b.old) ports.old }
    requires puts { Each (IsGivenPut b.old) puts.now }
    requires given { IsGiven b.old m deed.now }
    ensures adds { OnOk result (AddsWrites b.old b.new ports.old ports.new
        (puts_to m (signal b.old deed.now.moves) (tickets_to twice m (view_in b.old deed.now))
        (map (put_in b.old) puts.now))) }
    ensures extends { Extends b.old b.new }
{
    for x in puts {
        push_write(b, bits, ports, x, deed, m, twice)?;
    }
    Ok(())
}

// The writes of all stages to a memory.
fn write_ports<'d>(
    alloc: Global,
    b: &mut Builder,
    bits: Bits,
    deeds: &[StageDeeds<'d>],
    m: usize,
    twice: bool,
) -> Result<Seq<TicketWrite>, NoMemory>
    requires bits { AreBits b.old bits }
    requires given { Each (IsGiven b.old m) deeds.now }
    ensures are { IfOk result (λ ps.
        AreWrites b.new ps (all_puts twice m (views_in b.old deeds.now) (moves_in b.old deeds.now)
        (length deeds.now) 0)) }
    ensures extends { Extends b.old b.new }
{
    let mut ports = Seq::new(alloc);
    let count = deeds.len();
    for i in 0..count {
        let deed = deed_at(deeds, count - 1 - i);
        let puts = deed.ended.puts.as_slice();
        push_writes(b, bits, &mut ports, puts, &deed, m, twice)?;
    }
    Ok(ports)
}

// Whether two releases are made, where `on` says whether one is made beside the rest, as far as two can be.
fn second_or(b: &mut Builder, on: Net, twice: bool, rest: ReleaseNets) -> Result<Net, NoMemory>
    requires on { HasWidth b.old on 1 }
    requires rest { HaveReleases b.old rest }
    ensures means { IfOk result (λ y.
        Means b.new y (second_with twice (signal b.old on) (releases_signal b.old rest))) }
    ensures extends { Extends b.old b.new }
{
    if !twice {
        return Ok(rest.second);
    }
    b.mux(on, rest.first, rest.second)
}

// What is said of the releases of the memory with this one, where its thread moves, and those after it.
fn release_or(
    b: &mut Builder,
    bits: Bits,
    x: &LettingNet,
    moves: Net,
    m: usize,
    twice: bool,
    rest: ReleaseNets,
) -> Result<ReleaseNets, NoMemory>
    requires bits { AreBits b.old bits }
    requires given { IsGivenLetting b.old x.now }
    requires moves { HasWidth b.old moves 1 }
    requires rest { HaveReleases b.old rest }
    ensures means { IfOk result (λ y.
        AreReleases b.new y (releases_after twice m (signal b.old moves)
        (letting_in b.old x.now ∷ []) (releases_signal b.old rest))) }
    ensures extends { Extends b.old b.new }
{
    if x.mem != m {
        return Ok(rest);
    }
    let on = bits.both(b, moves, x.on)?;
    let first = b.mux(on, bits.one, rest.first)?;
    let second = second_or(b, on, twice, rest)?;
    Ok(ReleaseNets { first, second })
}

// What is said of the releases of a stage with those of the stages after it.
fn releases_or(
    b: &mut Builder,
    bits: Bits,
    lettings: &[LettingNet],
    moves: Net,
    m: usize,
    twice: bool,
    rest: ReleaseNets,
) -> Result<ReleaseNets, NoMemory>
    requires bits { AreBits b.old bits }
    requires given { Each (IsGivenLetting b.old) lettings.now }
    requires moves { HasWidth b.old moves 1 }
    requires rest { HaveReleases b.old rest }
    ensures means { IfOk result (λ y.
        AreReleases b.new y (releases_after twice m (signal b.old moves)
        (map (letting_in b.old) lettings.now) (releases_signal b.old rest))) }
    ensures extends { Extends b.old b.new }
{
    let mut nets = rest;
    let count = lettings.len();
    for i in 0..count {
        let x = letting_at(lettings, count - 1 - i);
        nets = release_or(b, bits, &x, moves, m, twice, nets)?;
    }
    Ok(nets)
}

// Whether a thread moves that releases its write reservation of the memory, and whether two such releases are made.
fn releases<'d>(
    b: &mut Builder,
    bits: Bits,
    deeds: &[StageDeeds<'d>],
    m: usize,
    twice: bool,
) -> Result<ReleaseNets, NoMemory>
    requires bits { AreBits b.old bits }
    requires given { Each (IsGiven b.old m) deeds.now }
    ensures means { IfOk result (λ x.
        AreReleases b.new x (releases_of twice m (views_in b.old deeds.now)
        (moves_in b.old deeds.now) (length deeds.now) 0)) }
    ensures extends { Extends b.old b.new }
{
    let mut nets = ReleaseNets {
        first: bits.zero,
        second: bits.zero,
    };
    let count = deeds.len();
    for i in 0..count {
        let deed = deed_at(deeds, count - 1 - i);
        let lettings = deed.ended.lettings.as_slice();
        nets = releases_or(b, bits, lettings, deed.moves, m, twice, nets)?;
    }
    Ok(nets)
}

/// What a cycle does to the lock of a memory, which `twice` says whether some path reserves twice to write.
pub fn lock_ports<'d>(
    alloc: Global,
    b: &mut Builder,
    bits: Bits,
    deeds: &[StageDeeds<'d>],
    m: usize,
    twice: bool,
    squash: SquashNets,
) -> Result<LockPorts, NoMemory>
    requires bits { AreBits b.old bits }
    requires given { Each (IsGiven b.old m) deeds.now }
    requires squash { IsThere b.old squash.on }
    requires tail { IsThere b.old squash.tail }
    ensures ports { IfOk result (λ p.
        ArePorts b.new p (signals_of b.old twice deeds.now m (signal b.old squash.on)
        (signal b.old squash.tail))) }
    ensures extends { Extends b.old b.new }
{
    let reserves = reserve_ports(alloc, b, bits, deeds, m)?;
    let writes = write_ports(alloc, b, bits, deeds, m, twice)?;
    let releases = releases(b, bits, deeds, m, twice)?;
    Ok(LockPorts {
        reserves,
        writes,
        release: releases.first,
        release2: releases.second,
        squash: squash.on,
        tail: squash.tail,
    })
}
