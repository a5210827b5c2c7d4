// What the netlist asks of delayed memories: its outputs for them.
ghost use Rattle.std.specs.Prelude.{◌≡◌, ◌<◌, ◌≤◌, ◌^◌, IfOk, length, map};
ghost use Rattle.pdl_form.specs.FormView.{form};
ghost use Rattle.pdl_form.specs.View.{mem_view};
ghost use Rattle.pdl_form_types.specs.Stmts.{IsTypedMem, AreTypedMems};
ghost use Rattle.pdl_net.specs.Signal.{const_signal};
ghost use Rattle.pdl_net.specs.Meaning.{IsThere, Means, signal};
ghost use Rattle.pdl_net.specs.HasWidth.{HasWidth};
ghost use Rattle.pdl_net.specs.Growth.{Extends};
ghost use Rattle.pdl_pipe_exprs.specs.Conditions.{AreBits};
ghost use Rattle.pdl_law_sides.specs.Sides.{asks_memory as memory_asked};
ghost use Rattle.pdl_pipe_walk.specs.Parts.{ask_in};
ghost use Rattle.pdl_word.specs.Each.{Each};
ghost use Rattle.pdl_pipe_beside.specs.Ports.{ReadsLeadOn};
ghost use Rattle.pdl_pipe_beside.specs.Ends.{AreEnds};
ghost use Rattle.pdl_pipe_beside.specs.Requests.{address_or as or_signal, address_from, IsAddressNet, IsRequest, HasRequest, AreRequests};
ghost use Rattle.pdl_word.specs.Words.{widest};

use crate::asks::{ask_at, asks_memory};
use crate::ends::{BesideRound, end_at};
use crate::ports::memory;
use pdl_build::Builder;
use pdl_form::FlatMem;
use pdl_kit::NoMemory;
use pdl_net::Net;
use pdl_pipe_answers::read_delayed;
use pdl_pipe_exprs::Bits;
use pdl_pipe_walk::AskNet;
use std::alloc::Global;

/// What the netlist asks of a delayed memory: whether it asks, 1 bit, and the address, 0 where it doesn't.
#[derive(Clone, Copy)]
pub struct RequestNets {
    pub enable: Net,
    pub addr: Net,
}

// The bits of an address of a memory.
fn address_bits(mem: &FlatMem) -> u8
    requires { IsTypedMem (mem_view mem.now) }
    ensures power { 2 ^ result ≡ mem.now.depth }
    ensures low { 1 ≤ result }
    ensures high { result ≤ widest }
{
    mem.depth.ilog2() as u8
}

// The address of this request of a memory, where a thread moves that makes it, or else one of the rest.
fn address_or(
    b: &mut Builder,
    bits: Bits,
    moves: Net,
    ask: AskNet,
    m: usize,
    rest: Net,
) -> Result<Net, NoMemory>
    requires bits { AreBits b.old bits }
    requires moves { HasWidth b.old moves 1 }
    requires ask { IsAddressNet b.old m (signal b.old rest).width ask }
    requires rest { IsThere b.old rest }
    ensures means { IfOk result (λ y.
        Means b.new y (or_signal m (signal b.old moves) (ask_in b.old ask) (signal b.old rest))) }
    ensures wide { IfOk result (λ y. (signal b.new y).width ≡ (signal b.old rest).width) }
    ensures extends { Extends b.old b.new }
{
    if ask.mem != m {
        return Ok(rest);
    }
    let asks = bits.both(b, moves, ask.on)?;
    b.mux(asks, ask.addr, rest)
}

// The address that a thread that moves asks of a memory, 0 where none does; it has this many bits.
fn asked_address(
    b: &mut Builder,
    bits: Bits,
    asks: &[AskNet],
    moves: Net,
    m: usize,
    width: u8,
) -> Result<Net, NoMemory>
    requires bits { AreBits b.old bits }
    requires low { 1 ≤ width }
    requires high { width ≤ widest }
    requires asks { Each (IsAddressNet b.old m width) asks.now }
    requires moves { HasWidth b.old moves 1 }
    ensures means { IfOk result (λ y.
        Means b.new y (address_from m (signal b.old moves) (const_signal width 0)
        (map (ask_in b.old) asks.now))) }
    ensures wide { IfOk result (λ y. (signal b.new y).width ≡ width) }
    ensures extends { Extends b.old b.new }
{
    let count = asks.len();
    let mut net = b.constant(width, 0)?;
    for i in 0..count {
        net = address_or(b, bits, moves, ask_at(asks, count - 1 - i), m, net)?;
    }
    Ok(net)
}

// What a stage asks of a memory.
fn stage_request(
    b: &mut Builder,
    bits: Bits,
    asks: &[AskNet],
    moves: Net,
    m: usize,
    width: u8,
) -> Result<RequestNets, NoMemory>
    requires bits { AreBits b.old bits }
    requires low { 1 ≤ width }
    requires high { width ≤ widest }
    requires asks { Each (IsAddressNet b.old m width) asks.now }
    requires moves { HasWidth b.old moves 1 }
    ensures enable { IfOk result (λ x. Means b.new x.enable (memory_asked m (signal b.old moves)
        (map (ask_in b.old) asks.now))) }
    ensures addr { IfOk result (λ x. Means b.new x.addr (address_from m (signal b.old moves)
        (const_signal width 0) (map (ask_in b.old) asks.now))) }
    ensures enable_one { IfOk result (λ x. (signal b.new x.enable).width ≡ 1) }
    ensures wide { IfOk result (λ x. (signal b.new x.addr).width ≡ width) }
    ensures extends { Extends b.old b.new }
{
    let enable = asks_memory(b, bits, asks, moves, m)?;
    let addr = asked_address(b, bits, asks, moves, m, width)?;
    Ok(RequestNets { enable, addr })
}

// What the stages ask of a delayed memory.
fn request(b: &mut Builder, round: &BesideRound<'_, '_>, m: usize) -> Result<RequestNets, NoMemory>
    requires bits { AreBits b.old round.now.bits }
    requires mems { AreTypedMems (form round.now.pipe.now).pipe.mems }
    requires leads { ReadsLeadOn (form round.now.pipe.now).pipe }
    requires ends { AreEnds b.old (form round.now.pipe.now) round.now.ends.now }
    requires low { m < length (form round.now.pipe.now).pipe.mems }
    ensures asks { IfOk result (λ x.
        IsRequest b.old b.new (form round.now.pipe.now).pipe round.now.ends.now m x) }
    ensures extends { Extends b.old b.new }
{
    let width = address_bits(memory(round.pipe, m));
    match read_delayed(round.pipe, m) {
        None => {
            let addr = b.constant(width, 0)?;
            Ok(RequestNets {
                enable: round.bits.zero,
                addr,
            })
        }
        Some(r) => {
            let end = end_at(round.ends, r.stage);
            let asks = end.ended.asks.as_slice();
            let asked = stage_request(b, round.bits, asks, end.moves, m, width)?;
            Ok(asked)
        }
    }
}

// What the stages ask of a memory, where it is delayed.
fn memory_request(
    b: &mut Builder,
    round: &BesideRound<'_, '_>,
    m: usize,
) -> Result<Option<RequestNets>, NoMemory>
    requires bits { AreBits b.old round.now.bits }
    requires mems { AreTypedMems (form round.now.pipe.now).pipe.mems }
    requires leads { ReadsLeadOn (form round.now.pipe.now).pipe }
    requires ends { AreEnds b.old (form round.now.pipe.now) round.now.ends.now }
    requires low { m < length (form round.now.pipe.now).pipe.mems }
    ensures asks { IfOk result (λ o.
        HasRequest b.old b.new (form round.now.pipe.now).pipe round.now.ends.now m o) }
    ensures extends { Extends b.old b.new }
{
    if !memory(round.pipe, m).kind.is_delayed() {
        return Ok(None);
    }
    let asked = request(b, round, m)?;
    Ok(Some(asked))
}

/// What the netlist asks of each delayed memory, by the numbers of the memories.
pub fn requests(
    alloc: Global,
    b: &mut Builder,
    round: &BesideRound<'_, '_>,
) -> Result<Vec<Option<RequestNets>>, NoMemory>
    requires bits { AreBits b.old round.now.bits }
    requires mems { AreTypedMems (form round.now.pipe.now).pipe.mems }
    requires leads { ReadsLeadOn (form round.now.pipe.now).pipe }
    requires ends { AreEnds b.old (form round.now.pipe.now) round.now.ends.now }
    ensures asks { IfOk result (λ xs. AreRequests b.old b.new (form round.now.pipe.now).pipe
        round.now.ends.now xs.items (length (form round.now.pipe.now).pipe.mems)) }
    ensures extends { Extends b.old b.new }
{
    let mut found = Vec::new(alloc);
    for m in 0..round.pipe.mems().len() {
        let one = memory_request(b, round, m)?;
        found.push(one)?;
    }
    Ok(found)
}
