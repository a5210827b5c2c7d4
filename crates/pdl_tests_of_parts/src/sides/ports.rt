// The port of a delayed memory in a netlist, and by hand.
ghost use Rattle.std.specs.Prelude.{◌≤◌, IfOk};
ghost use Rattle.pdl_net.specs.HasWidth.{HasWidth};
ghost use Rattle.pdl_net.specs.Growth.{Extends};
ghost use Rattle.pdl_tests_of_parts.specs.Beside.{IsStep};
ghost use Rattle.pdl_word.specs.Words.{widest};

use crate::locks::board::Board;
use crate::locks::drive::Random;
use crate::sides::bits::{emit_bit, emit_bits, set, set_at};
use pdl_build::Builder;
use pdl_kit::{MemInfo, Name, NoMemory, Seq};
use pdl_net::{Net, Netlist};
use pdl_port::{Answer, PortRegs, PortStep, emit_port_free, emit_port_state, emit_port_step};
use std::alloc::Global;
use std::mem::drop;

/// A port in a circuit, with what drives it.
#[derive(Drop)]
struct Driven {
    regs: PortRegs,
    step: PortStep,
    free: Net,
}

/// The same in a netlist, and nothing else.
#[derive(Drop)]
struct PortBench {
    netlist: Netlist,
    port: Driven,
}

/// The nets of the reply and of its word.
#[derive(Clone, Copy)]
struct Reply {
    bit: Net,
    word: Net,
}

fn emit_reply(b: &mut Builder, width: u8) -> Result<Reply, NoMemory>
    requires low { 1 ≤ width }
    requires high { width ≤ widest }
    ensures bit { IfOk result (λ r. HasWidth b.new r.bit 1) }
    ensures word { IfOk result (λ r. HasWidth b.new r.word width) }
{
    let bit = emit_bit(b)?;
    let word = b.reg(width, 0)?;
    Ok(Reply {
        bit,
        word: Net::Reg(word),
    })
}

#[tactic(auto, using(pdl_port::proofs::PortGrowth::bits_kept))]
fn emit_drivers(alloc: Global, b: &mut Builder, places: u8) -> Result<PortStep, NoMemory>
    ensures step { IfOk result (λ p. IsStep b.new p places) }
    ensures extends { Extends b.old b.new }
{
    let asked = emit_bits(alloc, b, places as usize)?;
    let moves = emit_bits(alloc, b, places as usize)?;
    let removed = emit_bits(alloc, b, places as usize)?;
    Ok(PortStep {
        asked,
        moves,
        removed,
    })
}

fn emit_driven(
    alloc: Global,
    b: &mut Builder,
    mem: &MemInfo,
    places: u8,
) -> Result<Driven, NoMemory>
    requires low { 1 ≤ mem.now.width }
    requires high { mem.now.width ≤ widest }
    requires some { 1 ≤ places }
    requires few { places ≤ 2 }
{
    let reply = emit_reply(b, mem.width)?;
    let regs = emit_port_state(alloc, b, mem, reply.bit, reply.word, places)?;
    let step = emit_drivers(alloc, b, places)?;
    let free = emit_port_free(b, &regs, &step.moves)?;
    emit_port_step(b, &regs, &step)?;
    Ok(Driven { regs, step, free })
}

fn emit_bench(alloc: Global, places: u8) -> Result<PortBench, NoMemory>
    requires some { 1 ≤ places }
    requires few { places ≤ 2 }
{
    let mem = MemInfo {
        name: Name::copy_of(alloc, b"m")?,
        width: 8,
        depth: 16,
        delayed: true,
    };
    let name = Name::copy_of(alloc, b"port")?;
    let mut b = Builder::new(alloc);
    let port = emit_driven(alloc, &mut b, &mem, places)?;
    Ok(PortBench {
        netlist: b.finish(name, Seq::new(alloc)),
        port,
    })
}

/// A port by hand, of at most two places: whose the outstanding request is.
#[derive(Clone, Copy, PartialEq)]
enum BenchPort {
    Idle,
    Owned(usize),
    Orphan,
}

/// What a cycle does at one place.
#[derive(Clone, Copy)]
struct PlaceAct {
    moves: bool,
    removed: bool,
    asked: bool,
}

/// What a cycle does: the word of a reply, and what it does at each place.
#[derive(Clone, Copy)]
struct PortAct {
    reply: Option<u64>,
    places: [PlaceAct; 2],
}

impl BenchPort {
    /// The answer that comes for the thread of a place.
    fn answer(&self, act: PortAct, k: usize) -> Option<u64> {
        if *self == BenchPort::Owned(k) {
            act.reply
        } else {
            None
        }
    }

    /// Whether the thread of a place waits for nothing.
    fn is_answered(&self, act: PortAct, k: usize) -> bool {
        *self != BenchPort::Owned(k) || act.reply.is_some()
    }

    /// Whether the port is free.
    fn is_free(&self, act: PortAct) -> bool {
        match *self {
            BenchPort::Idle => true,
            BenchPort::Owned(k) => {
                let moves = match act.places.get(k) {
                    Some(place) => place.moves,
                    None => false,
                };
                act.reply.is_some() & moves
            }
            BenchPort::Orphan => act.reply.is_some(),
        }
    }

    /// Whose the request is after a cycle, before a new one.
    fn left_after(&self, act: PortAct) -> BenchPort {
        match *self {
            _ if act.reply.is_some() => BenchPort::Idle,
            BenchPort::Owned(k) => match act.places.get(k) {
                Some(place) if place.removed => BenchPort::Orphan,
                _ => *self,
            },
            other => other,
        }
    }

    fn after(&self, act: PortAct) -> BenchPort {
        match (act.places[0].asked, act.places[1].asked) {
            (true, _) => BenchPort::Owned(0),
            (false, true) => BenchPort::Owned(1),
            (false, false) => self.left_after(act),
        }
    }
}

/// Whether a thread of a place moves or is removed: an owner moves only where it is answered.
fn random_place(random: &mut Random, port: &BenchPort, reply: Option<u64>, k: usize) -> PlaceAct {
    let may_move = *port != BenchPort::Owned(k) || reply.is_some();
    let moves = random.once_in(2) & may_move;
    let removed = random.once_in(6) & !moves;
    PlaceAct {
        moves,
        removed,
        asked: false,
    }
}

/// Proper use: a reply where a request is outstanding, and a new request where the port is free.
fn random_act(random: &mut Random, port: &BenchPort, places: u8) -> PortAct {
    let outstanding = *port != BenchPort::Idle;
    let word = random.below(256);
    let reply = if random.once_in(3) & outstanding {
        Some(word)
    } else {
        None
    };
    let first = random_place(random, port, reply, 0);
    let second = random_place(random, port, reply, 1);
    let mut act = PortAct {
        reply,
        places: [first, second],
    };
    let k = random.below(places as u64) as usize;
    if k < 2 {
        act.places[k].asked = random.once_in(2) & port.is_free(act);
    }
    act
}

/// Sets what drives the port.
fn set_port(board: &mut Board, port: &Driven, act: PortAct) {
    set(board, port.regs.reply, act.reply.is_some() as u64);
    set(board, port.regs.word, act.reply.unwrap_or(77));
    for k in 0..2usize {
        let place = act.places[k];
        set_at(board, port.step.moves.as_slice(), k, place.moves);
        set_at(board, port.step.removed.as_slice(), k, place.removed);
        set_at(board, port.step.asked.as_slice(), k, place.asked);
    }
}

/// Whether the nets of a place show what the port by hand says.
fn place_agrees(
    board: &Board,
    net: &Netlist,
    x: Answer,
    port: &BenchPort,
    act: PortAct,
    k: usize,
) -> bool {
    let answer = port.answer(act, k);
    let answered = board.show(net, x.answered) == port.is_answered(act, k) as u64;
    let given = board.show(net, x.given) == answer.is_some() as u64;
    let value = match answer {
        Some(word) => board.show(net, x.value) == word,
        None => true,
    };
    answered & given & value
}

/// Whether all nets do.
fn shows(board: &Board, bench: &PortBench, port: &BenchPort, act: PortAct) -> bool {
    let net = &bench.netlist;
    let mut right = board.show(net, bench.port.free) == port.is_free(act) as u64;
    let answers = bench.port.regs.answers.as_slice();
    for k in 0..answers.len() {
        right &= place_agrees(board, net, answers[k], port, act, k);
    }
    right
}

/// How many of 400 cycles agree.
fn agreed(alloc: Global, bench: &PortBench, places: u8) -> Result<u32, NoMemory> {
    let mut board = Board::new(alloc, &bench.netlist, &[])?;
    let mut random = Random::new(88172645463325252);
    let mut port = BenchPort::Idle;
    let mut count: u32 = 0;
    for _ in 0..400u32 {
        let act = random_act(&mut random, &port, places);
        set_port(&mut board, &bench.port, act);
        board.settle(&bench.netlist);
        count = count.wrapping_add(shows(&board, bench, &port, act) as u32);
        board.step(&bench.netlist);
        port = port.after(act);
    }
    Ok(count)
}

/// How many of 400 cycles of a port of one or two places go as those of a port by hand.
pub fn ports_agree(alloc: Global, places: u8) -> Result<u32, NoMemory>
    requires some { 1 ≤ places }
    requires few { places ≤ 2 }
{
    let bench = emit_bench(alloc, places)?;
    let count = agreed(alloc, &bench, places);
    drop(bench);
    count
}
