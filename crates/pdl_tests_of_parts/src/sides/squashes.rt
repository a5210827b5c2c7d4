// A squash in a netlist, and by hand.
ghost use Rattle.std.specs.Prelude.{◌≡◌, ◌<◌, IfOk};
ghost use Rattle.pdl_net.specs.Growth.{Extends};
ghost use Rattle.pdl_tests_of_parts.specs.Beside.{IsSquash};

use crate::locks::board::Board;
use crate::locks::drive::Random;
use crate::sides::bits::{emit_bit, emit_bits, set, set_at};
use pdl_build::Builder;
use pdl_kit::{Name, NoMemory, Seq};
use pdl_net::{Net, Netlist};
use pdl_squash::{SquashNets, SquashPorts, emit_squash};
use std::alloc::Global;
use std::mem::drop;

/// A squash in a netlist, with what drives it.
#[derive(Drop)]
struct SquashBench {
    netlist: Netlist,
    ports: SquashPorts,
    nets: SquashNets,
}

fn emit_ports(
    alloc: Global,
    b: &mut Builder,
    stages: usize,
    stage: usize,
) -> Result<SquashPorts, NoMemory>
    requires { stage < stages }
    ensures { IfOk result (λ p. IsSquash b.new p) }
{
    let moves = emit_bit(b)?;
    let fails = emit_bit(b)?;
    let valid = emit_bits(alloc, b, stages)?;
    Ok(SquashPorts {
        valid,
        stage,
        moves,
        fails,
    })
}

fn emit_bench(alloc: Global, stages: usize, stage: usize) -> Result<SquashBench, NoMemory>
    requires { stage < stages }
{
    let name = Name::copy_of(alloc, b"squash")?;
    let mut b = Builder::new(alloc);
    let ports = emit_ports(alloc, &mut b, stages, stage)?;
    let nets = emit_squash(alloc, &mut b, &ports)?;
    Ok(SquashBench {
        netlist: b.finish(name, Seq::new(alloc)),
        ports,
        nets,
    })
}

/// Whether one of some nets shows this bit.
fn shows_at(board: &Board, net: &Netlist, nets: &[Net], k: usize, on: bool) -> bool {
    match nets.get(k) {
        Some(x) => board.show(net, *x) == on as u64,
        None => false,
    }
}

/// Whether a stage holds a thread.
fn holds(held: &[bool], k: usize) -> bool {
    match held.get(k) {
        Some(on) => *on,
        None => false,
    }
}

/// Whether none of the stages after one, up to another, does.
fn none_after(held: &[bool], k: usize, last: usize) -> bool {
    let mut none = true;
    for j in 0..held.len() {
        none &= !(held[j] & (j > k) & (j <= last));
    }
    none
}

/// Whether the nets show what these threads and this squash say.
fn shows(board: &Board, bench: &SquashBench, held: &[bool], squash: bool) -> bool {
    let net = &bench.netlist;
    let stage = bench.ports.stage;
    let mut right = board.show(net, bench.nets.squash) == squash as u64;
    for k in 0..stage {
        let removed = squash & holds(held, k);
        let clear = none_after(held, k, stage);
        right &= shows_at(board, net, bench.nets.removed.as_slice(), k, removed);
        right &= shows_at(board, net, bench.nets.clear.as_slice(), k, clear);
    }
    right
}

/// Sets which stages hold threads.
fn set_held(board: &mut Board, bench: &SquashBench, held: &[bool]) {
    for k in 0..held.len() {
        set_at(board, bench.ports.valid.as_slice(), k, held[k]);
    }
}

/// Which of six stages hold threads.
fn random_held(random: &mut Random) -> [bool; 6] {
    let mut held = [false; 6];
    for k in 0..6usize {
        held[k] = random.once_in(2);
    }
    held
}

/// How many of 200 draws agree.
fn agreed(alloc: Global, bench: &SquashBench) -> Result<u32, NoMemory> {
    let mut board = Board::new(alloc, &bench.netlist, &[])?;
    let mut random = Random::new(2463534242);
    let mut count: u32 = 0;
    for _ in 0..200u32 {
        let held = random_held(&mut random);
        let moves = random.once_in(2);
        let fails = random.once_in(2);
        set_held(&mut board, bench, held.as_slice());
        set(&mut board, bench.ports.moves, moves as u64);
        set(&mut board, bench.ports.fails, fails as u64);
        board.settle(&bench.netlist);
        count = count.wrapping_add(shows(&board, bench, held.as_slice(), moves & fails) as u32);
    }
    Ok(count)
}

/// How many of 200 draws of threads in so many stages, at most 6, go as this stage's squash says.
pub fn squashes_agree(alloc: Global, stages: usize, stage: usize) -> Result<u32, NoMemory>
    requires { stage < stages }
{
    let bench = emit_bench(alloc, stages, stage)?;
    let count = agreed(alloc, &bench);
    drop(bench);
    count
}
