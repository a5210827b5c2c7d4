// An order in a netlist, and as a list.
ghost use Rattle.std.specs.Prelude.{◌≡◌, ◌≤◌, IfOk};
ghost use Rattle.pdl_net.specs.Growth.{Extends};
ghost use Rattle.pdl_order.specs.Laws.{HasPorts};

use crate::locks::board::Board;
use crate::locks::drive::Random;
use crate::sides::bits::{emit_bit, set};
use pdl_build::Builder;
use pdl_kit::{Name, NoMemory, Seq};
use pdl_net::Netlist;
use pdl_order::{OrderPorts, OrderRegs, emit_order_state, emit_order_step};
use std::alloc::Global;
use std::mem::drop;

/// An order in a netlist, with what drives it.
#[derive(Drop)]
struct OrderBench {
    netlist: Netlist,
    regs: OrderRegs,
    ports: OrderPorts,
}

fn emit_ports(b: &mut Builder) -> Result<OrderPorts, NoMemory>
    ensures ports { IfOk result (λ p. HasPorts b.new p) }
    ensures extends { Extends b.old b.new }
{
    let entered_first = emit_bit(b)?;
    let entered_second = emit_bit(b)?;
    let left = emit_bit(b)?;
    let emptied = emit_bit(b)?;
    Ok(OrderPorts {
        entered_first,
        entered_second,
        left,
        emptied,
    })
}

fn emit_driven(
    alloc: Global,
    b: &mut Builder,
    ports: &OrderPorts,
    stages: u8,
) -> Result<OrderRegs, NoMemory>
    requires ports { HasPorts b.old ports.now }
    requires low { 1 ≤ stages }
    requires high { stages ≤ 64 }
{
    let regs = emit_order_state(alloc, b, stages)?;
    emit_order_step(b, &regs, ports)?;
    Ok(regs)
}

fn emit_bench(alloc: Global, stages: u8) -> Result<OrderBench, NoMemory>
    requires low { 1 ≤ stages }
    requires high { stages ≤ 64 }
{
    let name = Name::copy_of(alloc, b"order")?;
    let mut b = Builder::new(alloc);
    let ports = emit_ports(&mut b)?;
    let regs = emit_driven(alloc, &mut b, &ports, stages)?;
    Ok(OrderBench {
        netlist: b.finish(name, Seq::new(alloc)),
        regs,
        ports,
    })
}

/// What a cycle does.
#[derive(Clone, Copy)]
struct OrderAct {
    entered: Option<bool>,
    left: bool,
    emptied: bool,
}

/// An act for a list of at most so many entries: one comes in where there is room, which a full list has where one leaves.
fn random_act(random: &mut Random, list: &[bool], stages: u8) -> OrderAct {
    let left = !list.is_empty() & !random.once_in(3);
    let emptied = random.once_in(16);
    let room = list.len() < stages as usize || left;
    let side = random.once_in(2);
    let entered = if (room | emptied) & !random.once_in(3) {
        Some(side)
    } else {
        None
    };
    OrderAct {
        entered,
        left,
        emptied,
    }
}

/// The list after an act.
fn stepped(alloc: Global, list: &[bool], act: OrderAct) -> Result<Vec<bool>, NoMemory> {
    let mut next = Vec::new(alloc);
    if act.emptied {
        return Ok(next);
    }
    for k in act.left as usize..list.len() {
        next.push(list[k])?;
    }
    if let Some(side) = act.entered {
        next.push(side)?;
    }
    Ok(next)
}

fn set_ports(board: &mut Board, ports: OrderPorts, act: OrderAct) {
    set(
        board,
        ports.entered_first,
        (act.entered == Some(true)) as u64,
    );
    set(
        board,
        ports.entered_second,
        (act.entered == Some(false)) as u64,
    );
    set(board, ports.left, act.left as u64);
    set(board, ports.emptied, act.emptied as u64);
}

/// Whether the nets tell of the list.
fn shows(board: &Board, bench: &OrderBench, list: &[bool]) -> bool {
    let empty = board.show(&bench.netlist, bench.regs.empty);
    let first = board.show(&bench.netlist, bench.regs.first);
    match list.first() {
        None => empty == 1,
        Some(side) => (empty == 0) & (first == *side as u64),
    }
}

/// How many of 400 cycles agree.
fn agreed(alloc: Global, bench: &OrderBench, stages: u8) -> Result<u32, NoMemory> {
    let mut board = Board::new(alloc, &bench.netlist, &[])?;
    let mut random = Random::new(88172645463325252);
    let mut list = Vec::new(alloc);
    let mut count: u32 = 0;
    for _ in 0..400u32 {
        let act = random_act(&mut random, list.as_slice(), stages);
        set_ports(&mut board, bench.ports, act);
        board.settle(&bench.netlist);
        count = count.wrapping_add(shows(&board, bench, list.as_slice()) as u32);
        board.step(&bench.netlist);
        list = stepped(alloc, list.as_slice(), act)?;
    }
    Ok(count)
}

/// How many of 400 cycles of an order for so many threads, 1 to 64, go as those of a list.
pub fn orders_agree(alloc: Global, stages: u8) -> Result<u32, NoMemory>
    requires low { 1 ≤ stages }
    requires high { stages ≤ 64 }
{
    let bench = emit_bench(alloc, stages)?;
    let count = agreed(alloc, &bench, stages);
    drop(bench);
    count
}
