// Registers of 1 bit that a test sets.
ghost use Rattle.std.specs.Prelude.{IfOk};
ghost use Rattle.pdl_net.specs.HasWidth.{HasWidth};
ghost use Rattle.pdl_net.specs.Growth.{Extends};
ghost use Rattle.pdl_port.specs.Laws.{HasBits};

use crate::locks::board::Board;
use pdl_build::Builder;
use pdl_kit::{NoMemory, Seq};
use pdl_net::Net;
use std::alloc::Global;

/// One of them.
pub fn emit_bit(b: &mut Builder) -> Result<Net, NoMemory>
    ensures bit { IfOk result (λ x. HasWidth b.new x 1) }
    ensures extends { Extends b.old b.new }
{
    let reg = b.reg(1, 0)?;
    Ok(Net::Reg(reg))
}

/// So many of them.
#[tactic(auto, using(crate::proofs::OneBit::bits_none, crate::proofs::OneBit::bits_more))]
pub fn emit_bits(alloc: Global, b: &mut Builder, count: usize) -> Result<Seq<Net>, NoMemory>
    ensures bits { IfOk result (λ xs. HasBits b.new xs count) }
    ensures extends { Extends b.old b.new }
{
    let mut nets = Seq::new(alloc);
    for _k in 0..count {
        let net = emit_bit(b)?;
        nets.push(net)?;
    }
    Ok(nets)
}

/// Sets the register of a net.
pub fn set(board: &mut Board, net: Net, value: u64) {
    if let Net::Reg(reg) = net {
        board.set(reg, value);
    }
}

/// Sets the register of one of some nets.
pub fn set_at(board: &mut Board, nets: &[Net], k: usize, on: bool) {
    if k < nets.len() {
        set(board, nets[k], on as u64);
    }
}
