// The nets of what the registers of a stage take next.
ghost use Rattle.std.specs.Prelude.{◌≡◌, ◌+◌, ◌<◌, ◌≤◌, IfOk, length, slice_index_or};
ghost use Rattle.pdl_net.specs.Meaning.{IsThere, Means, signal};
ghost use Rattle.pdl_net.specs.Growth.{Extends};
ghost use Rattle.pdl_pipe_exprs.specs.Nets.{NetsThere, signals_in};
ghost use Rattle.pdl_pipe_registers.specs.declared.nets.StageNets.{StageNets as Stage};
ghost use Rattle.pdl_pipe_registers.specs.Items.{item_at};
ghost use Rattle.pdl_pipe_registers.specs.Stages.{IsAt, reg_of};
ghost use Rattle.pdl_pipe_nexts.specs.Lines.{line_form, line_pipe, IsLineIn, IsStageNow};
ghost use Rattle.pdl_pipe_nexts.specs.Nexts.{staying as staying_signal, kept_signal, AreNexts, IsKeptItem};

use crate::arrivals::threads_into;
use crate::coming::coming;
use crate::line::{StageLine, stage_of};
use pdl_build::Builder;
use pdl_kit::{NoMemory, Seq};
use pdl_net::Net;
use pdl_pipe_exprs::exprs::variable;
use pdl_pipe_registers::{Item, StageNets};
use std::alloc::Global;

// Whether stage k still holds its thread where none comes.
fn staying(b: &mut Builder, line: &StageLine<'_>, k: usize) -> Result<Net, NoMemory>
    requires line { IsLineIn b.old line.now }
    requires low { k < length (line_pipe line.now).stages }
    ensures means { (s : Stage) → IsAt line.now.stages.now k s → IfOk result (λ y.
        Means b.new y (staying_signal b.old line.now k s)) }
    ensures wide { IfOk result (λ y. (signal b.new y).width ≡ 1) }
    ensures extends { Extends b.old b.new }
    ensures regs { b.new.regs ≡ b.old.regs }
{
    let zero = line.shared.bits.zero;
    let valid = Net::Reg(stage_of(line, k).regs.valid);
    let removed = variable(b, line.kills, k);
    let moves = variable(b, line.moves, k);
    let spared = b.mux(removed, zero, valid)?;
    b.mux(moves, zero, spared)
}

// The item of a number.
fn item_of(items: &[Item], i: usize) -> Item
    requires { i < length items.now }
    ensures { result ≡ item_at items.now i }
{
    items[i]
}

// What the i-th item of a stage is where no thread comes.
fn kept(b: &Builder, s: &StageNets, i: usize) -> Net
    requires vars { NetsThere b.now s.now.begun }
    requires low { i < length s.now.regs.items }
    requires item { IsKeptItem b.now s.now i }
    requires reg { reg_of s.now.regs i < length b.now.regs }
    ensures { Means b.now result (kept_signal b.now s.now i (item_at s.now.regs.items i)) }
{
    let regs = b.reg_count();
    let r = s.regs.valid + (i + 1);
    prove!(r < regs);
    match item_of(s.regs.items.as_slice(), i) {
        Item::Var(x) => variable(b, s.begun.as_slice(), x),
        _ => Net::Reg(r),
    }
}

/// What the registers of stage k take next: whether it holds a thread, then what it keeps.
pub fn stage_nexts(
    alloc: Global,
    b: &mut Builder,
    line: &StageLine<'_>,
    k: usize,
) -> Result<Seq<Net>, NoMemory>
    requires line { IsLineIn b.old line.now }
    requires low { k < length (line_pipe line.now).stages }
    ensures nexts { (s : Stage) → IsAt line.now.stages.now k s → IfOk result (λ xs.
        AreNexts b.old b.new line.now k s xs) }
    ensures extends { Extends b.old b.new }
    ensures regs { b.new.regs ≡ b.old.regs }
{
    let s = stage_of(line, k);
    let list = threads_into(alloc, b, line, k)?;
    let arrivals = list.as_slice();
    let mut nets = Seq::new(alloc);
    let stays = staying(b, line, k)?;
    let valid = coming(b, line, k, arrivals, None, stays)?;
    nets.push(valid)?;
    for i in 0..s.regs.items.len() {
        let what = Some(item_of(s.regs.items.as_slice(), i));
        let rest = kept(b, s, i);
        let net = coming(b, line, k, arrivals, what, rest)?;
        nets.push(net)?;
    }
    Ok(nets)
}
