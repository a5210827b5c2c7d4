// The registers of all stages are told what they take next.
ghost use Rattle.std.specs.Prelude.{◌≡◌, ◌<◌, ◌≤◌, ℕ, suc, IfOk, OnOk, length, slice_index_or};
ghost use Rattle.pdl_net.specs.Meaning.{IsThere, signal, next_signal};
ghost use Rattle.pdl_net.specs.Growth.{Extends, ExtendsBut};
ghost use Rattle.pdl_pipe_exprs.specs.Nets.{NetsThere, signals_in, signal_at};
ghost use Rattle.pdl_pipe_registers.specs.declared.nets.StageNets.{StageNets as Stage};
ghost use Rattle.pdl_pipe_registers.specs.Stages.{end_of, IsAt};
ghost use Rattle.pdl_pipe_registers.specs.Staged.{AreApart};
ghost use Rattle.pdl_pipe_nexts.specs.Lines.{line_pipe, IsLineIn};
ghost use Rattle.pdl_pipe_nexts.specs.Nexts.{regs_of, AllNexts, AreSet, FitsRegs, TakesNext};

use crate::line::{StageLine, stage_of};
use crate::nexts::stage_nexts;
use pdl_build::Builder;
use pdl_kit::{NoMemory, Seq};
use pdl_net::Net;
use pdl_pipe_registers::StageNets;
use std::alloc::Global;

// The nets for all stages.
fn all_nexts(
    alloc: Global,
    b: &mut Builder,
    line: &StageLine<'_>,
) -> Result<Vec<Seq<Net>>, NoMemory>
    requires line { IsLineIn b.old line.now }
    ensures nexts { IfOk result (λ xs. AllNexts b.old b.new line.now xs.items) }
    ensures extends { Extends b.old b.new }
    ensures regs { b.new.regs ≡ b.old.regs }
{
    let mut nexts = Vec::new(alloc);
    for k in 0..line.stages.len() {
        let nets = stage_nexts(alloc, b, line, k)?;
        nexts.push(nets)?;
    }
    Ok(nexts)
}

// A net, by its place.
fn net_at(nets: &[Net], i: usize) -> Net
    requires { i < length nets.now }
    ensures { result ≡ slice_index_or nets.now i result }
{
    nets[i]
}

// The registers of a stage take these next.
fn set_stage(b: &mut Builder, s: &StageNets, nets: &[Net])
    requires there { NetsThere b.old nets.now }
    requires count { length nets.now ≡ suc (length s.now.regs.items) }
    requires fits { FitsRegs b.old s.now nets.now }
    ensures set { AreSet b.old b.new s.now nets.now }
    ensures extends { ExtendsBut (regs_of s.now.regs.valid (end_of s.now.regs)) b.old b.new }
{
    let regs = b.reg_count();
    for i in 0..nets.len() {
        let r = s.regs.valid + i;
        prove!(r < regs);
        b.next(r, net_at(nets, i));
    }
}

/// What the registers of all stages take next.
pub fn set_stages(alloc: Global, b: &mut Builder, line: &StageLine<'_>) -> Result<(), NoMemory>
    requires line { IsLineIn b.old line.now }
    requires apart { AreApart 0 (length b.old.regs) line.now.stages.now }
    ensures next { OnOk result ((k : ℕ) (s : Stage) → k < length line.now.stages.now →
        IsAt line.now.stages.now k s → TakesNext b.old b.new line.now k s) }
    ensures extends { (low : ℕ) → AreApart low (length b.old.regs) line.now.stages.now →
        ExtendsBut (regs_of low (length b.old.regs)) b.old b.new }
{
    let nexts = all_nexts(alloc, b, line)?;
    for k in 0..nexts.len() {
        set_stage(b, stage_of(line, k), nexts[k].as_slice());
    }
    Ok(())
}
