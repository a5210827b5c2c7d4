// Stages from the last one down: whether the thread of each moves.
ghost use Rattle.std.specs.Prelude.{◌≡◌, ℕ, ◌<◌, ◌≤◌, ◌+◌, IfOk, OnOk, length, slice_set};
ghost use Rattle.pdl_net.specs.Growth.{Extends};
ghost use Rattle.pdl_squash.specs.Laws.{net_at};
ghost use Rattle.pdl_pipe_beside.specs.Ports.{StandPorts};
ghost use Rattle.pdl_pipe_nexts.specs.Lines.{line_pipe, IsLineIn};
ghost use Rattle.pdl_pipe_moves.specs.Inside.{LeadsInside};
ghost use Rattle.pdl_pipe_moves.specs.Signs.{signs_by, IsControlled};
ghost use Rattle.pdl_pipe_moves.specs.Passed.{HasFree, HaveFree, IsPassage, ArePassed};

use crate::controls::{Controls, gate};
use crate::moving::stage_moves;
use pdl_build::Builder;
use pdl_kit::{NoMemory, Seq};
use pdl_net::Net;
use pdl_pipe_answers::{port_of, read_delayed};
use pdl_pipe_beside::port_free;
use pdl_pipe_nexts::StageLine;
use std::alloc::Global;

/// Of a stage: whether its thread moves, 1 bit, and of each memory whether its port is free for a delayed read there, 1 bit each.
#[derive(Drop)]
pub struct Passage {
    pub moves: Net,
    pub frees: Seq<Net>,
}

/// Of each stage the same; a stage that wasn't yet asked doesn't move, and has no free ports.
#[derive(Drop)]
pub struct Passages {
    pub moves: Vec<Net>,
    pub frees: Vec<Seq<Net>>,
}

// Whether the port of a memory is free for the thread of stage k; 1 where that doesn't read it.
fn memory_free(
    alloc: Global,
    b: &mut Builder,
    line: &StageLine<'_>,
    k: usize,
    m: usize,
) -> Result<Net, NoMemory>
    requires line { IsLineIn b.old line.now }
    requires inside { LeadsInside (line_pipe line.now) }
    requires stand { StandPorts b.old (line_pipe line.now) line.now.shared.now.ports.now }
    requires low { k < length (line_pipe line.now).stages }
    requires m { m < length (line_pipe line.now).mems }
    ensures free { IfOk result (λ x. HasFree b.new line.now k m x) }
    ensures extends { Extends b.old b.new }
{
    match read_delayed(line.pipe, m) {
        Some(r) if r.stage == k => {
            let port = port_of(line.shared.ports, m);
            let free = port_free(alloc, b, line.pipe, port, k, line.moves)?;
            Ok(free)
        }
        _ => Ok(line.shared.bits.one),
    }
}

// Whether the port of each memory is free for the thread of stage k.
fn stage_frees(
    alloc: Global,
    b: &mut Builder,
    line: &StageLine<'_>,
    k: usize,
) -> Result<Seq<Net>, NoMemory>
    requires line { IsLineIn b.old line.now }
    requires inside { LeadsInside (line_pipe line.now) }
    requires stand { StandPorts b.old (line_pipe line.now) line.now.shared.now.ports.now }
    requires low { k < length (line_pipe line.now).stages }
    ensures free { IfOk result (λ xs.
        HaveFree b.new line.now k xs (length (line_pipe line.now).mems)) }
    ensures extends { Extends b.old b.new }
{
    let mut nets = Seq::new(alloc);
    for m in 0..line.pipe.mems().len() {
        let free = memory_free(alloc, b, line, k, m)?;
        nets.push(free)?;
    }
    Ok(nets)
}

// Whether the thread of stage k moves, where the line has the moves of the later stages.
fn stage_passage(
    alloc: Global,
    b: &mut Builder,
    line: &StageLine<'_>,
    controls: &Controls<'_>,
    k: usize,
) -> Result<Passage, NoMemory>
    requires line { IsLineIn b.old line.now }
    requires inside { LeadsInside (line_pipe line.now) }
    requires stand { StandPorts b.old (line_pipe line.now) line.now.shared.now.ports.now }
    requires controls { IsControlled b.old (line_pipe line.now) controls.now }
    requires low { k < length (line_pipe line.now).stages }
    ensures passage { IfOk result (λ z.
        IsPassage b.new line.now (signs_by b.new line.now controls.now) k z) }
    ensures extends { Extends b.old b.new }
{
    let frees = stage_frees(alloc, b, line, k)?;
    let gate = gate(b, line, controls, frees.as_slice(), k)?;
    let moves = stage_moves(b, line, k, gate)?;
    Ok(Passage { moves, frees })
}

impl Passages {
    // Takes in what was found of a stage.
    fn set(&mut self, k: usize, one: Passage)
        requires moves { k < length self.old.moves.items }
        requires frees { k < length self.old.frees.items }
        ensures moves { self.new.moves.items ≡ slice_set self.old.moves.items k one.moves }
        ensures frees { self.new.frees.items ≡ slice_set self.old.frees.items k one.frees }
    {
        self.moves[k] = one.moves;
        self.frees[k] = one.frees;
    }

    // One stage more.
    fn pass(
        &mut self,
        alloc: Global,
        b: &mut Builder,
        line: &StageLine<'_>,
        controls: &Controls<'_>,
        k: usize,
    ) -> Result<(), NoMemory>
        requires line { IsLineIn b.old line.now }
        requires inside { LeadsInside (line_pipe line.now) }
        requires stand { StandPorts b.old (line_pipe line.now) line.now.shared.now.ports.now }
        requires controls { IsControlled b.old (line_pipe line.now) controls.now }
        requires low { k < length (line_pipe line.now).stages }
        requires passed { ArePassed b.old line.now (signs_by b.old line.now controls.now)
            self.old.moves.items self.old.frees.items (k + 1) }
        ensures passed { OnOk result (ArePassed b.new line.now
            (signs_by b.new line.now controls.now) self.new.moves.items self.new.frees.items k) }
        ensures later { OnOk result ((q : ℕ) → k < q →
            net_at self.new.moves.items q ≡ net_at self.old.moves.items q) }
        ensures extends { Extends b.old b.new }
    {
        let now = StageLine {
            pipe: line.pipe,
            shared: line.shared,
            stages: line.stages,
            moves: self.moves.as_slice(),
            kills: line.kills,
        };
        let one = stage_passage(alloc, b, &now, controls, k)?;
        self.set(k, one);
        Ok(())
    }

    /// The stages from `high` down to `low`, where those from `high` on are known.
    pub(crate) fn pass_down(
        &mut self,
        alloc: Global,
        b: &mut Builder,
        line: &StageLine<'_>,
        controls: &Controls<'_>,
        low: usize,
        high: usize,
    ) -> Result<(), NoMemory>
        requires line { IsLineIn b.old line.now }
        requires inside { LeadsInside (line_pipe line.now) }
        requires stand { StandPorts b.old (line_pipe line.now) line.now.shared.now.ports.now }
        requires controls { IsControlled b.old (line_pipe line.now) controls.now }
        requires order { low ≤ high }
        requires high { high ≤ length (line_pipe line.now).stages }
        requires passed { ArePassed b.old line.now (signs_by b.old line.now controls.now)
            self.old.moves.items self.old.frees.items high }
        ensures passed { OnOk result (ArePassed b.new line.now
            (signs_by b.new line.now controls.now) self.new.moves.items self.new.frees.items low) }
        ensures later { OnOk result ((q : ℕ) → high ≤ q →
            net_at self.new.moves.items q ≡ net_at self.old.moves.items q) }
        ensures extends { Extends b.old b.new }
    {
        for i in 0..high - low {
            self.pass(alloc, b, line, controls, high - 1 - i)?;
        }
        Ok(())
    }
}
