// What the stages do, as ports, orders, locks and outputs are told it.
ghost use Rattle.std.specs.Prelude.{◌≡◌, ◌<◌, IfOk, length, slice_index_or};
ghost use Rattle.pdl_pipe_emitted.specs.Emitted.{AreEndsOf, AreDeedsOf};
ghost use Rattle.pdl_pipe.specs.Emitted.{AreShownOf};

use pdl_kit::NoMemory;
use pdl_net::Net;
use pdl_pipe_beside::StageEnd;
use pdl_pipe_locks::StageDeeds;
use pdl_pipe_nexts::StageLine;
use pdl_pipe_nexts::line::stage_of;
use pdl_pipe_ports::ShownNets;
use std::alloc::Global;

// A net, by its place.
fn net_of(nets: &[Net], k: usize) -> Net
    requires { k < length nets.now }
    ensures { result ≡ slice_index_or nets.now k result }
{
    nets[k]
}

/// Each stage after its statements, with whether its thread moves and whether it is removed.
pub fn stage_ends<'a>(alloc: Global, line: &StageLine<'a>) -> Result<Vec<StageEnd<'a>>, NoMemory>
    requires moves { length line.now.moves.now ≡ length line.now.stages.now }
    requires kills { length line.now.kills.now ≡ length line.now.stages.now }
    ensures { IfOk result (λ es. AreEndsOf line.now es.items) }
{
    let mut ends = Vec::new(alloc);
    for k in 0..line.stages.len() {
        ends.push(StageEnd {
            ended: &stage_of(line, k).end,
            moves: net_of(line.moves, k),
            killed: net_of(line.kills, k),
        })?;
    }
    Ok(ends)
}

/// What each stage does to the locks.
pub fn deeds<'a>(alloc: Global, line: &StageLine<'a>) -> Result<Vec<StageDeeds<'a>>, NoMemory>
    requires moves { length line.now.moves.now ≡ length line.now.stages.now }
    ensures { IfOk result (λ ds. AreDeedsOf line.now ds.items) }
{
    let mut deeds = Vec::new(alloc);
    for k in 0..line.stages.len() {
        let s = stage_of(line, k);
        deeds.push(StageDeeds {
            moves: net_of(line.moves, k),
            tickets: s.tickets.as_slice(),
            ended: &s.end,
        })?;
    }
    Ok(deeds)
}

/// Of each stage whether it holds a thread, and whether that moves.
pub fn stage_ports(alloc: Global, line: &StageLine<'_>) -> Result<Vec<ShownNets>, NoMemory>
    requires moves { length line.now.moves.now ≡ length line.now.stages.now }
    ensures { IfOk result (λ ss. AreShownOf line.now ss.items) }
{
    let mut shown = Vec::new(alloc);
    for k in 0..line.stages.len() {
        shown.push(ShownNets {
            valid: Net::Reg(stage_of(line, k).regs.valid),
            moves: net_of(line.moves, k),
        })?;
    }
    Ok(shown)
}
