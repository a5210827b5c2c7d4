// The stages of a pipe with what moves their threads.
ghost use Rattle.std.specs.Prelude.{◌≡◌, ◌<◌, length, slice_index_or, slice_index};
ghost use Rattle.pdl_pipe_exprs.specs.Nets.{NetsThere};

use pdl_form::FlatPipe;
use pdl_net::Net;
use pdl_pipe_registers::{Shared, StageNets};

/// The stages of a pipe, with whether the thread of each moves, and whether one that stays is removed, 1 bit each.
#[derive(Clone, Copy)]
pub struct StageLine<'a> {
    pub pipe: &'a FlatPipe,
    pub shared: &'a Shared<'a>,
    pub stages: &'a [StageNets],
    pub moves: &'a [Net],
    pub kills: &'a [Net],
}

/// The stage of a number.
pub fn stage_of<'a>(line: &StageLine<'a>, k: usize) -> &'a StageNets
    requires { k < length line.now.stages.now }
    ensures { result.now ≡ slice_index_or line.now.stages.now k result.now }
{
    &line.stages[k]
}
