// Stages after their statements.
ghost use Rattle.std.specs.Prelude.{◌≡◌, ◌<◌, length, slice_index_or};

use pdl_form::FlatPipe;
use pdl_net::Net;
use pdl_pipe_exprs::Bits;
use pdl_pipe_walk::WalkNets;

/// A stage after its statements: what it does, whether its thread moves, and whether it is removed, each 1 bit.
#[derive(Clone, Copy)]
pub struct StageEnd<'a> {
    pub ended: &'a WalkNets,
    pub moves: Net,
    pub killed: Net,
}

/// Whether the stage of the verifies squashes, and whether that of the updates does, 1 bit each; 0 where there is no such stage.
#[derive(Clone, Copy)]
pub struct Squashes {
    pub verify: Net,
    pub update: Net,
}

/// What the steps of ports and orders go round: the pipe, the constant bits, and the stages after their statements.
#[derive(Clone, Copy)]
pub struct BesideRound<'a, 'e> {
    pub pipe: &'a FlatPipe,
    pub bits: Bits,
    pub ends: &'a [StageEnd<'e>],
}

// The stage of a number.
pub(crate) fn end_at<'a>(ends: &[StageEnd<'a>], k: usize) -> StageEnd<'a>
    requires { k < length ends.now }
    ensures { result ≡ slice_index_or ends.now k result }
{
    ends[k]
}
