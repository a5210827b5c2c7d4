// What a stage does to the locks of the memories, and to the arrays of the advisory ones.
ghost use Rattle.std.specs.Prelude.{◌≡◌, ◌<◌, length, slice_index_or};

use pdl_net::Net;
use pdl_pipe_walk::WalkNets;

/// A stage after its statements: whether its thread moves, 1 bit, that thread's ticket of each memory's lock, and what it does.
#[derive(Clone, Copy)]
pub struct StageDeeds<'a> {
    pub moves: Net,
    pub tickets: &'a [Net],
    pub ended: &'a WalkNets,
}

/// The stage of a number.
pub(crate) fn deed_at<'d>(deeds: &[StageDeeds<'d>], k: usize) -> StageDeeds<'d>
    requires { k < length deeds.now }
    ensures { result ≡ slice_index_or deeds.now k result }
{
    deeds[k]
}
