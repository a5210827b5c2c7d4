// The tails of all stages up to that of the verifies.
ghost use Rattle.std.specs.Prelude.{◌≡◌, ℕ, ◌<◌, Some, IfOk, length};
ghost use Rattle.pdl_semantics.specs.Stages.{verify_stage};
ghost use Rattle.pdl_net.specs.HasWidth.{HasWidth};
ghost use Rattle.pdl_net.specs.Growth.{Extends};
ghost use Rattle.pdl_pipe_nexts.specs.Lines.{line_pipe, IsLineIn};
ghost use Rattle.pdl_pipe_tails.specs.Tails.{HasCut, IsRow};

use crate::carried::stage_tails;
use crate::cut::cut_by;
use crate::reserved::next_after;
use pdl_build::Builder;
use pdl_kit::{NoMemory, Seq};
use pdl_net::Net;
use pdl_pipe_nexts::StageLine;
use std::alloc::Global;

/// The tickets from which on a thread's squash would drop pending writes, by stage and memory, each as wide as its lock's next ticket: those of the threads before the stage of the verifies, those of its own thread, and those of the thread that squashes, at which the locks are cut.
#[derive(Drop)]
pub struct TailNets {
    pub before: Vec<Seq<Net>>,
    pub last: Seq<Net>,
    pub cut: Seq<Net>,
}

/// From which ticket on a squash drops the pending writes of each memory's lock: the next one after this cycle's reservations, or the one that came with the thread which squashes. `verify` says whether that is the one in the stage of the verifies.
///
/// Without a stage of verifies nothing is squashed, and the next tickets are returned.
pub fn tails(
    alloc: Global,
    b: &mut Builder,
    line: &StageLine<'_>,
    verify: Net,
) -> Result<TailNets, NoMemory>
    requires line { IsLineIn b.old line.now }
    requires squash { HasWidth b.old verify 1 }
    requires reserves { length (line_pipe line.now).reserves_at ≡ length (line_pipe line.now).mems }
    requires verify { (v : ℕ) → verify_stage (line_pipe line.now).stmts ≡ Some v →
        v < length (line_pipe line.now).stages }
    ensures cut { IfOk result (λ t.
        HasCut b.old b.new line.now verify t (verify_stage (line_pipe line.now).stmts)) }
    ensures row { IfOk result (λ t. IsRow b.old b.new line.now t.cut) }
    ensures extends { Extends b.old b.new }
{
    let mut before = Vec::new(alloc);
    let Some(v) = line.pipe.verify_stage() else {
        let last = Seq::copy_of(alloc, line.shared.next.as_slice())?;
        let cut = Seq::copy_of(alloc, line.shared.next.as_slice())?;
        return Ok(TailNets { before, last, cut });
    };
    let fresh = next_after(alloc, b, line)?;
    for k in 0..v {
        let row = stage_tails(alloc, b, line, fresh.as_slice(), before.as_slice(), k)?;
        before.push(row)?;
    }
    let last = stage_tails(alloc, b, line, fresh.as_slice(), before.as_slice(), v)?;
    let cut = cut_by(
        alloc,
        b,
        line.pipe,
        verify,
        before.as_slice(),
        last.as_slice(),
    )?;
    Ok(TailNets { before, last, cut })
}
