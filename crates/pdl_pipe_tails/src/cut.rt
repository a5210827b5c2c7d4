// Where a squash cuts the locks.
ghost use Rattle.std.specs.Prelude.{◌≡◌, ℕ, ◌<◌, [], Some, IfOk, length, slice_index_or};
ghost use Rattle.pdl_form.specs.FormView.{form};
ghost use Rattle.pdl_semantics.specs.Updates.{update_stage};
ghost use Rattle.pdl_net.specs.HasWidth.{HasWidth};
ghost use Rattle.pdl_net.specs.Growth.{Extends};
ghost use Rattle.pdl_pipe_exprs.specs.Nets.{NetsThere, signals_in, widths_of};
ghost use Rattle.pdl_pipe_tails.specs.Tails.{IsCut, IsLike};

use crate::carried::row_at;
use pdl_build::Builder;
use pdl_form::FlatPipe;
use pdl_kit::{NoMemory, Seq};
use pdl_net::Net;
use pdl_pipe_walk::guesses::choose;
use std::alloc::Global;

/// The tails at which a squash cuts the locks, where the stage of the verifies has these and the stages before it those: its own where it squashes, which `verify` says, and else those of the stage of the updates.
pub fn cut_by(
    alloc: Global,
    b: &mut Builder,
    pipe: &FlatPipe,
    verify: Net,
    before: &[Seq<Net>],
    last: &[Net],
) -> Result<Seq<Net>, NoMemory>
    requires verify { HasWidth b.old verify 1 }
    requires last { NetsThere b.old last.now }
    requires like { (u : ℕ) → update_stage (form pipe.now).pipe.stmts ≡ Some u →
        IsLike b.old before.now last.now u }
    ensures there { IfOk result (λ xs. NetsThere b.new xs) }
    ensures wide { IfOk result (λ xs.
        widths_of (signals_in b.new xs) ≡ widths_of (signals_in b.old last.now)) }
    ensures cut { IfOk result (λ xs. IsCut b.old b.new verify before.now last.now xs
        (update_stage (form pipe.now).pipe.stmts)) }
    ensures extends { Extends b.old b.new }
{
    let Some(u) = pipe.update_stage() else {
        let cut = Seq::copy_of(alloc, last)?;
        return Ok(cut);
    };
    let early = row_at(before, u);
    let cut = choose(alloc, b, verify, last, early.as_slice())?;
    Ok(cut)
}
