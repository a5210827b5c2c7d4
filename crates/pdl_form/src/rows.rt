// What is worked out of the statements of a flat form, stage by stage and memory by memory.
ghost use Rattle.std.specs.Prelude.{◌≡◌, IfOk};
ghost use Rattle.pdl_semantics.specs.Stages as stages;
ghost use Rattle.pdl_form.specs.View.{stmts_view, mems_view};
ghost use Rattle.pdl_form.specs.Form.{rows_below, stage_of_each};

use crate::form::{FlatMem, FlatStmt};
use crate::stmts::{release_stage, reserve_stage, rows};
use pdl_kit::{NoMemory, Seq};
use std::alloc::Global;

/// The numbers of the statements of each of so many stages.
pub fn all_rows(
    alloc: Global,
    stmts: &[FlatStmt],
    count: usize,
) -> Result<Vec<Seq<usize>>, NoMemory>
    ensures { IfOk result (λ rs. rs.items ≡ rows_below count (stmts_view stmts.now)) }
{
    let mut all = Vec::new(alloc);
    for stage in 0..count {
        let rows = rows(alloc, stmts, stage)?;
        all.push(Seq::from_vec(rows))?;
    }
    Ok(all)
}

/// The stage of each memory's reserves.
pub fn reserve_stages(
    alloc: Global,
    stmts: &[FlatStmt],
    mems: &[FlatMem],
) -> Result<Vec<Option<usize>>, NoMemory>
    ensures { IfOk result (λ r. r.items
        ≡ stage_of_each stages.is_reserve (stmts_view stmts.now) 0 (mems_view mems.now)) }
{
    let mut all = Vec::new(alloc);
    for (m, _) in mems.iter().enumerate() {
        all.push(reserve_stage(stmts, m))?;
    }
    Ok(all)
}

/// The stage of each memory's releases.
pub fn release_stages(
    alloc: Global,
    stmts: &[FlatStmt],
    mems: &[FlatMem],
) -> Result<Vec<Option<usize>>, NoMemory>
    ensures { IfOk result (λ r. r.items
        ≡ stage_of_each stages.is_release (stmts_view stmts.now) 0 (mems_view mems.now)) }
{
    let mut all = Vec::new(alloc);
    for (m, _) in mems.iter().enumerate() {
        all.push(release_stage(stmts, m))?;
    }
    Ok(all)
}
