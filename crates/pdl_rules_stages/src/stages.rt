// The stages of places.
ghost use Rattle.std.specs.Prelude.{◌≡◌, ◌<◌, map, take, length, get_or, IfOk};
ghost use Rattle.pdl_rules.specs.Stages as spec;
ghost use Rattle.pdl_paths.specs.Actions.{place_view};
ghost use Rattle.pdl_paths.specs.Guards.{branch_view};
ghost use Rattle.pdl_rules_stages.specs.Stages.{stages_in};

use crate::branches::are_outer;
use pdl_kit::NoMemory;
use pdl_paths::{Branch, Place, branches_at, is_separator};
use std::alloc::Global;

/// The stage of each place, counted from 0: that of the last separator before it whose branches it stands in too, else the first.
pub fn stages_of(alloc: Global, places: &[Place<'_>]) -> Result<Vec<usize>, NoMemory>
    ensures { IfOk result (λ stages. stages.items ≡ stages_in (map place_view places.now)) }
{
    let mut stages = Vec::new(alloc);
    for k in 0..places.len() {
        stages.push(stage_in(&places[..k], branches_at(&places[k])))?;
    }
    Ok(stages)
}

/// The stage, counted from 0, of what stands in these branches after these places.
pub fn stage_in(before: &[Place<'_>], branches: &[Branch<'_>]) -> usize
    ensures { result ≡ spec.stage_in (map place_view before.now) (map branch_view branches.now) }
{
    let mut begun = 0;
    let mut found = 0;
    for place in before {
        if is_separator(place) {
            begun += 1;
            if are_outer(branches_at(place), branches) {
                found = begun;
            }
        }
    }
    found
}

/// The k-th of some stages, 0 past the last.
pub fn stage_at(stages: &[usize], k: usize) -> usize
    ensures { result ≡ get_or stages.now k 0 }
{
    match stages.get(k) {
        Some(stage) => *stage,
        None => 0,
    }
}
