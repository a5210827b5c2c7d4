// The limits of a tree.
ghost use Rattle.std.specs.Prelude.{◌≡◌, ◌+◌, ◌<◌, None, IfOk, OnOk, map, length, take, option_map};
ghost use Rattle.pdl_semantics.specs.Tree.{Pipe};
ghost use Rattle.pdl_rules.specs.Places as rules;
ghost use Rattle.pdl_rules.specs.Refusal.{first_broken, limits as spec_limits};
ghost use Rattle.pdl_paths.specs.Actions.{place_view};
ghost use Rattle.pdl_rules_on_texts.specs.Refused.{refused_of};
ghost use Rattle.pdl_rules_judge.specs.Counts.{AreCounts};
ghost use Rattle.pdl_rules_judge.specs.LimitLines.{AreLines};

use crate::counts::Counts;
use crate::limit_lines::Lines;
use crate::over::over_at;
use pdl_kit::NoMemory;
use pdl_paths::{Guards, Place};
use pdl_rules_on_texts::Broken;
use std::alloc::Global;

/// The lowest limit, Z2 to Z7, that a pipe with these places is over, at its lowest place; none where it is within them.
pub fn check_limits(alloc: Global, places: &[Place<'_>]) -> Result<Option<Broken>, NoMemory>
    ensures { (p : Pipe) → map place_view places.now ≡ rules.places p →
        IfOk result (λ broken. option_map refused_of broken ≡ first_broken spec_limits p) }
{
    let lines = lines_of(alloc, places)?;
    Ok(lines.lowest())
}

// Of each limit the line of the first place that is over it.
fn lines_of(alloc: Global, places: &[Place<'_>]) -> Result<Lines, NoMemory>
    ensures { (p : Pipe) → IfOk result (λ lines. AreLines p (map place_view places.now) lines) }
{
    let mut lines = Lines::new();
    let mut counts = Counts::new();
    let mut guards = Guards::new(alloc);
    for k in 0..places.len() {
        lines = with_place(counts, &guards, places, k, lines);
        counts = counts.with(places, k);
        add_guard(&mut guards, places, k, lines)?;
    }
    Ok(lines)
}

// The lines with the k-th place. No guards are asked for once they are too many.
fn with_place(
    counts: Counts,
    guards: &Guards,
    places: &[Place<'_>],
    k: usize,
    lines: Lines,
) -> Lines
    requires here { k < length places.now }
    requires counts { AreCounts (take k (map place_view places.now)) counts }
    requires guards { lines.z6 ≡ None →
        guards.now ≡ rules.guards (take k (map place_view places.now)) }
    ensures lines { (p : Pipe) → AreLines p (take k (map place_view places.now)) lines →
        AreLines p (take (k + 1) (map place_view places.now)) result }
    ensures few { result.z6 ≡ None → lines.z6 ≡ None }
{
    let place = &places[k];
    lines.with(over_at(counts, guards, place), place.line())
}

// Adds the guard of the k-th place, while they aren't too many.
fn add_guard(
    guards: &mut Guards,
    places: &[Place<'_>],
    k: usize,
    lines: Lines,
) -> Result<(), NoMemory>
    requires here { k < length places.now }
    requires guards { lines.z6 ≡ None →
        guards.old ≡ rules.guards (take k (map place_view places.now)) }
    ensures { OnOk result (lines.z6 ≡ None →
        guards.new ≡ rules.guards (take (k + 1) (map place_view places.now))) }
{
    if lines.z6.is_some() {
        return Ok(());
    }
    guards.add(&places[k])?;
    Ok(())
}
