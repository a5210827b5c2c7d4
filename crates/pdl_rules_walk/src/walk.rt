// One walk along each path, on which rules are asked together.
ghost use Rattle.std.specs.Prelude.{◌≡◌, ◌+◌, ◌^◌, ◌<◌, ◌≤◌, true, map, length, IfOk, OnOk};
ghost use Rattle.pdl_rules.specs.Places as spec;
ghost use Rattle.pdl_paths.specs.Actions.{place_view};
ghost use Rattle.pdl_paths.specs.Masks.{AreMasked, are_distinct};

use crate::path_rules::PathRules;
use pdl_kit::NoMemory;
use pdl_paths::{Guards, Path, Place};
use std::alloc::Global;

/// For each of some rules the line of the lowest place that breaks it on some path, none where no place does.
///
/// The guards are those of the places, at most ten, and the places have their masks.
pub fn broken_lines<R: PathRules>(
    alloc: Global,
    rules: &R,
    guards: &Guards,
    places: &[Place<'_>],
) -> Result<R::Lines, NoMemory>
    requires few { length guards.now ≤ 10 }
    requires own { guards.now ≡ spec.guards (map place_view places.now) }
    requires masks { AreMasked guards.now places.now }
    requires suits { R.suits rules.now guards.now (map place_view places.now) }
    ensures { IfOk result (λ lines.
        R.break_at rules.now guards.now (map place_view places.now) lines) }
{
    let mut lowest = rules.unbroken(places.len());
    for bits in 0..guards.path_count() {
        let path = Path { bits: bits as u16 };
        lowest = walk(alloc, rules, guards, places, path, lowest)?;
    }
    Ok(rules.lines(places, lowest))
}

// Asks the rules along a path, with the lowest places of the paths before.
fn walk<R: PathRules>(
    alloc: Global,
    rules: &R,
    guards: &Guards,
    places: &[Place<'_>],
    path: Path,
    lowest: R::Lowest,
) -> Result<R::Lowest, NoMemory>
    requires few { length guards.now ≤ 10 }
    requires own { are_distinct guards.now ≡ true }
    requires masks { AreMasked guards.now places.now }
    requires suits { R.suits rules.now guards.now (map place_view places.now) }
    requires path { path.bits < 2 ^ length guards.now }
    requires found { R.found rules.now guards.now (map place_view places.now) path.bits lowest }
    ensures { IfOk result (λ now. R.found rules.now guards.now (map place_view places.now)
        (path.bits + 1) now) }
{
    let mut courses = rules.start(alloc, path, lowest)?;
    for k in 0..places.len() {
        pass(rules, guards, places, path, k, &mut courses)?;
    }
    Ok(rules.end(courses))
}

// Passes the k-th place.
fn pass<R: PathRules>(
    rules: &R,
    guards: &Guards,
    places: &[Place<'_>],
    path: Path,
    k: usize,
    courses: &mut R::Courses,
) -> Result<(), NoMemory>
    requires few { length guards.now ≤ 10 }
    requires own { are_distinct guards.now ≡ true }
    requires masks { AreMasked guards.now places.now }
    requires suits { R.suits rules.now guards.now (map place_view places.now) }
    requires path { path.bits < 2 ^ length guards.now }
    requires here { k < length places.now }
    requires stand { R.stand rules.now guards.now
        (map place_view places.now) path.bits k courses.old }
    ensures { OnOk result (R.stand rules.now guards.now (map place_view places.now) path.bits
        (k + 1) courses.new) }
{
    let place = &places[k];
    if place.is_on(path) {
        rules.pass(courses, k, place)?;
    }
    Ok(())
}
