// The separators passed on each path.
ghost use Rattle.std.specs.Prelude.{◌≡◌, ◌≤◌, ◌<◌, ◌^◌, [], List, length, if◌then◌else◌, true, IfOk};
ghost use Rattle.pdl_rules.specs.Places as rules;
ghost use Rattle.pdl_paths.specs.Actions.{place_view};
ghost use Rattle.pdl_paths.specs.Masks.{IsMasked, are_distinct, path_of};
ghost use Rattle.pdl_rules_names.specs.Ready.{AreLast, AreMarked};

use pdl_kit::NoMemory;
use pdl_paths::{Guards, Path, Place};
use std::alloc::Global;

/// Before the first place: none was passed on any path of these guards, at most ten.
pub fn none_passed(alloc: Global, guards: &Guards) -> Result<Vec<usize>, NoMemory>
    requires { length guards.now ≤ 10 }
    ensures { IfOk result (λ last. AreLast guards.now [] last.items) }
{
    let mut last = Vec::new(alloc);
    for _path in 0..guards.path_count() {
        last.push(0)?;
    }
    Ok(last)
}

/// The same after the k-th place, a separator, on at most 1,024 paths.
pub fn separator_passed(
    alloc: Global,
    last: &[usize],
    place: &Place<'_>,
    k: usize,
) -> Result<Vec<usize>, NoMemory>
    requires { length last.now ≤ 1024 }
    ensures { IfOk result (λ new. (gs : List rules.Guard) → IsMasked gs place.now →
        are_distinct gs ≡ true → length gs ≤ 10 → length last.now ≡ 2 ^ length gs →
        AreMarked gs (place_view place.now) k last.now new.items) }
{
    let mut new = Vec::new(alloc);
    for b in 0..last.len() {
        new.push(number_on(place, b, k, last[b]))?;
    }
    Ok(new)
}

// The number of a path, by its bits, that had an old one.
fn number_on(place: &Place<'_>, b: usize, k: usize, old: usize) -> usize
    requires { b < 1024 }
    ensures { (gs : List rules.Guard) → IsMasked gs place.now → are_distinct gs ≡ true →
        length gs ≤ 10 → b < 2 ^ length gs →
        result ≡ (if rules.on_path (path_of gs b) (place_view place.now) then k else old) }
{
    let path = Path { bits: b as u16 };
    if place.is_on(path) { k } else { old }
}
