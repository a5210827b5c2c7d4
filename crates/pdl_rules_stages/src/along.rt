// What stands ahead on a path.
ghost use Rattle.std.specs.Prelude.{◌≡◌, suc, ◌-◌, ◌<◌, ◌≤◌, ◌^◌, List, map, take, drop, length};
ghost use Rattle.pdl_rules.specs.Places.{Guard as SpecGuard};
ghost use Rattle.pdl_rules.specs.Stages as spec;
ghost use Rattle.pdl_paths.specs.Actions.{place_view};
ghost use Rattle.pdl_paths.specs.Masks.{path_of};
ghost use Rattle.pdl_rules_stages.specs.PathBits.{HavePaths, IsPath};

use pdl_paths::{Guards, Path, Place, is_separator};

/// The path on which each of at most ten guards is true.
pub fn all_true(guards: &Guards) -> Path
    requires { length guards.now ≤ 10 }
    ensures { result.bits ≡ 2 ^ length guards.now - 1 }
{
    Path {
        bits: (guards.path_count() - 1) as u16,
    }
}

/// A path without the bits of numbers that no guard has; `all` is the path on which each guard is true.
pub fn among(all: Path, path: Path) -> Path
    ensures { (gs : List SpecGuard) → all.bits ≡ 2 ^ length gs - 1 →
        IsPath gs (path_of gs path.bits) result.bits }
{
    Path {
        bits: path.bits & all.bits,
    }
}

/// The stage that the next separator on a path begins after the k-th place, 0 where there is none.
pub fn next_on(places: &[Place<'_>], path: Path, k: usize) -> usize
    ensures { (gs on : List SpecGuard) → HavePaths gs places.now → IsPath gs on path.bits →
        k < length places.now → result
        ≡ spec.next_on on (spec.stage_after (take k (map place_view places.now)))
        (drop (suc k) (map place_view places.now)) }
{
    if k >= places.len() {
        return 0;
    }
    let mut begun = begun_before(&places[..k]);
    for j in k + 1..places.len() {
        let place = &places[j];
        if is_separator(place) {
            if place.is_on(path) {
                return begun + 1;
            }
            begun += 1;
        }
    }
    0
}

/// How many stages have begun after the first by these places.
pub fn begun_before(before: &[Place<'_>]) -> usize
    ensures is { result ≡ spec.stage_after (map place_view before.now) }
    ensures few { result ≤ length before.now }
{
    let mut begun = 0;
    for place in before {
        if is_separator(place) {
            begun += 1;
        }
    }
    begun
}
