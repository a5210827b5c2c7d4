// The line of a place by its number.
ghost use Rattle.std.specs.Prelude.{◌≡◌, map};
ghost use Rattle.pdl_paths.specs.Actions.{place_view};
ghost use Rattle.pdl_rules_on_paths.specs.Lowest.{nth_line};

use pdl_paths::Place;

/// The line of the k-th place, none past the last one.
pub fn line_at(places: &[Place<'_>], k: usize) -> Option<u32>
    ensures { result ≡ nth_line (map place_view places.now) k }
{
    if k < places.len() {
        Some(places[k].line())
    } else {
        None
    }
}
