// The first place that breaks a rule.
ghost use Rattle.std.specs.Prelude.{◌≡◌, [], map, length, IfOk};
ghost use Rattle.pdl_paths.specs.Actions.{place_view};
ghost use Rattle.pdl_rules_on_paths.specs.Lowest.{breaks_at, line_where, IsLowest};

use crate::text_rule::TextRule;
use pdl_kit::NoMemory;
use pdl_paths::Place;
use pdl_rules_on_paths::line_at;
use std::alloc::Global;

/// The line of the first place that breaks a rule, counted from 1, none where no place does.
pub fn line_broken<R: TextRule>(
    alloc: Global,
    rule: &R,
    places: &[Place<'_>],
) -> Result<Option<u32>, NoMemory>
    requires { R.fits rule.now places.now }
    ensures { IfOk result (λ line. line
        ≡ line_where (R.breaks_on rule.now) [] (map place_view places.now)) }
{
    let lowest = lowest_place(alloc, rule, places)?;
    Ok(line_at(places, lowest))
}

// The number of the first place that breaks a rule; how many places there are, where none does.
fn lowest_place<R: TextRule>(
    alloc: Global,
    rule: &R,
    places: &[Place<'_>],
) -> Result<usize, NoMemory>
    requires { R.fits rule.now places.now }
    ensures { IfOk result (λ k. IsLowest
        (breaks_at (R.breaks_on rule.now) (map place_view places.now)) (length places.now) k) }
{
    let mut state = rule.start(alloc, places)?;
    for k in 0..places.len() {
        if rule.breaks(&state, places, k) {
            return Ok(k);
        }
        rule.step(alloc, &mut state, places, k)?;
    }
    Ok(places.len())
}
