// Guards of statements.
ghost use Rattle.std.specs.Prelude.{◌≡◌, slice_index};
ghost use Rattle.pdl_semantics.specs.Flat.{takes_branch, all_hold};
ghost use Rattle.pdl_form.specs.View.{guards_view};

use crate::value::variable;
use pdl_form::FlatGuard;
use pdl_word::Word;

// Whether a branch is taken.
fn is_taken(guard: FlatGuard, values: &[Word]) -> bool
    ensures { result ≡ takes_branch guard.first (slice_index values.now guard.var) }
{
    if guard.first {
        variable(values, guard.var) == 1
    } else {
        variable(values, guard.var) != 1
    }
}

/// Whether each of these branches is taken where the variables have these values.
pub fn are_taken(guards: &[FlatGuard], values: &[Word]) -> bool
    ensures { result ≡ all_hold (guards_view guards.now) values.now }
{
    for guard in guards {
        if !is_taken(*guard, values) {
            return false;
        }
    }
    true
}
