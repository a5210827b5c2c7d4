// Stages as a pipe has them, and where threads go from them.
ghost use Rattle.std.specs.Prelude.{◌≡◌};
ghost use Rattle.pdl_semantics.specs.Stages as stages;
ghost use Rattle.pdl_semantics.specs.Moves as moves;
ghost use Rattle.pdl_form.specs.View.{next_view, stage_view};
ghost use Rattle.pdl_form.specs.FormView.{form};
ghost use Rattle.pdl_machine_run.specs.View.{deeds_view};

use crate::deeds::Deeds;
use pdl_form::{FlatPipe, FlatStage, NO_BRANCHES, Next};
use pdl_form_values::variable;
use pdl_word::Word;

/// The stage of a number, past the end one that leads out of the pipe.
pub fn stage_at(pipe: &FlatPipe, k: usize) -> FlatStage
    ensures { stage_view result ≡ stages.stage_at (form pipe.now).pipe k }
{
    match pipe.stages().get(k) {
        None => FlatStage {
            next: Next::Ends,
            branches: NO_BRANCHES,
            merges: None,
        },
        Some(stage) => *stage,
    }
}

// Where a thread with these values goes, none where it ends.
fn goes_to(next: Next, values: &[Word]) -> Option<usize>
    ensures { result ≡ stages.goes_to (next_view next) values.now }
{
    match next {
        Next::Ends => None,
        Next::Goes(to) => Some(to),
        Next::Forks { x, first, second } => {
            if variable(values, x) == 1 {
                Some(first)
            } else {
                Some(second)
            }
        }
    }
}

/// The stage to which a thread goes from stage k after these deeds, none where it ends.
pub fn next_stage(pipe: &FlatPipe, k: usize, deeds: &Deeds) -> Option<usize>
    ensures { result ≡ moves.next_stage (form pipe.now).pipe k (deeds_view deeds.now) }
{
    goes_to(stage_at(pipe, k).next, deeds.values.as_slice())
}
