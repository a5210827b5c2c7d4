// What the ports show of the stages.
ghost use Rattle.std.specs.Prelude.{◌≡◌, ◌≤◌, ◌+◌, ◌*◌, ◌++◌, ◌∷◌, [], is_some, length, vec_len, vec_capacity};
ghost use Rattle.pdl_word.specs.Words.{bit};
ghost use Rattle.pdl_machine_facts.specs.Ports.{stage_values};
ghost use Rattle.pdl_form.specs.FormView.{form};
ghost use Rattle.pdl_machine_run.specs.Acts.{mover_of, act_of, acts_of, are_held, are_moving, one_ends};

use crate::stage::Stage;
use crate::step::mover;
use crate::ways::next_stage;
use pdl_form::FlatPipe;
use pdl_word::Word;

// Shows of a stage whether it holds a thread, and whether that moves.
fn show_stage(stage: &Stage, shown: &mut Vec<Word>)
    requires room { vec_len shown.old + 2 ≤ vec_capacity shown.old }
    ensures shown { shown.new.items
        ≡ shown.old.items ++ stage_values (is_some stage.now.slot.number ∷ [])
        (stage.now.moves ∷ []) }
    ensures capacity { vec_capacity shown.new ≡ vec_capacity shown.old }
{
    shown.push_reserved(Word::from(stage.slot.number.is_some()));
    shown.push_reserved(Word::from(stage.moves));
}

/// Shows the same of all stages.
pub fn show_stages(stages: &[Stage], shown: &mut Vec<Word>)
    requires room { vec_len shown.old + 2 * length stages.now ≤ vec_capacity shown.old }
    ensures shown { shown.new.items
        ≡ shown.old.items ++ stage_values (are_held stages.now) (are_moving stages.now) }
    ensures capacity { vec_capacity shown.new ≡ vec_capacity shown.old }
{
    for stage in stages {
        show_stage(stage, shown);
    }
}

// Whether the thread that moves out of stage k, if one does, ends.
fn ends(pipe: &FlatPipe, k: usize, stage: &Stage) -> bool
    ensures { result ≡ one_ends (form pipe.now).pipe (act_of k (mover_of stage.now) stage.now) }
{
    mover(stage).is_some() && next_stage(pipe, k, &stage.deeds).is_none()
}

// Whether a thread ends.
fn has_ended(pipe: &FlatPipe, stages: &[Stage]) -> bool
    ensures { result ≡ one_ends (form pipe.now).pipe (acts_of 0 stages.now) }
{
    for k in 0..stages.len() {
        if ends(pipe, k, &stages[k]) {
            return true;
        }
    }
    false
}

/// Shows whether a thread ended, and whether there was a squash.
pub fn show_end(pipe: &FlatPipe, stages: &[Stage], squashed: bool, shown: &mut Vec<Word>)
    requires room { vec_len shown.old + 2 ≤ vec_capacity shown.old }
    ensures shown { shown.new.items
        ≡ shown.old.items ++ bit (one_ends (form pipe.now).pipe (acts_of 0 stages.now))
        ∷ bit squashed ∷ [] }
    ensures capacity { vec_capacity shown.new ≡ vec_capacity shown.old }
{
    shown.push_reserved(Word::from(has_ended(pipe, stages)));
    shown.push_reserved(Word::from(squashed));
}
