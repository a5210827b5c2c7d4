// The statements of all stages, carried out for their threads.
ghost use Rattle.std.specs.Prelude.{◌≡◌, ◌<◌, ℕ, length, slice_index_or, IfSome};
ghost use Rattle.pdl_form.specs.FormView.{form};
ghost use Rattle.pdl_form_types.specs.Stmts.{IsTypedForm};
ghost use Rattle.pdl_machine_run.specs.View.{thread_in};
ghost use Rattle.pdl_machine_run.specs.Acts.{IsCarried};
ghost use Rattle.pdl_machine_run.specs.Typed.{IsFine, AreMemories};
ghost use Rattle.pdl_machine_run.specs.Ready.{IsStage, AreStages};
ghost use Rattle.pdl_machine_run.specs.declared.stage.Stage as r_stage;

use crate::answers::give_answers;
use crate::beside::Beside;
use crate::stage::Stage;
use crate::stmts::run_stage;
use pdl_form::FlatPipe;

// The thread of stage k, if there is one, has this cycle's answers, and the statements of its stage are carried out for it.
fn carry_out(pipe: &FlatPipe, beside: &Beside, replies: &[bool], k: usize, stage: &mut Stage)
    requires stage { k < length (form pipe.now).pipe.stages }
    requires typed { IsTypedForm (form pipe.now) }
    requires memories { AreMemories (form pipe.now).pipe beside.now.memories.items }
    requires wide { IsStage (form pipe.now) stage.old }
    requires fine { IfSome (thread_in stage.old.slot) (IsFine (form pipe.now) k) }
    ensures carried { IsCarried (form pipe.now) beside.now replies.now k (thread_in stage.old.slot)
        stage.new }
    ensures wide { IsStage (form pipe.now) stage.new }
{
    if let Some(thread) = stage.slot.number {
        give_answers(pipe, beside, replies, thread, &mut stage.slot);
        stage.deeds.begin(pipe, k, &stage.slot);
        run_stage(
            pipe,
            beside.memories.as_slice(),
            thread,
            k,
            &mut stage.deeds,
        );
    }
}

/// The threads of all stages have this cycle's answers, and the statements of their stages are carried out for them.
pub fn carry_out_all(pipe: &FlatPipe, beside: &Beside, replies: &[bool], stages: &mut [Stage])
    requires stages { length stages.old ≡ length (form pipe.now).pipe.stages }
    requires typed { IsTypedForm (form pipe.now) }
    requires memories { AreMemories (form pipe.now).pipe beside.now.memories.items }
    requires wide { AreStages (form pipe.now) stages.old }
    requires fine { (k : ℕ) (d : r_stage.Stage) → k < length stages.old →
        IfSome (thread_in (slice_index_or stages.old k d).slot) (IsFine (form pipe.now) k) }
    ensures carried { (k : ℕ) (d : r_stage.Stage) → k < length stages.old →
        IsCarried (form pipe.now) beside.now replies.now k
        (thread_in (slice_index_or stages.old k d).slot) (slice_index_or stages.new k d) }
    ensures wide { AreStages (form pipe.now) stages.new }
{
    for k in 0..stages.len() {
        carry_out(pipe, beside, replies, k, &mut stages[k]);
    }
}
