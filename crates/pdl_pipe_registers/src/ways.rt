// The stages that may lead to a stage.
ghost use Rattle.std.specs.Prelude.{◌≡◌, ◌<◌, ◌≤◌, IfOk, length};
ghost use Rattle.pdl_form.specs.FormView.{form};
ghost use Rattle.pdl_machine_facts.specs.Slots.{ways as all_ways};

use pdl_form::FlatPipe;
use pdl_kit::NoMemory;
use pdl_pipe_answers::{leads_to, next_of};
use std::alloc::Global;

/// The numbers of the stages that may lead to stage q, the lower ones first.
pub fn ways_into(alloc: Global, pipe: &FlatPipe, q: usize) -> Result<Vec<usize>, NoMemory>
    ensures { IfOk result (λ js. js.items ≡ all_ways (form pipe.now).pipe q) }
{
    let mut list = Vec::new(alloc);
    for j in 0..q {
        if leads_to(next_of(pipe, j), q) {
            list.push(j)?;
        }
    }
    Ok(list)
}
