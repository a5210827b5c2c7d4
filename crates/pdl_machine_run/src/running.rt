// A pipe as it runs.
ghost use Rattle.std.specs.Prelude.{◌≡◌, ◌<◌, ◌≤◌, ◌+◌, ◌^◌, suc, if◌then◌else◌, IfOk, replicate};
ghost use Rattle.pdl_semantics.specs.Flat.{arrays_of};
ghost use Rattle.pdl_semantics.specs.Moves.{all_acts};
ghost use Rattle.pdl_semantics.specs.Cycle as stated;
ghost use Rattle.pdl_form.specs.FormView.{form};
ghost use Rattle.pdl_machine_run.specs.Running.{IsRunnable, AreImages};
ghost use Rattle.pdl_machine_facts.specs.Ports.{whole_values};
ghost use Rattle.pdl_machine_run.specs.Outputs.{output_count};
ghost use Rattle.pdl_machine_run.specs.Runs.{state_in, IsRunning};

use crate::beside::Beside;
use crate::cycle::cycle;
use crate::requests::waits;
use crate::setup::{first_beside, first_stages, outputs, slot, zeros};
use crate::stage::{Stage, ThreadSlot};
use pdl_form::FlatPipe;
use pdl_image::Image;
use pdl_kit::NoMemory;
use pdl_word::Word;
use std::alloc::Global;

/// A run of a pipe: its threads by their stages, what stands beside these, and what its ports showed in the last cycle.
pub struct Run {
    stages: Vec<Stage>,
    beside: Beside,
    // Room for the new thread on its way into stage 0.
    way: ThreadSlot,
    next: u64,
    shown: Vec<Word>,
    waited: bool,
}

// As the derive would, but by a call of its owners: docs/DECISIONS.md says why.
impl Drop for Run {
    fn drop(self) {
        let Run {
            stages: _,
            beside: _,
            way: _,
            next: _,
            shown: _,
            waited: _,
        } = self;
    }
}

impl Run {
    /// The run of a pipe whose memories hold the image, with the first thread in stage 0.
    pub fn new(alloc: Global, pipe: &FlatPipe, image: &Image) -> Result<Run, NoMemory>
        requires run { IsRunnable (form pipe.now) }
        requires image { AreImages (form pipe.now).pipe image.now }
        ensures runs { IfOk result (λ r. IsRunning (form pipe.now) r) }
        ensures first { IfOk result (λ r.
            state_in r ≡ stated.first (form pipe.now).pipe (arrays_of image.now)) }
        ensures shown { IfOk result (λ r.
            r.shown.items ≡ replicate (output_count (form pipe.now).pipe) 0) }
        ensures next { IfOk result (λ r. r.next ≡ 2) }
    {
        let room = 2 * pipe.stages().len() + 8 * pipe.mems().len() + 2;
        let beside = first_beside(alloc, pipe, image)?;
        let count = outputs(pipe, beside.twice.as_slice());
        let stages = first_stages(alloc, pipe)?;
        let way = slot(alloc, pipe)?;
        let shown = zeros(alloc, count, room)?;
        Ok(Run {
            stages,
            beside,
            way,
            next: 2,
            shown,
            waited: false,
        })
    }

    /// One clock cycle, in which each delayed memory has its reply, in declared order.
    pub fn cycle(&mut self, pipe: &FlatPipe, replies: &[bool])
        requires run { IsRunnable (form pipe.now) }
        requires runs { IsRunning (form pipe.now) self.old }
        requires next { self.old.next + 1 < 2 ^ 64 }
        ensures runs { IsRunning (form pipe.now) self.new }
        ensures state { state_in self.new
            ≡ stated.cycle (form pipe.now).pipe (state_in self.old) replies.now }
        ensures ports { self.new.shown.items ≡ whole_values (form pipe.now).pipe
            (stated.ports (form pipe.now).pipe (state_in self.old)
            (all_acts (form pipe.now).pipe (state_in self.old) replies.now)) }
        ensures waited { self.new.waited
            ≡ stated.is_wait (form pipe.now).pipe (state_in self.old) replies.now }
        ensures next { self.new.next ≤ self.old.next + 1 }
    {
        self.waited = waits(pipe, replies, self.beside.requests.as_slice());
        let called = cycle(
            pipe,
            replies,
            &mut self.beside,
            self.stages.as_mut_slice(),
            &mut self.way,
            self.next,
            &mut self.shown,
        );
        self.next = next_number(self.next, called);
    }

    /// Whether the last cycle was a wait: some request was outstanding at its start and wasn't answered in it; false before the first.
    pub fn waited(&self) -> bool
        ensures { result ≡ self.now.waited }
    {
        self.waited
    }

    /// Lends what the ports showed in the last cycle, zeros before the first.
    pub fn shown(&self) -> &[Word]
        ensures { result.now ≡ self.now.shown.items }
    {
        self.shown.as_slice()
    }
}

// The number of the next thread.
fn next_number(next: u64, called: bool) -> u64
    requires { next + 1 < 2 ^ 64 }
    ensures { result ≡ (if called then suc next else next) }
{
    if called { next + 1 } else { next }
}
