// The machine of an accepted pipe.
ghost use Rattle.std.specs.Prelude.{◌≡◌, ◌<◌, ◌+◌, ◌^◌, ℕ, Bool, false, IsTrue, List, [], ◌∷◌, ◌++◌, IfOk, length, replicate, slice_index};
ghost use Rattle.pdl_semantics.specs.Flat.{Arrays, arrays_of};
ghost use Rattle.pdl_semantics.specs.Flatten.{flat};
ghost use Rattle.pdl_semantics.specs.Moves.{all_acts};
ghost use Rattle.pdl_semantics.specs.Cycle as stated;
ghost use Rattle.pdl_semantics.specs.Promises.{Refines, Advances, KeepsPace, DifferInAdvice, AdviceIsIdle};
ghost use Rattle.pdl_semantics.specs.UpdateFree.{UpdatesAreIdle};
ghost use Rattle.pdl_semantics.specs.Sound.{is_sound};
ghost use Rattle.pdl_syntax_tree.specs.View.{pipe_view};
ghost use Rattle.pdl_image.specs.Images.{IsImage};
ghost use Rattle.pdl_machine_facts.specs.Ports.{whole_values};
ghost use Rattle.pdl_machine_run.specs.Outputs.{output_count};
ghost use Rattle.pdl_machine.specs.Running.{flat_of, state_of, replies_to, HasRun};
ghost use Rattle.pdl_rules.specs.Memories.{infos_of};

use crate::replies::{no_replies, put_bits};
use pdl_check::Accepted;
use pdl_image::Image;
use pdl_kit::NoMemory;
use pdl_machine_run::Run;
use pdl_word::Word;
use std::alloc::Global;
use std::marker::Model;

/// An accepted pipe that runs, with room for the replies of a cycle, and how many cycles it has run.
#[derive(Drop)]
pub struct Machine<'a> {
    accepted: &'a Accepted,
    run: Run,
    replies: Vec<bool>,
    cycles: u64,
}

impl<'a> Model for Machine<'a> {
    ghost use Rattle.std.specs.Coded.{codes};
    ghost use Rattle.pdl_syntax_tree.specs.contracts.tree.Stmt as stmt;
    ghost use Rattle.pdl_syntax_tree.specs.contracts.tree.Expr as expr;
    ghost use Rattle.pdl_machine.specs.Running.{Running};

    ghost Value = { Running };

    ghost coded = { Prim.hlevel (codes, stmt.the_row.coded, expr.the_row.coded) };

    ghost use Rattle.pdl_machine.specs.Inside.{running, IsReady};

    ghost view = { running };

    ghost invariant = { IsReady };
}

impl<'a> Machine<'a> {
    /// A machine whose memories hold the image, with the first thread in stage 0.
    pub fn new(
        alloc: Global,
        accepted: &'a Accepted,
        image: &Image,
    ) -> Result<Machine<'a>, NoMemory>
        requires { IsImage (infos_of (pipe_view accepted.now.typed.pipe).mems) image.now }
        ensures first { IfOk result (λ m.
            state_of m ≡ stated.first (flat (pipe_view accepted.now.typed.pipe))
            (arrays_of image.now)) }
        ensures run { IfOk result (λ m. HasRun m image.now []) }
        ensures shown { IfOk result (λ m.
            m.shown ≡ replicate (output_count (flat (pipe_view accepted.now.typed.pipe))) 0) }
        ensures pipe { IfOk result (λ m. m.pipe ≡ accepted.now.typed.pipe) }
        ensures cycles { IfOk result (λ m. m.cycles ≡ 0) }
    {
        pdl_form_types::typed_form();
        let run = Run::new(alloc, &accepted.flat, image)?;
        let replies = no_replies(alloc, accepted.flat.mems())?;
        Ok(Machine {
            accepted,
            run,
            replies,
            cycles: 0,
        })
    }

    /// One clock cycle, of the first 2^32, in which bit j of the replies is that of the j-th delayed memory.
    pub fn cycle(&mut self, replies: u16)
        requires { self.old.cycles < 2 ^ 32 }
        ensures state { state_of self.new
            ≡ stated.cycle (flat_of self.old) (state_of self.old) (replies_to self.old replies) }
        ensures ports { self.new.shown ≡ whole_values (flat_of self.old)
            (stated.ports (flat_of self.old) (state_of self.old)
            (all_acts (flat_of self.old) (state_of self.old) (replies_to self.old replies))) }
        ensures waited { self.new.waited
            ≡ stated.is_wait (flat_of self.old) (state_of self.old) (replies_to self.old replies) }
        ensures pipe { self.new.pipe ≡ self.old.pipe }
        ensures cycles { self.new.cycles ≡ self.old.cycles + 1 }
        // Whatever the machine has run with, it runs on with.
        ensures run { (image : List (List ℕ)) (schedule : List (List Bool)) →
            HasRun self.old image schedule →
            HasRun self.new image (schedule ++ replies_to self.old replies ∷ []) }
        // What its memories have received are the writes of the sequential run, the oldest thread moved where the cycle is no wait, and enough threads have ended.
        ensures refines { (image : List (List ℕ)) (schedule : List (List Bool)) →
            HasRun self.new image schedule → Refines (flat_of self.new) (arrays_of image) schedule }
        ensures moves { (image : List (List ℕ)) (schedule : List (List Bool)) →
            HasRun self.old image schedule →
            Advances (flat_of self.old) (arrays_of image) schedule (replies_to self.old replies) }
        ensures pace { (image : List (List ℕ)) (schedule : List (List Bool)) →
            HasRun self.new image schedule →
            KeepsPace (flat_of self.new) (arrays_of image) schedule }
        // What its advisory memories hold changes no write: from an image that differs in them alone the threads write the same, and of the commits of two runs, with any replies, one's begin with the other's.
        ensures advice { (image : List (List ℕ)) (schedule : List (List Bool)) →
            HasRun self.new image schedule → (other : Arrays) (replies : List (List Bool)) →
            DifferInAdvice (flat_of self.new) (arrays_of image) other →
            AdviceIsIdle (flat_of self.new) (arrays_of image) other schedule replies }
        // Nor do updates: without them the threads of the source write the same, and what both commit, with any replies, begins one list.
        ensures updates { (image : List (List ℕ)) (schedule : List (List Bool)) →
            HasRun self.new image schedule → (replies : List (List Bool)) →
            UpdatesAreIdle (pipe_view self.new.pipe) (arrays_of image) schedule replies }
        // Its state is sound: it passes the whole test of Sound state, with as many turns of the sequential run as threads have ended.
        ensures sound { (image : List (List ℕ)) (schedule : List (List Bool)) →
            HasRun self.new image schedule →
            IsTrue (is_sound (flat_of self.new) (arrays_of image)
            (stated.ended_in (stated.turns (flat_of self.new) (arrays_of image) schedule))
            (state_of self.new)) }
    {
        put_bits(self.replies.as_mut_slice(), replies);
        self.run.cycle(&self.accepted.flat, self.replies.as_slice());
        self.cycles += 1;
    }

    /// How many output ports there are: two for each stage, three for each memory with a lock, or six where a path reserves it twice to write, two for each delayed memory, and two more.
    pub fn port_count(&self) -> usize
        ensures count { result ≡ output_count (flat_of self.now) }
        ensures shown { result ≡ length self.now.shown }
    {
        self.run.shown().len()
    }

    /// The value of the output port at place i in the last cycle, 0 before the first.
    pub fn port(&self, i: usize) -> Word
        requires { i < length self.now.shown }
        ensures { result ≡ slice_index self.now.shown i }
    {
        self.run.shown()[i]
    }

    /// Whether the last cycle was a wait: some request was outstanding at its start and wasn't answered in it; false before the first.
    pub fn waited(&self) -> bool
        ensures { result ≡ self.now.waited }
    {
        self.run.waited()
    }
}
