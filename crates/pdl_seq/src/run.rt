// A sequential run.
ghost use Rattle.std.specs.Prelude.{◌≡◌, ◌<◌, ◌+◌, ◌-◌, ◌^◌, [], List, ℕ, true, false, IfOk};
ghost use Rattle.pdl_semantics.specs.Flat.{arrays_of};
ghost use Rattle.pdl_semantics.specs.Sequential.{seqwrites};
ghost use Rattle.pdl_semantics.specs.Promises.{DifferInAdvice};
ghost use Rattle.pdl_semantics.specs.Updates.{not_updated};
ghost use Rattle.pdl_syntax_tree.specs.View.{pipe_view};
ghost use Rattle.pdl_rules.specs.Memories.{infos_of};
ghost use Rattle.pdl_form.specs.Form.{form_of};
ghost use Rattle.pdl_form.specs.FormView.{form};
ghost use Rattle.pdl_image.specs.Images.{IsImage};
ghost use Rattle.pdl_seq.specs.Fits.{IsImageFor, AreWrites};
ghost use Rattle.pdl_seq.specs.Runs.{IsRunnable, HasRun};

use crate::accepted::runnable;
use crate::begin::{begin, forget, tell};
use crate::commit::Write;
use crate::setup::{before_all, room_for};
use crate::turn::{Turn, run_turn};
use pdl_check::Accepted;
use pdl_form::FlatPipe;
use pdl_image::Image;
use pdl_kit::NoMemory;
use std::alloc::Global;
use std::marker::Model;

/// A run of a pipe's threads, one after another, which keeps the writes of all of them or, where it streams, those of the last one alone.
#[derive(Drop)]
pub struct SeqRun<'p> {
    pipe: &'p FlatPipe,
    turn: Turn,
    writes: Vec<Write>,
    run: u32,
    threads: u32,
    streams: bool,
}

impl<'p> Model for SeqRun<'p> {
    ghost use Rattle.std.specs.Coded.{codes};
    ghost use Rattle.pdl_form.specs.contracts.form.FlatExpr as expr;
    ghost use Rattle.pdl_seq.specs.Runs.{Running};

    ghost Value = { Running };

    ghost coded = { Prim.hlevel (codes, expr.the_row.coded) };

    ghost use Rattle.pdl_seq.specs.Inside.{running, IsReady};

    ghost view = { running };

    ghost invariant = { IsReady };
}

impl<'p> SeqRun<'p> {
    /// The run of an accepted pipe whose memories hold the image, with room for the writes of so many threads, of which none was run.
    pub fn new(
        alloc: Global,
        accepted: &'p Accepted,
        image: &Image,
        threads: u32,
    ) -> Result<SeqRun<'p>, NoMemory>
        requires { IsImage (infos_of (pipe_view accepted.now.typed.pipe).mems) image.now }
        ensures run { IfOk result (λ r. HasRun r image.now) }
        ensures pipe { IfOk result (λ r.
            form r.pipe ≡ form_of (pipe_view accepted.now.typed.pipe)) }
        ensures count { IfOk result (λ r. r.run ≡ 0) }
        ensures threads { IfOk result (λ r. r.threads ≡ threads) }
        ensures keeps { IfOk result (λ r. r.streams ≡ false) }
        ensures writes { IfOk result (λ r. r.writes ≡ []) }
    {
        runnable();
        SeqRun::of_flat(alloc, accepted.flat(), image, threads, false)
    }

    /// The same with room for the writes of one thread, which streams: up to 2^32 - 1 threads can be run, and each forgets the writes of the one before.
    pub fn streaming(
        alloc: Global,
        accepted: &'p Accepted,
        image: &Image,
    ) -> Result<SeqRun<'p>, NoMemory>
        requires { IsImage (infos_of (pipe_view accepted.now.typed.pipe).mems) image.now }
        ensures run { IfOk result (λ r. HasRun r image.now) }
        ensures pipe { IfOk result (λ r.
            form r.pipe ≡ form_of (pipe_view accepted.now.typed.pipe)) }
        ensures count { IfOk result (λ r. r.run ≡ 0) }
        ensures threads { IfOk result (λ r. r.threads ≡ 2 ^ 32 - 1) }
        ensures streams { IfOk result (λ r. r.streams ≡ true) }
        ensures writes { IfOk result (λ r. r.writes ≡ []) }
    {
        runnable();
        SeqRun::of_flat(alloc, accepted.flat(), image, u32::MAX, true)
    }

    // The run of a pipe in flat form, of the whole language.
    fn of_flat(
        alloc: Global,
        pipe: &'p FlatPipe,
        image: &Image,
        threads: u32,
        streams: bool,
    ) -> Result<SeqRun<'p>, NoMemory>
        requires run { IsRunnable (form pipe.now) }
        requires image { IsImageFor (form pipe.now).pipe image.now }
        ensures run { IfOk result (λ r. HasRun r image.now) }
        ensures pipe { IfOk result (λ r. r.pipe ≡ pipe.now) }
        ensures count { IfOk result (λ r. r.run ≡ 0) }
        ensures threads { IfOk result (λ r. r.threads ≡ threads) }
        ensures streams { IfOk result (λ r. r.streams ≡ streams) }
        ensures writes { IfOk result (λ r. r.writes ≡ []) }
    {
        let turn = before_all(alloc, pipe, image)?;
        let writes = Vec::with_capacity(alloc, room_for(threads, streams))?;
        Ok(SeqRun {
            pipe,
            turn,
            writes,
            run: 0,
            threads,
            streams,
        })
    }

    /// Runs the next thread to its end, without taking memory.
    pub fn next_thread(&mut self)
        requires { self.old.run < self.old.threads }
        // Whatever image the threads so far ran from, this one runs on from.
        ensures run { (image : List (List ℕ)) → HasRun self.old image → HasRun self.new image }
        // What advisory memories hold changes no write: from an image that differs in them alone the threads write the same.
        ensures advice { (image other : List (List ℕ)) → HasRun self.new image →
            DifferInAdvice (form self.new.pipe).pipe (arrays_of image) (arrays_of other) → (m : ℕ) →
            seqwrites (form self.new.pipe).pipe (arrays_of image) m self.new.run
            ≡ seqwrites (form self.new.pipe).pipe (arrays_of other) m self.new.run }
        // Nor do updates: without them the threads write the same.
        ensures updates { (image : List (List ℕ)) → HasRun self.new image → (m : ℕ) →
            seqwrites (not_updated (form self.new.pipe).pipe) (arrays_of image) m self.new.run
            ≡ seqwrites (form self.new.pipe).pipe (arrays_of image) m self.new.run }
        ensures pipe { self.new.pipe ≡ self.old.pipe }
        ensures count { self.new.run ≡ self.old.run + 1 }
        ensures threads { self.new.threads ≡ self.old.threads }
        ensures streams { self.new.streams ≡ self.old.streams }
    {
        begin(&mut self.turn);
        run_turn(self.pipe, &mut self.turn);
        self.run += 1;
        forget(self.streams, &mut self.writes);
        tell(self.run, self.turn.commits.as_slice(), &mut self.writes);
    }

    /// Lends the writes of the threads that were run, thread by thread, each thread's in text order; of a run that streams those of the last thread.
    pub fn writes(&self) -> &[Write]
        ensures writes { result.now ≡ self.now.writes }
        ensures words { AreWrites (form self.now.pipe).pipe result.now }
    {
        self.writes.as_slice()
    }
}
