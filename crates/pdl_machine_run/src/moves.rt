// Where the threads that move go, who is removed, and the new thread.
ghost use Rattle.std.specs.Prelude.{◌≡◌, ◌≤◌, ◌<◌, ◌≢◌, ◌==◌, ℕ, true, if◌then◌else◌, map, length, is_some, IfSome, Some, None, slice_index_or, vec_len, vec_capacity};
ghost use Rattle.pdl_semantics.specs.Flat.{Pipe};
ghost use Rattle.pdl_semantics.specs.Cycle as stated;
ghost use Rattle.pdl_machine_facts.specs.Slots.{LeadsOn};
ghost use Rattle.pdl_form.specs.Form.{Form};
ghost use Rattle.pdl_form.specs.FormView.{form};
ghost use Rattle.pdl_machine_run.specs.View.{awaited_view, ask_view, deeds_view, thread_of, thread_in};
ghost use Rattle.pdl_machine_run.specs.Acts.{mover_of, act_of, acts_of, all_of, comes, stays};
ghost use Rattle.pdl_machine_run.specs.Ready.{IsWide, IsStage, AreStages, HasAwaits};
ghost use Rattle.pdl_machine_run.specs.declared.stage.Stage as r_stage;

use crate::deeds::Ask;
use crate::stage::{Awaited, Stage, ThreadSlot};
use crate::step::mover;
use crate::ways::next_stage;
use pdl_form::FlatPipe;
use pdl_form_values::fill;
use pdl_word::Word;
use std::mem::swap;

// A thread awaits the answers of these delayed reads, and of no others.
fn await_asks(asks: &[Ask], awaits: &mut Vec<Awaited>)
    requires room { length asks.now ≤ vec_capacity awaits.old }
    ensures awaits { map awaited_view awaits.new.items ≡ stated.awaited_of (map ask_view asks.now) }
    ensures capacity { vec_capacity awaits.new ≡ vec_capacity awaits.old }
{
    awaits.clear();
    for ask in asks {
        awaits.push_reserved(Awaited {
            mem: ask.mem,
            var: ask.var,
        });
    }
}

// The thread of a stage, of any number, is as it leaves: with the values, the advised ones and the guess that the statements of its stage left, awaiting what they asked for.
fn leave(stage: &mut Stage)
    requires room { vec_len stage.old.deeds.asks ≤ vec_capacity stage.old.slot.awaits }
    ensures thread { (k number : ℕ) → thread_of number stage.new.slot
        ≡ stated.thread_after (record {
          stage = k;
          thread = thread_of number stage.old.slot;
          does = deeds_view stage.old.deeds;
          moves = true;
        }) }
    ensures number { stage.new.slot.number ≡ stage.old.slot.number }
    ensures wide { (f : Form) → IsStage f stage.old → IsStage f stage.new }
{
    swap(&mut stage.slot.values, &mut stage.deeds.values);
    swap(&mut stage.slot.advice, &mut stage.deeds.advice);
    swap(&mut stage.slot.guess, &mut stage.deeds.guess);
    await_asks(stage.deeds.asks.as_slice(), &mut stage.slot.awaits);
    stage.slot.kept.clear();
}

// Nobody stands in a stage.
fn vacate(stage: &mut Stage)
    ensures empty { thread_in stage.new.slot ≡ None }
    ensures wide { (f : Form) → IsStage f stage.old → IsStage f stage.new }
{
    stage.slot.number = None;
}

// Who stands in stage k goes to a later one, whoever stood there.
fn go(k: usize, q: usize, stages: &mut [Stage])
    requires later { k < q }
    requires stage { q < length stages.old }
    ensures there { (d : r_stage.Stage) →
        slice_index_or stages.new q d ≡ slice_index_or stages.old k d }
    ensures here { (d : r_stage.Stage) → thread_in (slice_index_or stages.new k d).slot ≡ None }
    ensures others { (i : ℕ) (d : r_stage.Stage) → i ≢ k → i ≢ q →
        slice_index_or stages.new i d ≡ slice_index_or stages.old i d }
    ensures wide { (f : Form) → AreStages f stages.old → AreStages f stages.new }
{
    stages.swap(k, q);
    vacate(&mut stages[k]);
}

// Who stands in stage k goes to a later one, or out of the pipe.
fn depart(k: usize, to: Option<usize>, stages: &mut [Stage])
    requires stage { k < length stages.old }
    requires later { IfSome to (λ q. (k < q) × (q < length stages.old)) }
    ensures there { (i : ℕ) (d : r_stage.Stage) → i ≢ k →
        thread_in (slice_index_or stages.new i d).slot
        ≡ (if stated.is_stage i to then thread_in (slice_index_or stages.old k d).slot else
        thread_in (slice_index_or stages.old i d).slot) }
    ensures here { (d : r_stage.Stage) → thread_in (slice_index_or stages.new k d).slot ≡ None }
    ensures before { (i : ℕ) (d : r_stage.Stage) → i < k →
        slice_index_or stages.new i d ≡ slice_index_or stages.old i d }
    ensures wide { (f : Form) → AreStages f stages.old → AreStages f stages.new }
{
    match to {
        None => vacate(&mut stages[k]),
        Some(q) => go(k, q, stages),
    }
}

// The thread that moves out of stage k, if one does, goes to its next stage, where there is one.
fn pass(pipe: &FlatPipe, k: usize, stages: &mut [Stage])
    requires leads { LeadsOn (form pipe.now).pipe }
    requires count { length stages.old ≡ length (form pipe.now).pipe.stages }
    requires stage { k < length stages.old }
    requires room { (d : r_stage.Stage) → HasAwaits (slice_index_or stages.old k d) }
    ensures there { (q : ℕ) (d : r_stage.Stage) → k < q →
        thread_in (slice_index_or stages.new q d).slot
        ≡ stated.or_then (comes (form pipe.now).pipe q k
        (mover_of (slice_index_or stages.old k d)) (slice_index_or stages.old k d))
        (thread_in (slice_index_or stages.old q d).slot) }
    ensures here { (d : r_stage.Stage) →
        thread_in (slice_index_or stages.new k d).slot ≡ stays (slice_index_or stages.old k d) }
    ensures before { (i : ℕ) (d : r_stage.Stage) → i < k →
        slice_index_or stages.new i d ≡ slice_index_or stages.old i d }
    ensures wide { (f : Form) → AreStages f stages.old → AreStages f stages.new }
{
    if mover(&stages[k]).is_none() {
        return;
    }
    let to = next_stage(pipe, k, &stages[k].deeds);
    leave(&mut stages[k]);
    depart(k, to, stages);
}

/// Each thread that moves goes to its next stage, or ends after the last.
pub fn move_on(pipe: &FlatPipe, stages: &mut [Stage])
    requires leads { LeadsOn (form pipe.now).pipe }
    requires count { length stages.old ≡ length (form pipe.now).pipe.stages }
    requires room { (k : ℕ) (d : r_stage.Stage) → k < length stages.old →
        HasAwaits (slice_index_or stages.old k d) }
    ensures threads { (q : ℕ) (d : r_stage.Stage) → q < length stages.old →
        thread_in (slice_index_or stages.new q d).slot
        ≡ stated.next_thread (form pipe.now).pipe q (all_of 0 stages.old) }
    ensures wide { (f : Form) → AreStages f stages.old → AreStages f stages.new }
{
    let mut k = stages.len();
    while k > 0 {
        k -= 1;
        pass(pipe, k, stages);
    }
}

/// The number of the thread that squashes, if one does.
#[tactic(auto, using(crate::proofs::ActLists::squasher_on))]
pub fn squasher(stages: &[Stage]) -> Option<u64>
    ensures { result ≡ stated.squasher (acts_of 0 stages.now) }
{
    for stage in stages {
        match squashes(stage) {
            None => {}
            Some(thread) => return Some(thread),
        }
    }
    None
}

/// The stage of the thread that squashes, if one does.
#[tactic(auto, using(crate::proofs::ActLists::squash_stage_on))]
pub fn squash_stage(stages: &[Stage]) -> Option<usize>
    ensures { result ≡ stated.squash_stage (acts_of 0 stages.now) }
{
    for k in 0..stages.len() {
        if squashes_in(k, &stages[k]) {
            return Some(k);
        }
    }
    None
}

// Whether the thread of stage k squashes.
fn squashes_in(k: usize, stage: &Stage) -> bool
    ensures { stated.squash_stage (act_of k (mover_of stage.now) stage.now)
        ≡ (if result then Some k else None) }
{
    stage.deeds.fails && mover(stage).is_some()
}

// The same of the thread of a stage.
fn squashes(stage: &Stage) -> Option<u64>
    ensures { (k : ℕ) → result ≡ stated.squasher (act_of k (mover_of stage.now) stage.now) }
{
    if stage.deeds.fails {
        mover(stage)
    } else {
        None
    }
}

/// Whether a squash, if there is one, leaves a thread.
pub fn is_kept(squasher: Option<u64>, thread: u64) -> bool
    ensures { result ≡ stated.is_kept squasher thread }
{
    match squasher {
        None => true,
        Some(oldest) => thread <= oldest,
    }
}

// A thread that a squash removes stands in no stage any more.
fn remove(squasher: Option<u64>, stage: &mut Stage)
    ensures thread { thread_in stage.new.slot
        ≡ stated.if_kept squasher (thread_in stage.old.slot) }
    ensures wide { (f : Form) → IsStage f stage.old → IsStage f stage.new }
{
    if let Some(thread) = stage.slot.number {
        if !is_kept(squasher, thread) {
            vacate(stage);
        }
    }
}

/// The threads that a squash removes stand in no stage any more.
pub fn remove_all(squasher: Option<u64>, stages: &mut [Stage])
    ensures threads { (q : ℕ) (d : r_stage.Stage) → q < length stages.old →
        thread_in (slice_index_or stages.new q d).slot
        ≡ stated.if_kept squasher (thread_in (slice_index_or stages.old q d).slot) }
    ensures wide { (f : Form) → AreStages f stages.old → AreStages f stages.new }
{
    for k in 0..stages.len() {
        remove(squasher, &mut stages[k]);
    }
}

/// A new thread with these arguments stands in a place.
pub fn begin(place: &mut ThreadSlot, thread: u64, args: &[Word])
    requires few { length args.now ≤ length place.old.values.items }
    ensures thread { (p : Pipe) → p.vars ≡ length place.old.values.items →
        thread_in place.new ≡ stated.born_thread p thread (Some args.now) }
    ensures wide { (f : Form) → IsWide f place.old → IsWide f place.new }
{
    place.number = Some(thread);
    fill(place.values.as_mut_slice(), args);
    place.advice.clear();
    place.guess.clear();
    place.awaits.clear();
    place.kept.clear();
}

/// The thread that one of those who move has called, if there is one, comes into a place; whether there is.
pub fn call(stages: &[Stage], thread: u64, place: &mut ThreadSlot) -> bool
    requires few { IfSome (stated.child_of (acts_of 0 stages.now)) (λ args.
        length args ≤ length place.old.values.items) }
    ensures called { result ≡ is_some (stated.child_of (acts_of 0 stages.now)) }
    ensures thread { (p : Pipe) → p.vars ≡ length place.old.values.items →
        thread_in place.new ≡ stated.born_thread p thread (stated.child_of (acts_of 0 stages.now)) }
    ensures wide { (f : Form) → IsWide f place.old → IsWide f place.new }
{
    for stage in stages {
        if mover(stage).is_some() && stage.deeds.called {
            begin(place, thread, stage.deeds.args.as_slice());
            return true;
        }
    }
    place.number = None;
    false
}

// A new thread, if there is one, comes into a stage.
fn come_into(stage: &mut Stage, place: &mut ThreadSlot)
    ensures thread { thread_in stage.new.slot
        ≡ stated.or_then (thread_in place.old) (thread_in stage.old.slot) }
    ensures wide { (f : Form) → IsStage f stage.old → IsWide f place.old → IsStage f stage.new }
    ensures place { (f : Form) → IsStage f stage.old → IsWide f place.old → IsWide f place.new }
{
    if place.number.is_some() {
        swap(&mut stage.slot, place);
    }
}

/// A new thread, if there is one, comes into stage 0.
pub fn come_in(stages: &mut [Stage], place: &mut ThreadSlot)
    requires some { 1 ≤ length stages.old }
    ensures threads { (q : ℕ) (d : r_stage.Stage) → q < length stages.old →
        thread_in (slice_index_or stages.new q d).slot
        ≡ stated.or_then (if q == 0 then thread_in place.old else None)
        (thread_in (slice_index_or stages.old q d).slot) }
    ensures wide { (f : Form) → AreStages f stages.old → IsWide f place.old →
        AreStages f stages.new }
    ensures place { (f : Form) → AreStages f stages.old → IsWide f place.old →
        IsWide f place.new }
{
    come_into(&mut stages[0], place);
}
