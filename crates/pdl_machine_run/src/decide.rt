// Which threads move. Those in later stages are decided already.
ghost use Rattle.std.specs.Prelude.{◌≡◌, ◌<◌, ◌≤◌, ◌+◌, ◌&&◌, ℕ, Bool, List, Some, map, length, drop, slice_index_or};
ghost use Rattle.pdl_semantics.specs.Flat.{Pipe, list_all};
ghost use Rattle.pdl_semantics.specs.Machine as machine;
ghost use Rattle.pdl_semantics.specs.Moves as moves;
ghost use Rattle.pdl_form.specs.View.{branches_view};
ghost use Rattle.pdl_form.specs.FormView.{form};
ghost use Rattle.pdl_machine_pending.specs.View.{reserved_view};
ghost use Rattle.pdl_machine_run.specs.View.{awaited_view, blocked_view, ask_view, deeds_view, thread_of, request_view};
ghost use Rattle.pdl_machine_run.specs.Outside.{outside};
ghost use Rattle.pdl_machine_run.specs.Acts.{act_here, all_of, block_in, is_roomy, AreDecided, is_mover, passes_beside, passes_later, goes};
ghost use Rattle.pdl_form.specs.Sides.{first_of};
ghost use Rattle.pdl_machine_run.specs.Typed.{AreMemories};
ghost use Rattle.pdl_machine_run.specs.declared.stage.Stage as r_stage;
ghost use Rattle.pdl_machine_run.specs.declared.beside.Beside as r_beside;

use crate::answers::is_answered;
use crate::beside::{Beside, Request, fork_of, request_of};
use crate::deeds::{Ask, Blocked, Deeds};
use crate::stage::{Stage, ThreadSlot};
use crate::ways::{next_stage, stage_at};
use pdl_form::{FlatBranches, FlatPipe, side_in};
use pdl_machine_pending::{Memory, Reserved};

// Whether the thread in a stage, if there is one, doesn't squash.
fn is_harmless(stage: &Stage) -> bool
    ensures { (k : ℕ) → result ≡ moves.no_failure (act_here k stage.now.slot.number stage.now) }
{
    match stage.slot.number {
        None => true,
        Some(_) => !(stage.moves && stage.deeds.fails),
    }
}

// Whether no thread from a stage on squashes.
fn no_failure(stages: &[Stage], first: usize) -> bool
    requires { first ≤ length stages.now }
    ensures { result ≡ moves.no_failure (all_of first (drop first stages.now)) }
{
    for k in first..stages.len() {
        if !is_harmless(&stages[k]) {
            return false;
        }
    }
    true
}

// Whether a thread's block is ready.
fn is_ready(memories: &[Memory], thread: u64, block: Blocked) -> bool
    ensures { result ≡ block_in memories.now thread (blocked_view block) }
{
    match memories.get(block.mem) {
        None => true,
        Some(memory) => memory.is_ready(thread, block.address, block.writes),
    }
}

// Whether each of a thread's blocks is.
fn blocks_ready(memories: &[Memory], thread: u64, blocks: &[Blocked]) -> bool
    ensures { result ≡ list_all (λ b. block_in memories.now thread b)
        (map blocked_view blocks.now) }
{
    for block in blocks {
        if !is_ready(memories, thread, *block) {
            return false;
        }
    }
    true
}

// Whether a memory has room for so many more pending writes.
fn has_room(memories: &[Memory], m: usize, more: usize) -> bool
    ensures { result ≡ is_roomy memories.now more m }
{
    match memories.get(m) {
        None => true,
        Some(memory) => memory.has_room(more),
    }
}

// How many of these reservations are of memory m.
fn reserves_of(reserves: &[Reserved], m: usize) -> usize
    ensures { result ≡ machine.reserves_of m (map reserved_view reserves.now) }
{
    let mut count = 0;
    for reserved in reserves {
        if reserved.mem == m {
            count += 1;
        }
    }
    count
}

// Whether there is room for these reservations, for those of each memory together.
fn have_room(memories: &[Memory], reserves: &[Reserved]) -> bool
    ensures { result ≡ list_all
        (λ r. is_roomy memories.now (machine.reserves_of r.mem (map reserved_view reserves.now))
        r.mem)
        (map reserved_view reserves.now) }
{
    for reserved in reserves {
        if !has_room(memories, reserved.mem, reserves_of(reserves, reserved.mem)) {
            return false;
        }
    }
    true
}

// Whether the thread in a stage, if there is one, has this number and moves.
fn moves_as(stage: &Stage, thread: u64) -> bool
    ensures { (k : ℕ) → result ≡ is_mover thread (act_here k stage.now.slot.number stage.now) }
{
    match stage.slot.number {
        None => false,
        Some(number) => number == thread && stage.moves,
    }
}

// Whether a thread of this number moves from a stage on.
fn has_mover(stages: &[Stage], first: usize, thread: u64) -> bool
    requires { first ≤ length stages.now }
    ensures { result ≡ is_mover thread (all_of first (drop first stages.now)) }
{
    for k in first..stages.len() {
        if moves_as(&stages[k], thread) {
            return true;
        }
    }
    false
}

// Whether the port of a memory with this request is free: none is outstanding, or it is answered in this cycle and is an orphan or its owner moves.
fn is_free(request: Request, answered: bool, stages: &[Stage], first: usize) -> bool
    requires { first ≤ length stages.now }
    ensures { result ≡ moves.is_free (request_view request) answered
        (all_of first (drop first stages.now)) }
{
    match request {
        Request::NoRequest => true,
        Request::Orphan { address: _ } => answered,
        Request::Owned { owner, address: _ } => answered && has_mover(stages, first, owner),
    }
}

// Whether the port of each of these delayed reads is free.
fn ports_free(
    pipe: &FlatPipe,
    beside: &Beside,
    replies: &[bool],
    stages: &[Stage],
    first: usize,
    asks: &[Ask],
) -> bool
    requires { first ≤ length stages.now }
    ensures { result ≡ list_all (λ q. moves.is_free (machine.request_of (outside beside.now) q.mem)
        (machine.is_answered (form pipe.now).pipe replies.now q.mem)
        (all_of first (drop first stages.now))) (map ask_view asks.now) }
{
    for ask in asks {
        let answered = is_answered(pipe, replies, ask.mem);
        if !is_free(request_of(beside, ask.mem), answered, stages, first) {
            return false;
        }
    }
    true
}

// Whether stage k, if it holds a thread, is one after the last.
fn is_past(stage: &Stage, k: usize, last: usize) -> bool
    ensures { result ≡ moves.none_up_to (Some last)
        (act_here k stage.now.slot.number stage.now) }
{
    match stage.slot.number {
        None => true,
        Some(_) => last < k,
    }
}

// Whether stages from one on up to a last one hold no thread.
fn are_empty(stages: &[Stage], first: usize, last: usize) -> bool
    requires { first ≤ length stages.now }
    ensures { result ≡ moves.none_up_to (Some last) (all_of first (drop first stages.now)) }
{
    for k in first..stages.len() {
        if !is_past(&stages[k], k, last) {
            return false;
        }
    }
    true
}

// The same up to the stage of the verifies, where there is one.
fn none_up_to(stages: &[Stage], first: usize, last: Option<usize>) -> bool
    requires { first ≤ length stages.now }
    ensures { result ≡ moves.none_up_to last (all_of first (drop first stages.now)) }
{
    match last {
        None => true,
        Some(last) => are_empty(stages, first, last),
    }
}

// Whether stage k, if it is q and holds a thread, lets that move.
fn makes_way(stage: &Stage, k: usize, q: usize) -> bool
    ensures { result ≡ moves.can_enter (Some q) (act_here k stage.now.slot.number stage.now) }
{
    match stage.slot.number {
        None => true,
        Some(_) => k != q || stage.moves,
    }
}

// Whether a thread may come into stage q, which is one from the first on: it is empty, or its thread moves.
fn lets_in(stages: &[Stage], first: usize, q: usize) -> bool
    requires { first ≤ length stages.now }
    ensures { result ≡ moves.can_enter (Some q) (all_of first (drop first stages.now)) }
{
    for k in first..stages.len() {
        if !makes_way(&stages[k], k, q) {
            return false;
        }
    }
    true
}

// Whether a thread may go to its next stage, where there is one.
fn can_enter(stages: &[Stage], first: usize, to: Option<usize>) -> bool
    requires { first ≤ length stages.now }
    ensures { result ≡ moves.can_enter to (all_of first (drop first stages.now)) }
{
    match to {
        None => true,
        Some(q) => lets_in(stages, first, q),
    }
}

// Whether a branch is the first of a list.
fn is_first(first: bool, list: &[bool]) -> bool
    ensures { result ≡ moves.is_first first list.now }
{
    match list.first() {
        None => false,
        Some(branch) => *branch == first,
    }
}

// Whether it is a thread's turn to come into a stage with this merge: out of a branch where that is the first of the list, straight from the fork where the list is empty.
fn may_merge(beside: &Beside, merges: Option<usize>, from: FlatBranches) -> bool
    ensures { result ≡ moves.may_merge (outside beside.now) merges (branches_view from) }
{
    match merges {
        None => true,
        Some(f) => is_its_turn(side_in(from, f), fork_of(beside.orders.as_slice(), f)),
    }
}

// Whether it is the turn of a thread of this side of a fork with this list, or of one straight from the fork.
fn is_its_turn(side: Option<bool>, list: &[bool]) -> bool
    ensures { (sides : List Bool) → side ≡ first_of sides →
        result ≡ moves.is_its_turn sides list.now }
{
    match side {
        None => list.is_empty(),
        Some(first) => is_first(first, list),
    }
}

// The same of a thread that goes from stage k to another one, if there is one.
fn merges_well(pipe: &FlatPipe, beside: &Beside, k: usize, to: Option<usize>) -> bool
    ensures { result ≡ moves.merges_well (form pipe.now).pipe (outside beside.now) k to }
{
    match to {
        None => true,
        Some(q) => may_merge(beside, stage_at(pipe, q).merges, stage_at(pipe, k).branches),
    }
}

// Whether the locks of these memories let a thread of this number move that does this.
fn locks_in(memories: &[Memory], thread: u64, deeds: &Deeds) -> bool
    ensures { (p : Pipe) (b : r_beside.Beside) → AreMemories p b.memories.items →
        memories.now ≡ b.memories.items →
        result ≡ (moves.blocks_ready p (outside b) thread (deeds_view deeds.now)
        && moves.have_room p (outside b) (deeds_view deeds.now)) }
{
    blocks_ready(memories, thread, deeds.blocks.as_slice())
        && have_room(memories, deeds.reserves.as_slice())
}

// The same of the memories of a pipe.
fn locks_ready(pipe: &FlatPipe, beside: &Beside, thread: u64, deeds: &Deeds) -> bool
    requires memories { AreMemories (form pipe.now).pipe beside.now.memories.items }
    ensures { result
        ≡ (moves.blocks_ready (form pipe.now).pipe (outside beside.now) thread
        (deeds_view deeds.now)
        && moves.have_room (form pipe.now).pipe (outside beside.now) (deeds_view deeds.now)) }
{
    locks_in(beside.memories.as_slice(), thread, deeds)
}

// Whether a thread awaits no answer.
#[tactic(auto, using(crate::proofs::ActLists::nothing_awaited))]
fn awaits_nothing(slot: &ThreadSlot) -> bool
    ensures { result ≡ moves.is_empty (map awaited_view slot.now.awaits.items) }
{
    slot.awaits.is_empty()
}

// Whether what stands beside the stages lets the thread of this number in stage k move.
fn may_pass(pipe: &FlatPipe, beside: &Beside, stage: &Stage, thread: u64, k: usize) -> bool
    requires memories { AreMemories (form pipe.now).pipe beside.now.memories.items }
    ensures { result ≡ passes_beside (form pipe.now).pipe (outside beside.now) k
        (thread_of thread stage.now.slot) (deeds_view stage.now.deeds) }
{
    locks_ready(pipe, beside, thread, &stage.deeds)
        && awaits_nothing(&stage.slot)
        && merges_well(pipe, beside, k, next_stage(pipe, k, &stage.deeds))
}

// Whether the threads in later stages let that in stage k move.
fn may_follow(
    pipe: &FlatPipe,
    beside: &Beside,
    replies: &[bool],
    stages: &[Stage],
    k: usize,
) -> bool
    requires { k < length stages.now }
    ensures { (d : r_stage.Stage) →
        result
        ≡ passes_later (form pipe.now).pipe (outside beside.now) replies.now
        (all_of (k + 1) (drop (k + 1) stages.now)) k
        (deeds_view (slice_index_or stages.now k d).deeds) }
{
    let deeds = &stages[k].deeds;
    no_failure(stages, k + 1)
        && ports_free(pipe, beside, replies, stages, k + 1, deeds.asks.as_slice())
        && (!deeds.barrier || none_up_to(stages, k + 1, pipe.verify_stage()))
        && can_enter(stages, k + 1, next_stage(pipe, k, deeds))
}

// Whether the thread in stage k, if there is one, moves.
fn may_move(pipe: &FlatPipe, beside: &Beside, replies: &[bool], stages: &[Stage], k: usize) -> bool
    requires stage { k < length stages.now }
    requires memories { AreMemories (form pipe.now).pipe beside.now.memories.items }
    ensures { (d : r_stage.Stage) → result ≡ goes (form pipe.now).pipe beside.now replies.now k
        (slice_index_or stages.now k d).slot.number (slice_index_or stages.now k d)
        (drop (k + 1) stages.now) }
{
    match stages[k].slot.number {
        None => false,
        Some(thread) => {
            may_pass(pipe, beside, &stages[k], thread, k)
                && may_follow(pipe, beside, replies, stages, k)
        }
    }
}

/// It is decided which threads move, from the last stage down to the first.
pub fn decide(pipe: &FlatPipe, beside: &Beside, replies: &[bool], stages: &mut [Stage])
    requires memories { AreMemories (form pipe.now).pipe beside.now.memories.items }
    ensures decided { AreDecided (form pipe.now).pipe beside.now replies.now 0 stages.new }
    ensures slots { map (λ (x : r_stage.Stage). x.slot) stages.new
        ≡ map (λ (x : r_stage.Stage). x.slot) stages.old }
    ensures deeds { map (λ (x : r_stage.Stage). x.deeds) stages.new
        ≡ map (λ (x : r_stage.Stage). x.deeds) stages.old }
{
    let mut k = stages.len();
    while k > 0 {
        k -= 1;
        let moves = may_move(pipe, beside, replies, stages, k);
        stages[k].moves = moves;
    }
}
