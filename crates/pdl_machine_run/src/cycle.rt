// A cycle, on what the machine holds.
ghost use Rattle.std.specs.Prelude.{◌≡◌, ◌≤◌, ◌<◌, ◌+◌, ◌*◌, ◌++◌, ◌==◌, None, ℕ, suc, if◌then◌else◌, map, length, slice_index_or, vec_len, vec_capacity};
ghost use Rattle.pdl_semantics.specs.Moves.{all_acts};
ghost use Rattle.pdl_semantics.specs.Cycle as stated;
ghost use Rattle.pdl_machine_facts.specs.Slots.{LeadsOn};
ghost use Rattle.pdl_form.specs.Form.{Form};
ghost use Rattle.pdl_form.specs.FormView.{form};
ghost use Rattle.pdl_machine_run.specs.View.{thread_in, seats, request_view, order_views};
ghost use Rattle.pdl_machine_run.specs.Outside.{state_of};
ghost use Rattle.pdl_machine_run.specs.Acts.{acts_of, all_of, memories_after, commits_shown};
ghost use Rattle.pdl_machine_run.specs.Advice.{after_all_writes};
ghost use Rattle.pdl_machine_run.specs.Orders.{orders_after, order_after};
ghost use Rattle.pdl_machine_run.specs.Requests.{requests_after, requests_shown};
ghost use Rattle.pdl_machine_facts.specs.Ports.{whole_values};
ghost use Rattle.pdl_machine_run.specs.Ready.{IsWide, AreStages, AreOrders, AllCanStep, HasAwaits};
ghost use Rattle.pdl_machine_run.specs.Running.{IsRunnable, IsReached, IsBeside, AreReady};
ghost use Rattle.pdl_machine_run.specs.declared.stage.Stage as r_stage;
ghost use Rattle.pdl_machine_run.specs.declared.beside.Order as r_order;

use crate::advice::make_all_writes;
use crate::beside::Beside;
use crate::carry::carry_out_all;
use crate::decide::decide;
use crate::moves::{call, come_in, move_on, remove_all, squash_stage, squasher};
use crate::orders::step_orders;
use crate::requests::{show_requests, step_requests};
use crate::shown::{show_end, show_stages};
use crate::stage::{Stage, ThreadSlot};
use crate::step::step_memories;
use pdl_form::FlatPipe;
use pdl_machine_pending::Memory;
use pdl_word::Word;

// What the threads that move do to the memories, whose commits are shown: writes of advisory memories come last.
fn change_memories(
    memories: &mut [Memory],
    twice: &[bool],
    stages: &[Stage],
    squasher: Option<u64>,
    shown: &mut Vec<Word>,
)
    requires step { AllCanStep 0 (acts_of 0 stages.now) memories.old }
    requires told { length twice.now ≡ length memories.old }
    requires room { vec_len shown.old + 6 * length memories.old ≤ vec_capacity shown.old }
    ensures memories { memories.new ≡ after_all_writes (acts_of 0 stages.now)
        (memories_after 0 (acts_of 0 stages.now) squasher memories.old) }
    ensures shown { shown.new.items
        ≡ shown.old.items ++ commits_shown twice.now 0 (acts_of 0 stages.now) memories.old }
    ensures capacity { vec_capacity shown.new ≡ vec_capacity shown.old }
{
    step_memories(memories, twice, stages, squasher, shown);
    make_all_writes(memories, stages);
}

// What stands beside the stages after a cycle, whose commits and requests are shown.
fn step_beside(
    pipe: &FlatPipe,
    replies: &[bool],
    stages: &[Stage],
    squasher: Option<u64>,
    beside: &mut Beside,
    shown: &mut Vec<Word>,
)
    requires memories { AllCanStep 0 (acts_of 0 stages.now) beside.old.memories.items }
    requires count { length beside.old.orders.items ≡ length stages.now }
    requires told { length beside.old.twice.items ≡ length beside.old.memories.items }
    requires mems { length beside.old.memories.items ≡ length (form pipe.now).pipe.mems }
    requires orders { (f : ℕ) (d : r_order.Order) → f < length beside.old.orders.items →
        length (order_after (form pipe.now).pipe (acts_of 0 stages.now) f
        (slice_index_or beside.old.orders.items f d).branches.items)
        ≤ vec_capacity (slice_index_or beside.old.orders.items f d).branches }
    requires room { vec_len shown.old + 8 * length beside.old.memories.items
        ≤ vec_capacity shown.old }
    ensures memories { beside.new.memories.items
        ≡ after_all_writes (acts_of 0 stages.now)
        (memories_after 0 (acts_of 0 stages.now) squasher beside.old.memories.items) }
    ensures orders { order_views beside.new.orders.items
        ≡ orders_after (form pipe.now).pipe (acts_of 0 stages.now) 0
        (order_views beside.old.orders.items) }
    ensures requests { map request_view beside.new.requests.items
        ≡ requests_after (form pipe.now).pipe replies.now (acts_of 0 stages.now) squasher 0
        (map request_view beside.old.requests.items) }
    ensures twice { beside.new.twice.items ≡ beside.old.twice.items }
    ensures long { (n : ℕ) → AreOrders n beside.old.orders.items →
        AreOrders n beside.new.orders.items }
    ensures shown { shown.new.items ≡ shown.old.items ++
        (commits_shown beside.old.twice.items 0 (acts_of 0 stages.now) beside.old.memories.items ++
        requests_shown 0 (acts_of 0 stages.now) (form pipe.now).pipe.mems) }
    ensures capacity { vec_capacity shown.new ≡ vec_capacity shown.old }
{
    change_memories(
        beside.memories.as_mut_slice(),
        beside.twice.as_slice(),
        stages,
        squasher,
        shown,
    );
    show_requests(pipe.mems(), stages, shown);
    step_orders(
        pipe,
        stages,
        squash_stage(stages),
        beside.orders.as_mut_slice(),
    );
    step_requests(
        pipe,
        replies,
        stages,
        squasher,
        beside.requests.as_mut_slice(),
    );
}

// The stages after a cycle, of which the first takes a new thread.
fn step_stages(pipe: &FlatPipe, squasher: Option<u64>, stages: &mut [Stage], way: &mut ThreadSlot)
    requires leads { LeadsOn (form pipe.now).pipe }
    requires some { 1 ≤ length stages.old }
    requires count { length stages.old ≡ length (form pipe.now).pipe.stages }
    requires room { (k : ℕ) (d : r_stage.Stage) → k < length stages.old →
        HasAwaits (slice_index_or stages.old k d) }
    ensures threads { (q : ℕ) (d : r_stage.Stage) → q < length stages.old →
        thread_in (slice_index_or stages.new q d).slot
        ≡ stated.or_then (if q == 0 then thread_in way.old else None)
        (stated.if_kept squasher
        (stated.next_thread (form pipe.now).pipe q (all_of 0 stages.old))) }
    ensures wide { (f : Form) → AreStages f stages.old → IsWide f way.old → AreStages f stages.new }
    ensures way { (f : Form) → AreStages f stages.old → IsWide f way.old → IsWide f way.new }
{
    move_on(pipe, stages);
    remove_all(squasher, stages);
    come_in(stages, way);
}

/// One cycle with these replies, where the next thread has a number; whether there is such a thread.
pub fn cycle(
    pipe: &FlatPipe,
    replies: &[bool],
    beside: &mut Beside,
    stages: &mut [Stage],
    way: &mut ThreadSlot,
    next: u64,
    shown: &mut Vec<Word>,
) -> bool
    requires run { IsRunnable (form pipe.now) }
    requires ready { AreReady (form pipe.now) stages.old }
    requires ahead { IsWide (form pipe.now) way.old }
    requires beside { IsBeside (form pipe.now).pipe beside.old }
    requires reached { IsReached (form pipe.now).pipe
        (state_of (seats stages.old) beside.old next) }
    requires room { 2 * length stages.old + 8 * length beside.old.memories.items + 2
        ≤ vec_capacity shown.old }
    ensures state { state_of (seats stages.new) beside.new (if result then suc next else next)
        ≡ stated.cycle (form pipe.now).pipe (state_of (seats stages.old) beside.old next)
        replies.now }
    ensures ports { shown.new.items ≡ whole_values (form pipe.now).pipe
        (stated.ports (form pipe.now).pipe (state_of (seats stages.old) beside.old next)
        (all_acts (form pipe.now).pipe (state_of (seats stages.old) beside.old next)
        replies.now)) }
    ensures ready { AreReady (form pipe.now) stages.new }
    ensures ahead { IsWide (form pipe.now) way.new }
    ensures beside { IsBeside (form pipe.now).pipe beside.new }
    ensures room { vec_capacity shown.new ≡ vec_capacity shown.old }
{
    carry_out_all(pipe, beside, replies, stages);
    decide(pipe, beside, replies, stages);
    shown.clear();
    show_stages(stages, shown);
    let squasher = squasher(stages);
    step_beside(pipe, replies, stages, squasher, beside, shown);
    show_end(pipe, stages, squasher.is_some(), shown);
    let called = call(stages, next, way);
    step_stages(pipe, squasher, stages, way);
    called
}
