// The orders of forks.
ghost use Rattle.std.specs.Prelude.{◌≡◌, ◌≤◌, ◌<◌, ◌+◌, ◌++◌, ℕ, suc, if◌then◌else◌, length, take, vec_len, vec_capacity, slice_index_or};
ghost use Rattle.pdl_semantics.specs.Flat as flat;
ghost use Rattle.pdl_semantics.specs.Stages as stages;
ghost use Rattle.pdl_semantics.specs.Stages.{list_any, merges_fork};
ghost use Rattle.pdl_semantics.specs.Cycle as stated;
ghost use Rattle.pdl_form.specs.View.{branches_view, stages_view};
ghost use Rattle.pdl_form.specs.FormView.{form};
ghost use Rattle.pdl_machine_run.specs.View.{order_views};
ghost use Rattle.pdl_machine_run.specs.Acts.{mover_of, act_of, acts_of};
ghost use Rattle.pdl_form.specs.Sides.{listed};
ghost use Rattle.pdl_machine_run.specs.Orders.{order_passed, order_after, orders_after};
ghost use Rattle.pdl_machine_run.specs.Ready.{AreOrders};
ghost use Rattle.pdl_machine_run.specs.declared.beside.Order as r_order;

use crate::beside::Order;
use crate::stage::Stage;
use crate::step::mover;
use crate::ways::{next_stage, stage_at};
use pdl_form::{FlatBranches, FlatPipe, FlatStage, NO_BRANCHES, side_in, side_of};

// The branches of the stage to which a thread goes, if it goes to one.
fn branches_to(pipe: &FlatPipe, to: Option<usize>) -> FlatBranches
    ensures { (f : ℕ) →
        stages.sides_of f (branches_view result) ≡ stated.goes_into (form pipe.now).pipe f to }
{
    match to {
        None => NO_BRANCHES,
        Some(q) => stage_at(pipe, q).branches,
    }
}

// The branches of the stage to which the thread goes that moves out of stage f, if one does.
fn entered(pipe: &FlatPipe, f: usize, stage: &Stage) -> FlatBranches
    ensures { stages.sides_of f (branches_view result)
        ≡ stated.entered_branches (form pipe.now).pipe f
        (act_of f (mover_of stage.now) stage.now) }
{
    match mover(stage) {
        None => NO_BRANCHES,
        Some(_) => branches_to(pipe, next_stage(pipe, f, &stage.deeds)),
    }
}

// Whether a stage with this merge merges fork f.
fn merges(merge: Option<usize>, f: usize) -> bool
    ensures { result ≡ stages.merges_fork merge f }
{
    match merge {
        None => false,
        Some(fork) => fork == f,
    }
}

// Whether the thread that moves out of stage k, if one does, goes out of a branch of fork f into its merge.
fn leaves(pipe: &FlatPipe, f: usize, k: usize, stage: &Stage) -> bool
    ensures { result ≡ stated.has_left (form pipe.now).pipe f
        (act_of k (mover_of stage.now) stage.now) }
{
    if mover(stage).is_none() || side_in(stage_at(pipe, k).branches, f).is_none() {
        return false;
    }
    match next_stage(pipe, k, &stage.deeds) {
        None => false,
        Some(q) => merges(stage_at(pipe, q).merges, f),
    }
}

// Whether some thread goes out of a branch of fork f into its merge.
fn has_left(pipe: &FlatPipe, stages: &[Stage], f: usize) -> bool
    ensures { result ≡ stated.has_left (form pipe.now).pipe f (acts_of 0 stages.now) }
{
    for k in 0..stages.len() {
        if leaves(pipe, f, k, &stages[k]) {
            return true;
        }
    }
    false
}

// The stages up to this one, or all where there are fewer.
fn stages_to(stages: &[FlatStage], last: usize) -> &[FlatStage]
    ensures { stages_view result.now ≡ take (suc last) (stages_view stages.now) }
{
    if last < stages.len() {
        &stages[..last + 1]
    } else {
        stages
    }
}

// Whether one of these stages merges fork f.
fn merge_among(stages: &[FlatStage], f: usize) -> bool
    ensures { result ≡ list_any (λ (x : flat.Stage). merges_fork x.merges f)
        (stages_view stages.now) }
{
    for stage in stages {
        if merges(stage.merges, f) {
            return true;
        }
    }
    false
}

// Whether the stage that merges fork f is one up to the last.
fn merges_by(pipe: &FlatPipe, f: usize, last: Option<usize>) -> bool
    ensures { result ≡ stated.merges_by (form pipe.now).pipe f last }
{
    match last {
        None => false,
        Some(last) => merge_among(stages_to(pipe.stages(), last), f),
    }
}

// The first branch is taken out, if there is one and a thread has left.
fn leave_first(left: bool, branches: &mut Vec<bool>)
    ensures branches { branches.new.items
        ≡ (if left then stated.but_first branches.old.items else branches.old.items) }
    ensures capacity { vec_capacity branches.new ≡ vec_capacity branches.old }
{
    if left && !branches.is_empty() {
        branches.remove(0);
    }
}

// A side is appended, if there is one.
fn add(side: Option<bool>, list: &mut Vec<bool>)
    requires { vec_len list.old + length (listed side) ≤ vec_capacity list.old }
    ensures list { list.new.items ≡ list.old.items ++ listed side }
    ensures capacity { vec_capacity list.new ≡ vec_capacity list.old }
{
    if let Some(first) = side {
        list.push_reserved(first);
    }
}

// The side of fork f that is entered with these branches is appended, if one is.
fn enter(entered: FlatBranches, f: usize, list: &mut Vec<bool>)
    requires { vec_len list.old + length (stages.sides_of f (branches_view entered))
        ≤ vec_capacity list.old }
    ensures list { list.new.items ≡ list.old.items ++ stages.sides_of f (branches_view entered) }
    ensures capacity { vec_capacity list.new ≡ vec_capacity list.old }
{
    add(side_of(entered.first, f), list);
    add(side_of(entered.second, f), list);
    add(side_of(entered.third, f), list);
    add(side_of(entered.fourth, f), list);
}

// The order of fork f after the moves of a cycle.
fn pass_through(pipe: &FlatPipe, stages: &[Stage], f: usize, branches: &mut Vec<bool>)
    requires stage { f < length stages.now }
    requires room { length (order_passed (form pipe.now).pipe (acts_of 0 stages.now) f
        branches.old.items) ≤ vec_capacity branches.old }
    ensures branches { branches.new.items
        ≡ order_passed (form pipe.now).pipe (acts_of 0 stages.now) f branches.old.items }
    ensures capacity { vec_capacity branches.new ≡ vec_capacity branches.old }
{
    leave_first(has_left(pipe, stages, f), branches);
    enter(entered(pipe, f, &stages[f]), f, branches);
}

// The order of fork f after a cycle, with a squash in this stage or without.
fn step_order(pipe: &FlatPipe, stages: &[Stage], squash: Option<usize>, f: usize, order: &mut Order)
    requires stage { f < length stages.now }
    requires squash { squash ≡ stated.squash_stage (acts_of 0 stages.now) }
    requires room { length (order_after (form pipe.now).pipe (acts_of 0 stages.now) f
        order.old.branches.items) ≤ vec_capacity order.old.branches }
    ensures branches { order.new.branches.items
        ≡ order_after (form pipe.now).pipe (acts_of 0 stages.now) f
        order.old.branches.items }
    ensures capacity { vec_capacity order.new.branches ≡ vec_capacity order.old.branches }
{
    if merges_by(pipe, f, squash) {
        order.branches.clear();
    } else {
        pass_through(pipe, stages, f, &mut order.branches);
    }
}

/// The orders of all forks after a cycle, with a squash in this stage or without.
pub fn step_orders(pipe: &FlatPipe, stages: &[Stage], squash: Option<usize>, orders: &mut [Order])
    requires count { length orders.old ≡ length stages.now }
    requires squash { squash ≡ stated.squash_stage (acts_of 0 stages.now) }
    requires room { (f : ℕ) (d : r_order.Order) → f < length orders.old →
        length (order_after (form pipe.now).pipe (acts_of 0 stages.now) f
        (slice_index_or orders.old f d).branches.items)
        ≤ vec_capacity (slice_index_or orders.old f d).branches }
    ensures orders { order_views orders.new
        ≡ orders_after (form pipe.now).pipe (acts_of 0 stages.now) 0
        (order_views orders.old) }
    ensures long { (n : ℕ) → AreOrders n orders.old → AreOrders n orders.new }
{
    for f in 0..orders.len() {
        step_order(pipe, stages, squash, f, &mut orders[f]);
    }
}
