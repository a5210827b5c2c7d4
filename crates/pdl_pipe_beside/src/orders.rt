// The registers of the orders of forks.
ghost use Rattle.std.specs.Prelude.{◌≡◌, ◌≤◌, ◌==◌, ℕ, true, IfOk, length};
ghost use Rattle.pdl_semantics.specs.Flat.{Branch};
ghost use Rattle.pdl_semantics.specs.Stages.{list_any, merges_fork};
ghost use Rattle.pdl_form.specs.FormView.{form};
ghost use Rattle.pdl_form.specs.View.{branches_view, stages_view};
ghost use Rattle.pdl_net.specs.Growth.{Extends};
ghost use Rattle.pdl_order.specs.Laws.{own as order_own};
ghost use Rattle.pdl_machine_inflight.specs.Readings.{branch_stages};
ghost use Rattle.pdl_pipe_beside.specs.Parts.{AreParts, IsNewPart};
ghost use Rattle.pdl_pipe_beside.specs.Orders.{merged_in, is_merged as merged, branches_in, ForksFit, HasOrderOf};

use pdl_build::Builder;
use pdl_form::{FlatPipe, FlatStage, side_in};
use pdl_kit::NoMemory;
use pdl_order::{OrderRegs, emit_order_state};
use std::alloc::Global;

// Whether a stage merges a fork.
pub(crate) fn merges(stage: &FlatStage, fork: usize) -> bool
    ensures { result ≡ merges_fork stage.now.merges fork }
{
    match stage.merges {
        Some(f) => f == fork,
        None => false,
    }
}

// Whether a stage stands in a branch of a fork.
pub(crate) fn stands_in(stage: &FlatStage, fork: usize) -> bool
    ensures { result ≡ list_any (λ (b : Branch). b.fork == fork)
        (branches_view stage.now.branches) }
{
    side_in(stage.branches, fork).is_some()
}

// Whether some stage merges a fork.
pub(crate) fn is_merged(stages: &[FlatStage], fork: usize) -> bool
    ensures { result ≡ merged_in (stages_view stages.now) fork }
{
    for stage in stages {
        if merges(stage, fork) {
            return true;
        }
    }
    false
}

// How many stages the branches of a fork have.
fn branch_count(stages: &[FlatStage], fork: usize) -> usize
    ensures { result ≡ branches_in (stages_view stages.now) fork }
{
    let mut count = 0;
    for stage in stages {
        if stands_in(stage, fork) {
            count += 1;
        }
    }
    count
}

// For how many threads an order is made: for one at least.
fn order_size(count: usize) -> u8
    requires { count ≤ 64 }
    ensures low { 1 ≤ result }
    ensures high { result ≤ 64 }
    ensures fits { count ≤ result }
{
    if count == 0 { 1 } else { count as u8 }
}

// The order of a fork, where some stage merges it.
fn lay_order(
    alloc: Global,
    b: &mut Builder,
    pipe: &FlatPipe,
    fork: usize,
) -> Result<Option<OrderRegs>, NoMemory>
    requires fit { ForksFit (form pipe.now).pipe }
    ensures order { IfOk result (λ r. HasOrderOf b.new (form pipe.now).pipe fork r) }
    ensures new { IfOk result (λ r. IsNewPart order_own b.old b.new r) }
    ensures extends { Extends b.old b.new }
{
    if !is_merged(pipe.stages(), fork) {
        return Ok(None);
    }
    let count = branch_count(pipe.stages(), fork);
    let order = emit_order_state(alloc, b, order_size(count))?;
    Ok(Some(order))
}

/// The registers of an order for each fork that some stage merges, by the numbers of the stages that fork, with the nets of its first entry.
pub fn lay_orders(
    alloc: Global,
    b: &mut Builder,
    pipe: &FlatPipe,
) -> Result<Vec<Option<OrderRegs>>, NoMemory>
    requires fit { ForksFit (form pipe.now).pipe }
    ensures orders { IfOk result (λ rs.
        AreParts order_own (HasOrderOf b.new (form pipe.now).pipe)
        (length b.old.regs) (length b.new.regs) rs.items
        (length (form pipe.now).pipe.stages)) }
    ensures extends { Extends b.old b.new }
{
    let mut orders = Vec::new(alloc);
    for fork in 0..pipe.stages().len() {
        let order = lay_order(alloc, b, pipe, fork)?;
        orders.push(order)?;
    }
    Ok(orders)
}
