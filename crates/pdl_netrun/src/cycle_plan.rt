// What a cycle does to the words that a simulator holds.

ghost use Rattle.std.specs.Prelude.{◌≡◌, length, IfOk};
ghost use Rattle.pdl_net.specs.Circuit.{circuit_of};
ghost use Rattle.pdl_net.specs.Well.{IsWell};
ghost use Rattle.pdl_net.specs.Width.{HasWidths};
ghost use Rattle.pdl_netrun.specs.Held.{IsPlan};
ghost use Rattle.pdl_netrun.specs.Order.{IsOrderOf};

use crate::order::CellOrder;
use crate::plan::{all_nexts, all_runs, all_writes};
use crate::walk::CellRun;
use crate::writes::PlannedWrite;
use pdl_kit::NoMemory;
use pdl_net::Netlist;
use std::alloc::Global;

/// One list of values has those of the inputs, then those of the registers, then those of the cells in an order.
#[derive(Drop)]
pub struct CyclePlan {
    /// The place of the first register.
    pub first_reg: usize,
    /// The place of the first cell.
    pub first_cell: usize,
    /// The cells in their order, in runs of one kind.
    pub runs: Vec<CellRun>,
    /// The places of the registers' next values.
    pub nexts: Vec<u32>,
    /// The write ports of all arrays.
    pub writes: Vec<PlannedWrite>,
}

/// The plan of a netlist by an order of its cells, which have these widths.
pub fn cycle_plan(
    alloc: Global,
    n: &Netlist,
    order: &CellOrder,
    widths: &[u8],
) -> Result<CyclePlan, NoMemory>
    requires well { IsWell (circuit_of n.now) }
    requires order { IsOrderOf order.now }
    requires net { order.now.net.now ≡ n.now }
    requires widths { HasWidths (circuit_of n.now) widths.now }
    requires cells { length widths.now ≡ length n.now.cells }
    ensures { IfOk result (IsPlan (circuit_of n.now) order.now.cells.items
        order.now.places.items) }
{
    let runs = all_runs(alloc, n, order, widths)?;
    let nexts = all_nexts(alloc, n, order)?;
    let writes = all_writes(alloc, n, order)?;
    let first_reg = order.regs as usize;
    let first_cell = first_reg + n.regs.len();
    Ok(CyclePlan {
        first_reg,
        first_cell,
        runs,
        nexts,
        writes,
    })
}
