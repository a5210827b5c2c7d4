// The plan of a netlist: for each cell, register, output and write port the places that it reads in one list of values.

ghost use Rattle.std.specs.Prelude.{◌≡◌, ◌++◌, ◌∷◌, [], ◌<◌, length, map, All, IfOk, OnOk, slice_index};
ghost use Rattle.pdl_net.specs.Circuit.{circuit_of, outputs_of};
ghost use Rattle.pdl_net.specs.Meaning.{signal, IsThereAt};
ghost use Rattle.pdl_net.specs.Well.{IsWell, FitsIn};
ghost use Rattle.pdl_net.specs.Width.{HasWidths};
ghost use Rattle.pdl_netrun.specs.Order.{IsOrderOf, cell_of, place_in, order_circuit};
ghost use Rattle.pdl_netrun.specs.RunKinds.{kind_in};
ghost use Rattle.pdl_netrun.specs.Steps.{steps_of, steps_with};
ghost use Rattle.pdl_netrun.specs.Plan.{cell_operands, step_of, step_of_cell, planned_write, planned_writes, held_at_start, IsWriteThere};

use crate::kinds::kind_of;
use crate::narrow_words::mask_within;
use crate::operation::{CellKind, CellOperands};
use crate::order::CellOrder;
use crate::run_kind::run_kind;
use crate::walk::CellRun;
use crate::writes::PlannedWrite;
use pdl_kit::NoMemory;
use pdl_net::{Cell, Dir, Netlist, WritePort, width_of};
use pdl_word::Word;
use std::alloc::Global;

/// Adds the values of all cells at the start, in the order of their places: a constant's value, and 0 for any other cell.
pub fn put_constants(n: &Netlist, order: &CellOrder, values: &mut Vec<Word>) -> Result<(), NoMemory>
    requires order { IsOrderOf order.now }
    requires net { order.now.net.now ≡ n.now }
    ensures { OnOk result (values.new.items ≡ values.old.items
        ++ map (λ k. held_at_start (cell_of order.now k)) order.now.cells.items) }
{
    for j in 0..order.cells.len() {
        let cell = n.cells.as_slice()[order.cells[j]];
        values.push(at_start(cell))?;
    }
    Ok(())
}

fn at_start(cell: Cell) -> Word
    ensures { result ≡ held_at_start cell }
{
    match cell {
        Cell::Const { width: _, value } => value,
        _ => 0,
    }
}

/// The reset value of each register.
pub fn all_resets(alloc: Global, n: &Netlist) -> Result<Vec<Word>, NoMemory>
    ensures { IfOk result (λ v. v.items ≡ map (λ r. r.reset) n.now.regs) }
{
    let mut resets = Vec::new(alloc);
    for reg in n.regs.as_slice() {
        resets.push(reg.reset)?;
    }
    Ok(resets)
}

/// A run that is being made.
#[derive(Drop)]
struct OpenRun {
    kind: CellKind,
    operands: Vec<CellOperands>,
}

impl OpenRun {
    /// The run, as the walk takes it.
    fn ended(self) -> CellRun
        ensures kind { kind_in result.kind ≡ self.kind }
        ensures operands { result.operands ≡ self.operands }
    {
        let OpenRun { kind, operands } = self;
        CellRun {
            kind: run_kind(kind),
            operands,
        }
    }
}

/// The runs of all cells, in the order of their places.
#[tactic(auto, using(crate::proofs::PlanLemmas::runs))]
pub fn all_runs(
    alloc: Global,
    n: &Netlist,
    order: &CellOrder,
    widths: &[u8],
) -> Result<Vec<CellRun>, NoMemory>
    requires well { IsWell (circuit_of n.now) }
    requires order { IsOrderOf order.now }
    requires net { order.now.net.now ≡ n.now }
    requires widths { HasWidths (circuit_of n.now) widths.now }
    requires cells { length widths.now ≡ length n.now.cells }
    ensures { IfOk result (λ v. steps_of v.items ≡ map
        (λ k. step_of_cell (circuit_of n.now) order.now.places.items (cell_of order.now k))
        order.now.cells.items) }
{
    let mut runs = Vec::new(alloc);
    let mut run = OpenRun {
        kind: CellKind::Constant,
        operands: Vec::new(alloc),
    };
    for j in 0..order.cells.len() {
        let cell = n.cells.as_slice()[order.cells[j]];
        let operands = operands_of(n, order, widths, cell);
        push_step(alloc, &mut runs, &mut run, kind_of(cell), operands)?;
    }
    runs.push(run.ended())?;
    Ok(runs)
}

/// Adds a step to the run that is being made, which ends where the step is of another kind.
#[tactic(auto, using(crate::proofs::PlanLemmas::pushes))]
fn push_step(
    alloc: Global,
    runs: &mut Vec<CellRun>,
    run: &mut OpenRun,
    kind: CellKind,
    operands: CellOperands,
) -> Result<(), NoMemory>
    ensures { OnOk result (steps_of runs.new.items
        ++ steps_with run.new.kind run.new.operands.items
        ≡ (steps_of runs.old.items ++ steps_with run.old.kind run.old.operands.items)
        ++ step_of kind operands ∷ []) }
{
    if run.kind != kind {
        let next = OpenRun {
            kind,
            operands: Vec::new(alloc),
        };
        let last = std::mem::replace(run, next);
        runs.push(last.ended())?;
    }
    run.operands.push(operands)?;
    Ok(())
}

/// What a cell reads, at the places of an order.
#[tactic(auto, using(crate::proofs::PlanLemmas::places))]
fn operands_of(n: &Netlist, order: &CellOrder, widths: &[u8], cell: Cell) -> CellOperands
    requires well { IsWell (circuit_of n.now) }
    requires order { IsOrderOf order.now }
    requires net { order.now.net.now ≡ n.now }
    requires widths { HasWidths (circuit_of n.now) widths.now }
    requires cells { length widths.now ≡ length n.now.cells }
    requires fits { FitsIn (circuit_of n.now) (IsThereAt (circuit_of n.now) (length n.now.cells))
        (signal (circuit_of n.now)) cell }
    ensures { result ≡ cell_operands (circuit_of n.now) order.now.places.items cell }
{
    match cell {
        Cell::Const { width: _, value: _ } => CellOperands::reading(0, 0),
        Cell::Not(a) => CellOperands {
            width: width_of(n, widths, a),
            mask: mask_within(width_of(n, widths, a)),
            ..CellOperands::reading_one(order.place(a))
        },
        Cell::Bin(_, a, b) => CellOperands {
            width: width_of(n, widths, a),
            mask: mask_within(width_of(n, widths, a)),
            ..CellOperands::reading(order.place(a), order.place(b))
        },
        Cell::Mux(choice, a, b) => CellOperands {
            selector: order.place(choice),
            ..CellOperands::reading(order.place(b), order.place(a))
        },
        Cell::Slice { a, high, low } => {
            // The highest bit is below the width of the word, so the count of bits fits.
            let _width = width_of(n, widths, a);
            CellOperands {
                high,
                low,
                mask: mask_within(high - low + 1),
                ..CellOperands::reading_one(order.place(a))
            }
        }
        Cell::Cat(a, b) => CellOperands {
            low: width_of(n, widths, b),
            ..CellOperands::reading(order.place(a), order.place(b))
        },
        Cell::Rep { count, a } => CellOperands {
            width: width_of(n, widths, a),
            mask: mask_within(width_of(n, widths, a)),
            count,
            ..CellOperands::reading_one(order.place(a))
        },
        Cell::Read { array, addr } => CellOperands {
            selector: array as u32,
            ..CellOperands::reading_one(order.place(addr))
        },
    }
}

/// The places of the registers' next values.
#[tactic(auto, using(crate::proofs::PlanLemmas::nexts))]
pub fn all_nexts(alloc: Global, n: &Netlist, order: &CellOrder) -> Result<Vec<u32>, NoMemory>
    requires well { IsWell (circuit_of n.now) }
    requires order { IsOrderOf order.now }
    requires net { order.now.net.now ≡ n.now }
    ensures { IfOk result (λ v. v.items ≡ map (λ r. place_in order.now r.next) n.now.regs) }
{
    let mut places = Vec::new(alloc);
    for r in 0..n.regs.len() {
        let reg = n.regs.as_slice()[r];
        places.push(order.place(reg.next))?;
    }
    Ok(places)
}

/// The places of the outputs' values, in order.
#[tactic(auto, using(crate::proofs::PlanLemmas::drivers))]
pub fn all_drivers(alloc: Global, n: &Netlist, order: &CellOrder) -> Result<Vec<u32>, NoMemory>
    requires well { IsWell (circuit_of n.now) }
    requires order { IsOrderOf order.now }
    requires net { order.now.net.now ≡ n.now }
    ensures { IfOk result (λ v. v.items
        ≡ map (λ o. place_in order.now o.net) (outputs_of (circuit_of n.now))) }
{
    let mut places = Vec::new(alloc);
    for i in 0..n.ports.len() {
        let port = &n.ports.as_slice()[i];
        if let Dir::Out(driver) = port.dir {
            places.push(order.place(driver))?;
        }
    }
    Ok(places)
}

/// The write ports of all arrays, array by array, each array's in order.
#[tactic(auto, using(crate::proofs::PlanLemmas::writes))]
pub fn all_writes(
    alloc: Global,
    n: &Netlist,
    order: &CellOrder,
) -> Result<Vec<PlannedWrite>, NoMemory>
    requires well { IsWell (circuit_of n.now) }
    requires order { IsOrderOf order.now }
    requires net { order.now.net.now ≡ n.now }
    ensures { IfOk result (λ v. v.items
        ≡ planned_writes (circuit_of n.now) order.now.places.items) }
{
    let mut ports = Vec::new(alloc);
    for array in 0..n.arrays.len() {
        let found = &n.arrays.as_slice()[array];
        put_writes(order, array, found.writes.as_slice(), &mut ports)?;
    }
    Ok(ports)
}

/// Adds the write ports of an array.
#[tactic(auto, using(crate::proofs::PlanLemmas::array_writes))]
fn put_writes(
    order: &CellOrder,
    array: usize,
    writes: &[WritePort],
    ports: &mut Vec<PlannedWrite>,
) -> Result<(), NoMemory>
    requires order { IsOrderOf order.now }
    requires there { All (IsWriteThere order.now) writes.now }
    ensures { OnOk result (ports.new.items ≡ ports.old.items
        ++ map (planned_write (order_circuit order.now) order.now.places.items array) writes.now) }
{
    for k in 0..writes.len() {
        let port = writes[k];
        ports.push(PlannedWrite {
            array,
            enable: order.place(port.enable),
            addr: order.place(port.addr),
            value: order.place(port.value),
        })?;
    }
    Ok(())
}
