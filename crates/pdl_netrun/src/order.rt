// The order in which cells get their values: runs of one kind, each cell after all that it reads.

ghost use Rattle.std.specs.Prelude.{◌≡◌, ◌+◌, ◌<◌, ◌≤◌, IsTrue, IfOk, OnOk, length, slice_index};
ghost use Rattle.pdl_net.specs.Circuit.{circuit_of, inputs_of};
ghost use Rattle.pdl_net.specs.Well.{IsWell};
ghost use Rattle.pdl_netrun.specs.Order.{IsOrderOf, IsSameNet, IsNextOf, AllPlaced, AreThere, AreEarly, IsNetThere, cell_of, order_circuit, place_in, unplaced};
ghost use Rattle.pdl_netrun.specs.Kinds.{cell_kind};

use crate::kinds::kind_of;
use crate::operation::CellKind;
use pdl_kit::NoMemory;
use pdl_net::{Cell, Dir, Net, Netlist};
use std::alloc::Global;

/// The place of a cell that has none yet, past all places that are given.
const UNPLACED: u32 = u32::MAX;

/// How many runs are chosen by their kind at most; the cells that are left then are placed in the list's order.
const RUNS: u32 = 64;

/// The kinds of cells, in the order in which runs are tried.
const KINDS: [CellKind; 18] = [
    CellKind::Constant,
    CellKind::Complement,
    CellKind::Add,
    CellKind::Sub,
    CellKind::Mul,
    CellKind::And,
    CellKind::Or,
    CellKind::Xor,
    CellKind::Equal,
    CellKind::Differ,
    CellKind::Less,
    CellKind::ShiftLeft,
    CellKind::ShiftRight,
    CellKind::Choose,
    CellKind::Slice,
    CellKind::Join,
    CellKind::Repeat,
    CellKind::Look,
];

/// The places of the values of a netlist, and its cells in the order of their places.
///
/// Inputs stand first, then registers, then cells.
#[derive(Drop)]
pub struct CellOrder<'a> {
    net: &'a Netlist,
    /// The place of the first register.
    pub regs: u32,
    /// The place of the cell that is placed next.
    pub next: u32,
    /// The place of each cell, `UNPLACED` for one that has none yet.
    pub places: Vec<u32>,
    /// The cells that have a place, by number.
    pub cells: Vec<usize>,
}

impl<'a> CellOrder<'a> {
    /// An order in which no cell has a place yet.
    fn new(alloc: Global, net: &'a Netlist) -> Result<CellOrder<'a>, NoMemory>
        ensures order { IfOk result IsOrderOf }
        ensures net { IfOk result (λ o. o.net.now ≡ net.now) }
    {
        let inputs = count_inputs(net);
        let regs = net.regs.len();
        let most = UNPLACED as usize;
        if inputs >= most || regs >= most - inputs || net.arrays.len() >= most {
            return Err(NoMemory);
        }
        let places = vec![in alloc; UNPLACED; net.cells.len()]?;
        Ok(CellOrder {
            net,
            regs: inputs as u32,
            next: (inputs + regs) as u32,
            places,
            cells: Vec::new(alloc),
        })
    }

    /// The place of a net's value.
    pub fn place(&self, net: Net) -> u32
        requires order { IsOrderOf self.now }
        requires there { IsNetThere self.now net }
        ensures { result ≡ place_in self.now net }
    {
        match net {
            Net::Input(i) => i as u32,
            Net::Reg(r) => self.regs + r as u32,
            Net::Cell(k) => self.places[k],
        }
    }

    /// A cell, which reads nets that are there.
    fn cell(&self, k: usize) -> Cell
        requires well { IsWell (order_circuit self.now) }
        requires there { k < length self.now.net.now.cells }
        ensures is { result ≡ cell_of self.now k }
        ensures reads { AreThere self.now result }
    {
        self.net.cells.as_slice()[k]
    }

    /// Whether a net has a place already.
    fn is_placed(&self, net: Net) -> bool
        requires order { IsOrderOf self.now }
        requires there { IsNetThere self.now net }
        ensures { IsTrue result → place_in self.now net < self.now.next }
    {
        self.place(net) < self.next
    }

    /// Whether all that a cell reads has a place already.
    fn is_ready(&self, cell: Cell) -> bool
        requires order { IsOrderOf self.now }
        requires there { AreThere self.now cell }
        ensures { IsTrue result → AreEarly self.now cell }
    {
        match cell {
            Cell::Const { width: _, value: _ } => true,
            Cell::Not(a) => self.is_placed(a),
            Cell::Bin(_, a, b) => self.is_placed(a) && self.is_placed(b),
            Cell::Mux(choice, a, b) => {
                self.is_placed(choice) && self.is_placed(a) && self.is_placed(b)
            }
            Cell::Slice { a, high: _, low: _ } => self.is_placed(a),
            Cell::Cat(a, b) => self.is_placed(a) && self.is_placed(b),
            Cell::Rep { count: _, a } => self.is_placed(a),
            Cell::Read { array: _, addr } => self.is_placed(addr),
        }
    }

    /// Gives the next place to a cell that has none yet.
    fn place_cell(&mut self, k: usize) -> Result<(), NoMemory>
        requires order { IsOrderOf self.old }
        requires there { k < length self.old.net.now.cells }
        requires new { slice_index self.old.places.items k ≡ unplaced }
        requires ready { AreEarly self.old (cell_of self.old k) }
        ensures order { OnOk result (IsOrderOf self.new) }
        ensures next { OnOk result (IsNextOf self.old k self.new) }
    {
        if self.next == UNPLACED - 1 {
            return Err(NoMemory);
        }
        self.places[k] = self.next;
        self.cells.push(k)?;
        self.next += 1;
        Ok(())
    }

    /// Gives the next places to the cells of a kind, as far as all that they read has one.
    fn place_kind(&mut self, kind: CellKind) -> Result<(), NoMemory>
        requires well { IsWell (order_circuit self.old) }
        requires order { IsOrderOf self.old }
        ensures order { OnOk result (IsOrderOf self.new) }
        ensures net { OnOk result (IsSameNet self.old self.new) }
    {
        for k in 0..self.net.cells.len() {
            let cell = self.cell(k);
            if self.places[k] == UNPLACED && kind_of(cell) == kind && self.is_ready(cell) {
                self.place_cell(k)?;
            }
        }
        Ok(())
    }

    /// Gives the next places to all cells that have none yet, in the list's order.
    fn place_left(&mut self) -> Result<(), NoMemory>
        requires well { IsWell (order_circuit self.old) }
        requires order { IsOrderOf self.old }
        ensures order { OnOk result (IsOrderOf self.new) }
        ensures net { OnOk result (IsSameNet self.old self.new) }
        ensures all { OnOk result (AllPlaced self.new) }
    {
        for k in 0..self.net.cells.len() {
            if self.places[k] == UNPLACED {
                self.place_cell(k)?;
            }
        }
        Ok(())
    }

    /// Whether a net has a place, or gets one in a run that has these cells.
    fn is_reached(&self, net: Net, run: &[bool]) -> bool
        requires order { IsOrderOf self.now }
        requires there { IsNetThere self.now net }
        requires run { length run.now ≡ length self.now.net.now.cells }
    {
        match net {
            Net::Cell(k) if run[k] => true,
            _ => self.is_placed(net),
        }
    }

    /// Whether a cell can follow in a run that has these cells.
    fn can_follow(&self, cell: Cell, run: &[bool]) -> bool
        requires order { IsOrderOf self.now }
        requires there { AreThere self.now cell }
        requires run { length run.now ≡ length self.now.net.now.cells }
    {
        match cell {
            Cell::Const { width: _, value: _ } => true,
            Cell::Not(a) => self.is_reached(a, run),
            Cell::Bin(_, a, b) => self.is_reached(a, run) && self.is_reached(b, run),
            Cell::Mux(choice, a, b) => {
                self.is_reached(choice, run) && self.is_reached(a, run) && self.is_reached(b, run)
            }
            Cell::Slice { a, high: _, low: _ } => self.is_reached(a, run),
            Cell::Cat(a, b) => self.is_reached(a, run) && self.is_reached(b, run),
            Cell::Rep { count: _, a } => self.is_reached(a, run),
            Cell::Read { array: _, addr } => self.is_reached(addr, run),
        }
    }

    /// Tells a net, if it is a cell, of a cell that reads it: how often the kind changes from that one on.
    fn tell(&self, net: Net, kind: CellKind, after: u32, changes: &mut [u32])
        requires well { IsWell (order_circuit self.now) }
        requires there { IsNetThere self.now net }
        requires changes { length changes.old ≡ length self.now.net.now.cells }
        ensures { length changes.new ≡ length changes.old }
    {
        if let Net::Cell(k) = net {
            let own = self.cell(k);
            let more = after.saturating_add(u32::from(kind_of(own) != kind));
            changes[k] = changes[k].max(more);
        }
    }

    /// Tells all cells that a cell reads.
    fn tell_all(&self, cell: Cell, after: u32, changes: &mut [u32])
        requires well { IsWell (order_circuit self.now) }
        requires there { AreThere self.now cell }
        requires changes { length changes.old ≡ length self.now.net.now.cells }
        ensures { length changes.new ≡ length changes.old }
    {
        let kind = kind_of(cell);
        match cell {
            Cell::Const { width: _, value: _ } => (),
            Cell::Not(a) => self.tell(a, kind, after, changes),
            Cell::Bin(_, a, b) => {
                self.tell(a, kind, after, changes);
                self.tell(b, kind, after, changes);
            }
            Cell::Mux(choice, a, b) => {
                self.tell(choice, kind, after, changes);
                self.tell(a, kind, after, changes);
                self.tell(b, kind, after, changes);
            }
            Cell::Slice { a, high: _, low: _ } => self.tell(a, kind, after, changes),
            Cell::Cat(a, b) => {
                self.tell(a, kind, after, changes);
                self.tell(b, kind, after, changes);
            }
            Cell::Rep { count: _, a } => self.tell(a, kind, after, changes),
            Cell::Read { array: _, addr } => self.tell(addr, kind, after, changes),
        }
    }

    /// How often the kind changes at most on a way from each cell on, by cells that read one another; a cell stands after all that it reads.
    fn all_changes(&self, alloc: Global) -> Result<Vec<u32>, NoMemory>
        requires well { IsWell (order_circuit self.now) }
        ensures { IfOk result (λ v. length v.items ≡ length self.now.net.now.cells) }
    {
        let count = self.net.cells.len();
        let mut changes = vec![in alloc; 0; count]?;
        for i in 0..count {
            let k = count - 1 - i;
            let after = changes[k];
            self.tell_all(self.cell(k), after, &mut changes);
        }
        Ok(changes)
    }

    /// How many cells a run of a kind would have, of how many of the kind that have no place yet, and how many changes of kind may follow; `run` tells which cells they are.
    fn share(&self, kind: CellKind, changes: &[u32], run: &mut [bool]) -> Share
        requires well { IsWell (order_circuit self.now) }
        requires order { IsOrderOf self.now }
        requires changes { length changes.now ≡ length self.now.net.now.cells }
        requires run { length run.old ≡ length self.now.net.now.cells }
        ensures { length run.new ≡ length run.old }
    {
        let mut share = Share {
            ready: 0,
            left: 0,
            changes: 0,
        };
        for k in 0..self.net.cells.len() {
            let cell = self.cell(k);
            let is_left = self.places[k] == UNPLACED && kind_of(cell) == kind;
            // A cell reads earlier ones, which are told already.
            run[k] = is_left && self.can_follow(cell, run);
            share.left += usize::from(is_left);
            share.ready += usize::from(run[k]);
            if run[k] {
                share.changes = share.changes.max(changes[k]);
            }
        }
        share
    }

    /// The kind of which a run is best made next, if some run would have any cell.
    fn best_kind(&self, changes: &[u32], run: &mut [bool]) -> Option<CellKind>
        requires well { IsWell (order_circuit self.now) }
        requires order { IsOrderOf self.now }
        requires changes { length changes.now ≡ length self.now.net.now.cells }
        requires run { length run.old ≡ length self.now.net.now.cells }
        ensures { length run.new ≡ length run.old }
    {
        let mut best = None;
        let mut most = Share {
            ready: 0,
            left: 1,
            changes: 0,
        };
        for kind in KINDS {
            let share = self.share(kind, changes, run);
            if share.is_above(most) {
                best = Some(kind);
                most = share;
            }
        }
        best
    }
}

/// How many cells a run would have, of how many that are left, and how often the kind changes at most on a way from one of them on.
#[derive(Clone, Copy)]
struct Share {
    ready: usize,
    left: usize,
    changes: u32,
}

impl Share {
    /// Whether a run has all cells that are left.
    fn is_whole(self) -> bool {
        self.ready == self.left
    }

    /// Whether its run is the better one to make next: one that leaves no cell of its kind, then one that more changes of kind follow, then the greater share.
    fn is_above(self, other: Share) -> bool {
        if self.ready == 0 || other.ready == 0 {
            return self.ready > other.ready;
        }
        if self.is_whole() != other.is_whole() {
            return self.is_whole();
        }
        if self.changes != other.changes {
            return self.changes > other.changes;
        }
        // The products fit, since no more than `UNPLACED` cells are placed.
        self.ready.wrapping_mul(other.left) > other.ready.wrapping_mul(self.left)
    }
}

/// How many inputs a netlist has.
fn count_inputs(net: &Netlist) -> usize
    ensures { result ≡ length (inputs_of (circuit_of net.now)) }
{
    let mut inputs = 0;
    for port in net.ports.as_slice() {
        if let Dir::In = port.dir {
            inputs += 1;
        }
    }
    inputs
}

/// An order of all cells, in runs of one kind as long as some choices of kinds make them.
pub fn order_of<'a>(alloc: Global, net: &'a Netlist) -> Result<CellOrder<'a>, NoMemory>
    requires { IsWell (circuit_of net.now) }
    ensures order { IfOk result IsOrderOf }
    ensures net { IfOk result (λ o. o.net.now ≡ net.now) }
    ensures all { IfOk result AllPlaced }
{
    let mut order = CellOrder::new(alloc, net)?;
    let changes = order.all_changes(alloc)?;
    let mut run = vec![in alloc; false; net.cells.len()]?;
    for _ in 0..RUNS {
        let Some(kind) = order.best_kind(&changes, &mut run) else {
            break;
        };
        order.place_kind(kind)?;
    }
    order.place_left()?;
    Ok(order)
}
