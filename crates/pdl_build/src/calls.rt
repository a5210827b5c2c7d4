// The cells that a builder adds, each found again where an equal one is there.
ghost use Rattle.std.specs.Prelude.{◌≡◌, ◌≢◌, ℕ, ◌+◌, ◌*◌, ◌^◌, ◌<◌, ◌≤◌, false, length, slice_get, Some, IfOk, IfSome, IfNone, OnOk, OnErr};
ghost use Rattle.pdl_net.specs.Circuit.{HasArray, array_width, array_depth};
ghost use Rattle.pdl_net.specs.Signal.{const_signal, not_signal, bin_signal, mux_signal, slice_signal, cat_signal, rep_signal, read_signal};
ghost use Rattle.pdl_net.specs.HasWidth.{HasWidth};
ghost use Rattle.pdl_net.specs.Meaning.{IsThere, Means, signal, cell_signal};
ghost use Rattle.pdl_net.specs.Well.{Fits};
ghost use Rattle.pdl_net.specs.Growth.{Extends};
ghost use Rattle.pdl_build.specs.Change.{with_cell};
ghost use Rattle.pdl_build.specs.FoldedCells.{is_foldable};
ghost use Rattle.pdl_word.specs.Words.{widest};

use crate::simplify::Simple;
use crate::{Builder, Extent};
use pdl_kit::NoMemory;
use pdl_net::{BinOp, Cell, Net};
use pdl_word::Word;

impl Builder {
    /// A net with the value of a cell, which reads nets that are there, with the widths that it takes; at most one cell is made, and none that is there already.
    pub fn cell(&mut self, cell: Cell) -> Result<Net, NoMemory>
        requires { Fits self.old cell }
        ensures means { IfOk result (λ x.
            Means self.new x (cell_signal self.old (signal self.old) cell)) }
        ensures extends { Extends self.old self.new }
        ensures regs { self.new.regs ≡ self.old.regs }
        ensures count { length self.new.cells ≤ length self.old.cells + 1 }
        ensures err { OnErr result (self.new ≡ self.old) }
    {
        match self.simple(cell) {
            Simple::Net(net) => Ok(net),
            Simple::Cell(simpler) => self.once(self.folded(simpler)),
        }
    }

    /// The net of an equal cell, else of one more.
    fn once(&mut self, cell: Cell) -> Result<Net, NoMemory>
        requires fits { Fits self.old cell }
        requires folded { is_foldable self.old.cells cell ≡ false }
        ensures means { IfOk result (λ x.
            Means self.new x (cell_signal self.old (signal self.old) cell)) }
        ensures extends { Extends self.old self.new }
        ensures regs { self.new.regs ≡ self.old.regs }
        ensures count { length self.new.cells ≤ length self.old.cells + 1 }
        ensures err { OnErr result (self.new ≡ self.old) }
    {
        match self.place(cell) {
            Some(net) => Ok(net),
            None => self.add(cell),
        }
    }

    /// The net of an equal cell.
    fn place(&self, cell: Cell) -> Option<Net>
        ensures means { IfSome result (λ x.
            Means self.now x (cell_signal self.now (signal self.now) cell)) }
        ensures absent { IfNone result ((k : ℕ) → slice_get self.now.cells k ≢ Some cell) }
    {
        match self.cells.place(cell) {
            Some(at) => Some(Net::Cell(at)),
            None => None,
        }
    }

    /// One more cell, of which there is no equal one.
    fn add(&mut self, cell: Cell) -> Result<Net, NoMemory>
        requires fits { Fits self.old cell }
        requires folded { is_foldable self.old.cells cell ≡ false }
        requires absent { (k : ℕ) → slice_get self.old.cells k ≢ Some cell }
        ensures exact { OnOk result (self.new ≡ with_cell self.old cell) }
        ensures means { IfOk result (λ x.
            Means self.new x (cell_signal self.old (signal self.old) cell)) }
        ensures extends { Extends self.old self.new }
        ensures err { OnErr result (self.new ≡ self.old) }
    {
        let at = self.cells.len();
        let width = self.cell_width(cell);
        let is_below = self.cell_below(cell);
        self.extents.push(Extent { width, is_below })?;
        match self.cells.push(cell) {
            Ok(()) => Ok(Net::Cell(at)),
            Err(_) => {
                self.extents.pop();
                Err(NoMemory)
            }
        }
    }

    /// A cell that is always this value, of 1 to `WIDEST` bits.
    pub fn constant(&mut self, width: u8, value: Word) -> Result<Net, NoMemory>
        requires low { 1 ≤ width }
        requires high { width ≤ widest }
        requires fits { value < 2 ^ width }
        ensures means { IfOk result (λ x. Means self.new x (const_signal width value)) }
        ensures extends { Extends self.old self.new }
        ensures regs { self.new.regs ≡ self.old.regs }
    {
        self.cell(Cell::Const { width, value })
    }

    /// Each bit of a net the other way.
    pub fn not(&mut self, a: Net) -> Result<Net, NoMemory>
        requires { IsThere self.old a }
        ensures means { IfOk result (λ x. Means self.new x (not_signal (signal self.old a))) }
        ensures extends { Extends self.old self.new }
        ensures regs { self.new.regs ≡ self.old.regs }
    {
        self.cell(Cell::Not(a))
    }

    /// An operator on two nets of one width.
    pub fn bin(&mut self, op: BinOp, a: Net, b: Net) -> Result<Net, NoMemory>
        requires a_there { IsThere self.old a }
        requires b_there { IsThere self.old b }
        requires widths { (signal self.old a).width ≡ (signal self.old b).width }
        ensures means { IfOk result (λ x.
            Means self.new x (bin_signal op (signal self.old a) (signal self.old b))) }
        ensures extends { Extends self.old self.new }
        ensures regs { self.new.regs ≡ self.old.regs }
    {
        self.cell(Cell::Bin(op, a, b))
    }

    /// The net `a` where `choice`, of 1 bit, is 1, else `b`.
    pub fn mux(&mut self, choice: Net, a: Net, b: Net) -> Result<Net, NoMemory>
        requires choice { HasWidth self.old choice 1 }
        requires a_there { IsThere self.old a }
        requires b_there { IsThere self.old b }
        requires widths { (signal self.old a).width ≡ (signal self.old b).width }
        ensures means { IfOk result (λ x.
            Means self.new x (mux_signal (signal self.old choice) (signal self.old a)
            (signal self.old b))) }
        ensures extends { Extends self.old self.new }
        ensures regs { self.new.regs ≡ self.old.regs }
    {
        self.cell(Cell::Mux(choice, a, b))
    }

    /// The bits of a net from `high` down to `low`.
    pub fn slice(&mut self, a: Net, high: u8, low: u8) -> Result<Net, NoMemory>
        requires a_there { IsThere self.old a }
        requires order { low ≤ high }
        requires top { high < (signal self.old a).width }
        ensures means { IfOk result (λ x.
            Means self.new x (slice_signal high low (signal self.old a))) }
        ensures extends { Extends self.old self.new }
        ensures regs { self.new.regs ≡ self.old.regs }
    {
        self.cell(Cell::Slice { a, high, low })
    }

    /// The net `a` above `b`, of at most `WIDEST` bits together.
    pub fn cat(&mut self, a: Net, b: Net) -> Result<Net, NoMemory>
        requires a_there { IsThere self.old a }
        requires b_there { IsThere self.old b }
        requires widths { (signal self.old a).width + (signal self.old b).width ≤ widest }
        ensures means { IfOk result (λ x.
            Means self.new x (cat_signal (signal self.old a) (signal self.old b))) }
        ensures extends { Extends self.old self.new }
        ensures regs { self.new.regs ≡ self.old.regs }
    {
        self.cell(Cell::Cat(a, b))
    }

    /// A net `count` times in a row, of at most `WIDEST` bits together.
    pub fn rep(&mut self, count: u8, a: Net) -> Result<Net, NoMemory>
        requires a_there { IsThere self.old a }
        requires some { 1 ≤ count }
        requires widths { count * (signal self.old a).width ≤ widest }
        ensures means { IfOk result (λ x. Means self.new x (rep_signal count (signal self.old a))) }
        ensures extends { Extends self.old self.new }
        ensures regs { self.new.regs ≡ self.old.regs }
    {
        self.cell(Cell::Rep { count, a })
    }

    /// The word of an array at an address.
    pub fn read(&mut self, array: usize, addr: Net) -> Result<Net, NoMemory>
        requires has { HasArray self.old array }
        requires addr_there { IsThere self.old addr }
        requires reach { 2 ^ (signal self.old addr).width ≡ array_depth self.old array }
        ensures means { IfOk result (λ x.
            Means self.new x (read_signal (array_width self.old array) array
            (signal self.old addr))) }
        ensures extends { Extends self.old self.new }
        ensures regs { self.new.regs ≡ self.old.regs }
    {
        self.cell(Cell::Read { array, addr })
    }
}
