// What is kept, with the new numbers of kept nets.
ghost use Rattle.std.specs.Prelude.{◌≡◌, ◌<◌, length, slice_index_or, false, IfOk};
ghost use Rattle.pdl_word.specs.Each.{Each};
ghost use Rattle.pdl_net_needed.specs.Needed.{is_kept, reads_of, shown_by, read_by};
ghost use Rattle.pdl_net_needed.specs.Pruned.{moved_net, moved_cell, moved_reg, moved_dir, moved_write};
ghost use Rattle.pdl_net_needed.specs.Marks.{IsWithin, AreNumbers};

use crate::marks::Marks;
use pdl_kit::NoMemory;
use pdl_net::{Cell, Dir, Net, Reg, WritePort};
use std::alloc::Global;
use std::marker::Model;

/// What is kept, and for each register and cell how many kept ones stand before it.
#[derive(Drop)]
pub struct Kept {
    marks: Marks,
    reg_numbers: Vec<usize>,
    cell_numbers: Vec<usize>,
}

impl Model for Kept {
    ghost use Rattle.pdl_net_needed.specs.Needed.{Choice};

    ghost Value = { Choice };

    ghost use Rattle.pdl_net_needed.specs.Numbers.{choice_of_parts, IsNumbered};

    ghost view = { choice_of_parts };

    ghost invariant = { IsNumbered };
}

/// How many kept ones stand before each place.
#[tactic(auto, using(crate::proofs::Counts::counts))]
fn numbers(alloc: Global, marks: &[bool]) -> Result<Vec<usize>, NoMemory>
    ensures { IfOk result (λ ns. AreNumbers marks.now ns.items) }
{
    let mut numbers = Vec::new(alloc);
    let mut next = 0;
    for i in 0..marks.len() {
        numbers.push(next)?;
        if marks[i] {
            next += 1;
        }
    }
    Ok(numbers)
}

impl Kept {
    /// What is marked, with its new numbers.
    pub fn numbered(alloc: Global, marks: Marks) -> Result<Kept, NoMemory>
        ensures { IfOk result (λ k. k ≡ marks) }
    {
        let reg_numbers = numbers(alloc, marks.regs())?;
        let cell_numbers = numbers(alloc, marks.cells())?;
        Ok(Kept {
            marks,
            reg_numbers,
            cell_numbers,
        })
    }

    /// Whether a net is kept; the inputs are.
    pub fn has(&self, net: Net) -> bool
        requires { IsWithin self.now net }
        ensures { result ≡ is_kept self.now net }
    {
        self.marks.has(net)
    }

    /// Whether a register is kept.
    pub fn has_reg(&self, r: usize) -> bool
        requires { r < length self.now.regs }
        ensures { result ≡ slice_index_or self.now.regs r false }
    {
        self.marks.has(Net::Reg(r))
    }

    /// Whether a cell is kept.
    pub fn has_cell(&self, k: usize) -> bool
        requires { k < length self.now.cells }
        ensures { result ≡ slice_index_or self.now.cells k false }
    {
        self.marks.has(Net::Cell(k))
    }

    /// A net by its new number.
    pub fn net(&self, net: Net) -> Net
        requires { IsWithin self.now net }
        ensures { result ≡ moved_net self.now net }
    {
        match net {
            Net::Input(_) => net,
            Net::Reg(r) => Net::Reg(self.reg_numbers[r]),
            Net::Cell(k) => Net::Cell(self.cell_numbers[k]),
        }
    }

    /// A cell over nets by their new numbers.
    pub fn cell(&self, cell: Cell) -> Cell
        requires { Each (IsWithin self.now) (reads_of cell) }
        ensures { result ≡ moved_cell self.now cell }
    {
        match cell {
            Cell::Const { .. } => cell,
            Cell::Not(a) => Cell::Not(self.net(a)),
            Cell::Bin(op, a, b) => Cell::Bin(op, self.net(a), self.net(b)),
            Cell::Mux(choice, a, b) => Cell::Mux(self.net(choice), self.net(a), self.net(b)),
            Cell::Slice { a, high, low } => Cell::Slice {
                a: self.net(a),
                high,
                low,
            },
            Cell::Cat(a, b) => Cell::Cat(self.net(a), self.net(b)),
            Cell::Rep { count, a } => Cell::Rep {
                count,
                a: self.net(a),
            },
            Cell::Read { array, addr } => Cell::Read {
                array,
                addr: self.net(addr),
            },
        }
    }

    /// A register whose next value goes by its new number.
    pub fn reg(&self, reg: Reg) -> Reg
        requires { IsWithin self.now reg.next }
        ensures { result ≡ moved_reg self.now reg }
    {
        Reg {
            width: reg.width,
            reset: reg.reset,
            next: self.net(reg.next),
        }
    }

    /// The direction of a port, the shown net by its new number.
    pub fn dir(&self, dir: Dir) -> Dir
        requires { Each (IsWithin self.now) (shown_by dir) }
        ensures { result ≡ moved_dir self.now dir }
    {
        match dir {
            Dir::In => Dir::In,
            Dir::Out(net) => Dir::Out(self.net(net)),
        }
    }

    /// A write port over nets by their new numbers.
    pub fn write(&self, port: WritePort) -> WritePort
        requires { Each (IsWithin self.now) (read_by port) }
        ensures { result ≡ moved_write self.now port }
    {
        WritePort {
            enable: self.net(port.enable),
            addr: self.net(port.addr),
            value: self.net(port.value),
        }
    }
}
