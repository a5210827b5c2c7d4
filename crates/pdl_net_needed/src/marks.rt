// Which registers and which cells of a netlist are kept.
ghost use Rattle.std.specs.Prelude.{◌≡◌, IfOk};
ghost use Rattle.pdl_net_needed.specs.Needed.{is_kept};
ghost use Rattle.pdl_net_needed.specs.Marks.{IsWithin, none_kept, with_kept};

use pdl_kit::NoMemory;
use pdl_net::Net;
use std::alloc::Global;
use std::marker::Model;

/// A mark for each register and each cell: whether it is kept.
#[derive(Drop)]
pub struct Marks {
    regs: Vec<bool>,
    cells: Vec<bool>,
}

impl Model for Marks {
    ghost use Rattle.pdl_net_needed.specs.Needed.{Choice};

    ghost Value = { Choice };

    ghost view = { λ m. record { regs = m.regs.items; cells = m.cells.items } };
}

impl Marks {
    /// No mark, for so many registers and cells.
    pub fn none(alloc: Global, regs: usize, cells: usize) -> Result<Marks, NoMemory>
        ensures { IfOk result (λ m. m ≡ none_kept regs cells) }
    {
        Ok(Marks {
            regs: vec![in alloc; false; regs]?,
            cells: vec![in alloc; false; cells]?,
        })
    }

    /// Whether a net is kept.
    pub fn has(&self, net: Net) -> bool
        requires { IsWithin self.now net }
        ensures { result ≡ is_kept self.now net }
    {
        match net {
            Net::Input(_) => true,
            Net::Reg(r) => self.regs[r],
            Net::Cell(k) => self.cells[k],
        }
    }

    /// Keeps a net.
    pub fn add(&mut self, net: Net)
        requires { IsWithin self.old net }
        ensures { self.new ≡ with_kept self.old net }
    {
        match net {
            Net::Input(_) => {}
            Net::Reg(r) => self.regs[r] = true,
            Net::Cell(k) => self.cells[k] = true,
        }
    }

    /// The marks of the registers.
    pub fn regs(&self) -> &[bool]
        ensures { result.now ≡ self.now.regs }
    {
        self.regs.as_slice()
    }

    /// The marks of the cells.
    pub fn cells(&self) -> &[bool]
        ensures { result.now ≡ self.now.cells }
    {
        self.cells.as_slice()
    }
}
