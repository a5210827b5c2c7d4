// The nets that a file's names stand for.
ghost use Rattle.std.specs.Prelude.{◌≡◌};

use pdl_kit::Seq;
use pdl_net::{Cell, Net, WritePort};
use pdl_word::Word;

/// An `assign` to an output: the port, counted from 0 among all ports, and the net.
#[derive(Clone, Copy)]
pub struct OutputDrive {
    pub port: usize,
    pub net: Net,
}

/// A block of a register: the register, the width and value of its constant, and the net.
#[derive(Clone, Copy)]
pub struct RegDrive {
    pub reg: usize,
    pub width: u8,
    pub reset: Word,
    pub net: Net,
}

/// A write of an array's block: the array, and the nets.
#[derive(Clone, Copy)]
pub struct ArrayWrite {
    pub array: usize,
    pub port: WritePort,
}

/// All cells, `assign`s and blocks of a file, in its order.
pub struct Wiring {
    pub cells: Seq<Cell>,
    pub outputs: Seq<OutputDrive>,
    pub regs: Seq<RegDrive>,
    pub blocks: Seq<Seq<ArrayWrite>>,
}

impl Wiring {
    /// Its cells, and nothing else.
    pub fn into_cells(self) -> Seq<Cell>
        ensures { result ≡ self.cells }
    {
        let Wiring {
            cells,
            outputs: _,
            regs: _,
            blocks: _,
        } = self;
        cells
    }
}

// As the derive would, but by a call of its owners: docs/DECISIONS.md says why.
impl Drop for Wiring {
    fn drop(self) {
        let Wiring {
            cells: _,
            outputs: _,
            regs: _,
            blocks: _,
        } = self;
    }
}
