//! Netlists: ports, registers, arrays and cells, what their nets mean, which are well formed, and that nets keep their values when more is added.
//!
//! The layers above may use its types and definitions, `Netlist::width`, `all_widths` and `width_of`, and the lemmas on nets that are kept (`Keeps`).
#![tactic(auto)]

mod cell_widths;
mod width;

pub use cell_widths::{all_widths, width_of};
use pdl_kit::{MemInfo, Name, Seq};
use pdl_word::Word;

/// What a cell, a register, an array or an output reads: an input, a register or a cell, each counted from 0.
///
/// `Input(i)` is the i-th input of `ports`; the clock and the reset are no inputs in this sense.
#[derive(Clone, Copy, PartialEq, Eq, Hash)]
pub enum Net {
    Input(usize),
    Reg(usize),
    Cell(usize),
}

/// An operator on two words of one width (IEEE 1364-2005, clause 5.1, for unsigned operands).
///
/// The comparisons give 1 bit, the others the width of their operands.
#[derive(Clone, Copy, PartialEq, Eq, Hash)]
pub enum BinOp {
    Add,
    Sub,
    Mul,
    And,
    Or,
    Xor,
    Eq,
    Ne,
    Lt,
    Shl,
    Shr,
}

/// A cell: one value made of the values of inputs, registers, arrays and earlier cells.
#[derive(Clone, Copy, PartialEq, Eq, Hash)]
pub enum Cell {
    /// A constant of a width of 1 to `WIDEST` bits, with a value that fits it.
    Const { width: u8, value: Word },
    /// Each bit the other way.
    Not(Net),
    /// An operator on two nets of one width.
    Bin(BinOp, Net, Net),
    /// The second net where the first, of 1 bit, is 1; else the third.
    Mux(Net, Net, Net),
    /// The bits of a net from `high` down to `low`, counted from 0.
    Slice { a: Net, high: u8, low: u8 },
    /// The first net above the second, of at most `WIDEST` bits together.
    Cat(Net, Net),
    /// A net `count` times in a row, at least once and of at most `WIDEST` bits together.
    Rep { count: u8, a: Net },
    /// The word of an array at an address.
    Read { array: usize, addr: Net },
}

/// Whether a port is an input, or an output with the net that drives it.
#[derive(Clone, Copy)]
pub enum Dir {
    In,
    Out(Net),
}

/// A port, with its width in bits, 1 to `WIDEST`.
#[derive(Drop)]
pub struct Port {
    pub name: Name,
    pub width: u8,
    pub dir: Dir,
}

/// A register, with its width in bits, 1 to `WIDEST`, its value in the first cycle, and the net whose value it takes after each cycle.
#[derive(Clone, Copy)]
pub struct Reg {
    pub width: u8,
    pub reset: Word,
    pub next: Net,
}

/// A write port of an array: after a cycle in which `enable` is 1, the word at `addr` is `value`.
#[derive(Clone, Copy)]
pub struct WritePort {
    pub enable: Net,
    pub addr: Net,
    pub value: Net,
}

/// An array of `depth` words of `width` bits; of two writes of one word in one cycle the later port's holds.
///
/// The depth is a power of two from 2 to 131,072. The name is that of the memory which the array holds.
#[derive(Drop)]
pub struct Array {
    pub name: Name,
    pub width: u8,
    pub depth: u32,
    pub writes: Seq<WritePort>,
}

/// A netlist: its ports but for the clock and the reset, its registers, arrays and cells, and the memories of the pipe that it carries out.
pub struct Netlist {
    pub name: Name,
    pub ports: Seq<Port>,
    pub regs: Seq<Reg>,
    pub arrays: Seq<Array>,
    pub cells: Seq<Cell>,
    pub mems: Seq<MemInfo>,
}

// As the derive would, but by a call of its owners: docs/DECISIONS.md says why.
impl Drop for Netlist {
    fn drop(self) {
        let Netlist {
            name: _,
            ports: _,
            regs: _,
            arrays: _,
            cells: _,
            mems: _,
        } = self;
    }
}
