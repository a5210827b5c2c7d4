//! What a text of the subset declares, with the lines of what it declares and with names as they are written.
ghost use Rattle.std.specs.Prelude.{◌≡◌};

use pdl_kit::{Name, Seq};
use pdl_net::BinOp;
use pdl_word::Word;

/// A port: its line, its name, the highest bit of its range, and whether it is an input.
#[derive(Drop)]
pub struct PortDecl {
    pub line: u32,
    pub name: Name,
    pub high: u32,
    pub input: bool,
}

/// A register: its line, its name, and the highest bit of its range.
#[derive(Drop)]
pub struct RegDecl {
    pub line: u32,
    pub name: Name,
    pub high: u32,
}

/// An array: its line, its name, the highest bit of a word, and its last address.
#[derive(Drop)]
pub struct ArrayDecl {
    pub line: u32,
    pub name: Name,
    pub high: u32,
    pub last: u32,
}

/// The right side of a cell's `assign`.
#[derive(Drop)]
pub enum Term {
    Const { width: u32, value: Word },
    Not(Name),
    Bin(BinOp, Name, Name),
    Mux(Name, Name, Name),
    Slice { a: Name, high: u32, low: u32 },
    Cat(Name, Name),
    Rep { count: u32, a: Name },
    Read { array: Name, addr: Name },
}

/// A cell: the line of its `assign`, the name and highest bit of its wire, what is assigned to, and the term.
#[derive(Drop)]
pub struct CellDecl {
    pub line: u32,
    pub name: Name,
    pub high: u32,
    pub target: Name,
    pub term: Term,
}

/// An `assign` to a port: its line, the port, and the operand.
#[derive(Drop)]
pub struct OutputDecl {
    pub line: u32,
    pub port: Name,
    pub source: Name,
}

/// A block that drives a register: its line, the register, the constant that it takes at reset, and the operand that it takes else.
#[derive(Drop)]
pub struct RegBlock {
    pub line: u32,
    pub reg: Name,
    pub width: u32,
    pub reset: Word,
    pub source: Name,
}

/// A write to an array: the line of its `if`, the condition, the array, the address, and the word.
#[derive(Drop)]
pub struct WriteDecl {
    pub line: u32,
    pub enable: Name,
    pub array: Name,
    pub addr: Name,
    pub value: Name,
}

/// A block that writes to an array: its line, and its writes.
#[derive(Drop)]
pub struct ArrayBlock {
    pub line: u32,
    pub writes: Seq<WriteDecl>,
}

/// A whole file: the line and name of its module without `pdl_`, the line and highest bit of `rst`, and all that it declares, in the order of the text.
pub struct File {
    pub line: u32,
    pub name: Name,
    pub reset_line: u32,
    pub reset_high: u32,
    pub ports: Seq<PortDecl>,
    pub regs: Seq<RegDecl>,
    pub arrays: Seq<ArrayDecl>,
    pub cells: Seq<CellDecl>,
    pub outputs: Seq<OutputDecl>,
    pub reg_blocks: Seq<RegBlock>,
    pub array_blocks: Seq<ArrayBlock>,
}

impl File {
    /// The name of its module, and nothing else.
    pub fn into_name(self) -> Name
        ensures { result ≡ self.name }
    {
        let File {
            line: _,
            name,
            reset_line: _,
            reset_high: _,
            ports: _,
            regs: _,
            arrays: _,
            cells: _,
            outputs: _,
            reg_blocks: _,
            array_blocks: _,
        } = self;
        name
    }
}

// As the derive would, but by a call of its owners: docs/DECISIONS.md says why.
impl Drop for File {
    fn drop(self) {
        let File {
            line: _,
            name: _,
            reset_line: _,
            reset_high: _,
            ports: _,
            regs: _,
            arrays: _,
            cells: _,
            outputs: _,
            reg_blocks: _,
            array_blocks: _,
        } = self;
    }
}
