// The cells of a netlist, worked out one by one: what a test reads and sets.
use pdl_kit::NoMemory;
use pdl_net::{BinOp, Cell, Net, Netlist, Reg, WritePort};
use pdl_word::Word;
use std::alloc::Global;
use std::mem::swap;

/// A width in bits and a value.
#[derive(Clone, Copy)]
pub struct BoardWord {
    pub width: u8,
    pub value: u64,
}

/// The registers, the array's words and the cells of a netlist with one array and no inputs.
#[derive(Drop)]
pub struct Board {
    regs: Vec<u64>,
    next: Vec<u64>,
    words: Vec<u64>,
    cells: Vec<BoardWord>,
}

const ZERO: BoardWord = BoardWord { width: 0, value: 0 };

/// A word of a netlist, in which none has more than 64 bits; one that had would be 0.
fn narrow(word: Word) -> u64 {
    match u64::try_from(word) {
        Ok(number) => number,
        Err(_) => 0,
    }
}

/// The lowest bits of a number.
pub fn lowest(width: u8, value: u64) -> u64 {
    if width < 64 {
        value & !(u64::MAX << width)
    } else {
        value
    }
}

/// The number at a place, 0 past the end.
pub fn number(xs: &[u64], i: usize) -> u64 {
    if i < xs.len() { xs[i] } else { 0 }
}

/// Puts a number at a place, if there is one.
pub fn put(xs: &mut [u64], i: usize, value: u64) {
    if i < xs.len() {
        xs[i] = value;
    }
}

/// How far a word is shifted; 64 or more leaves nothing of it.
fn distance(n: u64) -> u32 {
    if n < 64 { n as u32 } else { 64 }
}

fn operated(op: BinOp, a: BoardWord, b: BoardWord) -> BoardWord {
    let value = match op {
        BinOp::Add => a.value.wrapping_add(b.value),
        BinOp::Sub => a.value.wrapping_sub(b.value),
        BinOp::Mul => a.value.wrapping_mul(b.value),
        BinOp::And => a.value & b.value,
        BinOp::Or => a.value | b.value,
        BinOp::Xor => a.value ^ b.value,
        BinOp::Eq => (a.value == b.value) as u64,
        BinOp::Ne => (a.value != b.value) as u64,
        BinOp::Lt => (a.value < b.value) as u64,
        BinOp::Shl => a.value.checked_shl(distance(b.value)).unwrap_or(0),
        BinOp::Shr => a.value.checked_shr(distance(b.value)).unwrap_or(0),
    };
    let width = match op {
        BinOp::Eq | BinOp::Ne | BinOp::Lt => 1,
        _ => a.width,
    };
    BoardWord {
        width,
        value: lowest(width, value),
    }
}

impl Board {
    /// The netlist at reset, with this image in its array.
    pub fn new(alloc: Global, net: &Netlist, image: &[u64]) -> Result<Board, NoMemory> {
        let mut board = Board {
            regs: vec![in alloc; 0; net.regs.len()]?,
            next: vec![in alloc; 0; net.regs.len()]?,
            words: Vec::from_slice(alloc, image)?,
            cells: vec![in alloc; ZERO; net.cells.len()]?,
        };
        board.reset(net.regs.as_slice());
        Ok(board)
    }

    fn reset(&mut self, regs: &[Reg]) {
        for k in 0..regs.len() {
            put(self.regs.as_mut_slice(), k, narrow(regs[k].reset));
        }
    }

    /// Sets a register for this cycle.
    pub fn set(&mut self, reg: usize, value: u64) {
        put(self.regs.as_mut_slice(), reg, value);
    }

    /// What a register holds, and what it held in the cycle before.
    pub fn reg(&self, reg: usize) -> (u64, u64) {
        (
            number(self.regs.as_slice(), reg),
            number(self.next.as_slice(), reg),
        )
    }

    fn word(&self, net: &Netlist, x: Net) -> BoardWord {
        match x {
            Net::Input(_) => ZERO,
            Net::Reg(r) => match net.regs.as_slice().get(r) {
                Some(reg) => BoardWord {
                    width: reg.width,
                    value: number(self.regs.as_slice(), r),
                },
                None => ZERO,
            },
            Net::Cell(k) => match self.cells.get(k) {
                Some(w) => *w,
                None => ZERO,
            },
        }
    }

    /// What a net shows in this cycle.
    pub fn show(&self, net: &Netlist, x: Net) -> u64 {
        self.word(net, x).value
    }

    fn read(&self, net: &Netlist, array: usize, addr: u64) -> BoardWord {
        match net.arrays.get(array) {
            Some(a) => BoardWord {
                width: a.width,
                value: number(self.words.as_slice(), addr as usize),
            },
            None => ZERO,
        }
    }

    fn cell(&self, net: &Netlist, c: Cell) -> BoardWord {
        match c {
            Cell::Const { width, value } => BoardWord {
                width,
                value: narrow(value),
            },
            Cell::Not(a) => {
                let a = self.word(net, a);
                BoardWord {
                    width: a.width,
                    value: lowest(a.width, !a.value),
                }
            }
            Cell::Bin(op, a, b) => operated(op, self.word(net, a), self.word(net, b)),
            Cell::Mux(c, a, b) => {
                if self.word(net, c).value == 1 {
                    self.word(net, a)
                } else {
                    self.word(net, b)
                }
            }
            Cell::Slice { a, high, low } => {
                let width = high.wrapping_sub(low).wrapping_add(1);
                let a = self.word(net, a).value.checked_shr(low as u32).unwrap_or(0);
                BoardWord {
                    width,
                    value: lowest(width, a),
                }
            }
            Cell::Cat(a, b) => {
                let a = self.word(net, a);
                let b = self.word(net, b);
                let above = a.value.checked_shl(b.width as u32).unwrap_or(0);
                BoardWord {
                    width: a.width.wrapping_add(b.width),
                    value: above | b.value,
                }
            }
            Cell::Rep { count: _, a: _ } => ZERO,
            Cell::Read { array, addr } => self.read(net, array, self.word(net, addr).value),
        }
    }

    fn put_cell(&mut self, k: usize, word: BoardWord) {
        if k < self.cells.len() {
            self.cells[k] = word;
        }
    }

    /// Works out the cells from the registers and the array.
    pub fn settle(&mut self, net: &Netlist) {
        let cells = net.cells.as_slice();
        for k in 0..cells.len() {
            let word = self.cell(net, cells[k]);
            self.put_cell(k, word);
        }
    }

    fn next_regs(&mut self, net: &Netlist) {
        let regs = net.regs.as_slice();
        for k in 0..regs.len() {
            let value = self.show(net, regs[k].next);
            put(self.next.as_mut_slice(), k, value);
        }
    }

    fn store(&mut self, net: &Netlist, p: &WritePort) {
        if self.show(net, p.enable) == 1 {
            let addr = self.show(net, p.addr) as usize;
            let value = self.show(net, p.value);
            put(self.words.as_mut_slice(), addr, value);
        }
    }

    fn store_all(&mut self, net: &Netlist, ports: &[WritePort]) {
        for p in ports {
            self.store(net, p);
        }
    }

    /// Goes on to the next cycle, whose cells are to be worked out.
    pub fn step(&mut self, net: &Netlist) {
        self.next_regs(net);
        if let Some(array) = net.arrays.get(0) {
            self.store_all(net, array.writes.as_slice());
        }
        swap(&mut self.regs, &mut self.next);
    }
}
