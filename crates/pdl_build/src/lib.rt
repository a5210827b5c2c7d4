//! A builder of netlists: each call adds what it is told, and all nets keep the values that they had; no two cells are equal, and a cell whose operands are all constants is the constant that it gives.
//!
//! The layers above make a netlist by a `Builder`, and take what they know of its nets from the clauses of its calls.
#![tactic(auto)]

mod calls;
mod distinct;
mod extend;
mod fold;
mod rules;
mod same;
mod simplify;

ghost use Rattle.std.specs.Prelude.{◌≡◌, ◌≢◌, ℕ, ◌+◌, ◌*◌, ◌^◌, ◌<◌, ◌≤◌, [], ◌∷◌, ◌++◌, length, AllPairs, IfOk, OnOk, OnErr};
ghost use Rattle.pdl_net.specs.Circuit.{circuit_of, inputs_of, outputs_of, array_at, HasReg, reg_width, HasArray, array_width, array_depth};
ghost use Rattle.pdl_net.specs.Signal.{input_signal, bin_width as op_width};
ghost use Rattle.pdl_net.specs.HasWidth.{HasWidth};
ghost use Rattle.pdl_net.specs.Meaning.{IsThere, Means, signal, cell_signal, next_signal, write_signal, write_signals};
ghost use Rattle.pdl_net.specs.Well.{Fits, IsWell, IsDepth};
ghost use Rattle.pdl_net.specs.Growth.{Extends, ExtendsBut, ExtendsPorts, ExtendsArrays};
ghost use Rattle.pdl_build.specs.FoldedCells.{AreFolded};
ghost use Rattle.pdl_build.specs.Change.{empty_circuit, with_port, input_port, output_port, with_reg, with_next, new_shape, with_array, with_write, write_port, one_reg, one_array, IsNewReg, IsNewArray};
ghost use Rattle.pdl_word.specs.Words.{widest};

use distinct::DistinctCells;
use pdl_kit::{MemInfo, Name, NoMemory, Seq};
use pdl_net::{Array, BinOp, Cell, Dir, Net, Netlist, Port, Reg, WritePort};
use pdl_word::Word;
use std::alloc::Global;
use std::marker::Model;

/// What is known of a cell: its width in bits, and whether its value is below the power of two of that whatever it reads, also in a state that doesn't suit.
#[derive(Clone, Copy)]
struct Extent {
    width: u8,
    is_below: bool,
}

/// A netlist that grows.
pub struct Builder {
    alloc: Global,
    ports: Vec<Port>,
    regs: Vec<Reg>,
    arrays: Vec<Array>,
    cells: DistinctCells,
    /// The width of each input, in bits, and what is known of each cell.
    input_widths: Vec<u8>,
    extents: Vec<Extent>,
}

// As the derive would, but by a call of its owners: docs/DECISIONS.md says why.
impl Drop for Builder {
    fn drop(self) {
        let Builder {
            alloc: _,
            ports: _,
            regs: _,
            arrays: _,
            cells: _,
            input_widths: _,
            extents: _,
        } = self;
    }
}

impl Model for Builder {
    ghost use Rattle.pdl_net.specs.Circuit.{Circuit};

    ghost Value = { Circuit };

    ghost use Rattle.pdl_build.specs.Parts.{circuit_of_parts, IsBuilt};

    ghost view = { circuit_of_parts };

    ghost invariant = { IsBuilt };
}

impl Builder {
    /// A builder with nothing in it; what is added takes its memory from `alloc`.
    pub fn new(alloc: Global) -> Builder
        ensures { result ≡ empty_circuit }
    {
        Builder {
            alloc,
            ports: Vec::new(alloc),
            regs: Vec::new(alloc),
            arrays: Vec::new(alloc),
            cells: DistinctCells::new(alloc),
            input_widths: Vec::new(alloc),
            extents: Vec::new(alloc),
        }
    }

    /// How many registers there are.
    pub fn reg_count(&self) -> usize
        ensures { result ≡ length self.now.regs }
    {
        self.regs.len()
    }

    /// How many cells there are.
    pub fn cell_count(&self) -> usize
        ensures { result ≡ length self.now.cells }
    {
        self.cells.len()
    }

    /// The width of a net in bits, 1 to `WIDEST`.
    pub fn width(&self, net: Net) -> u8
        requires { IsThere self.now net }
        ensures value { result ≡ (signal self.now net).width }
        ensures low { 1 ≤ result }
        ensures high { result ≤ widest }
    {
        match net {
            Net::Input(i) => self.input_widths[i],
            Net::Reg(r) => self.regs[r].width,
            Net::Cell(k) => self.extents[k].width,
        }
    }

    /// The width of what a cell gives, in bits.
    fn cell_width(&self, cell: Cell) -> u8
        requires { Fits self.now cell }
        ensures { result ≡ (cell_signal self.now (signal self.now) cell).width }
    {
        match cell {
            Cell::Const { width, .. } => width,
            Cell::Not(a) => self.width(a),
            Cell::Bin(op, a, _) => bin_width(op, self.width(a)),
            Cell::Mux(_, a, _) => self.width(a),
            Cell::Slice { high, low, .. } => high - low + 1,
            Cell::Cat(a, b) => self.width(a) + self.width(b),
            Cell::Rep { count, a } => count * self.width(a),
            Cell::Read { array, .. } => self.arrays[array].width,
        }
    }

    /// One more input, of 1 to `WIDEST` bits.
    pub fn input(&mut self, name: &Name, width: u8) -> Result<Net, NoMemory>
        requires low { 1 ≤ width }
        requires high { width ≤ widest }
        ensures exact { OnOk result (self.new ≡ with_port self.old (input_port name.now width)) }
        ensures place { IfOk result (λ x. x ≡ Net.Input (length (inputs_of self.old))) }
        ensures means { IfOk result (λ x.
            Means self.new x (input_signal width (length (inputs_of self.old)))) }
        ensures extends { OnOk result (ExtendsPorts self.old self.new
            (input_port name.now width ∷ [])) }
        ensures err { OnErr result (self.new ≡ self.old) }
    {
        let at = self.input_widths.len();
        self.input_widths.push(width)?;
        match push_port(&mut self.ports, name, width, Dir::In) {
            Ok(()) => Ok(Net::Input(at)),
            Err(e) => {
                self.input_widths.pop();
                Err(e)
            }
        }
    }

    /// One more output, which shows a net; its number counts the outputs from 0.
    pub fn output(&mut self, name: &Name, net: Net) -> Result<usize, NoMemory>
        requires { IsThere self.old net }
        ensures exact { OnOk result (self.new
            ≡ with_port self.old (output_port self.old name.now net)) }
        ensures place { IfOk result (λ k. k ≡ length (outputs_of self.old)) }
        ensures extends { OnOk result (ExtendsPorts self.old self.new
            (output_port self.old name.now net ∷ [])) }
        ensures err { OnErr result (self.new ≡ self.old) }
    {
        let at = self.ports.len() - self.input_widths.len();
        let width = self.width(net);
        push_port(&mut self.ports, name, width, Dir::Out(net))?;
        Ok(at)
    }

    /// One more register, of 1 to `WIDEST` bits; it keeps its value until `next` says otherwise.
    pub fn reg(&mut self, width: u8, reset: Word) -> Result<usize, NoMemory>
        requires low { 1 ≤ width }
        requires high { width ≤ widest }
        requires fits { reset < 2 ^ width }
        ensures exact { OnOk result (self.new ≡ with_reg self.old width reset) }
        ensures place { IfOk result (λ r. r ≡ length self.old.regs) }
        ensures has { IfOk result (λ r. IsNewReg self.new r width reset) }
        ensures extends { Extends self.old self.new }
        ensures err { OnErr result (self.new ≡ self.old) }
    {
        let at = self.regs.len();
        let next = Net::Reg(at);
        self.regs.push(Reg { width, reset, next })?;
        Ok(at)
    }

    /// Sets what a register takes next.
    pub fn next(&mut self, reg: usize, net: Net)
        requires has { HasReg self.old reg }
        requires net { HasWidth self.old net (reg_width self.old reg) }
        ensures exact { self.new ≡ with_next self.old reg net }
        ensures set { next_signal self.new reg ≡ signal self.old net }
        ensures extends { ExtendsBut (one_reg reg) self.old self.new }
    {
        self.regs[reg].next = net;
    }

    /// One more array, of `depth` words of 1 to `WIDEST` bits; the depth is a power of two from 2 to 131,072.
    pub fn array(&mut self, name: &Name, width: u8, depth: u32) -> Result<usize, NoMemory>
        requires low { 1 ≤ width }
        requires high { width ≤ widest }
        requires depth { IsDepth depth }
        ensures exact { OnOk result (self.new ≡ with_array self.old name.now width depth) }
        ensures place { IfOk result (λ m. m ≡ length self.old.arrays) }
        ensures has { IfOk result (λ m. IsNewArray self.new m width depth) }
        ensures extends { OnOk result (ExtendsArrays self.old self.new
            (new_shape name.now width depth ∷ [])) }
        ensures err { OnErr result (self.new ≡ self.old) }
    {
        let at = self.arrays.len();
        let name = name.clone()?;
        let writes = Seq::new(self.alloc);
        self.arrays.push(Array {
            name,
            width,
            depth,
            writes,
        })?;
        Ok(at)
    }

    /// One more write port of an array, later than each that it has; its number counts them from 0.
    pub fn write(
        &mut self,
        array: usize,
        enable: Net,
        addr: Net,
        value: Net,
    ) -> Result<usize, NoMemory>
        requires has { HasArray self.old array }
        requires enable { HasWidth self.old enable 1 }
        requires addr_there { IsThere self.old addr }
        requires addr_reach { 2 ^ (signal self.old addr).width ≡ array_depth self.old array }
        requires value { HasWidth self.old value (array_width self.old array) }
        ensures exact { OnOk result (self.new
            ≡ with_write self.old array (write_port enable addr value)) }
        ensures place { IfOk result (λ k. k ≡ length (array_at self.old array).writes) }
        ensures writes { OnOk result (write_signals self.new array
            ≡ write_signals self.old array ++ write_signal self.old
            (write_port enable addr value) ∷ []) }
        ensures extends { ExtendsBut (one_array array) self.old self.new }
        ensures err { OnErr result (self.new ≡ self.old) }
    {
        let written = &mut self.arrays[array];
        let at = written.writes.len();
        written.writes.push(WritePort {
            enable,
            addr,
            value,
        })?;
        Ok(at)
    }

    /// The whole netlist, with its name and the memories of its pipe.
    pub fn finish(self, name: Name, mems: Seq<MemInfo>) -> Netlist
        ensures value { circuit_of result ≡ self }
        ensures name { result.name ≡ name }
        ensures mems { result.mems ≡ mems }
        ensures well { IsWell (circuit_of result) }
        ensures different { AllPairs (λ a b. a ≢ b) result.cells }
        ensures folded { AreFolded result.cells }
    {
        let Builder {
            alloc: _,
            ports,
            regs,
            arrays,
            cells,
            input_widths: _,
            extents: _,
        } = self;
        Netlist {
            name,
            ports: Seq::from_vec(ports),
            regs: Seq::from_vec(regs),
            arrays: Seq::from_vec(arrays),
            cells: cells.into_seq(),
            mems,
        }
    }
}

/// One more port.
fn push_port(ports: &mut Vec<Port>, name: &Name, width: u8, dir: Dir) -> Result<(), NoMemory>
    ensures ok { OnOk result (ports.new.items
        ≡ ports.old.items ++ record { name = name.now; width = width; dir = dir } ∷ []) }
    ensures err { OnErr result (ports.new.items ≡ ports.old.items) }
{
    let name = name.clone()?;
    ports.push(Port { name, width, dir })?;
    Ok(())
}

/// The width of what an operator gives, of operands of `width` bits.
fn bin_width(op: BinOp, width: u8) -> u8
    ensures { result ≡ op_width op width }
{
    match op {
        BinOp::Eq | BinOp::Ne | BinOp::Lt => 1,
        _ => width,
    }
}
