// The width of a net.
ghost use Rattle.std.specs.Prelude.{◌≡◌, ℕ, ◌+◌, ◌<◌, ◌≤◌, length, slice_index};
ghost use Rattle.pdl_net.specs.Circuit.{circuit_of, inputs_of, array_at};
ghost use Rattle.pdl_net.specs.Meaning.{signal, cell_signal, IsThere, IsThereAt};
ghost use Rattle.pdl_net.specs.Well.{CellsWell, FitsIn};
ghost use Rattle.pdl_net.specs.Width.{Widens, place};
ghost use Rattle.pdl_word.specs.Words.{widest};

use crate::{BinOp, Cell, Dir, Net, Netlist};

/// How a net's width comes from those of earlier nets.
#[derive(Clone, Copy)]
enum Width {
    Bits(u8),
    Same(Net),
    Sum(Net, Net),
    Times(u8, Net),
}

impl Netlist {
    /// The width of a net in bits.
    pub fn width(&self, net: Net) -> u8
        requires cells { CellsWell (circuit_of self.now) }
        requires there { IsThere (circuit_of self.now) net }
        ensures { result ≡ (signal (circuit_of self.now) net).width }
    {
        // Long chains of cells of one width are walked by the loop; each call of itself at least halves the width or leaves a bit out.
        let mut at = net;
        loop {
            match self.check_net(at) {
                Width::Bits(bits) => return bits,
                Width::Same(a) => at = a,
                Width::Sum(a, b) => return self.width(a) + self.width(b),
                Width::Times(count, a) => return count * self.width(a),
            }
        }
    }

    #[tactic(auto, using(crate::proofs::Widths::nets, crate::proofs::Widths::width_is))]
    fn check_net(&self, net: Net) -> Width
        requires cells { CellsWell (circuit_of self.now) }
        requires there { IsThere (circuit_of self.now) net }
        ensures { Widens (circuit_of self.now) (place net)
            (signal (circuit_of self.now) net).width result }
    {
        match net {
            Net::Input(i) => Width::Bits(self.input_width(i)),
            Net::Reg(r) => Width::Bits(self.reg_width(r)),
            Net::Cell(k) => self.cell_widens(k, self.cells.as_slice()[k]),
        }
    }

    #[tactic(auto, using(crate::proofs::Widths::before))]
    fn cell_widens(&self, k: usize, cell: Cell) -> Width
        requires within { k ≤ length self.now.cells }
        requires fits { FitsIn (circuit_of self.now) (IsThereAt (circuit_of self.now) k)
            (signal (circuit_of self.now)) cell }
        requires width { (cell_signal (circuit_of self.now)
            (signal (circuit_of self.now)) cell).width ≤ widest }
        ensures { Widens (circuit_of self.now) (k + 1)
            (cell_signal (circuit_of self.now) (signal (circuit_of self.now)) cell).width result }
    {
        prove!(k <= self.cells.len());
        match cell {
            Cell::Const { width, value: _ } => Width::Bits(width),
            Cell::Not(a) => Width::Same(a),
            Cell::Bin(BinOp::Eq | BinOp::Ne | BinOp::Lt, _, _) => Width::Bits(1),
            Cell::Bin(_, a, _) => Width::Same(a),
            Cell::Mux(_, a, _) => Width::Same(a),
            Cell::Slice { a: _, high, low } => Width::Bits(high - low + 1),
            Cell::Cat(a, b) => Width::Sum(a, b),
            Cell::Rep { count: 1, a } => Width::Same(a),
            Cell::Rep { count, a } => Width::Times(count, a),
            Cell::Read { array, addr: _ } => Width::Bits(self.array_width(array)),
        }
    }

    fn input_width(&self, i: usize) -> u8
        requires { i < length (inputs_of (circuit_of self.now)) }
        ensures { result ≡ slice_index (inputs_of (circuit_of self.now)) i }
    {
        let mut left = i;
        for port in self.ports.as_slice() {
            if let Dir::In = port.dir {
                if left == 0 {
                    return port.width;
                }
                left -= 1;
            }
        }
        0
    }

    #[tactic(auto, using(crate::proofs::Widths::nets))]
    fn reg_width(&self, r: usize) -> u8
        requires { r < length self.now.regs }
        ensures { result ≡ (signal (circuit_of self.now) (Net.Reg r)).width }
    {
        let reg = &self.regs.as_slice()[r];
        reg.width
    }

    fn array_width(&self, m: usize) -> u8
        requires { m < length self.now.arrays }
        ensures { result ≡ (array_at (circuit_of self.now) m).width }
    {
        let array = &self.arrays.as_slice()[m];
        array.width
    }
}
