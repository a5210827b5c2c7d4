// The widths of cells.
ghost use Rattle.std.specs.Prelude.{◌≡◌, ◌≤◌, ◌<◌, length, IfOk};
ghost use Rattle.pdl_net.specs.Circuit.{circuit_of, array_at};
ghost use Rattle.pdl_net.specs.Meaning.{cell_signal, signal, IsThereAt};
ghost use Rattle.pdl_net.specs.Well.{IsWell, FitsIn};
ghost use Rattle.pdl_net.specs.Width.{HasWidths};

use crate::{BinOp, Cell, Net, Netlist};
use pdl_kit::NoMemory;
use std::alloc::Global;

/// The widths of all cells.
#[tactic(auto, using(crate::proofs::WidthLists::widths))]
pub fn all_widths(alloc: Global, n: &Netlist) -> Result<Vec<u8>, NoMemory>
    requires { IsWell (circuit_of n.now) }
    ensures widths { IfOk result (λ ws. HasWidths (circuit_of n.now) ws.items) }
    ensures cells { IfOk result (λ ws. length ws.items ≡ length n.now.cells) }
{
    let mut widths = Vec::new(alloc);
    for k in 0..n.cells.len() {
        let cell = n.cells.as_slice()[k];
        let width = cell_width(n, &widths, cell);
        widths.push(width)?;
    }
    Ok(widths)
}

// A cell's width, over the widths of the cells before it.
#[tactic(auto, using(crate::proofs::WidthLists::array_widths))]
fn cell_width(n: &Netlist, widths: &[u8], cell: Cell) -> u8
    requires well { IsWell (circuit_of n.now) }
    requires widths { HasWidths (circuit_of n.now) widths.now }
    requires earlier { length widths.now ≤ length n.now.cells }
    requires fits { FitsIn (circuit_of n.now) (IsThereAt (circuit_of n.now) (length widths.now))
        (signal (circuit_of n.now)) cell }
    ensures { result ≡ (cell_signal (circuit_of n.now) (signal (circuit_of n.now)) cell).width }
{
    match cell {
        Cell::Const { width, value: _ } => width,
        Cell::Bin(BinOp::Eq | BinOp::Ne | BinOp::Lt, _, _) => 1,
        Cell::Not(a) | Cell::Bin(_, a, _) | Cell::Mux(_, a, _) => width_of(n, widths, a),
        Cell::Slice { a, high, low } => {
            let _width = width_of(n, widths, a);
            high - low + 1
        }
        Cell::Cat(a, b) => width_of(n, widths, a) + width_of(n, widths, b),
        Cell::Rep { count, a } => count * width_of(n, widths, a),
        Cell::Read { array, addr: _ } => array_width(n, array),
    }
}

// An array's width.
#[tactic(auto, using(crate::proofs::WidthLists::array_widths))]
fn array_width(n: &Netlist, array: usize) -> u8
    requires { array < length n.now.arrays }
    ensures { result ≡ (array_at (circuit_of n.now) array).width }
{
    let a = &n.arrays.as_slice()[array];
    a.width
}

/// The width of a net in bits, over the widths of the first cells.
#[tactic(auto, using(crate::proofs::WidthLists::reads))]
pub fn width_of(n: &Netlist, widths: &[u8], net: Net) -> u8
    requires well { IsWell (circuit_of n.now) }
    requires widths { HasWidths (circuit_of n.now) widths.now }
    requires earlier { length widths.now ≤ length n.now.cells }
    requires there { IsThereAt (circuit_of n.now) (length widths.now) net }
    ensures { result ≡ (signal (circuit_of n.now) net).width }
{
    match net {
        Net::Input(_) => n.width(net),
        Net::Reg(r) => {
            let reg = &n.regs.as_slice()[r];
            reg.width
        }
        Net::Cell(k) => widths[k],
    }
}
