//! Where the registers of an order stand in a circuit.
ghost use Rattle.std.specs.Prelude.{◌≡◌, ◌<◌, length};
ghost use Rattle.pdl_order.specs.Words.{layout_of};

use crate::OrderRegs;

/// The two registers of an order.
#[derive(Clone, Copy)]
pub struct OrderLayout {
    /// The first of them.
    pub from: usize,
    /// How many threads may be inside, which is the width of each in bits.
    pub stages: u8,
}

impl OrderLayout {
    /// The layout of an order that has been made.
    pub fn of(r: &OrderRegs) -> OrderLayout
        requires { 0 < length r.now.regs }
        ensures { result ≡ layout_of r.now }
    {
        OrderLayout {
            from: r.regs.as_slice()[0],
            stages: r.stages,
        }
    }
}
