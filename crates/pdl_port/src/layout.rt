//! Where the registers of a port stand in a circuit.
ghost use Rattle.std.specs.Prelude.{◌≡◌, ◌<◌, length};
ghost use Rattle.pdl_port.specs.Places.{layout_of};

use crate::PortRegs;

/// The registers of a port: whether an orphan is outstanding, then one of each place.
#[derive(Clone, Copy)]
pub struct PortLayout {
    /// The first register.
    pub from: usize,
    /// How many places there are.
    pub places: usize,
}

impl PortLayout {
    /// The layout of a port that has been made.
    pub fn of(r: &PortRegs) -> PortLayout
        requires { 0 < length r.now.regs }
        ensures { result ≡ layout_of r.now }
    {
        PortLayout {
            from: r.regs.as_slice()[0],
            places: r.answers.len(),
        }
    }
}
