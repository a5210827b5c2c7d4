// Nets that never change, and what they decide.
ghost use Rattle.std.specs.Prelude.{◌≡◌, IsTrue, IfOk};
ghost use Rattle.pdl_net.specs.Signal.{mux_signal};
ghost use Rattle.pdl_net.specs.Meaning.{Means, signal};
ghost use Rattle.pdl_net.specs.HasWidth.{HasWidth};
ghost use Rattle.pdl_net.specs.Growth.{Extends};
ghost use Rattle.pdl_pipe_exprs.specs.Conditions.{both, AreBits};

use pdl_build::Builder;
use pdl_kit::NoMemory;
use pdl_net::Net;

/// Nets of 1 bit that are always 1 and always 0.
#[derive(Clone, Copy)]
pub struct Bits {
    pub one: Net,
    pub zero: Net,
}

/// Whether two nets are one.
pub fn are_same(a: Net, b: Net) -> bool
    ensures { IsTrue result → a ≡ b }
{
    match (a, b) {
        (Net::Input(i), Net::Input(j)) => i == j,
        (Net::Reg(i), Net::Reg(j)) => i == j,
        (Net::Cell(i), Net::Cell(j)) => i == j,
        _ => false,
    }
}

impl Bits {
    /// Both nets.
    pub fn new(b: &mut Builder) -> Result<Bits, NoMemory>
        ensures bits { IfOk result (λ x. AreBits b.new x) }
        ensures extends { Extends b.old b.new }
        ensures regs { b.new.regs ≡ b.old.regs }
    {
        let one = b.constant(1, 1)?;
        let zero = b.constant(1, 0)?;
        Ok(Bits { one, zero })
    }

    /// A net that is 1 where both of two nets of 1 bit are.
    pub fn both(self, b: &mut Builder, x: Net, y: Net) -> Result<Net, NoMemory>
        requires bits { AreBits b.old self }
        requires x { HasWidth b.old x 1 }
        requires y { HasWidth b.old y 1 }
        ensures means { IfOk result (λ z. Means b.new z (both (signal b.old x) (signal b.old y))) }
        ensures extends { Extends b.old b.new }
        ensures regs { b.new.regs ≡ b.old.regs }
    {
        b.mux(x, y, self.zero)
    }
}
