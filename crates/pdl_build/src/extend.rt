// Extensions and signed order, made of cells.
ghost use Rattle.std.specs.Prelude.{◌≡◌, ℕ, ◌≤◌, ◌<◌, ◌^◌, ◌-◌, IfOk};
ghost use Rattle.pdl_net.specs.declared.BinOp.TheVariants as net_op;
ghost use Rattle.pdl_net.specs.Signal.{bin_signal};
ghost use Rattle.pdl_net.specs.Meaning.{IsThere, Means, signal};
ghost use Rattle.pdl_net.specs.Growth.{Extends};
ghost use Rattle.pdl_build.specs.Operators.{zext_signal, sext_signal, raised_signal};
ghost use Rattle.pdl_word.specs.Words.{widest};

use crate::Builder;
use pdl_kit::NoMemory;
use pdl_net::{BinOp, Net};

impl Builder {
    /// A net with zeros above it, `width` bits together.
    #[tactic(auto, unfolding(crate::specs::Operators::zext_signal))]
    pub fn zero_extend(&mut self, a: Net, width: u8) -> Result<Net, NoMemory>
        requires there { IsThere self.old a }
        requires wider { (signal self.old a).width ≤ width }
        requires high { width ≤ widest }
        ensures means { IfOk result (λ x.
            Means self.new x (zext_signal width (signal self.old a))) }
        ensures extends { Extends self.old self.new }
        ensures regs { self.new.regs ≡ self.old.regs }
    {
        let narrow = self.width(a);
        if width == narrow {
            return Ok(a);
        }
        let zeros = self.constant(width - narrow, 0)?;
        self.cat(zeros, a)
    }

    /// A net with copies of its top bit above it, `width` bits together.
    #[tactic(auto, unfolding(crate::specs::Operators::sext_signal))]
    pub fn sign_extend(&mut self, a: Net, width: u8) -> Result<Net, NoMemory>
        requires there { IsThere self.old a }
        requires wider { (signal self.old a).width ≤ width }
        requires high { width ≤ widest }
        ensures means { IfOk result (λ x.
            Means self.new x (sext_signal width (signal self.old a))) }
        ensures extends { Extends self.old self.new }
        ensures regs { self.new.regs ≡ self.old.regs }
    {
        let narrow = self.width(a);
        if width == narrow {
            return Ok(a);
        }
        let top = self.slice(a, narrow - 1, narrow - 1)?;
        let copies = self.rep(width - narrow, top)?;
        self.cat(copies, a)
    }

    /// 1 where `a` is less than `b` in two's complement, else 0.
    #[tactic(auto, using(crate::proofs::Extensions::raised_width))]
    pub fn less_signed(&mut self, a: Net, b: Net) -> Result<Net, NoMemory>
        requires a_there { IsThere self.old a }
        requires b_there { IsThere self.old b }
        requires widths { (signal self.old a).width ≡ (signal self.old b).width }
        ensures means { IfOk result (λ x.
            Means self.new x (bin_signal net_op.Lt (raised_signal (signal self.old a))
            (raised_signal (signal self.old b)))) }
        ensures extends { Extends self.old self.new }
        ensures regs { self.new.regs ≡ self.old.regs }
    {
        let x = self.raise(a)?;
        let y = self.raise(b)?;
        self.bin(BinOp::Lt, x, y)
    }

    // A net and half of its range, which turns the order of two's complement into that of numbers.
    #[tactic(auto, unfolding(crate::specs::Operators::raised_signal))]
    fn raise(&mut self, a: Net) -> Result<Net, NoMemory>
        requires { IsThere self.old a }
        ensures means { IfOk result (λ x. Means self.new x (raised_signal (signal self.old a))) }
        ensures extends { Extends self.old self.new }
        ensures regs { self.new.regs ≡ self.old.regs }
    {
        let width = self.width(a);
        let half = self.constant(width, 1 << (width - 1))?;
        self.bin(BinOp::Add, a, half)
    }
}
