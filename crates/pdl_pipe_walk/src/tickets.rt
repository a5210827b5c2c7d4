// Tickets of a thread's reservations.
ghost use Rattle.std.specs.Prelude.{◌≡◌, IfOk};
ghost use Rattle.pdl_net.specs.Meaning.{IsThere, Means, signal};
ghost use Rattle.pdl_net.specs.HasWidth.{HasWidth};
ghost use Rattle.pdl_net.specs.Growth.{Extends};
ghost use Rattle.pdl_law_parts.specs.Ports.{one_more as one_more_signal};

use pdl_build::Builder;
use pdl_kit::NoMemory;
use pdl_net::{BinOp, Net};

/// The ticket after this one where `on`, of 1 bit, is 1, else this one.
pub fn one_more(b: &mut Builder, on: Net, ticket: Net) -> Result<Net, NoMemory>
    requires on { HasWidth b.old on 1 }
    requires ticket { IsThere b.old ticket }
    ensures means { IfOk result (λ x.
        Means b.new x (one_more_signal (signal b.old on) (signal b.old ticket))) }
    ensures extends { Extends b.old b.new }
    ensures regs { b.new.regs ≡ b.old.regs }
{
    let width = b.width(ticket);
    let one = b.constant(width, 1)?;
    let next = b.bin(BinOp::Add, ticket, one)?;
    b.mux(on, next, ticket)
}
