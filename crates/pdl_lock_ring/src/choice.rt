//! One signal among a power of two of them, chosen by the bits of a number.
ghost use Rattle.std.specs.Prelude.{◌≡◌, ℕ, ◌+◌, ◌*◌, ◌-◌, ◌^◌, ◌<◌, ◌≤◌, IfOk};
ghost use Rattle.pdl_net.specs.Meaning.{IsThere, Means, signal};
ghost use Rattle.pdl_net.specs.Growth.{Extends};
ghost use Rattle.pdl_lock_ring.specs.Choices.{selected_signal};
ghost use Rattle.pdl_lock_ring.specs.Registers.{HasRow, register_of};

use pdl_build::Builder;
use pdl_kit::NoMemory;
use pdl_net::Net;

/// Registers of one width whose numbers follow one another.
#[derive(Clone, Copy)]
pub struct Registers {
    pub first: usize,
    /// How many there are.
    pub count: usize,
    /// The bits of each.
    pub width: u8,
}

/// A power of two.
pub fn power(bits: u8) -> usize
    requires { bits ≤ 16 }
    ensures { result ≡ 2 ^ bits }
{
    1 << bits
}

/// Of the `2 ^ bits` registers from the `from`-th on, that of the number in the lowest bits of `number`.
#[tactic(auto, using(crate::proofs::Trees::selecting, crate::proofs::RingGrowth::row_kept))]
pub fn emit_register(
    b: &mut Builder,
    r: Registers,
    number: Net,
    bits: u8,
    from: usize,
) -> Result<Net, NoMemory>
    requires row { HasRow b.old r r.count }
    requires small { r.first + r.count < 2 ^ 64 }
    requires number_there { IsThere b.old number }
    requires number_width { bits ≤ (signal b.old number).width }
    requires bits { bits ≤ 16 }
    requires within { from + 2 ^ bits ≤ r.count }
    ensures means { IfOk result (λ x.
        Means b.new x (selected_signal (register_of r) (signal b.old number) bits from)) }
    ensures extends { Extends b.old b.new }
{
    if bits == 0 {
        return Ok(Net::Reg(r.first + from));
    }
    let top = bits - 1;
    let half = power(top);
    let bit = b.slice(number, top, top)?;
    let low = emit_register(b, r, number, top, from)?;
    let high = emit_register(b, r, number, top, from + half)?;
    let place = b.mux(bit, high, low)?;
    Ok(place)
}
