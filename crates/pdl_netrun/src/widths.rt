// Whether a netlist has words of at most 64 bits.
ghost use Rattle.std.specs.Prelude.{◌≡◌, ◌≤◌, All, length, IsTrue};
ghost use Rattle.pdl_netrun.specs.Held.{AreWithin};
ghost use Rattle.pdl_net.specs.Circuit.{circuit_of};
ghost use Rattle.pdl_net.specs.Width.{HasWidths};

use pdl_net::{Array, Netlist, Port, Reg};

/// Whether all inputs, registers, cells and arrays have at most 64 bits; the cells have these widths.
#[tactic(auto, using(crate::proofs::NarrowNets::narrow))]
pub fn is_narrow(n: &Netlist, widths: &[u8]) -> bool
    requires widths { HasWidths (circuit_of n.now) widths.now }
    requires cells { length widths.now ≡ length n.now.cells }
    ensures { IsTrue result → AreWithin 64 (circuit_of n.now) }
{
    are_narrow(widths)
        && have_narrow_ports(n.ports.as_slice())
        && have_narrow_regs(n.regs.as_slice())
        && have_narrow_arrays(n.arrays.as_slice())
}

/// Whether none of these widths is over 64.
fn are_narrow(widths: &[u8]) -> bool
    ensures { IsTrue result → All (λ w. w ≤ 64) widths.now }
{
    for width in widths {
        if *width > 64 {
            return false;
        }
    }
    true
}

/// Whether no port has more than 64 bits.
fn have_narrow_ports(ports: &[Port]) -> bool
    ensures { IsTrue result → All (λ p. p.width ≤ 64) ports.now }
{
    for port in ports {
        if port.width > 64 {
            return false;
        }
    }
    true
}

/// Whether no register has more than 64 bits.
fn have_narrow_regs(regs: &[Reg]) -> bool
    ensures { IsTrue result → All (λ r. r.width ≤ 64) regs.now }
{
    for reg in regs {
        if reg.width > 64 {
            return false;
        }
    }
    true
}

/// Whether no array has more than 64 bits.
fn have_narrow_arrays(arrays: &[Array]) -> bool
    ensures { IsTrue result → All (λ a. a.width ≤ 64) arrays.now }
{
    for array in arrays {
        if array.width > 64 {
            return false;
        }
    }
    true
}
