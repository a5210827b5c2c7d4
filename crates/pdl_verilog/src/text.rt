// The text of a netlist, and that it reads as the netlist.
ghost use Rattle.std.specs.Prelude.{◌≡◌, IfOk};
ghost use Rattle.pdl_net.specs.declared.Netlist.{Netlist as Netlist'};
ghost use Rattle.pdl_net.specs.Pipe.{IsWellFormed};
ghost use Rattle.pdl_vlog.specs.Layout.{verilog};
ghost use Rattle.pdl_vread.specs.Reads.{Reads};
ghost use Rattle.pdl_verilog.specs.Names.{HasNames, IsCounted};

use pdl_kit::NoMemory;
use pdl_net::Netlist;
use pdl_vlog::write_verilog;
use std::alloc::Global;

/// The text of each well formed netlist whose names are names of PDL, and whose registers and cells are fewer than 2^64 each, reads as that netlist. It does nothing: its clause is a theorem on every such netlist.
#[tactic(auto, using(crate::proofs::RoundTrip::round_trip))]
pub fn reads_back()
    ensures { (n : Netlist') → IsWellFormed n → HasNames n → IsCounted n → Reads (verilog n) n }
{}

// A netlist that is there has fewer than 2^64 registers and cells, since their number is a `usize`.
fn counts(net: &Netlist)
    ensures { IsCounted net.now }
{
    prove!(net.regs.len() <= usize::MAX);
    prove!(net.cells.len() <= usize::MAX);
}

/// The text in the Verilog subset of a netlist that breaks none of V2 to V5 and has names of PDL. It reads as this netlist, and takes time and memory linear in its length.
pub fn verilog_text(alloc: Global, net: &Netlist) -> Result<Vec<u8>, NoMemory>
    requires well { IsWellFormed net.now }
    requires names { HasNames net.now }
    ensures text { IfOk result (λ t. t.items ≡ verilog net.now) }
    ensures reads { IfOk result (λ t. Reads t.items net.now) }
{
    reads_back();
    counts(net);
    write_verilog(alloc, net)
}
