//! The writer of netlists.
ghost use Rattle.std.specs.Prelude.{◌≡◌, ◌++◌, IfOk, OnOk, length};
ghost use Rattle.pdl_net.specs.Circuit.{circuit_of};
ghost use Rattle.pdl_net.specs.Well.{IsWell};
ghost use Rattle.pdl_vlog.specs.Layout as spec;
ghost use Rattle.pdl_net.specs.Width.{HasWidths};

use crate::cells::input_names;
use crate::declarations::{arrays, cells, head, regs};
use crate::drives::{array_blocks, blocks, outputs};
use crate::text::Text;
use pdl_kit::{Name, NoMemory};
use pdl_net::{Netlist, all_widths};
use std::alloc::Global;

// The first line, and all that is declared.
fn declared(text: &mut Text, inputs: &[Name], n: &Netlist, widths: &[u8]) -> Result<(), NoMemory>
    requires well { IsWell (circuit_of n.now) }
    requires widths { HasWidths (circuit_of n.now) widths.now }
    requires count { length widths.now ≡ length n.now.cells }
    ensures { OnOk result (text.new ≡ text.old ++ spec.declared inputs.now n.now) }
{
    head(text, &n.name, n.ports.as_slice())?;
    regs(text, n.regs.as_slice())?;
    arrays(text, n.arrays.as_slice())?;
    cells(text, inputs, n, widths)
}

// What drives outputs, registers and arrays, and the last line.
fn driven(text: &mut Text, inputs: &[Name], n: &Netlist) -> Result<(), NoMemory>
    requires { IsWell (circuit_of n.now) }
    ensures { OnOk result (text.new ≡ text.old ++ spec.driven inputs.now n.now) }
{
    outputs(text, inputs, n.ports.as_slice())?;
    blocks(text, inputs, n.regs.as_slice())?;
    array_blocks(text, inputs, n.arrays.as_slice())?;
    text.push(b"endmodule\n")
}

/// The text of a netlist, in the order of its lists: a line for each declaration and each `assign`, and one for each block of a register; a block of an array has a line for each write.
#[tactic(auto, unfolding(crate::specs::Layout::verilog))]
pub fn write_verilog(alloc: Global, n: &Netlist) -> Result<Vec<u8>, NoMemory>
    requires { IsWell (circuit_of n.now) }
    ensures { IfOk result (λ text. text.items ≡ spec.verilog n.now) }
{
    let inputs = input_names(alloc, n.ports.as_slice())?;
    let widths = all_widths(alloc, n)?;
    let mut text = Text::new(alloc);
    declared(&mut text, inputs.as_slice(), n, widths.as_slice())?;
    driven(&mut text, inputs.as_slice(), n)?;
    Ok(text.into_bytes())
}
