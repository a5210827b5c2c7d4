// Ports, registers, arrays and cells.
ghost use Rattle.std.specs.Prelude.{◌≡◌, ◌++◌, ◌≤◌, ◌<◌, OnOk, flat_map, length};
ghost use Rattle.pdl_net.specs.Circuit.{circuit_of};
ghost use Rattle.pdl_net.specs.Well.{IsWell};
ghost use Rattle.pdl_vlog.specs.Layout as spec;
ghost use Rattle.pdl_net.specs.Width.{HasWidths};

use crate::cells::{range, term};
use crate::text::Text;
use pdl_kit::{Name, NoMemory};
use pdl_net::{Array, Cell, Dir, Netlist, Port, Reg};

fn port(text: &mut Text, port: &Port) -> Result<(), NoMemory>
    requires { 1 ≤ port.now.width }
    ensures { OnOk result (text.new ≡ text.old ++ spec.port port.now) }
{
    match port.dir {
        Dir::In => text.push(b", input wire ")?,
        Dir::Out(_) => text.push(b", output wire ")?,
    }
    range(text, port.width)?;
    text.push(b" ")?;
    text.push(port.name.as_bytes())
}

// The ports of each netlist.
#[tactic(auto, unfolding(crate::specs::Layout::clock_and_reset))]
fn clock_and_reset(text: &mut Text) -> Result<(), NoMemory>
    ensures { OnOk result (text.new ≡ text.old ++ spec.clock_and_reset) }
{
    text.push(b"(input wire clk, input wire [0:0] rst")
}

// The ports after the reset.
fn ports(text: &mut Text, ports: &[Port]) -> Result<(), NoMemory>
    requires { spec.HavePortWidths ports.now }
    ensures { OnOk result (text.new ≡ text.old ++ flat_map spec.port ports.now) }
{
    for one in ports {
        port(text, one)?;
    }
    Ok(())
}

// What stands before the name of a module.
#[tactic(auto, unfolding(crate::specs::Layout::module_word))]
fn module_word(text: &mut Text) -> Result<(), NoMemory>
    ensures { OnOk result (text.new ≡ text.old ++ spec.module_word) }
{
    text.push(b"module pdl_")
}

// The module, the clock and the reset.
fn opening(text: &mut Text, name: &Name) -> Result<(), NoMemory>
    ensures { OnOk result (text.new ≡ text.old ++ spec.opening name.now) }
{
    module_word(text)?;
    text.push(name.as_bytes())?;
    clock_and_reset(text)
}

/// The first line.
#[tactic(auto, unfolding(crate::specs::Layout::head))]
pub fn head(text: &mut Text, name: &Name, list: &[Port]) -> Result<(), NoMemory>
    requires { spec.HavePortWidths list.now }
    ensures { OnOk result (text.new ≡ text.old ++ spec.head name.now list.now) }
{
    opening(text, name)?;
    ports(text, list)?;
    text.push(b");\n")
}

fn reg(text: &mut Text, r: usize, reg: Reg) -> Result<(), NoMemory>
    requires { 1 ≤ reg.width }
    ensures { OnOk result (text.new ≡ text.old ++ spec.reg r reg) }
{
    text.push(b"reg ")?;
    range(text, reg.width)?;
    text.push(b" r")?;
    text.push_decimal(r as u64)?;
    text.push(b";\n")
}

/// The declarations of registers.
pub fn regs(text: &mut Text, regs: &[Reg]) -> Result<(), NoMemory>
    requires { spec.HaveRegWidths regs.now }
    ensures { OnOk result (text.new ≡ text.old ++ spec.regs 0 regs.now) }
{
    for r in 0..regs.len() {
        reg(text, r, regs[r])?;
    }
    Ok(())
}

fn array_head(text: &mut Text, array: &Array) -> Result<(), NoMemory>
    requires { 1 ≤ array.now.width }
    ensures { OnOk result (text.new ≡ text.old ++ spec.array_head array.now) }
{
    text.push(b"reg ")?;
    range(text, array.width)?;
    text.push(b" a_")?;
    text.push(array.name.as_bytes())
}

fn array(text: &mut Text, array: &Array) -> Result<(), NoMemory>
    requires width { 1 ≤ array.now.width }
    requires depth { 1 ≤ array.now.depth }
    ensures { OnOk result (text.new ≡ text.old ++ spec.array_line array.now) }
{
    array_head(text, array)?;
    text.push(b" [0:")?;
    text.push_decimal(u64::from(array.depth - 1))?;
    text.push(b"];\n")
}

/// The declarations of arrays.
pub fn arrays(text: &mut Text, arrays: &[Array]) -> Result<(), NoMemory>
    requires { spec.HaveArrayWidths arrays.now }
    ensures { OnOk result (text.new ≡ text.old ++ flat_map spec.array_line arrays.now) }
{
    for one in arrays {
        array(text, one)?;
    }
    Ok(())
}

fn wire(text: &mut Text, k: usize, width: u8) -> Result<(), NoMemory>
    requires { 1 ≤ width }
    ensures { OnOk result (text.new ≡ text.old ++ spec.wire k width) }
{
    text.push(b"wire ")?;
    range(text, width)?;
    text.push(b" n")?;
    text.push_decimal(k as u64)
}

fn assign(
    text: &mut Text,
    inputs: &[Name],
    arrays: &[Array],
    k: usize,
    cell: Cell,
) -> Result<(), NoMemory>
    requires { spec.IsShort cell }
    ensures { OnOk result (text.new ≡ text.old ++ spec.assign inputs.now arrays.now k cell) }
{
    text.push(b";\nassign n")?;
    text.push_decimal(k as u64)?;
    text.push(b" = ")?;
    term(text, inputs, arrays, cell)?;
    text.push(b";\n")
}

fn cell(
    text: &mut Text,
    inputs: &[Name],
    arrays: &[Array],
    k: usize,
    width: u8,
    cell: Cell,
) -> Result<(), NoMemory>
    requires width { 1 ≤ width }
    requires short { spec.IsShort cell }
    ensures { OnOk result (text.new ≡ text.old ++ spec.cell inputs.now arrays.now k width cell) }
{
    wire(text, k, width)?;
    assign(text, inputs, arrays, k, cell)
}

/// The cells.
pub fn cells(text: &mut Text, inputs: &[Name], n: &Netlist, widths: &[u8]) -> Result<(), NoMemory>
    requires well { IsWell (circuit_of n.now) }
    requires widths { HasWidths (circuit_of n.now) widths.now }
    requires count { length widths.now ≡ length n.now.cells }
    ensures { OnOk result (text.new
        ≡ text.old ++ spec.cells inputs.now n.now.arrays (spec.cell_width n.now) 0 n.now.cells) }
{
    for k in 0..n.cells.len() {
        cell(
            text,
            inputs,
            n.arrays.as_slice(),
            k,
            widths[k],
            n.cells.as_slice()[k],
        )?;
    }
    Ok(())
}
