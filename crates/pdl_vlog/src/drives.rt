// What drives outputs, registers and arrays.
ghost use Rattle.std.specs.Prelude.{◌≡◌, ◌++◌, ◌≤◌, OnOk, flat_map};
ghost use Rattle.pdl_vlog.specs.Layout as spec;
ghost use Rattle.pdl_word.specs.Words.{widest};

use crate::cells::{constant, net};
use crate::text::Text;
use pdl_kit::{Name, NoMemory};
use pdl_net::{Array, Dir, Port, Reg, WritePort};

fn output(text: &mut Text, inputs: &[Name], port: &Port) -> Result<(), NoMemory>
    ensures { OnOk result (text.new ≡ text.old ++ spec.output inputs.now port.now) }
{
    match port.dir {
        Dir::In => Ok(()),
        Dir::Out(source) => {
            text.push(b"assign ")?;
            text.push(port.name.as_bytes())?;
            text.push(b" = ")?;
            net(text, inputs, source)?;
            text.push(b";\n")
        }
    }
}

/// The `assign`s of the outputs.
pub fn outputs(text: &mut Text, inputs: &[Name], ports: &[Port]) -> Result<(), NoMemory>
    ensures { OnOk result (text.new ≡ text.old ++ flat_map (spec.output inputs.now) ports.now) }
{
    for port in ports {
        output(text, inputs, port)?;
    }
    Ok(())
}

// What stands before a block.
#[tactic(auto, unfolding(crate::specs::Layout::always))]
fn always(text: &mut Text) -> Result<(), NoMemory>
    ensures { OnOk result (text.new ≡ text.old ++ spec.always) }
{
    text.push(b"always @(posedge clk)")
}

fn takes(text: &mut Text, inputs: &[Name], reg: Reg) -> Result<(), NoMemory>
    requires { reg.width ≤ widest }
    ensures { OnOk result (text.new ≡ text.old ++ spec.takes inputs.now reg) }
{
    constant(text, reg.width, reg.reset)?;
    text.push(b" : ")?;
    net(text, inputs, reg.next)?;
    text.push(b";\n")
}

fn block(text: &mut Text, inputs: &[Name], r: usize, reg: Reg) -> Result<(), NoMemory>
    requires { reg.width ≤ widest }
    ensures { OnOk result (text.new ≡ text.old ++ spec.block inputs.now r reg) }
{
    always(text)?;
    text.push(b" r")?;
    text.push_decimal(r as u64)?;
    text.push(b" <= rst ? ")?;
    takes(text, inputs, reg)
}

/// The blocks of the registers.
pub fn blocks(text: &mut Text, inputs: &[Name], regs: &[Reg]) -> Result<(), NoMemory>
    requires { spec.HaveShortWidths regs.now }
    ensures { OnOk result (text.new ≡ text.old ++ spec.blocks inputs.now 0 regs.now) }
{
    for r in 0..regs.len() {
        block(text, inputs, r, regs[r])?;
    }
    Ok(())
}

fn written(text: &mut Text, inputs: &[Name], name: &Name, port: WritePort) -> Result<(), NoMemory>
    ensures { OnOk result (text.new ≡ text.old ++ spec.written inputs.now name.now port) }
{
    text.push(name.as_bytes())?;
    text.push(b"[")?;
    net(text, inputs, port.addr)?;
    text.push(b"] <= ")?;
    net(text, inputs, port.value)?;
    text.push(b";\n")
}

fn write(text: &mut Text, inputs: &[Name], name: &Name, port: WritePort) -> Result<(), NoMemory>
    ensures { OnOk result (text.new ≡ text.old ++ spec.write inputs.now name.now port) }
{
    text.push(b"if (")?;
    net(text, inputs, port.enable)?;
    text.push(b") a_")?;
    written(text, inputs, name, port)
}

fn writes(
    text: &mut Text,
    inputs: &[Name],
    name: &Name,
    ports: &[WritePort],
) -> Result<(), NoMemory>
    ensures { OnOk result (text.new
        ≡ text.old ++ flat_map (spec.write inputs.now name.now) ports.now) }
{
    for port in ports {
        write(text, inputs, name, *port)?;
    }
    Ok(())
}

fn whole_block(
    text: &mut Text,
    inputs: &[Name],
    name: &Name,
    ports: &[WritePort],
) -> Result<(), NoMemory>
    ensures { OnOk result (text.new ≡ text.old ++ spec.whole_block inputs.now name.now ports.now) }
{
    always(text)?;
    text.push(b" begin\n")?;
    writes(text, inputs, name, ports)?;
    text.push(b"end\n")
}

// The block of an array, if it has write ports.
#[tactic(auto, using(crate::proofs::Steps::no_block, crate::proofs::Steps::some_block))]
fn array_block(text: &mut Text, inputs: &[Name], array: &Array) -> Result<(), NoMemory>
    ensures { OnOk result (text.new
        ≡ text.old ++ spec.array_block inputs.now array.now.name array.now.writes) }
{
    if array.writes.len() == 0 {
        Ok(())
    } else {
        whole_block(text, inputs, &array.name, array.writes.as_slice())
    }
}

/// The blocks of the arrays.
pub fn array_blocks(text: &mut Text, inputs: &[Name], arrays: &[Array]) -> Result<(), NoMemory>
    ensures { OnOk result (text.new ≡ text.old ++ flat_map (spec.block_of inputs.now) arrays.now) }
{
    for array in arrays {
        array_block(text, inputs, array)?;
    }
    Ok(())
}
