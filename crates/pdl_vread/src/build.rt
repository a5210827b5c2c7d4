// The netlist of a file that breaks none of V1 to V4.
ghost use Rattle.std.specs.Prelude.{◌≡◌, ◌≤◌, ◌+◌, ◌<◌, ◌^◌, IfOk, OnOk, None, All, [], drop, length, map};
ghost use Rattle.pdl_net.specs.declared.Net.TheVariants.{Input};
ghost use Rattle.pdl_vread_rules.specs.Once.{owner};
ghost use Rattle.pdl_vread_rules.specs.Widths.{bits as width_of, width_line};
ghost use Rattle.pdl_vread.specs.Built as spec;

use pdl_kit::{Name, NoMemory, Seq};
use pdl_net::{Array, Dir, Net, Netlist, Port, Reg, WritePort};
use pdl_vread_nets::{ArrayWrite, OutputDrive, RegDrive, Wiring};
use pdl_vread_rules::bits;
use pdl_vread_text::{ArrayDecl, File, PortDecl, RegDecl};
use std::alloc::Global;

// The net that each port takes, where it is an output.
#[tactic(auto, using(crate::proofs::DrivenNets::driving))]
fn drivers(alloc: Global, ports: usize, drives: &[OutputDrive]) -> Result<Vec<Net>, NoMemory>
    ensures { IfOk result (λ nets. nets.items ≡ spec.drivers ports drives.now) }
{
    let mut nets = Vec::from_elem(alloc, Net::Input(0), ports)?;
    for drive in drives {
        if drive.port < ports {
            nets[drive.port] = drive.net;
        }
    }
    Ok(nets)
}

// A port, and the net that drives it where it is an output.
fn port(decl: &PortDecl, net: Net) -> Result<Port, NoMemory>
    ensures { IfOk result (λ p. p ≡ spec.port decl.now net) }
{
    Ok(Port {
        name: decl.name.clone()?,
        width: bits(decl.high),
        dir: if decl.input { Dir::In } else { Dir::Out(net) },
    })
}

// Adds the ports, where none is there yet.
fn add_ports(
    alloc: Global,
    ports: &mut Seq<Port>,
    decls: &[PortDecl],
    drives: &[OutputDrive],
) -> Result<(), NoMemory>
    requires { ports.old ≡ [] }
    ensures { OnOk result (ports.new ≡ spec.ports drives.now 0 decls.now) }
{
    let nets = drivers(alloc, decls.len(), drives)?;
    for (decl, net) in decls.iter().zip(&nets) {
        ports.push(port(decl, *net)?)?;
    }
    Ok(())
}

fn undriven(alloc: Global, decls: &[RegDecl]) -> Result<Vec<Reg>, NoMemory>
    ensures { IfOk result (λ regs. regs.items ≡ map spec.undriven decls.now) }
{
    let mut regs = Vec::new(alloc);
    for decl in decls {
        regs.push(Reg {
            width: bits(decl.high),
            reset: 0,
            next: Net::Input(0),
        })?;
    }
    Ok(regs)
}

// Each register with its reset value and its next value.
#[tactic(auto, using(crate::proofs::DrivenNets::defining))]
fn regs(alloc: Global, decls: &[RegDecl], drives: &[RegDrive]) -> Result<Seq<Reg>, NoMemory>
    ensures { IfOk result (λ regs. regs ≡ spec.regs drives.now 0 decls.now) }
{
    let mut regs = undriven(alloc, decls)?;
    for drive in drives {
        if drive.reg < decls.len() {
            regs[drive.reg] = Reg {
                width: regs[drive.reg].width,
                reset: drive.reset,
                next: drive.net,
            };
        }
    }
    Ok(Seq::from_vec(regs))
}

fn write_ports(alloc: Global, writes: &[ArrayWrite]) -> Result<Seq<WritePort>, NoMemory>
    ensures { IfOk result (λ ports. ports ≡ map (λ w. w.port) writes.now) }
{
    let mut ports = Seq::new(alloc);
    for write in writes {
        ports.push(write.port)?;
    }
    Ok(ports)
}

// The write ports of an array: those of the block whose first write names it.
fn writes_of(
    alloc: Global,
    array: usize,
    blocks: &[Seq<ArrayWrite>],
) -> Result<Seq<WritePort>, NoMemory>
    ensures { IfOk result (λ ports. ports ≡ spec.writes array blocks.now) }
{
    for block in blocks {
        if owner_of(block.as_slice()) == array {
            return write_ports(alloc, block.as_slice());
        }
    }
    Ok(Seq::new(alloc))
}

// The array that a block's first write names.
fn owner_of(writes: &[ArrayWrite]) -> usize
    ensures { result ≡ owner writes.now }
{
    match writes {
        [write, ..] => write.array,
        [] => 0,
    }
}

// The name of a memory: that of its array without `a_`.
fn memory_name(alloc: Global, name: &Name) -> Result<Name, NoMemory>
    ensures { IfOk result (λ n. n ≡ drop 2 name.now) }
{
    match name.as_bytes() {
        [_, _, name @ ..] => Name::copy_of(alloc, name),
        _ => Name::copy_of(alloc, b""),
    }
}

// An array, the m-th of its file.
fn array(
    alloc: Global,
    m: usize,
    decl: &ArrayDecl,
    blocks: &[Seq<ArrayWrite>],
) -> Result<Array, NoMemory>
    requires { decl.now.last + 1 < 2 ^ 32 }
    ensures { IfOk result (λ a. a ≡ record {
      name = drop 2 decl.now.name;
      width = width_of decl.now.high;
      depth = decl.now.last + 1;
      writes = spec.writes m blocks.now;
    }) }
{
    let name = memory_name(alloc, &decl.name)?;
    Ok(Array {
        name,
        width: bits(decl.high),
        depth: decl.last + 1,
        writes: writes_of(alloc, m, blocks)?,
    })
}

// Adds the arrays, where none is there yet.
fn add_arrays(
    alloc: Global,
    arrays: &mut Seq<Array>,
    decls: &[ArrayDecl],
    blocks: &[Seq<ArrayWrite>],
) -> Result<(), NoMemory>
    requires depth { All (λ d. d.last + 1 < 2 ^ 32) decls.now }
    requires empty { arrays.old ≡ [] }
    ensures { OnOk result (arrays.new ≡ spec.arrays blocks.now 0 decls.now) }
{
    for m in 0..decls.len() {
        arrays.push(array(alloc, m, &decls[m], blocks)?)?;
    }
    Ok(())
}

// The ports, registers and arrays of a netlist.
#[derive(Drop)]
struct Parts {
    ports: Seq<Port>,
    regs: Seq<Reg>,
    arrays: Seq<Array>,
}

// Adds the parts that a file declares and its wiring drives, where none is there yet.
#[tactic(auto, using(crate::proofs::Depths::reached))]
fn add_parts(alloc: Global, parts: &mut Parts, file: &File, wiring: &Wiring) -> Result<(), NoMemory>
    requires widths { width_line file.now wiring.now ≡ None }
    requires ports { parts.old.ports ≡ [] }
    requires arrays { parts.old.arrays ≡ [] }
    ensures { OnOk result (parts.new ≡ record {
      ports = spec.ports wiring.now.outputs 0 file.now.ports;
      regs = spec.regs wiring.now.regs 0 file.now.regs;
      arrays = spec.arrays wiring.now.blocks 0 file.now.arrays;
    }) }
{
    parts.regs = regs(alloc, file.regs.as_slice(), wiring.regs.as_slice())?;
    add_ports(
        alloc,
        &mut parts.ports,
        file.ports.as_slice(),
        wiring.outputs.as_slice(),
    )?;
    add_arrays(
        alloc,
        &mut parts.arrays,
        file.arrays.as_slice(),
        wiring.blocks.as_slice(),
    )
}

// The parts that a file declares and its wiring drives.
fn parts_of(alloc: Global, file: &File, wiring: &Wiring) -> Result<Parts, NoMemory>
    requires { width_line file.now wiring.now ≡ None }
    ensures { IfOk result (λ p. p ≡ record {
      ports = spec.ports wiring.now.outputs 0 file.now.ports;
      regs = spec.regs wiring.now.regs 0 file.now.regs;
      arrays = spec.arrays wiring.now.blocks 0 file.now.arrays;
    }) }
{
    let mut parts = Parts {
        ports: Seq::new(alloc),
        regs: Seq::new(alloc),
        arrays: Seq::new(alloc),
    };
    add_parts(alloc, &mut parts, file, wiring)?;
    Ok(parts)
}

// The netlist of the name of a file, the cells of its wiring, and these parts.
fn netlist_with(alloc: Global, file: File, wiring: Wiring, parts: Parts) -> Netlist
    ensures { result ≡ record {
      name = file.name;
      ports = parts.ports;
      regs = parts.regs;
      arrays = parts.arrays;
      cells = wiring.cells;
      mems = [];
    } }
{
    Netlist {
        name: file.into_name(),
        ports: parts.ports,
        regs: parts.regs,
        arrays: parts.arrays,
        cells: wiring.into_cells(),
        mems: Seq::new(alloc),
    }
}

/// The netlist of a file and its wiring, with no memories yet. It takes time linear in these where there are few arrays.
#[tactic(auto, unfolding(crate::specs::Built::built))]
pub fn build(alloc: Global, file: File, wiring: Wiring) -> Result<Netlist, NoMemory>
    requires { width_line file wiring ≡ None }
    ensures { IfOk result (λ n. n ≡ spec.built file wiring) }
{
    match parts_of(alloc, &file, &wiring) {
        Ok(parts) => Ok(netlist_with(alloc, file, wiring, parts)),
        Err(error) => Err(error),
    }
}
