// The parts of a netlist without what isn't kept.
ghost use Rattle.std.specs.Prelude.{◌≡◌, length, map, All, IfOk};
ghost use Rattle.pdl_word.specs.Each.{Each};
ghost use Rattle.pdl_net.specs.Circuit.{circuit_of};
ghost use Rattle.pdl_net.specs.Well.{IsWell};
ghost use Rattle.pdl_net_needed.specs.Needed.{reads_of, shown_by, read_by, written_from, KeepsNeeded};
ghost use Rattle.pdl_net_needed.specs.Pruned.{kept_of, moved_port, moved_reg, moved_cell, moved_write, moved_array, pruned};
ghost use Rattle.pdl_net_needed.specs.Marks.{IsWithin};

use crate::kept::Kept;
use pdl_kit::{MemInfo, NoMemory, Seq};
use pdl_net::{Array, Cell, Netlist, Port, Reg, WritePort};
use std::alloc::Global;

/// A netlist with the kept registers and cells alone.
pub fn pruned_netlist(alloc: Global, kept: &Kept, n: &Netlist) -> Result<Netlist, NoMemory>
    requires well { IsWell (circuit_of n.now) }
    requires kept { KeepsNeeded (circuit_of n.now) kept.now }
    ensures { IfOk result (λ p. p ≡ pruned kept.now n.now) }
{
    let name = n.name.clone()?;
    let ports = ports(alloc, kept, n.ports.as_slice())?;
    let regs = regs(alloc, kept, n.regs.as_slice())?;
    let arrays = arrays(alloc, kept, n.arrays.as_slice())?;
    let cells = cells(alloc, kept, n.cells.as_slice())?;
    let mems = n.mems.clone()?;
    Ok(Netlist {
        name,
        ports,
        regs,
        arrays,
        cells,
        mems,
    })
}

fn ports(alloc: Global, kept: &Kept, ports: &[Port]) -> Result<Seq<Port>, NoMemory>
    requires { All (λ p. Each (IsWithin kept.now) (shown_by p.dir)) ports.now }
    ensures { IfOk result (λ s. s ≡ map (moved_port kept.now) ports.now) }
{
    let mut moved = Seq::new(alloc);
    for i in 0..ports.len() {
        let port = &ports[i];
        moved.push(Port {
            name: port.name.clone()?,
            width: port.width,
            dir: kept.dir(port.dir),
        })?;
    }
    Ok(moved)
}

#[tactic(auto, using(crate::proofs::Counts::kept_parts))]
fn regs(alloc: Global, kept: &Kept, regs: &[Reg]) -> Result<Seq<Reg>, NoMemory>
    requires count { length kept.now.regs ≡ length regs.now }
    requires within { All (λ r. IsWithin kept.now r.next) regs.now }
    ensures { IfOk result (λ s. s
        ≡ map (moved_reg kept.now) (kept_of kept.now.regs regs.now)) }
{
    let mut moved = Seq::new(alloc);
    for i in 0..regs.len() {
        if kept.has_reg(i) {
            moved.push(kept.reg(regs[i]))?;
        }
    }
    Ok(moved)
}

#[tactic(auto, using(crate::proofs::Counts::kept_parts))]
fn cells(alloc: Global, kept: &Kept, cells: &[Cell]) -> Result<Seq<Cell>, NoMemory>
    requires count { length kept.now.cells ≡ length cells.now }
    requires within { All (λ g. Each (IsWithin kept.now) (reads_of g)) cells.now }
    ensures { IfOk result (λ s. s
        ≡ map (moved_cell kept.now) (kept_of kept.now.cells cells.now)) }
{
    let mut moved = Seq::new(alloc);
    for i in 0..cells.len() {
        if kept.has_cell(i) {
            moved.push(kept.cell(cells[i]))?;
        }
    }
    Ok(moved)
}

fn writes(alloc: Global, kept: &Kept, ports: &[WritePort]) -> Result<Seq<WritePort>, NoMemory>
    requires { All (λ p. Each (IsWithin kept.now) (read_by p)) ports.now }
    ensures { IfOk result (λ s. s ≡ map (moved_write kept.now) ports.now) }
{
    let mut moved = Seq::new(alloc);
    for i in 0..ports.len() {
        moved.push(kept.write(ports[i]))?;
    }
    Ok(moved)
}

fn array(alloc: Global, kept: &Kept, array: &Array) -> Result<Array, NoMemory>
    requires { All (λ p. Each (IsWithin kept.now) (read_by p)) array.now.writes }
    ensures { IfOk result (λ a. a ≡ moved_array kept.now array.now) }
{
    let name = array.name.clone()?;
    let writes = writes(alloc, kept, array.writes.as_slice())?;
    Ok(Array {
        name,
        width: array.width,
        depth: array.depth,
        writes,
    })
}

fn arrays(alloc: Global, kept: &Kept, arrays: &[Array]) -> Result<Seq<Array>, NoMemory>
    requires { All (λ a. All (λ p. Each (IsWithin kept.now) (read_by p)) a.writes) arrays.now }
    ensures { IfOk result (λ s. s ≡ map (moved_array kept.now) arrays.now) }
{
    let mut moved = Seq::new(alloc);
    for i in 0..arrays.len() {
        moved.push(array(alloc, kept, &arrays[i])?)?;
    }
    Ok(moved)
}
