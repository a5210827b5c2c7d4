//! V5.
ghost use Rattle.std.specs.Prelude.{◌≡◌, IfOk, Some, List, Ok};
ghost use Rattle.pdl_kit.specs.declared.mem_info.MemInfo.{MemInfo as MemInfo'};
ghost use Rattle.pdl_net.specs.Pipe.{IsPipe};
ghost use Rattle.pdl_vread_pipe.specs.ExpectedPorts.{heads};
ghost use Rattle.pdl_vread_pipe.specs.Tests as spec;
ghost use Rattle.pdl_vread_pipe.specs.ToldParts.{told, with_mems};

use crate::memories::{has_counts, has_mems, mems};
use crate::ports::has_ports;
use crate::shape::Shape;
use pdl_kit::{MemInfo, NoMemory, Seq};
use pdl_net::Netlist;
use std::alloc::Global;

// Whether ports and arrays are those of a pipe of this shape.
fn is_pipe(netlist: &Netlist, shape: &Shape) -> bool
    ensures { result ≡ spec.is_pipe netlist.now shape.now }
{
    let arrays = netlist.arrays.as_slice();
    has_counts(shape, arrays)
        && has_ports(netlist.ports.as_slice(), shape)
        && has_mems(shape, arrays)
}

// The memories, by what the ports tell.
#[tactic(auto, using(crate::proofs::TestAnswers::judging))]
fn judge(alloc: Global, netlist: &Netlist) -> Result<Option<Seq<MemInfo>>, NoMemory>
    ensures { IfOk result (λ ms. ms ≡ spec.judged netlist.now) }
{
    let shape = Shape::of(alloc, netlist.ports.as_slice())?;
    if is_pipe(netlist, &shape) {
        let mems = mems(alloc, &shape, netlist.arrays.as_slice())?;
        Ok(Some(mems))
    } else {
        Ok(None)
    }
}

/// The memories with which a netlist's ports and arrays are those of a pipe, or none where V5 is broken.
///
/// The netlist's own list of memories plays no part.
#[tactic(auto, using(crate::proofs::Pipes::both_ways))]
pub fn pipe_mems(alloc: Global, netlist: &Netlist) -> Result<Option<Seq<MemInfo>>, NoMemory>
    // With the memories that are answered it is a pipe's.
    ensures found { (ms : List MemInfo') →
        result ≡ Ok (Some ms) → IsPipe (with_mems netlist.now ms) }
    // Where it is a pipe's with some memories, these are answered, unless memory runs out.
    ensures only { (ms : List MemInfo') →
        IsPipe (with_mems netlist.now ms) → IfOk result (λ r. r ≡ Some ms) }
{
    judge(alloc, netlist)
}
