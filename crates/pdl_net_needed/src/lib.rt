//! Netlists without what nothing needs: of a netlist the same one with its needed registers and cells alone.
//!
//! The layers above may use `needed_part`, or `needed` and `kept_part`, where the new numbers of what is kept are asked for; and the definitions `IsNeeded` and `IsPruned` with the lemmas on them.
#![tactic(auto)]

mod kept;
mod marking;
mod marks;
mod parts;

ghost use Rattle.std.specs.Prelude.{◌≡◌, ◌≢◌, ℕ, List, AllPairs, IfOk};
ghost use Rattle.pdl_net.specs.Circuit.{circuit_of};
ghost use Rattle.pdl_net.specs.Pipe.{IsWellFormed};
ghost use Rattle.pdl_net.specs.Run.{nports};
ghost use Rattle.pdl_net_needed.specs.Needed.{AllNeeded, KeepsNeeded};
ghost use Rattle.pdl_net_needed.specs.Pruned.{pruned, IsPruned, HasSameFrame};

pub use kept::Kept;
use marking::needed_marks;
use parts::pruned_netlist;
use pdl_kit::NoMemory;
use pdl_net::Netlist;
use std::alloc::Global;

/// The registers and cells of a netlist that are needed, with the numbers that they have among these.
pub fn needed(alloc: Global, net: &Netlist) -> Result<Kept, NoMemory>
    requires { IsWellFormed net.now }
    ensures { IfOk result (λ k. KeepsNeeded (circuit_of net.now) k) }
{
    let marks = needed_marks(alloc, net)?;
    Kept::numbered(alloc, marks)
}

/// The netlist with its needed registers and cells alone, where these are kept, in their order; what it shows, and its ports, arrays and memories, stay.
///
/// It takes time and memory in proportion to the netlist's size.
pub fn kept_part(alloc: Global, net: &Netlist, kept: &Kept) -> Result<Netlist, NoMemory>
    requires well { IsWellFormed net.now }
    requires kept { KeepsNeeded (circuit_of net.now) kept.now }
    ensures well { IfOk result (λ p. IsWellFormed p) }
    ensures shows { IfOk result (λ p. (image : List (List ℕ)) (schedule : List ℕ)
        → nports p image schedule ≡ nports net.now image schedule) }
    ensures frame { IfOk result (λ p. HasSameFrame net.now p) }
    ensures needed { IfOk result (λ p. AllNeeded (circuit_of p)) }
    ensures distinct { IfOk result (λ p. AllPairs (λ a b. a ≢ b) net.now.cells
        → AllPairs (λ a b. a ≢ b) p.cells) }
    ensures same { IfOk result (λ p. p ≡ pruned kept.now net.now) }
{
    pruned_netlist(alloc, kept, net)
}

/// The netlist with its needed registers and cells alone, as `kept_part` makes it.
pub fn needed_part(alloc: Global, net: &Netlist) -> Result<Netlist, NoMemory>
    requires { IsWellFormed net.now }
    ensures well { IfOk result (λ p. IsWellFormed p) }
    ensures shows { IfOk result (λ p. (image : List (List ℕ)) (schedule : List ℕ)
        → nports p image schedule ≡ nports net.now image schedule) }
    ensures frame { IfOk result (λ p. HasSameFrame net.now p) }
    ensures needed { IfOk result (λ p. AllNeeded (circuit_of p)) }
    ensures distinct { IfOk result (λ p. AllPairs (λ a b. a ≢ b) net.now.cells
        → AllPairs (λ a b. a ≢ b) p.cells) }
    ensures pruned { IfOk result (λ p. IsPruned net.now p) }
{
    let kept = needed(alloc, net)?;
    kept_part(alloc, net, &kept)
}
