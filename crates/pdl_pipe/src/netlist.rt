// The netlist of a pipe.
ghost use Rattle.std.specs.Prelude.{◌≡◌, ◌≢◌, ◌++◌, ◌∷◌, [], ℕ, List, true, false, AllPairs, IfOk, OnOk, filter};
ghost use Rattle.pdl_word.specs.Each.{Each};
ghost use Rattle.pdl_syntax_tree.specs.View.{pipe_view};
ghost use Rattle.pdl_form.specs.Form.{form_of};
ghost use Rattle.pdl_net.specs.Circuit.{circuit_of};
ghost use Rattle.pdl_build.specs.FoldedCells.{AreFolded};
ghost use Rattle.pdl_net_needed.specs.Needed.{AllNeeded};
ghost use Rattle.pdl_net_needed.specs.Marks.{IsWithin};
ghost use Rattle.pdl_pipe_walk.specs.Locked.{members};
ghost use Rattle.pdl_pipe_locks.specs.Suited.{AreSuited};
ghost use Rattle.pdl_law_follows.specs.Follows.{Follows};
ghost use Rattle.pdl_law_follows.specs.Refined.{RefinesThreads, MovesOldest, EndsThreads};
ghost use Rattle.pdl_law_follows.specs.Promised.{IsRunOf};
ghost use Rattle.pdl_image.specs.Images.{IsImage};
ghost use Rattle.pdl_pipe.specs.Infos.{is_told};
ghost use Rattle.pdl_pipe.specs.KeptPlaces.{KeepsPlaces};
ghost use Rattle.pdl_pipe.specs.Locks.{HasLocks, HasLocksOf, any_lock};
ghost use Rattle.pdl_pipe.specs.Names.{names_kept, AreAllNames, AreNames};

use crate::emitting::emit_all;
use crate::names::{NamedNet, name};
use pdl_build::Builder;
use pdl_check::Accepted;
use pdl_kit::{MemInfo, NoMemory, Seq};
use pdl_lock_kinds::locks_of;
use pdl_lockapi::LockModule;
use pdl_net::Netlist;
use pdl_net_needed::{Kept, kept_part, needed};
use std::alloc::Global;

// Copies of these memories that are delayed, or that answer at once, after some others.
fn add_infos(infos: &mut Seq<MemInfo>, mems: &[MemInfo], delayed: bool) -> Result<(), NoMemory>
    ensures { OnOk result (infos.new ≡ infos.old ++ filter (is_told delayed) mems.now) }
{
    for m in mems {
        if m.delayed == delayed {
            let copy = m.clone()?;
            infos.push(copy)?;
        }
    }
    Ok(())
}

// The memories as a netlist has them, the delayed ones first.
fn infos_of(alloc: Global, mems: &[MemInfo]) -> Result<Seq<MemInfo>, NoMemory>
    ensures { IfOk result (λ ms. ms
        ≡ filter (is_told true) mems.now ++ filter (is_told false) mems.now) }
{
    let mut infos = Seq::new(alloc);
    add_infos(&mut infos, mems, true)?;
    add_infos(&mut infos, mems, false)?;
    Ok(infos)
}

/// A netlist, and what its registers and some of its cells stand for.
#[derive(Drop)]
pub struct NamedNetlist {
    pub netlist: Netlist,
    pub names: Vec<NamedNet>,
}

// The netlist of an accepted pipe with these locks, and what stands in it.
fn compile_with<L: LockModule + Copy>(
    alloc: Global,
    accepted: &Accepted,
    locks: &[Option<L>],
) -> Result<NamedNetlist, NoMemory>
    requires suited { AreSuited L.suits (members L.LockModule)
        (form_of (pipe_view accepted.now.typed.pipe)) locks.now }
    ensures follows { IfOk result (λ y. Follows (pipe_view accepted.now.typed.pipe) y.netlist) }
    ensures locks { IfOk result (λ y.
        HasLocks (members L.LockModule) (pipe_view accepted.now.typed.pipe) y.netlist) }
    ensures names { IfOk result (λ y.
        AreAllNames (pipe_view accepted.now.typed.pipe) y.netlist y.names.items) }
    ensures different { IfOk result (λ y. AllPairs (λ a b. a ≢ b) y.netlist.cells) }
    ensures folded { IfOk result (λ y. AreFolded y.netlist.cells) }
{
    let mut b = Builder::new(alloc);
    let names = emit_all(alloc, &mut b, accepted.flat(), locks)?;
    let name = accepted.pipe().name.name.clone()?;
    let mems = infos_of(alloc, accepted.mems())?;
    Ok(NamedNetlist {
        netlist: b.finish(name, mems),
        names,
    })
}

// The name of a net, by its new number, if it is kept.
fn keep_name(found: &mut Vec<NamedNet>, kept: &Kept, x: NamedNet) -> Result<(), NoMemory>
    requires { IsWithin kept.now x.net }
    ensures { OnOk result (found.new.items
        ≡ found.old.items ++ names_kept kept.now (x ∷ [])) }
{
    if !kept.has(x.net) {
        return Ok(());
    }
    name(found, kept.net(x.net), x.role)?;
    Ok(())
}

// The names of nets that are kept, by their new numbers.
fn kept_names(alloc: Global, kept: &Kept, names: &[NamedNet]) -> Result<Vec<NamedNet>, NoMemory>
    requires { Each (λ x. IsWithin kept.now x.net) names.now }
    ensures { IfOk result (λ ns. ns.items ≡ names_kept kept.now names.now) }
{
    let mut found = Vec::new(alloc);
    for x in names {
        keep_name(&mut found, kept, *x)?;
    }
    Ok(found)
}

// The needed part of that netlist, with what stands in it.
fn needed_with<L: LockModule + Copy>(
    alloc: Global,
    accepted: &Accepted,
    locks: &[Option<L>],
) -> Result<NamedNetlist, NoMemory>
    requires suited { AreSuited L.suits (members L.LockModule)
        (form_of (pipe_view accepted.now.typed.pipe)) locks.now }
    ensures follows { IfOk result (λ y. Follows (pipe_view accepted.now.typed.pipe) y.netlist) }
    ensures locks { IfOk result (λ y.
        HasLocksOf (members L.LockModule) (pipe_view accepted.now.typed.pipe) y.netlist) }
    ensures places { IfOk result (λ y. KeepsPlaces (pipe_view accepted.now.typed.pipe) y.netlist) }
    ensures names { IfOk result (λ y.
        AreNames (pipe_view accepted.now.typed.pipe) y.netlist y.names.items) }
    ensures needed { IfOk result (λ y. AllNeeded (circuit_of y.netlist)) }
    ensures different { IfOk result (λ y. AllPairs (λ a b. a ≢ b) y.netlist.cells) }
    ensures folded { IfOk result (λ y. AreFolded y.netlist.cells) }
{
    let whole = compile_with(alloc, accepted, locks)?;
    let kept = needed(alloc, &whole.netlist)?;
    let netlist = kept_part(alloc, &whole.netlist, &kept)?;
    let names = kept_names(alloc, &kept, whole.names.as_slice())?;
    Ok(NamedNetlist { netlist, names })
}

/// The netlist of an accepted pipe, without what nothing needs, equal cells, or cells that could be constants: it follows the pipe, and each memory with a lock has the lock that it asks for. So the array of a renaming lock holds words and pending writes at different places, and from each image and with each schedule of replies it writes what the threads write that run one after another, its oldest thread moves in each cycle that leaves no request unanswered, and enough threads end; and what advisory memories hold changes none of these writes, nor do updates. With it come the names of its registers and of cells: what each shows of the machine's threads in each cycle. The error is that memory ran out.
pub fn compile_named(alloc: Global, accepted: &Accepted) -> Result<NamedNetlist, NoMemory>
    ensures follows { IfOk result (λ y. Follows (pipe_view accepted.now.typed.pipe) y.netlist) }
    ensures writes { IfOk result (λ y.
        RefinesThreads (pipe_view accepted.now.typed.pipe) y.netlist) }
    ensures moves { IfOk result (λ y. MovesOldest (pipe_view accepted.now.typed.pipe) y.netlist) }
    ensures ends { IfOk result (λ y. EndsThreads (pipe_view accepted.now.typed.pipe) y.netlist) }
    // Of each run also: what advisory memories hold changes no write, nor do updates.
    ensures runs { IfOk result (λ y. (image : List (List ℕ)) (schedule : List ℕ)
        → IsImage y.netlist.mems image
        → IsRunOf (pipe_view accepted.now.typed.pipe) y.netlist image schedule) }
    ensures locks { IfOk result (λ y.
        HasLocksOf any_lock (pipe_view accepted.now.typed.pipe) y.netlist) }
    ensures places { IfOk result (λ y. KeepsPlaces (pipe_view accepted.now.typed.pipe) y.netlist) }
    ensures names { IfOk result (λ y.
        AreNames (pipe_view accepted.now.typed.pipe) y.netlist y.names.items) }
    ensures needed { IfOk result (λ y. AllNeeded (circuit_of y.netlist)) }
    ensures different { IfOk result (λ y. AllPairs (λ a b. a ≢ b) y.netlist.cells) }
    ensures folded { IfOk result (λ y. AreFolded y.netlist.cells) }
{
    let locks = locks_of(alloc, accepted.flat())?;
    let named = needed_with(alloc, accepted, locks.as_slice())?;
    Ok(named)
}

/// The netlist of an accepted pipe as `compile_named` makes it, with all that is said of it there.
pub fn compile(alloc: Global, accepted: &Accepted) -> Result<Netlist, NoMemory>
    ensures follows { IfOk result (λ n. Follows (pipe_view accepted.now.typed.pipe) n) }
    ensures writes { IfOk result (λ n. RefinesThreads (pipe_view accepted.now.typed.pipe) n) }
    ensures moves { IfOk result (λ n. MovesOldest (pipe_view accepted.now.typed.pipe) n) }
    ensures ends { IfOk result (λ n. EndsThreads (pipe_view accepted.now.typed.pipe) n) }
    // Of each run also: what advisory memories hold changes no write, nor do updates.
    ensures runs { IfOk result (λ n. (image : List (List ℕ)) (schedule : List ℕ) → IsImage n.mems image →
        IsRunOf (pipe_view accepted.now.typed.pipe) n image schedule) }
    ensures locks { IfOk result (λ n. HasLocksOf any_lock (pipe_view accepted.now.typed.pipe) n) }
    ensures places { IfOk result (λ n. KeepsPlaces (pipe_view accepted.now.typed.pipe) n) }
    ensures needed { IfOk result (λ n. AllNeeded (circuit_of n)) }
    ensures different { IfOk result (λ n. AllPairs (λ a b. a ≢ b) n.cells) }
    ensures folded { IfOk result (λ n. AreFolded n.cells) }
{
    let NamedNetlist { netlist, names: _ } = compile_named(alloc, accepted)?;
    Ok(netlist)
}
