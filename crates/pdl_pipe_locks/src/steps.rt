// What the locks of the memories take next.
ghost use Rattle.std.specs.Prelude.{◌≡◌, ℕ, ◌<◌, [], Some, true, false, IfOk, OnOk, length, slice_index_or};
ghost use Rattle.pdl_semantics.specs.Flat.{is_delayed};
ghost use Rattle.pdl_semantics.specs.Stages.{mem_at};
ghost use Rattle.pdl_form.specs.FormView.{form};
ghost use Rattle.pdl_net.specs.Circuit.{HasArray};
ghost use Rattle.pdl_net.specs.Meaning.{IsThere, signal, write_signals};
ghost use Rattle.pdl_net.specs.Growth.{ExtendsBut};
ghost use Rattle.pdl_lockapi.specs.Laws.{own, HasNoPorts, HasCommitNets, HidesLaw, StepLaw};
ghost use Rattle.pdl_lockapi.specs.Second.{Commit2Law};
ghost use Rattle.pdl_pipe_exprs.specs.Nets.{NetsThere};
ghost use Rattle.pdl_pipe_exprs.specs.Conditions.{AreBits};
ghost use Rattle.pdl_law_parts.specs.Walk.{is_locked};
ghost use Rattle.pdl_law_parts.specs.Places.{comb_place};
ghost use Rattle.pdl_word.specs.Each.{Each};
ghost use Rattle.pdl_pipe_walk.specs.Locked.{members, some_at};
ghost use Rattle.pdl_pipe_locks.specs.Lawful.{AreLawful, AreLocksUnwritten};
ghost use Rattle.pdl_pipe_locks.specs.Round.{HasRoundLocks, HasRoundDeeds, HasRoundSquash, HasRoundTwice, round_signals, round_steps};
ghost use Rattle.pdl_pipe_locks.specs.Ports.{IsGiven, SignalsFit};
ghost use Rattle.pdl_pipe_locks.specs.Stepped.{own_of, IsSteppedMemory, AreStepped, ExtendsLocks};

use crate::deeds::StageDeeds;
use crate::ports::{SquashNets, lock_ports};
use pdl_build::Builder;
use pdl_form::FlatPipe;
use pdl_kit::NoMemory;
use pdl_lockapi::{LockModule, LockNets};
use pdl_net::Net;
use pdl_pipe_exprs::Bits;
use pdl_pipe_exprs::exprs::variable;
use pdl_pipe_walk::MemLock;
use std::alloc::Global;

/// What the steps of the locks go round: the pipe, the constant bits, the locks of the memories, which of these some path reserves twice to write, and what the stages do to them.
#[derive(Drop)]
pub struct Round<'a, 'd, L> {
    pub pipe: &'a FlatPipe,
    pub bits: Bits,
    pub locks: &'a [Option<MemLock<L>>],
    pub twice: &'a [bool],
    pub deeds: &'a [StageDeeds<'d>],
    /// Whether a squash happens, 1 bit.
    pub squash: Net,
    /// Of each memory's lock the ticket from which on a squash drops the pending writes.
    pub tails: &'a [Net],
}

// Whether some path reserves the memory of a number twice to write.
fn flag_at(twice: &[bool], m: usize) -> bool
    requires { m < length twice.now }
    ensures { result ≡ slice_index_or twice.now m false }
{
    twice[m]
}

// The step of a memory's lock.
fn set_lock<L: LockModule>(
    alloc: Global,
    b: &mut Builder,
    round: &Round<'_, '_, L>,
    x: &MemLock<L>,
    m: usize,
) -> Result<LockNets, NoMemory>
    requires bits { AreBits b.old round.now.bits }
    requires placed { L.placed x.now.lock b.old x.now.regs }
    requires array { (i : ℕ) → x.now.regs.array ≡ Some i → HasArray b.old i }
    requires empty { HasNoPorts x.now.regs.array b.old }
    requires squash { IsThere b.old round.now.squash }
    requires tails { NetsThere b.old round.now.tails.now }
    requires tail { m < length round.now.tails.now }
    requires twice { m < length round.now.twice.now }
    requires given { Each (IsGiven b.old m) round.now.deeds.now }
    requires fit { SignalsFit x.now.regs.bits x.now.regs.width (L.tickets x.now.lock)
        (round_signals b.old round.now m) }
    ensures nets { IfOk result (λ n.
        HasCommitNets b.new x.now.regs.bits x.now.regs.width n.commit n.addr n.value) }
    ensures law { IfOk result (λ n.
        StepLaw (L.stands x.now.lock x.now.regs) (L.size x.now.lock) (L.tickets x.now.lock)
        (own x.now.regs) b.new (round_signals b.old round.now m)
        (signal b.new n.commit) (signal b.new n.addr) (signal b.new n.value)) }
    ensures nets2 { IfOk result (λ n.
        HasCommitNets b.new x.now.regs.bits x.now.regs.width n.commit2 n.addr2 n.value2) }
    ensures law2 { IfOk result (λ n.
        Commit2Law (L.stands x.now.lock x.now.regs) (L.size x.now.lock) (L.tickets x.now.lock)
        (round_signals b.old round.now m)
        (signal b.new n.commit2) (signal b.new n.addr2) (signal b.new n.value2)) }
    ensures hides { OnOk result (HidesLaw (L.kind_of x.now.lock) b.new (own x.now.regs)
        (round_signals b.old round.now m)) }
    ensures extends { ExtendsBut (own x.now.regs) b.old b.new }
{
    let tail = variable(b, round.tails, m);
    let squash = SquashNets {
        on: round.squash,
        tail,
    };
    let twice = flag_at(round.twice, m);
    let ports = lock_ports(alloc, b, round.bits, round.deeds, m, twice, squash)?;
    let nets = x.lock.emit_step(b, &x.regs, &ports)?;
    Ok(nets)
}

// The lock of a memory, where it has one.
fn lock_at<L>(locks: &[Option<MemLock<L>>], m: usize) -> &Option<MemLock<L>>
    requires { m < length locks.now }
    ensures { result.now ≡ some_at locks.now m }
{
    &locks[m]
}

// The step of a memory's lock, where it has one.
fn set_memory_lock<L: LockModule>(
    alloc: Global,
    b: &mut Builder,
    round: &Round<'_, '_, L>,
    m: usize,
) -> Result<Option<LockNets>, NoMemory>
    requires low { m < length (form round.now.pipe.now).pipe.mems }
    requires bits { AreBits b.old round.now.bits }
    requires locked { HasRoundLocks (members L.LockModule) b.old round.now }
    requires unwritten { is_locked (form round.now.pipe.now).pipe m ≡ true →
        is_delayed (mem_at (form round.now.pipe.now).pipe m).kind ≡ false →
        write_signals b.old (comb_place (form round.now.pipe.now).pipe m) ≡ [] }
    requires twice { HasRoundTwice round.now }
    requires deeds { HasRoundDeeds (members L.LockModule) b.old round.now }
    requires squash { HasRoundSquash (members L.LockModule) b.old round.now }
    ensures stepped { IfOk result (λ n.
        IsSteppedMemory (members L.LockModule) b.new (mem_at (form round.now.pipe.now).pipe m)
        (round_steps b.old round.now m) (some_at round.now.locks.now m) n) }
    ensures extends { ExtendsBut (own_of (some_at round.now.locks.now m)) b.old b.new }
{
    match lock_at(round.locks, m) {
        None => Ok(None),
        Some(x) => {
            let nets = set_lock(alloc, b, round, x, m)?;
            Ok(Some(nets))
        }
    }
}

/// The steps of the locks of all memories, in declared order: the nets of what each memory with a lock commits.
///
/// The deeds have one for each stage, in order; no array of a memory with a lock was written before.
pub fn set_locks<L: LockModule>(
    alloc: Global,
    b: &mut Builder,
    round: &Round<'_, '_, L>,
) -> Result<Vec<Option<LockNets>>, NoMemory>
    requires bits { AreBits b.old round.now.bits }
    requires locked { HasRoundLocks (members L.LockModule) b.old round.now }
    requires lawful { AreLawful (members L.LockModule) b.old
        (form round.now.pipe.now).pipe round.now.locks.now }
    requires unwritten { AreLocksUnwritten b.old (form round.now.pipe.now).pipe }
    requires twice { HasRoundTwice round.now }
    requires deeds { HasRoundDeeds (members L.LockModule) b.old round.now }
    requires squash { HasRoundSquash (members L.LockModule) b.old round.now }
    ensures stepped { IfOk result (λ ns.
        AreStepped (members L.LockModule) b.new (form round.now.pipe.now).pipe
        (round_steps b.old round.now) round.now.locks.now ns.items
        (length (form round.now.pipe.now).pipe.mems)) }
    ensures extends { ExtendsLocks round.now.locks.now
        (length (form round.now.pipe.now).pipe.mems) b.old b.new }
{
    let mut nets = Vec::new(alloc);
    for m in 0..round.pipe.mems().len() {
        let net = set_memory_lock(alloc, b, round, m)?;
        nets.push(net)?;
    }
    Ok(nets)
}
