// Rules on what is done with a memory: L3 and L4.
ghost use Rattle.std.specs.Prelude.{◌≡◌, not, ◌&&◌, ◌||◌, List, filter, map};
ghost use Rattle.pdl_semantics.specs.Tree.{W};
ghost use Rattle.pdl_semantics.specs.Flatten.{is_advisory_mem};
ghost use Rattle.pdl_syntax_tree.specs.View.{mem_view, pipe_view};
ghost use Rattle.pdl_rules.specs.Places as rules;
ghost use Rattle.pdl_rules.specs.Places.{on_path};
ghost use Rattle.pdl_rules.specs.Locks as spec;
ghost use Rattle.pdl_paths.specs.Actions.{place_view};
ghost use Rattle.pdl_locks.specs.declared.numbers.Keys.TheVariants as keys;
ghost use Rattle.pdl_locks.specs.Uses.{AreKept, IsOwn, IsUsedMemory};
ghost use Rattle.pdl_locks.specs.Numbers.{AreNumbered};
ghost use Rattle.pdl_locks.specs.PassedPlaces.{passed_by};
ghost use Rattle.pdl_locks.specs.RuleQuestions.{breaks_at_memory};

use crate::at_locations::lock_size;
use crate::numbers::number_of;
use crate::uses::{MemoryUse, use_at};
use pdl_kit::{Name, NoMemory};
use pdl_paths::{Action, Path, Place};
use pdl_rules_on_paths::PathRule;
use pdl_syntax_tree::{AccessKind, Location, Mem, Pipe, is_advisory};
use std::alloc::Global;

/// What is asked of the places of one memory.
#[derive(Clone, Copy)]
pub enum MemoryRule {
    /// L3: it is reserved to read before it is reserved to write, and read before it is written.
    ReadFirst,
    /// L4: it is reserved to write at most twice, or once where its lock has room for one, and to read at most four times.
    FewReserves,
}

/// A rule on the places of each memory of a pipe.
#[derive(Clone, Copy)]
pub struct AtMemories<'a, 'p> {
    pub pipe: &'a Pipe,
    /// The places of the pipe.
    pub places: &'a [Place<'p>],
    /// For each of them the number of the first one at a location of its memory.
    pub first: &'a [usize],
    pub rule: MemoryRule,
}

impl PathRule for AtMemories<'_, '_> {
    // What was done with each memory, by the number of its first place.
    type State = Vec<MemoryUse>;

    ghost suits = { λ rule gs xs. AreNumbered keys.Memories rule.places.now rule.first.now xs };

    ghost breaks_on = { λ rule path before x.
        breaks_at_memory rule.rule (pipe_view rule.pipe.now) (filter (on_path path) before) x };

    ghost stands = { λ rule path before state.
        AreKept keys.Memories IsUsedMemory (map place_view rule.places.now)
        (filter (on_path path) before) state.items };

    fn start(&self, alloc: Global, _path: Path) -> Result<Vec<MemoryUse>, NoMemory> {
        Ok(vec![in alloc; MemoryUse::none(); self.places.len()]?)
    }

    fn breaks(&self, state: &Vec<MemoryUse>, k: usize, place: &Place<'_>) -> bool {
        let used = use_at(state, number_of(self.first, k), MemoryUse::none());
        match self.rule {
            MemoryRule::ReadFirst => is_late_read(self.pipe, used, place),
            MemoryRule::FewReserves => is_one_too_many(self.pipe, used, place),
        }
    }

    fn step(
        &self,
        state: &mut Vec<MemoryUse>,
        k: usize,
        place: &Place<'_>,
    ) -> Result<(), NoMemory> {
        let number = number_of(self.first, k);
        if number < state.len() {
            state[number] = state[number].after(place);
        }
        Ok(())
    }

    ghost skips = { λ rule path before x state off stands.
        passed_by keys.Memories IsUsedMemory
        (map place_view rule.places.now) path before x state.items off stands };
}

// Whether a place with this use of its memory reads, or reserves to read, too late; an advisory one is read at any time.
fn is_late_read(pipe: &Pipe, used: MemoryUse, place: &Place<'_>) -> bool
    ensures { (earlier : List rules.Place) →
        IsOwn IsUsedMemory used earlier (place_view place.now) →
        result ≡ spec.is_late_read (pipe_view pipe.now) earlier (place_view place.now) }
{
    match place.action {
        Action::Reserve(_, kind) => match kind {
            AccessKind::R => used.reserves >= 1,
            AccessKind::W => false,
        },
        Action::CombRead(_, at) => reads_written(pipe.mems.as_slice(), used, at),
        Action::DelayedRead(_, _) => used.written,
        Action::Parameter(_) | Action::Memory(_) | Action::Separator | Action::Bind(_, _) => false,
        Action::Write(_, _) | Action::SpecCall(_, _) => false,
        Action::Block(_) | Action::Release(_) | Action::If(_, _, _) | Action::Call(_) => false,
        Action::Verify(_, _) | Action::Update(_, _) | Action::SpecCheck => false,
        Action::SpecBarrier => false,
        Action::End | Action::StartClause(_) => false,
    }
}

// Whether a comb read of a memory with this use is one after a write, where the memory isn't advisory.
fn reads_written(mems: &[Mem], used: MemoryUse, at: &Location) -> bool
    ensures { result ≡ (not (is_advisory_mem (map mem_view mems.now) at.now.mem.name)
        && used.written) }
{
    !is_advisory(mems, &at.mem.name) && used.written
}

// How many write reservations of a memory there may be on a path: one where its lock has size 1.
fn most_reserves(mems: &[Mem], name: &Name) -> u8
    ensures { result ≡ spec.most_reservations (map mem_view mems.now) W name.now }
{
    if lock_size(mems, name) == 1 { 1 } else { 2 }
}

// Whether a place with this use of its memory reserves it once too often.
fn is_one_too_many(pipe: &Pipe, used: MemoryUse, place: &Place<'_>) -> bool
    ensures { (earlier : List rules.Place) →
        IsOwn IsUsedMemory used earlier (place_view place.now) →
        result ≡ spec.is_one_too_many (pipe_view pipe.now) earlier (place_view place.now) }
{
    match place.action {
        Action::Reserve(at, kind) => match kind {
            AccessKind::R => used.reads >= 4,
            AccessKind::W => used.reserves >= most_reserves(pipe.mems.as_slice(), &at.mem.name),
        },
        Action::Parameter(_) | Action::Memory(_) | Action::Separator | Action::Bind(_, _) => false,
        Action::CombRead(_, _) | Action::DelayedRead(_, _) | Action::Write(_, _) => false,
        Action::SpecCall(_, _) | Action::Block(_) | Action::Release(_) => false,
        Action::If(_, _, _) | Action::Call(_) | Action::Verify(_, _) => false,
        Action::Update(_, _) | Action::SpecCheck => false,
        Action::SpecBarrier | Action::End | Action::StartClause(_) => false,
    }
}
