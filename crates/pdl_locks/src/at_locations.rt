// Rules on what is done at a location: L1, L5 and L7.
ghost use Rattle.std.specs.Prelude.{◌≡◌, ◌&&◌, true, [], ◌∷◌, ◌++◌, List, filter, map, length};
ghost use Rattle.std.specs.List.{list_any};
ghost use Rattle.pdl_syntax_tree.specs.View.{maybe_lock_view, mem_view, pipe_view};
ghost use Rattle.pdl_rules.specs.Places as rules;
ghost use Rattle.pdl_rules.specs.Places.{on_path};
ghost use Rattle.pdl_rules.specs.Locks as spec;
ghost use Rattle.pdl_paths.specs.declared.place.Place.{Place as Row};
ghost use Rattle.pdl_paths.specs.Actions.{place_view};
ghost use Rattle.pdl_locks.specs.declared.numbers.Keys.TheVariants as keys;
ghost use Rattle.pdl_locks.specs.Uses.{AreKept, IsOwn, IsUsed, is_open as spec_is_open};
ghost use Rattle.pdl_locks.specs.Numbers.{AreNumbered};
ghost use Rattle.pdl_locks.specs.PassedPlaces.{passed_by};
ghost use Rattle.pdl_locks.specs.RuleQuestions.{breaks_at_location};

use crate::numbers::number_of;
use crate::uses::{LocationUse, use_at};
use pdl_kit::{Name, NoMemory};
use pdl_paths::{Action, Path, Place, is_locked};
use pdl_rules_on_paths::PathRule;
use pdl_syntax_tree::{AccessKind, LockDecl, Mem, Pipe, is_advisory};
use std::alloc::Global;

/// What is asked of the places at one location.
#[derive(Clone, Copy)]
pub enum LocationRule {
    /// L1: each statement has the hold that it needs.
    Held,
    /// L5: it is reserved once.
    ReservedOnce,
    /// L7: at the end it is released, if it was reserved.
    Released,
}

/// A rule on the places at each location of a pipe.
#[derive(Clone, Copy)]
pub struct AtLocations<'a, 'p> {
    pub pipe: &'a Pipe,
    /// The places of the pipe.
    pub places: &'a [Place<'p>],
    /// For each of them the number of the first one at its location.
    pub first: &'a [usize],
    pub rule: LocationRule,
}

impl PathRule for AtLocations<'_, '_> {
    // What was done at each location, by the number of its first place.
    type State = Vec<LocationUse>;

    ghost suits = { λ rule gs xs. AreNumbered keys.Locations rule.places.now rule.first.now xs };

    ghost breaks_on = { λ rule path before x.
        breaks_at_location rule.rule (pipe_view rule.pipe.now) (filter (on_path path) before) x };

    ghost stands = { λ rule path before state.
        AreKept keys.Locations IsUsed (map place_view rule.places.now)
        (filter (on_path path) before) state.items };

    fn start(&self, alloc: Global, _path: Path) -> Result<Vec<LocationUse>, NoMemory> {
        Ok(vec![in alloc; LocationUse::none(); self.places.len()]?)
    }

    fn breaks(&self, state: &Vec<LocationUse>, k: usize, place: &Place<'_>) -> bool {
        let used = use_at(state, number_of(self.first, k), LocationUse::none());
        match self.rule {
            LocationRule::Held => lacks_hold(self.pipe, used, place),
            LocationRule::ReservedOnce => is_reserved_again(used, place),
            LocationRule::Released => is_end(place) && is_some_open(self.first, state),
        }
    }

    fn step(
        &self,
        state: &mut Vec<LocationUse>,
        k: usize,
        place: &Place<'_>,
    ) -> Result<(), NoMemory> {
        pass(self.first, state, k, place);
        Ok(())
    }

    ghost skips = { λ rule path before x state off stands.
        passed_by keys.Locations IsUsed
        (map place_view rule.places.now) path before x state.items off stands };
}

/// Passes the k-th place of a text, with what it does at its location.
///
/// `first` has for each place the number of the first one at its location.
pub fn pass(first: &[usize], uses: &mut Vec<LocationUse>, k: usize, place: &Place<'_>)
    ensures { (rows : List Row) (path : List rules.Guard) (before later : List rules.Place) →
        AreNumbered keys.Locations rows first.now (before ++ place_view place.now ∷ later) →
        k ≡ length before → on_path path (place_view place.now) ≡ true →
        AreKept keys.Locations IsUsed (map place_view rows)
        (filter (on_path path) before) uses.old.items →
        AreKept keys.Locations IsUsed (map place_view rows)
        (filter (on_path path) (before ++ place_view place.now ∷ [])) uses.new.items }
{
    let number = number_of(first, k);
    if number < uses.len() {
        uses[number] = uses[number].after(place);
    }
}

// Whether a place with this use of its location lacks the hold that it needs.
fn lacks_hold(pipe: &Pipe, used: LocationUse, place: &Place<'_>) -> bool
    ensures { (earlier : List rules.Place) → IsOwn IsUsed used earlier (place_view place.now) →
        result ≡ spec.lacks_hold (pipe_view pipe.now) earlier (place_view place.now) }
{
    let mems = pipe.mems.as_slice();
    let hold = used.hold;
    match place.action {
        Action::Block(_) => !hold.is_reserved(),
        Action::CombRead(_, at) => is_locked(mems, &at.mem.name)
            && !hold.is_blocked_for(AccessKind::R),
        Action::DelayedRead(_, at) => {
            is_locked(mems, &at.mem.name) && !hold.is_blocked_for(AccessKind::R)
        }
        Action::Write(at, _) => {
            !is_advisory(mems, &at.mem.name) && !hold.is_blocked_for(AccessKind::W)
        }
        Action::Release(_) => !hold.is_blocked(),
        Action::Parameter(_) | Action::Memory(_) | Action::Separator | Action::Bind(_, _) => false,
        Action::SpecCall(_, _) | Action::Reserve(_, _) | Action::If(_, _, _) => false,
        Action::Call(_) | Action::Verify(_, _) | Action::Update(_, _) | Action::SpecCheck => false,
        Action::SpecBarrier | Action::End | Action::StartClause(_) => false,
    }
}

fn is_reserved_again(used: LocationUse, place: &Place<'_>) -> bool
    ensures { (earlier : List rules.Place) → IsOwn IsUsed used earlier (place_view place.now) →
        result ≡ spec.is_reserved_again earlier (place_view place.now) }
{
    match place.action {
        Action::Reserve(_, _) => used.reserved,
        Action::Parameter(_) | Action::Memory(_) | Action::Separator | Action::Bind(_, _) => false,
        Action::CombRead(_, _) | Action::DelayedRead(_, _) | Action::Write(_, _) => false,
        Action::SpecCall(_, _) | Action::Block(_) | Action::Release(_) => false,
        Action::If(_, _, _) | Action::Call(_) | Action::Verify(_, _) => false,
        Action::Update(_, _) | Action::SpecCheck => false,
        Action::SpecBarrier | Action::End | Action::StartClause(_) => false,
    }
}

fn is_end(place: &Place<'_>) -> bool
    ensures { (earlier : List rules.Place) →
        spec.ends_open earlier (place_view place.now)
        ≡ (result && list_any (spec.leaves_open earlier) earlier) }
{
    match place.action {
        Action::End => true,
        Action::Parameter(_) | Action::Memory(_) | Action::Separator | Action::Bind(_, _) => false,
        Action::CombRead(_, _) | Action::DelayedRead(_, _) | Action::Write(_, _) => false,
        Action::SpecCall(_, _) | Action::Block(_) | Action::Reserve(_, _) => false,
        Action::Release(_) | Action::If(_, _, _) | Action::Call(_) | Action::Verify(_, _) => false,
        Action::Update(_, _) => false,
        Action::SpecCheck | Action::SpecBarrier | Action::StartClause(_) => false,
    }
}

// Whether one of the locations with these numbers is reserved and not released.
fn is_some_open(numbers: &[usize], uses: &[LocationUse]) -> bool
    ensures { result ≡ list_any (spec_is_open uses.now) numbers.now }
{
    for number in numbers {
        if is_open(uses, *number) {
            return true;
        }
    }
    false
}

fn is_open(uses: &[LocationUse], number: usize) -> bool
    ensures { result ≡ spec_is_open uses.now number }
{
    match uses.get(number) {
        Some(used) => used.hold.is_unreleased(),
        None => false,
    }
}

/// The size of a memory's lock, 0 where it has none.
pub fn lock_size(mems: &[Mem], name: &Name) -> u64
    ensures { result ≡ spec.lock_size (map mem_view mems.now) name.now }
{
    for mem in mems {
        if mem.name.name == *name {
            return declared_size(&mem.lock);
        }
    }
    0
}

// The size that a lock is declared with, 0 without lock.
fn declared_size(lock: &Option<LockDecl>) -> u64
    ensures { result ≡ spec.declared_size (maybe_lock_view lock.now) }
{
    match lock {
        None => 0,
        Some(lock) => lock.size.value,
    }
}
