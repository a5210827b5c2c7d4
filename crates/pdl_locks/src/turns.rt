// L6: a reservation to write is released after exactly one write, and those of a memory are written in their order.
ghost use Rattle.std.specs.Prelude.{◌≡◌, [], ◌∷◌, ◌++◌, IfOk, List, None, Some, filter, map, length, replicate, true};
ghost use Rattle.pdl_semantics.specs.Tree.{Location as SpecLocation};
ghost use Rattle.pdl_rules.specs.Places as rules;
ghost use Rattle.pdl_rules.specs.Places.{on_path};
ghost use Rattle.pdl_rules.specs.Locks as spec;
ghost use Rattle.pdl_paths.specs.declared.place.Place.{Place as Row};
ghost use Rattle.pdl_paths.specs.Actions.{location_at as spec_location_at, place_view};
ghost use Rattle.pdl_locks.specs.declared.numbers.Keys.TheVariants as keys;
ghost use Rattle.pdl_locks.specs.Uses.{AreKept, AreTurns, IsFirst, IsThere, IsOwn, IsTurn, IsUsed};
ghost use Rattle.pdl_locks.specs.PassedPlaces.{turns_pass};
ghost use Rattle.pdl_locks.specs.Numbers.{AreNumbered, first_place};

use crate::at_locations::pass;
use crate::numbers::number_of;
use crate::uses::{LocationUse, is_reserve_for, use_at};
use pdl_kit::NoMemory;
use pdl_paths::{Action, Path, Place};
use pdl_rules_on_paths::PathRule;
use pdl_syntax_tree::AccessKind;
use std::alloc::Global;

/// What was done at each location of a pipe, and which location of each memory was reserved first to write.
#[derive(Drop)]
pub struct Turns {
    /// For each location, by its number, what was done there.
    pub uses: Vec<LocationUse>,
    /// For each memory, by its number, the number of the location that was reserved first to write, where one was.
    pub first: Vec<Option<usize>>,
}

/// L6 on the places of a pipe.
#[derive(Clone, Copy)]
pub struct WrittenInTurn<'a, 'p> {
    /// The places of the pipe.
    pub places: &'a [Place<'p>],
    /// For each of them the number of the first one at its location.
    pub locations: &'a [usize],
    /// For each of them the number of the first one at a location of its memory.
    pub memories: &'a [usize],
}

impl PathRule for WrittenInTurn<'_, '_> {
    type State = Turns;

    ghost suits = { λ rule gs xs.
        (AreNumbered keys.Locations rule.places.now rule.locations.now xs)
        × (AreNumbered keys.Memories rule.places.now rule.memories.now xs) };

    ghost breaks_on = { λ rule path before x.
        spec.is_not_written_once (filter (on_path path) before) x };

    ghost stands = { λ rule path before state.
        AreTurns (map place_view rule.places.now) (filter (on_path path) before)
        state.uses.items state.first.items };

    fn start(&self, alloc: Global, _path: Path) -> Result<Turns, NoMemory> {
        let uses = vec![in alloc; LocationUse::none(); self.places.len()]?;
        let first = none_reserved(alloc, self.places.len())?;
        Ok(Turns { uses, first })
    }

    fn breaks(&self, state: &Turns, k: usize, place: &Place<'_>) -> bool {
        let uses = state.uses.as_slice();
        let number = number_of(self.locations, k);
        let first = use_at(state.first.as_slice(), number_of(self.memories, k), None);
        let used = use_at(uses, number, LocationUse::none());
        is_not_written_once(used, waits_for(uses, first, number), place)
    }

    fn step(&self, state: &mut Turns, k: usize, place: &Place<'_>) -> Result<(), NoMemory> {
        pass(self.locations, &mut state.uses, k, place);
        pass_first(self.locations, self.memories, &mut state.first, k, place);
        Ok(())
    }

    ghost skips = { λ rule path before x state off stands.
        turns_pass (map place_view rule.places.now) path before x state.uses.items state.first.items
        off stands };
}

// For so many memories that none of their locations was reserved.
fn none_reserved(alloc: Global, count: usize) -> Result<Vec<Option<usize>>, NoMemory>
    ensures { IfOk result (λ v. v.items ≡ replicate count None) }
{
    let mut first = Vec::new(alloc);
    while first.len() < count {
        first.push(None)?;
    }
    Ok(first)
}

// Passes the k-th place of a text: where it reserves its memory to write, it is the first one if none was.
fn pass_first(
    locations: &[usize],
    memories: &[usize],
    first: &mut Vec<Option<usize>>,
    k: usize,
    place: &Place<'_>,
)
    ensures { (rows : List Row) (path : List rules.Guard) (before later : List rules.Place) →
        AreNumbered keys.Locations rows locations.now (before ++ place_view place.now ∷ later) →
        AreNumbered keys.Memories rows memories.now (before ++ place_view place.now ∷ later) →
        k ≡ length before → on_path path (place_view place.now) ≡ true →
        AreKept keys.Memories (IsFirst (map place_view rows)) (map place_view rows)
        (filter (on_path path) before) first.old.items →
        AreKept keys.Memories (IsFirst (map place_view rows)) (map place_view rows)
        (filter (on_path path) (before ++ place_view place.now ∷ [])) first.new.items }
{
    let number = number_of(memories, k);
    if number < first.len() {
        first[number] = first_after(first[number], number_of(locations, k), place);
    }
}

// The first location of a place's memory that was reserved to write, after the place, whose own location has this number.
fn first_after(first: Option<usize>, number: usize, place: &Place<'_>) -> Option<usize>
    ensures { (all earlier : List rules.Place) (l : SpecLocation) →
        spec_location_at (place_view place.now) ≡ Some l →
        number ≡ first_place keys.Locations l all → IsFirst all first l earlier →
        IsFirst all result l (earlier ++ place_view place.now ∷ []) }
{
    match first {
        Some(_) => first,
        None => {
            if is_reserve_for(place, AccessKind::W) {
                Some(number)
            } else {
                None
            }
        }
    }
}

// Whether the location that was reserved first is another one than this, and isn't written yet.
fn waits_for(uses: &[LocationUse], first: Option<usize>, number: usize) -> bool
    ensures { (all earlier : List rules.Place) (l : SpecLocation) (x : rules.Place) →
        AreKept keys.Locations IsUsed all earlier uses.now → IsFirst all first l earlier →
        IsThere all l earlier → number ≡ first_place keys.Locations l all →
        result ≡ spec.is_out_of_turn l earlier (spec.first_reserved l.mem.name earlier) }
{
    match first {
        None => false,
        Some(first) => { first != number && use_at(uses, first, LocationUse::none()).writes == 0 }
    }
}

fn is_not_written_once(used: LocationUse, waits: bool, place: &Place<'_>) -> bool
    ensures { (earlier : List rules.Place) → IsOwn IsUsed used earlier (place_view place.now) →
        IsTurn waits earlier (place_view place.now) →
        result ≡ spec.is_not_written_once earlier (place_view place.now) }
{
    match place.action {
        Action::Release(_) => used.hold.is_held_for(AccessKind::W) && used.writes != 1,
        Action::Write(_, _) => waits,
        Action::Parameter(_) | Action::Memory(_) | Action::Separator | Action::Bind(_, _) => false,
        Action::CombRead(_, _) | Action::DelayedRead(_, _) => false,
        Action::SpecCall(_, _) | Action::Block(_) | Action::Reserve(_, _) => false,
        Action::If(_, _, _) | Action::Call(_) | Action::Verify(_, _) => false,
        Action::Update(_, _) | Action::SpecCheck => false,
        Action::SpecBarrier | Action::End | Action::StartClause(_) => false,
    }
}
