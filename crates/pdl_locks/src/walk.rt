// The rules on locks that are asked on paths, on one walk along each path.
ghost use Rattle.std.specs.Prelude.{◌≡◌, ◌≤◌, ℕ, ◌+◌, List, true, Some, map, length, slice_get, IfOk, OnOk};
ghost use Rattle.pdl_syntax_tree.specs.View.{pipe_view};
ghost use Rattle.pdl_rules.specs.Places as spec;
ghost use Rattle.pdl_rules.specs.Stages.{bound_late};
ghost use Rattle.pdl_paths.specs.Actions.{place_view};
ghost use Rattle.pdl_paths.specs.Masks.{AreMasked, path_of};
ghost use Rattle.pdl_rules_walk.specs.Course.{IsFound};
ghost use Rattle.pdl_locks.specs.declared.at_locations.LocationRule.TheVariants as at;
ghost use Rattle.pdl_locks.specs.declared.at_memories.MemoryRule.TheVariants as of;
ghost use Rattle.pdl_locks.specs.declared.numbers.Keys.TheVariants as keys;
ghost use Rattle.pdl_locks.specs.Bound.{AreOfPipe};
ghost use Rattle.pdl_locks.specs.Facts.{AreFacts, AreLines, Lines};
ghost use Rattle.pdl_locks.specs.Numbers.{AreNumbered};
ghost use Rattle.pdl_locks.specs.Walk.{StandsAt, StandsOf, StandsInTurn, StandsBound, at_location, of_memory, in_turn, aside_at, aside_of, aside_turn, aside_bound};

use crate::at_locations::{AtLocations, LocationRule};
use crate::at_memories::{AtMemories, MemoryRule};
use crate::bound::BoundInTime;
use crate::facts::LockFacts;
use crate::turns::{Turns, WrittenInTurn};
use crate::uses::{LocationUse, MemoryUse};
use pdl_kit::NoMemory;
use pdl_paths::{Guards, Path, Place};
use pdl_rules_on_paths::line_at;
use pdl_rules_stages::all_true;
use pdl_rules_walk::{Alone, Course, PathRules};
use pdl_syntax_tree::Pipe;
use std::alloc::Global;

/// The rules on locks that are asked on the paths of a pipe.
#[derive(Clone, Copy)]
pub struct LockRules<'a, 'p> {
    /// L8, with the pipe and its places.
    pub bound: BoundInTime<'a, 'p>,
    /// For each place the number of the first one at its location.
    pub locations: &'a [usize],
    /// For each place the number of the first one at a location of its memory.
    pub memories: &'a [usize],
}

/// What is known of each of them.
#[derive(Drop)]
pub struct PerRule<A, M, W, B> {
    /// Of L1.
    pub held: A,
    /// Of L3.
    pub read_first: M,
    /// Of L4.
    pub few_reserves: M,
    /// Of L5.
    pub reserved_once: A,
    /// Of L6.
    pub written_once: W,
    /// Of L7.
    pub released: A,
    /// Of L8.
    pub bound: B,
}

/// The lines at which a pipe breaks them, none where it keeps one.
pub type LockLines = PerRule<Option<u32>, Option<u32>, Option<u32>, Option<u32>>;

type Used = Course<Vec<LocationUse>>;

type UsedMemory = Course<Vec<MemoryUse>>;

type Courses = PerRule<Used, UsedMemory, Course<Turns>, Course<Path>>;

type Lowest = PerRule<usize, usize, usize, usize>;

impl LockRules<'_, '_> {
    // One rule on locations, before the first place of a path.
    fn start_at(
        &self,
        alloc: Global,
        path: Path,
        rule: LocationRule,
        lowest: usize,
    ) -> Result<Used, NoMemory>
        ensures { IfOk result (λ course. (gs : List spec.Guard) (xs : List spec.Place)
            → AreNumbered keys.Locations self.now.bound.places.now self.now.locations.now xs
            → IsFound (at_location (pipe_view self.now.bound.pipe.now) rule) gs xs path.bits lowest
            → StandsAt (pipe_view self.now.bound.pipe.now) self.now.bound.places.now rule gs xs
            path.bits 0 course.state.items course.lowest) }
    {
        let asked = AtLocations {
            pipe: self.bound.pipe,
            places: self.bound.places,
            first: self.locations,
            rule,
        };
        Alone(asked).start(alloc, path, lowest)
    }

    // One passes a place.
    fn pass_at(
        &self,
        rule: LocationRule,
        course: &mut Used,
        k: usize,
        place: &Place<'_>,
    ) -> Result<(), NoMemory>
        ensures { OnOk result ((gs : List spec.Guard) (xs : List spec.Place) (bits : ℕ)
            → AreNumbered keys.Locations self.now.bound.places.now self.now.locations.now xs
            → slice_get xs k ≡ Some (place_view place.now) → spec.on_path (path_of gs bits)
            (place_view place.now) ≡ true
            → StandsAt (pipe_view self.now.bound.pipe.now) self.now.bound.places.now rule gs xs bits
            k course.old.state.items course.old.lowest
            → StandsAt (pipe_view self.now.bound.pipe.now) self.now.bound.places.now rule gs xs bits
            (k + 1) course.new.state.items course.new.lowest) }
    {
        let asked = AtLocations {
            pipe: self.bound.pipe,
            places: self.bound.places,
            first: self.locations,
            rule,
        };
        Alone(asked).pass(course, k, place)
    }

    // One rule on memories, before the first place of a path.
    fn start_of(
        &self,
        alloc: Global,
        path: Path,
        rule: MemoryRule,
        lowest: usize,
    ) -> Result<UsedMemory, NoMemory>
        ensures { IfOk result (λ course. (gs : List spec.Guard) (xs : List spec.Place)
            → AreNumbered keys.Memories self.now.bound.places.now self.now.memories.now xs
            → IsFound (of_memory (pipe_view self.now.bound.pipe.now) rule) gs xs path.bits lowest
            → StandsOf (pipe_view self.now.bound.pipe.now) self.now.bound.places.now rule gs xs path.bits 0 course.state.items
            course.lowest) }
    {
        let asked = AtMemories {
            pipe: self.bound.pipe,
            places: self.bound.places,
            first: self.memories,
            rule,
        };
        Alone(asked).start(alloc, path, lowest)
    }

    // One passes a place.
    fn pass_of(
        &self,
        rule: MemoryRule,
        course: &mut UsedMemory,
        k: usize,
        place: &Place<'_>,
    ) -> Result<(), NoMemory>
        ensures { OnOk result ((gs : List spec.Guard) (xs : List spec.Place) (bits : ℕ)
            → AreNumbered keys.Memories self.now.bound.places.now self.now.memories.now xs
            → slice_get xs k ≡ Some (place_view place.now) → spec.on_path (path_of gs bits)
            (place_view place.now) ≡ true
            → StandsOf (pipe_view self.now.bound.pipe.now) self.now.bound.places.now rule gs xs bits k course.old.state.items
            course.old.lowest
            → StandsOf (pipe_view self.now.bound.pipe.now) self.now.bound.places.now rule gs xs bits (k + 1) course.new.state.items
            course.new.lowest) }
    {
        let asked = AtMemories {
            pipe: self.bound.pipe,
            places: self.bound.places,
            first: self.memories,
            rule,
        };
        Alone(asked).pass(course, k, place)
    }
}

impl LockRules<'_, '_> {
    // L6, before the first place of a path.
    fn start_turn(
        &self,
        alloc: Global,
        path: Path,
        lowest: usize,
    ) -> Result<Course<Turns>, NoMemory>
        ensures { IfOk result (λ course. (gs : List spec.Guard) (xs : List spec.Place)
            → AreNumbered keys.Locations self.now.bound.places.now self.now.locations.now xs
            → AreNumbered keys.Memories self.now.bound.places.now self.now.memories.now xs
            → IsFound in_turn gs xs path.bits lowest
            → StandsInTurn self.now.bound.places.now gs xs path.bits 0
            course.state.uses.items course.state.first.items course.lowest) }
    {
        let asked = WrittenInTurn {
            places: self.bound.places,
            locations: self.locations,
            memories: self.memories,
        };
        Alone(asked).start(alloc, path, lowest)
    }

    // It passes a place.
    fn pass_turn(
        &self,
        course: &mut Course<Turns>,
        k: usize,
        place: &Place<'_>,
    ) -> Result<(), NoMemory>
        ensures { OnOk result ((gs : List spec.Guard) (xs : List spec.Place) (bits : ℕ)
            → AreNumbered keys.Locations self.now.bound.places.now self.now.locations.now xs
            → AreNumbered keys.Memories self.now.bound.places.now self.now.memories.now xs
            → slice_get xs k ≡ Some (place_view place.now) → spec.on_path (path_of gs bits)
            (place_view place.now) ≡ true
            → StandsInTurn self.now.bound.places.now gs xs bits k course.old.state.uses.items
            course.old.state.first.items course.old.lowest
            → StandsInTurn self.now.bound.places.now gs xs bits (k + 1) course.new.state.uses.items
            course.new.state.first.items course.new.lowest) }
    {
        let asked = WrittenInTurn {
            places: self.bound.places,
            locations: self.locations,
            memories: self.memories,
        };
        Alone(asked).pass(course, k, place)
    }
}

impl PathRules for LockRules<'_, '_> {
    type Courses = Courses;

    type Lowest = Lowest;

    type Lines = LockLines;

    ghost suits = { λ rules gs xs.
        (AreOfPipe (pipe_view rules.bound.pipe.now) rules.bound.guards.now rules.bound.all.bits
        rules.bound.places.now rules.bound.stages.now rules.bound.last.now gs xs)
        × (AreNumbered keys.Locations rules.bound.places.now rules.locations.now xs)
        × (AreNumbered keys.Memories rules.bound.places.now rules.memories.now xs) };

    ghost found = { λ rules gs xs paths lowest. let p = pipe_view rules.bound.pipe.now in
        (IsFound (at_location p at.Held) gs xs paths lowest.held)
        × (IsFound (of_memory p of.ReadFirst) gs xs paths lowest.read_first)
        × (IsFound (of_memory p of.FewReserves) gs xs paths lowest.few_reserves)
        × (IsFound (at_location p at.ReservedOnce) gs xs paths lowest.reserved_once)
        × (IsFound in_turn gs xs paths lowest.written_once)
        × (IsFound (at_location p at.Released) gs xs paths lowest.released)
        × (IsFound (bound_late p) gs xs paths lowest.bound) };

    ghost stand = { λ rules gs xs bits k now.
        let p = pipe_view rules.bound.pipe.now in let rows = rules.bound.places.now in
        (StandsAt p rows at.Held gs xs bits k now.held.state.items now.held.lowest)
        × (StandsOf p rows of.ReadFirst gs xs bits k now.read_first.state.items now.read_first.lowest)
        × (StandsOf p rows of.FewReserves gs xs bits k now.few_reserves.state.items
        now.few_reserves.lowest)
        × (StandsAt p rows at.ReservedOnce gs xs bits k now.reserved_once.state.items
        now.reserved_once.lowest)
        × (StandsInTurn rows gs xs bits k now.written_once.state.uses.items
        now.written_once.state.first.items now.written_once.lowest)
        × (StandsAt p rows at.Released gs xs bits k now.released.state.items now.released.lowest)
        × (StandsBound p rules.bound.guards.now gs xs bits k now.bound.state.bits
        now.bound.lowest) };

    ghost break_at = { λ rules gs xs lines. let p = pipe_view rules.bound.pipe.now in
        gs ≡ spec.guards xs → xs ≡ spec.places p → AreLines p lines };

    fn unbroken(&self, count: usize) -> Lowest {
        PerRule {
            held: count,
            read_first: count,
            few_reserves: count,
            reserved_once: count,
            written_once: count,
            released: count,
            bound: count,
        }
    }

    fn start(&self, alloc: Global, path: Path, lowest: Lowest) -> Result<Courses, NoMemory> {
        let again = lowest.reserved_once;
        Ok(PerRule {
            held: self.start_at(alloc, path, LocationRule::Held, lowest.held)?,
            read_first: self.start_of(alloc, path, MemoryRule::ReadFirst, lowest.read_first)?,
            few_reserves: self.start_of(alloc, path, MemoryRule::FewReserves, lowest.few_reserves)?,
            reserved_once: self.start_at(alloc, path, LocationRule::ReservedOnce, again)?,
            written_once: self.start_turn(alloc, path, lowest.written_once)?,
            released: self.start_at(alloc, path, LocationRule::Released, lowest.released)?,
            bound: Alone(self.bound).start(alloc, path, lowest.bound)?,
        })
    }

    fn pass(&self, courses: &mut Courses, k: usize, place: &Place<'_>) -> Result<(), NoMemory> {
        self.pass_at(LocationRule::Held, &mut courses.held, k, place)?;
        self.pass_of(MemoryRule::ReadFirst, &mut courses.read_first, k, place)?;
        self.pass_of(MemoryRule::FewReserves, &mut courses.few_reserves, k, place)?;
        self.pass_at(
            LocationRule::ReservedOnce,
            &mut courses.reserved_once,
            k,
            place,
        )?;
        self.pass_turn(&mut courses.written_once, k, place)?;
        self.pass_at(LocationRule::Released, &mut courses.released, k, place)?;
        Alone(self.bound).pass(&mut courses.bound, k, place)?;
        Ok(())
    }

    fn end(&self, courses: Courses) -> Lowest {
        PerRule {
            held: courses.held.lowest,
            read_first: courses.read_first.lowest,
            few_reserves: courses.few_reserves.lowest,
            reserved_once: courses.reserved_once.lowest,
            written_once: courses.written_once.lowest,
            released: courses.released.lowest,
            bound: courses.bound.lowest,
        }
    }

    fn lines(&self, places: &[Place<'_>], lowest: Lowest) -> LockLines {
        PerRule {
            held: line_at(places, lowest.held),
            read_first: line_at(places, lowest.read_first),
            few_reserves: line_at(places, lowest.few_reserves),
            reserved_once: line_at(places, lowest.reserved_once),
            written_once: line_at(places, lowest.written_once),
            released: line_at(places, lowest.released),
            bound: line_at(places, lowest.bound),
        }
    }

    ghost skip = { λ rules gs xs bits k x now got off h. (
      aside_at (pipe_view rules.bound.pipe.now) rules.bound.places.now at.Held gs xs bits k x
          now.held.state.items now.held.lowest got off h.0,
      aside_of (pipe_view rules.bound.pipe.now) rules.bound.places.now of.ReadFirst gs xs bits k x now.read_first.state.items
          now.read_first.lowest got off h.1,
      aside_of (pipe_view rules.bound.pipe.now) rules.bound.places.now of.FewReserves gs xs bits k x now.few_reserves.state.items
          now.few_reserves.lowest got off h.2,
      aside_at (pipe_view rules.bound.pipe.now) rules.bound.places.now at.ReservedOnce gs xs bits k
          x now.reserved_once.state.items now.reserved_once.lowest got off h.3,
      aside_turn rules.bound.places.now gs xs bits k x now.written_once.state.uses.items
          now.written_once.state.first.items now.written_once.lowest got off h.4,
      aside_at (pipe_view rules.bound.pipe.now) rules.bound.places.now at.Released gs xs bits k x
          now.released.state.items now.released.lowest got off h.5,
      aside_bound (pipe_view rules.bound.pipe.now) rules.bound.guards.now gs xs bits k x
          now.bound.state.bits now.bound.lowest got off h.6,
    ) };
}

/// The rules on locks that are asked on the paths of a pipe, of which these facts are known.
pub fn lock_path_rules<'a, 'p>(
    pipe: &'a Pipe,
    guards: &'a Guards,
    places: &'a [Place<'p>],
    facts: &'a LockFacts,
) -> LockRules<'a, 'p>
    requires few { length guards.now ≤ 10 }
    requires own { guards.now ≡ spec.guards (map place_view places.now) }
    requires masks { AreMasked guards.now places.now }
    requires of { map place_view places.now ≡ spec.places (pipe_view pipe.now) }
    requires facts { AreFacts (pipe_view pipe.now) places.now facts.now }
    ensures suits { ⟦<LockRules<'a, 'p> as PathRules>⟧.suits result guards.now
        (map place_view places.now) }
    ensures lines { (lines : Lines) →
        ⟦<LockRules<'a, 'p> as PathRules>⟧.break_at result guards.now
        (map place_view places.now) lines
        → AreLines (pipe_view pipe.now) lines }
{
    LockRules {
        bound: BoundInTime {
            pipe,
            guards,
            all: all_true(guards),
            places,
            stages: facts.stages.as_slice(),
            last: facts.last.as_slice(),
        },
        locations: facts.locations.as_slice(),
        memories: facts.memories.as_slice(),
    }
}
