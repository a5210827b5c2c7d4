// Numbers of locations or of memories: that of the first place at which one stands.
ghost use Rattle.std.specs.Prelude.{◌≡◌, map, get_or, IfOk};
ghost use Rattle.pdl_syntax_tree.specs.View.{location_view};
ghost use Rattle.pdl_paths.specs.Actions.{place_view};
ghost use Rattle.pdl_locks.specs.Numbers as spec;

use crate::hold::same_location;
use pdl_kit::NoMemory;
use pdl_paths::{Place, location_at};
use pdl_syntax_tree::Location;
use std::alloc::Global;

/// What has one number: a location, by its memory and its address, or a memory with all its locations.
#[derive(Clone, Copy)]
pub enum Keys {
    Locations,
    Memories,
}

impl Keys {
    /// Whether two locations have one number.
    pub fn are_one(self, a: &Location, b: &Location) -> bool
        ensures { result ≡ spec.are_one self (location_view a.now) (location_view b.now) }
    {
        match self {
            Keys::Locations => same_location(a, b),
            Keys::Memories => a.mem.name == b.mem.name,
        }
    }
}

/// For each place the number of the first place at its location, or at one of its memory; how many places there are, where it has none.
pub fn first_places(alloc: Global, keys: Keys, places: &[Place<'_>]) -> Result<Vec<usize>, NoMemory>
    ensures { IfOk result (λ first.
        first.items ≡ map (spec.number_at keys (map place_view places.now))
        (map place_view places.now)) }
{
    let mut first = Vec::new(alloc);
    for place in places {
        first.push(number_at(keys, places, place))?;
    }
    Ok(first)
}

fn number_at(keys: Keys, places: &[Place<'_>], place: &Place<'_>) -> usize
    ensures { result ≡ spec.number_at keys (map place_view places.now) (place_view place.now) }
{
    match location_at(place) {
        Some(at) => first_place(keys, places, at),
        None => places.len(),
    }
}

// The number of the first place at a location or its memory; how many places there are, where it stands at none.
fn first_place(keys: Keys, places: &[Place<'_>], at: &Location) -> usize
    ensures { result ≡ spec.first_place keys (location_view at.now) (map place_view places.now) }
{
    let mut number = 0;
    for place in places {
        if is_at(keys, place, at) {
            return number;
        }
        number += 1;
    }
    number
}

fn is_at(keys: Keys, place: &Place<'_>, at: &Location) -> bool
    ensures { result ≡ spec.is_at keys (location_view at.now) (place_view place.now) }
{
    match location_at(place) {
        Some(other) => keys.are_one(other, at),
        None => false,
    }
}

/// The k-th of some numbers, 0 past the last.
pub fn number_of(numbers: &[usize], k: usize) -> usize
    ensures { result ≡ get_or numbers.now k 0 }
{
    match numbers.get(k) {
        Some(number) => *number,
        None => 0,
    }
}
