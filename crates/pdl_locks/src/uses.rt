// What was done so far on a path, at a location and with a memory.
ghost use Rattle.std.specs.Prelude.{◌≡◌, ℕ, ◌+◌, [], ◌∷◌, ◌++◌, List, cond, min, get_or, Some};
ghost use Rattle.pdl_semantics.specs.Tree.{Location as SpecLocation};
ghost use Rattle.pdl_syntax_tree.specs.View.{kind_view};
ghost use Rattle.pdl_rules.specs.Places as rules;
ghost use Rattle.pdl_rules.specs.Locks as spec;
ghost use Rattle.pdl_paths.specs.Actions.{location_at as spec_location_at, place_view};
ghost use Rattle.pdl_locks.specs.Uses.{IsUsed, IsUsedMemory};

use crate::hold::{Hold, same_kind};
use pdl_paths::{Action, Place};
use pdl_syntax_tree::AccessKind;

/// What was done so far at a location. Writes count up to two.
#[derive(Clone, Copy)]
pub struct LocationUse {
    pub hold: Hold,
    pub reserved: bool,
    pub writes: u8,
}

impl LocationUse {
    /// The use of a location at which nothing was done.
    pub fn none() -> LocationUse
        ensures { (l : SpecLocation) → IsUsed result l [] }
    {
        LocationUse {
            hold: Hold::Nothing,
            reserved: false,
            writes: 0,
        }
    }

    /// The use of a place's own location after the place.
    pub fn after(self, place: &Place<'_>) -> LocationUse
        ensures { (l : SpecLocation) (earlier : List rules.Place) →
            spec_location_at (place_view place.now) ≡ Some l → IsUsed self l earlier →
            IsUsed result l (earlier ++ place_view place.now ∷ []) }
    {
        LocationUse {
            hold: self.hold.after(place),
            reserved: self.reserved || is_reserve(place),
            writes: up_to(2, self.writes, is_write(place)),
        }
    }
}

/// What was done so far with a memory. Read reservations count up to four, write reservations up to two.
#[derive(Clone, Copy)]
pub struct MemoryUse {
    pub reads: u8,
    /// How often it was reserved to write.
    pub reserves: u8,
    pub written: bool,
}

impl MemoryUse {
    /// The use of a memory with which nothing was done.
    pub fn none() -> MemoryUse
        ensures { (l : SpecLocation) → IsUsedMemory result l [] }
    {
        MemoryUse {
            reads: 0,
            reserves: 0,
            written: false,
        }
    }

    /// The use of the memory of a place's own location after the place.
    pub fn after(self, place: &Place<'_>) -> MemoryUse
        ensures { (l : SpecLocation) (earlier : List rules.Place) →
            spec_location_at (place_view place.now) ≡ Some l → IsUsedMemory self l earlier →
            IsUsedMemory result l (earlier ++ place_view place.now ∷ []) }
    {
        MemoryUse {
            reads: up_to(4, self.reads, is_reserve_for(place, AccessKind::R)),
            reserves: up_to(2, self.reserves, is_reserve_for(place, AccessKind::W)),
            written: self.written || is_write(place),
        }
    }
}

// One more, up to a most.
fn up_to(most: u8, count: u8, more: bool) -> u8
    ensures { (all : ℕ) → count ≡ min most all → result ≡ min most (all + cond more 1 0) }
{
    if more && count < most {
        count + 1
    } else {
        count
    }
}

fn is_reserve(place: &Place<'_>) -> bool
    ensures { (l : SpecLocation) → spec_location_at (place_view place.now) ≡ Some l →
        result ≡ spec.reserves_location l (place_view place.now) }
{
    match place.action {
        Action::Reserve(_, _) => true,
        Action::Parameter(_) | Action::Memory(_) | Action::Separator => false,
        Action::CombRead(_, _) | Action::Bind(_, _) | Action::DelayedRead(_, _) => false,
        Action::Write(_, _) | Action::SpecCall(_, _) | Action::Block(_) => false,
        Action::Release(_) | Action::If(_, _, _) | Action::Call(_) | Action::Verify(_, _) => false,
        Action::Update(_, _) => false,
        Action::SpecCheck | Action::SpecBarrier | Action::End | Action::StartClause(_) => false,
    }
}

/// Whether a place reserves its location for this kind.
pub fn is_reserve_for(place: &Place<'_>, kind: AccessKind) -> bool
    ensures { (l : SpecLocation) → spec_location_at (place_view place.now) ≡ Some l →
        result ≡ spec.is_reserve_of (kind_view kind) l.mem.name (place_view place.now) }
{
    match place.action {
        Action::Reserve(_, other) => same_kind(kind, other),
        Action::Parameter(_) | Action::Memory(_) | Action::Separator => false,
        Action::CombRead(_, _) | Action::Bind(_, _) | Action::DelayedRead(_, _) => false,
        Action::Write(_, _) | Action::SpecCall(_, _) | Action::Block(_) => false,
        Action::Release(_) | Action::If(_, _, _) | Action::Call(_) | Action::Verify(_, _) => false,
        Action::Update(_, _) => false,
        Action::SpecCheck | Action::SpecBarrier | Action::End | Action::StartClause(_) => false,
    }
}

fn is_write(place: &Place<'_>) -> bool
    ensures at { (l : SpecLocation) → spec_location_at (place_view place.now) ≡ Some l →
        result ≡ spec.writes_location l (place_view place.now) }
    ensures of { (l : SpecLocation) → spec_location_at (place_view place.now) ≡ Some l →
        result ≡ spec.is_write_of l.mem.name (place_view place.now) }
{
    match place.action {
        Action::Write(_, _) => true,
        Action::Parameter(_) | Action::Memory(_) | Action::Separator => false,
        Action::CombRead(_, _) | Action::Bind(_, _) | Action::DelayedRead(_, _) => false,
        Action::Reserve(_, _) | Action::SpecCall(_, _) | Action::Block(_) => false,
        Action::Release(_) | Action::If(_, _, _) | Action::Call(_) | Action::Verify(_, _) => false,
        Action::Update(_, _) => false,
        Action::SpecCheck | Action::SpecBarrier | Action::End | Action::StartClause(_) => false,
    }
}

/// The use that has a number, `none` past the last.
pub fn use_at<T: Copy>(uses: &[T], number: usize, none: T) -> T
    ensures { result ≡ get_or uses.now number none }
{
    match uses.get(number) {
        Some(found) => *found,
        None => none,
    }
}
