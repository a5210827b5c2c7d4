// What is held of a location.
ghost use Rattle.std.specs.Prelude.{◌≡◌, Some};
ghost use Rattle.pdl_syntax_tree.specs.View.{kind_view, location_view};
ghost use Rattle.pdl_semantics.specs.Tree.{Location as SpecLocation};
ghost use Rattle.pdl_rules.specs.Locks as spec;
ghost use Rattle.pdl_paths.specs.Actions.{location_at as spec_location_at, place_view};
ghost use Rattle.pdl_locks.specs.Holds.{hold_view};

use pdl_paths::{Action, Place};
use pdl_syntax_tree::{AccessKind, Location};

/// What a thread holds of a location.
#[derive(Clone, Copy)]
pub enum Hold {
    Nothing,
    Reserved(AccessKind),
    Blocked(AccessKind),
    Released,
}

/// Whether two locations have the same names: the memory's and the address's.
pub fn same_location(a: &Location, b: &Location) -> bool
    ensures { result ≡ spec.same_location (location_view a.now) (location_view b.now) }
{
    a.mem.name == b.mem.name && a.address.name == b.address.name
}

/// Whether both are for reading or both for writing.
pub fn same_kind(a: AccessKind, b: AccessKind) -> bool
    ensures { result ≡ spec.same_kind (kind_view a) (kind_view b) }
{
    match (a, b) {
        (AccessKind::R, AccessKind::R) | (AccessKind::W, AccessKind::W) => true,
        (AccessKind::R, AccessKind::W) | (AccessKind::W, AccessKind::R) => false,
    }
}

impl Hold {
    /// Whether the location is reserved and not blocked yet.
    pub fn is_reserved(self) -> bool
        ensures { result ≡ spec.is_reserved (hold_view self) }
    {
        match self {
            Hold::Reserved(_) => true,
            Hold::Nothing | Hold::Blocked(_) | Hold::Released => false,
        }
    }

    /// Whether the location is blocked.
    pub fn is_blocked(self) -> bool
        ensures { result ≡ spec.is_blocked (hold_view self) }
    {
        match self {
            Hold::Blocked(_) => true,
            Hold::Nothing | Hold::Reserved(_) | Hold::Released => false,
        }
    }

    /// Whether the location is blocked for this kind of use.
    pub fn is_blocked_for(self, kind: AccessKind) -> bool
        ensures { result ≡ spec.is_blocked_for (kind_view kind) (hold_view self) }
    {
        match self {
            Hold::Blocked(other) => same_kind(kind, other),
            Hold::Nothing | Hold::Reserved(_) | Hold::Released => false,
        }
    }

    /// Whether the location is reserved for this kind of use, blocked or not yet.
    pub fn is_held_for(self, kind: AccessKind) -> bool
        ensures { result ≡ spec.is_held_for (kind_view kind) (hold_view self) }
    {
        match self {
            Hold::Reserved(other) | Hold::Blocked(other) => same_kind(kind, other),
            Hold::Nothing | Hold::Released => false,
        }
    }

    /// Whether the location is reserved and not released yet.
    pub fn is_unreleased(self) -> bool
        ensures { result ≡ spec.is_unreleased (hold_view self) }
    {
        match self {
            Hold::Reserved(_) | Hold::Blocked(_) => true,
            Hold::Nothing | Hold::Released => false,
        }
    }

    /// The hold once it is blocked.
    pub fn blocked(self) -> Hold
        ensures { hold_view result ≡ spec.after_block (hold_view self) }
    {
        match self {
            Hold::Reserved(kind) => Hold::Blocked(kind),
            Hold::Nothing | Hold::Blocked(_) | Hold::Released => self,
        }
    }

    /// The hold of a place's own location after the place.
    pub fn after(self, place: &Place<'_>) -> Hold
        ensures { (l : SpecLocation) → spec_location_at (place_view place.now) ≡ Some l →
            hold_view result ≡ spec.after_place l (hold_view self) (place_view place.now) }
    {
        match place.action {
            Action::Reserve(_, kind) => Hold::Reserved(kind),
            Action::Block(_) => self.blocked(),
            Action::Release(_) => Hold::Released,
            Action::Parameter(_) | Action::Memory(_) | Action::Separator => self,
            Action::CombRead(_, _) | Action::Bind(_, _) | Action::SpecCall(_, _) => self,
            Action::DelayedRead(_, _) | Action::Write(_, _) | Action::If(_, _, _) => self,
            Action::Call(_) | Action::Verify(_, _) | Action::Update(_, _) => self,
            Action::SpecCheck => self,
            Action::SpecBarrier | Action::End | Action::StartClause(_) => self,
        }
    }
}
