// The branches that a place stands in.
ghost use Rattle.std.specs.Prelude.{◌≡◌, List, true, map};
ghost use Rattle.std.specs.List.{list_all};
ghost use Rattle.pdl_rules.specs.Places as rules;
ghost use Rattle.pdl_paths.specs.Actions.{place_view};
ghost use Rattle.pdl_paths.specs.Guards.{branch_view};

use pdl_paths::{Action, Branch, Place, is_same_guard};

/// Whether a place stands in each branch that another stands in, so that each path through it leads through the other.
pub fn is_inside(place: &Place<'_>, other: &Place<'_>) -> bool
    ensures { (path : List rules.Guard) → result ≡ true →
        rules.on_path path (place_view place.now) ≡ true →
        rules.on_path path (place_view other.now) ≡ true }
{
    is_prefix(branches_of(other), branches_of(place))
}

// The branches that decide whether a path leads through a place.
fn branches_of<'a, 'b>(place: &'a Place<'b>) -> &'a [Branch<'b>]
    ensures { (path : List rules.Guard) →
        rules.on_path path (place_view place.now)
        ≡ list_all (rules.is_taken path) (map branch_view result.now) }
{
    match place.action {
        Action::Parameter(_) | Action::Memory(_) | Action::End | Action::StartClause(_) => &place
            .branches
            .as_slice()[..0],
        Action::Separator | Action::CombRead(_, _) | Action::Bind(_, _) => place
            .branches
            .as_slice(),
        Action::SpecCall(_, _) | Action::DelayedRead(_, _) => place.branches.as_slice(),
        Action::Write(_, _) | Action::Reserve(_, _) | Action::Block(_) => place.branches.as_slice(),
        Action::Release(_) | Action::If(_, _, _) | Action::Call(_) => place.branches.as_slice(),
        Action::Verify(_, _) | Action::Update(_, _) => place.branches.as_slice(),
        Action::SpecCheck | Action::SpecBarrier => place.branches.as_slice(),
    }
}

// Whether some branches are the outer ones of others.
fn is_prefix(outer: &[Branch<'_>], inner: &[Branch<'_>]) -> bool
    ensures { (path : List rules.Guard) → result ≡ true →
        list_all (rules.is_taken path) (map branch_view inner.now) ≡ true →
        list_all (rules.is_taken path) (map branch_view outer.now) ≡ true }
{
    if outer.len() > inner.len() {
        return false;
    }
    for i in 0..outer.len() {
        if !is_same(&outer[i], &inner[i]) {
            return false;
        }
    }
    true
}

// Whether two branches are taken on the same paths.
fn is_same(a: &Branch<'_>, b: &Branch<'_>) -> bool
    ensures { (path : List rules.Guard) → result ≡ true →
        rules.is_taken path (branch_view a.now) ≡ rules.is_taken path (branch_view b.now) }
{
    a.truth == b.truth && is_same_guard(a.guard, b.guard)
}
