// The sides of a fork on which a stage stands.
ghost use Rattle.std.specs.Prelude.{◌≡◌, ◌==◌, ◌++◌, is_some};
ghost use Rattle.pdl_semantics.specs.Flat as flat;
ghost use Rattle.pdl_semantics.specs.Stages as stages;
ghost use Rattle.pdl_form.specs.View.{branch_view, branches_view};
ghost use Rattle.pdl_form.specs.Sides.{listed, first_of};

use crate::form::{FlatBranch, FlatBranches};

/// On which side of fork f this branch is, if it is one of its.
pub fn side_of(branch: Option<FlatBranch>, f: usize) -> Option<bool>
    ensures { listed result ≡ stages.sides_of f (branch_view branch) }
{
    match branch {
        Some(branch) if branch.fork == f => Some(branch.first),
        Some(_) | None => None,
    }
}

// The first of these sides that there is.
fn or_side(first: Option<bool>, second: Option<bool>) -> Option<bool>
    ensures { result ≡ first_of (listed first ++ listed second) }
{
    match first {
        Some(_) => first,
        None => second,
    }
}

/// On which side of fork f a stage in these branches stands, if it stands in one of its.
pub fn side_in(branches: FlatBranches, f: usize) -> Option<bool>
    ensures value { result ≡ first_of (stages.sides_of f (branches_view branches)) }
    ensures is { is_some result ≡ stages.list_any (λ (b : flat.Branch). b.fork == f)
        (branches_view branches) }
{
    let inner = or_side(side_of(branches.first, f), side_of(branches.second, f));
    let outer = or_side(side_of(branches.third, f), side_of(branches.fourth, f));
    or_side(inner, outer)
}
