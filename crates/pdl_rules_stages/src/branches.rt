// Whether some branches are the outer ones of others.
ghost use Rattle.std.specs.Prelude.{◌≡◌, map};
ghost use Rattle.pdl_rules.specs.Stages as spec;
ghost use Rattle.pdl_paths.specs.Guards.{branch_view};

use pdl_paths::{Branch, is_same_guard};

fn same_branch(a: &Branch<'_>, b: &Branch<'_>) -> bool
    ensures { result ≡ spec.same_branch (branch_view a.now) (branch_view b.now) }
{
    is_same_guard(a.guard, b.guard) && a.truth == b.truth
}

/// Whether what stands in the second branches stands in the first ones too.
pub fn are_outer(outer: &[Branch<'_>], branches: &[Branch<'_>]) -> bool
    ensures { result ≡ spec.are_outer (map branch_view outer.now) (map branch_view branches.now) }
{
    if outer.len() > branches.len() {
        return false;
    }
    for k in 0..outer.len() {
        if !same_branch(&outer[k], &branches[k]) {
            return false;
        }
    }
    true
}
