// The rules F1 to F5 of a place.
ghost use Rattle.std.specs.Prelude.{◌≡◌, map, List};
ghost use Rattle.std.specs.List.{list_any};
ghost use Rattle.pdl_semantics.specs.Tree as tree;
ghost use Rattle.pdl_syntax_tree.specs.View.{pipe_view, mem_view, stmts_view};
ghost use Rattle.pdl_rules.specs.Places as spec;
ghost use Rattle.pdl_rules.specs.Forks as forks;
ghost use Rattle.pdl_rules.specs.Locks as locks;
ghost use Rattle.pdl_paths.specs.Actions.{place_view};
ghost use Rattle.pdl_paths.specs.Guards.{branch_view};
ghost use Rattle.pdl_rules_judge.specs.ForkOrder.{is_wrong_fork as spec_wrong_fork, is_unfollowed as spec_unfollowed, is_cut_in as spec_cut_in};

use crate::inside::{holds_separator, left_after};
use pdl_kit::Name;
use pdl_paths::{Action, Branch, Place, branches_at, is_locked, is_separator};
use pdl_rules_stages::{are_outer, begun_before, stage_in};
use pdl_syntax_tree::{Mem, Pipe, Stmt, is_advisory};

// Whether one of these branches holds a separator.
fn is_some_cut(branches: &[Branch<'_>]) -> bool
    ensures { result ≡ list_any (λ (b : spec.Branch). forks.holds_separator b.inside)
        (map branch_view branches.now) }
{
    for branch in branches {
        if holds_separator(branch.inside) {
            return true;
        }
    }
    false
}

/// Whether the place is a statement of locks, calls or guesses in a branch that holds a separator.
pub fn breaks_f1(place: &Place<'_>) -> bool
    ensures { result ≡ forks.breaks_f1 (place_view place.now) }
{
    let branches = place.branches.as_slice();
    match place.action {
        Action::SpecCall(_, _) | Action::Reserve(_, _) => is_some_cut(branches),
        Action::Release(_) | Action::Call(_) | Action::Verify(_, _) => is_some_cut(branches),
        Action::Update(_, _) | Action::SpecCheck | Action::SpecBarrier => is_some_cut(branches),
        Action::Parameter(_) | Action::Memory(_) | Action::Separator => false,
        Action::CombRead(_, _) | Action::Bind(_, _) | Action::DelayedRead(_, _) => false,
        Action::Write(_, _) | Action::Block(_) | Action::If(_, _, _) => false,
        Action::End | Action::StartClause(_) => false,
    }
}

// Whether a place is a separator that stands in just these branches.
fn is_cut_in(branches: &[Branch<'_>], place: &Place<'_>) -> bool
    ensures { result ≡ spec_cut_in (map branch_view branches.now) (place_view place.now) }
{
    is_separator(place)
        && (are_outer(branches_at(place), branches) && are_outer(branches, branches_at(place)))
}

// Whether no separator in these branches follows what stands inside an `if`, where `later` are the places after the `if`.
fn is_unfollowed(
    when: &[Stmt],
    otherwise: &[Stmt],
    branches: &[Branch<'_>],
    later: &[Place<'_>],
) -> bool
    ensures { result ≡ spec_unfollowed (stmts_view when.now) (stmts_view otherwise.now)
        (map branch_view branches.now) (map place_view later.now) }
{
    let left = left_after(otherwise, left_after(when, later.len()));
    if left == 0 {
        return true;
    }
    !is_cut_in(branches, &later[later.len() - left])
}

// Whether what stands in these branches stands in the stage of the fork around it.
fn is_in_outer_stage(before: &[Place<'_>], branches: &[Branch<'_>]) -> bool
    ensures { result ≡ forks.is_in_outer_stage (map place_view before.now)
        (map branch_view branches.now) }
{
    if branches.is_empty() {
        return false;
    }
    stage_in(before, branches) == stage_in(before, &branches[..branches.len() - 1])
}

// Whether an `if` with these branches is a fork of the fifth level, one in the stage of the fork around it, or one that no separator follows.
fn is_wrong_fork(
    when: &[Stmt],
    otherwise: &[Stmt],
    before: &[Place<'_>],
    branches: &[Branch<'_>],
    later: &[Place<'_>],
) -> bool
    ensures { result ≡ spec_wrong_fork (stmts_view when.now) (stmts_view otherwise.now)
        (map place_view before.now) (map branch_view branches.now) (map place_view later.now) }
{
    (holds_separator(when) || holds_separator(otherwise))
        && (branches.len() == 4
            || is_in_outer_stage(before, branches)
            || is_unfollowed(when, otherwise, branches, later))
}

/// Whether the place, with these places before and after it, is a fork of the fifth level, one in the stage of the fork around it, or one that no separator follows directly.
pub fn breaks_f2(before: &[Place<'_>], place: &Place<'_>, later: &[Place<'_>]) -> bool
    ensures { (p : tree.Pipe) →
        spec.places_after p (map place_view before.now) ≡ map place_view later.now →
        result ≡ forks.breaks_f2 p (map place_view before.now) (place_view place.now) }
{
    match place.action {
        Action::If(_, when, otherwise) => {
            is_wrong_fork(when, otherwise, before, place.branches.as_slice(), later)
        }
        Action::Parameter(_) | Action::Memory(_) | Action::Separator => false,
        Action::CombRead(_, _) | Action::Bind(_, _) | Action::SpecCall(_, _) => false,
        Action::DelayedRead(_, _) | Action::Write(_, _) | Action::Reserve(_, _) => false,
        Action::Block(_) | Action::Release(_) | Action::Call(_) | Action::Verify(_, _) => false,
        Action::Update(_, _) => false,
        Action::SpecCheck | Action::SpecBarrier | Action::End | Action::StartClause(_) => false,
    }
}

// Whether a place is a delayed read of this memory.
fn is_fetch_of(memory: &Name, place: &Place<'_>) -> bool
    ensures { result ≡ forks.breaks_fetch_order memory.now (place_view place.now) }
{
    match place.action {
        Action::DelayedRead(_, at) => at.mem.name == *memory,
        Action::Parameter(_) | Action::Memory(_) | Action::Separator => false,
        Action::CombRead(_, _) | Action::Bind(_, _) | Action::SpecCall(_, _) => false,
        Action::Write(_, _) | Action::Reserve(_, _) | Action::If(_, _, _) => false,
        Action::Block(_) | Action::Release(_) | Action::Call(_) | Action::Verify(_, _) => false,
        Action::Update(_, _) => false,
        Action::SpecCheck | Action::SpecBarrier | Action::End | Action::StartClause(_) => false,
    }
}

fn is_fetched(memory: &Name, before: &[Place<'_>]) -> bool
    ensures { result ≡ list_any (forks.breaks_fetch_order memory.now) (map place_view before.now) }
{
    for place in before {
        if is_fetch_of(memory, place) {
            return true;
        }
    }
    false
}

/// Whether the place, with these places before it of all places, is a delayed read in the last stage, or the second one of its memory.
pub fn breaks_f3(place: &Place<'_>, before: &[Place<'_>], all: &[Place<'_>]) -> bool
    ensures { (p : tree.Pipe) → spec.places p ≡ map place_view all.now →
        result ≡ forks.breaks_f3 p (map place_view before.now) (place_view place.now) }
{
    match place.action {
        Action::DelayedRead(_, at) => {
            stage_in(before, place.branches.as_slice()) == begun_before(all)
                || is_fetched(&at.mem.name, before)
        }
        Action::Parameter(_) | Action::Memory(_) | Action::Separator => false,
        Action::CombRead(_, _) | Action::Bind(_, _) | Action::SpecCall(_, _) => false,
        Action::Write(_, _) | Action::Reserve(_, _) | Action::If(_, _, _) => false,
        Action::Block(_) | Action::Release(_) | Action::Call(_) | Action::Verify(_, _) => false,
        Action::Update(_, _) => false,
        Action::SpecCheck | Action::SpecBarrier | Action::End | Action::StartClause(_) => false,
    }
}

// Whether the memory of this name answers in a later cycle.
fn is_delayed(mems: &[Mem], name: &Name) -> bool
    ensures { result ≡ forks.is_delayed_memory (map mem_view mems.now) name.now }
{
    for mem in mems {
        if mem.name.name == *name {
            return mem.kind.is_delayed();
        }
    }
    false
}

/// Whether the place is a comb read of a delayed memory, or a delayed read of a comb one.
pub fn breaks_f4(pipe: &Pipe, place: &Place<'_>) -> bool
    ensures { result ≡ forks.breaks_f4 (pipe_view pipe.now) (place_view place.now) }
{
    let mems = pipe.mems.as_slice();
    match place.action {
        Action::CombRead(_, at) => is_delayed(mems, &at.mem.name),
        Action::DelayedRead(_, at) => !is_delayed(mems, &at.mem.name),
        Action::Parameter(_) | Action::Memory(_) | Action::Separator => false,
        Action::Bind(_, _) | Action::SpecCall(_, _) | Action::Write(_, _) => false,
        Action::Reserve(_, _) | Action::If(_, _, _) => false,
        Action::Block(_) | Action::Release(_) | Action::Call(_) | Action::Verify(_, _) => false,
        Action::Update(_, _) => false,
        Action::SpecCheck | Action::SpecBarrier | Action::End | Action::StartClause(_) => false,
    }
}

/// Whether the place reserves, blocks, writes or releases a memory without lock; one that is advisory is written without.
pub fn breaks_f5(pipe: &Pipe, place: &Place<'_>) -> bool
    ensures { result ≡ locks.breaks_f5 (pipe_view pipe.now) (place_view place.now) }
{
    let mems = pipe.mems.as_slice();
    match place.action {
        Action::Write(at, _) => {
            !(is_locked(mems, &at.mem.name) || is_advisory(mems, &at.mem.name))
        }
        Action::Reserve(at, _) | Action::Block(at) | Action::Release(at) => {
            !is_locked(mems, &at.mem.name)
        }
        Action::Parameter(_) | Action::Memory(_) | Action::Separator => false,
        Action::CombRead(_, _) | Action::DelayedRead(_, _) | Action::Bind(_, _) => false,
        Action::SpecCall(_, _) | Action::If(_, _, _) => false,
        Action::Call(_) | Action::Verify(_, _) | Action::Update(_, _) => false,
        Action::SpecCheck | Action::SpecBarrier | Action::End | Action::StartClause(_) => false,
    }
}
