// Reserves and guesses of threads that may be wrong: rule S5.
ghost use Rattle.std.specs.Prelude.{◌≡◌, ◌==◌, ◌&&◌, not, []};
ghost use Rattle.std.specs.List.{list_any};
ghost use Rattle.pdl_rules.specs.Stages.{stages_that};
ghost use Rattle.pdl_rules.specs.Speculation as spec;
ghost use Rattle.pdl_paths.specs.Actions.{place_view};
ghost use Rattle.pdl_rules_stages.specs.Stages.{stages_in};
ghost use Rattle.pdl_spec.specs.Checked.{breaks_checked, is_check_on, unchecked};

use crate::sure::is_before;
use pdl_kit::NoMemory;
use pdl_paths::{Action, Path, Place};
use pdl_rules_on_paths::PathRule;
use pdl_rules_stages::stage_at;
use std::alloc::Global;

/// A reserve or a guess before the stage that verifies guesses stands after a `spec_check` or `spec_barrier` of its stage.
#[derive(Clone, Copy)]
pub struct CheckedFirst<'a> {
    /// For each place of the pipe its stage.
    pub stages: &'a [usize],
    /// The stage that verifies guesses, none where nothing does.
    pub verified: Option<usize>,
}

impl PathRule for CheckedFirst<'_> {
    // The stages of the checks passed.
    type State = Vec<usize>;

    ghost suits = { λ rule gs xs. rule.stages.now ≡ stages_in xs };

    ghost breaks_on = { λ rule path before x. breaks_checked rule.verified path before x };

    ghost stands = { λ rule path before state.
        state.items ≡ stages_that (is_check_on path) [] before };

    fn start(&self, alloc: Global, _path: Path) -> Result<Vec<usize>, NoMemory> {
        Ok(Vec::new(alloc))
    }

    fn breaks(&self, state: &Vec<usize>, k: usize, place: &Place<'_>) -> bool {
        let stage = stage_at(self.stages, k);
        is_unchecked(
            needs_check(place),
            is_before(self.verified, stage),
            is_among(state, stage),
        )
    }

    fn step(&self, state: &mut Vec<usize>, k: usize, place: &Place<'_>) -> Result<(), NoMemory> {
        if is_check(place) {
            state.push(stage_at(self.stages, k))?;
        }
        Ok(())
    }

    ghost skips = { λ rule path before x state off stands.
        unchecked path before x state.items off stands };
}

fn is_unchecked(needs: bool, early: bool, checked: bool) -> bool
    ensures { result ≡ ((needs && early) && not checked) }
{
    needs && early && !checked
}

fn is_among(stages: &[usize], stage: usize) -> bool
    ensures { result ≡ list_any (λ k. k == stage) stages.now }
{
    for other in stages {
        if *other == stage {
            return true;
        }
    }
    false
}

fn needs_check(place: &Place<'_>) -> bool
    ensures { result ≡ spec.needs_check (place_view place.now) }
{
    match place.action {
        Action::Reserve(_, _) | Action::SpecCall(_, _) => true,
        Action::Parameter(_) | Action::Memory(_) | Action::Separator | Action::Bind(_, _) => false,
        Action::CombRead(_, _) | Action::DelayedRead(_, _) | Action::Write(_, _) => false,
        Action::Block(_) | Action::Release(_) | Action::If(_, _, _) | Action::Call(_) => false,
        Action::Verify(_, _) | Action::Update(_, _) | Action::SpecCheck => false,
        Action::SpecBarrier => false,
        Action::End | Action::StartClause(_) => false,
    }
}

fn is_check(place: &Place<'_>) -> bool
    ensures { result ≡ spec.is_check (place_view place.now) }
{
    match place.action {
        Action::SpecCheck | Action::SpecBarrier => true,
        Action::Parameter(_) | Action::Memory(_) | Action::Separator | Action::Bind(_, _) => false,
        Action::CombRead(_, _) | Action::DelayedRead(_, _) | Action::Write(_, _) => false,
        Action::SpecCall(_, _) | Action::Block(_) | Action::Reserve(_, _) => false,
        Action::Release(_) | Action::If(_, _, _) | Action::Call(_) | Action::Verify(_, _) => false,
        Action::Update(_, _) => false,
        Action::End | Action::StartClause(_) => false,
    }
}
