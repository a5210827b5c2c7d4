// Guesses that are verified once, in a later stage: rule S2.
ghost use Rattle.std.specs.Prelude.{◌≡◌, ◌≤◌, ◌&&◌, [], List, true, map, length, nat_lt, IfOk};
ghost use Rattle.pdl_syntax_tree.specs.View.{pipe_view};
ghost use Rattle.pdl_rules.specs.Places.{Guard as SpecGuard, on_path};
ghost use Rattle.pdl_rules.specs.Parts.{is_some_and};
ghost use Rattle.pdl_rules.specs.Stages.{stages_that};
ghost use Rattle.pdl_rules.specs.Speculation as spec;
ghost use Rattle.pdl_paths.specs.Actions.{place_view};
ghost use Rattle.pdl_paths.specs.Masks.{IsMasked, are_distinct};
ghost use Rattle.pdl_rules_stages.specs.PathBits.{HavePaths, IsPath};
ghost use Rattle.pdl_rules_stages.specs.Stages.{stages_in};
ghost use Rattle.pdl_spec.specs.Verified.{AreOfPipe, only};

use pdl_kit::{Name, NoMemory};
use pdl_paths::{Action, Guards, Path, Place};
use pdl_rules_on_paths::PathRule;
use pdl_rules_stages::{among, stage_at};
use pdl_syntax_tree::Pipe;
use std::alloc::Global;

/// Each guess that a path makes is verified once on the path, in a later stage.
#[derive(Clone, Copy)]
pub struct VerifiedOnce<'a, 'p> {
    pub pipe: &'a Pipe,
    pub guards: &'a Guards,
    /// The path on which each guard is true.
    pub all: Path,
    /// The places of the pipe.
    pub places: &'a [Place<'p>],
    /// For each of them its stage.
    pub stages: &'a [usize],
}

impl PathRule for VerifiedOnce<'_, '_> {
    // The path.
    type State = Path;

    ghost suits = { λ rule gs xs. AreOfPipe
        (pipe_view rule.pipe.now) rule.guards.now rule.all.bits rule.places.now rule.stages.now gs
        xs };

    ghost breaks_on = { λ rule path before x.
        spec.is_unverified (pipe_view rule.pipe.now) path before x };

    ghost stands = { λ rule path before state. IsPath rule.guards.now path state.bits };

    fn start(&self, _alloc: Global, path: Path) -> Result<Path, NoMemory> {
        Ok(among(self.all, path))
    }

    fn breaks(&self, state: &Path, k: usize, place: &Place<'_>) -> bool {
        match place.action {
            Action::SpecCall(guess, _) => {
                let verify = only_verify(self.places, self.stages, *state, &guess.name);
                !is_after(verify, stage_at(self.stages, k))
            }
            Action::Parameter(_) | Action::Memory(_) | Action::Separator => false,
            Action::CombRead(_, _) | Action::Bind(_, _) | Action::DelayedRead(_, _) => false,
            Action::Write(_, _) | Action::Reserve(_, _) | Action::Block(_) => false,
            Action::Release(_) | Action::If(_, _, _) | Action::Call(_) => false,
            Action::Verify(_, _) | Action::Update(_, _) | Action::SpecCheck => false,
            Action::SpecBarrier => false,
            Action::End | Action::StartClause(_) => false,
        }
    }

    fn step(&self, _state: &mut Path, _k: usize, _place: &Place<'_>) -> Result<(), NoMemory> {
        Ok(())
    }

    ghost skips = { λ rule path before x state off stands. stands };
}

fn is_after(verify: Option<usize>, stage: usize) -> bool
    ensures { result ≡ is_some_and (λ v. nat_lt stage v) verify }
{
    match verify {
        Some(verify) => stage < verify,
        None => false,
    }
}

// The stage of the only `verify` of a guess on a path, none where there is none or more than one.
fn only_verify(places: &[Place<'_>], stages: &[usize], path: Path, guess: &Name) -> Option<usize>
    ensures { (gs on : List SpecGuard) → HavePaths gs places.now → IsPath gs on path.bits →
        stages.now ≡ stages_in (map place_view places.now) →
        result ≡ only (stages_that (λ y. on_path on y && spec.is_verify_of guess.now y) []
        (map place_view places.now)) }
{
    let mut found = None;
    for k in 0..places.len() {
        if is_verify_on(&places[k], path, guess) {
            match found {
                Some(_) => return None,
                None => found = Some(stage_at(stages, k)),
            }
        }
    }
    found
}

// Whether the path leads through the place, and it verifies the guess.
fn is_verify_on(place: &Place<'_>, path: Path, guess: &Name) -> bool
    ensures { (gs on : List SpecGuard) → IsMasked gs place.now → are_distinct gs ≡ true →
        length gs ≤ 10 → IsPath gs on path.bits →
        result ≡ (on_path on (place_view place.now)
        && spec.is_verify_of guess.now (place_view place.now)) }
{
    place.is_on(path) && is_verify_of(place, guess)
}

fn is_verify_of(place: &Place<'_>, guess: &Name) -> bool
    ensures { result ≡ spec.is_verify_of guess.now (place_view place.now) }
{
    match place.action {
        Action::Verify(other, _) => other.name == *guess,
        Action::Parameter(_) | Action::Memory(_) | Action::Separator => false,
        Action::CombRead(_, _) | Action::Bind(_, _) | Action::DelayedRead(_, _) => false,
        Action::Write(_, _) | Action::SpecCall(_, _) | Action::Reserve(_, _) => false,
        Action::Block(_) | Action::Release(_) | Action::If(_, _, _) | Action::Call(_) => false,
        Action::Update(_, _) | Action::SpecCheck | Action::SpecBarrier => false,
        Action::End | Action::StartClause(_) => false,
    }
}
