// Second guesses on paths: rule S6.
ghost use Rattle.std.specs.Prelude.{◌≡◌, ◌++◌, ◌∷◌, ◌||◌, [], ℕ, List, false, not, nat_lt, bytes_eq, if◌then◌else◌, OnOk, MatchOption};
ghost use Rattle.std.specs.List.{list_any};
ghost use Rattle.pdl_rules.specs.Parts.{is_some_and};
ghost use Rattle.pdl_rules.specs.Speculation as spec;
ghost use Rattle.pdl_paths.specs.Actions.{place_view};
ghost use Rattle.pdl_rules_stages.specs.Stages.{stages_in};
ghost use Rattle.pdl_spec.specs.Updated.{AreGuessed, breaks_updated, passed_over, stages_of};

use pdl_kit::{Name, NoMemory};
use pdl_paths::{Action, Path, Place};
use pdl_rules_on_paths::PathRule;
use pdl_rules_stages::{is_update, stage_at};
use std::alloc::Global;

/// A path has one `update`, in a later stage than its guess's `spec_call` and in a stage before the one that verifies guesses.
#[derive(Clone, Copy)]
pub struct UpdatedOnce<'a> {
    /// For each place of the pipe its stage.
    pub stages: &'a [usize],
    /// The stage that verifies guesses, none where nothing does.
    pub verified: Option<usize>,
}

/// What a path did so far.
#[derive(Drop)]
pub struct Guessed {
    // The guesses that it made.
    guesses: Vec<Guess>,
    // Whether it passed an `update`.
    updated: bool,
}

/// A guess, and the stage in which it was made.
#[derive(Drop)]
pub struct Guess {
    name: Name,
    stage: usize,
}

impl PathRule for UpdatedOnce<'_> {
    type State = Guessed;

    ghost suits = { λ rule gs xs. rule.stages.now ≡ stages_in xs };

    ghost breaks_on = { λ rule path before x. breaks_updated rule.verified path before x };

    ghost stands = { λ rule path before state.
        AreGuessed path before state.guesses.items state.updated };

    fn start(&self, alloc: Global, _path: Path) -> Result<Guessed, NoMemory> {
        Ok(Guessed {
            guesses: Vec::new(alloc),
            updated: false,
        })
    }

    fn breaks(&self, state: &Guessed, k: usize, place: &Place<'_>) -> bool {
        match place.action {
            Action::Update(guess, _) => {
                let stage = stage_at(self.stages, k);
                is_amiss(
                    is_guessed_late(state.guesses.as_slice(), &guess.name, stage),
                    is_past(self.verified, stage),
                    state.updated,
                )
            }
            Action::Parameter(_) | Action::Memory(_) | Action::Separator => false,
            Action::CombRead(_, _) | Action::Bind(_, _) | Action::DelayedRead(_, _) => false,
            Action::Write(_, _) | Action::Reserve(_, _) | Action::Block(_) => false,
            Action::Release(_) | Action::If(_, _, _) | Action::Call(_) => false,
            Action::Verify(_, _) | Action::SpecCall(_, _) | Action::SpecCheck => false,
            Action::SpecBarrier => false,
            Action::End | Action::StartClause(_) => false,
        }
    }

    fn step(&self, state: &mut Guessed, k: usize, place: &Place<'_>) -> Result<(), NoMemory> {
        remember(&mut state.guesses, place, stage_at(self.stages, k))?;
        state.updated = is_updated(state.updated, place);
        Ok(())
    }

    ghost skips = { λ rule path before x state off stands.
        passed_over path before x state.guesses.items state.updated off stands };
}

fn is_amiss(guessed_late: bool, past: bool, second: bool) -> bool
    ensures { result ≡ (guessed_late || past || second) }
{
    guessed_late || past || second
}

// Whether a stage is the one that verifies guesses, or after it.
fn is_past(verified: Option<usize>, stage: usize) -> bool
    ensures { result ≡ is_some_and (λ v. not (nat_lt stage v)) verified }
{
    match verified {
        Some(verified) => stage >= verified,
        None => false,
    }
}

// Whether this guess was made in this stage or a later one.
fn is_guessed_late(guesses: &[Guess], name: &Name, stage: usize) -> bool
    ensures { result ≡ list_any (λ j. not (nat_lt j stage)) (stages_of name.now guesses.now) }
{
    for guess in guesses {
        if guess.name == *name && guess.stage >= stage {
            return true;
        }
    }
    false
}

// Whether an `update` was passed, with one place more.
fn is_updated(before: bool, place: &Place<'_>) -> bool
    ensures { result ≡ (before || spec.is_update (place_view place.now)) }
{
    before || is_update(place)
}

// Adds the guess that a place in this stage makes, if it makes one.
fn remember(guesses: &mut Vec<Guess>, place: &Place<'_>, stage: usize) -> Result<(), NoMemory>
    ensures { OnOk result ((name : List ℕ) → stages_of name guesses.new.items
        ≡ stages_of name guesses.old.items
        ++ (if spec.is_guess_of name (place_view place.now) then stage ∷ [] else [])) }
{
    match guess_at(place) {
        Some(guess) => {
            let name = guess.clone()?;
            guesses.push(Guess { name, stage })?;
            Ok(())
        }
        None => Ok(()),
    }
}

// The guess that a place makes.
fn guess_at<'a>(place: &Place<'a>) -> Option<&'a Name>
    ensures { MatchOption result
        ((name : List ℕ) → spec.is_guess_of name (place_view place.now) ≡ false) (λ guess.
        (name : List ℕ) →
        spec.is_guess_of name (place_view place.now) ≡ bytes_eq guess.now name) }
{
    match place.action {
        Action::SpecCall(guess, _) => Some(&guess.name),
        Action::Parameter(_) | Action::Memory(_) | Action::Separator => None,
        Action::CombRead(_, _) | Action::Bind(_, _) | Action::DelayedRead(_, _) => None,
        Action::Write(_, _) | Action::Verify(_, _) | Action::Reserve(_, _) => None,
        Action::Block(_) | Action::Release(_) | Action::If(_, _, _) | Action::Call(_) => None,
        Action::Update(_, _) | Action::SpecCheck | Action::SpecBarrier => None,
        Action::End | Action::StartClause(_) => None,
    }
}
