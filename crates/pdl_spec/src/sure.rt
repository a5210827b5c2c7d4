// Releases of writes that may be those of a wrong guess: rule S4.
ghost use Rattle.std.specs.Prelude.{◌≡◌, List, filter};
ghost use Rattle.std.specs.List.{list_any};
ghost use Rattle.pdl_rules.specs.Places as rules;
ghost use Rattle.pdl_rules.specs.Places.{on_path};
ghost use Rattle.pdl_rules.specs.Speculation as spec;
ghost use Rattle.pdl_paths.specs.Actions.{place_view};
ghost use Rattle.pdl_locks.specs.Uses.{IsOwn, IsUsed};
ghost use Rattle.pdl_spec.specs.Sure.{AreOfPlaces, IsSure, breaks_sure, is_before as spec_is_before, passed_over};

use pdl_kit::NoMemory;
use pdl_locks::{LocationUse, number_of, pass, use_at};
use pdl_paths::{Action, Path, Place};
use pdl_rules_on_paths::PathRule;
use pdl_rules_stages::stage_at;
use pdl_syntax_tree::AccessKind;
use std::alloc::Global;

/// A reservation to write is released in the stage that verifies guesses or later, or after a `spec_barrier`.
#[derive(Clone, Copy)]
pub struct ReleasedSure<'a, 'p> {
    /// The places of the pipe.
    pub places: &'a [Place<'p>],
    /// For each of them the number of the first one at its location.
    pub first: &'a [usize],
    /// For each of them its stage.
    pub stages: &'a [usize],
    /// The stage that verifies guesses, none where nothing does.
    pub verified: Option<usize>,
}

/// What a path did so far.
#[derive(Drop)]
pub struct Sure {
    // At each location, by the number of its first place.
    uses: Vec<LocationUse>,
    // Whether it passed a barrier.
    barrier: bool,
}

impl PathRule for ReleasedSure<'_, '_> {
    type State = Sure;

    ghost suits = { λ rule gs xs. AreOfPlaces rule.places.now rule.first.now rule.stages.now xs };

    ghost breaks_on = { λ rule path before x. breaks_sure rule.verified path before x };

    ghost stands = { λ rule path before state.
        IsSure rule.places.now (filter (on_path path) before) state.uses.items state.barrier };

    fn start(&self, alloc: Global, _path: Path) -> Result<Sure, NoMemory> {
        Ok(Sure {
            uses: vec![in alloc; LocationUse::none(); self.places.len()]?,
            barrier: false,
        })
    }

    fn breaks(&self, state: &Sure, k: usize, place: &Place<'_>) -> bool {
        let used = use_at(
            state.uses.as_slice(),
            number_of(self.first, k),
            LocationUse::none(),
        );
        is_before(self.verified, stage_at(self.stages, k)) && is_unsure(used, state.barrier, place)
    }

    fn step(&self, state: &mut Sure, k: usize, place: &Place<'_>) -> Result<(), NoMemory> {
        pass(self.first, &mut state.uses, k, place);
        state.barrier = state.barrier || is_barrier(place);
        Ok(())
    }

    ghost skips = { λ rule path before x state off stands.
        passed_over rule.places.now path before x state.uses.items state.barrier off stands };
}

/// Whether a stage is before the one that verifies guesses.
pub fn is_before(verified: Option<usize>, stage: usize) -> bool
    ensures { result ≡ spec_is_before verified stage }
{
    match verified {
        Some(verified) => stage < verified,
        None => false,
    }
}

// Whether a place with this use of its location releases a write while the thread may be wrong.
fn is_unsure(used: LocationUse, barrier: bool, place: &Place<'_>) -> bool
    ensures { (earlier : List rules.Place) → IsOwn IsUsed used earlier (place_view place.now) →
        barrier ≡ list_any spec.is_barrier earlier →
        result ≡ spec.releases_unsure earlier (place_view place.now) }
{
    match place.action {
        Action::Release(_) => used.hold.is_held_for(AccessKind::W) && !barrier,
        Action::Parameter(_) | Action::Memory(_) | Action::Separator | Action::Bind(_, _) => false,
        Action::CombRead(_, _) | Action::DelayedRead(_, _) | Action::Write(_, _) => false,
        Action::SpecCall(_, _) | Action::Block(_) | Action::Reserve(_, _) => false,
        Action::If(_, _, _) | Action::Call(_) | Action::Verify(_, _) => false,
        Action::Update(_, _) | Action::SpecCheck => false,
        Action::SpecBarrier | Action::End | Action::StartClause(_) => false,
    }
}

fn is_barrier(place: &Place<'_>) -> bool
    ensures { result ≡ spec.is_barrier (place_view place.now) }
{
    match place.action {
        Action::SpecBarrier => true,
        Action::Parameter(_) | Action::Memory(_) | Action::Separator | Action::Bind(_, _) => false,
        Action::CombRead(_, _) | Action::DelayedRead(_, _) | Action::Write(_, _) => false,
        Action::SpecCall(_, _) | Action::Block(_) | Action::Reserve(_, _) => false,
        Action::Release(_) | Action::If(_, _, _) | Action::Call(_) | Action::Verify(_, _) => false,
        Action::Update(_, _) => false,
        Action::SpecCheck | Action::End | Action::StartClause(_) => false,
    }
}
