// Reads of locked memories that are bound too late: rule L8.
ghost use Rattle.std.specs.Prelude.{◌≡◌, None, map, get_or, nat_lt, IfOk};
ghost use Rattle.pdl_syntax_tree.specs.View.{pipe_view};
ghost use Rattle.pdl_rules.specs.Places.{places as spec_places};
ghost use Rattle.pdl_rules.specs.Parts.{is_some_and};
ghost use Rattle.pdl_rules.specs.Stages.{bound_late};
ghost use Rattle.pdl_paths.specs.Actions.{place_view};
ghost use Rattle.pdl_rules_stages.specs.PathBits.{IsPath};
ghost use Rattle.pdl_rules_stages.specs.Stages.{stages_in};
ghost use Rattle.pdl_locks.specs.Bound.{AreOfPipe, last_at as spec_last_at};

use pdl_kit::NoMemory;
use pdl_paths::{Action, Guards, Path, Place, is_locked, location_at};
use pdl_rules_on_paths::PathRule;
use pdl_rules_stages::{SoughtPlace, among, first_stage, next_on, stage_at};
use pdl_syntax_tree::Pipe;
use std::alloc::Global;

/// Each read of a locked memory is bound no later than in the stage of the memory's releases.
#[derive(Clone, Copy)]
pub struct BoundInTime<'a, 'p> {
    pub pipe: &'a Pipe,
    pub guards: &'a Guards,
    /// The path on which each guard is true.
    pub all: Path,
    /// The places of the pipe.
    pub places: &'a [Place<'p>],
    /// For each of them its stage.
    pub stages: &'a [usize],
    /// For each of them the stage in which its memory is released, where that has a lock.
    pub last: &'a [Option<usize>],
}

impl PathRule for BoundInTime<'_, '_> {
    // The path.
    type State = Path;

    ghost suits = { λ rule gs xs. AreOfPipe
        (pipe_view rule.pipe.now) rule.guards.now rule.all.bits rule.places.now rule.stages.now
        rule.last.now gs xs };

    ghost breaks_on = { λ rule path before x. bound_late (pipe_view rule.pipe.now) path before x };

    ghost stands = { λ rule path before state. IsPath rule.guards.now path state.bits };

    fn start(&self, _alloc: Global, path: Path) -> Result<Path, NoMemory> {
        Ok(among(self.all, path))
    }

    fn breaks(&self, state: &Path, k: usize, place: &Place<'_>) -> bool {
        match place.action {
            Action::CombRead(_, _) => is_after(last_at(self.last, k), stage_at(self.stages, k)),
            Action::DelayedRead(_, _) => {
                is_after(last_at(self.last, k), next_on(self.places, *state, k))
            }
            Action::Parameter(_) | Action::Memory(_) | Action::Separator => false,
            Action::Bind(_, _) | Action::SpecCall(_, _) | Action::Write(_, _) => false,
            Action::Reserve(_, _) | Action::Block(_) | Action::Release(_) => false,
            Action::If(_, _, _) | Action::Call(_) | Action::Verify(_, _) => false,
            Action::Update(_, _) => false,
            Action::SpecCheck | Action::SpecBarrier => false,
            Action::End | Action::StartClause(_) => false,
        }
    }

    fn step(&self, _state: &mut Path, _k: usize, _place: &Place<'_>) -> Result<(), NoMemory> {
        Ok(())
    }

    ghost skips = { λ rule path before x state off stands. stands };
}

fn is_after(last: Option<usize>, stage: usize) -> bool
    ensures { result ≡ is_some_and (λ c. nat_lt c stage) last }
{
    match last {
        Some(last) => last < stage,
        None => false,
    }
}

fn last_at(last: &[Option<usize>], k: usize) -> Option<usize>
    ensures { result ≡ get_or last.now k None }
{
    match last.get(k) {
        Some(last) => *last,
        None => None,
    }
}

/// For each place the stage in which its memory is released, where that has a lock.
pub fn last_stages(
    alloc: Global,
    pipe: &Pipe,
    places: &[Place<'_>],
    stages: &[usize],
) -> Result<Vec<Option<usize>>, NoMemory>
    requires stages { stages.now ≡ stages_in (map place_view places.now) }
    requires of { map place_view places.now ≡ spec_places (pipe_view pipe.now) }
    ensures { IfOk result (λ last. last.items
        ≡ map (spec_last_at (pipe_view pipe.now)) (map place_view places.now)) }
{
    let mut last = Vec::new(alloc);
    for place in places {
        last.push(last_stage(pipe, places, stages, place))?;
    }
    Ok(last)
}

fn last_stage(
    pipe: &Pipe,
    places: &[Place<'_>],
    stages: &[usize],
    place: &Place<'_>,
) -> Option<usize>
    requires stages { stages.now ≡ stages_in (map place_view places.now) }
    requires of { map place_view places.now ≡ spec_places (pipe_view pipe.now) }
    ensures { result ≡ spec_last_at (pipe_view pipe.now) (place_view place.now) }
{
    match location_at(place) {
        Some(at) => {
            if is_locked(pipe.mems.as_slice(), &at.mem.name) {
                first_stage(places, stages, SoughtPlace::Release(&at.mem.name))
            } else {
                None
            }
        }
        None => None,
    }
}
