// The first places of a kind.
ghost use Rattle.std.specs.Prelude.{◌≡◌, [], map};
ghost use Rattle.pdl_rules.specs.Speculation as speculation;
ghost use Rattle.pdl_rules.specs.Stages as spec;
ghost use Rattle.pdl_paths.specs.Actions.{place_view};
ghost use Rattle.pdl_rules_stages.specs.Stages.{is_sought, stages_in};

use crate::stages::stage_at;
use pdl_kit::Name;
use pdl_paths::{Action, Place};

/// A kind of place: those that reserve a memory, those that release it, those that verify a guess, or those that update one.
#[derive(Clone, Copy)]
pub enum SoughtPlace<'a> {
    Reserve(&'a Name),
    Release(&'a Name),
    Verify,
    Update,
}

/// The stage of the first place of a kind, none where the text has no such place. The stages are those of the places.
pub fn first_stage(places: &[Place<'_>], stages: &[usize], sought: SoughtPlace<'_>) -> Option<usize>
    requires { stages.now ≡ stages_in (map place_view places.now) }
    ensures { result ≡ spec.first_stage (is_sought sought.entry) [] (map place_view places.now) }
{
    for k in 0..places.len() {
        if is_of(&places[k], sought) {
            return Some(stage_at(stages, k));
        }
    }
    None
}

/// Whether a place is of a kind.
pub fn is_of(place: &Place<'_>, sought: SoughtPlace<'_>) -> bool
    ensures { result ≡ is_sought sought.entry (place_view place.now) }
{
    match sought {
        SoughtPlace::Reserve(name) => is_reserve_of(place, name),
        SoughtPlace::Release(name) => is_release_of(place, name),
        SoughtPlace::Verify => is_verify(place),
        SoughtPlace::Update => is_update(place),
    }
}

fn is_reserve_of(place: &Place<'_>, name: &Name) -> bool
    ensures { result ≡ spec.reserves_memory name.now (place_view place.now) }
{
    match place.action {
        Action::Reserve(at, _) => at.mem.name == *name,
        Action::Parameter(_) | Action::Memory(_) | Action::Separator => false,
        Action::CombRead(_, _) | Action::Bind(_, _) | Action::DelayedRead(_, _) => false,
        Action::Write(_, _) | Action::SpecCall(_, _) | Action::Block(_) => false,
        Action::Release(_) | Action::If(_, _, _) | Action::Call(_) | Action::Verify(_, _) => false,
        Action::Update(_, _) => false,
        Action::SpecCheck | Action::SpecBarrier | Action::End | Action::StartClause(_) => false,
    }
}

fn is_release_of(place: &Place<'_>, name: &Name) -> bool
    ensures { result ≡ spec.releases_memory name.now (place_view place.now) }
{
    match place.action {
        Action::Release(at) => at.mem.name == *name,
        Action::Parameter(_) | Action::Memory(_) | Action::Separator => false,
        Action::CombRead(_, _) | Action::Bind(_, _) | Action::DelayedRead(_, _) => false,
        Action::Write(_, _) | Action::SpecCall(_, _) | Action::Block(_) => false,
        Action::Reserve(_, _) | Action::If(_, _, _) | Action::Call(_) => false,
        Action::Verify(_, _) | Action::Update(_, _) | Action::SpecCheck => false,
        Action::SpecBarrier => false,
        Action::End | Action::StartClause(_) => false,
    }
}

fn is_verify(place: &Place<'_>) -> bool
    ensures { result ≡ speculation.is_verify (place_view place.now) }
{
    match place.action {
        Action::Verify(_, _) => true,
        Action::Parameter(_) | Action::Memory(_) | Action::Separator => false,
        Action::CombRead(_, _) | Action::Bind(_, _) | Action::DelayedRead(_, _) => false,
        Action::Write(_, _) | Action::SpecCall(_, _) | Action::Reserve(_, _) => false,
        Action::Block(_) | Action::Release(_) | Action::If(_, _, _) | Action::Call(_) => false,
        Action::Update(_, _) | Action::SpecCheck | Action::SpecBarrier => false,
        Action::End | Action::StartClause(_) => false,
    }
}

/// Whether a place is an `update`.
pub fn is_update(place: &Place<'_>) -> bool
    ensures { result ≡ speculation.is_update (place_view place.now) }
{
    match place.action {
        Action::Update(_, _) => true,
        Action::Parameter(_) | Action::Memory(_) | Action::Separator => false,
        Action::CombRead(_, _) | Action::Bind(_, _) | Action::DelayedRead(_, _) => false,
        Action::Write(_, _) | Action::SpecCall(_, _) | Action::Reserve(_, _) => false,
        Action::Block(_) | Action::Release(_) | Action::If(_, _, _) | Action::Call(_) => false,
        Action::Verify(_, _) | Action::SpecCheck | Action::SpecBarrier => false,
        Action::End | Action::StartClause(_) => false,
    }
}
