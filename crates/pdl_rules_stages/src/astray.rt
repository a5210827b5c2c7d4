// Statements that stand in another stage than the first of their kind: rules L2, S3 and S7.
ghost use Rattle.std.specs.Prelude.{◌≡◌, ◌<◌, ◌==◌, [], map, length, not, MatchOption};
ghost use Rattle.pdl_rules.specs.Parts.{is_some_and};
ghost use Rattle.pdl_paths.specs.Actions.{place_view};
ghost use Rattle.pdl_rules_on_paths.specs.Lowest.{breaks_at, line_where};
ghost use Rattle.pdl_rules_stages.specs.Stages.{stages_in};
ghost use Rattle.pdl_rules_stages.specs.declared.astray.Kinds.TheVariants as asked;
ghost use Rattle.pdl_rules_stages.specs.Astray.{is_astray as spec_is_astray, IsAsked, IsUnasked};

use crate::first::{SoughtPlace, first_stage};
use crate::stages::stage_at;
use pdl_paths::{Action, Place};

/// Which statements are asked: reserves and releases, of which those of one memory stand in one stage, or verifies, all in one, or updates, all in one.
#[derive(Clone, Copy)]
pub enum Kinds {
    Locks,
    Verifies,
    Updates,
}

/// The line of the lowest of them that stands in another stage than the first of its kind, by L2, by S3 or by S7. The stages are those of the places.
pub fn astray_line(places: &[Place<'_>], stages: &[usize], kinds: Kinds) -> Option<u32>
    requires { stages.now ≡ stages_in (map place_view places.now) }
    ensures { result ≡ line_where (spec_is_astray kinds) [] (map place_view places.now) }
{
    for k in 0..places.len() {
        if is_astray(places, stages, kinds, k) {
            return Some(places[k].line());
        }
    }
    None
}

fn is_astray(places: &[Place<'_>], stages: &[usize], kinds: Kinds, k: usize) -> bool
    requires own { stages.now ≡ stages_in (map place_view places.now) }
    requires here { k < length places.now }
    ensures { result ≡ breaks_at (spec_is_astray kinds) (map place_view places.now) k }
{
    match sought_at(kinds, &places[k]) {
        Some(sought) => is_elsewhere(first_stage(places, stages, sought), stage_at(stages, k)),
        None => false,
    }
}

fn is_elsewhere(first: Option<usize>, stage: usize) -> bool
    ensures { result ≡ is_some_and (λ s. not (s == stage)) first }
{
    match first {
        Some(first) => first != stage,
        None => false,
    }
}

// The kind of a place, where it is asked.
fn sought_at<'a>(kinds: Kinds, place: &Place<'a>) -> Option<SoughtPlace<'a>>
    ensures { MatchOption result (IsUnasked kinds (place_view place.now)) (λ sought.
        IsAsked kinds sought (place_view place.now)) }
{
    match kinds {
        Kinds::Locks => lock_at(place),
        Kinds::Verifies => verify_at(place),
        Kinds::Updates => update_at(place),
    }
}

fn lock_at<'a>(place: &Place<'a>) -> Option<SoughtPlace<'a>>
    ensures { MatchOption result (IsUnasked asked.Locks (place_view place.now)) (λ sought.
        IsAsked asked.Locks sought (place_view place.now)) }
{
    match place.action {
        Action::Reserve(at, _) => Some(SoughtPlace::Reserve(&at.mem.name)),
        Action::Release(at) => Some(SoughtPlace::Release(&at.mem.name)),
        Action::Parameter(_) | Action::Memory(_) | Action::Separator => None,
        Action::CombRead(_, _) | Action::Bind(_, _) | Action::DelayedRead(_, _) => None,
        Action::Write(_, _) | Action::SpecCall(_, _) | Action::Block(_) => None,
        Action::If(_, _, _) | Action::Call(_) | Action::Verify(_, _) | Action::Update(_, _) => None,
        Action::SpecCheck | Action::SpecBarrier | Action::End | Action::StartClause(_) => None,
    }
}

fn verify_at<'a>(place: &Place<'a>) -> Option<SoughtPlace<'a>>
    ensures { MatchOption result (IsUnasked asked.Verifies (place_view place.now)) (λ sought.
        IsAsked asked.Verifies sought (place_view place.now)) }
{
    match place.action {
        Action::Verify(_, _) => Some(SoughtPlace::Verify),
        Action::Parameter(_) | Action::Memory(_) | Action::Separator => None,
        Action::CombRead(_, _) | Action::Bind(_, _) | Action::DelayedRead(_, _) => None,
        Action::Write(_, _) | Action::SpecCall(_, _) | Action::Block(_) => None,
        Action::If(_, _, _) | Action::Call(_) | Action::Reserve(_, _) => None,
        Action::Release(_) | Action::Update(_, _) | Action::SpecCheck => None,
        Action::SpecBarrier | Action::End | Action::StartClause(_) => None,
    }
}

fn update_at<'a>(place: &Place<'a>) -> Option<SoughtPlace<'a>>
    ensures { MatchOption result (IsUnasked asked.Updates (place_view place.now)) (λ sought.
        IsAsked asked.Updates sought (place_view place.now)) }
{
    match place.action {
        Action::Update(_, _) => Some(SoughtPlace::Update),
        Action::Parameter(_) | Action::Memory(_) | Action::Separator => None,
        Action::CombRead(_, _) | Action::Bind(_, _) | Action::DelayedRead(_, _) => None,
        Action::Write(_, _) | Action::SpecCall(_, _) | Action::Block(_) => None,
        Action::If(_, _, _) | Action::Call(_) | Action::Reserve(_, _) => None,
        Action::Release(_) | Action::Verify(_, _) | Action::SpecCheck => None,
        Action::SpecBarrier | Action::End | Action::StartClause(_) => None,
    }
}
