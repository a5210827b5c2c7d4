// All rules on calls and guesses.
ghost use Rattle.std.specs.Prelude.{◌≡◌, ◌≤◌, None, map, length, IfOk, MatchResult};
ghost use Rattle.pdl_syntax_tree.specs.View.{pipe_view};
ghost use Rattle.pdl_rules.specs.Places.{places as spec_places, guards as spec_guards};
ghost use Rattle.pdl_rules.specs.Refusal.{first_broken};
ghost use Rattle.pdl_rules.specs.Speculation.{verify_stage};
ghost use Rattle.pdl_paths.specs.Actions.{place_view};
ghost use Rattle.pdl_paths.specs.Masks.{AreMasked};
ghost use Rattle.pdl_locks.specs.Plan.{Tells};
ghost use Rattle.pdl_locks.specs.Facts.{AreFacts};
ghost use Rattle.pdl_spec.specs.WalkLines.{AreLines};
ghost use Rattle.pdl_spec.specs.Plan.{spec_rules, spec_plan};

use crate::lines::{SpecLines, spec_path_rules};
use crate::plan::SpecPlan;
use pdl_kit::{NoMemory, Refusal, Rule};
use pdl_locks::{LockFacts, refuse};
use pdl_paths::{Guards, Place};
use pdl_rules_stages::{Kinds, SoughtPlace, astray_line, first_stage};
use pdl_rules_walk::broken_lines;
use pdl_syntax_tree::Pipe;
use std::alloc::Global;

/// The stages that verify and update the guesses of a pipe that keeps the rules on calls and guesses, S1 to S7; else the lowest that it breaks, at its lowest place.
///
/// The guards are those of the places, at most ten, and the places are those of the pipe, with their masks.
pub fn check_spec(
    alloc: Global,
    pipe: &Pipe,
    guards: &Guards,
    places: &[Place<'_>],
) -> Result<SpecPlan, Refusal>
    requires few { length guards.now ≤ 10 }
    requires own { guards.now ≡ spec_guards (map place_view places.now) }
    requires masks { AreMasked guards.now places.now }
    requires of { map place_view places.now ≡ spec_places (pipe_view pipe.now) }
    ensures { MatchResult result (λ plan.
        (first_broken spec_rules (pipe_view pipe.now) ≡ None)
        × (plan ≡ spec_plan (pipe_view pipe.now))) (Tells spec_rules (pipe_view pipe.now)) }
{
    let facts = LockFacts::of(alloc, pipe, places)?;
    let verified = first_stage(places, facts.stages.as_slice(), SoughtPlace::Verify);
    let lines = spec_lines(alloc, &*pipe, &*guards, &*places, &facts, verified)?;
    plan_spec(pipe, places, &facts, verified, &lines)
}

// The lines at which a pipe, of which these facts are known, breaks the rules on paths.
fn spec_lines<'a, 'p>(
    alloc: Global,
    pipe: &'a Pipe,
    guards: &'a Guards,
    places: &'a [Place<'p>],
    facts: &'a LockFacts,
    verified: Option<usize>,
) -> Result<SpecLines, NoMemory>
    requires few { length guards.now ≤ 10 }
    requires own { guards.now ≡ spec_guards (map place_view places.now) }
    requires masks { AreMasked guards.now places.now }
    requires of { map place_view places.now ≡ spec_places (pipe_view pipe.now) }
    requires facts { AreFacts (pipe_view pipe.now) places.now facts.now }
    requires verified { verified ≡ verify_stage (pipe_view pipe.now) }
    ensures { IfOk result (λ lines. AreLines (pipe_view pipe.now) lines) }
{
    let rules = spec_path_rules(pipe, guards, places, facts, verified);
    let lines = broken_lines(alloc, &rules, guards, places)?;
    Ok(SpecLines::of(lines))
}

/// The same of a pipe with these places, of which these facts and lines are known; `verified` is the stage of the first `verify` in the text.
pub fn plan_spec(
    pipe: &Pipe,
    places: &[Place<'_>],
    facts: &LockFacts,
    verified: Option<usize>,
    lines: &SpecLines,
) -> Result<SpecPlan, Refusal>
    requires of { map place_view places.now ≡ spec_places (pipe_view pipe.now) }
    requires facts { AreFacts (pipe_view pipe.now) places.now facts.now }
    requires verified { verified ≡ verify_stage (pipe_view pipe.now) }
    requires lines { AreLines (pipe_view pipe.now) lines.now }
    ensures { MatchResult result
        (λ plan. (first_broken spec_rules (pipe_view pipe.now) ≡ None)
        × (plan ≡ spec_plan (pipe_view pipe.now)))
        (Tells spec_rules (pipe_view pipe.now)) }
{
    refuse(Rule::S1, lines.one_call)?;
    refuse(Rule::S2, lines.verified_once)?;
    let stages = facts.stages.as_slice();
    refuse(Rule::S3, astray_line(places, stages, Kinds::Verifies))?;
    refuse(Rule::S4, lines.released_sure)?;
    refuse(Rule::S5, lines.checked_first)?;
    refuse(Rule::S6, lines.updated_once)?;
    refuse(Rule::S7, astray_line(places, stages, Kinds::Updates))?;
    Ok(SpecPlan {
        verified,
        updated: first_stage(places, stages, SoughtPlace::Update),
    })
}
