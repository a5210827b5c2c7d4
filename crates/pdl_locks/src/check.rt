// All rules on locks.
ghost use Rattle.std.specs.Prelude.{◌≡◌, ◌≤◌, [], None, map, length, IfOk, MatchResult};
ghost use Rattle.pdl_syntax_tree.specs.View.{pipe_view};
ghost use Rattle.pdl_rules.specs.Places.{places as spec_places, guards as spec_guards};
ghost use Rattle.pdl_rules.specs.Refusal.{first_broken};
ghost use Rattle.pdl_paths.specs.Actions.{place_view};
ghost use Rattle.pdl_paths.specs.Masks.{AreMasked};
ghost use Rattle.pdl_locks.specs.Facts.{AreFacts, AreLines};
ghost use Rattle.pdl_locks.specs.Plan.{IsRefused, Tells, lock_rules, plan_of};

use crate::facts::LockFacts;
use crate::plan::LockPlan;
use crate::walk::{LockLines, lock_path_rules};
use pdl_kit::{NoMemory, Refusal, Rule};
use pdl_paths::{Guards, Place};
use pdl_rules_stages::{Kinds, astray_line};
use pdl_rules_walk::broken_lines;
use pdl_syntax_tree::Pipe;
use std::alloc::Global;

/// The stages of reserves and releases of a pipe that keeps the rules on locks, L1 to L8; else the lowest that it breaks, at its lowest place.
///
/// The guards are those of the places, at most ten, and the places are those of the pipe, with their masks.
pub fn check_locks(
    alloc: Global,
    pipe: &Pipe,
    guards: &Guards,
    places: &[Place<'_>],
) -> Result<LockPlan, Refusal>
    requires few { length guards.now ≤ 10 }
    requires own { guards.now ≡ spec_guards (map place_view places.now) }
    requires masks { AreMasked guards.now places.now }
    requires of { map place_view places.now ≡ spec_places (pipe_view pipe.now) }
    ensures { MatchResult result (λ plan.
        (first_broken lock_rules (pipe_view pipe.now) ≡ None)
        × (plan ≡ plan_of (pipe_view pipe.now))) (Tells lock_rules (pipe_view pipe.now)) }
{
    let facts = LockFacts::of(alloc, pipe, places)?;
    let lines = lock_lines(alloc, &*pipe, &*guards, &*places, &facts)?;
    plan_locks(alloc, pipe, places, &facts, &lines)
}

// The lines at which a pipe, of which these facts are known, breaks the rules on paths.
fn lock_lines<'a, 'p>(
    alloc: Global,
    pipe: &'a Pipe,
    guards: &'a Guards,
    places: &'a [Place<'p>],
    facts: &'a LockFacts,
) -> Result<LockLines, NoMemory>
    requires few { length guards.now ≤ 10 }
    requires own { guards.now ≡ spec_guards (map place_view places.now) }
    requires masks { AreMasked guards.now places.now }
    requires of { map place_view places.now ≡ spec_places (pipe_view pipe.now) }
    requires facts { AreFacts (pipe_view pipe.now) places.now facts.now }
    ensures { IfOk result (λ lines. AreLines (pipe_view pipe.now) lines) }
{
    let rules = lock_path_rules(pipe, guards, places, facts);
    let lines = broken_lines(alloc, &rules, guards, places)?;
    Ok(lines)
}

/// The same of a pipe with these places, of which these facts and lines are known.
pub fn plan_locks(
    alloc: Global,
    pipe: &Pipe,
    places: &[Place<'_>],
    facts: &LockFacts,
    lines: &LockLines,
) -> Result<LockPlan, Refusal>
    requires of { map place_view places.now ≡ spec_places (pipe_view pipe.now) }
    requires facts { AreFacts (pipe_view pipe.now) places.now facts.now }
    requires lines { AreLines (pipe_view pipe.now) lines.now }
    ensures { MatchResult result
        (λ plan. (first_broken lock_rules (pipe_view pipe.now) ≡ None)
        × (plan ≡ plan_of (pipe_view pipe.now)))
        (Tells lock_rules (pipe_view pipe.now)) }
{
    let stages = facts.stages.as_slice();
    refuse(Rule::L1, lines.held)?;
    refuse(Rule::L2, astray_line(places, stages, Kinds::Locks))?;
    refuse(Rule::L3, lines.read_first)?;
    refuse(Rule::L4, lines.few_reserves)?;
    refuse(Rule::L5, lines.reserved_once)?;
    refuse(Rule::L6, lines.written_once)?;
    refuse(Rule::L7, lines.released)?;
    refuse(Rule::L8, lines.bound)?;
    Ok(LockPlan::of(alloc, pipe, places, stages)?)
}

/// Refuses by a rule that is broken in some line.
pub fn refuse(rule: Rule, line: Option<u32>) -> Result<(), Refusal>
    ensures { MatchResult result (λ _. line ≡ None) (λ e. IsRefused rule line e) }
{
    match line {
        Some(line) => Err(Refusal::Refused { rule, line }),
        None => Ok(()),
    }
}
