// The rules of the tree in their order.
ghost use Rattle.std.specs.Prelude.{◌≡◌, ◌++◌, None, IfOk, map};
ghost use Rattle.pdl_kit.specs.declared.refusal.Refusal.{Refusal as told};
ghost use Rattle.pdl_semantics.specs.Tree as tree;
ghost use Rattle.pdl_syntax_tree.specs.View.{pipe_view};
ghost use Rattle.pdl_rules.specs.Places.{places as spec_places};
ghost use Rattle.pdl_rules.specs.Refusal.{Refused, first_broken, limits, after_limits};
ghost use Rattle.pdl_paths.specs.Actions.{place_view};
ghost use Rattle.pdl_rules_names.specs.Order.{name_rules};
ghost use Rattle.pdl_rules_widths.specs.Order.{width_rules};
ghost use Rattle.pdl_locks.specs.Facts.{AreLines as AreLockLines};
ghost use Rattle.pdl_locks.specs.Plan.{plan_of};
ghost use Rattle.pdl_spec.specs.Plan.{spec_plan};
ghost use Rattle.pdl_spec.specs.WalkLines.{AreLines as AreSpecLines};
ghost use Rattle.pdl_rules_judge.specs.Known.{AreFindings, IsKnown};
ghost use Rattle.pdl_rules_judge.specs.OrderedRules.{Answers, fork_rules, advice_rules, after_names, after_widths, after_forks, after_locks};

use crate::fork_scan::forks_broken;
use crate::limits::check_limits;
use pdl_kit::{NoMemory, Refusal, Rule};
use pdl_locks::{LockFacts, LockLines, LockPlan, lock_path_rules, plan_locks};
use pdl_paths::{Guards, Place, places};
use pdl_rules_names::check_names;
use pdl_rules_stages::{SoughtPlace, first_stage};
use pdl_rules_walk::{Both, broken_lines};
use pdl_rules_widths::{Variables, advice_broken, widths_broken};
use pdl_spec::{SpecLines, SpecPlan, plan_spec, spec_path_rules};
use pdl_syntax_tree::Pipe;
use std::alloc::Global;

/// What a pipe that keeps all rules is planned by: for each memory the stages of its reserves and releases, and the stages of verifies and updates.
#[derive(Drop)]
pub struct Plans {
    pub locks: LockPlan,
    pub spec: SpecPlan,
}

/// What the rules found of a pipe that keeps them all: its guards in text order, its variables with their widths, the stage of each of its places, and its plans.
#[derive(Drop)]
pub struct Findings {
    pub guards: Guards,
    pub variables: Variables,
    pub stages: Vec<usize>,
    pub plans: Plans,
}

/// Asks a pipe all rules of the tree, Z2 to P1: the lowest that it breaks, at its lowest place, or what was found of it.
pub fn judge(alloc: Global, pipe: &Pipe) -> Result<Findings, Refusal>
    ensures answers { Answers (limits ++ after_limits) (pipe_view pipe.now) result }
    ensures found { IfOk result (AreFindings (pipe_view pipe.now)) }
{
    let places = places(alloc, pipe)?;
    match ask_limits(alloc, places.as_slice()) {
        Ok(()) => within(alloc, pipe, places),
        Err(refusal) => Err(refusal),
    }
}

// Asks the limits. No guards are collected before, since a pipe may have any number of them.
fn ask_limits(alloc: Global, places: &[Place<'_>]) -> Result<(), Refusal>
    ensures { (p : tree.Pipe) → map place_view places.now ≡ spec_places p →
        Answers limits p result }
{
    match check_limits(alloc, places)? {
        Some(broken) => Err(refusal_at(broken.rule, broken.line)),
        None => Ok(()),
    }
}

// Asks a pipe with these places, that keeps the limits, the other rules.
fn within(alloc: Global, pipe: &Pipe, places: Vec<Place<'_>>) -> Result<Findings, Refusal>
    requires kept { first_broken limits (pipe_view pipe.now) ≡ None }
    requires of { map place_view places.items ≡ spec_places (pipe_view pipe.now) }
    ensures answers { Answers after_limits (pipe_view pipe.now) result }
    ensures found { IfOk result (AreFindings (pipe_view pipe.now)) }
{
    let mut places = places;
    let guards = Guards::of(alloc, places.as_slice())?;
    guards.set_masks(&mut places);
    let all = places.as_slice();
    let variables = Variables::of(alloc, pipe.mems.as_slice(), all)?;
    let facts = LockFacts::of(alloc, pipe, all)?;
    let verified = first_stage(all, facts.stages.as_slice(), SoughtPlace::Verify);
    let known = Known {
        guards: &guards,
        places: all,
        variables: &variables,
        facts: &facts,
        verified,
    };
    match from_names(alloc, &*pipe, known) {
        Ok(plans) => Ok(Findings {
            guards,
            variables,
            stages: facts.stages,
            plans,
        }),
        Err(refusal) => Err(refusal),
    }
}

// What is known of a pipe within the limits.
#[derive(Clone, Copy)]
struct Known<'a, 'p> {
    guards: &'a Guards,
    places: &'a [Place<'p>],
    variables: &'a Variables,
    facts: &'a LockFacts,
    // The stage that verifies guesses.
    verified: Option<usize>,
}

// Asks the rules on names and those after them.
fn from_names<'a>(alloc: Global, pipe: &'a Pipe, known: Known<'a, '_>) -> Result<Plans, Refusal>
    requires { IsKnown (pipe_view pipe.now) known }
    ensures answers { Answers after_limits (pipe_view pipe.now) result }
    ensures locks { IfOk result (λ plans. plans.locks ≡ plan_of (pipe_view pipe.now)) }
    ensures spec { IfOk result (λ plans. plans.spec ≡ spec_plan (pipe_view pipe.now)) }
{
    match ask_names(alloc, pipe, known) {
        Ok(()) => from_widths(alloc, pipe, known),
        Err(refusal) => Err(refusal),
    }
}

// Asks the rules on widths and those after them.
fn from_widths<'a>(alloc: Global, pipe: &'a Pipe, known: Known<'a, '_>) -> Result<Plans, Refusal>
    requires { IsKnown (pipe_view pipe.now) known }
    ensures answers { Answers after_names (pipe_view pipe.now) result }
    ensures locks { IfOk result (λ plans. plans.locks ≡ plan_of (pipe_view pipe.now)) }
    ensures spec { IfOk result (λ plans. plans.spec ≡ spec_plan (pipe_view pipe.now)) }
{
    match ask_widths(pipe, known) {
        Ok(()) => from_forks(alloc, pipe, known),
        Err(refusal) => Err(refusal),
    }
}

// Asks the rules on forks and those after them.
fn from_forks<'a>(alloc: Global, pipe: &'a Pipe, known: Known<'a, '_>) -> Result<Plans, Refusal>
    requires { IsKnown (pipe_view pipe.now) known }
    ensures answers { Answers after_widths (pipe_view pipe.now) result }
    ensures locks { IfOk result (λ plans. plans.locks ≡ plan_of (pipe_view pipe.now)) }
    ensures spec { IfOk result (λ plans. plans.spec ≡ spec_plan (pipe_view pipe.now)) }
{
    match ask_forks(pipe, known) {
        Ok(()) => from_locks(alloc, pipe, known),
        Err(refusal) => Err(refusal),
    }
}

// Asks the rules on locks and those after them; those on paths are asked together.
fn from_locks<'a>(alloc: Global, pipe: &'a Pipe, known: Known<'a, '_>) -> Result<Plans, Refusal>
    requires { IsKnown (pipe_view pipe.now) known }
    ensures answers { Answers after_forks (pipe_view pipe.now) result }
    ensures locks { IfOk result (λ plans. plans.locks ≡ plan_of (pipe_view pipe.now)) }
    ensures spec { IfOk result (λ plans. plans.spec ≡ spec_plan (pipe_view pipe.now)) }
{
    let Both { first, second } = path_lines(alloc, pipe, known)?;
    from_lines(alloc, pipe, known, &first, &second)
}

// The lines at which a pipe, of which this is known, breaks the rules on paths: on one walk along each.
fn path_lines<'a, 'p>(
    alloc: Global,
    pipe: &'a Pipe,
    known: Known<'a, 'p>,
) -> Result<Both<LockLines, SpecLines>, NoMemory>
    requires { IsKnown (pipe_view pipe.now) known }
    ensures locks { IfOk result (λ lines. AreLockLines (pipe_view pipe.now) lines.first) }
    ensures calls { IfOk result (λ lines. AreSpecLines (pipe_view pipe.now) lines.second) }
{
    let Known {
        guards,
        places,
        variables: _,
        facts,
        verified,
    } = known;
    let rules = Both {
        first: lock_path_rules(pipe, guards, places, facts),
        second: spec_path_rules(pipe, guards, places, facts, verified),
    };
    let Both { first, second } = broken_lines(alloc, &rules, guards, places)?;
    Ok(Both {
        first,
        second: SpecLines::of(second),
    })
}

// Refuses by the rules on locks and those after them, of which these are the lines on paths.
fn from_lines(
    alloc: Global,
    pipe: &Pipe,
    known: Known<'_, '_>,
    on_locks: &LockLines,
    on_calls: &SpecLines,
) -> Result<Plans, Refusal>
    requires known { IsKnown (pipe_view pipe.now) known }
    requires locks { AreLockLines (pipe_view pipe.now) on_locks.now }
    requires calls { AreSpecLines (pipe_view pipe.now) on_calls.now }
    ensures answers { Answers after_forks (pipe_view pipe.now) result }
    ensures locks { IfOk result (λ plans. plans.locks ≡ plan_of (pipe_view pipe.now)) }
    ensures spec { IfOk result (λ plans. plans.spec ≡ spec_plan (pipe_view pipe.now)) }
{
    match plan_locks(alloc, pipe, known.places, known.facts, on_locks) {
        Ok(locks) => from_calls(pipe, known, on_calls, locks),
        Err(refusal) => Err(refusal),
    }
}

// Refuses by the rules on calls and guesses, and those after them, a pipe whose locks are planned so.
fn from_calls(
    pipe: &Pipe,
    known: Known<'_, '_>,
    on_calls: &SpecLines,
    locks: LockPlan,
) -> Result<Plans, Refusal>
    requires known { IsKnown (pipe_view pipe.now) known }
    requires calls { AreSpecLines (pipe_view pipe.now) on_calls.now }
    requires locks { locks ≡ plan_of (pipe_view pipe.now) }
    ensures answers { Answers after_locks (pipe_view pipe.now) result }
    ensures locks { IfOk result (λ plans. plans.locks ≡ plan_of (pipe_view pipe.now)) }
    ensures spec { IfOk result (λ plans. plans.spec ≡ spec_plan (pipe_view pipe.now)) }
{
    match plan_spec(pipe, known.places, known.facts, known.verified, on_calls) {
        Ok(spec) => from_advice(pipe, known, Plans { locks, spec }),
        Err(refusal) => Err(refusal),
    }
}

// Refuses by the rule on advised variables a pipe that is planned so.
fn from_advice(pipe: &Pipe, known: Known<'_, '_>, plans: Plans) -> Result<Plans, Refusal>
    requires known { IsKnown (pipe_view pipe.now) known }
    requires locks { plans.locks ≡ plan_of (pipe_view pipe.now) }
    requires spec { plans.spec ≡ spec_plan (pipe_view pipe.now) }
    ensures answers { Answers advice_rules (pipe_view pipe.now) result }
    ensures locks { IfOk result (λ plans. plans.locks ≡ plan_of (pipe_view pipe.now)) }
    ensures spec { IfOk result (λ plans. plans.spec ≡ spec_plan (pipe_view pipe.now)) }
{
    match advice_broken(pipe, known.variables, known.places) {
        Some(broken) => Err(refusal_at(broken.rule, broken.line)),
        None => Ok(plans),
    }
}

// Asks the rules on names.
fn ask_names(alloc: Global, pipe: &Pipe, known: Known<'_, '_>) -> Result<(), Refusal>
    requires { IsKnown (pipe_view pipe.now) known }
    ensures { Answers name_rules (pipe_view pipe.now) result }
{
    match check_names(alloc, pipe, known.guards, known.places)? {
        Some(broken) => Err(refusal_at(broken.rule, broken.line)),
        None => Ok(()),
    }
}

// Asks the rules on widths.
fn ask_widths(pipe: &Pipe, known: Known<'_, '_>) -> Result<(), Refusal>
    requires { IsKnown (pipe_view pipe.now) known }
    ensures { Answers width_rules (pipe_view pipe.now) result }
{
    match widths_broken(pipe, known.variables, known.places) {
        Some(broken) => Err(refusal_at(broken.rule, broken.line)),
        None => Ok(()),
    }
}

// Asks the rules on forks.
fn ask_forks(pipe: &Pipe, known: Known<'_, '_>) -> Result<(), Refusal>
    requires { IsKnown (pipe_view pipe.now) known }
    ensures { Answers fork_rules (pipe_view pipe.now) result }
{
    match forks_broken(pipe, known.places) {
        Some(broken) => Err(refusal_at(broken.rule, broken.line)),
        None => Ok(()),
    }
}

// The refusal by a rule at a line.
fn refusal_at(rule: Rule, line: u32) -> Refusal
    ensures { result ≡ told.Refused rule line }
{
    Refusal::Refused { rule, line }
}
