// The rules F1 to F5 in their order.
ghost use Rattle.std.specs.Prelude.{◌≡◌, [], ◌∷◌, map, option_map};
ghost use Rattle.pdl_kit.specs.declared.rule.Rule.TheVariants as names;
ghost use Rattle.pdl_syntax_tree.specs.View.{pipe_view};
ghost use Rattle.pdl_rules.specs.Places as spec;
ghost use Rattle.pdl_rules.specs.Refusal as refusal;
ghost use Rattle.pdl_paths.specs.Actions.{place_view};
ghost use Rattle.pdl_rules_on_texts.specs.Refused.{refused_of};
ghost use Rattle.pdl_rules_judge.specs.ForkOrder as ordered;

use crate::fork_rules::{breaks_f1, breaks_f2, breaks_f3, breaks_f4, breaks_f5};
use pdl_kit::Rule;
use pdl_paths::Place;
use pdl_rules_on_texts::Broken;
use pdl_syntax_tree::Pipe;

// The rules that are asked here.
#[derive(Clone, Copy)]
enum ForkRule {
    F1,
    F2,
    F3,
    F4,
    F5,
}

const ORDER: [ForkRule; 5] = [
    ForkRule::F1,
    ForkRule::F2,
    ForkRule::F3,
    ForkRule::F4,
    ForkRule::F5,
];

fn rule_of(asked: ForkRule) -> Rule
    ensures { result ≡ ordered.rule_of asked }
{
    match asked {
        ForkRule::F1 => Rule::F1,
        ForkRule::F2 => Rule::F2,
        ForkRule::F3 => Rule::F3,
        ForkRule::F4 => Rule::F4,
        ForkRule::F5 => Rule::F5,
    }
}

// Whether a place breaks the rule, with these places before it and these after it.
#[tactic(auto, unfolding(crate::specs::ForkOrder::breaks_fork_rule))]
fn breaks_rule(
    asked: ForkRule,
    pipe: &Pipe,
    all: &[Place<'_>],
    before: &[Place<'_>],
    place: &Place<'_>,
    later: &[Place<'_>],
) -> bool
    requires all { spec.places (pipe_view pipe.now) ≡ map place_view all.now }
    requires later { spec.places_after (pipe_view pipe.now) (map place_view before.now)
        ≡ map place_view later.now }
    ensures { result ≡ ordered.breaks_fork_rule asked (pipe_view pipe.now)
        (map place_view before.now)
        (place_view place.now) }
{
    match asked {
        ForkRule::F1 => breaks_f1(place),
        ForkRule::F2 => breaks_f2(before, place, later),
        ForkRule::F3 => breaks_f3(place, before, all),
        ForkRule::F4 => breaks_f4(pipe, place),
        ForkRule::F5 => breaks_f5(pipe, place),
    }
}

// The line of the first place that breaks the rule.
#[tactic(auto, unfolding(crate::specs::ForkOrder::broken_line))]
fn broken_line(asked: ForkRule, pipe: &Pipe, all: &[Place<'_>]) -> Option<u32>
    requires { spec.places (pipe_view pipe.now) ≡ map place_view all.now }
    ensures { result ≡ ordered.broken_line asked (pipe_view pipe.now) (map place_view all.now) }
{
    for (k, place) in all.iter().enumerate() {
        if breaks_rule(asked, pipe, all, &all[..k], place, &all[k + 1..]) {
            return Some(place.line());
        }
    }
    None
}

/// The lowest of the rules F1 to F5 that a pipe with these places breaks, with its lowest place.
pub fn forks_broken(pipe: &Pipe, all: &[Place<'_>]) -> Option<Broken>
    requires { spec.places (pipe_view pipe.now) ≡ map place_view all.now }
    ensures { option_map refused_of result
        ≡ refusal.first_broken (names.F1 ∷ names.F2 ∷ names.F3 ∷ names.F4 ∷ names.F5 ∷ [])
        (pipe_view pipe.now) }
{
    first_of(&ORDER, pipe, all)
}

// The first of the rules that is broken.
fn first_of(rules: &[ForkRule], pipe: &Pipe, all: &[Place<'_>]) -> Option<Broken>
    requires { spec.places (pipe_view pipe.now) ≡ map place_view all.now }
    ensures { option_map refused_of result
        ≡ ordered.first_of rules.now (pipe_view pipe.now) (map place_view all.now) }
{
    for asked in rules {
        if let Some(line) = broken_line(*asked, pipe, all) {
            return Some(Broken {
                rule: rule_of(*asked),
                line,
            });
        }
    }
    None
}
