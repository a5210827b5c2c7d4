// The rule on advised variables, P1.
ghost use Rattle.std.specs.Prelude.{◌≡◌, [], ◌∷◌, map, option_map};
ghost use Rattle.pdl_kit.specs.declared.rule.Rule.TheVariants.{P1};
ghost use Rattle.pdl_syntax_tree.specs.View.{mem_view, pipe_view};
ghost use Rattle.pdl_rules.specs.Places.{places as spec_places};
ghost use Rattle.pdl_rules.specs.Refusal.{first_broken};
ghost use Rattle.pdl_rules.specs.Widths as spec;
ghost use Rattle.pdl_paths.specs.Actions.{place_view};
ghost use Rattle.pdl_rules_on_paths.specs.Lowest.{first_line};
ghost use Rattle.pdl_rules_on_texts.specs.Refused.{refused_of};
ghost use Rattle.pdl_rules_widths.specs.Advice.{breaks_advice as spec_breaks_advice};

use crate::advised::{is_advised, is_some_advised};
use crate::variables::Variables;
use pdl_kit::Rule;
use pdl_paths::{Action, Place};
use pdl_rules_on_texts::{Broken, lowest_of};
use pdl_syntax_tree::{Mem, Pipe, is_advisory};

/// The rule on advised variables, P1, with the lowest place of a pipe with these variables and places that breaks it; none where it keeps the rule.
pub fn advice_broken(pipe: &Pipe, variables: &Variables, places: &[Place<'_>]) -> Option<Broken>
    requires variables { variables.now ≡ spec.variables (pipe_view pipe.now) }
    requires places { map place_view places.now ≡ spec_places (pipe_view pipe.now) }
    ensures { option_map refused_of result ≡ first_broken (P1 ∷ []) (pipe_view pipe.now) }
{
    lowest_of(
        Rule::P1,
        advice_line(variables, pipe.mems.as_slice(), places),
        None,
    )
}

// The line of the first place that uses an advised variable where none may stand.
fn advice_line(variables: &Variables, mems: &[Mem], places: &[Place<'_>]) -> Option<u32>
    ensures { result ≡ first_line (spec_breaks_advice variables.now (map mem_view mems.now))
        (map place_view places.now) }
{
    for place in places {
        if breaks_advice(variables, mems, place) {
            return Some(place.line());
        }
    }
    None
}

// Whether the place uses an advised variable where none may stand.
fn breaks_advice(variables: &Variables, mems: &[Mem], place: &Place<'_>) -> bool
    ensures { result ≡ spec_breaks_advice variables.now (map mem_view mems.now)
        (place_view place.now) }
{
    match place.action {
        Action::CombRead(_, at) => {
            !is_advisory(mems, &at.mem.name) && variables.is_advised(&at.address.name)
        }
        Action::DelayedRead(_, at) => variables.is_advised(&at.address.name),
        Action::Write(at, e) => {
            !is_advisory(mems, &at.mem.name)
                && (variables.is_advised(&at.address.name) || is_advised(variables, e))
        }
        Action::Reserve(at, _) | Action::Block(at) | Action::Release(at) => {
            variables.is_advised(&at.address.name)
        }
        Action::If(condition, _, _) => is_advised(variables, condition),
        Action::Call(args) | Action::Verify(_, args) => is_some_advised(variables, args),
        Action::Parameter(_) | Action::Memory(_) | Action::Separator => false,
        Action::Bind(_, _) | Action::SpecCall(_, _) | Action::Update(_, _) => false,
        Action::SpecCheck | Action::SpecBarrier | Action::End | Action::StartClause(_) => false,
    }
}
