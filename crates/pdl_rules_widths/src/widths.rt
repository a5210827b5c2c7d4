// The rules on widths, in their order.
ghost use Rattle.std.specs.Prelude.{◌≡◌, ◌+◌, ◌<◌, map, length, take, option_map};
ghost use Rattle.pdl_syntax_tree.specs.View.{pipe_view};
ghost use Rattle.pdl_rules.specs.Places.{places as spec_places};
ghost use Rattle.pdl_rules.specs.Refusal.{first_broken};
ghost use Rattle.pdl_rules.specs.Widths as spec;
ghost use Rattle.pdl_paths.specs.Actions.{place_view};
ghost use Rattle.pdl_rules_on_texts.specs.Refused.{refused_of};
ghost use Rattle.pdl_rules_widths.specs.Lines.{AreLines};
ghost use Rattle.pdl_rules_widths.specs.Order.{width_rules};

use crate::faults::faults_at;
use crate::lines::WidthLines;
use crate::variables::Variables;
use pdl_paths::Place;
use pdl_rules_on_texts::Broken;
use pdl_syntax_tree::Pipe;

/// The lowest rule on widths, W1 to W6, that a pipe with these variables and places breaks, at its lowest place; none where it keeps them.
pub fn widths_broken(pipe: &Pipe, variables: &Variables, places: &[Place<'_>]) -> Option<Broken>
    requires variables { variables.now ≡ spec.variables (pipe_view pipe.now) }
    requires places { map place_view places.now ≡ spec_places (pipe_view pipe.now) }
    ensures { option_map refused_of result ≡ first_broken width_rules (pipe_view pipe.now) }
{
    lines_of(pipe, variables, places).lowest()
}

// Of each rule the line of the first place that breaks it.
fn lines_of(pipe: &Pipe, variables: &Variables, places: &[Place<'_>]) -> WidthLines
    requires { variables.now ≡ spec.variables (pipe_view pipe.now) }
    ensures { AreLines (pipe_view pipe.now) (map place_view places.now) result }
{
    let mut lines = WidthLines::new();
    for k in 0..places.len() {
        lines = with_place(pipe, variables, places, k, lines);
    }
    lines
}

// The lines with the k-th place.
fn with_place(
    pipe: &Pipe,
    variables: &Variables,
    places: &[Place<'_>],
    k: usize,
    lines: WidthLines,
) -> WidthLines
    requires here { k < length places.now }
    requires variables { variables.now ≡ spec.variables (pipe_view pipe.now) }
    requires lines { AreLines (pipe_view pipe.now) (take k (map place_view places.now)) lines }
    ensures { AreLines (pipe_view pipe.now) (take (k + 1) (map place_view places.now)) result }
{
    let place = &places[k];
    let faults = faults_at(
        variables,
        pipe.mems.as_slice(),
        pipe.params.as_slice(),
        place,
    );
    lines.with(faults, place.line())
}
