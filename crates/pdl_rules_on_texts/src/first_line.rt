// The line of the first place that breaks a rule, as a walk over the places goes on.
ghost use Rattle.std.specs.Prelude.{◌≡◌};
ghost use Rattle.pdl_rules_on_texts.specs.NotedLine.{noted_line as spec_noted};

/// The line of the first place that breaks a rule, if any, with one place more: whether it breaks the rule, and its line.
pub fn noted_line(first: Option<u32>, broken: bool, line: u32) -> Option<u32>
    ensures { result ≡ spec_noted first broken line }
{
    match first {
        Some(first) => Some(first),
        None => { if broken { Some(line) } else { None } }
    }
}
