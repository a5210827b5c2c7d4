// A rule that is broken, with its place.
ghost use Rattle.std.specs.Prelude.{◌≡◌, option_map};
ghost use Rattle.pdl_rules.specs.Refusal.{refused_at};
ghost use Rattle.pdl_rules_on_texts.specs.Refused.{refused_of};

use pdl_kit::Rule;

/// A broken rule, and the line of the lowest place that breaks it, counted from 1.
#[derive(Clone, Copy)]
pub struct Broken {
    pub rule: Rule,
    pub line: u32,
}

/// The lowest of two answers: a rule with the line at which it is broken, if any, before what later rules answer.
pub fn lowest_of(rule: Rule, line: Option<u32>, later: Option<Broken>) -> Option<Broken>
    ensures { option_map refused_of result ≡ refused_at rule line (option_map refused_of later) }
{
    match line {
        Some(line) => Some(Broken { rule, line }),
        None => later,
    }
}
