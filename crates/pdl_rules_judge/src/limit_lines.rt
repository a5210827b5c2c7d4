// The lines of the places that break a limit first.
ghost use Rattle.std.specs.Prelude.{◌≡◌, option_map, None};
ghost use Rattle.pdl_kit.specs.declared.rule.Rule.TheVariants as names;
ghost use Rattle.pdl_rules.specs.Refusal.{refused_at};
ghost use Rattle.pdl_rules_on_texts.specs.NotedLine.{noted_line as spec_noted};
ghost use Rattle.pdl_rules_on_texts.specs.Refused.{refused_of};

use crate::over::Over;
use pdl_kit::Rule;
use pdl_rules_on_texts::{Broken, lowest_of, noted_line};

/// Of each limit the line of the first place that breaks it.
#[derive(Clone, Copy)]
pub struct Lines {
    pub z2: Option<u32>,
    pub z3: Option<u32>,
    pub z4: Option<u32>,
    pub z5: Option<u32>,
    pub z6: Option<u32>,
    pub z7: Option<u32>,
}

impl Lines {
    /// No rule is broken yet.
    pub fn new() -> Lines
        ensures z2 { result.z2 ≡ None }
        ensures z3 { result.z3 ≡ None }
        ensures z4 { result.z4 ≡ None }
        ensures z5 { result.z5 ≡ None }
        ensures z6 { result.z6 ≡ None }
        ensures z7 { result.z7 ≡ None }
    {
        Lines {
            z2: None,
            z3: None,
            z4: None,
            z5: None,
            z6: None,
            z7: None,
        }
    }

    /// The lines with one place more: what it breaks, and its line.
    pub fn with(self, over: Over, line: u32) -> Lines
        ensures z2 { result.z2 ≡ spec_noted self.z2 over.z2 line }
        ensures z3 { result.z3 ≡ spec_noted self.z3 over.z3 line }
        ensures z4 { result.z4 ≡ spec_noted self.z4 over.z4 line }
        ensures z5 { result.z5 ≡ spec_noted self.z5 over.z5 line }
        ensures z6 { result.z6 ≡ spec_noted self.z6 over.z6 line }
        ensures z7 { result.z7 ≡ spec_noted self.z7 over.z7 line }
    {
        Lines {
            z2: noted_line(self.z2, over.z2, line),
            z3: noted_line(self.z3, over.z3, line),
            z4: noted_line(self.z4, over.z4, line),
            z5: noted_line(self.z5, over.z5, line),
            z6: noted_line(self.z6, over.z6, line),
            z7: noted_line(self.z7, over.z7, line),
        }
    }

    /// The lowest rule that is broken, with its line.
    pub fn lowest(self) -> Option<Broken>
        ensures { option_map refused_of result
            ≡ refused_at names.Z2 self.z2
            (refused_at names.Z3 self.z3
            (refused_at names.Z4 self.z4
            (refused_at names.Z5 self.z5
            (refused_at names.Z6 self.z6 (refused_at names.Z7 self.z7 None))))) }
    {
        let last = lowest_of(Rule::Z7, self.z7, None);
        let last = lowest_of(Rule::Z6, self.z6, last);
        let last = lowest_of(Rule::Z5, self.z5, last);
        let last = lowest_of(Rule::Z4, self.z4, last);
        let last = lowest_of(Rule::Z3, self.z3, last);
        lowest_of(Rule::Z2, self.z2, last)
    }
}
