// The lines of the places that break the rules on widths first.
ghost use Rattle.std.specs.Prelude.{◌≡◌, option_map, None};
ghost use Rattle.pdl_kit.specs.declared.rule.Rule.TheVariants as names;
ghost use Rattle.pdl_rules.specs.Refusal.{refused_at};
ghost use Rattle.pdl_rules_on_texts.specs.NotedLine.{noted_line as spec_noted};
ghost use Rattle.pdl_rules_on_texts.specs.Refused.{refused_of};

use crate::faults::Faults;
use pdl_kit::Rule;
use pdl_rules_on_texts::{Broken, lowest_of, noted_line};

/// Of each rule on widths the line of the first place that breaks it.
#[derive(Clone, Copy)]
pub struct WidthLines {
    pub w1: Option<u32>,
    pub w2: Option<u32>,
    pub w3: Option<u32>,
    pub w4: Option<u32>,
    pub w5: Option<u32>,
    pub w6: Option<u32>,
}

impl WidthLines {
    /// No rule is broken yet.
    pub fn new() -> WidthLines
        ensures w1 { result.w1 ≡ None }
        ensures w2 { result.w2 ≡ None }
        ensures w3 { result.w3 ≡ None }
        ensures w4 { result.w4 ≡ None }
        ensures w5 { result.w5 ≡ None }
        ensures w6 { result.w6 ≡ None }
    {
        WidthLines {
            w1: None,
            w2: None,
            w3: None,
            w4: None,
            w5: None,
            w6: None,
        }
    }

    /// The lines with one place more: what it breaks, and its line.
    pub fn with(self, faults: Faults, line: u32) -> WidthLines
        ensures w1 { result.w1 ≡ spec_noted self.w1 faults.w1 line }
        ensures w2 { result.w2 ≡ spec_noted self.w2 faults.w2 line }
        ensures w3 { result.w3 ≡ spec_noted self.w3 faults.w3 line }
        ensures w4 { result.w4 ≡ spec_noted self.w4 faults.w4 line }
        ensures w5 { result.w5 ≡ spec_noted self.w5 faults.w5 line }
        ensures w6 { result.w6 ≡ spec_noted self.w6 faults.w6 line }
    {
        WidthLines {
            w1: noted_line(self.w1, faults.w1, line),
            w2: noted_line(self.w2, faults.w2, line),
            w3: noted_line(self.w3, faults.w3, line),
            w4: noted_line(self.w4, faults.w4, line),
            w5: noted_line(self.w5, faults.w5, line),
            w6: noted_line(self.w6, faults.w6, line),
        }
    }

    /// The lowest rule that is broken, with its line.
    pub fn lowest(self) -> Option<Broken>
        ensures { option_map refused_of result
            ≡ refused_at names.W1 self.w1
            (refused_at names.W2 self.w2
            (refused_at names.W3 self.w3
            (refused_at names.W4 self.w4
            (refused_at names.W5 self.w5 (refused_at names.W6 self.w6 None))))) }
    {
        let last = lowest_of(Rule::W6, self.w6, None);
        let last = lowest_of(Rule::W5, self.w5, last);
        let last = lowest_of(Rule::W4, self.w4, last);
        let last = lowest_of(Rule::W3, self.w3, last);
        let last = lowest_of(Rule::W2, self.w2, last);
        lowest_of(Rule::W1, self.w1, last)
    }
}
