// The rules that a line breaks.
ghost use Rattle.std.specs.Prelude.{◌≡◌, ◌≤◌, IfSome, Some, None, length, take};
ghost use Rattle.pdl_asm_table.specs.Dictionaries.{value_of};
ghost use Rattle.pdl_asm.specs.Values.{given_rule as given_rule_of, lower as lower_of, operands_rule as operands_rule_of, rank as rank_of, rule_of as rule_of_value};
ghost use Rattle.pdl_asm.specs.Assembly.{free_rule, insn_rule as insn_rule_of, is_address as is_address_of, label_rule as label_rule_of, line_rule as line_rule_of, operation_rule as operation_rule_of, place_rule as place_rule_of};
ghost use Rattle.pdl_word.specs.Words.{widest};

use crate::line::{AssemblyLine, Operand, Operands, Operation};
use crate::values::{argument_value, in_word};
use crate::whole::Whole;
use pdl_asm_table::{Arg, Dictionary, Insn, Table};
use pdl_kit::{Name, Rule};
use pdl_word::Word;

// The order of rules.
fn rank(rule: Option<Rule>) -> u8
    ensures { result ≡ rank_of rule }
{
    match rule {
        Some(Rule::A2) => 2,
        Some(Rule::A3) => 3,
        Some(Rule::A4) => 4,
        Some(Rule::A5) => 5,
        Some(Rule::A6) => 6,
        Some(Rule::A7) => 7,
        Some(Rule::A8) => 8,
        _ => 9,
    }
}

// The lower of two rules that may be broken.
fn lower(a: Option<Rule>, b: Option<Rule>) -> Option<Rule>
    ensures { result ≡ lower_of a b }
{
    if rank(a) <= rank(b) { a } else { b }
}

// The rule that stands in place of a value.
fn rule_of(value: Result<Word, Rule>) -> Option<Rule>
    ensures { result ≡ rule_of_value value }
{
    match value {
        Ok(_) => None,
        Err(rule) => Some(rule),
    }
}

// The lowest rule that operands break; A3 asks as many as arguments.
fn operands_rule(
    table: &Table,
    labels: &Dictionary<Whole>,
    place: &Whole,
    bits: &[u8],
    args: &[Arg],
    operands: &[Operand],
) -> Option<Rule>
    requires { length bits.now ≤ widest }
    ensures { result ≡ operands_rule_of table.now labels.now place.now bits.now args.now operands.now }
{
    match args {
        [arg, later_args @ ..] => match operands {
            [operand, later @ ..] => {
                let first = rule_of(argument_value(table, labels, place, bits, *arg, operand));
                let others = operands_rule(table, labels, place, bits, later_args, later);
                lower(first, others)
            }
            [] => Some(Rule::A3),
        },
        [] => {
            if operands.is_empty() {
                None
            } else {
                Some(Rule::A3)
            }
        }
    }
}

// The lowest rule that the operands of an instruction break.
fn given_rule(
    table: &Table,
    labels: &Dictionary<Whole>,
    place: &Whole,
    insn: &Insn,
    operands: &Operands,
) -> Option<Rule>
    requires { length insn.now.bits ≤ widest }
    ensures { result
        ≡ given_rule_of table.now labels.now place.now insn.now.bits insn.now.args operands.now }
{
    match operands {
        Operands::Few(few) => operands_rule(
            table,
            labels,
            place,
            insn.bits.as_slice(),
            insn.args.as_slice(),
            few.as_slice(),
        ),
        Operands::TooMany => Some(Rule::A3),
    }
}

// Whether a place is an address, 0 to 65,535.
fn is_address(place: &Whole) -> bool
    ensures { result ≡ is_address_of place.now }
{
    place.address().is_some()
}

// The rule that a word's place breaks; `taken` says whether a word was written there before.
fn place_rule(taken: bool, place: &Whole) -> Option<Rule>
    ensures { result ≡ place_rule_of taken place.now }
{
    if !is_address(place) {
        Some(Rule::A7)
    } else if taken {
        Some(Rule::A8)
    } else {
        None
    }
}

// The lowest rule that an instruction breaks.
fn insn_rule(
    table: &Table,
    labels: &Dictionary<Whole>,
    taken: bool,
    place: &Whole,
    name: &Name,
    operands: &Operands,
) -> Option<Rule>
    ensures { result ≡ insn_rule_of table.now labels.now taken place.now
        (value_of table.now.insns name.now) operands.now }
{
    match table.insn(name) {
        Some(insn) => lower(
            given_rule(table, labels, place, insn, operands),
            place_rule(taken, place),
        ),
        None => Some(Rule::A2),
    }
}

// The lowest rule that an operation breaks.
fn operation_rule(
    table: &Table,
    labels: &Dictionary<Whole>,
    taken: bool,
    place: &Whole,
    operation: &Operation,
) -> Option<Rule>
    ensures { result ≡ operation_rule_of table.now labels.now taken place.now operation.now }
{
    match operation {
        Operation::Nothing => None,
        Operation::At(number) => {
            if is_address(number.get()) {
                None
            } else {
                Some(Rule::A7)
            }
        }
        Operation::Word(number) => {
            let fits = in_word(table.word(), number.get()).is_some();
            lower(
                if fits { None } else { Some(Rule::A5) },
                place_rule(taken, place),
            )
        }
        Operation::Insn(name, operands) => {
            insn_rule(table, labels, taken, place, name, operands)
        }
    }
}

// The rule that a label breaks; lines before defined the first `before` of all labels.
fn label_rule(labels: &Dictionary<Whole>, before: usize, label: &Option<Name>) -> Option<Rule>
    ensures { result ≡ label_rule_of (take before labels.now) label.now }
{
    match label {
        Some(name) => {
            if labels.is_among(before, name) {
                Some(Rule::A6)
            } else {
                None
            }
        }
        None => None,
    }
}

/// The lowest rule that a line breaks, by all labels, of which lines before it defined the first `before`; `taken` says whether a word was written at its place before.
pub fn line_rule(
    table: &Table,
    labels: &Dictionary<Whole>,
    before: usize,
    taken: bool,
    place: &Whole,
    line: &Option<AssemblyLine>,
) -> Option<Rule>
    ensures { result
        ≡ line_rule_of table.now labels.now (take before labels.now) taken place.now line.now }
{
    match line {
        Some(line) => lower(
            operation_rule(table, labels, taken, place, &line.operation),
            label_rule(labels, before, &line.label),
        ),
        None => Some(Rule::A1),
    }
}
