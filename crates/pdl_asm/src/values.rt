// The values of operands.
ghost use Rattle.std.specs.Prelude.{◌≡◌, ◌≤◌, ◌<◌, ◌^◌, ◌-ℤ◌, IfOk, IfSome, Some, None, length};
ghost use Rattle.std.specs.Option.{option_copied};
ghost use Rattle.pdl_asm.specs.Values.{amount as amount_of, argument_value as argument_value_of, field_bits as field_bits_of, in_word as in_word_of, operand_value as operand_value_of, or_a5 as or_a5_of, reg_value, signed_field as signed_of, unsigned_field as unsigned_of};
ghost use Rattle.pdl_word.specs.Words.{widest};

use crate::line::Operand;
use crate::sign::{has_bits, ones};
use crate::whole::Whole;
use pdl_asm_table::{Arg, ArgumentKind, Dictionary, Table};
use pdl_kit::Rule;
use pdl_word::Word;

// A number in a field of so many bits: 0 to 2^f - 1.
#[tactic(auto, using(crate::proofs::Far::unsigned_none))]
fn unsigned_field(field: u8, number: &Whole) -> Option<Word>
    requires { field ≤ widest }
    ensures { result ≡ unsigned_of field number.now }
{
    let word = number.to_word()?;
    if has_bits(word, field) {
        Some(word)
    } else {
        None
    }
}

// A number in two's complement in a field of so many bits: -2^(f-1) to 2^(f-1) - 1.
#[tactic(auto, using(crate::proofs::Far::signed_none, crate::proofs::Far::signed_below, crate::proofs::Far::half_below))]
fn signed_field(field: u8, number: &Whole) -> Option<Word>
    requires { field ≤ widest }
    ensures { result ≡ signed_of field number.now }
{
    let half = field.saturating_sub(1);
    if number.is_negative() {
        let word = number.complement().to_word()?;
        return if has_bits(word, half) {
            Some(ones(field) - word)
        } else {
            None
        };
    }
    let word = number.to_word()?;
    if has_bits(word, half) {
        Some(word)
    } else {
        None
    }
}

/// A number in a word of so many bits: -2^(bits-1) to 2^bits - 1.
pub fn in_word(bits: u8, number: &Whole) -> Option<Word>
    requires { bits ≤ widest }
    ensures { result ≡ in_word_of bits number.now }
{
    if number.is_negative() {
        signed_field(bits, number)
    } else {
        unsigned_field(bits, number)
    }
}

// A value, or that there is none in the field.
fn or_a5(value: Option<Word>) -> Result<Word, Rule>
    ensures { result ≡ or_a5_of value }
{
    match value {
        Some(value) => Ok(value),
        None => Err(Rule::A5),
    }
}

// A number, or the place of a label.
fn amount<'a>(labels: &'a Dictionary<Whole>, operand: &'a Operand) -> Option<&'a Whole>
    ensures { option_copied result ≡ amount_of labels.now operand.now }
{
    match operand {
        Operand::Label(name) => labels.get(name),
        Operand::Number(number) => Some(number.get()),
    }
}

// The value of a register in a field.
fn register(field: u8, number: Option<u32>) -> Result<Word, Rule>
    requires { field ≤ widest }
    ensures { result ≡ reg_value field number }
{
    match number {
        Some(number) => or_a5(unsigned_field(field, &Whole::from_count(number))),
        None => Err(Rule::A4),
    }
}

// A number less a place, in two's complement in a field.
#[tactic(auto, using(crate::proofs::Far::far_signed))]
fn relative(field: u8, number: &Whole, place: &Whole) -> Option<Word>
    requires { field ≤ widest }
    ensures { result ≡ signed_of field (number.now -ℤ place.now) }
{
    match number.minus(place) {
        Some(distance) => signed_field(field, &distance),
        None => None,
    }
}

/// The value of an operand in a field of so many bits of the word at a place, or the rule that it breaks.
pub fn operand_value(
    table: &Table,
    labels: &Dictionary<Whole>,
    place: &Whole,
    field: u8,
    kind: ArgumentKind,
    operand: &Operand,
) -> Result<Word, Rule>
    requires { field ≤ widest }
    ensures { result ≡ operand_value_of table.now labels.now place.now field kind operand.now }
{
    match kind {
        ArgumentKind::Reg => match operand {
            Operand::Label(name) => register(field, table.reg(name)),
            Operand::Number(_) => Err(Rule::A4),
        },
        ArgumentKind::Uint => match amount(labels, operand) {
            Some(number) => or_a5(unsigned_field(field, number)),
            None => Err(Rule::A6),
        },
        ArgumentKind::Sint => match operand {
            Operand::Label(_) => Err(Rule::A5),
            Operand::Number(number) => or_a5(signed_field(field, number.get())),
        },
        ArgumentKind::Rel => match amount(labels, operand) {
            Some(number) => or_a5(relative(field, number, place)),
            None => Err(Rule::A6),
        },
    }
}

/// How many bits of an instruction's are those of a letter.
pub fn field_bits(bits: &[u8], letter: u8) -> u8
    requires { length bits.now ≤ widest }
    ensures value { result ≡ field_bits_of bits.now letter }
    ensures few { result ≤ length bits.now }
{
    let mut count = 0;
    for bit in bits {
        if *bit == letter {
            count += 1;
        }
    }
    count
}

/// The value of an argument's operand, or the rule that it breaks.
pub fn argument_value(
    table: &Table,
    labels: &Dictionary<Whole>,
    place: &Whole,
    bits: &[u8],
    arg: Arg,
    operand: &Operand,
) -> Result<Word, Rule>
    requires { length bits.now ≤ widest }
    ensures { result ≡ argument_value_of table.now labels.now place.now bits.now arg operand.now }
{
    let field = field_bits(bits, arg.letter);
    operand_value(table, labels, place, field, arg.kind, operand)
}
