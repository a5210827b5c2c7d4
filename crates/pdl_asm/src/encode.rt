// The words that lines give.
ghost use Rattle.std.specs.Prelude.{◌≡◌, ◌≤◌, ◌<◌, ◌^◌, Some, None, IfSome, length};
ghost use Rattle.pdl_asm_table.specs.Dictionaries.{value_of};
ghost use Rattle.pdl_asm.specs.Values.{bit_of, given_value as given_value_of, letter_value as letter_value_of, word_of_bits};
ghost use Rattle.pdl_asm.specs.Assembly.{insn_word as insn_word_of, line_word as line_word_of, operation_word as operation_word_of};
ghost use Rattle.pdl_word.specs.Words.{widest};

use crate::line::{AssemblyLine, Operand, Operands, Operation};
use crate::values::{argument_value, field_bits, in_word};
use crate::whole::Whole;
use pdl_asm_table::{Arg, Dictionary, Insn, Table};
use pdl_kit::Name;
use pdl_word::Word;

// The value of a letter: that of its argument's operand.
fn letter_value(
    table: &Table,
    labels: &Dictionary<Whole>,
    place: &Whole,
    bits: &[u8],
    args: &[Arg],
    operands: &[Operand],
    letter: u8,
) -> Word
    requires { length bits.now ≤ widest }
    ensures { result
        ≡ letter_value_of table.now labels.now place.now bits.now args.now operands.now letter }
{
    match args {
        [arg, later_args @ ..] => match operands {
            [operand, later @ ..] => {
                if arg.letter == letter {
                    argument_value(table, labels, place, bits, *arg, operand).unwrap_or(0)
                } else {
                    letter_value(table, labels, place, bits, later_args, later, letter)
                }
            }
            [] => 0,
        },
        [] => 0,
    }
}

// The value of a letter among the operands of an instruction.
fn given_value(
    table: &Table,
    labels: &Dictionary<Whole>,
    place: &Whole,
    insn: &Insn,
    operands: &Operands,
    letter: u8,
) -> Word
    requires { length insn.now.bits ≤ widest }
    ensures { result
        ≡ given_value_of table.now labels.now place.now insn.now.bits insn.now.args operands.now
        letter }
{
    match operands {
        Operands::Few(few) => letter_value(
            table,
            labels,
            place,
            insn.bits.as_slice(),
            insn.args.as_slice(),
            few.as_slice(),
            letter,
        ),
        Operands::TooMany => 0,
    }
}

// The bit of an instruction's, to the right of which others stand.
fn read_bit(
    table: &Table,
    labels: &Dictionary<Whole>,
    place: &Whole,
    insn: &Insn,
    operands: &Operands,
    bit: u8,
    right: &[u8],
) -> Word
    requires whole { length insn.now.bits ≤ widest }
    requires right { length right.now < widest }
    ensures value { result ≡ bit_of
        (given_value_of table.now labels.now place.now insn.now.bits insn.now.args operands.now)
        bit right.now }
    ensures one { result ≤ 1 }
{
    match bit {
        b'0' => 0,
        b'1' => 1,
        letter => {
            let value = given_value(table, labels, place, insn, operands, letter);
            (value >> field_bits(right, letter)) % 2
        }
    }
}

// The word of some of an instruction's bits, up to the last.
fn word_of(
    table: &Table,
    labels: &Dictionary<Whole>,
    place: &Whole,
    insn: &Insn,
    operands: &Operands,
    bits: &[u8],
) -> Word
    requires whole { length insn.now.bits ≤ widest }
    requires few { length bits.now ≤ widest }
    ensures value { result ≡ word_of_bits
        (given_value_of table.now labels.now place.now insn.now.bits insn.now.args operands.now)
        bits.now }
    ensures small { result < 2 ^ length bits.now }
{
    match bits {
        [] => 0,
        [bit, right @ ..] => {
            let high = read_bit(table, labels, place, insn, operands, *bit, right);
            let low = word_of(table, labels, place, insn, operands, right);
            (high << right.len()) + low
        }
    }
}

// The word of an instruction at a place.
fn insn_word(
    table: &Table,
    labels: &Dictionary<Whole>,
    place: &Whole,
    name: &Name,
    operands: &Operands,
) -> Option<Word>
    ensures { result
        ≡ insn_word_of table.now labels.now place.now (value_of table.now.insns name.now) operands.now }
{
    match table.insn(name) {
        Some(insn) => Some(word_of(table, labels, place, insn, operands, insn.bits.as_slice())),
        None => None,
    }
}

// The word that an operation gives at a place.
fn operation_word(
    table: &Table,
    labels: &Dictionary<Whole>,
    place: &Whole,
    operation: &Operation,
) -> Option<Word>
    ensures { result ≡ operation_word_of table.now labels.now place.now operation.now }
{
    match operation {
        Operation::Nothing => None,
        Operation::At(_) => None,
        Operation::Word(number) => in_word(table.word(), number.get()),
        Operation::Insn(name, operands) => insn_word(table, labels, place, name, operands),
    }
}

/// The word that a line gives at a place, if it gives one.
pub fn line_word(
    table: &Table,
    labels: &Dictionary<Whole>,
    place: &Whole,
    line: &Option<AssemblyLine>,
) -> Option<Word>
    ensures { result ≡ line_word_of table.now labels.now place.now line.now }
{
    match line {
        Some(line) => operation_word(table, labels, place, &line.operation),
        None => None,
    }
}
