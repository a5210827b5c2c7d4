// What is wrong with the instructions of a table.
ghost use Rattle.std.specs.Prelude.{◌≡◌, ◌==◌, Some, None, length, count_by, not, ◌&&◌, ◌||◌};
ghost use Rattle.std.specs.List.{list_all, list_any};
ghost use Rattle.pdl_asm_table.specs.Tables.{arguments, breaks_b3 as breaks_b3_of, breaks_b4 as breaks_b4_of, first_broken, is_bit as is_bit_of};
ghost use Rattle.pdl_image.specs.Images.{is_letter as is_letter_of};

use crate::names::is_letter;
use crate::table::{Arg, Insn};
use pdl_kit::Name;

// Whether a byte may stand in `bits`.
fn is_bit(byte: u8) -> bool
    ensures { result ≡ is_bit_of byte }
{
    byte == b'0' || byte == b'1' || is_letter(byte)
}

// Whether each byte may stand in `bits`.
fn are_bits(bits: &[u8]) -> bool
    ensures { result ≡ list_all is_bit_of bits.now }
{
    bits.iter().all(|bit| is_bit(*bit))
}

// Whether an instruction's bits are no word's.
fn breaks_b3(word: u8, insn: &Insn) -> bool
    ensures { result ≡ breaks_b3_of word insn.now }
{
    let bits = insn.bits.as_slice();
    !(are_bits(bits) && bits.len() == word as usize)
}

/// The number of the first instruction that breaks B3, counted from 1.
pub fn first_b3(word: u8, insns: &[(Name, Insn)]) -> Option<usize>
    ensures { result ≡ first_broken (breaks_b3_of word) 1 insns.now }
{
    for (i, insn) in insns.iter().enumerate() {
        if breaks_b3(word, &insn.1) {
            return Some(i + 1);
        }
    }
    None
}

// How many arguments have a letter.
fn count_args(args: &[Arg], letter: u8) -> usize
    ensures { result ≡ arguments args.now letter }
{
    args.iter().filter(|arg| arg.letter == letter).count()
}

// Whether a byte of `bits` is no letter, or that of one argument.
fn has_one_arg(args: &[Arg], bit: u8) -> bool
    ensures { result ≡ (not (is_letter_of bit) || arguments args.now bit == 1) }
{
    !is_letter(bit) || count_args(args, bit) == 1
}

// Whether a letter is in `bits`.
fn has_letter(bits: &[u8], letter: u8) -> bool
    ensures { result ≡ list_any (λ c. c == letter) bits.now }
{
    bits.iter().any(|bit| *bit == letter)
}

// Whether each letter of bits has one argument.
fn have_args(args: &[Arg], bits: &[u8]) -> bool
    ensures { result ≡ list_all (λ c. not (is_letter_of c) || arguments args.now c == 1) bits.now }
{
    bits.iter().all(|bit| has_one_arg(args, *bit))
}

// Whether each argument's letter is in `bits`.
fn have_letters(bits: &[u8], args: &[Arg]) -> bool
    ensures { result ≡ list_all (λ a. list_any (λ c. c == a.letter) bits.now) args.now }
{
    args.iter().all(|arg| has_letter(bits, arg.letter))
}

// Whether letters of bits and letters of arguments are not one to one.
fn breaks_b4(insn: &Insn) -> bool
    ensures { result ≡ breaks_b4_of insn.now }
{
    let args = insn.args.as_slice();
    let bits = insn.bits.as_slice();
    !(have_args(args, bits) && have_letters(bits, args))
}

/// The number of the first instruction that breaks B4, counted from 1.
pub fn first_b4(insns: &[(Name, Insn)]) -> Option<usize>
    ensures { result ≡ first_broken breaks_b4_of 1 insns.now }
{
    for (i, insn) in insns.iter().enumerate() {
        if breaks_b4(&insn.1) {
            return Some(i + 1);
        }
    }
    None
}
