// Numbers and operands of a line.
ghost use Rattle.std.specs.Prelude.{◌≡◌, ◌≤◌, ◌<◌, ◌==◌, ◌^◌, IfOk, IfSome, MatchOption, OnOk, Some, None, option_map, pos, ◌≤ℤ◌, [], ◌∷◌, ◌++◌, length, take};
ghost use Rattle.std.specs.List.{slice_split};
ghost use Rattle.std.specs.Option.{option_copied};
ghost use Rattle.pdl_asm.specs.Lines.{counted as counted_of, magnitude_of, number_of, operand_of, operands_given, parts_after};

use crate::digits::{read_decimal, read_hexadecimal};
use crate::line::{Operand, Operands};
use crate::number::SignedNumber;
use crate::text::without_blanks;
use crate::whole::Whole;
use pdl_image::{find_byte, is_name};
use pdl_kit::{Name, NoMemory, Seq};
use std::alloc::Global;

// The magnitude that `0x` and hexadecimal digits, or decimal digits, write.
fn read_magnitude(text: &[u8]) -> Option<Whole>
    ensures value { result ≡ option_map pos (magnitude_of text.now) }
    ensures low { IfSome result (λ n. pos 0 ≤ℤ n) }
    ensures high { IfSome result (λ n. n ≤ℤ pos (10 ^ 39)) }
{
    match text {
        [b'0', b'x', digits @ ..] => read_hexadecimal(digits),
        _ => read_decimal(text),
    }
}

/// The number that a text is, if it is one.
pub fn read_number(text: &[u8]) -> Option<SignedNumber>
    ensures { result ≡ number_of text.now }
{
    match text {
        [b'-', magnitude @ ..] => match read_magnitude(magnitude) {
            Some(magnitude) => Some(SignedNumber::negative(&magnitude)),
            None => None,
        },
        _ => match read_magnitude(text) {
            Some(magnitude) => Some(SignedNumber::from_magnitude(magnitude)),
            None => None,
        },
    }
}

// The operand that a text is, if it is one.
fn read_operand(alloc: Global, text: &[u8]) -> Result<Option<Operand>, NoMemory>
    ensures { IfOk result (λ o. o ≡ operand_of text.now) }
{
    if is_name(text) {
        return Ok(Some(Operand::Label(Name::copy_of(alloc, text)?)));
    }
    match read_number(text) {
        Some(number) => Ok(Some(Operand::Number(number))),
        None => Ok(None),
    }
}

// The text before the first comma, and the text after it, if there is one.
#[tactic(auto, using(crate::proofs::Operands::commas_at, crate::proofs::Operands::commas_none))]
fn split_part(text: &[u8]) -> (&[u8], Option<&[u8]>)
    ensures parts { slice_split (λ c. c == 44) text.now
        ≡ result.0.now ∷ parts_after (option_copied result.1) }
    ensures shorter { IfSome result.1 (λ r. length r.now < length text.now) }
{
    match find_byte(text, b',') {
        Some(end) => (&text[..end], Some(&text[end + 1..])),
        None => (text, None),
    }
}

/// More operands than this no instruction has: each argument has a letter of its own.
const MOST: usize = 64;

// The operands that were read, of which one too many is enough.
fn counted(operands: Seq<Operand>) -> Operands
    ensures { result ≡ counted_of operands }
{
    if operands.len() <= MOST {
        Operands::Few(operands)
    } else {
        Operands::TooMany
    }
}

// Appends an operand, unless there is one too many already.
fn add(operands: &mut Seq<Operand>, operand: Operand) -> Result<(), NoMemory>
    requires { length operands.old ≤ 65 }
    ensures { OnOk result (operands.new ≡ take 65 (operands.old ++ operand ∷ [])) }
{
    if operands.len() <= MOST {
        operands.push(operand)?;
    }
    Ok(())
}

/// The operands that commas separate, if each is one; an empty text has none. It keeps no more than one too many.
pub fn read_operands(alloc: Global, text: &[u8]) -> Result<Option<Operands>, NoMemory>
    ensures { IfOk result (λ o. o ≡ operands_given text.now) }
{
    let mut operands = Seq::new(alloc);
    if text.is_empty() {
        return Ok(Some(counted(operands)));
    }
    let mut rest = Some(text);
    while let Some(text) = rest {
        let (part, later) = split_part(text);
        match read_operand(alloc, without_blanks(part))? {
            Some(operand) => add(&mut operands, operand)?,
            None => return Ok(None),
        }
        rest = later;
    }
    Ok(Some(counted(operands)))
}
