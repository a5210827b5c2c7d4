// The numbers that digits write.
ghost use Rattle.std.specs.Prelude.{IfSome, option_map, pos, ◌^◌, ◌≡◌, ◌≤ℤ◌};
ghost use Rattle.pdl_asm.specs.Lines.{decimal_of, hexadecimal_of};

use crate::whole::Whole;
use pdl_word::{MOST_DECIMAL, MOST_HEX, read_digits};

/// The number that 1 to `MOST_DECIMAL` decimal digits write.
#[tactic(auto, using(crate::proofs::LastDigits::no_digit, crate::proofs::LastDigits::one_digit, crate::proofs::LastDigits::no_tens, crate::proofs::LastDigits::no_units, crate::proofs::LastDigits::tens_and_units))]
pub fn read_decimal(digits: &[u8]) -> Option<Whole>
    ensures value { result ≡ option_map pos (decimal_of digits.now) }
    ensures low { IfSome result (λ n. pos 0 ≤ℤ n) }
    ensures high { IfSome result (λ n. n ≤ℤ pos (10 ^ 39)) }
{
    if digits.len() <= 1 {
        let units = read_digits(digits, 10, 1)?;
        return Some(Whole::from_parts(0, units as u8));
    }
    let end = digits.len() - 1;
    let tens = read_digits(&digits[..end], 10, MOST_DECIMAL - 1)?;
    let units = read_digits(&digits[end..], 10, 1)?;
    Some(Whole::from_parts(tens, units as u8))
}

/// The number that 1 to `MOST_HEX` lower hexadecimal digits write.
pub fn read_hexadecimal(digits: &[u8]) -> Option<Whole>
    ensures value { result ≡ option_map pos (hexadecimal_of digits.now) }
    ensures low { IfSome result (λ n. pos 0 ≤ℤ n) }
    ensures high { IfSome result (λ n. n ≤ℤ pos (10 ^ 39)) }
{
    let word = read_digits(digits, 16, MOST_HEX)?;
    Some(Whole::from_parts(word / 10, (word % 10) as u8))
}
