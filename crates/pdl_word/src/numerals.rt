// Numbers as digits write them.
ghost use Rattle.std.specs.Prelude.{MatchOption, IfSome, true, false, ◌<◌, ◌^◌, ◌≡◌, ◌≤◌};
ghost use Rattle.std.specs.Char.{digit_value};
ghost use Rattle.std.specs.Str.Parse.{digits_value};
ghost use Rattle.pdl_word.specs.Digits.{are_digits, hex_digit as hex_digit_of, is_digit_of};

use crate::Word;

// The value of a digit of a base, where a letter is a lower one.
fn digit_in(byte: u8, base: u128) -> Option<u128>
    requires { base ≤ 36 }
    ensures { MatchOption result (is_digit_of base byte ≡ false)
        (λ d. (is_digit_of base byte ≡ true) × (d ≡ digit_value byte) × (d < base)) }
{
    let digit = match byte {
        b'0'..=b'9' => u128::from(byte - b'0'),
        b'a'..=b'z' => u128::from(byte - b'a') + 10,
        _ => return None,
    };
    if digit < base { Some(digit) } else { None }
}

/// The number that digits of a base write, the highest first and letters lower ones, where there is at least one and there are at most so many.
pub fn read_digits(digits: &[u8], base: u128, most: usize) -> Option<u128>
    requires low { 1 ≤ base }
    requires high { base ≤ 36 }
    requires room { base ^ most ≤ 2 ^ 128 }
    ensures value { MatchOption result (are_digits base most digits.now ≡ false)
        (λ n. (are_digits base most digits.now ≡ true) × (n ≡ digits_value base digits.now)) }
    ensures below { IfSome result (λ n. n < base ^ most) }
{
    if digits.is_empty() || digits.len() > most {
        return None;
    }
    let mut number = 0;
    for byte in digits {
        let digit = digit_in(*byte, base)?;
        number = number * base + digit;
    }
    Some(number)
}

/// The lower hexadecimal digit of a number below 16.
pub fn hex_digit(n: Word) -> u8
    requires { n < 16 }
    ensures { result ≡ hex_digit_of n }
{
    if n < 10 {
        b'0' + n as u8
    } else {
        b'a' + (n as u8 - 10)
    }
}
