// Numbers and literals.
ghost use Rattle.std.specs.Prelude.{◌≡◌, ◌≤◌, ◌<◌, ◌+◌, ◌^◌, All, length, take, take_while, drop, codes, IsTrue};
ghost use Rattle.std.specs.List.{prefix_len};
ghost use Rattle.pdl_syntax_tokens.specs.Tokens as spec;
ghost use Rattle.pdl_syntax_tokens.specs.DigitValues.{with_digit};

use crate::bytes::{digit_length, hex_length, is_digit, is_hex};
use crate::token::TokenKind;
use pdl_word::{MOST_DECIMAL, MOST_HEX, Word};

// The value of a digit of base 10 or 16.
fn digit_value(c: u8) -> Word
    ensures { result ≡ spec.digit_value c }
{
    if is_digit(c) {
        Word::from(c) - 48
    } else if is_hex(c) {
        Word::from(c) - 87
    } else {
        0
    }
}

// The value with one more digit, where it fits.
fn with_digit(value: Option<Word>, base: Word, c: u8) -> Option<Word>
    ensures { result ≡ with_digit base value c }
{
    value?.checked_mul(base)?.checked_add(digit_value(c))
}

// The value of digits, where it fits a `Word`.
fn digits_value(digits: &[u8], base: Word) -> Option<Word>
    requires { 1 ≤ base }
    ensures { result ≡ spec.fitting (spec.value_of base digits.now) }
{
    let mut value = Some(0);
    for c in digits {
        value = with_digit(value, base, *c);
    }
    value
}

/// A number of at most 10 digits.
#[tactic(auto, using(crate::proofs::Values::ten_digits, crate::proofs::Values::ten_small))]
pub fn number_kind(digits: &[u8]) -> TokenKind
    ensures { result ≡ spec.number_kind digits.now }
{
    if digits.len() > 10 {
        return TokenKind::Bad;
    }
    match digits_value(digits, 10) {
        Some(value) => TokenKind::Number(value as u64),
        None => TokenKind::Bad,
    }
}

// How many digits of a base a literal may have.
fn most_digits(base: Word) -> usize
    ensures { result ≡ spec.most_digits base }
{
    if base == 16 { MOST_HEX } else { MOST_DECIMAL }
}

/// A literal: a number for its width, and digits in a base, at most `MOST_HEX` in base 16 and else at most `MOST_DECIMAL`.
pub fn literal_kind(width: &[u8], base: Word, digits: &[u8]) -> TokenKind
    requires { 1 ≤ base }
    ensures { result ≡ spec.literal_kind width.now base digits.now }
{
    if digits.len() > most_digits(base) {
        return TokenKind::Bad;
    }
    match number_kind(width) {
        TokenKind::Number(width) => TokenKind::Literal {
            width,
            value: digits_value(digits, base),
        },
        _ => TokenKind::Bad,
    }
}

/// The decimal digits after `'d`.
pub fn decimal_digits(bytes: &[u8]) -> &[u8]
    ensures value { result.now ≡ spec.digits_after (codes "'d") spec.is_digit bytes.now }
    ensures within { length result.now ≤ length bytes.now }
{
    if bytes.starts_with(b"'d") {
        let after = &bytes[2..];
        &after[..digit_length(after)]
    } else {
        &[]
    }
}

/// The digits of base 16 after `'h`.
pub fn hex_digits(bytes: &[u8]) -> &[u8]
    ensures value { result.now ≡ spec.digits_after (codes "'h") spec.is_hex bytes.now }
    ensures within { length result.now ≤ length bytes.now }
{
    if bytes.starts_with(b"'h") {
        let after = &bytes[2..];
        &after[..hex_length(after)]
    } else {
        &[]
    }
}
