// Numbers and constants as they are written.
ghost use Rattle.std.specs.Prelude.{MatchOption, IfSome, true, false, ◌<◌, ◌^◌, ◌≡◌, ◌≤◌, length};
ghost use Rattle.std.specs.Char.{digit_value};
ghost use Rattle.std.specs.Str.Parse.{digits_value};
ghost use Rattle.std.specs.List.{prefix_len};
ghost use Rattle.pdl_vread_text.specs.Words as spec;
ghost use Rattle.pdl_vread_text.specs.Tokens.{is_digit as is_digit_byte};

use crate::bytes::is_digit;
use pdl_word::{MOST_HEX, Word, read_digits};

/// A constant: its width in bits as it is written, and its value.
#[derive(Clone, Copy)]
pub struct Constant {
    pub width: u32,
    pub value: Word,
}

/// The value of 1 to 6 decimal digits.
#[tactic(auto, unfolding(crate::specs::Words::number_of))]
pub fn number_of(text: &[u8]) -> Option<u32>
    ensures { result ≡ spec.number_of text.now }
{
    match read_digits(text, 10, 6) {
        Some(number) => Some(number as u32),
        None => None,
    }
}

// How many of the first bytes are decimal digits.
fn digit_length(bytes: &[u8]) -> usize
    ensures value { result ≡ prefix_len is_digit_byte bytes.now }
    ensures within { result ≤ length bytes.now }
{
    bytes.iter().take_while(|c| is_digit(**c)).count()
}

// The value of `'h` and 1 to `MOST_HEX` lower hexadecimal digits.
fn hex_part(text: &[u8]) -> Option<Word>
    ensures { result ≡ spec.hex_part text.now }
{
    if !text.starts_with(b"'h") {
        return None;
    }
    read_digits(&text[2..], 16, MOST_HEX)
}

/// The constant that a number of 1 to 6 decimal digits, `'h` and 1 to `MOST_HEX` lower hexadecimal digits write.
#[tactic(auto, unfolding(crate::specs::Words::constant_of))]
pub fn constant_of(text: &[u8]) -> Option<Constant>
    ensures { result ≡ spec.constant_of text.now }
{
    let size = digit_length(text);
    match number_of(&text[..size]) {
        Some(width) => match hex_part(&text[size..]) {
            Some(value) => Some(Constant { width, value }),
            None => None,
        },
        None => None,
    }
}
