//! What a line of an image says by itself.
ghost use Rattle.std.specs.Prelude.{MatchOption, None, Some, ◌≡◌};
ghost use Rattle.pdl_image.specs.Images.{ends_of, range_of, says_nothing as says_nothing_of, words_in};

use crate::fields::{is_name, split_field};
use crate::lines::find_byte;
use pdl_word::{MOST_HEX, Word, read_digits};

/// The first and the last of the addresses that a line gives words to, both meant.
#[derive(Clone, Copy)]
pub struct Ends {
    pub from: u64,
    pub to: u64,
}

/// What a line gives: the memory's name, the addresses, and the value that each of them gets.
#[derive(Clone, Copy)]
pub struct LineWords<'a> {
    pub name: &'a [u8],
    pub ends: Ends,
    pub value: Word,
}

/// Whether a line is empty or a comment.
pub fn says_nothing(line: &[u8]) -> bool
    ensures { result ≡ says_nothing_of line.now }
{
    line.is_empty() || matches!(line, [b'/', b'/', ..])
}

// The ends of a range of the form `<from>..<to>`.
fn read_range(text: &[u8]) -> Option<Ends>
    ensures { result ≡ range_of text.now }
{
    let point = find_byte(text, b'.')?;
    if !text[point..].starts_with(b"..") {
        return None;
    }
    Some(Ends {
        from: read_digits(&text[..point], 10, 10)? as u64,
        to: read_digits(&text[point + 2..], 10, 10)? as u64,
    })
}

// The addresses that the second part of a line gives, which may be a range where that may stand.
#[tactic(auto, unfolding(crate::specs::Images::ends_of))]
fn read_ends(text: &[u8], ranged: bool) -> Option<Ends>
    ensures { result ≡ ends_of ranged text.now }
{
    if let Some(address) = read_digits(text, 10, 10) {
        return Some(Ends {
            from: address as u64,
            to: address as u64,
        });
    }
    if ranged { read_range(text) } else { None }
}

/// What a line of the form `<mem> <address> <hex>` gives, or, where ranges may stand, one of the form `<mem> <from>..<to> <hex>`.
#[tactic(auto, using(crate::proofs::LineWords::one_part, crate::proofs::LineWords::two_parts, crate::proofs::LineWords::no_name, crate::proofs::LineWords::no_address, crate::proofs::LineWords::no_value, crate::proofs::LineWords::words_found))]
pub fn read_words(line: &[u8], ranged: bool) -> Option<LineWords<'_>>
    ensures { MatchOption result (words_in ranged line.now ≡ None) (λ w. words_in ranged line.now
        ≡ Some (record { name = w.name.now; ends = w.ends; value = w.value })) }
{
    let (name, after_name) = split_field(line)?;
    let (addresses, value) = split_field(after_name)?;
    if !is_name(name) {
        return None;
    }
    Some(LineWords {
        name,
        ends: read_ends(addresses, ranged)?,
        value: read_digits(value, 16, MOST_HEX)?,
    })
}
