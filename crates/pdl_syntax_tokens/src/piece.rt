// The piece of text at the front of bytes.
ghost use Rattle.std.specs.Prelude.{◌≡◌, ◌≤◌, ◌<◌, ◌+◌, ◌∷◌, length, take, take_while, drop, codes, IsTrue, Some};
ghost use Rattle.std.specs.List.{prefix_len};
ghost use Rattle.pdl_syntax_tokens.specs.Tokens as spec;
ghost use Rattle.pdl_syntax_tokens.specs.declared.token.TokenKind.TheVariants as kind;
ghost use Rattle.pdl_syntax_tokens.specs.Pieces.{piece_view, IsFront};

use crate::bytes::{digit_length, is_blank, is_digit, is_lower, line_length, word_length};
use crate::digits::{decimal_digits, hex_digits, literal_kind, number_kind};
use crate::spelling::{Symbols, beginning, keyword, symbols_at};
use crate::token::{Mark, TokenKind};

/// What stands at the front: a token, or white space or a comment, and how many bytes it takes.
#[derive(Clone, Copy)]
pub struct Piece {
    pub kind: Option<TokenKind>,
    pub size: usize,
}

// A keyword, or a name of at most 32 characters.
fn word_kind(text: &[u8]) -> TokenKind
    ensures { result ≡ spec.word_kind text.now }
{
    if text.len() > 32 {
        return TokenKind::Bad;
    }
    match keyword(text) {
        Some(spelling) => TokenKind::Mark(spelling.mark),
        None => TokenKind::Name,
    }
}

fn word(bytes: &[u8]) -> Piece
    ensures { piece_view result ≡ spec.word_at bytes.now }
{
    let size = word_length(bytes);
    Piece {
        kind: Some(word_kind(&bytes[..size])),
        size,
    }
}

// A number, or a literal where digits with their base follow it.
fn number_or_literal(number: &[u8], decimal: &[u8], hex: &[u8]) -> Piece
    requires number { length number.now ≤ 268435456 }
    requires decimal { length decimal.now ≤ 268435456 }
    requires hex { length hex.now ≤ 268435456 }
    ensures { piece_view result ≡ spec.number_or_literal number.now decimal.now hex.now }
{
    if !decimal.is_empty() {
        Piece {
            kind: Some(literal_kind(number, 10, decimal)),
            size: number.len() + 2 + decimal.len(),
        }
    } else if !hex.is_empty() {
        Piece {
            kind: Some(literal_kind(number, 16, hex)),
            size: number.len() + 2 + hex.len(),
        }
    } else {
        Piece {
            kind: Some(number_kind(number)),
            size: number.len(),
        }
    }
}

fn number(bytes: &[u8]) -> Piece
    requires { length bytes.now ≤ 268435456 }
    ensures { piece_view result ≡ spec.number_at bytes.now }
{
    let size = digit_length(bytes);
    let after = &bytes[size..];
    number_or_literal(&bytes[..size], decimal_digits(after), hex_digits(after))
}

// A symbol of so many bytes.
fn mark_of(mark: Mark, size: usize) -> Piece
    ensures { result ≡ record { kind = Some (kind.Mark mark); size = size } }
{
    Piece {
        kind: Some(TokenKind::Mark(mark)),
        size,
    }
}

// A symbol, or a byte that begins no token.
fn mark(bytes: &[u8]) -> Piece
    ensures { piece_view result ≡ spec.mark_or_bad (spec.spelling_at spec.symbols bytes.now) }
{
    match symbols_at(bytes) {
        Symbols::One(mark) => mark_of(mark, 1),
        Symbols::Several(all) => match beginning(all, bytes) {
            Some(spelling) => mark_of(spelling.mark, spelling.text.len()),
            None => Piece {
                kind: Some(TokenKind::Bad),
                size: 1,
            },
        },
    }
}

/// The piece at the front, or none where nothing is left.
#[tactic(auto, unfolding(crate::specs::Tokens::piece_at))]
pub fn front(bytes: &[u8]) -> Option<Piece>
    requires { length bytes.now ≤ 268435456 }
    ensures { IsFront bytes.now result }
{
    let first = *bytes.first()?;
    Some(if is_blank(first) {
        Piece {
            kind: None,
            size: 1,
        }
    } else if is_lower(first) {
        word(bytes)
    } else if is_digit(first) {
        number(bytes)
    } else if bytes.starts_with(b"//") {
        Piece {
            kind: None,
            size: line_length(bytes),
        }
    } else {
        mark(bytes)
    })
}
