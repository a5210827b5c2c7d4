// A cursor over the tokens of a source text, which are found as they are asked for.
ghost use Rattle.std.specs.Prelude.{◌≡◌, ◌≤◌, ◌<◌, ◌+◌, ◌^◌, ◌∷◌, length, take, drop, Some};
ghost use Rattle.pdl_syntax_tokens.specs.Tokens.{tokens, tokens_from, last_line};
ghost use Rattle.pdl_syntax_tokens.specs.Pieces.{IsFront, IsLineAfter};
ghost use Rattle.pdl_syntax_tokens.specs.Cursor.{token_view, maybe_token_view, kind_in, onto, first, first_kind, first_span, next};
ghost use Rattle.pdl_syntax_tree.specs.View.{span_view};

use crate::piece::{Piece, front};
use crate::token::{Token, TokenKind};
use pdl_syntax_tree::tree::Span;
use std::marker::Model;

/// The line on which a source text of at most 268,435,456 bytes ends, counted from 1.
pub fn last_line(source: &[u8]) -> u32
    requires { length source.now ≤ 268435456 }
    ensures { result ≡ last_line source.now }
{
    let ends = source.iter().filter(|c| **c == b'\n').count();
    ends as u32 + 1
}

// What is left of a source text, which byte of it comes next, and on which line.
#[derive(Clone, Copy)]
struct SourcePlace<'a> {
    rest: &'a [u8],
    start: u32,
    line: u32,
    ghost bytes: { start + length rest.now ≤ 268435456 },
    ghost lines: { line ≤ start + 1 },
}

// A token, if there is one, and the place after it.
#[derive(Clone, Copy)]
struct Step<'a> {
    token: Option<Token<'a>>,
    after: SourcePlace<'a>,
}

impl<'a> SourcePlace<'a> {
    // The place after the piece at the front.
    #[tactic(auto, using(crate::proofs::Steps::piece_fits))]
    fn after(&self, piece: Piece) -> SourcePlace<'a>
        requires { IsFront self.now.rest.now (Some piece) }
        ensures rest { result.rest.now ≡ drop piece.size self.now.rest.now }
        ensures start { result.start ≡ self.now.start + piece.size }
        ensures line { IsLineAfter self.now.rest.now self.now.line result.line }
        ensures fits { piece.size ≤ length self.now.rest.now }
        ensures less { length result.rest.now < length self.now.rest.now }
    {
        let line = match self.rest.first() {
            Some(b'\n') => self.line + 1,
            _ => self.line,
        };
        SourcePlace {
            rest: &self.rest[piece.size..],
            start: self.start + piece.size as u32,
            line,
        }
    }

    // The token of so many bytes that stands here.
    fn token(&self, kind: TokenKind, size: usize, end: u32) -> Token<'a>
        requires { size ≤ length self.now.rest.now }
        ensures { token_view result ≡ record {
          kind = kind;
          text = take size self.now.rest.now;
          span = record { start = self.now.start; end = end; line = self.now.line };
        } }
    {
        let span = Span {
            start: self.start,
            end,
            line: self.line,
        };
        Token {
            kind,
            text: &self.rest[..size],
            span,
        }
    }

    // The first token from here on.
    fn step(&self) -> Step<'a>
        ensures { onto result.token (tokens_from 0 result.after.start result.after.line
            result.after.rest.now) ≡ tokens_from 0 self.now.start self.now.line self.now.rest.now }
    {
        let mut place = *self;
        while let Some(piece) = front(place.rest) {
            let after = place.after(piece);
            match piece.kind {
                Some(kind) => {
                    return Step {
                        token: Some(place.token(kind, piece.size, after.start)),
                        after,
                    };
                }
                None => place = after,
            }
        }
        Step {
            token: None,
            after: place,
        }
    }
}

/// The tokens that are left, of which only the first is kept: a look further ahead is rare, and finds its token anew.
#[derive(Drop)]
pub struct Tokens<'a> {
    first: Option<Token<'a>>,
    after: SourcePlace<'a>,
}

impl<'a> Model for Tokens<'a> {
    ghost use Rattle.std.specs.Prelude.{List};
    ghost use Rattle.pdl_syntax_tokens.specs.Tokens.{Token, tokens_from};
    ghost use Rattle.pdl_syntax_tokens.specs.Cursor.{onto};

    ghost Value = { List Token };

    ghost view = { λ t. onto t.first
        (tokens_from 0 t.after.start t.after.line t.after.rest.now) };
}

impl<'a> Tokens<'a> {
    /// The tokens of a source text of at most 268,435,456 bytes.
    pub fn new(source: &'a [u8]) -> Tokens<'a>
        requires { length source.now ≤ 268435456 }
        ensures { result ≡ tokens source.entry.now }
    {
        let place = SourcePlace {
            rest: source,
            start: 0,
            line: 1,
        };
        let Step { token, after } = place.step();
        Tokens {
            first: token,
            after,
        }
    }

    /// The first of the tokens that are left.
    pub fn peek(&self) -> Option<Token<'a>>
        ensures { maybe_token_view result ≡ first self.now }
    {
        self.first
    }

    /// What the first of them is.
    pub fn kind(&self) -> Option<TokenKind>
        ensures { result ≡ first_kind self.now }
    {
        match &self.first {
            Some(token) => Some(token.kind),
            None => None,
        }
    }

    /// Where the first of them stands; nowhere if there is none.
    pub fn span(&self) -> Span
        ensures { span_view result ≡ first_span self.now }
    {
        match &self.first {
            Some(token) => token.span,
            None => Span {
                start: 0,
                end: 0,
                line: 0,
            },
        }
    }

    /// What the second of them is.
    pub fn second(&self) -> Option<TokenKind>
        ensures { result ≡ first_kind (next self.now) }
    {
        match self.first {
            Some(_) => kind_of(self.after.step().token),
            None => None,
        }
    }

    /// What the third of them is.
    pub fn third(&self) -> Option<TokenKind>
        ensures { result ≡ first_kind (next (next self.now)) }
    {
        match self.first {
            Some(_) => {
                let second = self.after.step();
                match second.token {
                    Some(_) => kind_of(second.after.step().token),
                    None => None,
                }
            }
            None => None,
        }
    }

    /// Goes on to the next token, if there is one.
    pub fn skip(&mut self)
        ensures { self.new ≡ next self.old }
    {
        if self.first.is_some() {
            let step = self.after.step();
            self.first = step.token;
            self.after = step.after;
        }
    }
}

fn kind_of(token: Option<Token<'_>>) -> Option<TokenKind>
    ensures { result ≡ kind_in (maybe_token_view token.entry) }
{
    match token {
        Some(token) => Some(token.kind),
        None => None,
    }
}
