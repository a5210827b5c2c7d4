// A cursor over the tokens of a text, which are found as they are asked for.
ghost use Rattle.std.specs.Prelude.{◌≡◌, ◌≤◌, ◌<◌, ◌+◌, length, take, drop, Some};
ghost use Rattle.pdl_vread_text.specs.Tokens.{tokens, tokens_from};
ghost use Rattle.pdl_vread_text.specs.Pieces.{IsFront, IsLineAfter};
ghost use Rattle.pdl_vread_text.specs.Cursor.{token_view, maybe_token_view, onto, first, next};

use crate::piece::{VerilogPiece, front};
use crate::token::VerilogToken;
use std::marker::Model;

// What is left of a text, and on which line it begins.
#[derive(Clone, Copy)]
struct VerilogPlace<'a> {
    rest: &'a [u8],
    line: u32,
    ghost lines: { line + length rest.now ≤ 268435457 },
}

// A token, if there is one, and the place after it.
#[derive(Clone, Copy)]
struct VerilogStep<'a> {
    token: Option<VerilogToken<'a>>,
    after: VerilogPlace<'a>,
}

impl<'a> VerilogPlace<'a> {
    // The place after the piece at the front.
    #[tactic(auto, using(crate::proofs::Steps::piece_fits))]
    fn after(&self, piece: VerilogPiece) -> VerilogPlace<'a>
        requires { IsFront self.now.rest.now (Some piece) }
        ensures rest { result.rest.now ≡ drop piece.size self.now.rest.now }
        ensures line { IsLineAfter self.now.rest.now self.now.line result.line }
        ensures fits { piece.size ≤ length self.now.rest.now }
        ensures less { length result.rest.now < length self.now.rest.now }
    {
        let line = match self.rest.first() {
            Some(b'\n') => self.line + 1,
            _ => self.line,
        };
        VerilogPlace {
            rest: &self.rest[piece.size..],
            line,
        }
    }

    // The token of so many bytes that stands here.
    fn token(&self, size: usize) -> VerilogToken<'a>
        requires { size ≤ length self.now.rest.now }
        ensures { token_view result ≡ record {
          text = take size self.now.rest.now;
          line = self.now.line;
        } }
    {
        VerilogToken {
            text: &self.rest[..size],
            line: self.line,
        }
    }

    // The first token from here on.
    fn step(&self) -> VerilogStep<'a>
        ensures { onto result.token (tokens_from 0 result.after.line result.after.rest.now)
            ≡ tokens_from 0 self.now.line self.now.rest.now }
    {
        let mut place = *self;
        while let Some(piece) = front(place.rest) {
            let after = place.after(piece);
            if piece.is_token {
                return VerilogStep {
                    token: Some(place.token(piece.size)),
                    after,
                };
            }
            place = after;
        }
        VerilogStep {
            token: None,
            after: place,
        }
    }
}

/// The tokens that are left, of which the first is known.
#[derive(Drop)]
pub struct VerilogTokens<'a> {
    known: Option<VerilogToken<'a>>,
    after: VerilogPlace<'a>,
}

impl<'a> Model for VerilogTokens<'a> {
    ghost use Rattle.std.specs.Prelude.{List};
    ghost use Rattle.pdl_vread_text.specs.Tokens.{Token, tokens_from};
    ghost use Rattle.pdl_vread_text.specs.Cursor.{onto};

    ghost Value = { List Token };

    ghost view = { λ t. onto t.known (tokens_from 0 t.after.line t.after.rest.now) };
}

impl<'a> VerilogTokens<'a> {
    /// The tokens of a text of at most 268,435,456 bytes.
    pub fn new(source: &'a [u8]) -> VerilogTokens<'a>
        requires { length source.now ≤ 268435456 }
        ensures { result ≡ tokens source.entry.now }
    {
        let place = VerilogPlace {
            rest: source,
            line: 1,
        };
        let step = place.step();
        VerilogTokens {
            known: step.token,
            after: step.after,
        }
    }

    /// The first of the tokens that are left.
    pub fn peek(&self) -> Option<VerilogToken<'a>>
        ensures { maybe_token_view result ≡ first self.now }
    {
        self.known
    }

    /// Goes on to the next token, if there is one.
    pub fn skip(&mut self)
        ensures { self.new ≡ next self.old }
    {
        if self.known.is_some() {
            let step = self.after.step();
            self.known = step.token;
            self.after = step.after;
        }
    }
}
