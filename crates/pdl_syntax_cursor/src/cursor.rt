// A cursor over the tokens of a source text, which reads a token over a limit as a bad one.
ghost use Rattle.std.specs.Prelude.{◌≡◌, ◌≤◌, IfOk, length};
ghost use Rattle.pdl_syntax_tokens.specs.Cursor as spec;
ghost use Rattle.pdl_syntax_tokens.specs.Tokens as lexed;
ghost use Rattle.pdl_syntax_tree.specs.View.{span_view, ident_view};
ghost use Rattle.pdl_syntax_cursor.specs.Limits.{at_start};
ghost use Rattle.pdl_syntax_cursor.specs.MarkedTokens.{marked_row, first_line};
ghost use Rattle.pdl_syntax_cursor.specs.Looks.{is_mark, is_place, begins_place};

use crate::limits::LimitCounts;
use pdl_kit::{Name, NoMemory};
use pdl_syntax_tokens::{Mark, TokenKind, Tokens};
use pdl_syntax_tree::{Ident, Span};
use std::alloc::Global;
use std::marker::Model;

/// The tokens that are left, and the counts after the first of them.
#[derive(Drop)]
pub struct Cursor<'a> {
    tokens: Tokens<'a>,
    counts: LimitCounts,
}

impl<'a> Model for Cursor<'a> {
    ghost use Rattle.std.specs.Prelude.{List};
    ghost use Rattle.pdl_syntax_tokens.specs.Tokens.{Token};
    ghost use Rattle.pdl_syntax_cursor.specs.MarkedTokens.{headed_row};

    ghost Value = { List Token };

    ghost view = { λ c. headed_row c.counts c.tokens };
}

impl<'a> Cursor<'a> {
    /// The tokens of a source text of at most 268,435,456 bytes.
    #[tactic(auto, using(crate::proofs::Fronts::head_is))]
    pub fn new(source: &'a [u8]) -> Cursor<'a>
        requires { length source.now ≤ 268435456 }
        ensures { result ≡ marked_row at_start (lexed.tokens source.entry.now) }
    {
        let tokens = Tokens::new(source);
        let counts = LimitCounts::new().after_token(tokens.kind());
        Cursor { tokens, counts }
    }

    /// Goes on to the next token, if there is one.
    #[tactic(auto, using(crate::proofs::Fronts::next_head))]
    pub fn skip(&mut self)
        ensures { self.new ≡ spec.next self.old }
    {
        self.tokens.skip();
        self.counts.pass(self.tokens.kind());
    }

    /// What the first token is.
    #[tactic(auto, using(crate::proofs::Fronts::kind_head))]
    pub fn kind(&self) -> Option<TokenKind>
        ensures { result ≡ spec.first_kind self.now }
    {
        self.counts.kind_of(self.tokens.kind())
    }

    /// The line of the first token.
    #[tactic(auto, using(crate::proofs::Fronts::some_head, crate::proofs::Fronts::none_head))]
    pub fn line(&self) -> Option<u32>
        ensures { result ≡ first_line self.now }
    {
        match self.tokens.peek() {
            Some(token) => Some(token.span.line),
            None => None,
        }
    }

    /// Where the first token stands; nowhere if there is none.
    #[tactic(auto, using(crate::proofs::Fronts::span_head))]
    pub fn span(&self) -> Span
        ensures { span_view result ≡ spec.first_span self.now }
    {
        self.tokens.span()
    }

    #[tactic(auto, using(crate::proofs::Fronts::some_head, crate::proofs::Fronts::none_head))]
    fn text(&self) -> &'a [u8]
        ensures { result.now ≡ spec.first_text self.now }
    {
        match self.tokens.peek() {
            Some(token) => token.text,
            None => &[],
        }
    }

    /// The name that the first token is.
    pub fn name(&self, alloc: Global) -> Result<Ident, NoMemory>
        ensures { IfOk result (λ x. ident_view x ≡ spec.first_name self.now) }
    {
        Ok(Ident {
            name: Name::copy_of(alloc, self.text())?,
            span: self.span(),
        })
    }

    /// Whether the first token is this keyword or symbol.
    pub fn is(&self, mark: Mark) -> bool
        ensures { result ≡ is_mark mark (spec.first_kind self.now) }
    {
        match self.kind() {
            Some(TokenKind::Mark(first)) => first == mark,
            _ => false,
        }
    }

    /// Whether a name, a square bracket and a name come.
    #[tactic(auto, using(crate::proofs::Fronts::place_head))]
    pub fn begins_place(&self) -> bool
        ensures { result ≡ begins_place self.now }
    {
        let second = self.tokens.second();
        let third = self.tokens.third();
        let at_second = self.counts.after_token(second);
        let at_third = at_second.after_token(third);
        is_place(
            self.kind(),
            at_second.kind_of(second),
            at_third.kind_of(third),
        )
    }
}

fn is_place(first: Option<TokenKind>, second: Option<TokenKind>, third: Option<TokenKind>) -> bool
    ensures { result ≡ is_place first second third }
{
    match first {
        Some(TokenKind::Name) => match second {
            Some(TokenKind::Mark(Mark::OpenSquare)) => match third {
                Some(TokenKind::Name) => true,
                _ => false,
            },
            _ => false,
        },
        _ => false,
    }
}
