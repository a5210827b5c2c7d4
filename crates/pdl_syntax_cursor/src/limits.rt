// The limits on open brackets and on the operators of a statement.
ghost use Rattle.std.specs.Prelude.{◌≡◌, true};
ghost use Rattle.pdl_syntax_tokens.specs.declared.token.TokenKind.TheVariants as kind;
ghost use Rattle.pdl_syntax_cursor.specs.Limits as spec;
ghost use Rattle.pdl_syntax_cursor.specs.MarkedTokens.{counts_passing, passed_if, kind_counted, seen_if};

use pdl_syntax_tokens::{Mark, TokenKind};

// The most brackets that may be open.
const MOST_BRACKETS: u32 = 64;

// The most operators and function words of a statement.
const MOST_OPERATORS: u32 = 256;

/// How many brackets are open, whether the statements have begun, and how many operators and function words the statement has so far.
#[derive(Clone, Copy)]
pub struct LimitCounts {
    brackets: u32,
    in_body: bool,
    operators: u32,
}

// An operator or a function word; a choice counts by its `?`.
fn is_operator(mark: Mark) -> bool
    ensures { result ≡ spec.is_operator mark }
{
    match mark {
        Mark::Tilde | Mark::Star | Mark::Plus | Mark::Minus => true,
        Mark::ShiftLeft | Mark::ShiftRight | Mark::Less | Mark::Equal | Mark::Differ => true,
        Mark::Ampersand | Mark::Caret | Mark::Bar | Mark::Question => true,
        Mark::Cat | Mark::LessSigned | Mark::ZeroExtend | Mark::SignExtend => true,
        _ => false,
    }
}

impl LimitCounts {
    /// The counts before the first token.
    pub fn new() -> LimitCounts
        ensures { result ≡ spec.at_start }
    {
        LimitCounts {
            brackets: 0,
            in_body: false,
            operators: 0,
        }
    }

    fn is_within(&self) -> bool
        ensures { result ≡ spec.is_within self.now }
    {
        self.brackets <= MOST_BRACKETS && self.operators <= MOST_OPERATORS
    }

    #[tactic(auto, using(crate::proofs::Fronts::within_parts))]
    fn open_bracket(&mut self)
        requires { spec.is_within self.old ≡ true }
        ensures { self.new ≡ spec.after_open self.old }
    {
        self.brackets += 1;
    }

    fn close_bracket(&mut self)
        ensures { self.new ≡ spec.after_close self.old }
    {
        self.brackets = self.brackets.saturating_sub(1);
    }

    #[tactic(auto, using(crate::proofs::Fronts::within_parts))]
    fn count_operator(&mut self)
        requires { spec.is_within self.old ≡ true }
        ensures { self.new ≡ spec.after_operator self.old }
    {
        if self.in_body {
            self.operators += 1;
        }
    }

    fn end_statement(&mut self)
        ensures { self.new ≡ spec.afresh self.old }
    {
        self.operators = 0;
    }

    #[tactic(auto, using(crate::proofs::Fronts::within_parts))]
    fn open_brace(&mut self)
        requires { spec.is_within self.old ≡ true }
        ensures { self.new ≡ spec.after_brace self.old }
    {
        self.brackets += 1;
        self.in_body = true;
        self.operators = 0;
    }

    // A keyword or a symbol passes.
    fn pass_mark(&mut self, mark: Mark)
        requires { spec.is_within self.old ≡ true }
        ensures { self.new ≡ spec.counts_after self.old (kind.Mark mark) }
    {
        match mark {
            Mark::OpenRound | Mark::OpenSquare => self.open_bracket(),
            Mark::OpenBrace => self.open_brace(),
            Mark::CloseRound | Mark::CloseSquare => self.close_bracket(),
            Mark::CloseBrace => {
                self.close_bracket();
                self.end_statement();
            }
            Mark::Semicolon | Mark::Separator => self.end_statement(),
            _ => {
                if is_operator(mark) {
                    self.count_operator();
                }
            }
        }
    }

    /// A token passes, if there is one; once over a limit the counts stay so. Only keywords and symbols are counted.
    #[tactic(auto, using(crate::proofs::Fronts::kept))]
    pub fn pass(&mut self, kind: Option<TokenKind>)
        ensures { self.new ≡ passed_if self.old kind }
    {
        match kind {
            Some(TokenKind::Mark(mark)) => {
                if self.is_within() {
                    self.pass_mark(mark);
                }
            }
            _ => {}
        }
    }

    /// The counts after a token, if there is one.
    pub fn after_token(self, kind: Option<TokenKind>) -> LimitCounts
        ensures { result ≡ passed_if self kind }
    {
        let mut counts = self;
        counts.pass(kind);
        counts
    }

    /// What a token is by the counts after it: a bad one where they are over a limit.
    pub fn kind_of(self, kind: Option<TokenKind>) -> Option<TokenKind>
        ensures { result ≡ seen_if self kind }
    {
        match kind {
            Some(kind) => Some(if self.is_within() {
                kind
            } else {
                TokenKind::Bad
            }),
            None => None,
        }
    }
}
