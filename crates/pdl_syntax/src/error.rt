// Why a source text was not taken.
ghost use Rattle.std.specs.Prelude.{◌≡◌};
ghost use Rattle.pdl_syntax.specs.declared.error.ParseError.TheVariants.{NoMemory as no_memory};
ghost use Rattle.pdl_syntax.specs.Text.{refusal};

use pdl_kit::{NoMemory, Rule};
use pdl_syntax_grammar::GrammarError;
use std::alloc::AllocError;

/// Why a source text was not taken: the line (counted from 1) of the first token out of place (rule G1), a broken limit with its line, or want of memory.
#[derive(Clone, Copy, PartialEq, Eq)]
pub enum ParseError {
    Grammar { line: u32 },
    Limit { rule: Rule, line: u32 },
    NoMemory,
}

impl From<NoMemory> for ParseError {
    ghost from_gives = { λ _ e. e ≡ no_memory };

    fn from(_e: NoMemory) -> ParseError {
        ParseError::NoMemory
    }
}

impl From<GrammarError> for ParseError {
    ghost from_gives = { λ e p. p ≡ refusal e };

    fn from(e: GrammarError) -> ParseError {
        match e {
            GrammarError::Misplaced { line } => ParseError::Grammar { line },
            GrammarError::NoMemory => ParseError::NoMemory,
        }
    }
}

impl From<AllocError> for ParseError {
    ghost from_gives = { λ _ e. e ≡ no_memory };

    fn from(_e: AllocError) -> ParseError {
        ParseError::NoMemory
    }
}
