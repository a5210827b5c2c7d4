// Why a source text is no text of the grammar.
ghost use Rattle.std.specs.Prelude.{◌≡◌};
ghost use Rattle.pdl_syntax_grammar.specs.declared.error.GrammarError.TheVariants.{NoMemory as no_memory};

use pdl_kit::NoMemory;

/// Why a source text was not read: a token out of place, with the line (counted from 1) of the first one, or want of memory.
#[derive(Clone, Copy)]
pub enum GrammarError {
    Misplaced { line: u32 },
    NoMemory,
}

impl From<NoMemory> for GrammarError {
    ghost from_gives = { λ _ e. e ≡ no_memory };

    fn from(_e: NoMemory) -> GrammarError {
        GrammarError::NoMemory
    }
}
