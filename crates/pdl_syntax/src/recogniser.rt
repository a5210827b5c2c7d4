// The automaton that takes a text, a token at a time.
ghost use Rattle.std.specs.Prelude.{◌≡◌, ◌↔◌, [], IfOk, IsTrue};
ghost use Rattle.pdl_syntax_grammar.specs.Automaton as spec;
ghost use Rattle.pdl_syntax.specs.Answers.{StepsTo, stack_after};

use crate::expecting::{first_of, take_token};
use crate::stack::Stack;
use crate::symbol::{Listing, Symbol};
use pdl_kit::NoMemory;
use pdl_syntax_tokens::{Mark, TokenKind};
use std::alloc::Global;
use std::marker::Model;

/// What is still expected of a source text, of which some tokens were taken.
#[derive(Drop)]
pub struct Recogniser {
    stack: Stack,
}

impl Model for Recogniser {
    ghost use Rattle.pdl_syntax_grammar.specs.Automaton as spec;

    ghost Value = { spec.Stack };

    ghost view = { λ r. r.stack };
}

// What is expected of a whole text.
fn whole(alloc: Global) -> Result<Stack, NoMemory>
    ensures { IfOk result (λ s. s ≡ spec.whole) }
{
    let mut stack = Stack::new(alloc);
    let semicolon = Symbol::Mark(Mark::Semicolon);
    let open = Symbol::Mark(Mark::OpenRound);
    let literals = Symbol::More(Listing::Literals);
    stack.push(&[
        semicolon,
        literals,
        Symbol::Literal,
        open,
        Symbol::Name,
        Symbol::Mark(Mark::Start),
        Symbol::Items,
        Symbol::Mark(Mark::OpenBrace),
    ])?;
    first_of(&mut stack, Listing::Mems)?;
    stack.push(&[Symbol::Mark(Mark::OpenSquare)])?;
    first_of(&mut stack, Listing::Params)?;
    stack.push(&[open, Symbol::Name, Symbol::Mark(Mark::Pipe)])?;
    Ok(stack)
}

impl Recogniser {
    /// A whole text is expected.
    pub fn new(alloc: Global) -> Result<Recogniser, NoMemory>
        ensures { IfOk result (λ r. r ≡ spec.whole) }
    {
        let stack = whole(alloc)?;
        Ok(Recogniser { stack })
    }

    /// Takes a token of this kind if it is in place, and says whether it is.
    #[tactic(auto, using(crate::proofs::AutomatonRuns::step_so, crate::proofs::AutomatonRuns::step_none))]
    pub fn take(&mut self, kind: TokenKind) -> Result<bool, NoMemory>
        ensures { StepsTo (stack_after self.old kind) result self.new }
    {
        match self.stack.pop() {
            Some(symbol) => take_token(&mut self.stack, symbol, kind),
            None => Ok(false),
        }
    }

    /// Whether the text may end here.
    pub fn is_done(&self) -> bool
        ensures { IsTrue result ↔ (self.now ≡ []) }
    {
        self.stack.is_empty()
    }
}
