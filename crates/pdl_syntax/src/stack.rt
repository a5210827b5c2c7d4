// The stack of what is expected.
ghost use Rattle.std.specs.Prelude.{◌≡◌, ◌++◌, ◌↔◌, [], IsTrue, OnOk, map, reverse};
ghost use Rattle.pdl_syntax.specs.View.{symbol_view, maybe_symbol_view, top, below_top};

use crate::symbol::Symbol;
use pdl_kit::NoMemory;
use std::alloc::Global;
use std::marker::Model;

/// What is expected, the next symbol last.
#[derive(Drop)]
pub struct Stack {
    symbols: Vec<Symbol>,
}

impl Model for Stack {
    ghost use Rattle.std.specs.Prelude.{reverse, map};
    ghost use Rattle.pdl_syntax_grammar.specs.Automaton as spec;
    ghost use Rattle.pdl_syntax.specs.View.{symbol_view};

    ghost Value = { spec.Stack };

    ghost view = { λ s. reverse (map symbol_view s.symbols.items) };
}

impl Stack {
    /// Nothing is expected.
    pub fn new(alloc: Global) -> Stack
        ensures { result ≡ [] }
    {
        Stack {
            symbols: Vec::new(alloc),
        }
    }

    /// Whether nothing is expected.
    #[tactic(auto, using(crate::proofs::Stacks::empty_so, crate::proofs::Stacks::so_empty))]
    pub fn is_empty(&self) -> bool
        ensures { IsTrue result ↔ (self.now ≡ []) }
    {
        self.symbols.is_empty()
    }

    /// Takes the next symbol off, if there is one.
    #[tactic(auto, using(crate::proofs::Stacks::popped, crate::proofs::Stacks::popped_below))]
    pub fn pop(&mut self) -> Option<Symbol>
        ensures symbol { maybe_symbol_view result ≡ top self.old }
        ensures below { self.new ≡ below_top self.old }
    {
        self.symbols.pop()
    }

    /// Expects these symbols, of which the last comes first, before what was expected.
    #[tactic(auto, using(crate::proofs::Stacks::pushed))]
    pub fn push(&mut self, symbols: &[Symbol]) -> Result<(), NoMemory>
        ensures { OnOk result (self.new ≡ reverse (map symbol_view symbols.now) ++ self.old) }
    {
        self.symbols.extend_from_slice(symbols)?;
        Ok(())
    }
}
