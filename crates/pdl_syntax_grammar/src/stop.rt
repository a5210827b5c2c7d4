// Why the reading of tokens stopped.
ghost use Rattle.std.specs.Prelude.{◌≡◌};
ghost use Rattle.pdl_syntax_grammar.specs.declared.stop.Stop.TheVariants.{NoMemory as no_memory};

use pdl_kit::NoMemory;

/// Why the reading stopped: the first token left is out of place, or memory ran out.
#[derive(Clone, Copy)]
pub enum Stop {
    Misplaced,
    NoMemory,
}

impl From<NoMemory> for Stop {
    ghost from_gives = { λ _ e. e ≡ no_memory };

    fn from(_e: NoMemory) -> Stop {
        Stop::NoMemory
    }
}
