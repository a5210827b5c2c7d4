// The reading of a source: its grammar, then its length.
ghost use Rattle.std.specs.Prelude.{◌≡◌, ◌≤◌, length};
ghost use Rattle.pdl_check.specs.Answers.{IsRead};

use pdl_kit::{Refusal, Rule};
use pdl_syntax::error::ParseError;
use pdl_syntax::parse::parse;
use pdl_syntax_tree::tree::Pipe;
use std::alloc::Global;

/// The pipe of a source that isn't too long. A token out of place (G1) is told before the length (Z1).
#[tactic(auto, using(crate::proofs::CheckAnswers::read_pipe, crate::proofs::CheckAnswers::read_misplaced))]
pub fn read(alloc: Global, source: &[u8]) -> Result<Pipe, Refusal>
    requires { length source.now ≤ 268435456 }
    ensures { IsRead source.now result }
{
    match parse(alloc, source) {
        Ok(pipe) => Ok(pipe),
        Err(ParseError::Grammar { line }) => {
            Err(Refusal::Refused {
                rule: Rule::G1,
                line,
            })
        }
        Err(ParseError::Limit { rule, line }) => Err(Refusal::Refused { rule, line }),
        Err(ParseError::NoMemory) => Err(Refusal::NoMemory),
    }
}
