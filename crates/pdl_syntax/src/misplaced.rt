// The first token out of place of a text.
ghost use Rattle.std.specs.Prelude.{◌≡◌, ◌≤◌, ℕ, Some, None, IfOk, length};
ghost use Rattle.pdl_syntax_grammar.specs.Text.{IsText, IsOutOfPlace};
ghost use Rattle.pdl_semantics.specs.Tree as tree;
ghost use Rattle.pdl_syntax.specs.Answers.{IsRecognised};

use crate::recogniser::Recogniser;
use pdl_kit::NoMemory;
use pdl_syntax_cursor::Cursor;
use pdl_syntax_tokens::last_line;
use std::alloc::Global;

#[tactic(auto, using(crate::proofs::AutomatonRuns::refused_so, crate::proofs::AutomatonRuns::ended_so, crate::proofs::AutomatonRuns::early_so, crate::proofs::AutomatonRuns::goes_on, crate::proofs::AutomatonRuns::shorter))]
fn first_misplaced(alloc: Global, source: &[u8]) -> Result<Option<u32>, NoMemory>
    requires { length source.now ≤ 268435456 }
    ensures { IsRecognised source.now result }
{
    let mut tokens = Cursor::new(source);
    let mut expected = Recogniser::new(alloc)?;
    while let Some(kind) = tokens.kind() {
        if !expected.take(kind)? {
            return Ok(tokens.line());
        }
        tokens.skip();
    }
    if expected.is_done() {
        Ok(None)
    } else {
        Ok(Some(last_line(source)))
    }
}

/// The line of the first token out of place of a source text of at most 268,435,456 bytes, the line on which a text ends that ends too early, or none for a text of the grammar. It takes memory for its stack alone.
#[tactic(auto, using(crate::proofs::AutomatonRuns::told_text, crate::proofs::AutomatonRuns::told_place))]
pub fn misplaced_line(alloc: Global, source: &[u8]) -> Result<Option<u32>, NoMemory>
    requires { length source.now ≤ 268435456 }
    // The text of a pipe has no token out of place.
    ensures text { (p : tree.Pipe) → IsText source.now p → IfOk result (λ line. line ≡ None) }
    // Any other text has its first one on this line.
    ensures place { (line : ℕ) → IsOutOfPlace source.now line → IfOk result (λ l. l ≡ Some line) }
    // What is answered is so.
    ensures told { IsRecognised source.now result }
{
    first_misplaced(alloc, source)
}
