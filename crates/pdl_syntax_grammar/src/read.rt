// The reader of source texts.
ghost use Rattle.std.specs.Prelude.{◌≡◌, ◌≤◌, ℕ, IfOk, length};
ghost use Rattle.pdl_semantics.specs.Tree as tree;
ghost use Rattle.pdl_syntax_tree.specs.View.{pipe_view};
ghost use Rattle.pdl_syntax_tokens.specs.Tokens as lexed;
ghost use Rattle.pdl_syntax_grammar.specs.Read.{IsRead, line_at};
ghost use Rattle.pdl_syntax_grammar.specs.Text.{IsText, IsOutOfPlace, Tree, Misplaced, Gives, IsRefused};

use crate::error::GrammarError;
use crate::stop::Stop;
use crate::text::text;
use pdl_syntax_cursor::Cursor;
use pdl_syntax_tokens::last_line;
use pdl_syntax_tree::Pipe;
use std::alloc::Global;

// The line of the token at the cursor, or the last one.
fn line_of(source: &[u8], at: Option<u32>) -> u32
    requires { length source.now ≤ 268435456 }
    ensures { result ≡ line_at at (lexed.last_line source.now) }
{
    match at {
        Some(line) => line,
        None => last_line(source),
    }
}

#[tactic(auto, using(crate::proofs::Places::read_whole, crate::proofs::Places::read_misplaced))]
fn read_text(alloc: Global, source: &[u8]) -> Result<Pipe, GrammarError>
    requires { length source.now ≤ 268435456 }
    ensures { IsRead source.now result }
{
    let room = source.len() + 1;
    let mut tokens = Cursor::new(source);
    match text(alloc, &mut tokens, room) {
        Ok(pipe) => Ok(pipe),
        Err(Stop::Misplaced) => Err(GrammarError::Misplaced {
            line: line_of(source, tokens.line()),
        }),
        Err(Stop::NoMemory) => Err(GrammarError::NoMemory),
    }
}

/// The tree of a source text of at most 268,435,456 bytes. A text with a token out of place is refused at the line of the first one, one that ends too early at the line on which it ends.
#[tactic(auto, using(crate::proofs::Places::answer_found, crate::proofs::Places::answer_only, crate::proofs::Places::answer_exact, crate::proofs::Places::answer_refused))]
pub fn read(alloc: Global, source: &[u8]) -> Result<Pipe, GrammarError>
    requires { length source.now ≤ 268435456 }
    // What is read is the pipe of the text.
    ensures found { IfOk result (λ p. IsText source.now (pipe_view p)) }
    // The text of a pipe gives that pipe, unless memory runs out.
    ensures only { (p : tree.Pipe) → IsText source.now p → Gives (Tree p) result }
    // Any other text is refused at the first token out of place, unless memory runs out.
    ensures exact { (line : ℕ) → IsOutOfPlace source.now line → Gives (Misplaced line) result }
    // A refusal tells why.
    ensures refused { IsRefused source.now result }
{
    read_text(alloc, source)
}
