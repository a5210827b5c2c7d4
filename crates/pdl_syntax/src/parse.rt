// The parser.
ghost use Rattle.std.specs.Prelude.{◌≡◌, ◌≤◌, ◌<◌, ℕ, None, Err, IfOk, length};
ghost use Rattle.pdl_semantics.specs.Tree as tree;
ghost use Rattle.pdl_syntax_grammar.specs.Text.{IsText, IsOutOfPlace};
ghost use Rattle.pdl_syntax.specs.Text.{broken_limit, parse_answer, Misplaced, Gives};
ghost use Rattle.pdl_syntax.specs.Text.{IsRefusal, IsRefused, IsParsed};
ghost use Rattle.pdl_syntax_tree.specs.View.{pipe_view};

use crate::error::ParseError;
use crate::misplaced::misplaced_line;
use pdl_kit::Rule;
use pdl_syntax_grammar::read::read;
use pdl_syntax_tree::Pipe;
use std::alloc::Global;

/// The greatest length of a source text, in bytes.
pub const LONGEST: usize = 1_048_576;

// The refusal of a text that is too long, without its tree: the grammar is asked first.
#[tactic(auto, using(crate::proofs::Answers::too_long))]
fn refuse(alloc: Global, source: &[u8]) -> ParseError
    requires most { length source.now ≤ 268435456 }
    requires least { 1048576 < length source.now }
    ensures { IsRefusal source.now result }
{
    match misplaced_line(alloc, source) {
        Ok(Some(line)) => ParseError::Grammar { line },
        Ok(None) => ParseError::Limit {
            rule: Rule::Z1,
            line: 1,
        },
        Err(_) => ParseError::NoMemory,
    }
}

#[tactic(auto, using(crate::proofs::Answers::short_enough, crate::proofs::Answers::read_refusal))]
fn parse_text(alloc: Global, source: &[u8]) -> Result<Pipe, ParseError>
    requires { length source.now ≤ 268435456 }
    ensures { IsParsed source.now result }
{
    if source.len() > LONGEST {
        return Err(refuse(alloc, source));
    }
    let pipe = read(alloc, source)?;
    Ok(pipe)
}

/// Reads a source text of at most 268,435,456 bytes. A text with a token out of place is refused at the line of the first one, one that ends too early at the line on which it ends (G1); a text of the grammar over 1,048,576 bytes is refused at line 1 (Z1), and no tree is built of it.
#[tactic(auto, using(crate::proofs::Answers::parsed_found, crate::proofs::Answers::parsed_within, crate::proofs::Answers::parsed_only, crate::proofs::Answers::parsed_exact, crate::proofs::Answers::parsed_refused))]
pub fn parse(alloc: Global, source: &[u8]) -> Result<Pipe, ParseError>
    requires { length source.now ≤ 268435456 }
    // What is read is the pipe of the text, and it keeps the limits.
    ensures found { IfOk result (λ p. IsText source.now (pipe_view p)) }
    ensures within { IfOk result (λ p. broken_limit source.now (pipe_view p) ≡ None) }
    // The text of a pipe gives that pipe, or the lowest limit that it breaks, unless memory runs out.
    ensures only { (p : tree.Pipe) → IsText source.now p →
        Gives (parse_answer source.now p) result }
    // Any other text is refused at the first token out of place, unless memory runs out.
    ensures exact { (line : ℕ) → IsOutOfPlace source.now line → Gives (Misplaced line) result }
    // A refusal tells why.
    ensures refused { IsRefused source.now result }
{
    parse_text(alloc, source)
}
