// Whole texts.
ghost use Rattle.std.specs.Prelude.{◌≡◌, map};
ghost use Rattle.pdl_syntax_grammar.specs.Read.{Reads, ReadsWhole, head_view, rest_view};
ghost use Rattle.pdl_syntax_grammar.specs.Reading as spec;
ghost use Rattle.pdl_syntax_tree.specs.View.{literal_view, start_view, pipe_view};
ghost use Rattle.pdl_syntax_tokens.specs.declared.token.Mark.TheVariants as mark;

use crate::branch::branch;
use crate::declaration::{mems, params};
use crate::item::{BranchEnd, Head, Rest};
use crate::statement::across;
use crate::stop::Stop;
use crate::words::{goes_on, literal, name, take};
use pdl_kit::Seq;
use pdl_syntax_cursor::Cursor;
use pdl_syntax_tokens::Mark;
use pdl_syntax_tree::{Literal, Pipe, Start};
use std::alloc::Global;

// Literals with commas between them, up to a closing round bracket.
#[tactic(auto, using(crate::proofs::Rows::listed_none, crate::proofs::Rows::after_nothing))]
fn literals(alloc: Global, tokens: &mut Cursor<'_>, room: usize) -> Result<Seq<Literal>, Stop>
    ensures { Reads (map literal_view)
        (spec.list_of spec.literal mark.CloseRound room tokens.old) result tokens.new }
{
    let mut done = Seq::new(alloc);
    for _turn in 0..room {
        let next = literal(tokens)?;
        done.push(next)?;
        match goes_on(tokens, Mark::CloseRound) {
            Some(more) => {
                tokens.skip();
                if !more {
                    return Ok(done);
                }
            }
            None => return Err(Stop::Misplaced),
        }
    }
    Err(Stop::Misplaced)
}

// The start clause.
#[tactic(auto, unfolding(crate::specs::Reading::start))]
fn start(alloc: Global, tokens: &mut Cursor<'_>, room: usize) -> Result<Start, Stop>
    ensures { Reads start_view (spec.start room tokens.old) result tokens.new }
{
    let word = take(tokens, Mark::Start)?;
    let name = name(alloc, tokens)?;
    take(tokens, Mark::OpenRound)?;
    let args = literals(alloc, tokens, room)?;
    let end = take(tokens, Mark::Semicolon)?;
    Ok(Start {
        span: across(word, end),
        name,
        args,
    })
}

// What stands before the body of a pipe.
#[tactic(auto, unfolding(crate::specs::Reading::pipe_head))]
fn head(alloc: Global, tokens: &mut Cursor<'_>, room: usize) -> Result<Head, Stop>
    ensures { Reads head_view (spec.pipe_head room tokens.old) result tokens.new }
{
    take(tokens, Mark::Pipe)?;
    let name = name(alloc, tokens)?;
    take(tokens, Mark::OpenRound)?;
    let params = params(alloc, tokens, room)?;
    take(tokens, Mark::OpenSquare)?;
    let mems = mems(alloc, tokens, room)?;
    Ok(Head { name, params, mems })
}

// The body of a pipe and the start clause.
#[tactic(auto, unfolding(crate::specs::Reading::pipe_rest))]
fn rest(alloc: Global, tokens: &mut Cursor<'_>, room: usize) -> Result<Rest, Stop>
    ensures { Reads rest_view (spec.pipe_rest room tokens.old) result tokens.new }
{
    take(tokens, Mark::OpenBrace)?;
    let BranchEnd { stmts, end } = branch(alloc, tokens, room, room)?;
    let start = start(alloc, tokens, room)?;
    Ok(Rest {
        body: stmts,
        end,
        start,
    })
}

// A pipe and its start clause.
#[tactic(auto, unfolding(crate::specs::Reading::pipe))]
fn pipe(alloc: Global, tokens: &mut Cursor<'_>, room: usize) -> Result<Pipe, Stop>
    ensures { Reads pipe_view (spec.pipe room tokens.old) result tokens.new }
{
    let Head { name, params, mems } = head(alloc, tokens, room)?;
    let Rest { body, end, start } = rest(alloc, tokens, room)?;
    Ok(Pipe {
        name,
        params,
        mems,
        body,
        end,
        start,
    })
}

/// The pipe that all the tokens are, fewer than `room`.
#[tactic(auto, using(crate::proofs::Top::parse_is, crate::proofs::Top::parse_more, crate::proofs::Top::parse_fails))]
pub fn text(alloc: Global, tokens: &mut Cursor<'_>, room: usize) -> Result<Pipe, Stop>
    ensures { ReadsWhole pipe_view (spec.parse room tokens.old) result tokens.new }
{
    let pipe = pipe(alloc, tokens, room)?;
    if tokens.kind().is_some() {
        return Err(Stop::Misplaced);
    }
    Ok(pipe)
}
