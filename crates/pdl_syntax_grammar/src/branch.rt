// Items, and those with others inside.
ghost use Rattle.std.specs.Prelude.{◌≡◌, ◌++◌, OnOk, map};
ghost use Rattle.pdl_syntax_grammar.specs.Read.{Reads, item_view, branch_view};
ghost use Rattle.pdl_syntax_grammar.specs.Reading as spec;
ghost use Rattle.pdl_syntax_tree.specs.View.{span_view, expr_view, stmt_view, stmts_view};

use crate::expression::expr;
use crate::item::{BranchEnd, GrammarItem};
use crate::statement::{across, plain};
use crate::stop::Stop;
use crate::words::take;
use pdl_kit::{Boxed, NoMemory, Seq};
use pdl_syntax_cursor::Cursor;
use pdl_syntax_tokens::Mark;
use pdl_syntax_tree::{Expr, Span, Stmt};
use std::alloc::Global;

// A condition, up to the brace after it.
#[tactic(auto, unfolding(crate::specs::Reading::condition))]
fn condition(alloc: Global, tokens: &mut Cursor<'_>, room: usize) -> Result<Boxed<Expr>, Stop>
    ensures { Reads expr_view (spec.condition room tokens.old) result tokens.new }
{
    take(tokens, Mark::OpenRound)?;
    let condition = expr(alloc, tokens, room)?;
    take(tokens, Mark::CloseRound)?;
    take(tokens, Mark::OpenBrace)?;
    Ok(condition)
}

/// The statements of a branch and its closing brace, after the opening one.
#[cycle(items)]
pub fn branch(
    alloc: Global,
    tokens: &mut Cursor<'_>,
    room: usize,
    most: usize,
) -> Result<BranchEnd, Stop>
    ensures { Reads branch_view (spec.branch (spec.items room most) tokens.old) result tokens.new }
{
    let stmts = items(alloc, tokens, room, most)?;
    let end = take(tokens, Mark::CloseBrace)?;
    Ok(BranchEnd { stmts, end })
}

// The other branch, after the first one's closing brace: none where no `else` comes.
#[cycle(items)]
fn otherwise(
    alloc: Global,
    tokens: &mut Cursor<'_>,
    room: usize,
    most: usize,
    end: Span,
) -> Result<BranchEnd, Stop>
    ensures { Reads branch_view (spec.otherwise (spec.items room most) (span_view end) tokens.old)
        result tokens.new }
{
    if tokens.is(Mark::Else) {
        tokens.skip();
        take(tokens, Mark::OpenBrace)?;
        branch(alloc, tokens, room, most)
    } else {
        Ok(BranchEnd {
            stmts: Seq::new(alloc),
            end,
        })
    }
}

// An `if`, after its word.
#[cycle(items)]
fn choice(
    alloc: Global,
    tokens: &mut Cursor<'_>,
    room: usize,
    most: usize,
    word: Span,
) -> Result<GrammarItem, Stop>
    ensures { Reads item_view (spec.if_of room (spec.items room most) (span_view word) tokens.old)
        result tokens.new }
{
    let condition = condition(alloc, tokens, room)?;
    let BranchEnd { stmts: then, end } = branch(alloc, tokens, room, most)?;
    let other = otherwise(alloc, tokens, room, most, end)?;
    Ok(GrammarItem::One(Stmt::If {
        span: across(word, other.end),
        condition: condition.into_inner(),
        then,
        otherwise: other.stmts,
    }))
}

// An item of the grammar, with at most so many items inside.
#[cycle(items)]
#[tactic(auto, unfolding(crate::specs::Reading::item))]
fn item(
    alloc: Global,
    tokens: &mut Cursor<'_>,
    room: usize,
    most: usize,
) -> Result<GrammarItem, Stop>
    ensures { Reads item_view (spec.item room (spec.items room most) tokens.old) result tokens.new }
{
    if tokens.is(Mark::If) {
        let word = tokens.span();
        tokens.skip();
        choice(alloc, tokens, room, most, word)
    } else {
        plain(alloc, tokens, room)
    }
}

// Adds the statements of an item.
fn add(done: &mut Seq<Stmt>, item: GrammarItem) -> Result<(), NoMemory>
    ensures { OnOk result (map stmt_view done.new ≡ map stmt_view done.old ++ item_view item) }
{
    match item {
        GrammarItem::One(only) => done.push(only),
        GrammarItem::Two(first, second) => {
            let one = done.push(first);
            let two = done.push(second);
            one.and(two)
        }
    }
}

/// Items up to a closing brace, at most `most`.
#[cycle(items)]
#[tactic(auto, using(crate::proofs::Rows::items_end, crate::proofs::Rows::items_item, crate::proofs::Rows::items_stuck, crate::proofs::Rows::items_fails, crate::proofs::Rows::after_no_stmts))]
pub fn items(
    alloc: Global,
    tokens: &mut Cursor<'_>,
    room: usize,
    most: usize,
) -> Result<Seq<Stmt>, Stop>
    ensures { Reads stmts_view (spec.items room most tokens.old) result tokens.new }
{
    let mut done = Seq::new(alloc);
    for turn in 0..most {
        if tokens.is(Mark::CloseBrace) {
            return Ok(done);
        }
        let next = item(alloc, tokens, room, most - turn - 1)?;
        add(&mut done, next)?;
    }
    Err(Stop::Misplaced)
}
