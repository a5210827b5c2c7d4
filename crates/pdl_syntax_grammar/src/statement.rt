// Statements without others inside.
ghost use Rattle.std.specs.Prelude.{◌≡◌, IfOk};
ghost use Rattle.pdl_syntax_grammar.specs.Grammar.{across};
ghost use Rattle.pdl_syntax_grammar.specs.Read.{Reads, item_view, expr_end_view, args_end_view, against_end_view, purpose_view, reserved_view, held_view};
ghost use Rattle.pdl_syntax_grammar.specs.Reading as spec;
ghost use Rattle.pdl_syntax_tree.specs.View.{span_view, ident_view, location_view, stmt_view};

use crate::expression::{args, expr};
use crate::item::{AgainstEnd, ArgsEnd, ExprEnd, GrammarItem, Held, Purpose, ReservedEnd};
use crate::stop::Stop;
use crate::words::{access, name, place, take};
use pdl_kit::NoMemory;
use pdl_syntax_cursor::Cursor;
use pdl_syntax_tokens::{Mark, TokenKind};
use pdl_syntax_tree::{Ident, Location, Span, Stmt};
use std::alloc::Global;

/// From the beginning of the first to the end of the second.
pub fn across(first: Span, last: Span) -> Span
    ensures { span_view result ≡ across (span_view first) (span_view last) }
{
    Span {
        start: first.start,
        end: last.end,
        line: first.line,
    }
}

// A location, and where the semicolon after it stands.
#[tactic(auto, unfolding(crate::specs::ReadingExprs::ended))]
fn ended_place(alloc: Global, tokens: &mut Cursor<'_>) -> Result<Held, Stop>
    ensures { Reads held_view (spec.ended spec.place tokens.old) result tokens.new }
{
    let at = place(alloc, tokens)?;
    let end = take(tokens, Mark::Semicolon)?;
    Ok(Held { at, end })
}

// An expression, and where the semicolon after it stands.
#[tactic(auto, unfolding(crate::specs::ReadingExprs::ended))]
fn ended_expr(alloc: Global, tokens: &mut Cursor<'_>, room: usize) -> Result<ExprEnd, Stop>
    ensures { Reads expr_end_view (spec.ended (spec.expr room) tokens.old) result tokens.new }
{
    let e = expr(alloc, tokens, room)?;
    let end = take(tokens, Mark::Semicolon)?;
    Ok(ExprEnd { e, end })
}

// Arguments, and where the semicolon after them stands.
#[tactic(auto, unfolding(crate::specs::ReadingExprs::ended))]
fn ended_args(alloc: Global, tokens: &mut Cursor<'_>, room: usize) -> Result<ArgsEnd, Stop>
    ensures { Reads args_end_view (spec.ended (spec.args room) tokens.old) result tokens.new }
{
    let args = args(alloc, tokens, room)?;
    let end = take(tokens, Mark::Semicolon)?;
    Ok(ArgsEnd { args, end })
}

// A read of a memory, after `x =`.
fn memory_read(alloc: Global, tokens: &mut Cursor<'_>, x: Ident) -> Result<Stmt, Stop>
    ensures { Reads stmt_view (spec.read_of (ident_view x) tokens.old) result tokens.new }
{
    let Held { at, end } = ended_place(alloc, tokens)?;
    Ok(Stmt::CombRead {
        span: across(x.span, end),
        x,
        from: at,
    })
}

// A binding of an expression, after `x =`.
fn bind(alloc: Global, tokens: &mut Cursor<'_>, room: usize, x: Ident) -> Result<Stmt, Stop>
    ensures { Reads stmt_view (spec.bind_of (spec.expr room) (ident_view x) tokens.old) result
        tokens.new }
{
    let ExprEnd { e, end } = ended_expr(alloc, tokens, room)?;
    Ok(Stmt::Bind {
        span: across(x.span, end),
        x,
        e: e.into_inner(),
    })
}

// A guess, after `x = spec_call`.
fn guess(alloc: Global, tokens: &mut Cursor<'_>, room: usize, x: Ident) -> Result<Stmt, Stop>
    ensures { Reads stmt_view (spec.guess_of room (ident_view x) tokens.old) result tokens.new }
{
    take(tokens, Mark::OpenRound)?;
    let ArgsEnd { args, end } = ended_args(alloc, tokens, room)?;
    Ok(Stmt::SpecCall {
        span: across(x.span, end),
        guess: x,
        args,
    })
}

// A guess or a binding, after `x =`.
fn computed_stmt(
    alloc: Global,
    tokens: &mut Cursor<'_>,
    room: usize,
    x: Ident,
) -> Result<Stmt, Stop>
    ensures { Reads stmt_view (spec.computed_stmt room (ident_view x) tokens.old) result
        tokens.new }
{
    if tokens.is(Mark::SpecCall) {
        tokens.skip();
        guess(alloc, tokens, room, x)
    } else {
        bind(alloc, tokens, room, x)
    }
}

// What stands after `x =`.
fn assigned_stmt(
    alloc: Global,
    tokens: &mut Cursor<'_>,
    room: usize,
    x: Ident,
) -> Result<Stmt, Stop>
    ensures { Reads stmt_view (spec.assigned_stmt room (ident_view x) tokens.old) result
        tokens.new }
{
    if tokens.begins_place() {
        memory_read(alloc, tokens, x)
    } else {
        computed_stmt(alloc, tokens, room, x)
    }
}

// A read of a delayed memory, after `x <-`.
fn fetch(alloc: Global, tokens: &mut Cursor<'_>, x: Ident) -> Result<Stmt, Stop>
    ensures { Reads stmt_view (spec.fetch_of (ident_view x) tokens.old) result tokens.new }
{
    let Held { at, end } = ended_place(alloc, tokens)?;
    Ok(Stmt::DelayedRead {
        span: across(x.span, end),
        x,
        from: at,
    })
}

// The address that is written, after `m [`, up to the arrow.
#[tactic(auto, unfolding(crate::specs::Reading::address))]
fn written_address(alloc: Global, tokens: &mut Cursor<'_>) -> Result<Ident, Stop>
    ensures { Reads ident_view (spec.address tokens.old) result tokens.new }
{
    let address = name(alloc, tokens)?;
    take(tokens, Mark::CloseSquare)?;
    take(tokens, Mark::Arrow)?;
    Ok(address)
}

// A write, after `m [`.
fn write(alloc: Global, tokens: &mut Cursor<'_>, room: usize, mem: Ident) -> Result<Stmt, Stop>
    ensures { Reads stmt_view (spec.write_of (spec.expr room) (ident_view mem) tokens.old) result
        tokens.new }
{
    let address = written_address(alloc, tokens)?;
    let ExprEnd { e, end } = ended_expr(alloc, tokens, room)?;
    Ok(Stmt::Write {
        span: across(mem.span, end),
        to: Location { mem, address },
        e: e.into_inner(),
    })
}

// What stands after the name with which a statement begins.
#[tactic(auto, unfolding(crate::specs::Reading::named_stmt))]
fn named_stmt(alloc: Global, tokens: &mut Cursor<'_>, room: usize, x: Ident) -> Result<Stmt, Stop>
    ensures { Reads stmt_view (spec.named_stmt room (ident_view x) tokens.old) result tokens.new }
{
    match tokens.kind() {
        Some(TokenKind::Mark(Mark::Assign)) => {
            tokens.skip();
            assigned_stmt(alloc, tokens, room, x)
        }
        Some(TokenKind::Mark(Mark::Arrow)) => {
            tokens.skip();
            fetch(alloc, tokens, x)
        }
        Some(TokenKind::Mark(Mark::OpenSquare)) => {
            tokens.skip();
            write(alloc, tokens, room, x)
        }
        _ => Err(Stop::Misplaced),
    }
}

// What a location is reserved for, after it, up to the semicolon.
#[tactic(auto, unfolding(crate::specs::Reading::purpose))]
fn purpose(tokens: &mut Cursor<'_>) -> Result<Purpose, Stop>
    ensures { Reads purpose_view (spec.purpose tokens.old) result tokens.new }
{
    take(tokens, Mark::Comma)?;
    let kind = access(tokens)?;
    take(tokens, Mark::CloseRound)?;
    let end = take(tokens, Mark::Semicolon)?;
    Ok(Purpose { kind, end })
}

// A closing bracket and a semicolon, and where that stands.
#[tactic(auto, unfolding(crate::specs::Reading::closed))]
fn closed(tokens: &mut Cursor<'_>) -> Result<Span, Stop>
    ensures { Reads span_view (spec.closed tokens.old) result tokens.new }
{
    take(tokens, Mark::CloseRound)?;
    take(tokens, Mark::Semicolon)
}

// A location and what it is reserved for, up to the semicolon.
#[tactic(auto, unfolding(crate::specs::Reading::reserved_location))]
fn reserved_location(alloc: Global, tokens: &mut Cursor<'_>) -> Result<ReservedEnd, Stop>
    ensures { Reads reserved_view (spec.reserved_location tokens.old) result tokens.new }
{
    take(tokens, Mark::OpenRound)?;
    let at = place(alloc, tokens)?;
    let Purpose { kind, end } = purpose(tokens)?;
    Ok(ReservedEnd { at, kind, end })
}

// A location up to the semicolon.
#[tactic(auto, unfolding(crate::specs::Reading::held_location))]
fn held_location(alloc: Global, tokens: &mut Cursor<'_>) -> Result<Held, Stop>
    ensures { Reads held_view (spec.held_location tokens.old) result tokens.new }
{
    take(tokens, Mark::OpenRound)?;
    let at = place(alloc, tokens)?;
    let end = closed(tokens)?;
    Ok(Held { at, end })
}

fn copy_of_ident(x: &Ident) -> Result<Ident, NoMemory>
    ensures { IfOk result (λ y. ident_view y ≡ ident_view x.now) }
{
    Ok(Ident {
        name: x.name.clone()?,
        span: x.span,
    })
}

fn copy_of(at: &Location) -> Result<Location, NoMemory>
    ensures { IfOk result (λ copy. location_view copy ≡ location_view at.now) }
{
    Ok(Location {
        mem: copy_of_ident(&at.mem)?,
        address: copy_of_ident(&at.address)?,
    })
}

// A reservation, after its word.
fn reserve(alloc: Global, tokens: &mut Cursor<'_>, word: Span) -> Result<GrammarItem, Stop>
    ensures { Reads item_view (spec.reserve_of (span_view word) tokens.old) result tokens.new }
{
    let ReservedEnd { at, kind, end } = reserved_location(alloc, tokens)?;
    Ok(GrammarItem::One(Stmt::Reserve {
        span: across(word, end),
        at,
        kind,
    }))
}

// A reservation and the wait for it, after their word: two statements.
fn acquire(alloc: Global, tokens: &mut Cursor<'_>, word: Span) -> Result<GrammarItem, Stop>
    ensures { Reads item_view (spec.acquire_of (span_view word) tokens.old) result tokens.new }
{
    let ReservedEnd { at, kind, end } = reserved_location(alloc, tokens)?;
    let span = across(word, end);
    let again = copy_of(&at)?;
    let first = Stmt::Reserve { span, at, kind };
    Ok(GrammarItem::Two(first, Stmt::Block { span, at: again }))
}

// A wait, after its word.
fn block(alloc: Global, tokens: &mut Cursor<'_>, word: Span) -> Result<GrammarItem, Stop>
    ensures { Reads item_view (spec.block_of (span_view word) tokens.old) result tokens.new }
{
    let Held { at, end } = held_location(alloc, tokens)?;
    Ok(GrammarItem::One(Stmt::Block {
        span: across(word, end),
        at,
    }))
}

// A release, after its word.
fn release(alloc: Global, tokens: &mut Cursor<'_>, word: Span) -> Result<GrammarItem, Stop>
    ensures { Reads item_view (spec.release_of (span_view word) tokens.old) result tokens.new }
{
    let Held { at, end } = held_location(alloc, tokens)?;
    Ok(GrammarItem::One(Stmt::Release {
        span: across(word, end),
        at,
    }))
}

// A call, after its word.
fn call(
    alloc: Global,
    tokens: &mut Cursor<'_>,
    room: usize,
    word: Span,
) -> Result<GrammarItem, Stop>
    ensures { Reads item_view (spec.call_of room (span_view word) tokens.old) result tokens.new }
{
    take(tokens, Mark::OpenRound)?;
    let ArgsEnd { args, end } = ended_args(alloc, tokens, room)?;
    Ok(GrammarItem::One(Stmt::Call {
        span: across(word, end),
        args,
    }))
}

// A guess and arguments that it is held against, up to the semicolon.
#[tactic(auto, unfolding(crate::specs::Reading::against))]
fn against(alloc: Global, tokens: &mut Cursor<'_>, room: usize) -> Result<AgainstEnd, Stop>
    ensures { Reads against_end_view (spec.against room tokens.old) result tokens.new }
{
    take(tokens, Mark::OpenRound)?;
    let guess = name(alloc, tokens)?;
    take(tokens, Mark::Comma)?;
    let ArgsEnd { args, end } = ended_args(alloc, tokens, room)?;
    Ok(AgainstEnd { guess, args, end })
}

// The last test of a guess, after its word.
fn verify(
    alloc: Global,
    tokens: &mut Cursor<'_>,
    room: usize,
    word: Span,
) -> Result<GrammarItem, Stop>
    ensures { Reads item_view (spec.verify_of room (span_view word) tokens.old) result tokens.new }
{
    let AgainstEnd { guess, args, end } = against(alloc, tokens, room)?;
    Ok(GrammarItem::One(Stmt::Verify {
        span: across(word, end),
        guess,
        args,
    }))
}

// An update of a guess, after its word.
fn update(
    alloc: Global,
    tokens: &mut Cursor<'_>,
    room: usize,
    word: Span,
) -> Result<GrammarItem, Stop>
    ensures { Reads item_view (spec.update_of room (span_view word) tokens.old) result tokens.new }
{
    let AgainstEnd { guess, args, end } = against(alloc, tokens, room)?;
    Ok(GrammarItem::One(Stmt::Update {
        span: across(word, end),
        guess,
        args,
    }))
}

// Empty brackets up to the semicolon, and where it stands.
#[tactic(auto, unfolding(crate::specs::Reading::bare))]
fn bare(tokens: &mut Cursor<'_>) -> Result<Span, Stop>
    ensures { Reads span_view (spec.bare tokens.old) result tokens.new }
{
    take(tokens, Mark::OpenRound)?;
    take(tokens, Mark::CloseRound)?;
    take(tokens, Mark::Semicolon)
}

// A check of the guess that began the thread, after its word.
fn check(tokens: &mut Cursor<'_>, word: Span) -> Result<GrammarItem, Stop>
    ensures { Reads item_view (spec.check_of (span_view word) tokens.old) result tokens.new }
{
    let end = bare(tokens)?;
    Ok(GrammarItem::One(Stmt::SpecCheck {
        span: across(word, end),
    }))
}

// A barrier, after its word.
fn barrier(tokens: &mut Cursor<'_>, word: Span) -> Result<GrammarItem, Stop>
    ensures { Reads item_view (spec.barrier_of (span_view word) tokens.old) result tokens.new }
{
    let end = bare(tokens)?;
    Ok(GrammarItem::One(Stmt::SpecBarrier {
        span: across(word, end),
    }))
}

// A statement on a lock.
#[tactic(auto, unfolding(crate::specs::Reading::locking))]
fn locking(alloc: Global, tokens: &mut Cursor<'_>) -> Result<GrammarItem, Stop>
    ensures { Reads item_view (spec.locking tokens.old) result tokens.new }
{
    let word = tokens.span();
    match tokens.kind() {
        Some(TokenKind::Mark(Mark::Reserve)) => {
            tokens.skip();
            reserve(alloc, tokens, word)
        }
        Some(TokenKind::Mark(Mark::Acquire)) => {
            tokens.skip();
            acquire(alloc, tokens, word)
        }
        Some(TokenKind::Mark(Mark::Block)) => {
            tokens.skip();
            block(alloc, tokens, word)
        }
        Some(TokenKind::Mark(Mark::Release)) => {
            tokens.skip();
            release(alloc, tokens, word)
        }
        _ => Err(Stop::Misplaced),
    }
}

// A statement that begins with a name.
fn named_item(alloc: Global, tokens: &mut Cursor<'_>, room: usize) -> Result<GrammarItem, Stop>
    ensures { Reads item_view (spec.named_item room tokens.old) result tokens.new }
{
    let x = tokens.name(alloc)?;
    tokens.skip();
    Ok(GrammarItem::One(named_stmt(alloc, tokens, room, x)?))
}

/// An item without statements inside: a separator, or what stands up to a semicolon.
#[tactic(auto, unfolding(crate::specs::Reading::plain))]
pub fn plain(alloc: Global, tokens: &mut Cursor<'_>, room: usize) -> Result<GrammarItem, Stop>
    ensures { Reads item_view (spec.plain room tokens.old) result tokens.new }
{
    let span = tokens.span();
    match tokens.kind() {
        Some(TokenKind::Name) => named_item(alloc, tokens, room),
        Some(TokenKind::Mark(Mark::Separator)) => {
            tokens.skip();
            Ok(GrammarItem::One(Stmt::Separator { span }))
        }
        Some(TokenKind::Mark(Mark::Call)) => {
            tokens.skip();
            call(alloc, tokens, room, span)
        }
        Some(TokenKind::Mark(Mark::Verify)) => {
            tokens.skip();
            verify(alloc, tokens, room, span)
        }
        Some(TokenKind::Mark(Mark::Update)) => {
            tokens.skip();
            update(alloc, tokens, room, span)
        }
        Some(TokenKind::Mark(Mark::SpecCheck)) => {
            tokens.skip();
            check(tokens, span)
        }
        Some(TokenKind::Mark(Mark::SpecBarrier)) => {
            tokens.skip();
            barrier(tokens, span)
        }
        _ => locking(alloc, tokens),
    }
}
