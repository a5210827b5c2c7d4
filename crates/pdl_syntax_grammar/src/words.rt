// The smallest parts of a text: one token, or a location.
ghost use Rattle.std.specs.Prelude.{◌≡◌};
ghost use Rattle.pdl_syntax_tokens.specs.Cursor.{first_kind};
ghost use Rattle.pdl_syntax_grammar.specs.Read.{Reads};
ghost use Rattle.pdl_syntax_grammar.specs.Reading as spec;
ghost use Rattle.pdl_syntax_tree.specs.View.{span_view, ident_view, number_view, literal_view, kind_view, lock_kind_view, mem_kind_view, location_view};

use crate::stop::Stop;
use pdl_syntax_cursor::Cursor;
use pdl_syntax_tokens::{Mark, TokenKind};
use pdl_syntax_tree::{AccessKind, Ident, Literal, Location, LockKind, MemKind, Number, Span};
use std::alloc::Global;

/// Takes a keyword or a symbol, and tells where it stands.
#[tactic(auto, unfolding(crate::specs::ReadingExprs::take))]
pub fn take(tokens: &mut Cursor<'_>, mark: Mark) -> Result<Span, Stop>
    ensures { Reads span_view (spec.take mark tokens.old) result tokens.new }
{
    if tokens.is(mark) {
        let span = tokens.span();
        tokens.skip();
        Ok(span)
    } else {
        Err(Stop::Misplaced)
    }
}

/// Takes a name.
#[tactic(auto, unfolding(crate::specs::ReadingExprs::name))]
pub fn name(alloc: Global, tokens: &mut Cursor<'_>) -> Result<Ident, Stop>
    ensures { Reads ident_view (spec.name tokens.old) result tokens.new }
{
    match tokens.kind() {
        Some(TokenKind::Name) => {
            let name = tokens.name(alloc)?;
            tokens.skip();
            Ok(name)
        }
        _ => Err(Stop::Misplaced),
    }
}

/// Takes a number.
#[tactic(auto, unfolding(crate::specs::ReadingExprs::number))]
pub fn number(tokens: &mut Cursor<'_>) -> Result<Number, Stop>
    ensures { Reads number_view (spec.number tokens.old) result tokens.new }
{
    match tokens.kind() {
        Some(TokenKind::Number(value)) => {
            let span = tokens.span();
            tokens.skip();
            Ok(Number { value, span })
        }
        _ => Err(Stop::Misplaced),
    }
}

/// Takes a literal.
#[tactic(auto, unfolding(crate::specs::ReadingExprs::literal))]
pub fn literal(tokens: &mut Cursor<'_>) -> Result<Literal, Stop>
    ensures { Reads literal_view (spec.literal tokens.old) result tokens.new }
{
    match tokens.kind() {
        Some(TokenKind::Literal { width, value }) => {
            let span = tokens.span();
            tokens.skip();
            Ok(Literal { width, value, span })
        }
        _ => Err(Stop::Misplaced),
    }
}

/// Takes an `R` or a `W`.
#[tactic(auto, unfolding(crate::specs::ReadingExprs::access))]
pub fn access(tokens: &mut Cursor<'_>) -> Result<AccessKind, Stop>
    ensures { Reads kind_view (spec.access tokens.old) result tokens.new }
{
    match tokens.kind() {
        Some(TokenKind::Mark(Mark::R)) => {
            tokens.skip();
            Ok(AccessKind::R)
        }
        Some(TokenKind::Mark(Mark::W)) => {
            tokens.skip();
            Ok(AccessKind::W)
        }
        _ => Err(Stop::Misplaced),
    }
}

/// Takes a kind of lock.
#[tactic(auto, unfolding(crate::specs::Reading::lock_kind))]
pub fn lock_kind(tokens: &mut Cursor<'_>) -> Result<LockKind, Stop>
    ensures { Reads lock_kind_view (spec.lock_kind tokens.old) result tokens.new }
{
    match tokens.kind() {
        Some(TokenKind::Mark(Mark::Queue)) => {
            tokens.skip();
            Ok(LockKind::Queue)
        }
        Some(TokenKind::Mark(Mark::Bypass)) => {
            tokens.skip();
            Ok(LockKind::Bypass)
        }
        Some(TokenKind::Mark(Mark::Rename)) => {
            tokens.skip();
            Ok(LockKind::Rename)
        }
        _ => Err(Stop::Misplaced),
    }
}

/// Takes the kind of a memory: `comb`, `delayed` or `advisory`.
#[tactic(auto, unfolding(crate::specs::Reading::pace))]
pub fn pace(tokens: &mut Cursor<'_>) -> Result<MemKind, Stop>
    ensures { Reads mem_kind_view (spec.pace tokens.old) result tokens.new }
{
    match tokens.kind() {
        Some(TokenKind::Mark(Mark::Comb)) => {
            tokens.skip();
            Ok(MemKind::Comb)
        }
        Some(TokenKind::Mark(Mark::Delayed)) => {
            tokens.skip();
            Ok(MemKind::Delayed)
        }
        Some(TokenKind::Mark(Mark::Advisory)) => {
            tokens.skip();
            Ok(MemKind::Advisory)
        }
        _ => Err(Stop::Misplaced),
    }
}

// Takes a name in square brackets.
#[tactic(auto, unfolding(crate::specs::ReadingExprs::index))]
fn index(alloc: Global, tokens: &mut Cursor<'_>) -> Result<Ident, Stop>
    ensures { Reads ident_view (spec.index tokens.old) result tokens.new }
{
    take(tokens, Mark::OpenSquare)?;
    let address = name(alloc, tokens)?;
    take(tokens, Mark::CloseSquare)?;
    Ok(address)
}

/// Takes a location.
#[tactic(auto, unfolding(crate::specs::ReadingExprs::place))]
pub fn place(alloc: Global, tokens: &mut Cursor<'_>) -> Result<Location, Stop>
    ensures { Reads location_view (spec.place tokens.old) result tokens.new }
{
    let mem = name(alloc, tokens)?;
    let address = index(alloc, tokens)?;
    Ok(Location { mem, address })
}

/// Whether a comma comes, so that more follows, or the closing mark.
pub fn goes_on(tokens: &Cursor<'_>, close: Mark) -> Option<bool>
    ensures { result ≡ spec.goes_on close (first_kind tokens.now) }
{
    if tokens.is(Mark::Comma) {
        Some(true)
    } else if tokens.is(close) {
        Some(false)
    } else {
        None
    }
}
