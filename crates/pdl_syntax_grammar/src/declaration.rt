// Parameters and memories.
ghost use Rattle.std.specs.Prelude.{map};
ghost use Rattle.pdl_syntax_grammar.specs.Read.{Reads, keeping_view, shape_view};
ghost use Rattle.pdl_syntax_grammar.specs.Reading as spec;
ghost use Rattle.pdl_syntax_tree.specs.View.{number_view, param_view, mem_view, maybe_lock_view};
ghost use Rattle.pdl_syntax_tokens.specs.declared.token.Mark.TheVariants as mark;

use crate::item::{Keeping, MemShape};
use crate::stop::Stop;
use crate::words::{goes_on, lock_kind, name, number, pace, take};
use pdl_kit::Seq;
use pdl_syntax_cursor::Cursor;
use pdl_syntax_tokens::Mark;
use pdl_syntax_tree::{LockDecl, Mem, MemKind, Number, Param};
use std::alloc::Global;

// The width of a type.
#[tactic(auto, unfolding(crate::specs::Reading::width))]
fn width(tokens: &mut Cursor<'_>) -> Result<Number, Stop>
    ensures { Reads number_view (spec.width tokens.old) result tokens.new }
{
    take(tokens, Mark::Uint)?;
    take(tokens, Mark::Less)?;
    let width = number(tokens)?;
    take(tokens, Mark::Greater)?;
    Ok(width)
}

#[tactic(auto, unfolding(crate::specs::Reading::param))]
fn param(alloc: Global, tokens: &mut Cursor<'_>) -> Result<Param, Stop>
    ensures { Reads param_view (spec.param tokens.old) result tokens.new }
{
    let name = name(alloc, tokens)?;
    take(tokens, Mark::Colon)?;
    let width = width(tokens)?;
    Ok(Param { name, width })
}

/// Parameters with commas between them, up to a closing round bracket.
#[tactic(auto, using(crate::proofs::Rows::listed_none, crate::proofs::Rows::after_nothing))]
pub fn params(alloc: Global, tokens: &mut Cursor<'_>, room: usize) -> Result<Seq<Param>, Stop>
    ensures { Reads (map param_view)
        (spec.list_of spec.param mark.CloseRound room tokens.old) result
        tokens.new }
{
    let mut done = Seq::new(alloc);
    for _turn in 0..room {
        let next = param(alloc, tokens)?;
        done.push(next)?;
        match goes_on(tokens, Mark::CloseRound) {
            Some(more) => {
                tokens.skip();
                if !more {
                    return Ok(done);
                }
            }
            None => return Err(Stop::Misplaced),
        }
    }
    Err(Stop::Misplaced)
}

// A lock, after `lock`.
fn lock_of(tokens: &mut Cursor<'_>) -> Result<Option<LockDecl>, Stop>
    ensures { Reads maybe_lock_view (spec.lock_clause tokens.old) result tokens.new }
{
    let kind = lock_kind(tokens)?;
    take(tokens, Mark::OpenRound)?;
    let size = number(tokens)?;
    take(tokens, Mark::CloseRound)?;
    Ok(Some(LockDecl { kind, size }))
}

// The lock of a memory, or none.
#[tactic(auto, unfolding(crate::specs::Reading::lock))]
fn lock(tokens: &mut Cursor<'_>) -> Result<Option<LockDecl>, Stop>
    ensures { Reads maybe_lock_view (spec.lock tokens.old) result tokens.new }
{
    if tokens.is(Mark::Lock) {
        tokens.skip();
        lock_of(tokens)
    } else {
        Ok(None)
    }
}

// The kind of a memory, and its lock or none; an advisory one has none.
#[tactic(auto, unfolding(crate::specs::Reading::keeping))]
fn keeping(tokens: &mut Cursor<'_>) -> Result<Keeping, Stop>
    ensures { Reads keeping_view (spec.keeping tokens.old) result tokens.new }
{
    let kind = pace(tokens)?;
    let lock = match kind {
        MemKind::Advisory => None,
        _ => lock(tokens)?,
    };
    Ok(Keeping { kind, lock })
}

// What stands after the name of a memory.
#[tactic(auto, unfolding(crate::specs::Reading::shape))]
fn shape(tokens: &mut Cursor<'_>) -> Result<MemShape, Stop>
    ensures { Reads shape_view (spec.shape tokens.old) result tokens.new }
{
    take(tokens, Mark::Colon)?;
    let width = width(tokens)?;
    take(tokens, Mark::OpenSquare)?;
    let depth = number(tokens)?;
    take(tokens, Mark::CloseSquare)?;
    let keeping = keeping(tokens)?;
    Ok(MemShape {
        width,
        depth,
        kind: keeping.kind,
        lock: keeping.lock,
    })
}

#[tactic(auto, unfolding(crate::specs::Reading::mem))]
fn mem(alloc: Global, tokens: &mut Cursor<'_>) -> Result<Mem, Stop>
    ensures { Reads mem_view (spec.mem tokens.old) result tokens.new }
{
    let name = name(alloc, tokens)?;
    let shape = shape(tokens)?;
    Ok(Mem {
        name,
        width: shape.width,
        depth: shape.depth,
        kind: shape.kind,
        lock: shape.lock,
    })
}

/// Memories with commas between them, up to a closing square bracket.
#[tactic(auto, using(crate::proofs::Rows::listed_none, crate::proofs::Rows::after_nothing))]
pub fn mems(alloc: Global, tokens: &mut Cursor<'_>, room: usize) -> Result<Seq<Mem>, Stop>
    ensures { Reads (map mem_view) (spec.list_of spec.mem mark.CloseSquare room tokens.old) result
        tokens.new }
{
    let mut done = Seq::new(alloc);
    for _turn in 0..room {
        let next = mem(alloc, tokens)?;
        done.push(next)?;
        match goes_on(tokens, Mark::CloseSquare) {
            Some(more) => {
                tokens.skip();
                if !more {
                    return Ok(done);
                }
            }
            None => return Err(Stop::Misplaced),
        }
    }
    Err(Stop::Misplaced)
}
