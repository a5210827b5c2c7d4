// Expressions.
ghost use Rattle.std.specs.Prelude.{◌≡◌, ◌≤◌, ◌<◌, ◌++◌, ◌∷◌, [], MatchResult, OnOk, map};
ghost use Rattle.pdl_semantics.specs.Tree as tree;
ghost use Rattle.pdl_syntax_grammar.specs.Grammar.{operator_of, loose, levels};
ghost use Rattle.pdl_syntax_grammar.specs.Read.{Reads, bounds_view, pair_view, sized_view};
ghost use Rattle.pdl_syntax_grammar.specs.Reading as spec;
ghost use Rattle.pdl_syntax_grammar.specs.declared.stop.Stop.TheVariants.{NoMemory as no_memory};
ghost use Rattle.pdl_syntax_tokens.specs.Cursor.{first_kind};
ghost use Rattle.pdl_syntax_tree.specs.View.{ident_view, op_view, expr_view, maybe_op_view};

use crate::item::{Bounds, Pair, Sized};
use crate::stop::Stop;
use crate::words::{goes_on, literal, number, take};
use pdl_kit::{Boxed, NoMemory, Seq};
use pdl_syntax_cursor::Cursor;
use pdl_syntax_tokens::{Mark, TokenKind};
use pdl_syntax_tree::{BinaryOp, Expr, Ident};
use std::alloc::Global;

// How many kinds of binding the operators have.
const LEVELS: u32 = 8;

// An expression in a place of its own.
fn boxed(alloc: Global, e: Expr) -> Result<Boxed<Expr>, Stop>
    ensures { MatchResult result (λ b. b ≡ e) (λ e. e ≡ no_memory) }
{
    Ok(Boxed::new(alloc, e)?)
}

// The two numbers of a slice, after its bracket.
#[tactic(auto, unfolding(crate::specs::ReadingExprs::bounds))]
fn bounds(tokens: &mut Cursor<'_>) -> Result<Bounds, Stop>
    ensures { Reads bounds_view (spec.bounds tokens.old) result tokens.new }
{
    let high = number(tokens)?;
    take(tokens, Mark::Colon)?;
    let low = number(tokens)?;
    take(tokens, Mark::CloseSquare)?;
    Ok(Bounds { high, low })
}

// A slice, after the name and the bracket.
fn slice(alloc: Global, tokens: &mut Cursor<'_>, x: Ident) -> Result<Boxed<Expr>, Stop>
    ensures { Reads expr_view (spec.slice_of (ident_view x) tokens.old) result tokens.new }
{
    let Bounds { high, low } = bounds(tokens)?;
    boxed(alloc, Expr::Slice { x, high, low })
}

// A variable or a slice of it, after the name.
fn after_name(alloc: Global, tokens: &mut Cursor<'_>, x: Ident) -> Result<Boxed<Expr>, Stop>
    ensures { Reads expr_view (spec.after_name (ident_view x) tokens.old) result tokens.new }
{
    if tokens.is(Mark::OpenSquare) {
        tokens.skip();
        slice(alloc, tokens, x)
    } else {
        boxed(alloc, Expr::Variable(x))
    }
}

// Two operands and the operator between them.
fn binary(alloc: Global, op: BinaryOp, a: Boxed<Expr>, b: Boxed<Expr>) -> Result<Boxed<Expr>, Stop>
    ensures { MatchResult result
        (λ e. expr_view e ≡ tree.Binary (op_view op) (expr_view a) (expr_view b))
        (λ e. e ≡ no_memory) }
{
    boxed(alloc, Expr::Binary { op, a, b })
}

// What stands between round brackets, after the first.
#[cycle(expr)]
fn bracketed_expr(alloc: Global, tokens: &mut Cursor<'_>, room: usize) -> Result<Boxed<Expr>, Stop>
    ensures { Reads expr_view (spec.bracketed_expr (spec.inside room).full tokens.old) result
        tokens.new }
{
    let e = inside(alloc, tokens, room)?;
    take(tokens, Mark::CloseRound)?;
    Ok(e)
}

// Two expressions in brackets, after a function word.
#[cycle(expr)]
fn pair(alloc: Global, tokens: &mut Cursor<'_>, room: usize) -> Result<Pair, Stop>
    ensures { Reads pair_view (spec.pair (spec.inside room).full tokens.old) result tokens.new }
{
    take(tokens, Mark::OpenRound)?;
    let a = inside(alloc, tokens, room)?;
    take(tokens, Mark::Comma)?;
    let b = inside(alloc, tokens, room)?;
    take(tokens, Mark::CloseRound)?;
    Ok(Pair { a, b })
}

// An expression and a number in brackets, after a function word.
#[cycle(expr)]
fn sized_expr(alloc: Global, tokens: &mut Cursor<'_>, room: usize) -> Result<Sized, Stop>
    ensures { Reads sized_view (spec.sized_expr (spec.inside room).full tokens.old) result
        tokens.new }
{
    take(tokens, Mark::OpenRound)?;
    let e = inside(alloc, tokens, room)?;
    take(tokens, Mark::Comma)?;
    let width = number(tokens)?;
    take(tokens, Mark::CloseRound)?;
    Ok(Sized { e, width })
}

// An expression that stands inside another.
#[cycle(expr)]
#[tactic(auto, using(crate::proofs::DepthLevels::inside_more, crate::proofs::DepthLevels::inside_none))]
fn inside(alloc: Global, tokens: &mut Cursor<'_>, room: usize) -> Result<Boxed<Expr>, Stop>
    ensures { Reads expr_view ((spec.inside room).full tokens.old) result tokens.new }
{
    if room == 0 {
        return Err(Stop::Misplaced);
    }
    expr(alloc, tokens, room - 1)
}

// An operand that stands inside another.
#[cycle(expr)]
#[tactic(auto, using(crate::proofs::DepthLevels::operand_more, crate::proofs::DepthLevels::operand_none))]
fn operand_inside(alloc: Global, tokens: &mut Cursor<'_>, room: usize) -> Result<Boxed<Expr>, Stop>
    ensures { Reads expr_view ((spec.inside room).operand tokens.old) result tokens.new }
{
    if room == 0 {
        return Err(Stop::Misplaced);
    }
    operand(alloc, tokens, room - 1)
}

// What `~` inverts, after it.
#[cycle(expr)]
fn inverted(alloc: Global, tokens: &mut Cursor<'_>, room: usize) -> Result<Boxed<Expr>, Stop>
    ensures { Reads expr_view (spec.inverted (spec.inside room) tokens.old) result tokens.new }
{
    let e = operand_inside(alloc, tokens, room)?;
    boxed(alloc, Expr::Not(e))
}

// Two expressions one after the other, after the word `cat`.
#[cycle(expr)]
fn catenated(alloc: Global, tokens: &mut Cursor<'_>, room: usize) -> Result<Boxed<Expr>, Stop>
    ensures { Reads expr_view (spec.catenated (spec.inside room) tokens.old) result tokens.new }
{
    let Pair { a, b } = pair(alloc, tokens, room)?;
    boxed(alloc, Expr::Cat(a, b))
}

// A comparison of signed numbers, after its word.
#[cycle(expr)]
fn compared(alloc: Global, tokens: &mut Cursor<'_>, room: usize) -> Result<Boxed<Expr>, Stop>
    ensures { Reads expr_view (spec.compared (spec.inside room) tokens.old) result tokens.new }
{
    let Pair { a, b } = pair(alloc, tokens, room)?;
    boxed(alloc, Expr::LessSigned(a, b))
}

// An extension by zeros, after its word.
#[cycle(expr)]
fn extended(alloc: Global, tokens: &mut Cursor<'_>, room: usize) -> Result<Boxed<Expr>, Stop>
    ensures { Reads expr_view (spec.extended (spec.inside room) tokens.old) result tokens.new }
{
    let Sized { e, width } = sized_expr(alloc, tokens, room)?;
    boxed(alloc, Expr::ZeroExtend(e, width))
}

// An extension by the sign, after its word.
#[cycle(expr)]
fn sign_extended(alloc: Global, tokens: &mut Cursor<'_>, room: usize) -> Result<Boxed<Expr>, Stop>
    ensures { Reads expr_view (spec.sign_extended (spec.inside room) tokens.old) result tokens.new }
{
    let Sized { e, width } = sized_expr(alloc, tokens, room)?;
    boxed(alloc, Expr::SignExtend(e, width))
}

// What stands between operators.
#[cycle(expr)]
#[tactic(auto, unfolding(crate::specs::ReadingExprs::operand, crate::specs::ReadingExprs::literal))]
fn operand(alloc: Global, tokens: &mut Cursor<'_>, room: usize) -> Result<Boxed<Expr>, Stop>
    ensures { Reads expr_view (spec.operand (spec.inside room) tokens.old) result tokens.new }
{
    match tokens.kind() {
        Some(TokenKind::Literal { .. }) => boxed(alloc, Expr::Constant(literal(tokens)?)),
        Some(TokenKind::Name) => {
            let x = tokens.name(alloc)?;
            tokens.skip();
            after_name(alloc, tokens, x)
        }
        Some(TokenKind::Mark(Mark::OpenRound)) => {
            tokens.skip();
            bracketed_expr(alloc, tokens, room)
        }
        Some(TokenKind::Mark(Mark::Tilde)) => {
            tokens.skip();
            inverted(alloc, tokens, room)
        }
        Some(TokenKind::Mark(Mark::Cat)) => {
            tokens.skip();
            catenated(alloc, tokens, room)
        }
        Some(TokenKind::Mark(Mark::LessSigned)) => {
            tokens.skip();
            compared(alloc, tokens, room)
        }
        Some(TokenKind::Mark(Mark::ZeroExtend)) => {
            tokens.skip();
            extended(alloc, tokens, room)
        }
        Some(TokenKind::Mark(Mark::SignExtend)) => {
            tokens.skip();
            sign_extended(alloc, tokens, room)
        }
        _ => Err(Stop::Misplaced),
    }
}

// The operator between operands that a mark is, if it is one.
fn operator(mark: Mark) -> Option<BinaryOp>
    ensures { maybe_op_view result ≡ operator_of mark }
{
    match mark {
        Mark::Star => Some(BinaryOp::Mul),
        Mark::Plus => Some(BinaryOp::Add),
        Mark::Minus => Some(BinaryOp::Sub),
        Mark::ShiftLeft => Some(BinaryOp::ShiftLeft),
        Mark::ShiftRight => Some(BinaryOp::ShiftRight),
        Mark::Less => Some(BinaryOp::Less),
        Mark::Equal => Some(BinaryOp::Equal),
        Mark::Differ => Some(BinaryOp::Differ),
        Mark::Ampersand => Some(BinaryOp::And),
        Mark::Caret => Some(BinaryOp::Xor),
        Mark::Bar => Some(BinaryOp::Or),
        _ => None,
    }
}

// How loosely an operator binds.
fn looseness(op: BinaryOp) -> u32
    ensures { result ≡ loose (op_view op) }
{
    match op {
        BinaryOp::Mul => 0,
        BinaryOp::Add | BinaryOp::Sub => 1,
        BinaryOp::ShiftLeft | BinaryOp::ShiftRight => 2,
        BinaryOp::Less => 3,
        BinaryOp::Equal | BinaryOp::Differ => 4,
        BinaryOp::And => 5,
        BinaryOp::Xor => 6,
        BinaryOp::Or => 7,
    }
}

// The operator of a looseness that comes, if it does.
fn operator_at(tokens: &Cursor<'_>, n: u32) -> Option<BinaryOp>
    ensures { maybe_op_view result ≡ spec.op_in n (first_kind tokens.now) }
{
    match tokens.kind() {
        Some(TokenKind::Mark(mark)) => match operator(mark) {
            Some(op) => { if looseness(op) == n { Some(op) } else { None } }
            None => None,
        },
        _ => None,
    }
}

// The operators of looseness n that come with the operands after them, which group to the left.
#[cycle(expr)]
#[inline(never)]
#[tactic(auto, unfolding(crate::specs::ReadingExprs::chain))]
fn chain(
    alloc: Global,
    tokens: &mut Cursor<'_>,
    room: usize,
    n: u32,
    first: Boxed<Expr>,
) -> Result<Boxed<Expr>, Stop>
    requires { n < levels }
    ensures { Reads expr_view (spec.chain (spec.level (spec.operand (spec.inside room)) room n) n
        room (expr_view first) tokens.old) result tokens.new }
{
    let mut left = first;
    for _turn in 0..room {
        match operator_at(tokens, n) {
            Some(op) => {
                tokens.skip();
                let right = level(alloc, tokens, room, n)?;
                left = binary(alloc, op, left, right)?;
            }
            None => return Ok(left),
        }
    }
    Ok(left)
}

// Operands, and the operators that bind tighter than looseness n, which group to the left. It goes from the tightest operators to the loosest without a call for each in the other, so that brackets in one another take little stack.
#[cycle(expr)]
#[inline(never)]
#[tactic(auto, using(crate::proofs::DepthLevels::level_first, crate::proofs::DepthLevels::level_next, crate::proofs::DepthLevels::level_fails_first, crate::proofs::DepthLevels::level_fails_later))]
fn level(alloc: Global, tokens: &mut Cursor<'_>, room: usize, n: u32) -> Result<Boxed<Expr>, Stop>
    requires { n ≤ levels }
    ensures { Reads expr_view (spec.level (spec.operand (spec.inside room)) room n tokens.old)
        result tokens.new }
{
    let mut left = operand(alloc, tokens, room)?;
    for k in 0..n {
        left = chain(alloc, tokens, room, k, left)?;
    }
    Ok(left)
}

// The arms of a choice, after its `?`.
#[cycle(expr)]
fn arms(
    alloc: Global,
    tokens: &mut Cursor<'_>,
    room: usize,
    c: Boxed<Expr>,
) -> Result<Boxed<Expr>, Stop>
    ensures { Reads expr_view (spec.arms (spec.inside room).full (expr_view c) tokens.old) result
        tokens.new }
{
    let a = inside(alloc, tokens, room)?;
    take(tokens, Mark::Colon)?;
    let b = inside(alloc, tokens, room)?;
    boxed(alloc, Expr::Choose(c, a, b))
}

/// An expression of at most `room` tokens.
#[cycle(expr)]
#[tactic(auto, unfolding(crate::specs::ReadingExprs::full))]
pub fn expr(alloc: Global, tokens: &mut Cursor<'_>, room: usize) -> Result<Boxed<Expr>, Stop>
    ensures { Reads expr_view (spec.expr room tokens.old) result tokens.new }
{
    let e = level(alloc, tokens, room, LEVELS)?;
    if tokens.is(Mark::Question) {
        tokens.skip();
        arms(alloc, tokens, room, e)
    } else {
        Ok(e)
    }
}

// Adds an expression.
fn add(done: &mut Seq<Expr>, next: Boxed<Expr>) -> Result<(), NoMemory>
    ensures { OnOk result (done.new ≡ done.old ++ next ∷ []) }
{
    done.push(next.into_inner())
}

/// Expressions with commas between them, up to a closing round bracket.
#[tactic(auto, using(crate::proofs::Rows::listed_none, crate::proofs::Rows::after_nothing))]
pub fn args(alloc: Global, tokens: &mut Cursor<'_>, room: usize) -> Result<Seq<Expr>, Stop>
    ensures { Reads (map expr_view) (spec.args room tokens.old) result tokens.new }
{
    let mut done = Seq::new(alloc);
    for _turn in 0..room {
        let next = expr(alloc, tokens, room)?;
        add(&mut done, next)?;
        match goes_on(tokens, Mark::CloseRound) {
            Some(more) => {
                tokens.skip();
                if !more {
                    return Ok(done);
                }
            }
            None => return Err(Stop::Misplaced),
        }
    }
    Err(Stop::Misplaced)
}
