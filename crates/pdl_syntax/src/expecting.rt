// What a symbol takes, and what is expected in its place then.
ghost use Rattle.std.specs.Prelude.{◌≡◌, ◌∷◌, ◌++◌, [], Some, None, cond, is_some, map, reverse};
ghost use Rattle.pdl_syntax_cursor.specs.Looks as looks;
ghost use Rattle.pdl_syntax_grammar.specs.Automaton as spec;
ghost use Rattle.pdl_syntax_tokens.specs.declared.token.Mark.TheVariants as mark;
ghost use Rattle.pdl_syntax_tokens.specs.declared.token.TokenKind.TheVariants as kind;
ghost use Rattle.pdl_syntax_grammar.specs.Grammar.{operator_of};
ghost use Rattle.pdl_syntax.specs.View.{symbol_view, closer_view, listing_view, Expects};

use crate::stack::Stack;
use crate::symbol::{Closer, Listing, Symbol};
use pdl_kit::NoMemory;
use pdl_syntax_tokens::{Mark, TokenKind};

fn is_mark(mark: Mark, kind: TokenKind) -> bool
    ensures { result ≡ looks.is_mark mark (Some kind) }
{
    match kind {
        TokenKind::Mark(other) => other == mark,
        _ => false,
    }
}

// The token is taken, and these are expected in the symbol's place, the last of them first.
fn expect(stack: &mut Stack, symbols: &[Symbol]) -> Result<bool, NoMemory>
    ensures { Expects (Some (reverse (map symbol_view symbols.now))) result stack.old stack.new }
{
    stack.push(symbols)?;
    Ok(true)
}

/// What is expected of a value of a list, and of what follows it.
pub fn first_of(stack: &mut Stack, list: Listing) -> Result<bool, NoMemory>
    ensures { Expects (Some (spec.first_of (listing_view list))) result stack.old stack.new }
{
    let more = Symbol::More(list);
    let name = [
        Symbol::Mark(Mark::Greater),
        Symbol::Number,
        Symbol::Mark(Mark::Less),
        Symbol::Mark(Mark::Uint),
        Symbol::Mark(Mark::Colon),
        Symbol::Name,
    ];
    match list {
        Listing::Params => {
            stack.push(&[more])?;
            stack.push(&name)?;
        }
        Listing::Mems => {
            stack.push(&[
                Symbol::Pace,
                Symbol::Mark(Mark::CloseSquare),
                Symbol::Number,
                Symbol::Mark(Mark::OpenSquare),
            ])?;
            stack.push(&name)?;
        }
        Listing::Args => stack.push(&[Symbol::Operand(Closer::Arguments)])?,
        Listing::Literals => stack.push(&[more, Symbol::Literal])?,
    }
    Ok(true)
}

fn closer(list: Listing) -> Mark
    ensures { result ≡ spec.closer (listing_view list) }
{
    match list {
        Listing::Mems => Mark::CloseSquare,
        _ => Mark::CloseRound,
    }
}

#[tactic(auto, using(crate::proofs::Operators::closed_by))]
fn more(stack: &mut Stack, list: Listing, kind: TokenKind) -> Result<bool, NoMemory>
    ensures { Expects (spec.act_more (listing_view list) kind) result stack.old stack.new }
{
    if is_mark(Mark::Comma, kind) {
        first_of(stack, list)
    } else {
        Ok(is_mark(closer(list), kind))
    }
}

// What closes an expression.
#[tactic(auto, using(crate::proofs::Operators::word_taken))]
fn close(stack: &mut Stack, q: Closer, kind: TokenKind) -> Result<bool, NoMemory>
    ensures { Expects (spec.act_close (closer_view q) kind) result stack.old stack.new }
{
    match q {
        Closer::Semicolon => Ok(is_mark(Mark::Semicolon, kind)),
        Closer::Round => Ok(is_mark(Mark::CloseRound, kind)),
        Closer::Comma => Ok(is_mark(Mark::Comma, kind)),
        Closer::Colon => Ok(is_mark(Mark::Colon, kind)),
        Closer::Arguments => more(stack, Listing::Args, kind),
    }
}

// An operator between operands.
fn is_operator(mark: Mark) -> bool
    ensures { result ≡ is_some (operator_of mark) }
{
    match mark {
        Mark::Star | Mark::Plus | Mark::Minus | Mark::ShiftLeft | Mark::ShiftRight => true,
        Mark::Less | Mark::Equal | Mark::Differ => true,
        Mark::Ampersand | Mark::Caret | Mark::Bar => true,
        _ => false,
    }
}

// A choice, or what closes the expression.
fn choice(stack: &mut Stack, q: Closer, kind: TokenKind) -> Result<bool, NoMemory>
    ensures { Expects (spec.act_choice (closer_view q) kind) result stack.old stack.new }
{
    match kind {
        TokenKind::Mark(Mark::Question) => {
            expect(stack, &[Symbol::Operand(q), Symbol::Operand(Closer::Colon)])
        }
        _ => close(stack, q, kind),
    }
}

// After an operand.
#[tactic(auto, using(crate::proofs::Operators::rest_operator, crate::proofs::Operators::rest_other))]
fn rest(stack: &mut Stack, q: Closer, kind: TokenKind) -> Result<bool, NoMemory>
    ensures { Expects (spec.act_rest (closer_view q) kind) result stack.old stack.new }
{
    match kind {
        TokenKind::Mark(mark) => {
            if is_operator(mark) {
                expect(stack, &[Symbol::Operand(q)])
            } else {
                choice(stack, q, kind)
            }
        }
        _ => close(stack, q, kind),
    }
}

// After a name in an expression.
fn slicing(stack: &mut Stack, q: Closer, kind: TokenKind) -> Result<bool, NoMemory>
    ensures { Expects (spec.act_slicing (closer_view q) kind) result stack.old stack.new }
{
    match kind {
        TokenKind::Mark(Mark::OpenSquare) => {
            expect(
                stack,
                &[
                    Symbol::Rest(q),
                    Symbol::Mark(Mark::CloseSquare),
                    Symbol::Number,
                    Symbol::Mark(Mark::Colon),
                    Symbol::Number,
                ],
            )
        }
        _ => rest(stack, q, kind),
    }
}

// An expression, and what closes it.
fn operand(stack: &mut Stack, q: Closer, kind: TokenKind) -> Result<bool, NoMemory>
    ensures { Expects (spec.act_operand (closer_view q) kind) result stack.old stack.new }
{
    let open = Symbol::Mark(Mark::OpenRound);
    let close = Symbol::Mark(Mark::CloseRound);
    let first = Symbol::Operand(Closer::Comma);
    let second = Symbol::Operand(Closer::Round);
    let rest = Symbol::Rest(q);
    match kind {
        TokenKind::Literal { .. } => expect(stack, &[rest]),
        TokenKind::Name => expect(stack, &[Symbol::Slicing(q)]),
        TokenKind::Mark(Mark::OpenRound) => expect(stack, &[rest, second]),
        TokenKind::Mark(Mark::Tilde) => expect(stack, &[Symbol::Operand(q)]),
        TokenKind::Mark(Mark::Cat) => expect(stack, &[rest, second, first, open]),
        TokenKind::Mark(Mark::LessSigned) => expect(stack, &[rest, second, first, open]),
        TokenKind::Mark(Mark::ZeroExtend) => {
            expect(stack, &[rest, close, Symbol::Number, first, open])
        }
        TokenKind::Mark(Mark::SignExtend) => {
            expect(stack, &[rest, close, Symbol::Number, first, open])
        }
        _ => Ok(false),
    }
}

// After `comb` or `delayed`.
fn expect_lock(stack: &mut Stack, kind: TokenKind) -> Result<bool, NoMemory>
    ensures { Expects (spec.act_locked kind) result stack.old stack.new }
{
    match kind {
        TokenKind::Mark(Mark::Lock) => {
            expect(
                stack,
                &[
                    Symbol::More(Listing::Mems),
                    Symbol::Mark(Mark::CloseRound),
                    Symbol::Number,
                    Symbol::Mark(Mark::OpenRound),
                    Symbol::LockKind,
                ],
            )
        }
        _ => more(stack, Listing::Mems, kind),
    }
}

// The kind of a memory.
fn pace(stack: &mut Stack, kind: TokenKind) -> Result<bool, NoMemory>
    ensures { Expects (spec.act_pace kind) result stack.old stack.new }
{
    match kind {
        TokenKind::Mark(Mark::Comb) => expect(stack, &[Symbol::Locked]),
        TokenKind::Mark(Mark::Delayed) => expect(stack, &[Symbol::Locked]),
        TokenKind::Mark(Mark::Advisory) => expect(stack, &[Symbol::More(Listing::Mems)]),
        _ => Ok(false),
    }
}

// A location in brackets and a semicolon, after the word of a statement, and what stands between the location and the closing bracket, the last of it first.
fn expect_location(stack: &mut Stack, between: &[Symbol]) -> Result<bool, NoMemory>
    ensures { Expects (Some (spec.held_stack (reverse (map symbol_view between.now)) ++
        (spec.items ∷ [])))
        result stack.old stack.new }
{
    stack.push(&[
        Symbol::Items,
        Symbol::Mark(Mark::Semicolon),
        Symbol::Mark(Mark::CloseRound),
    ])?;
    stack.push(between)?;
    expect(
        stack,
        &[
            Symbol::Mark(Mark::CloseSquare),
            Symbol::Name,
            Symbol::Mark(Mark::OpenSquare),
            Symbol::Name,
            Symbol::Mark(Mark::OpenRound),
        ],
    )
}

// A statement on a lock.
fn locking(stack: &mut Stack, kind: TokenKind) -> Result<bool, NoMemory>
    ensures { Expects (spec.act_locking kind) result stack.old stack.new }
{
    match kind {
        TokenKind::Mark(Mark::Reserve) => expect_location(
            stack,
            &[Symbol::Access, Symbol::Mark(Mark::Comma)],
        ),
        TokenKind::Mark(Mark::Acquire) => expect_location(
            stack,
            &[Symbol::Access, Symbol::Mark(Mark::Comma)],
        ),
        TokenKind::Mark(Mark::Block) => expect_location(stack, &[]),
        TokenKind::Mark(Mark::Release) => expect_location(stack, &[]),
        _ => Ok(false),
    }
}

// Items, and the closing brace.
fn items(stack: &mut Stack, kind: TokenKind) -> Result<bool, NoMemory>
    ensures { Expects (spec.act_items kind) result stack.old stack.new }
{
    let open = Symbol::Mark(Mark::OpenRound);
    let close = Symbol::Mark(Mark::CloseRound);
    let end = Symbol::Mark(Mark::Semicolon);
    let args = Symbol::Operand(Closer::Arguments);
    match kind {
        TokenKind::Name => expect(stack, &[Symbol::Items, Symbol::AfterName]),
        TokenKind::Mark(Mark::Separator) => expect(stack, &[Symbol::Items]),
        TokenKind::Mark(Mark::If) => branches(stack),
        TokenKind::Mark(Mark::Call) => expect(stack, &[Symbol::Items, end, args, open]),
        TokenKind::Mark(Mark::Verify | Mark::Update) => {
            let comma = Symbol::Mark(Mark::Comma);
            expect(
                stack,
                &[Symbol::Items, end, args, comma, Symbol::Name, open],
            )
        }
        TokenKind::Mark(Mark::SpecCheck) => expect(stack, &[Symbol::Items, end, close, open]),
        TokenKind::Mark(Mark::SpecBarrier) => expect(stack, &[Symbol::Items, end, close, open]),
        TokenKind::Mark(Mark::CloseBrace) => Ok(true),
        _ => locking(stack, kind),
    }
}

// A condition and its branches, after `if`.
fn branches(stack: &mut Stack) -> Result<bool, NoMemory>
    ensures { Expects (spec.act_items (kind.Mark mark.If)) result stack.old stack.new }
{
    expect(
        stack,
        &[
            Symbol::ElseItems,
            Symbol::Items,
            Symbol::Mark(Mark::OpenBrace),
            Symbol::Operand(Closer::Round),
            Symbol::Mark(Mark::OpenRound),
        ],
    )
}

// After a branch.
fn else_items(stack: &mut Stack, kind: TokenKind) -> Result<bool, NoMemory>
    ensures { Expects (spec.act_else_items kind) result stack.old stack.new }
{
    match kind {
        TokenKind::Mark(Mark::Else) => {
            expect(
                stack,
                &[Symbol::Items, Symbol::Items, Symbol::Mark(Mark::OpenBrace)],
            )
        }
        _ => items(stack, kind),
    }
}

// After the name with which an item begins.
fn after_name(stack: &mut Stack, kind: TokenKind) -> Result<bool, NoMemory>
    ensures { Expects (spec.act_after_name kind) result stack.old stack.new }
{
    let open = Symbol::Mark(Mark::OpenSquare);
    let close = Symbol::Mark(Mark::CloseSquare);
    match kind {
        TokenKind::Mark(Mark::Assign) => expect(stack, &[Symbol::Assigned]),
        TokenKind::Mark(Mark::Arrow) => {
            let end = Symbol::Mark(Mark::Semicolon);
            expect(stack, &[end, close, Symbol::Name, open, Symbol::Name])
        }
        TokenKind::Mark(Mark::OpenSquare) => {
            let arrow = Symbol::Mark(Mark::Arrow);
            let value = Symbol::Operand(Closer::Semicolon);
            expect(stack, &[value, arrow, close, Symbol::Name])
        }
        _ => Ok(false),
    }
}

// After `x =`.
fn expect_value(stack: &mut Stack, kind: TokenKind) -> Result<bool, NoMemory>
    ensures { Expects (spec.act_assigned kind) result stack.old stack.new }
{
    match kind {
        TokenKind::Name => expect(stack, &[Symbol::AssignedName]),
        TokenKind::Mark(Mark::SpecCall) => expect(
            stack,
            &[
                Symbol::Mark(Mark::Semicolon),
                Symbol::Operand(Closer::Arguments),
                Symbol::Mark(Mark::OpenRound),
            ],
        ),
        _ => operand(stack, Closer::Semicolon, kind),
    }
}

// After `x = y`.
fn assigned_name(stack: &mut Stack, kind: TokenKind) -> Result<bool, NoMemory>
    ensures { Expects (spec.act_assigned_name kind) result stack.old stack.new }
{
    match kind {
        TokenKind::Mark(Mark::OpenSquare) => { expect(stack, &[Symbol::InSquare]) }
        _ => rest(stack, Closer::Semicolon, kind),
    }
}

// After `x = y [`.
fn in_square(stack: &mut Stack, kind: TokenKind) -> Result<bool, NoMemory>
    ensures { Expects (spec.act_in_square kind) result stack.old stack.new }
{
    let close = Symbol::Mark(Mark::CloseSquare);
    match kind {
        TokenKind::Name => expect(stack, &[Symbol::Mark(Mark::Semicolon), close]),
        TokenKind::Number(_) => {
            let colon = Symbol::Mark(Mark::Colon);
            let rest = Symbol::Rest(Closer::Semicolon);
            expect(stack, &[rest, close, Symbol::Number, colon])
        }
        _ => Ok(false),
    }
}

fn is_name(kind: TokenKind) -> bool
    ensures { spec.if_name kind ≡ cond result (Some []) None }
{
    matches!(kind, TokenKind::Name)
}

fn is_number(kind: TokenKind) -> bool
    ensures { spec.if_number kind ≡ cond result (Some []) None }
{
    matches!(kind, TokenKind::Number(_))
}

fn is_literal(kind: TokenKind) -> bool
    ensures { spec.if_literal kind ≡ cond result (Some []) None }
{
    matches!(kind, TokenKind::Literal { .. })
}

// `R` or `W`.
fn is_access(kind: TokenKind) -> bool
    ensures { spec.if_access kind ≡ cond result (Some []) None }
{
    matches!(kind, TokenKind::Mark(Mark::R | Mark::W))
}

fn is_lock_kind(kind: TokenKind) -> bool
    ensures { spec.if_lock_kind kind ≡ cond result (Some []) None }
{
    matches!(
        kind,
        TokenKind::Mark(Mark::Queue | Mark::Bypass | Mark::Rename)
    )
}

/// Whether the symbol takes a token of this kind; then the stack expects what stands in its place.
#[tactic(auto, using(crate::proofs::Operators::word_taken))]
pub fn take_token(stack: &mut Stack, symbol: Symbol, kind: TokenKind) -> Result<bool, NoMemory>
    ensures { Expects (spec.act (symbol_view symbol) kind) result stack.old stack.new }
{
    match symbol {
        Symbol::Operand(q) => operand(stack, q, kind),
        Symbol::Slicing(q) => slicing(stack, q, kind),
        Symbol::Rest(q) => rest(stack, q, kind),
        Symbol::More(list) => more(stack, list, kind),
        Symbol::Locked => expect_lock(stack, kind),
        Symbol::Items => items(stack, kind),
        Symbol::ElseItems => else_items(stack, kind),
        Symbol::AfterName => after_name(stack, kind),
        Symbol::Assigned => expect_value(stack, kind),
        Symbol::AssignedName => assigned_name(stack, kind),
        Symbol::InSquare => in_square(stack, kind),
        Symbol::Mark(mark) => Ok(is_mark(mark, kind)),
        Symbol::Name => Ok(is_name(kind)),
        Symbol::Number => Ok(is_number(kind)),
        Symbol::Literal => Ok(is_literal(kind)),
        Symbol::Access => Ok(is_access(kind)),
        Symbol::Pace => pace(stack, kind),
        Symbol::LockKind => Ok(is_lock_kind(kind)),
    }
}
