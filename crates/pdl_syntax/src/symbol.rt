// What is still expected of a text.
use pdl_syntax_tokens::Mark;

/// What stands after an expression: a semicolon, a round bracket, a comma, a colon, or more arguments and a round bracket.
#[derive(Clone, Copy)]
pub enum Closer {
    Semicolon,
    Round,
    Comma,
    Colon,
    Arguments,
}

/// A list with commas.
#[derive(Clone, Copy)]
pub enum Listing {
    Params,
    Mems,
    Args,
    Literals,
}

/// A part of a text that is still expected.
#[derive(Clone, Copy)]
pub enum Symbol {
    /// A keyword or a symbol.
    Mark(Mark),
    Name,
    Number,
    Literal,
    /// `R` or `W`.
    Access,
    /// `comb`, `delayed` or `advisory`, and then as after a memory.
    Pace,
    LockKind,
    /// An expression, and what closes it.
    Operand(Closer),
    /// After a name: a slice of it, or what stands after an operand.
    Slicing(Closer),
    /// After an operand, and what closes the expression.
    Rest(Closer),
    /// After a value of a list: a comma and more, or the end of the list.
    More(Listing),
    /// After `comb` or `delayed`: a lock or none, then as after a memory.
    Locked,
    /// Items, and the closing brace.
    Items,
    /// After a branch: another one or none, then as items.
    ElseItems,
    /// After the name with which an item begins.
    AfterName,
    /// After `x =`.
    Assigned,
    /// After `x = y`.
    AssignedName,
    /// After `x = y [`.
    InSquare,
}
