// Parts of expressions and statements.
use pdl_kit::{Boxed, Seq};
use pdl_syntax_tree::{
    AccessKind, Expr, Ident, Location, LockDecl, Mem, MemKind, Number, Param, Span, Start, Stmt,
};

/// An item of the grammar: a statement, or two.
#[derive(Drop)]
pub enum GrammarItem {
    One(Stmt),
    Two(Stmt, Stmt),
}

/// An expression, and where the semicolon after it stands.
#[derive(Drop)]
pub struct ExprEnd {
    pub e: Boxed<Expr>,
    pub end: Span,
}

/// Arguments, and where the semicolon after them stands.
#[derive(Drop)]
pub struct ArgsEnd {
    pub args: Seq<Expr>,
    pub end: Span,
}

/// A guess, the arguments that it is held against, and where the semicolon after them stands.
#[derive(Drop)]
pub struct AgainstEnd {
    pub guess: Ident,
    pub args: Seq<Expr>,
    pub end: Span,
}

/// What a location is reserved for, and where the semicolon stands.
#[derive(Clone, Copy)]
pub struct Purpose {
    pub kind: AccessKind,
    pub end: Span,
}

/// A location and what it is reserved for, and where the semicolon stands.
#[derive(Drop)]
pub struct ReservedEnd {
    pub at: Location,
    pub kind: AccessKind,
    pub end: Span,
}

/// A location, and where the semicolon stands.
#[derive(Drop)]
pub struct Held {
    pub at: Location,
    pub end: Span,
}

/// The statements of a branch, and where its closing brace stands.
#[derive(Drop)]
pub struct BranchEnd {
    pub stmts: Seq<Stmt>,
    pub end: Span,
}

/// The highest and the lowest bit of a slice.
#[derive(Clone, Copy)]
pub struct Bounds {
    pub high: Number,
    pub low: Number,
}

/// The two operands of a function word.
#[derive(Drop)]
pub struct Pair {
    pub a: Boxed<Expr>,
    pub b: Boxed<Expr>,
}

/// An operand of a function word, and the width that it is to have.
#[derive(Drop)]
pub struct Sized {
    pub e: Boxed<Expr>,
    pub width: Number,
}

/// The kind of a memory, and its lock or none.
#[derive(Clone, Copy)]
pub struct Keeping {
    pub kind: MemKind,
    pub lock: Option<LockDecl>,
}

/// What stands after the name of a memory: its words, how many there are, its kind, and its lock or none.
#[derive(Clone, Copy)]
pub struct MemShape {
    pub width: Number,
    pub depth: Number,
    pub kind: MemKind,
    pub lock: Option<LockDecl>,
}

/// What stands before the body of a pipe.
#[derive(Drop)]
pub struct Head {
    pub name: Ident,
    pub params: Seq<Param>,
    pub mems: Seq<Mem>,
}

/// The body of a pipe, where its closing brace stands, and the start clause.
#[derive(Drop)]
pub struct Rest {
    pub body: Seq<Stmt>,
    pub end: Span,
    pub start: Start,
}
