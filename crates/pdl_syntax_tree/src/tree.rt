// The syntax tree, with the places where its words stand.
ghost use Rattle.std.specs.Prelude.{◌≡◌};
ghost use Rattle.pdl_semantics.specs.Flat.{is_delayed, is_advisory};
ghost use Rattle.pdl_syntax_tree.specs.View.{mem_kind_view};

use pdl_kit::{Boxed, Name, Seq};
use pdl_word::Word;

/// Where words stand in the source: the bytes from `start` up to `end`, counted from 0, the last one left out, and the line of the first, counted from 1.
#[derive(Clone, Copy)]
pub struct Span {
    pub start: u32,
    pub end: u32,
    pub line: u32,
}

/// A name, and where it stands.
#[derive(Drop)]
pub struct Ident {
    pub name: Name,
    pub span: Span,
}

/// A decimal number of 1 to 10 digits.
#[derive(Clone, Copy)]
pub struct Number {
    pub value: u64,
    pub span: Span,
}

/// A literal with its width in bits; a value that fits no `Word` is none.
#[derive(Clone, Copy)]
pub struct Literal {
    pub width: u64,
    pub value: Option<Word>,
    pub span: Span,
}

/// An operator between two operands of one width.
#[derive(Clone, Copy)]
pub enum BinaryOp {
    Add,
    Sub,
    Mul,
    And,
    Or,
    Xor,
    Equal,
    Differ,
    Less,
    ShiftLeft,
    ShiftRight,
}

/// An expression; brackets group and leave no trace.
#[derive(Drop)]
pub enum Expr {
    Constant(Literal),
    Variable(Ident),
    Slice {
        x: Ident,
        high: Number,
        low: Number,
    },
    Not(Boxed<Expr>),
    Binary {
        op: BinaryOp,
        a: Boxed<Expr>,
        b: Boxed<Expr>,
    },
    Cat(Boxed<Expr>, Boxed<Expr>),
    LessSigned(Boxed<Expr>, Boxed<Expr>),
    ZeroExtend(Boxed<Expr>, Number),
    SignExtend(Boxed<Expr>, Number),
    Choose(Boxed<Expr>, Boxed<Expr>, Boxed<Expr>),
}

/// A location of a memory: its name, and the variable that holds the address.
#[derive(Drop)]
pub struct Location {
    pub mem: Ident,
    pub address: Ident,
}

/// What a location is reserved for: to be read or to be written.
#[derive(Clone, Copy)]
pub enum AccessKind {
    R,
    W,
}

/// A statement, with the span from its first word to its last. `acquire` is a `Reserve` and a `Block` with one span, and a missing `else` is an empty branch.
#[derive(Drop)]
pub enum Stmt {
    Separator {
        span: Span,
    },
    CombRead {
        span: Span,
        x: Ident,
        from: Location,
    },
    Bind {
        span: Span,
        x: Ident,
        e: Expr,
    },
    SpecCall {
        span: Span,
        guess: Ident,
        args: Seq<Expr>,
    },
    DelayedRead {
        span: Span,
        x: Ident,
        from: Location,
    },
    Write {
        span: Span,
        to: Location,
        e: Expr,
    },
    Reserve {
        span: Span,
        at: Location,
        kind: AccessKind,
    },
    Block {
        span: Span,
        at: Location,
    },
    Release {
        span: Span,
        at: Location,
    },
    If {
        span: Span,
        condition: Expr,
        then: Seq<Stmt>,
        otherwise: Seq<Stmt>,
    },
    Call {
        span: Span,
        args: Seq<Expr>,
    },
    Verify {
        span: Span,
        guess: Ident,
        args: Seq<Expr>,
    },
    Update {
        span: Span,
        guess: Ident,
        args: Seq<Expr>,
    },
    SpecCheck {
        span: Span,
    },
    SpecBarrier {
        span: Span,
    },
}

/// A parameter of the pipe, with its width in bits.
#[derive(Drop)]
pub struct Param {
    pub name: Ident,
    pub width: Number,
}

/// The three kinds of lock.
#[derive(Clone, Copy)]
pub enum LockKind {
    Queue,
    Bypass,
    Rename,
}

/// A memory's lock, with how many writes may be pending.
#[derive(Clone, Copy)]
pub struct LockDecl {
    pub kind: LockKind,
    pub size: Number,
}

/// A memory answers in the same cycle, or in a later one, or in the same one but only as a hint: what an advisory memory says reaches guesses alone.
#[derive(Clone, Copy)]
pub enum MemKind {
    Comb,
    Delayed,
    Advisory,
}

impl MemKind {
    /// Whether the answer comes in a later cycle.
    pub fn is_delayed(self) -> bool
        ensures { result ≡ is_delayed (mem_kind_view self) }
    {
        match self {
            MemKind::Delayed => true,
            MemKind::Comb | MemKind::Advisory => false,
        }
    }

    /// Whether the answer is only a hint.
    pub fn is_advisory(self) -> bool
        ensures { result ≡ is_advisory (mem_kind_view self) }
    {
        match self {
            MemKind::Advisory => true,
            MemKind::Comb | MemKind::Delayed => false,
        }
    }
}

/// A memory: the width of its words in bits, how many words it has, its kind, and its lock or none.
#[derive(Drop)]
pub struct Mem {
    pub name: Ident,
    pub width: Number,
    pub depth: Number,
    pub kind: MemKind,
    pub lock: Option<LockDecl>,
}

/// The start clause: the pipe that it names and the first thread's arguments; its span begins at `start`.
#[derive(Drop)]
pub struct Start {
    pub span: Span,
    pub name: Ident,
    pub args: Seq<Literal>,
}

/// A whole source; `end` is where the `}` of the body stands.
pub struct Pipe {
    pub name: Ident,
    pub params: Seq<Param>,
    pub mems: Seq<Mem>,
    pub body: Seq<Stmt>,
    pub end: Span,
    pub start: Start,
}

// As the derive would, but by a call of its owners: docs/DECISIONS.md says why.
impl Drop for Pipe {
    fn drop(self) {
        let Pipe {
            name: _,
            params: _,
            mems: _,
            body: _,
            end: _,
            start: _,
        } = self;
    }
}
