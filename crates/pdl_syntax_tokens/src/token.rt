// The tokens of a source text.
use pdl_syntax_tree::tree::Span;
use pdl_word::Word;

/// A keyword or a symbol.
#[derive(Clone, Copy, PartialEq, Eq)]
pub enum Mark {
    Pipe,
    Start,
    Uint,
    Comb,
    Delayed,
    Advisory,
    Lock,
    Queue,
    Bypass,
    Rename,
    If,
    Else,
    Call,
    SpecCall,
    Verify,
    Update,
    SpecCheck,
    SpecBarrier,
    Reserve,
    Acquire,
    Block,
    Release,
    Cat,
    ZeroExtend,
    SignExtend,
    LessSigned,
    R,
    W,
    OpenRound,
    CloseRound,
    OpenSquare,
    CloseSquare,
    OpenBrace,
    CloseBrace,
    Less,
    Greater,
    Colon,
    Semicolon,
    Comma,
    Assign,
    Plus,
    Minus,
    Star,
    Ampersand,
    Bar,
    Caret,
    Tilde,
    Question,
    Equal,
    Differ,
    ShiftLeft,
    ShiftRight,
    Arrow,
    Separator,
}

/// What a token is. A literal whose value fits no `Word` has none. A byte that begins no token, a name over 32 characters and digits that are too many are bad.
#[derive(Clone, Copy, PartialEq, Eq)]
pub enum TokenKind {
    Name,
    Number(u64),
    Literal { width: u64, value: Option<Word> },
    Mark(Mark),
    Bad,
}

/// A token: what it is, its bytes, and where they stand.
#[derive(Clone, Copy)]
pub struct Token<'a> {
    pub kind: TokenKind,
    pub text: &'a [u8],
    pub span: Span,
}
