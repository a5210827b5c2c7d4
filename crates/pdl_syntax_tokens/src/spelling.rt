// How keywords and symbols are written, by the byte that they begin with.
ghost use Rattle.std.specs.Prelude.{◌≡◌, ◌∷◌, ℕ, List};
ghost use Rattle.pdl_syntax_tokens.specs.Tokens.{keywords, symbols, spelling_of, spelling_at, mark_or_bad};
ghost use Rattle.pdl_syntax_tokens.specs.Spelt.{spellings_view, found_view, piece_among};

use crate::token::Mark;

/// How a keyword or a symbol is written.
#[derive(Clone, Copy)]
pub struct Spelling {
    pub text: &'static [u8],
    pub mark: Mark,
}

// The keywords, in a table for each letter with which some begin.

const A_WORDS: [Spelling; 2] = [
    Spelling {
        text: b"advisory",
        mark: Mark::Advisory,
    },
    Spelling {
        text: b"acquire",
        mark: Mark::Acquire,
    },
];

const B_WORDS: [Spelling; 2] = [
    Spelling {
        text: b"bypass",
        mark: Mark::Bypass,
    },
    Spelling {
        text: b"block",
        mark: Mark::Block,
    },
];

const C_WORDS: [Spelling; 3] = [
    Spelling {
        text: b"comb",
        mark: Mark::Comb,
    },
    Spelling {
        text: b"call",
        mark: Mark::Call,
    },
    Spelling {
        text: b"cat",
        mark: Mark::Cat,
    },
];

const D_WORDS: [Spelling; 1] = [Spelling {
    text: b"delayed",
    mark: Mark::Delayed,
}];

const E_WORDS: [Spelling; 1] = [Spelling {
    text: b"else",
    mark: Mark::Else,
}];

const I_WORDS: [Spelling; 1] = [Spelling {
    text: b"if",
    mark: Mark::If,
}];

const L_WORDS: [Spelling; 2] = [
    Spelling {
        text: b"lock",
        mark: Mark::Lock,
    },
    Spelling {
        text: b"lts",
        mark: Mark::LessSigned,
    },
];

const P_WORDS: [Spelling; 1] = [Spelling {
    text: b"pipe",
    mark: Mark::Pipe,
}];

const Q_WORDS: [Spelling; 1] = [Spelling {
    text: b"queue",
    mark: Mark::Queue,
}];

const R_WORDS: [Spelling; 3] = [
    Spelling {
        text: b"rename",
        mark: Mark::Rename,
    },
    Spelling {
        text: b"reserve",
        mark: Mark::Reserve,
    },
    Spelling {
        text: b"release",
        mark: Mark::Release,
    },
];

const S_WORDS: [Spelling; 5] = [
    Spelling {
        text: b"start",
        mark: Mark::Start,
    },
    Spelling {
        text: b"spec_call",
        mark: Mark::SpecCall,
    },
    Spelling {
        text: b"spec_check",
        mark: Mark::SpecCheck,
    },
    Spelling {
        text: b"spec_barrier",
        mark: Mark::SpecBarrier,
    },
    Spelling {
        text: b"sext",
        mark: Mark::SignExtend,
    },
];

const U_WORDS: [Spelling; 2] = [
    Spelling {
        text: b"uint",
        mark: Mark::Uint,
    },
    Spelling {
        text: b"update",
        mark: Mark::Update,
    },
];

const V_WORDS: [Spelling; 1] = [Spelling {
    text: b"verify",
    mark: Mark::Verify,
}];

const Z_WORDS: [Spelling; 1] = [Spelling {
    text: b"zext",
    mark: Mark::ZeroExtend,
}];

// The symbols that share their first byte with others, or have more than one, in a table for each
// first byte; a longer one stands before those that begin it.

const DASHES: [Spelling; 2] = [
    Spelling {
        text: b"---",
        mark: Mark::Separator,
    },
    Spelling {
        text: b"-",
        mark: Mark::Minus,
    },
];

const LEFT_ANGLES: [Spelling; 3] = [
    Spelling {
        text: b"<-",
        mark: Mark::Arrow,
    },
    Spelling {
        text: b"<<",
        mark: Mark::ShiftLeft,
    },
    Spelling {
        text: b"<",
        mark: Mark::Less,
    },
];

const RIGHT_ANGLES: [Spelling; 2] = [
    Spelling {
        text: b">>",
        mark: Mark::ShiftRight,
    },
    Spelling {
        text: b">",
        mark: Mark::Greater,
    },
];

const EQUALS: [Spelling; 2] = [
    Spelling {
        text: b"==",
        mark: Mark::Equal,
    },
    Spelling {
        text: b"=",
        mark: Mark::Assign,
    },
];

const EXCLAMATIONS: [Spelling; 1] = [Spelling {
    text: b"!=",
    mark: Mark::Differ,
}];

// The keywords that begin with this letter. A word is compared with these alone: a search through
// all keywords for each word, and through all symbols for each symbol, would double the time that
// it takes to find a token.
fn keywords_with(letter: u8) -> &'static [Spelling]
    ensures { (rest : List ℕ) → spelling_of (spellings_view result.now) (letter ∷ rest)
        ≡ spelling_of keywords (letter ∷ rest) }
{
    match letter {
        b'a' => &A_WORDS,
        b'b' => &B_WORDS,
        b'c' => &C_WORDS,
        b'd' => &D_WORDS,
        b'e' => &E_WORDS,
        b'i' => &I_WORDS,
        b'l' => &L_WORDS,
        b'p' => &P_WORDS,
        b'q' => &Q_WORDS,
        b'r' => &R_WORDS,
        b's' => &S_WORDS,
        b'u' => &U_WORDS,
        b'v' => &V_WORDS,
        b'z' => &Z_WORDS,
        _ => &[],
    }
}

/// The symbols that begin with a byte: the byte alone, or the first that fits of a table, which may be empty.
#[derive(Clone, Copy)]
pub enum Symbols {
    One(Mark),
    Several(&'static [Spelling]),
}

// The symbols that begin with this byte.
fn symbols_with(first: u8) -> Symbols
    ensures { (rest : List ℕ) → piece_among result (first ∷ rest)
        ≡ mark_or_bad (spelling_at symbols (first ∷ rest)) }
{
    match first {
        b'(' => Symbols::One(Mark::OpenRound),
        b')' => Symbols::One(Mark::CloseRound),
        b'[' => Symbols::One(Mark::OpenSquare),
        b']' => Symbols::One(Mark::CloseSquare),
        b'{' => Symbols::One(Mark::OpenBrace),
        b'}' => Symbols::One(Mark::CloseBrace),
        b':' => Symbols::One(Mark::Colon),
        b';' => Symbols::One(Mark::Semicolon),
        b',' => Symbols::One(Mark::Comma),
        b'+' => Symbols::One(Mark::Plus),
        b'*' => Symbols::One(Mark::Star),
        b'&' => Symbols::One(Mark::Ampersand),
        b'|' => Symbols::One(Mark::Bar),
        b'^' => Symbols::One(Mark::Caret),
        b'~' => Symbols::One(Mark::Tilde),
        b'?' => Symbols::One(Mark::Question),
        b'R' => Symbols::One(Mark::R),
        b'W' => Symbols::One(Mark::W),
        b'-' => Symbols::Several(&DASHES),
        b'<' => Symbols::Several(&LEFT_ANGLES),
        b'>' => Symbols::Several(&RIGHT_ANGLES),
        b'=' => Symbols::Several(&EQUALS),
        b'!' => Symbols::Several(&EXCLAMATIONS),
        _ => Symbols::Several(&[]),
    }
}

// The first of the spellings that is the text.
fn written(all: &[Spelling], text: &[u8]) -> Option<Spelling>
    ensures { found_view result ≡ spelling_of (spellings_view all.now) text.now }
{
    for spelling in all {
        if *text == *spelling.text {
            return Some(*spelling);
        }
    }
    None
}

/// The first of the spellings with which the bytes begin.
pub fn beginning(all: &[Spelling], bytes: &[u8]) -> Option<Spelling>
    ensures { found_view result ≡ spelling_at (spellings_view all.now) bytes.now }
{
    for spelling in all {
        if bytes.starts_with(spelling.text) {
            return Some(*spelling);
        }
    }
    None
}

/// The keyword that the text is.
pub fn keyword(text: &[u8]) -> Option<Spelling>
    ensures { found_view result ≡ spelling_of keywords text.now }
{
    written(keywords_with(*text.first()?), text)
}

/// The symbols among which that at the front of the bytes is, if one stands there.
pub fn symbols_at(bytes: &[u8]) -> Symbols
    ensures { piece_among result bytes.now ≡ mark_or_bad (spelling_at symbols bytes.now) }
{
    match bytes.first() {
        Some(first) => symbols_with(*first),
        None => Symbols::Several(&[]),
    }
}
