// The tokens of texts.
ghost use Rattle.std.specs.Prelude.{◌≤◌, length};

use pdl_syntax_tokens::lexer::Tokens;
use pdl_syntax_tokens::token::{Mark, TokenKind};
use std::process::Abort;

// The text has tokens of these kinds and no others.
fn has_kinds(source: &[u8], kinds: &[TokenKind]) -> bool
    requires { length source.now ≤ 268435456 }
{
    let mut tokens = Tokens::new(source);
    for kind in kinds {
        match tokens.peek() {
            Some(token) => {
                if token.kind != *kind {
                    return false;
                }
            }
            None => return false,
        }
        tokens.skip();
    }
    tokens.peek().is_none()
}

const BAD: TokenKind = TokenKind::Bad;

const NAME: TokenKind = TokenKind::Name;

const MARKS: [(&[u8], &[TokenKind]); 4] = [
    (
        b"<-<<<- < -",
        &[
            TokenKind::Mark(Mark::Arrow),
            TokenKind::Mark(Mark::ShiftLeft),
            TokenKind::Mark(Mark::Arrow),
            TokenKind::Mark(Mark::Less),
            TokenKind::Mark(Mark::Minus),
        ],
    ),
    (
        b"-----",
        &[
            TokenKind::Mark(Mark::Separator),
            TokenKind::Mark(Mark::Minus),
            TokenKind::Mark(Mark::Minus),
        ],
    ),
    (
        b"===!==!",
        &[
            TokenKind::Mark(Mark::Equal),
            TokenKind::Mark(Mark::Assign),
            TokenKind::Mark(Mark::Differ),
            TokenKind::Mark(Mark::Assign),
            BAD,
        ],
    ),
    (b"/ // / \xff\n'", &[BAD, BAD]),
];

const WORDS: [(&[u8], &[TokenKind]); 2] = [
    (
        b"Rx W R_ if_ spec_call cat",
        &[
            TokenKind::Mark(Mark::R),
            NAME,
            TokenKind::Mark(Mark::W),
            TokenKind::Mark(Mark::R),
            BAD,
            NAME,
            TokenKind::Mark(Mark::SpecCall),
            TokenKind::Mark(Mark::Cat),
        ],
    ),
    (
        b"aaaaaaaaaaaaaaaaaaaaaaaaaaaaaaa1 bbbbbbbbbbbbbbbbbbbbbbbbbbbbbbbb2",
        &[NAME, BAD],
    ),
];

const NUMBERS: [(&[u8], &[TokenKind]); 8] = [
    (
        b"00 9999999999 10000000000",
        &[TokenKind::Number(0), TokenKind::Number(9_999_999_999), BAD],
    ),
    (
        b"8'hff0G",
        &[
            TokenKind::Literal {
                width: 8,
                value: Some(0xff0),
            },
            BAD,
        ],
    ),
    (
        b"64'd18446744073709551615ab",
        &[
            TokenKind::Literal {
                width: 64,
                value: Some(0xffff_ffff_ffff_ffff),
            },
            NAME,
        ],
    ),
    (
        b"64'd18446744073709551616",
        &[TokenKind::Literal {
            width: 64,
            value: Some(0x1_0000_0000_0000_0000),
        }],
    ),
    (
        b"128'd340282366920938463463374607431768211456",
        &[TokenKind::Literal {
            width: 128,
            value: None,
        }],
    ),
    (b"1'd0000000000000000000000000000000000000000", &[BAD]),
    (b"1'h123456789abcdef0123456789abcdef01", &[BAD]),
    (
        b"4'd 1'b 2'hF",
        &[
            TokenKind::Number(4),
            BAD,
            NAME,
            TokenKind::Number(1),
            BAD,
            NAME,
            TokenKind::Number(2),
            BAD,
            NAME,
            BAD,
        ],
    ),
];

fn ask(rt: &impl Abort, rows: &[(&[u8], &[TokenKind])]) {
    for row in rows {
        let (source, kinds) = *row;
        assert!(rt; source.len() < 100 && has_kinds(source, kinds));
    }
}

#[test]
fn tokens_of_texts(rt: HostRuntime) {
    ask(&rt, &MARKS);
    ask(&rt, &WORDS);
    ask(&rt, &NUMBERS);
}
