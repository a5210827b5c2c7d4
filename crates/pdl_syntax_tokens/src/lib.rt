//! The tokens of a source text: what each is, its bytes, and where they stand.
//! The layer above reads them one after another by `Tokens`, with a look at the next three.
#![tactic(auto)]

mod bytes;
mod digits;
pub mod lexer;
mod piece;
mod spelling;
pub mod token;

pub use lexer::{Tokens, last_line};
pub use token::{Mark, Token, TokenKind};
