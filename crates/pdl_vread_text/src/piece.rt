// The piece of text at the front of bytes.
ghost use Rattle.std.specs.Prelude.{◌≡◌, codes};
ghost use Rattle.pdl_vread_text.specs.Tokens as spec;
ghost use Rattle.pdl_vread_text.specs.Pieces.{IsFront};

use crate::bytes::{is_blank, is_word, line_length, word_length};

/// What stands at the front: a token, or white space or a comment, and how many bytes it takes.
#[derive(Clone, Copy)]
pub struct VerilogPiece {
    pub is_token: bool,
    pub size: usize,
}

// Whether a symbol of two bytes stands at the front.
fn begins_pair(bytes: &[u8]) -> bool
    ensures { result ≡ spec.begins_pair bytes.now }
{
    bytes.starts_with(b"==")
        || bytes.starts_with(b"!=")
        || bytes.starts_with(b"<=")
        || bytes.starts_with(b"<<")
        || bytes.starts_with(b">>")
}

/// The piece at the front, or none where nothing is left.
#[tactic(auto, unfolding(crate::specs::Tokens::piece_at))]
pub fn front(bytes: &[u8]) -> Option<VerilogPiece>
    ensures { IsFront bytes.now result }
{
    let first = *bytes.first()?;
    Some(if is_blank(first) {
        VerilogPiece {
            is_token: false,
            size: 1,
        }
    } else if is_word(first) {
        VerilogPiece {
            is_token: true,
            size: word_length(bytes),
        }
    } else if bytes.starts_with(b"//") {
        VerilogPiece {
            is_token: false,
            size: line_length(bytes),
        }
    } else if begins_pair(bytes) {
        VerilogPiece {
            is_token: true,
            size: 2,
        }
    } else {
        VerilogPiece {
            is_token: true,
            size: 1,
        }
    })
}
