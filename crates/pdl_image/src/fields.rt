//! What stands between the spaces of a line.
ghost use Rattle.std.specs.Prelude.{MatchOption, [], ◌∷◌, ◌≡◌};
ghost use Rattle.std.specs.List.{list_all};
ghost use Rattle.pdl_image.specs.Images.{fields, is_name as is_name_of, is_name_byte as is_name_byte_of};

use crate::lines::find_byte;

/// The longest name, in characters.
const LONGEST_NAME: usize = 32;

/// The bytes before the first space and those after it, if there is one.
#[tactic(auto, using(crate::proofs::Parts::fields_at))]
pub fn split_field(text: &[u8]) -> Option<(&[u8], &[u8])>
    ensures { MatchOption result (fields text.now ≡ text.now ∷ [])
        (λ p. fields text.now ≡ p.0.now ∷ fields p.1.now) }
{
    match find_byte(text, b' ') {
        Some(end) => Some((&text[..end], &text[end + 1..])),
        None => None,
    }
}

// Whether a byte may follow a name's first letter.
fn is_name_byte(byte: u8) -> bool
    ensures { result ≡ is_name_byte_of byte }
{
    matches!(byte, b'a'..=b'z' | b'0'..=b'9' | b'_')
}

// Whether each byte may follow a name's first letter.
fn are_name_bytes(bytes: &[u8]) -> bool
    ensures { result ≡ list_all is_name_byte_of bytes.now }
{
    bytes.iter().all(|byte| is_name_byte(*byte))
}

/// Whether the bytes are a name: a lower letter, and then letters, digits and `_`, at most 32 together.
pub fn is_name(bytes: &[u8]) -> bool
    ensures { result ≡ is_name_of bytes.now }
{
    match bytes {
        [b'a'..=b'z', rest @ ..] => rest.len() < LONGEST_NAME && are_name_bytes(rest),
        _ => false,
    }
}
