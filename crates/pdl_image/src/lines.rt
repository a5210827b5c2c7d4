//! The lines of a text.
ghost use Rattle.std.specs.Prelude.{IfSome, length, position, ◌==◌, ◌<◌, ◌∷◌, ◌≡◌};
ghost use Rattle.pdl_image.specs.Lines.{lines};

/// The place of the first byte that equals `byte`, if there is one.
pub fn find_byte(text: &[u8], byte: u8) -> Option<usize>
    ensures value { result ≡ position (λ c. c == byte) text.now }
    ensures within { IfSome result (λ i. i < length text.now) }
{
    text.iter().position(|c| *c == byte)
}

/// The first line of a text that isn't empty, without its line feed, and the text after it.
#[tactic(auto, using(crate::proofs::Parts::split_at, crate::proofs::Parts::split_whole))]
pub fn split_line(text: &[u8]) -> (&[u8], &[u8])
    requires { 0 < length text.now }
    ensures value { lines text.now ≡ result.0.now ∷ lines result.1.now }
    ensures shorter { length result.1.now < length text.now }
{
    match find_byte(text, b'\n') {
        Some(end) => (&text[..end], &text[end + 1..]),
        None => (text, &text[text.len()..]),
    }
}
