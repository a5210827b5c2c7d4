// Parts of a line: what stands before a comment, and texts without the blanks round them.
ghost use Rattle.std.specs.Prelude.{◌≡◌, ◌<◌, IfSome, length, position};
ghost use Rattle.pdl_asm.specs.Lines.{is_blank as is_blank_of, is_comment as is_comment_of, trim_start as trim_start_of, trim_end as trim_end_of, without_blanks as trimmed_of, without_comment as uncommented_of};

/// Whether a byte is a space or a tab.
pub fn is_blank(byte: u8) -> bool
    ensures { result ≡ is_blank_of byte }
{
    byte == b' ' || byte == b'\t'
}

/// A text without the blanks at its start.
pub fn trim_start(text: &[u8]) -> &[u8]
    ensures { result.now ≡ trim_start_of text.now }
{
    let mut rest = text;
    while let [first, later @ ..] = rest {
        if !is_blank(*first) {
            break;
        }
        rest = later;
    }
    rest
}

// A text without the blanks at its end.
fn trim_end(text: &[u8]) -> &[u8]
    ensures { result.now ≡ trim_end_of text.now }
{
    let mut rest = text;
    while let [before @ .., last] = rest {
        if !is_blank(*last) {
            break;
        }
        rest = before;
    }
    rest
}

/// A text without the blanks round it.
pub fn without_blanks(text: &[u8]) -> &[u8]
    ensures { result.now ≡ trimmed_of text.now }
{
    trim_end(trim_start(text))
}

/// The place of the first blank, if there is one.
pub fn find_blank(text: &[u8]) -> Option<usize>
    ensures value { result ≡ position is_blank_of text.now }
    ensures within { IfSome result (λ i. i < length text.now) }
{
    text.iter().position(|c| is_blank(*c))
}

// Whether a text begins with a comment.
fn is_comment(text: &[u8]) -> bool
    ensures { result ≡ is_comment_of text.now }
{
    matches!(text, [b'/', b'/', ..])
}

/// What stands before the first `//`.
pub fn without_comment(text: &[u8]) -> &[u8]
    ensures { result.now ≡ uncommented_of text.now }
{
    let mut rest = text;
    while let [_, later @ ..] = rest {
        if is_comment(rest) {
            break;
        }
        rest = later;
    }
    &text[..text.len() - rest.len()]
}
