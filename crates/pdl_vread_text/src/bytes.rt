// Kinds of bytes, and runs of them.
ghost use Rattle.std.specs.Prelude.{◌≡◌, ◌≤◌, length};
ghost use Rattle.std.specs.List.{prefix_len};
ghost use Rattle.pdl_vread_text.specs.Tokens as spec;

/// A lower letter.
pub fn is_lower(c: u8) -> bool
    ensures { result ≡ spec.is_lower c }
{
    b'a' <= c && c <= b'z'
}

/// A decimal digit.
pub fn is_digit(c: u8) -> bool
    ensures { result ≡ spec.is_digit c }
{
    b'0' <= c && c <= b'9'
}

/// A digit of base 16, in lower case.
pub fn is_hex(c: u8) -> bool
    ensures { result ≡ spec.is_hex c }
{
    is_digit(c) || (b'a' <= c && c <= b'f')
}

/// A byte of a word: a letter, a digit, `_`, `$`, or the `'` inside a constant.
pub fn is_word(c: u8) -> bool
    ensures { result ≡ spec.is_word c }
{
    is_lower(c) || (b'A' <= c && c <= b'Z') || is_digit(c) || c == b'_' || c == b'$' || c == b'\''
}

/// A byte of a comment.
pub fn in_line(c: u8) -> bool
    ensures { result ≡ spec.in_line c }
{
    c != b'\n'
}

/// Space, tab, carriage return or line feed.
pub fn is_blank(c: u8) -> bool
    ensures { result ≡ spec.is_blank c }
{
    c == b' ' || c == b'\t' || c == b'\r' || c == b'\n'
}

/// How many of the first bytes are of a word.
pub fn word_length(bytes: &[u8]) -> usize
    ensures value { result ≡ prefix_len spec.is_word bytes.now }
    ensures within { result ≤ length bytes.now }
{
    bytes.iter().take_while(|c| is_word(**c)).count()
}

/// How many bytes there are up to the end of the line.
pub fn line_length(bytes: &[u8]) -> usize
    ensures value { result ≡ prefix_len spec.in_line bytes.now }
    ensures within { result ≤ length bytes.now }
{
    bytes.iter().take_while(|c| in_line(**c)).count()
}
