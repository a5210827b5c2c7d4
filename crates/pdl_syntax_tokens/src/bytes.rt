// Kinds of bytes, runs of them, and the values of digits.
ghost use Rattle.std.specs.Prelude.{◌≡◌, ◌≤◌, ◌<◌, length, take, take_while, drop, codes};
ghost use Rattle.std.specs.List.{prefix_len};
ghost use Rattle.pdl_syntax_tokens.specs.Tokens as spec;

/// A lower letter.
pub fn is_lower(c: u8) -> bool
    ensures { result ≡ spec.is_lower c }
{
    b'a' <= c && c <= b'z'
}

/// A decimal digit.
pub fn is_digit(c: u8) -> bool
    ensures { result ≡ spec.is_digit c }
{
    b'0' <= c && c <= b'9'
}

/// A digit of base 16, in lower case.
pub fn is_hex(c: u8) -> bool
    ensures { result ≡ spec.is_hex c }
{
    is_digit(c) || (b'a' <= c && c <= b'f')
}

/// A byte of a name.
pub fn is_word(c: u8) -> bool
    ensures { result ≡ spec.is_word c }
{
    is_lower(c) || is_digit(c) || c == b'_'
}

/// A byte of a comment.
pub fn in_line(c: u8) -> bool
    ensures { result ≡ spec.in_line c }
{
    c != b'\n'
}

/// Space, tab, carriage return or line feed.
pub fn is_blank(c: u8) -> bool
    ensures { result ≡ spec.is_blank c }
{
    c == b' ' || c == b'\t' || c == b'\r' || c == b'\n'
}

/// How many of the first bytes are of a name.
pub fn word_length(bytes: &[u8]) -> usize
    ensures value { result ≡ prefix_len spec.is_word bytes.now }
    ensures within { result ≤ length bytes.now }
{
    bytes.iter().take_while(|c| is_word(**c)).count()
}

/// How many of the first bytes are decimal digits.
pub fn digit_length(bytes: &[u8]) -> usize
    ensures value { result ≡ prefix_len spec.is_digit bytes.now }
    ensures within { result ≤ length bytes.now }
{
    bytes.iter().take_while(|c| is_digit(**c)).count()
}

/// How many of the first bytes are digits of base 16.
pub fn hex_length(bytes: &[u8]) -> usize
    ensures value { result ≡ prefix_len spec.is_hex bytes.now }
    ensures within { result ≤ length bytes.now }
{
    bytes.iter().take_while(|c| is_hex(**c)).count()
}

/// How many bytes there are up to the end of the line.
pub fn line_length(bytes: &[u8]) -> usize
    ensures value { result ≡ prefix_len spec.in_line bytes.now }
    ensures within { result ≤ length bytes.now }
{
    bytes.iter().take_while(|c| in_line(**c)).count()
}
