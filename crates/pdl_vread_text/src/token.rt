//! The tokens of a text.

/// A token: its bytes, and the line on which it stands, counted from 1.
#[derive(Clone, Copy)]
pub struct VerilogToken<'a> {
    pub text: &'a [u8],
    pub line: u32,
}
