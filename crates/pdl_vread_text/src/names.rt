// Kinds of names.
ghost use Rattle.std.specs.Prelude.{◌≡◌, ◌≤◌, bytes_eq, length};
ghost use Rattle.std.specs.List.{list_all};
ghost use Rattle.pdl_vread_text.specs.Words as spec;
ghost use Rattle.pdl_vread_text.specs.Tokens.{is_digit as is_digit_byte};

use crate::bytes::{is_digit, is_lower};

/// The longest name of PDL, in characters.
const LONGEST_NAME: usize = 32;

/// The most digits of a stage's number in a port's name.
const LONGEST_NUMBER: usize = 10;

// Whether a byte may follow a name's first letter.
fn is_name_byte(byte: u8) -> bool
    ensures { result ≡ spec.is_name_byte byte }
{
    is_lower(byte) || is_digit(byte) || byte == b'_'
}

// Whether a text is a word.
fn is(text: &[u8], word: &[u8]) -> bool
    ensures { result ≡ bytes_eq text.now word.now }
{
    text == word
}

// Whether a word is a keyword of PDL for a branch, a call or a speculation.
fn is_flow_keyword(text: &[u8]) -> bool
    ensures { result ≡ spec.is_flow_keyword text.now }
{
    is(text, b"if")
        || is(text, b"else")
        || is(text, b"call")
        || is(text, b"spec_call")
        || is(text, b"verify")
        || is(text, b"update")
        || is(text, b"spec_check")
        || is(text, b"spec_barrier")
}

// Whether a word is a keyword of PDL that begins a statement or is a function's name.
fn is_statement_keyword(text: &[u8]) -> bool
    ensures { result ≡ spec.is_statement_keyword text.now }
{
    is_flow_keyword(text)
        || is(text, b"reserve")
        || is(text, b"acquire")
        || is(text, b"block")
        || is(text, b"release")
        || is(text, b"cat")
        || is(text, b"zext")
        || is(text, b"sext")
        || is(text, b"lts")
}

// Whether a word is a keyword of PDL that stands in declarations.
fn is_declaration_keyword(text: &[u8]) -> bool
    ensures { result ≡ spec.is_declaration_keyword text.now }
{
    is(text, b"pipe")
        || is(text, b"start")
        || is(text, b"uint")
        || is(text, b"comb")
        || is(text, b"delayed")
        || is(text, b"advisory")
        || is(text, b"lock")
        || is(text, b"queue")
        || is(text, b"bypass")
        || is(text, b"rename")
}

// Whether each byte may follow a name's first letter.
fn are_name_bytes(bytes: &[u8]) -> bool
    ensures { result ≡ list_all spec.is_name_byte bytes.now }
{
    bytes.iter().all(|byte| is_name_byte(*byte))
}

// Whether the bytes have the form of a name: a lower letter, and then letters, digits and `_`, at most 32 together.
fn has_name_form(text: &[u8]) -> bool
    ensures { result ≡ spec.has_name_form text.now }
{
    match text {
        [b'a'..=b'z', rest @ ..] => rest.len() < LONGEST_NAME && are_name_bytes(rest),
        _ => false,
    }
}

/// Whether a word is a name of PDL, and no keyword.
#[tactic(auto, unfolding(crate::specs::Words::is_name))]
pub fn is_name(text: &[u8]) -> bool
    ensures { result ≡ spec.is_name text.now }
{
    has_name_form(text) && !is_statement_keyword(text) && !is_declaration_keyword(text)
}

// Whether each byte is a decimal digit.
fn are_digits(bytes: &[u8]) -> bool
    ensures { result ≡ list_all is_digit_byte bytes.now }
{
    bytes.iter().all(|byte| is_digit(*byte))
}

// Whether there are decimal digits alone, at least one.
fn are_decimals(text: &[u8]) -> bool
    ensures { result ≡ spec.are_decimals text.now }
{
    match text {
        [first, rest @ ..] => is_digit(*first) && are_digits(rest),
        [] => false,
    }
}

// Whether a word is a prefix with a name of PDL.
fn is_named(prefix: &[u8], text: &[u8]) -> bool
    ensures { result ≡ spec.is_named prefix.now text.now }
{
    text.starts_with(prefix) && is_name(&text[prefix.len()..])
}

// Whether a word is a prefix with decimal digits.
fn is_counted(prefix: &[u8], text: &[u8]) -> bool
    ensures { result ≡ spec.is_counted prefix.now text.now }
{
    text.starts_with(prefix) && are_decimals(&text[prefix.len()..])
}

// Whether a word is a port of a stage: its prefix and 1 to 10 decimal digits.
fn is_stage_port(prefix: &[u8], text: &[u8]) -> bool
    ensures { result ≡ spec.is_stage_port prefix.now text.now }
{
    is_counted(prefix, text) && text.len() <= prefix.len() + LONGEST_NUMBER
}

/// Whether a word is the name of a module.
pub fn is_module(text: &[u8]) -> bool
    ensures { result ≡ spec.is_module text.now }
{
    is_named(b"pdl_", text)
}

/// Whether a word is the name of an input.
pub fn is_input(text: &[u8]) -> bool
    ensures { result ≡ spec.is_input text.now }
{
    is_named(b"p_", text) || is_named(b"pd_", text)
}

// Whether a word is the name of an output of what a memory commits.
fn is_commit_output(text: &[u8]) -> bool
    ensures { result ≡ spec.is_commit_output text.now }
{
    is_named(b"c_", text)
        || is_named(b"ca_", text)
        || is_named(b"cd_", text)
        || is_named(b"c2_", text)
        || is_named(b"ca2_", text)
        || is_named(b"cd2_", text)
}

// Whether a word is the name of an output of a memory.
fn is_memory_output(text: &[u8]) -> bool
    ensures { result ≡ spec.is_memory_output text.now }
{
    is_commit_output(text) || is_named(b"q_", text) || is_named(b"qa_", text)
}

/// Whether a word is the name of a port, the clock and the reset apart.
#[tactic(auto, unfolding(crate::specs::Words::is_port))]
pub fn is_port(text: &[u8]) -> bool
    ensures { result ≡ spec.is_port text.now }
{
    is(text, b"ended")
        || is(text, b"squash")
        || is_stage_port(b"v_", text)
        || is_stage_port(b"g_", text)
        || is_input(text)
        || is_memory_output(text)
}

/// Whether a word is the name of a register.
pub fn is_reg(text: &[u8]) -> bool
    ensures { result ≡ spec.is_reg text.now }
{
    is_counted(b"r", text)
}

/// Whether a word is the name of an array.
pub fn is_array(text: &[u8]) -> bool
    ensures { result ≡ spec.is_array text.now }
{
    is_named(b"a_", text)
}

/// Whether a word is the name of a cell's wire.
pub fn is_cell(text: &[u8]) -> bool
    ensures { result ≡ spec.is_cell text.now }
{
    is_counted(b"n", text)
}

/// Whether a word may be an operand: an input, a wire or a register.
#[tactic(auto, unfolding(crate::specs::Words::is_operand))]
pub fn is_operand(text: &[u8]) -> bool
    ensures { result ≡ spec.is_operand text.now }
{
    is_cell(text) || is_reg(text) || is_input(text)
}
