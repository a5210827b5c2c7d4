// Names as tables and texts write them.
ghost use Rattle.std.specs.Prelude.{◌≡◌, bytes_eq};
ghost use Rattle.std.specs.List.{list_any};
ghost use Rattle.pdl_image.specs.Images.{is_letter as is_letter_of};
ghost use Rattle.pdl_asm_table.specs.Names.{is_keyword as is_keyword_of, is_pipe_name as is_pipe_name_of};

use pdl_image::is_name;

/// Whether a byte is a lower letter.
pub fn is_letter(byte: u8) -> bool
    ensures { result ≡ is_letter_of byte }
{
    byte.is_ascii_lowercase()
}

/// Whether a text is one of some words.
pub fn is_one_of(text: &str, words: &[&str]) -> bool
    ensures { result ≡ list_any (λ w. bytes_eq text.now w.now) words.now }
{
    words.iter().any(|word| *word == text)
}

// Whether a text is a keyword of the pipeline language.
fn is_keyword(text: &str) -> bool
    ensures { result ≡ is_keyword_of text.now }
{
    is_one_of(
        text,
        &[
            "acquire",
            "advisory",
            "block",
            "bypass",
            "call",
            "cat",
            "comb",
            "delayed",
            "else",
            "if",
            "lock",
            "lts",
            "pipe",
            "queue",
            "release",
            "rename",
            "reserve",
            "sext",
            "spec_barrier",
            "spec_call",
            "spec_check",
            "start",
            "uint",
            "update",
            "verify",
            "zext",
        ],
    )
}

/// Whether a text is a name of the pipeline language: a name and no keyword.
pub fn is_pipe_name(name: &str) -> bool
    ensures { result ≡ is_pipe_name_of name.now }
{
    is_name(name.as_bytes()) && !is_keyword(name)
}
