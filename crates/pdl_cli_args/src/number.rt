// Numbers of the command line.
ghost use Rattle.std.specs.Prelude.{◌≡◌};
ghost use Rattle.std.specs.List.{list_all};
ghost use Rattle.std.specs.Char.{is_ascii_digit};
ghost use Rattle.pdl_cli_args.specs.Number.{is_numeral_of, number_of};

// Whether the text is 1 to `most_digits` decimal digits.
fn is_numeral(text: &str, most_digits: usize) -> bool
    ensures { result ≡ is_numeral_of most_digits text.now }
{
    !text.is_empty() && text.len() <= most_digits && is_all_digits(text)
}

fn is_all_digits(text: &str) -> bool
    ensures { result ≡ list_all is_ascii_digit text.now }
{
    text.bytes().all(|byte| byte.is_ascii_digit())
}

// The number that 1 to `most_digits` decimal digits write, if it is at most `most`.
pub(crate) fn number(text: &str, most_digits: usize, most: u32) -> Option<u32>
    ensures { result ≡ number_of most_digits most text.now }
{
    if !is_numeral(text, most_digits) {
        return None;
    }
    match text.parse::<u32>() {
        Ok(value) if value <= most => Some(value),
        _ => None,
    }
}
