// The text that the command `gen` writes.
ghost use Rattle.std.specs.Prelude.{◌≡◌, ◌++◌, IfOk, IfErr};
ghost use Rattle.pdl_gen.specs.Generated as generated;
ghost use Rattle.pdl_cli_commands.specs.Commands.{IsGenerated, TextFails};

use crate::summary::summary;
use pdl_cli_failure::Failure;
use pdl_gen::{cycles, first_line, source, words};
use pdl_kit::NoMemory;
use pdl_trace::Line;
use std::alloc::Global;

// The first line of a generated run, and its end line.
fn text_of(alloc: Global, number: u32, last: &Line) -> Result<Vec<u8>, NoMemory>
    ensures { IfOk result (λ t. t.items ≡ generated.first_line number ++ last.now) }
{
    let mut text = first_line(alloc, number)?;
    text.extend_from_slice(last.as_bytes())?;
    Ok(text)
}

/// The text that `gen` writes for a number.
pub fn generate(alloc: Global, number: u32) -> Result<Vec<u8>, Failure>
    ensures ok { IfOk result (λ t. IsGenerated number t.items) }
    ensures err { IfErr result (TextFails (generated.source number)) }
{
    let Ok(source) = source(alloc, number) else {
        return Err(Failure::NoMemory);
    };
    let Ok(words) = words(alloc, number) else {
        return Err(Failure::NoMemory);
    };
    let last = summary(alloc, source.as_slice(), words.as_slice(), cycles())?;
    match text_of(alloc, number, &last) {
        Ok(text) => Ok(text),
        Err(_) => Err(Failure::NoMemory),
    }
}
