// The operation and the label of a line.
ghost use Rattle.std.specs.Prelude.{◌≡◌, IfOk, Some, None, option_map};
ghost use Rattle.pdl_asm.specs.Lines.{line_of, line_of_text, number_of, line_with, operands_given, operation_of, operation_with, without_blanks as trimmed_of};

use crate::line::{AssemblyLine, Operation};
use crate::operand::{read_number, read_operands};
use crate::text::{find_blank, trim_start, without_blanks, without_comment};
use pdl_image::{find_byte, is_name};
use pdl_kit::{Name, NoMemory};
use std::alloc::Global;

// The instruction of a name with the operands of a text, if they are operands.
fn read_insn(alloc: Global, name: &[u8], after: &[u8]) -> Result<Option<Operation>, NoMemory>
    ensures { IfOk result (λ o. o
        ≡ option_map (Operation.Insn name.now) (operands_given after.now)) }
{
    match read_operands(alloc, after)? {
        Some(operands) => Ok(Some(Operation::Insn(Name::copy_of(alloc, name)?, operands))),
        None => Ok(None),
    }
}

// An operation of a number, if there is one.
fn read_at(after: &[u8]) -> Option<Operation>
    ensures { result ≡ option_map Operation.At (number_of after.now) }
{
    match read_number(after) {
        Some(number) => Some(Operation::At(number)),
        None => None,
    }
}

// A word of a number, if there is one.
fn read_word(after: &[u8]) -> Option<Operation>
    ensures { result ≡ option_map Operation.Word (number_of after.now) }
{
    match read_number(after) {
        Some(number) => Some(Operation::Word(number)),
        None => None,
    }
}

// The operation of its first word and the text after it.
fn read_with(alloc: Global, word: &[u8], after: &[u8]) -> Result<Option<Operation>, NoMemory>
    ensures { IfOk result (λ o. o ≡ operation_with word.now after.now) }
{
    if word == b".at".as_slice() {
        Ok(read_at(after))
    } else if word == b".word".as_slice() {
        Ok(read_word(after))
    } else if is_name(word) {
        read_insn(alloc, word, after)
    } else {
        Ok(None)
    }
}

// The operation that a text without blanks round it is, if it is one.
fn read_operation(alloc: Global, text: &[u8]) -> Result<Option<Operation>, NoMemory>
    ensures { IfOk result (λ o. o ≡ operation_of text.now) }
{
    if text.is_empty() {
        return Ok(Some(Operation::Nothing));
    }
    match find_blank(text) {
        Some(end) => read_with(alloc, &text[..end], trim_start(&text[end..])),
        None => read_with(alloc, text, b"".as_slice()),
    }
}

// The line of a label and the text after it.
fn read_after(
    alloc: Global,
    label: Option<Name>,
    text: &[u8],
) -> Result<Option<AssemblyLine>, NoMemory>
    ensures { IfOk result (λ l. l ≡ line_with label (operation_of (trimmed_of text.now))) }
{
    match read_operation(alloc, without_blanks(text))? {
        Some(operation) => Ok(Some(AssemblyLine { label, operation })),
        None => Ok(None),
    }
}

// The line of a text without comment.
fn read_text(alloc: Global, text: &[u8]) -> Result<Option<AssemblyLine>, NoMemory>
    ensures { IfOk result (λ l. l ≡ line_of_text text.now) }
{
    let Some(colon) = find_byte(text, b':') else {
        return read_after(alloc, None, text);
    };
    let label = without_blanks(&text[..colon]);
    if !is_name(label) {
        return Ok(None);
    }
    let label = Name::copy_of(alloc, label)?;
    read_after(alloc, Some(label), &text[colon + 1..])
}

/// The line that a text is, if it has a line's form.
#[tactic(auto, unfolding(crate::specs::Lines::line_of))]
pub fn read_line(alloc: Global, text: &[u8]) -> Result<Option<AssemblyLine>, NoMemory>
    ensures { IfOk result (λ l. l ≡ line_of text.now) }
{
    read_text(alloc, without_comment(text))
}
