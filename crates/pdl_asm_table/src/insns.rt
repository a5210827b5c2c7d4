// The instructions of a table as its text gives them.
ghost use Rattle.std.specs.Prelude.{◌≡◌, Some, None, IfOk, IfSome, length, option_map, option_and_then, map, codes};
ghost use Rattle.std.specs.Option.{option_copied};
ghost use Rattle.toml.specs.Data.{as_table, as_str, as_array, get_member};
ghost use Rattle.toml.specs.View.{view, table_view, items_view};
ghost use Rattle.pdl_image.specs.Images.{is_name as is_name_of};
ghost use Rattle.pdl_asm_table.specs.Documents.{args_of, arg_of, insn_of, insn_of_members, insns_of, kind_of, letter_argument as lettered_of, text_at as text_of, text_without_spaces, where_is, Meets};

use crate::document::{has_insn_keys, list_at, text_at};
use crate::names::is_letter;
use crate::table::{Arg, ArgumentKind, Insn};
use crate::table_error::TableError;
use pdl_image::is_name;
use pdl_kit::{Name, NoMemory, Rule, Seq};
use std::alloc::Global;
use toml::{Table as Document, Value};

// What an argument is, by its word.
fn read_kind(word: &[u8]) -> Option<ArgumentKind>
    ensures { result ≡ kind_of word.now }
{
    match word {
        b"reg" => Some(ArgumentKind::Reg),
        b"uint" => Some(ArgumentKind::Uint),
        b"sint" => Some(ArgumentKind::Sint),
        b"rel" => Some(ArgumentKind::Rel),
        _ => None,
    }
}

// The argument of a letter and a word, if they are one.
fn argument_of(letter: u8, kind: Option<ArgumentKind>) -> Option<Arg>
    ensures { result ≡ lettered_of letter kind }
{
    match kind {
        Some(kind) => {
            if is_letter(letter) {
                Some(Arg { letter, kind })
            } else {
                None
            }
        }
        None => None,
    }
}

// An argument `<letter>:<kind>`.
fn read_arg(text: &[u8]) -> Option<Arg>
    ensures { result ≡ arg_of text.now }
{
    match text {
        [letter, b':', word @ ..] => argument_of(*letter, read_kind(word)),
        _ => None,
    }
}

// The argument that a value is.
fn arg_in(value: &Value) -> Option<Arg>
    ensures { result ≡ option_and_then arg_of (as_str (view value.now)) }
{
    match value.as_str() {
        Some(text) => read_arg(text.as_bytes()),
        None => None,
    }
}

// The arguments of an array, if each is one.
fn read_args(alloc: Global, list: &[Value]) -> Result<Option<Seq<Arg>>, NoMemory>
    ensures { IfOk result (λ o. o ≡ args_of (items_view list.now)) }
{
    let mut args = Seq::new(alloc);
    for value in list {
        match arg_in(value) {
            Some(arg) => args.push(arg)?,
            None => return Ok(None),
        }
    }
    Ok(Some(args))
}

// The arguments at the key `args`, if each is there.
fn args_in(alloc: Global, table: &Document) -> Result<Option<Seq<Arg>>, NoMemory>
    ensures { IfOk result (λ o. o ≡ option_and_then args_of
        (option_and_then as_array (get_member (codes "args") (table_view table.now)))) }
{
    match list_at(table, "args") {
        Some(list) => read_args(alloc, list),
        None => Ok(None),
    }
}

// The bits without their spaces.
fn without_spaces(alloc: Global, bits: &[u8]) -> Result<Seq<u8>, NoMemory>
    ensures { IfOk result (λ b. b ≡ text_without_spaces bits.now) }
{
    let mut kept = Seq::new(alloc);
    for bit in bits {
        if *bit != b' ' {
            kept.push(*bit)?;
        }
    }
    Ok(kept)
}

// The name of an instruction, if it has the form.
fn name_in(table: &Document) -> Option<&str>
    ensures { option_copied result
        ≡ option_and_then (where_is is_name_of) (text_of (codes "name") (table_view table.now)) }
{
    match text_at(table, "name") {
        Some(name) => {
            if is_name(name.as_bytes()) {
                Some(name)
            } else {
                None
            }
        }
        None => None,
    }
}

// The instruction of a table's members, if each has its form.
fn read_members(alloc: Global, table: &Document) -> Result<Option<(Name, Insn)>, NoMemory>
    ensures { IfOk result (λ o. o ≡ insn_of_members (table_view table.now)) }
{
    if !has_insn_keys(table) {
        return Ok(None);
    }
    let Some(name) = name_in(table) else {
        return Ok(None);
    };
    let Some(args) = args_in(alloc, table)? else {
        return Ok(None);
    };
    let Some(bits) = text_at(table, "bits") else {
        return Ok(None);
    };
    let name = Name::copy_of(alloc, name.as_bytes())?;
    let bits = without_spaces(alloc, bits.as_bytes())?;
    Ok(Some((name, Insn { args, bits })))
}

// The instruction that a value is.
fn read_insn(alloc: Global, value: &Value) -> Result<Option<(Name, Insn)>, NoMemory>
    ensures { IfOk result (λ o. o ≡ insn_of (view value.now)) }
{
    match value.as_table() {
        Some(table) => read_members(alloc, table),
        None => Ok(None),
    }
}

/// The instructions of an array, or the refusal of the first that lacks its form.
pub fn read_insns(alloc: Global, list: &[Value]) -> Result<Seq<(Name, Insn)>, TableError>
    ensures { Meets (insns_of 1 (items_view list.now)) result }
{
    let mut insns = Seq::new(alloc);
    for (i, value) in list.iter().enumerate() {
        match read_insn(alloc, value)? {
            Some(insn) => insns.push(insn)?,
            None => {
                return Err(TableError::Refused {
                    rule: Rule::B2,
                    insn: i + 1,
                });
            }
        }
    }
    Ok(insns)
}
