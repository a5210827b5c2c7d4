// What stands in the document of a table, outside its instructions.
ghost use Rattle.std.specs.Prelude.{◌≡◌, ◌≤◌, true, [], Some, None, IfOk, IfSome, option_map, option_and_then, codes, bytes_eq};
ghost use Rattle.std.specs.Option.{option_copied};
ghost use Rattle.std.specs.List.{list_any};
ghost use Rattle.toml.specs.Data.{as_table, as_str, as_integer, as_array, get_member};
ghost use Rattle.toml.specs.View.{view, table_view, items_view};
ghost use Rattle.pdl_asm_table.specs.Names.{is_pipe_name as is_pipe_name_of};
ghost use Rattle.pdl_asm_table.specs.Documents.{are_tables as are_tables_of, has_only, insn_keys, number_of, regs_from, regs_of, some_tables, table_keys, text_at as text_of, where_is, width_of};
ghost use Rattle.pdl_word.specs.Words.{widest};

use crate::dictionary::Dictionary;
use crate::names::{is_one_of, is_pipe_name};
use pdl_image::is_name;
use pdl_kit::{Name, NoMemory};
use pdl_word::WIDEST;
use std::alloc::Global;
use toml::{Table as Document, Value};

// The value at a key.
fn value_at<'a>(table: &'a Document, key: &str) -> Option<&'a Value>
    ensures { option_map (λ v. view v.now) result ≡ get_member key.now (table_view table.now) }
{
    table.get(key)
}

/// The text at a key.
pub fn text_at<'a>(table: &'a Document, key: &str) -> Option<&'a str>
    ensures { option_copied result ≡ text_of key.now (table_view table.now) }
{
    match value_at(table, key) {
        Some(value) => value.as_str(),
        None => None,
    }
}

/// The array at a key.
pub fn list_at<'a>(table: &'a Document, key: &str) -> Option<&'a [Value]>
    ensures { option_map (λ v. items_view v.now) result
        ≡ option_and_then as_array (get_member key.now (table_view table.now)) }
{
    match value_at(table, key) {
        Some(value) => match value.as_array() {
            Some(list) => Some(list.as_slice()),
            None => None,
        },
        None => None,
    }
}

// Whether a key is one of an instruction's.
fn is_insn_key(key: &str) -> bool
    ensures { result ≡ list_any (λ k. bytes_eq key.now k) insn_keys }
{
    is_one_of(key, &["name", "args", "bits"])
}

/// Whether each key is one of an instruction's.
#[tactic(auto, using(crate::proofs::Members::has_only_keys))]
pub fn has_insn_keys(table: &Document) -> bool
    ensures { result ≡ has_only insn_keys (table_view table.now) }
{
    for key in table.keys() {
        if !is_insn_key(key.as_str()) {
            return false;
        }
    }
    true
}

// Whether a key is one of a table's.
fn is_table_key(key: &str) -> bool
    ensures { result ≡ list_any (λ k. bytes_eq key.now k) table_keys }
{
    is_one_of(key, &["word", "mem", "regs", "insn"])
}

/// Whether each key is one of a table's.
#[tactic(auto, using(crate::proofs::Members::has_only_keys))]
pub fn has_table_keys(table: &Document) -> bool
    ensures { result ≡ has_only table_keys (table_view table.now) }
{
    for key in table.keys() {
        if !is_table_key(key.as_str()) {
            return false;
        }
    }
    true
}

// The width that a number is, 1 to `WIDEST`.
fn to_width(number: i64) -> Option<u8>
    ensures range { IfSome result (λ w. (1 ≤ w) × (w ≤ widest)) }
    ensures value { result ≡ width_of number }
{
    if number >= 1 && number <= i64::from(WIDEST) {
        Some(number as u8)
    } else {
        None
    }
}

/// The width at the key `word`.
pub fn word_in(table: &Document) -> Option<u8>
    ensures range { IfSome result (λ w. (1 ≤ w) × (w ≤ widest)) }
    ensures value { result ≡ option_and_then width_of
        (option_and_then as_integer (get_member (codes "word") (table_view table.now))) }
{
    match value_at(table, "word") {
        Some(value) => match value.as_integer() {
            Some(number) => to_width(number),
            None => None,
        },
        None => None,
    }
}

/// The name at the key `mem`, if it is one of the pipeline language.
pub fn mem_in(table: &Document) -> Option<&str>
    ensures name { IfSome result (λ m. is_pipe_name_of m.now ≡ true) }
    ensures value { option_copied result
        ≡ option_and_then (where_is is_pipe_name_of)
        (text_of (codes "mem") (table_view table.now)) }
{
    match text_at(table, "mem") {
        Some(name) => { if is_pipe_name(name) { Some(name) } else { None } }
        None => None,
    }
}

// The number of a register that a value is.
fn number_in(value: &Value) -> Option<u32>
    ensures { result ≡ option_and_then number_of (as_integer (view value.now)) }
{
    match value.as_integer() {
        Some(number) => {
            if number >= 0 && number <= 4_294_967_295 {
                Some(number as u32)
            } else {
                None
            }
        }
        None => None,
    }
}

// The registers of a table's members, if each has its form.
#[tactic(auto, using(crate::proofs::Members::regs_none))]
fn read_regs(alloc: Global, table: &Document) -> Result<Option<Dictionary<u32>>, NoMemory>
    ensures { IfOk result (λ o. o ≡ regs_from (Some []) (table_view table.now)) }
{
    let mut regs = Dictionary::new(alloc);
    for (name, value) in table {
        if !is_name(name.as_bytes()) {
            return Ok(None);
        }
        let Some(number) = number_in(value) else {
            return Ok(None);
        };
        regs.define(Name::copy_of(alloc, name.as_bytes())?, number)?;
    }
    Ok(Some(regs))
}

/// The registers at the key `regs`, none where it is missing.
pub fn regs_in(alloc: Global, table: &Document) -> Result<Option<Dictionary<u32>>, NoMemory>
    ensures { IfOk result (λ o. o ≡ regs_of (get_member (codes "regs") (table_view table.now))) }
{
    match value_at(table, "regs") {
        Some(value) => match value.as_table() {
            Some(regs) => read_regs(alloc, regs),
            None => Ok(None),
        },
        None => Ok(Some(Dictionary::new(alloc))),
    }
}

// Whether each value is a table.
fn are_tables(list: &[Value]) -> bool
    ensures { result ≡ are_tables_of (items_view list.now) }
{
    for value in list {
        if value.as_table().is_none() {
            return false;
        }
    }
    true
}

/// The tables at the key `insn`, if there is at least one.
pub fn insns_in(table: &Document) -> Option<&[Value]>
    ensures { option_map (λ v. items_view v.now) result ≡ option_and_then some_tables
        (option_and_then as_array (get_member (codes "insn") (table_view table.now))) }
{
    match list_at(table, "insn") {
        Some(list) => {
            if !list.is_empty() && are_tables(list) {
                Some(list)
            } else {
                None
            }
        }
        None => None,
    }
}
