// The table that a text is.
ghost use Rattle.std.specs.Prelude.{◌≡◌, ◌≤◌, Some, None, Ok, Err, [], true, MatchOption, MatchResult};
ghost use Rattle.toml.specs.View.{table_view};
ghost use Rattle.pdl_kit.specs.declared.rule.Rule.TheVariants.{B5};
ghost use Rattle.pdl_asm_table.specs.Names.{is_pipe_name};
ghost use Rattle.pdl_asm_table.specs.Tables.{first_repeated, refused_at, table_with};
ghost use Rattle.pdl_asm_table.specs.Documents.{document_of, table, table_of_members, IsNoDocument, Meets};
ghost use Rattle.pdl_word.specs.Words.{widest};

use crate::checks::{first_b3, first_b4};
use crate::dictionary::Dictionary;
use crate::document::{has_table_keys, insns_in, mem_in, regs_in, word_in};
use crate::insns::read_insns;
use crate::table::{Insn, Table};
use crate::table_error::TableError;
use pdl_kit::{Name, Rule, Seq};
use std::alloc::Global;
use toml::Table as Document;

// The refusal by a rule at an instruction.
fn refusal_at(rule: Rule, insn: usize) -> TableError
    ensures { result ≡ TableError.Refused rule insn }
{
    TableError::Refused { rule, insn }
}

// The instructions by name, or the refusal of the first whose name an earlier one has.
fn by_name(alloc: Global, insns: Seq<(Name, Insn)>) -> Result<Dictionary<Insn>, TableError>
    ensures { Meets (refused_at B5 (first_repeated [] 1 insns) (Ok insns)) result }
{
    let mut named = Dictionary::new(alloc);
    let mut number = 0;
    for (name, insn) in insns.into_vec() {
        if named.get(&name).is_some() {
            return Err(refusal_at(Rule::B5, number + 1));
        }
        named.define(name, insn)?;
        number += 1;
    }
    Ok(named)
}

// The table of these parts, or the lowest rule of B3 to B5 that an instruction breaks.
fn to_table(
    alloc: Global,
    word: u8,
    mem: Name,
    regs: Dictionary<u32>,
    insns: Seq<(Name, Insn)>,
) -> Result<Table, TableError>
    requires low { 1 ≤ word }
    requires high { word ≤ widest }
    requires name { is_pipe_name mem ≡ true }
    ensures { Meets (table_with word mem regs insns) result }
{
    if let Some(number) = first_b3(word, insns.as_slice()) {
        return Err(refusal_at(Rule::B3, number));
    }
    if let Some(number) = first_b4(insns.as_slice()) {
        return Err(refusal_at(Rule::B4, number));
    }
    let insns = by_name(alloc, insns)?;
    Ok(Table::new(word, mem, regs, insns))
}

// The table of a document's members.
fn read_members(alloc: Global, document: &Document) -> Result<Table, TableError>
    ensures { Meets (table_of_members (table_view document.now)) result }
{
    if !has_table_keys(document) {
        return Err(refusal_at(Rule::B2, 0));
    }
    let Some(word) = word_in(document) else {
        return Err(refusal_at(Rule::B2, 0));
    };
    let Some(mem) = mem_in(document) else {
        return Err(refusal_at(Rule::B2, 0));
    };
    let Some(regs) = regs_in(alloc, document)? else {
        return Err(refusal_at(Rule::B2, 0));
    };
    let Some(list) = insns_in(document) else {
        return Err(refusal_at(Rule::B2, 0));
    };
    let insns = read_insns(alloc, list)?;
    let mem = Name::copy_of(alloc, mem.as_bytes())?;
    to_table(alloc, word, mem, regs, insns)
}

// The document of a text, if it is TOML.
fn parse(alloc: Global, text: &[u8]) -> Result<Document, TableError>
    ensures { MatchResult result (λ d. document_of text.now ≡ Some (table_view d))
        (λ e. IsNoDocument text.now e) }
{
    let Ok(text) = std::str::from_utf8(text) else {
        return Err(refusal_at(Rule::B1, 0));
    };
    match toml::table_from_str(alloc, text) {
        Ok(document) => Ok(document),
        Err(error) => {
            if error.is_memory() {
                Err(TableError::NoMemory)
            } else {
                Err(refusal_at(Rule::B1, 0))
            }
        }
    }
}

/// Reads the table of an instruction set from TOML.
///
/// Its keys are `word`, the bits of a word, 1 to `WIDEST`; `mem`, the name of a memory; `regs`, which may be missing, a table from names of registers to numbers below `2^32`; and `insn`, an array of at least one table, each with exactly `name`, `args`, an array of texts `<letter>:<kind>` with a kind `reg`, `uint`, `sint` or `rel`, and `bits`, most significant first, of `0`, `1` and letters, in which spaces are ignored.
///
/// B1: the text isn't TOML, or not UTF-8. B2: a key is missing or unknown, or a value hasn't its type, form or range. B3: `bits` has another character, or isn't `word` long. B4: a letter in `bits` without argument, an argument without letter in `bits`, or two arguments of one letter. B5: an instruction name that an earlier instruction has. A refusal is that of the lowest rule, there of the lowest instruction, counted from 1; 0 is what stands in none.
pub fn read_table(alloc: Global, text: &[u8]) -> Result<Table, TableError>
    ensures { Meets (table text.now) result }
{
    let document = parse(alloc, text)?;
    read_members(alloc, &document)
}
