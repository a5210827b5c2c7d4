//! Delays as text.
ghost use Rattle.std.specs.Prelude.{IfErr, IfOk, MatchResult, None, Ok, Some, OnOk, [], length, ◌++◌, ◌∷◌, ◌≡◌, ◌≤◌};
ghost use Rattle.std.specs.List.{All, list_all};
ghost use Rattle.pdl_kit.specs.declared.files.TheConstants.{LONGEST_FILE};
ghost use Rattle.pdl_image.specs.Delays.{AreRowsTaken, broken_row, delays as delays_of, is_bit as is_bit_of, row_word as row_word_of};
ghost use Rattle.pdl_image.specs.Images.{IsRefusal};
ghost use Rattle.pdl_image.specs.Lines.{lines};

use crate::delays::Delays;
use crate::file_error::FileError;
use crate::lines::split_line;
use pdl_kit::{NoMemory, Rule};
use std::alloc::Global;

/// The most rows of a delay file.
const MOST_ROWS: u32 = 1_000_000;

// Whether a byte is the character of a bit.
fn is_bit(byte: u8) -> bool
    ensures { result ≡ is_bit_of byte }
{
    byte == b'0' || byte == b'1'
}

// Whether each byte is the character of a bit.
fn are_bits(row: &[u8]) -> bool
    ensures { result ≡ list_all is_bit_of row.now }
{
    row.iter().all(|byte| is_bit(*byte))
}

#[tactic(auto, using(crate::proofs::DelayRows::row_word_end, crate::proofs::DelayRows::row_word_fits, crate::proofs::DelayRows::row_word_before))]
// A row of at most 16 bits as a number, whose lowest bit is the first.
fn row_word(row: &[u8]) -> u16
    requires { length row.now ≤ 16 }
    ensures { result ≡ row_word_of row.now }
{
    let mut word = 0;
    let mut left = row.len();
    while left > 0 {
        left -= 1;
        word = u16::from(row[left] == b'1') + 2 * word;
    }
    word
}

// A row as a number, or the lowest rule that it breaks.
#[tactic(auto, unfolding(crate::specs::Delays::broken_row))]
fn take_row(count: u8, number: u32, row: &[u8]) -> Result<u16, Rule>
    requires { count ≤ 16 }
    ensures { MatchResult result
        (λ w. (broken_row count number row.now ≡ None) × (w ≡ row_word_of row.now))
        (λ rule. broken_row count number row.now ≡ Some rule) }
{
    if !are_bits(row) {
        return Err(Rule::Y1);
    }
    if row.len() != usize::from(count) {
        return Err(Rule::Y2);
    }
    if number > MOST_ROWS {
        return Err(Rule::Y3);
    }
    Ok(row_word(row))
}

// One row more.
fn push_row(rows: &mut Vec<u16>, word: u16) -> Result<(), NoMemory>
    ensures { OnOk result (rows.new.items ≡ rows.old.items ++ word ∷ []) }
{
    rows.push(word)?;
    Ok(())
}

#[tactic(auto, using(crate::proofs::DelayRows::no_rows_taken, crate::proofs::DelayRows::row_taken, crate::proofs::DelayRows::wrong_row_found, crate::proofs::DelayRows::all_rows_taken))]
// Takes the rows of a text, or the refusal of the first wrong one is the answer.
fn take_rows(count: u8, rows: &mut Vec<u16>, text: &[u8]) -> Result<(), FileError>
    requires few { count ≤ 16 }
    requires short { length text.now ≤ LONGEST_FILE }
    requires empty { rows.old.items ≡ [] }
    ensures { AreRowsTaken count (lines text.now) result rows.new.items }
{
    let mut rest = text;
    let mut number = 1;
    while !rest.is_empty() {
        let (row, later) = split_line(rest);
        match take_row(count, number, row) {
            Ok(word) => push_row(rows, word)?,
            Err(rule) => return Err(FileError::Refused { rule, line: number }),
        }
        rest = later;
        number += 1;
    }
    Ok(())
}

/// Reads the reply bits of so many delayed memories, at most 16, from the text of a delay file.
///
/// A line is a row, that of a cycle from the first one on: characters `0` and `1` alone (Y1), one for each delayed memory in declared order (Y2), and there are at most 1,000,000 rows (Y3). A line feed ends a line; the last one may lack it. After the last row all bits are 1.
///
/// The text has at most `LONGEST_FILE` bytes. A refusal is that of the lowest wrong row, counted from 1, and there of the lowest rule.
#[tactic(auto, unfolding(crate::specs::Delays::delays))]
pub fn read_delays(alloc: Global, count: u8, text: &[u8]) -> Result<Delays, FileError>
    requires few { count ≤ 16 }
    requires short { length text.now ≤ LONGEST_FILE }
    ensures read { IfOk result (λ d. delays_of count text.now ≡ Ok d) }
    ensures refused { IfErr result (IsRefusal (delays_of count text.now)) }
{
    let mut rows = Vec::new(alloc);
    take_rows(count, &mut rows, text)?;
    Ok(Delays::from_rows(rows))
}
