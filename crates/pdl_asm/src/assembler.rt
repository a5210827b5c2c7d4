// The assembly of a text.
ghost use Rattle.std.specs.Prelude.{◌≡◌, ◌≤◌, IfOk, IfErr, OnOk, MatchResult, Ok, Err, None, [], length, pos, replicate, take, ◌+◌, List, ℕ};
ghost use Rattle.pdl_kit.specs.declared.files.TheConstants.{LONGEST_FILE};
ghost use Rattle.pdl_image.specs.Lines.{lines};
ghost use Rattle.pdl_asm.specs.Assembly.{addresses, defined_by, image, labels_of, line_rule as line_rule_of, line_word as line_word_of, lines_from, Meets};
ghost use Rattle.pdl_asm.specs.ReadBack.{IsReadBack};
ghost use Rattle.pdl_asm.specs.Slots.{AreWritten, IsRefusal, is_taken_in, with_word};

use crate::asm_error::AsmError;
use crate::encode::line_word;
use crate::image::to_image;
use crate::line::AssemblyLine;
use crate::operation::read_line;
use crate::place::{after_line, define_label};
use crate::rules::line_rule;
use crate::whole::Whole;
use crate::words::WordSlots;
use pdl_asm_table::{Dictionary, Table};
use pdl_image::split_line;
use pdl_kit::NoMemory;
use std::alloc::Global;

// Defines the labels of a text, where none is defined yet.
fn define_labels(
    alloc: Global,
    table: &Table,
    text: &[u8],
    labels: &mut Dictionary<Whole>,
) -> Result<(), NoMemory>
    requires size { length text.now ≤ LONGEST_FILE }
    requires none { labels.old ≡ [] }
    ensures { OnOk result
        (labels.new ≡ labels_of (lines_from table.now (pos 0) (lines text.now))) }
{
    let mut place = Whole::from_count(0);
    let mut rest = text;
    while !rest.is_empty() {
        let (first, later) = split_line(rest);
        let line = read_line(alloc, first)?;
        define_label(labels, &place, &line)?;
        place = after_line(table, &place, &line);
        rest = later;
    }
    Ok(())
}

// The places of the labels that a text defines.
fn read_labels(alloc: Global, table: &Table, text: &[u8]) -> Result<Dictionary<Whole>, NoMemory>
    requires { length text.now ≤ LONGEST_FILE }
    ensures { IfOk result (λ l. l ≡ labels_of (lines_from table.now (pos 0) (lines text.now))) }
{
    let mut labels = Dictionary::new(alloc);
    define_labels(alloc, table, text, &mut labels)?;
    Ok(labels)
}

// How many labels are defined after a line, of which so many are before it.
fn defined_after(before: usize, line: &Option<AssemblyLine>) -> usize
    requires { before ≤ LONGEST_FILE }
    ensures { result ≡ defined_by before line.now }
{
    match line {
        Some(AssemblyLine { label: Some(_), .. }) => before + 1,
        _ => before,
    }
}

// Writes the word of a line at a place, or refuses the line, which has this number. Lines before it define the first `before` of all labels.
fn take_line(
    table: &Table,
    labels: &Dictionary<Whole>,
    before: usize,
    words: &mut WordSlots,
    place: &Whole,
    number: u32,
    line: &Option<AssemblyLine>,
) -> Result<(), AsmError>
    ensures right { OnOk result (line_rule_of table.now labels.now (take before labels.now)
        (is_taken_in words.old place.now) place.now line.now ≡ None) }
    ensures word { OnOk result (words.new ≡ with_word words.old place.now
        (line_word_of table.now labels.now place.now line.now)) }
    ensures refused { IfErr result (IsRefusal (line_rule_of table.now labels.now
        (take before labels.now)
        (is_taken_in words.old place.now) place.now line.now) number) }
{
    let taken = words.is_taken(place);
    if let Some(rule) = line_rule(table, labels, before, taken, place, line) {
        return Err(AsmError::Refused { rule, line: number });
    }
    words.write(place, line_word(table, labels, place, line));
    Ok(())
}

// Writes the words of the lines of a text, whose labels are known, up to the first wrong line, where no word is written before.
fn write_lines(
    alloc: Global,
    table: &Table,
    labels: &Dictionary<Whole>,
    text: &[u8],
    words: &mut WordSlots,
) -> Result<(), AsmError>
    requires size { length text.now ≤ LONGEST_FILE }
    requires known { labels.now ≡ labels_of (lines_from table.now (pos 0) (lines text.now)) }
    requires empty { words.old ≡ replicate addresses None }
    ensures { MatchResult result
        (λ _. AreWritten table.now labels.now
        (lines_from table.now (pos 0) (lines text.now)) (Ok words.new))
        (λ e. AreWritten table.now labels.now
        (lines_from table.now (pos 0) (lines text.now)) (Err e)) }
{
    let mut place = Whole::from_count(0);
    let mut number = 1;
    // How many of the labels the lines so far define.
    let mut before = 0;
    let mut rest = text;
    while !rest.is_empty() {
        let (first, later) = split_line(rest);
        let line = read_line(alloc, first)?;
        match take_line(table, labels, before, words, &place, number, &line) {
            Ok(()) => (),
            Err(error) => return Err(error),
        }
        before = defined_after(before, &line);
        place = after_line(table, &place, &line);
        rest = later;
        number += 1;
    }
    Ok(())
}

// The words that the lines of a text write, or the refusal of the first wrong line, where all labels are known.
fn write_words(
    alloc: Global,
    table: &Table,
    labels: &Dictionary<Whole>,
    text: &[u8],
) -> Result<WordSlots, AsmError>
    requires size { length text.now ≤ LONGEST_FILE }
    requires known { labels.now ≡ labels_of (lines_from table.now (pos 0) (lines text.now)) }
    ensures { AreWritten table.now labels.now
        (lines_from table.now (pos 0) (lines text.now)) result }
{
    let mut words = WordSlots::new(alloc)?;
    write_lines(alloc, table, labels, text, &mut words)?;
    Ok(words)
}

// The words that a text writes, or the refusal of its first wrong line.
fn words_of(alloc: Global, table: &Table, text: &[u8]) -> Result<WordSlots, AsmError>
    requires { length text.now ≤ LONGEST_FILE }
    ensures { AreWritten table.now (labels_of (lines_from table.now (pos 0) (lines text.now)))
        (lines_from table.now (pos 0) (lines text.now)) result }
{
    let labels = read_labels(alloc, table, text)?;
    write_words(alloc, table, &labels, text)
}

/// Assembles a text to the text of an image, for a table of an instruction set.
///
/// A line is `[label:] [operation]`, with blanks between words, and a comment from `//` on. An operation is `.at number`, `.word number`, or the name of an instruction with operands separated by commas, names or numbers: an optional `-` and then 1 to 39 decimal digits, or `0x` and 1 to 32 lower hexadecimal digits. The place begins at 0; each instruction and each `.word` adds 1 to it, `.at` sets it. A label is the place at its line, and of a label that is defined twice the first definition holds.
///
/// A1: a line's form. A2: an unknown instruction. A3: the number of operands. A4: an operand for a register that is the name of none. A5: a value outside its field, no number where one must stand, or a `.word` outside `-2^(word-1)` to `2^word - 1`. A6: a label that is defined nowhere, or was defined before. A7: `.at`, or the place of a word, outside 0 to 65,535. A8: a word written before. A refusal is that of the lowest wrong line, counted from 1, there of the lowest rule.
///
/// The text has at most `LONGEST_FILE` bytes. The answer is `image 1` and for each word that is written, by ascending address, `<mem> <address> <hex>`. Read as an image for one memory of the table's name, of at most 65,536 words at least as wide as the table's, that has each address at which the text writes, it gives the same words, and 0 at all others.
#[tactic(auto, unfolding(crate::specs::Assembly::image))]
pub fn assemble(alloc: Global, table: &Table, text: &[u8]) -> Result<Vec<u8>, AsmError>
    requires { length text.now ≤ LONGEST_FILE }
    ensures meets { Meets (λ t. t.items) (image table.now text.now) result }
    ensures read_back { IfOk result (λ t. IsReadBack table.now text.now t.items) }
{
    let words = words_of(alloc, table, text)?;
    Ok(to_image(alloc, table, &words)?)
}
