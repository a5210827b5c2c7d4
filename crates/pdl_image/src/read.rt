//! Images as text.
ghost use Rattle.std.specs.Prelude.{IfErr, IfOk, Ok, IfSome, MatchOption, MatchResult, None, OnOk, Some, [], length, map, position, unwrap_or, Bool, ◌<◌, ◌≡◌, ◌≢◌, ◌≤◌, List, ℕ};
ghost use Rattle.std.specs.List.{All, AllPairs};
ghost use Rattle.std.specs.Str.{bytes_eq};
ghost use Rattle.pdl_kit.specs.declared.files.TheConstants.{LONGEST_FILE};
ghost use Rattle.pdl_image.specs.Images.{IsImage, IsRefusal, after_header as after_header_of, image as image_of, is_ranged as is_ranged_of, size_of};
ghost use Rattle.pdl_image.specs.Lines.{lines};
ghost use Rattle.pdl_image.specs.Slots.{AreTaken, Follows, IsFor, all_slots, broken_at, filled};
ghost use Rattle.pdl_word.specs.Words.{widest};

use crate::file_error::FileError;
use crate::image::Image;
use crate::lines::split_line;
use crate::slots::Slots;
use crate::word::{Ends, read_words, says_nothing};
use pdl_kit::{MemInfo, NoMemory, Rule, Seq};
use pdl_word::{Word, mask};
use std::alloc::Global;

/// The first line of an image in which each line gives one word.
const FIRST: &[u8] = b"image 1";

/// The first line of an image in which a line may give many.
const SECOND: &[u8] = b"image 2";

// The place of the memory of a name.
fn place_of(mems: &[MemInfo], name: &[u8]) -> Option<usize>
    ensures value { result ≡ position (λ m. bytes_eq m.name name.now) mems.now }
    ensures within { IfSome result (λ m. m < length mems.now) }
{
    mems.iter().position(|mem| mem.name.as_bytes() == name)
}

// Keeps the words that a line gives a memory, or the rule that they break is the answer.
#[tactic(auto, unfolding(crate::specs::Slots::broken_at, pdl_word::specs::Words::mask))]
fn put_words(mem: &MemInfo, slots: &mut Slots, ends: Ends, value: Word) -> Result<(), Rule>
    requires low { 1 ≤ mem.now.width }
    requires high { mem.now.width ≤ widest }
    requires depth { length slots.old ≡ mem.now.depth }
    ensures rule { MatchResult result (λ _. broken_at mem.now slots.old ends value ≡ None)
        (λ rule. broken_at mem.now slots.old ends value ≡ Some rule) }
    ensures kept { OnOk result (slots.new ≡ filled slots.old ends.from (size_of ends) value) }
{
    let depth = u64::from(mem.depth);
    if ends.from >= depth || ends.to >= depth {
        return Err(Rule::I4);
    }
    if value > mask(mem.width) {
        return Err(Rule::I5);
    }
    if ends.to < ends.from {
        return Err(Rule::I7);
    }
    let (from, end) = (ends.from as usize, ends.to as usize + 1);
    if slots.is_any_given(from, end) {
        return Err(Rule::I6);
    }
    slots.give(from, end, value);
    Ok(())
}

// Takes a line after those before it, or the lowest rule that it breaks is the answer.
#[tactic(auto, using(crate::proofs::LineSteps::as_many, crate::proofs::LineSteps::as_deep))]
fn take_line(mems: &[MemInfo], ranged: bool, slots: &mut [Slots], line: &[u8]) -> Result<(), Rule>
    requires names { AllPairs (λ a b. a.name ≢ b.name) mems.now }
    requires low { All (λ m. 1 ≤ m.width) mems.now }
    requires high { All (λ m. m.width ≤ widest) mems.now }
    requires slots { IsFor mems.now slots.old }
    ensures { (before : List (List ℕ)) → slots.old ≡ all_slots ranged mems.now before
        → Follows ranged mems.now before line.now result slots.new }
{
    if says_nothing(line) {
        return Ok(());
    }
    let Some(words) = read_words(line, ranged) else {
        return Err(Rule::I2);
    };
    let Some(place) = place_of(mems, words.name) else {
        return Err(Rule::I3);
    };
    put_words(&mems[place], &mut slots[place], words.ends, words.value)
}

// Nothing is given yet.
#[tactic(auto, using(crate::proofs::TakenLines::no_slots, crate::proofs::TakenLines::one_more_row))]
fn empty_slots(alloc: Global, mems: &[MemInfo]) -> Result<Vec<Slots>, NoMemory>
    ensures { (ranged : Bool) → IfOk result (λ s. s.items ≡ all_slots ranged mems.now []) }
{
    let mut slots = Vec::new(alloc);
    for mem in mems {
        slots.push(Slots::new(alloc, mem.depth)?)?;
    }
    Ok(slots)
}

// Takes the lines after the first one, or the refusal of the first wrong one is the answer.
#[tactic(auto, using(crate::proofs::TakenLines::taken_none, crate::proofs::LineSteps::slots_fit))]
fn take_lines(
    mems: &[MemInfo],
    ranged: bool,
    slots: &mut [Slots],
    text: &[u8],
) -> Result<(), FileError>
    requires names { AllPairs (λ a b. a.name ≢ b.name) mems.now }
    requires low { All (λ m. 1 ≤ m.width) mems.now }
    requires high { All (λ m. m.width ≤ widest) mems.now }
    requires short { length text.now ≤ LONGEST_FILE }
    requires empty { slots.old ≡ all_slots ranged mems.now [] }
    ensures { AreTaken ranged mems.now (lines text.now) result slots.new }
{
    let mut rest = text;
    let mut number = 2;
    while !rest.is_empty() {
        let (line, later) = split_line(rest);
        if let Err(rule) = take_line(mems, ranged, slots, line) {
            return Err(FileError::Refused { rule, line: number });
        }
        rest = later;
        number += 1;
    }
    Ok(())
}

// The words of each memory, 0 where none was given.
fn to_image(alloc: Global, slots: &[Slots]) -> Result<Image, NoMemory>
    ensures { IfOk result (λ i. i ≡ map (λ row. map (λ o. unwrap_or o 0) row) slots.now) }
{
    let mut words = Seq::new(alloc);
    for row in slots {
        words.push(row.words(alloc)?)?;
    }
    Ok(Image::from_lists(words))
}

// Whether ranges may stand after a first line, if that is one of an image.
fn is_ranged(first: &[u8]) -> Option<bool>
    ensures { result ≡ is_ranged_of first.now }
{
    if first == FIRST {
        Some(false)
    } else if first == SECOND {
        Some(true)
    } else {
        None
    }
}

// Whether ranges may stand in the lines after the first one, and the text of these, where the first is `image 1` or `image 2`.
#[tactic(auto, using(crate::proofs::TakenLines::lines_of_none))]
fn after_header(text: &[u8]) -> Option<(bool, &[u8])>
    ensures value { MatchOption result (after_header_of (lines text.now) ≡ None)
        (λ h. after_header_of (lines text.now) ≡ Some (h.0, lines h.1.now)) }
    ensures shorter { IfSome result (λ h. length h.1.now ≤ length text.now) }
{
    if text.is_empty() {
        return None;
    }
    let (first, rest) = split_line(text);
    match is_ranged(first) {
        Some(ranged) => Some((ranged, rest)),
        None => None,
    }
}

/// Reads the words of memories from the text of an image.
///
/// A text is the line `image 1` or `image 2` (I1), and then lines that are empty, begin with `//`, or are `<mem> <address> <hex>` with single spaces, a name of at most 32 characters, 1 to 10 decimal digits and 1 to `MOST_HEX` lower hexadecimal digits (I2). In `image 2` two addresses with `..` between them may stand for one, and then all from the one to the other are meant, both of them too. The memory is one of those given (I3), each address that stands there is below its depth (I4), the value is below `2 ^ width` (I5), a range doesn't end before it begins (I7), and no earlier line gave one of the words (I6). All other words are 0. A line feed ends a line; the last one may lack it.
///
/// The names of the memories differ, their widths are 1 to `WIDEST` bits, and the text has at most `LONGEST_FILE` bytes. A refusal is that of the lowest wrong line, counted from 1, and there of the lowest rule.
pub fn read_image(alloc: Global, mems: &[MemInfo], text: &[u8]) -> Result<Image, FileError>
    requires names { AllPairs (λ a b. a.name ≢ b.name) mems.now }
    requires low { All (λ m. 1 ≤ m.width) mems.now }
    requires high { All (λ m. m.width ≤ widest) mems.now }
    requires short { length text.now ≤ LONGEST_FILE }
    ensures read { IfOk result (λ i. image_of mems.now text.now ≡ Ok i) }
    ensures refused { IfErr result (IsRefusal (image_of mems.now text.now)) }
    ensures whole { IfOk result (λ i. IsImage mems.now i) }
{
    let Some((ranged, rest)) = after_header(text) else {
        return Err(FileError::Refused {
            rule: Rule::I1,
            line: 1,
        });
    };
    let mut slots = empty_slots(alloc, mems)?;
    take_lines(mems, ranged, slots.as_mut_slice(), rest)?;
    Ok(to_image(alloc, slots.as_slice())?)
}
