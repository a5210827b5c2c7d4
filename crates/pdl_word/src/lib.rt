//! Words of 1 to `WIDEST` bits: the values of the operators of PDL and of the cells of a netlist.
//!
//! A width is counted in bits. Each call gives what the definition of its name says, on whole numbers below `2 ^ width`.
//! They are the operators of IEEE 1364-2005 on unsigned operands of one width.
//! `&`, `|` and `^` need no call, since the operators on `Word` keep words of a width.
//!
//! The layers above may use these calls, `word_at` for the words of a memory, `read_digits` and `hex_digit` for the digits that numbers are written with, the definitions of `specs/`, and the lemmas of `Bools`, `Lists`, `Each`, `Bytes`, `Numbers` and `Digits`.
#![tactic(auto)]

ghost use Rattle.pdl_word.specs.Words.{add as add_of, cat as cat_of, complement as complement_of, differ as differ_of, equal as equal_of, less as less_of, lts as lts_of, mask as mask_of, mul as mul_of, mux as mux_of, rep as rep_of, sext as sext_of, shl as shl_of, shr as shr_of, slice as slice_of, sub as sub_of, widest, zext as zext_of};
ghost use Rattle.std.specs.Prelude.{slice_index, ◌*◌, ◌+◌, ◌-◌, ◌<◌, ◌^◌, ◌≡◌, ◌≤◌};

mod numerals;

pub use numerals::{hex_digit, read_digits};

/// The value of a word, whatever its width.
pub type Word = u128;

/// The greatest width of a word, in bits.
pub const WIDEST: u8 = 128;

/// The most hexadecimal digits that a word is written with.
pub const MOST_HEX: usize = 32;

/// The most decimal digits that a word is written with.
pub const MOST_DECIMAL: usize = 39;

/// The largest word of `width` bits, all of them 1.
#[tactic(auto, using(crate::proofs::Masks::one_shifted), unfolding(crate::specs::Words::mask))]
pub fn mask(width: u8) -> Word
    requires low { 1 ≤ width }
    requires high { width ≤ widest }
    ensures { result ≡ mask_of width }
{
    if width == WIDEST {
        Word::MAX
    } else {
        (1 << width) - 1
    }
}

/// The sum modulo `2 ^ width`.
#[tactic(auto, using(crate::proofs::Masks::masked), unfolding(crate::specs::Words::add))]
pub fn add(width: u8, a: Word, b: Word) -> Word
    requires low { 1 ≤ width }
    requires high { width ≤ widest }
    ensures { result ≡ add_of width a b }
{
    a.wrapping_add(b) & mask(width)
}

/// The difference modulo `2 ^ width`.
#[tactic(auto, using(crate::proofs::Differences::sub_high, crate::proofs::Differences::sub_low), unfolding(crate::specs::Words::mask))]
pub fn sub(width: u8, a: Word, b: Word) -> Word
    requires low { 1 ≤ width }
    requires high { width ≤ widest }
    requires a_fits { a < 2 ^ width }
    requires b_fits { b < 2 ^ width }
    ensures { result ≡ sub_of width a b }
{
    if b <= a {
        a - b
    } else {
        mask(width) - (b - a) + 1
    }
}

/// The product modulo `2 ^ width`.
#[tactic(auto, using(crate::proofs::Masks::masked), unfolding(crate::specs::Words::mul))]
pub fn mul(width: u8, a: Word, b: Word) -> Word
    requires low { 1 ≤ width }
    requires high { width ≤ widest }
    ensures { result ≡ mul_of width a b }
{
    a.wrapping_mul(b) & mask(width)
}

/// Each of the `width` bits the other way.
pub fn complement(width: u8, a: Word) -> Word
    requires low { 1 ≤ width }
    requires high { width ≤ widest }
    requires a_fits { a < 2 ^ width }
    ensures { result ≡ complement_of width a }
{
    mask(width) - a
}

/// 1 where the words are equal, else 0.
#[tactic(auto, unfolding(crate::specs::Words::equal))]
pub fn equal(a: Word, b: Word) -> Word
    ensures { result ≡ equal_of a b }
{
    Word::from(a == b)
}

/// 1 where the words differ, else 0.
#[tactic(auto, unfolding(crate::specs::Words::differ))]
pub fn differ(a: Word, b: Word) -> Word
    ensures { result ≡ differ_of a b }
{
    Word::from(a != b)
}

/// 1 where `a` is less than `b`, both unsigned, else 0.
#[tactic(auto, unfolding(crate::specs::Words::less))]
pub fn less(a: Word, b: Word) -> Word
    ensures { result ≡ less_of a b }
{
    Word::from(a < b)
}

/// 1 where `a` is less than `b`, both in two's complement of `width` bits, else 0.
#[tactic(auto, using(crate::proofs::Signs::lts_raised))]
pub fn lts(width: u8, a: Word, b: Word) -> Word
    requires low { 1 ≤ width }
    requires high { width ≤ widest }
    ensures { result ≡ lts_of width a b }
{
    let half = 1 << (width - 1);
    // Half of the range added to both turns the signed order into the unsigned one.
    less(add(width, a, half), add(width, b, half))
}

/// `a` moved up by `b` places, with zeros below; 0 where `b` is `width` or more.
#[tactic(auto, using(crate::proofs::Masks::masked, crate::proofs::Shifts::shl_within, crate::proofs::Shifts::shl_past))]
pub fn shl(width: u8, a: Word, b: Word) -> Word
    requires low { 1 ≤ width }
    requires high { width ≤ widest }
    ensures { result ≡ shl_of width a b }
{
    if b < Word::from(width) {
        (a << b) & mask(width)
    } else {
        0
    }
}

/// `a` moved down by `b` places, with zeros above; 0 where `b` is `width` or more.
#[tactic(auto, using(crate::proofs::Shifts::shr_within, crate::proofs::Shifts::shr_past))]
pub fn shr(width: u8, a: Word, b: Word) -> Word
    requires low { 1 ≤ width }
    requires high { width ≤ widest }
    ensures { result ≡ shr_of width a b }
{
    if b < Word::from(width) { a >> b } else { 0 }
}

/// The bits of `a` from place `high` down to place `low`, counted from 0 at the lowest.
#[tactic(auto, using(crate::proofs::Masks::and_with_mask), unfolding(crate::specs::Words::slice))]
pub fn slice(high: u8, low: u8, a: Word) -> Word
    requires order { low ≤ high }
    requires top { high < widest }
    ensures { result ≡ slice_of high low a }
{
    (a >> low) & mask(high + 1 - low)
}

/// `a` above the `low_width` bits of `b`.
#[tactic(auto, using(crate::proofs::Shifts::shifted), unfolding(crate::specs::Words::cat))]
pub fn cat(low_width: u8, a: Word, b: Word) -> Word
    requires low { 1 ≤ low_width }
    requires high { low_width < widest }
    requires a_fits { a < 2 ^ (widest - low_width) }
    requires b_fits { b < 2 ^ low_width }
    ensures { result ≡ cat_of low_width a b }
{
    (a << low_width) + b
}

/// `a` as a word of any greater width, with zeros above.
#[tactic(auto, unfolding(crate::specs::Words::zext))]
pub fn zext(a: Word) -> Word
    ensures { result ≡ zext_of a }
{
    a
}

/// The `width` bits of `a` as a word of `wide` bits, with copies of its top bit above.
#[tactic(auto, using(crate::proofs::Signs::sext_of_clear, crate::proofs::Signs::sext_of_set))]
pub fn sext(width: u8, wide: u8, a: Word) -> Word
    requires low { 1 ≤ width }
    requires order { width ≤ wide }
    requires high { wide ≤ widest }
    requires a_fits { a < 2 ^ width }
    ensures { result ≡ sext_of width wide a }
{
    if a >> (width - 1) == 0 {
        a
    } else {
        a + (mask(wide) - mask(width))
    }
}

/// `a` where the choice is 1, else `b`.
#[tactic(auto, unfolding(crate::specs::Words::mux))]
pub fn mux(choice: Word, a: Word, b: Word) -> Word
    ensures { result ≡ mux_of choice a b }
{
    if choice == 1 { a } else { b }
}

/// `count` copies of the `width` bits of `a`, each above those before it.
#[tactic(auto, using(crate::proofs::Bounds::one_more_fits, crate::proofs::Bounds::copy_narrow, crate::proofs::Copies::rep_once, crate::proofs::Copies::rep_more))]
pub fn rep(width: u8, count: u8, a: Word) -> Word
    requires low { 1 ≤ width }
    requires some { 1 ≤ count }
    requires high { count * width ≤ widest }
    requires a_fits { a < 2 ^ width }
    ensures { result ≡ rep_of width count a }
{
    let mut copies = a;
    for _ in 1..count {
        copies = cat(width, copies, a);
    }
    copies
}

/// The word at an address of a list, 0 past its end.
pub fn word_at(words: &[Word], address: Word) -> Word
    ensures { result ≡ slice_index words.now address }
{
    match usize::try_from(address) {
        Ok(place) => match words.get(place) {
            Some(word) => *word,
            None => 0,
        },
        Err(_) => 0,
    }
}
