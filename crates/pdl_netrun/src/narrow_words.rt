// Arithmetic on words of at most 64 bits.

ghost use Rattle.std.specs.Prelude.{◌≡◌, ◌<◌, ◌≤◌, ◌-◌, ◌*◌, ◌%◌, ◌^◌};
ghost use Rattle.pdl_word.specs.Words.{cat, rep};
ghost use Rattle.pdl_netrun.specs.Steps.{mask_within as mask_of};

/// The largest word of so many bits, and of no more than 64.
#[tactic(auto, using(crate::proofs::Bits::one_shifted), unfolding(pdl_word::specs::Words::mask))]
pub fn mask_within(width: u8) -> u64
    ensures { result ≡ mask_of width }
{
    if width < 64 {
        (1 << width) - 1
    } else {
        u64::MAX
    }
}

/// The lowest `width` bits of a word.
#[tactic(auto, using(crate::proofs::Bits::top_off))]
pub fn low_bits(width: u8, word: u64) -> u64
    requires low { 1 ≤ width }
    requires high { width ≤ 64 }
    ensures { result ≡ word % 2 ^ width }
{
    let above = 64 - width;
    (word << above) >> above
}

/// A word above the `low_width` bits of another.
#[tactic(auto, using(crate::proofs::Bits::joined), unfolding(pdl_word::specs::Words::cat))]
pub fn join(low_width: u8, a: u64, b: u64) -> u64
    requires low { 1 ≤ low_width }
    requires high { low_width < 64 }
    requires a_fits { a < 2 ^ (64 - low_width) }
    requires b_fits { b < 2 ^ low_width }
    ensures { result ≡ cat low_width a b }
{
    (a << low_width) + b
}

/// A bit, so many times.
#[tactic(auto, using(crate::proofs::Bits::no_bits, crate::proofs::Bits::all_bits, crate::proofs::Bits::cut))]
pub fn repeat_bit(count: u8, bit: u64) -> u64
    requires some { 1 ≤ count }
    requires few { count ≤ 64 }
    requires bit { bit < 2 }
    ensures { result ≡ rep 1 count bit }
{
    if bit == 0 { 0 } else { mask_within(count) }
}

/// A word of `width` bits, so many times.
#[tactic(auto, using(crate::proofs::Bits::one_more_fits, crate::proofs::Bits::copy_narrow, pdl_word::proofs::Copies::rep_once, pdl_word::proofs::Copies::rep_more))]
pub fn repeat(width: u8, count: u8, word: u64) -> u64
    requires low { 1 ≤ width }
    requires some { 1 ≤ count }
    requires high { count * width ≤ 64 }
    requires fits { word < 2 ^ width }
    ensures { result ≡ rep width count word }
{
    let mut copies = word;
    for _ in 1..count {
        copies = join(width, copies, word);
    }
    copies
}
