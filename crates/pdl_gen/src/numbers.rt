// The numbers that come after one another, the words that they give, and how long a run is.
ghost use Rattle.std.specs.Prelude.{◌≡◌, ◌<◌, ◌≤◌, ◌^◌, ◌/◌, ◌%◌, IfOk};
ghost use Rattle.pdl_gen.specs.Generated as spec;

use pdl_kit::NoMemory;
use pdl_word::Word;
use std::alloc::Global;

/// The number that comes after one.
pub fn next(x: u64) -> u64
    requires { x < 2 ^ 32 }
    ensures value { result ≡ spec.next x }
    ensures below { result < 2 ^ 32 }
{
    (1_103_515_245 * x + 12_345) % 2_147_483_648
}

/// The bits 16 to 23 of a number, as a byte.
pub fn byte_of(x: u64) -> u64
    ensures { result ≡ x / 65536 % 256 }
{
    x / 65_536 % 256
}

/// The words that the memory of the generated run has at the start, by their addresses: 16 words of 8 bits.
#[tactic(auto, unfolding(crate::specs::Generated::words))]
pub fn words(alloc: Global, n: u32) -> Result<Vec<Word>, NoMemory>
    ensures { IfOk result (λ v. v.items ≡ spec.words n) }
{
    let mut words = Vec::new(alloc);
    let mut x = next(u64::from(n));
    for _address in 0..16_usize {
        x = next(x);
        words.push(Word::from(byte_of(x)))?;
    }
    Ok(words)
}

/// How many cycles a generated run has.
#[tactic(auto, unfolding(crate::specs::Generated::cycles))]
pub fn cycles() -> u32
    ensures value { result ≡ spec.cycles }
    ensures few { result ≤ 10000 }
{
    10_000
}
