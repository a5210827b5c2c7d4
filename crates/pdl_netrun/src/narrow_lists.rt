// Lists of words of 64 bits, from lists of words that have no more.

ghost use Rattle.std.specs.Prelude.{◌≡◌, All, IfOk, IsTrue, if◌then◌else◌};
ghost use Rattle.pdl_word.specs.Words.{widest};
ghost use Rattle.pdl_netrun.specs.Held.{AreSmall, ListsFit, bits_of, held_lists, lists_of};
ghost use Rattle.pdl_netrun.specs.Steps.{array_words};

use crate::held::{HeldWords, WordLists};
use pdl_kit::NoMemory;
use pdl_word::Word;
use std::alloc::Global;

/// The same words, of which each has no more than 64 bits.
fn narrowed(alloc: Global, words: &[Word]) -> Result<Vec<u64>, NoMemory>
    requires { AreSmall 64 words.now }
    ensures { IfOk result (λ v. v.items ≡ words.now) }
{
    let mut narrow = Vec::with_capacity(alloc, words.len())?;
    for word in words {
        narrow.push(*word as u64)?;
    }
    Ok(narrow)
}

/// The same arrays.
#[tactic(auto, using(crate::proofs::NarrowLists::arrays))]
fn narrowed_arrays(alloc: Global, arrays: &[Vec<Word>]) -> Result<Vec<Vec<u64>>, NoMemory>
    requires { All (AreSmall 64) (array_words arrays.now) }
    ensures { IfOk result (λ v. array_words v.items ≡ array_words arrays.now) }
{
    let mut narrow = Vec::with_capacity(alloc, arrays.len())?;
    for words in arrays {
        narrow.push(narrowed(alloc, words)?)?;
    }
    Ok(narrow)
}

/// The same lists.
fn narrowed_lists(alloc: Global, lists: &WordLists<Word>) -> Result<WordLists<u64>, NoMemory>
    requires { ListsFit 64 (lists_of lists.now) }
    ensures { IfOk result (λ l. lists_of l ≡ lists_of lists.now) }
{
    let values = narrowed(alloc, &lists.values)?;
    let arrays = narrowed_arrays(alloc, &lists.arrays)?;
    let next = narrowed(alloc, &lists.next)?;
    Ok(WordLists {
        values,
        arrays,
        next,
    })
}

/// Holds words, in 64 bits where they are narrow.
pub fn hold(alloc: Global, lists: WordLists<Word>, narrow: bool) -> Result<HeldWords, NoMemory>
    requires { IsTrue narrow → ListsFit 64 (lists_of lists) }
    ensures lists { IfOk result (λ h. held_lists h ≡ lists_of lists) }
    ensures bits { IfOk result (λ h. bits_of h ≡ (if narrow then 64 else widest)) }
{
    if narrow {
        Ok(HeldWords::Narrow(narrowed_lists(alloc, &lists)?))
    } else {
        Ok(HeldWords::Wide(lists))
    }
}
