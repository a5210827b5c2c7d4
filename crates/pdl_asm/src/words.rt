// The words that have been written.
ghost use Rattle.std.specs.Prelude.{◌≡◌, ◌<◌, IfOk, None, Some, length, replicate, slice_set};
ghost use Rattle.pdl_asm.specs.Assembly.{addresses};
ghost use Rattle.pdl_asm.specs.Slots.{is_taken_in, with_word};

use crate::whole::Whole;
use pdl_kit::NoMemory;
use pdl_word::Word;
use std::alloc::Global;
use std::marker::Model;

/// How many addresses there are.
const ADDRESSES: usize = 65_536;

// No word for each of so many addresses.
fn no_words(alloc: Global, count: usize) -> Result<Vec<Option<Word>>, NoMemory>
    ensures items { IfOk result (λ v. v.items ≡ replicate count None) }
    ensures len { IfOk result (λ v. length v.items ≡ count) }
{
    Ok(Vec::from_elem(alloc, None, count)?)
}

/// The word that each address from 0 to 65,535 has, if one was written there.
#[derive(Drop)]
pub struct WordSlots {
    slots: Vec<Option<Word>>,
}

impl Model for WordSlots {
    ghost use Rattle.std.specs.Prelude.{◌≡◌, List, Option, ℕ, length};

    ghost Value = { List (Option ℕ) };

    ghost view = { λ w. w.slots.items };

    ghost invariant = { λ w. length w.slots.items ≡ 65536 };
}

impl WordSlots {
    /// No word is written yet.
    pub fn new(alloc: Global) -> Result<WordSlots, NoMemory>
        ensures { IfOk result (λ w. w ≡ replicate addresses None) }
    {
        Ok(WordSlots {
            slots: no_words(alloc, ADDRESSES)?,
        })
    }

    /// Whether a place is an address at which a word was written.
    pub fn is_taken(&self, place: &Whole) -> bool
        ensures { result ≡ is_taken_in self.now place.now }
    {
        match place.address() {
            Some(address) => self.slots[address].is_some(),
            None => false,
        }
    }

    /// Writes a word, if there is one, at a place that is an address.
    pub fn write(&mut self, place: &Whole, word: Option<Word>)
        ensures { self.new ≡ with_word self.old place.now word }
    {
        if let Some(word) = word {
            if let Some(address) = place.address() {
                self.slots[address] = Some(word);
            }
        }
    }

    /// The word of each address.
    pub fn slots(&self) -> &[Option<Word>]
        ensures value { result.now ≡ self.now }
        ensures len { length result.now ≡ 65536 }
    {
        self.slots.as_slice()
    }
}
