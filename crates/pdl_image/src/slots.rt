//! What lines have given to the addresses of a memory.
ghost use Rattle.std.specs.Prelude.{IfOk, None, length, unwrap_or, map, replicate, ◌-◌, ◌≤◌, ◌≡◌};
ghost use Rattle.pdl_image.specs.Images.{is_any_given as is_any_given_of};
ghost use Rattle.pdl_image.specs.Slots.{filled, slot_at};

use pdl_kit::{NoMemory, Seq};
use pdl_word::Word;
use std::alloc::Global;
use std::marker::Model;

// Whether there is a value at one of the places from one up to an end, which is left out.
#[tactic(auto, using(crate::proofs::Ranges::any_more))]
fn has_value(values: &[Option<Word>], from: usize, end: usize) -> bool
    requires order { from ≤ end }
    requires within { end ≤ length values.now }
    ensures { result ≡ is_any_given_of (slot_at values.now) from (end - from) }
{
    let mut found = false;
    for address in from..end {
        found = found || values[address].is_some();
    }
    found
}

// Puts a value at each place from one up to an end, which is left out.
#[tactic(auto, using(crate::proofs::Ranges::filled_more))]
fn fill(values: &mut [Option<Word>], from: usize, end: usize, value: Word)
    requires order { from ≤ end }
    requires within { end ≤ length values.old }
    ensures { values.new ≡ filled values.old from (end - from) value }
{
    for address in from..end {
        values[address] = Some(value);
    }
}

/// The value that each address of a memory has been given, if any.
#[derive(Drop)]
pub struct Slots {
    values: Vec<Option<Word>>,
}

impl Model for Slots {
    ghost use Rattle.std.specs.Prelude.{List, Option, ℕ};

    ghost Value = { List (Option ℕ) };

    ghost view = { λ s. s.values.items };
}

impl Slots {
    /// Nothing is given yet.
    pub fn new(alloc: Global, depth: u32) -> Result<Slots, NoMemory>
        ensures { IfOk result (λ s. s ≡ replicate depth None) }
    {
        Ok(Slots {
            values: Vec::from_elem(alloc, None, depth as usize)?,
        })
    }

    /// Whether one of the addresses from one up to an end, which is left out, has been given a value.
    pub fn is_any_given(&self, from: usize, end: usize) -> bool
        requires order { from ≤ end }
        requires within { end ≤ length self.now }
        ensures { result ≡ is_any_given_of (slot_at self.now) from (end - from) }
    {
        has_value(self.values.as_slice(), from, end)
    }

    /// Gives each address from one up to an end, which is left out, the value.
    pub fn give(&mut self, from: usize, end: usize, value: Word)
        requires order { from ≤ end }
        requires within { end ≤ length self.old }
        ensures { self.new ≡ filled self.old from (end - from) value }
    {
        fill(self.values.as_mut_slice(), from, end, value);
    }

    /// The values, 0 where none was given.
    pub fn words(&self, alloc: Global) -> Result<Seq<Word>, NoMemory>
        ensures { IfOk result (λ w. w ≡ map (λ o. unwrap_or o 0) self.now) }
    {
        let words = self
            .values
            .iter()
            .map(|value| value.unwrap_or(0))
            .collect(alloc)?;
        Ok(Seq::from_vec(words))
    }
}
