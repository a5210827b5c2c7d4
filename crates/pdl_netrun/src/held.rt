// What a simulator holds between cycles, in words of one of two sizes.

ghost use Rattle.std.specs.Prelude.{◌≡◌, ◌<◌, length, slice_index};
ghost use Rattle.pdl_netrun.specs.Held.{PlanFits, after_plan, bits_of, held_lists};

use crate::cycle_plan::CyclePlan;
use crate::{narrow_cycle, wide_cycle};
use pdl_word::Word;

/// Words of one size.
#[derive(Drop)]
pub struct WordLists<T> {
    /// The values of all nets in the last cycle.
    pub values: Vec<T>,
    /// The words of each array.
    pub arrays: Vec<Vec<T>>,
    /// The values of the registers in the next cycle.
    pub next: Vec<T>,
}

/// Words of 64 bits, where no width of the netlist is greater, and else words of any width.
///
/// Most netlists have none that is greater, and a cycle over words of 64 bits is the faster one.
#[derive(Drop)]
pub enum HeldWords {
    Narrow(WordLists<u64>),
    Wide(WordLists<Word>),
}

impl HeldWords {
    /// The value at a place in the last cycle.
    pub fn value(&self, place: u32) -> Word
        requires { place < length (held_lists self.now).values }
        ensures { result ≡ slice_index (held_lists self.now).values place }
    {
        match self {
            HeldWords::Narrow(lists) => Word::from(lists.values[place as usize]),
            HeldWords::Wide(lists) => lists.values[place as usize],
        }
    }

    /// Runs one cycle by a plan, with these values of the inputs.
    pub fn step(&mut self, plan: &CyclePlan, inputs: &[Word])
        requires { PlanFits (bits_of self.old) plan.now inputs.now (held_lists self.old) }
        ensures lists { held_lists self.new ≡ after_plan plan.now inputs.now
            (held_lists self.old) }
        ensures bits { bits_of self.new ≡ bits_of self.old }
    {
        match self {
            HeldWords::Narrow(lists) => narrow_cycle::step(plan, inputs, lists),
            HeldWords::Wide(lists) => wide_cycle::step(plan, inputs, lists),
        }
    }
}
