//! The reply bits of delayed memories, cycle by cycle.
ghost use Rattle.std.specs.Prelude.{[], ◌≡◌, ◌≤◌};
ghost use Rattle.pdl_image.specs.Delays.{bits_in};

use std::alloc::Global;
use std::marker::Model;

/// The reply bits of each cycle: of those that a delay file gives, and from then on all of them 1.
#[derive(Drop)]
pub struct Delays {
    rows: Vec<u16>,
}

impl Model for Delays {
    ghost use Rattle.std.specs.Prelude.{List, ℕ};

    ghost Value = { List ℕ };

    ghost view = { λ d. d.rows.items };
}

impl Delays {
    /// Every request is answered in the cycle after it; it takes no memory.
    pub fn none(alloc: Global) -> Delays
        ensures { result ≡ [] }
    {
        Delays {
            rows: Vec::new(alloc),
        }
    }

    /// The reply bits of these cycles, from the first one on; it takes no memory.
    pub fn from_rows(rows: Vec<u16>) -> Delays
        ensures { result ≡ rows.items }
    {
        Delays { rows }
    }

    /// The reply bits of a cycle, counted from 1: bit j is that of the j-th delayed memory, and after the last row all bits are 1.
    pub fn bits(&self, cycle: u32) -> u16
        requires { 1 ≤ cycle }
        ensures { result ≡ bits_in self.now cycle }
    {
        match self.rows.get(cycle as usize - 1) {
            Some(row) => *row,
            None => u16::MAX,
        }
    }
}
