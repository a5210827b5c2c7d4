// The definitions of a pipe.
ghost use Rattle.std.specs.Prelude.{◌≡◌, ◌+◌, ◌<◌, [], length, map, take, OnOk};
ghost use Rattle.pdl_paths.specs.Actions.{place_view};
ghost use Rattle.pdl_rules_names.specs.Index.{IsIndex};

use crate::first::First;
use pdl_kit::NoMemory;
use pdl_paths::{Place, guess_at, memory_at, name_at, variable_at};
use std::alloc::Global;

/// The names that the places of a pipe define, by their kind and of whatever kind.
#[derive(Drop)]
pub struct Index {
    pub variables: First,
    pub memories: First,
    pub guesses: First,
    pub names: First,
}

impl Index {
    /// No names yet.
    pub fn new(alloc: Global) -> Index
        ensures { IsIndex result [] }
    {
        Index {
            variables: First::new(alloc),
            memories: First::new(alloc),
            guesses: First::new(alloc),
            names: First::new(alloc),
        }
    }

    /// Adds what these places define.
    pub fn add_all(&mut self, places: &[Place<'_>]) -> Result<(), NoMemory>
        requires { IsIndex self.old [] }
        ensures { OnOk result (IsIndex self.new (map place_view places.now)) }
    {
        for k in 0..places.len() {
            self.add(places, k)?;
        }
        Ok(())
    }

    // Adds what the k-th place defines.
    fn add(&mut self, places: &[Place<'_>], k: usize) -> Result<(), NoMemory>
        requires here { k < length places.now }
        requires stands { IsIndex self.old (take k (map place_view places.now)) }
        ensures { OnOk result (IsIndex self.new (take (k + 1) (map place_view places.now))) }
    {
        let place = &places[k];
        self.variables.add(variable_at(place), k)?;
        self.memories.add(memory_at(place), k)?;
        self.guesses.add(guess_at(place), k)?;
        self.names.add(name_at(place), k)?;
        Ok(())
    }
}
