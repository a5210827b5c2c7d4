// Names, each with a number.
ghost use Rattle.std.specs.Prelude.{◌≡◌, [], OnOk, Some};
ghost use Rattle.std.specs.Option.{option_copied};
ghost use Rattle.pdl_rules_names.specs.First.{number_in, with_name};

use indexmap::IndexMap;
use pdl_kit::{Name, NoMemory};
use std::alloc::Global;
use std::marker::Model;

/// Names, each with the number of the place that defines it first.
pub struct First {
    numbers: IndexMap<Name, usize>,
}

// As the derive would, but by a call of its owners: docs/DECISIONS.md says why.
impl Drop for First {
    fn drop(self) {
        let First { numbers: _ } = self;
    }
}

impl Model for First {
    ghost use Rattle.pdl_rules_names.specs.First.{Entries};

    ghost Value = { Entries };

    ghost view = { λ s. s.numbers.entries };
}

impl First {
    /// No names yet.
    pub fn new(alloc: Global) -> First
        ensures { result ≡ [] }
    {
        First {
            numbers: IndexMap::new(alloc),
        }
    }

    /// Adds the name that the k-th place defines, unless it is there.
    pub fn add(&mut self, name: Option<&Name>, k: usize) -> Result<(), NoMemory>
        ensures { OnOk result (self.new ≡ with_name self.old (option_copied name.entry) k) }
    {
        match name {
            Some(name) => self.define(name, k),
            None => Ok(()),
        }
    }

    fn define(&mut self, name: &Name, k: usize) -> Result<(), NoMemory>
        ensures { OnOk result (self.new ≡ with_name self.old (Some name.now) k) }
    {
        if self.numbers.get(name).is_some() {
            return Ok(());
        }
        let name = name.clone()?;
        self.numbers.insert(name, k)?;
        Ok(())
    }

    /// The number of a name, none where it isn't there.
    pub fn number(&self, name: &Name) -> Option<usize>
        ensures { result ≡ number_in self.now name.now }
    {
        self.numbers.get(name).copied()
    }
}
