// Values by name.
ghost use Rattle.std.specs.Prelude.{◌≡◌, ℕ, List, [], OnOk, OnErr, is_some, take};
ghost use Rattle.std.specs.Option.{option_copied};
ghost use Rattle.pdl_asm_table.specs.Dictionaries.{value_of, with_definition};

use indexmap::IndexMap;
use pdl_kit::{Name, NoMemory};
use std::alloc::Global;
use std::marker::Model;

/// Values by name, in the order of their definitions, of which each name has its first.
pub struct Dictionary<T> {
    values: IndexMap<Name, T>,
}

// As the derive would, but by a call of its owners: docs/DECISIONS.md says why.
impl<T: Drop> Drop for Dictionary<T> {
    fn drop(self) {
        let Dictionary { values: _ } = self;
    }
}

impl<T> Model for Dictionary<T> {
    ghost use Rattle.std.specs.Prelude.{List, ℕ};
    ghost use Rattle.std.specs.Coded.{coded_list, coded×, coded_ℕ};

    ghost Value = { List (List ℕ × T) };

    ghost coded = { coded_list (coded× (coded_list coded_ℕ) T.code) };

    ghost view = { λ d. d.values.entries };
}

impl<T> Dictionary<T> {
    /// No name is defined yet.
    pub fn new(alloc: Global) -> Dictionary<T>
        ensures { result ≡ [] }
    {
        Dictionary {
            values: IndexMap::new(alloc),
        }
    }

    /// The value of a name, if it is defined.
    pub fn get(&self, name: &Name) -> Option<&T>
        ensures { option_copied result ≡ value_of self.now name.now }
    {
        self.values.get(name)
    }

    /// Whether one of the first `count` definitions is that of a name.
    pub fn is_among(&self, count: usize, name: &Name) -> bool
        ensures { result ≡ is_some (value_of (take count self.now) name.now) }
    {
        match self.values.get_index_of(name) {
            Some(index) => index < count,
            None => false,
        }
    }
}

impl<T: Drop> Dictionary<T> {
    /// Defines a name, unless it is defined. Where memory runs out the value is dropped, and the definitions stay as they were.
    pub fn define(&mut self, name: Name, value: T) -> Result<(), NoMemory>
        ensures ok { OnOk result (self.new ≡ with_definition self.old name value) }
        ensures err { OnErr result (self.new ≡ self.old) }
    {
        if self.values.get(&name).is_some() {
            return Ok(());
        }
        self.values.insert(name, value)?;
        Ok(())
    }
}
