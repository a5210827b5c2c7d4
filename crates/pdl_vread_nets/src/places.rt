//! Where each name was first declared.
ghost use Rattle.std.specs.Prelude.{◌≡◌, ◌++◌, ◌∷◌, ◌<◌, ◌+◌, ◌^◌, [], ℕ, List, OnOk, OnErr, length};
ghost use Rattle.pdl_vread_nets.specs.Places.{AreFirsts};
ghost use Rattle.pdl_vread_nets.specs.Wired.{place};

use pdl_kit::{Name, NoMemory};
use std::alloc::Global;
use std::collections::HashMap;

/// Where each name was first declared, counted from 0, and how many declarations there are.
#[derive(Drop)]
pub struct Places {
    firsts: HashMap<Name, usize>,
    count: usize,
}

impl Places {
    /// No declarations yet.
    pub fn new(alloc: Global) -> Places
        ensures { AreFirsts [] result }
    {
        Places {
            firsts: HashMap::new(alloc),
            count: 0,
        }
    }

    /// Adds a declaration of a name. Where memory runs out all declarations stay as they were.
    pub fn add(&mut self, name: &Name) -> Result<(), NoMemory>
        requires { self.old.count + 1 < 2 ^ 64 }
        ensures names { OnOk result ((names : List (List ℕ)) → AreFirsts names self.old →
            AreFirsts (names ++ name.now ∷ []) self.new) }
        ensures count { OnOk result (self.new.count ≡ self.old.count + 1) }
        ensures err { OnErr result ((names : List (List ℕ)) → AreFirsts names self.old →
            AreFirsts names self.new) }
        ensures err_count { OnErr result (self.new.count ≡ self.old.count) }
    {
        if self.firsts.get(name).is_some() {
            self.count += 1;
            return Ok(());
        }
        let name = name.clone()?;
        self.firsts.insert(name, self.count)?;
        self.count += 1;
        Ok(())
    }

    /// Where a name was first declared.
    pub fn find(&self, name: &Name) -> Option<usize>
        ensures { (names : List (List ℕ)) → AreFirsts names self.now →
            result ≡ place names name.now }
    {
        match self.firsts.get(name) {
            Some(place) => Some(*place),
            None => None,
        }
    }
}
