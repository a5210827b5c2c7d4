// A list that contracts see as a list.
ghost use Rattle.std.specs.Prelude.{◌≡◌, ℕ, List, [], ◌∷◌, ◌++◌, length, slice_get, IfOk, OnOk, OnErr, IsTrue, ◌↔◌, Some, Bool};
ghost use Rattle.std.specs.Cmp.Lexicographic.{pointwise, lists_equiv, lists_per, slice_cmp, slice_partial_cmp, lists_po, lists_total, lists_agrees, lists_ties};
ghost use Rattle.std.specs.Hash.{slice as fed_slice, items_Alike};
ghost use Rattle.std.specs.Option.{option_copied};
ghost use Rattle.std.specs.List.{AllZip};

use crate::no_memory::NoMemory;
use std::alloc::{AllocError, Global};
use std::cmp::Ordering;
use std::hash::{Hash, Hasher};
use std::marker::Model;

/// A list that contracts see as the list of its items.
#[derive(Drop)]
pub struct Seq<T> {
    items: Vec<T>,
}

impl<T> Model for Seq<T> {
    ghost use Rattle.std.specs.Prelude.{List};
    ghost use Rattle.std.specs.Coded.{coded_list};

    ghost Value = { List T };

    ghost coded = { coded_list T.code };

    ghost view = { λ s. s.items.items };
}

impl<T> Seq<T> {
    /// An empty list, which takes no memory.
    pub fn new(alloc: Global) -> Seq<T>
        ensures { result ≡ [] }
    {
        Seq {
            items: Vec::new(alloc),
        }
    }

    /// The list of a vector's items, without taking memory.
    pub fn from_vec(items: Vec<T>) -> Seq<T>
        ensures { result ≡ items.items }
    {
        Seq { items }
    }

    /// The vector of its items, without taking memory.
    pub fn into_vec(self) -> Vec<T>
        ensures { result.items ≡ self }
    {
        self.items
    }

    /// Lends its items.
    pub fn as_slice(&self) -> &[T]
        ensures { result.now ≡ self.now }
    {
        self.items.as_slice()
    }

    /// How many items it has.
    pub fn len(&self) -> usize
        ensures { result ≡ length self.now }
    {
        self.items.len()
    }

    /// Whether it has no items.
    pub fn is_empty(&self) -> bool
        ensures { IsTrue result ↔ (self.now ≡ []) }
    {
        self.items.is_empty()
    }

    /// Lends the item at a place counted from 0, if it is there.
    pub fn get(&self, i: usize) -> Option<&T>
        ensures { option_copied result ≡ slice_get self.now i }
    {
        self.items.get(i)
    }

    /// Appends an item. Where memory runs out the list stays as it was.
    pub fn push(&mut self, item: T) -> Result<(), NoMemory>
    where
        T: Drop,
        ensures ok { OnOk result (self.new ≡ self.old ++ item ∷ []) }
        ensures err { OnErr result (self.new ≡ self.old) }
    {
        self.items.push(item)?;
        Ok(())
    }
}

impl<T: Copy> Seq<T> {
    /// A list of copies of the items.
    pub fn copy_of(alloc: Global, items: &[T]) -> Result<Seq<T>, NoMemory>
        ensures { IfOk result (λ s. s ≡ items.now) }
    {
        Ok(Seq {
            items: Vec::from_slice(alloc, items)?,
        })
    }
}

impl<T: PartialEq> PartialEq for Seq<T> {
    ghost eq = { λ a b. pointwise T.eq a b };

    ghost laws = { lists_per T.laws };

    fn eq(&self, other: &Seq<T>) -> bool {
        self.items == other.items
    }
}

impl<T: Eq> Eq for Seq<T> {
    ghost laws = { lists_equiv T.Eq.laws };
}

impl<T: PartialOrd> PartialOrd for Seq<T> {
    ghost partial_cmp = { λ a b. slice_partial_cmp T.partial_cmp a b };

    ghost laws = { lists_po T.PartialOrd.laws };

    fn partial_cmp(&self, other: &Seq<T>) -> Option<Ordering> {
        self.items.partial_cmp(&other.items)
    }
}

impl<T: Ord> Ord for Seq<T> {
    ghost cmp = { λ a b. slice_cmp T.cmp a b };

    ghost total = { lists_total T.total };

    ghost matches_partial_cmp = { λ a b. lists_agrees T.matches_partial_cmp a b };

    ghost matches_eq = { λ a b. lists_ties T.cmp T.matches_eq a b };

    fn cmp(&self, other: &Seq<T>) -> Ordering {
        self.items.cmp(&other.items)
    }
}

impl<T: Hash> Hash for Seq<T> {
    ghost hash_input = { λ a. fed_slice T.hash_input a };

    ghost respects_eq = { (items_Alike (record { fed = T.respects_eq })).fed };

    fn hash<H: Hasher>(&self, state: &mut H) {
        self.items.hash(state);
    }
}

impl<T: Clone> Clone for Seq<T> {
    ghost is_clone = { λ a b. AllZip T.is_clone a b };

    fn clone(&self) -> Result<Seq<T>, AllocError> {
        Ok(Seq {
            items: self.items.clone()?,
        })
    }
}
