// A name, seen as the list of its bytes.
ghost use Rattle.std.specs.Prelude.{◌≡◌, ℕ, List, [], ◌∷◌, ◌++◌, length, slice_get, IfOk, OnOk, OnErr, IsTrue, ◌↔◌, nat_eq, Some};
ghost use Rattle.std.specs.Ordering.{nat_cmp};
ghost use Rattle.std.specs.Cmp.Lexicographic.{pointwise, slice_cmp, texts_ties, texts_po, nat_list_eq_equiv, nat_list_cmp_total};
ghost use Rattle.std.specs.Cmp.{partial_equiv_from_equiv};
ghost use Rattle.std.specs.Cmp.Rules.{hashing, comparing};
ghost use Rattle.std.specs.Hash as fed;
ghost use Rattle.std.proofs.Common.{rules, refl};

use crate::no_memory::NoMemory;
use std::alloc::{AllocError, Global};
use std::cmp::Ordering;
use std::hash::{Hash, Hasher};
use std::marker::Model;

/// A name that contracts see as the list of its bytes, compared byte by byte.
#[derive(Drop)]
pub struct Name {
    bytes: Vec<u8>,
}

impl Model for Name {
    ghost Value = { List ℕ };

    ghost view = { λ n. n.bytes.items };
}

impl Name {
    /// The name of these bytes, without taking memory.
    pub fn from_vec(bytes: Vec<u8>) -> Name
        ensures { result ≡ bytes.items }
    {
        Name { bytes }
    }

    /// The vector of its bytes, without taking memory.
    pub fn into_vec(self) -> Vec<u8>
        ensures { result.items ≡ self }
    {
        self.bytes
    }

    /// Lends its bytes.
    pub fn as_bytes(&self) -> &[u8]
        ensures { result.now ≡ self.now }
    {
        self.bytes.as_slice()
    }

    /// How many bytes it has.
    pub fn len(&self) -> usize
        ensures { result ≡ length self.now }
    {
        self.bytes.len()
    }

    /// Whether it has no bytes.
    pub fn is_empty(&self) -> bool
        ensures { IsTrue result ↔ (self.now ≡ []) }
    {
        self.bytes.is_empty()
    }

    /// Appends a byte. Where memory runs out the name stays as it was.
    pub fn push(&mut self, byte: u8) -> Result<(), NoMemory>
        ensures ok { OnOk result (self.new ≡ self.old ++ byte ∷ []) }
        ensures err { OnErr result (self.new ≡ self.old) }
    {
        self.bytes.push(byte)?;
        Ok(())
    }

    /// The name of a copy of the bytes.
    pub fn copy_of(alloc: Global, bytes: &[u8]) -> Result<Name, NoMemory>
        ensures { IfOk result (λ n. n ≡ bytes.now) }
    {
        Ok(Name {
            bytes: Vec::from_slice(alloc, bytes)?,
        })
    }
}

impl Clone for Name {
    ghost is_clone = { λ a b. b ≡ a };

    fn clone(&self) -> Result<Name, AllocError> {
        Ok(Name {
            bytes: self.bytes.clone()?,
        })
    }
}

impl PartialEq for Name {
    ghost eq = { λ a b. pointwise nat_eq a b };

    ghost laws = { partial_equiv_from_equiv nat_list_eq_equiv };

    fn eq(&self, other: &Name) -> bool {
        self.bytes == other.bytes
    }
}

impl Eq for Name {
    ghost laws = { nat_list_eq_equiv };
}

impl PartialOrd for Name {
    ghost partial_cmp = { λ a b. Some (slice_cmp nat_cmp a b) };

    ghost laws = { texts_po };

    fn partial_cmp(&self, other: &Name) -> Option<Ordering> {
        Some(self.cmp(other))
    }
}

impl Ord for Name {
    ghost cmp = { λ a b. slice_cmp nat_cmp a b };

    ghost total = { nat_list_cmp_total };

    ghost matches_partial_cmp = { λ a b. refl };

    ghost matches_eq = { λ a b. texts_ties a b };

    fn cmp(&self, other: &Name) -> Ordering {
        self.bytes.cmp(&other.bytes)
    }
}

impl Hash for Name {
    ghost hash_input = { λ a. fed.slice fed.u8 a };

    ghost respects_eq = { Prim.search (hashing, rules) };

    fn hash<H: Hasher>(&self, state: &mut H) {
        self.bytes.hash(state);
    }
}
