// What clauses see of the reads and writes so far. It takes no memory, and no code reads it.
ghost use Rattle.std.specs.Prelude.{◌≡◌, ℕ, List, [], ◌∷◌, ◌++◌};
ghost use Rattle.std.specs.Borrow.{ftrue};
ghost use Rattle.pdl_system.specs.Answers.{Answer, answers_coded};
ghost use Rattle.pdl_system.specs.Answers as answer;

use std::marker::{Model, PhantomData};

/// The answers to the reads so far, in order.
#[derive(Drop)]
pub struct Answers {
    marker: PhantomData<u8>,
    pub ghost list: { List Answer } by { answers_coded },
}

impl Model for Answers {
    ghost also_owns = { λ _. ftrue };
}

impl Answers {
    /// There was no read yet.
    pub(crate) fn none() -> Answers
        ensures { result.list ≡ [] }
    {
        Answers {
            marker: PhantomData,
        }
    }

    /// A file of this name was read, and gave these bytes.
    pub(crate) fn gave(&mut self, _name: &[u8], _bytes: &[u8])
        ensures { self.new.list ≡ self.old.list ++ answer.gave _name.now _bytes.now ∷ [] }
    {}

    /// A file of this name was not read.
    pub(crate) fn failed(&mut self, _name: &[u8])
        ensures { self.new.list ≡ self.old.list ++ answer.failed _name.now ∷ [] }
    {}
}

/// The bytes that were taken so far.
#[derive(Drop)]
pub struct Taken {
    marker: PhantomData<u8>,
    pub ghost bytes: { List ℕ },
}

impl Model for Taken {
    ghost also_owns = { λ _. ftrue };
}

impl Taken {
    /// Nothing was taken yet.
    pub(crate) fn none() -> Taken
        ensures { result.bytes ≡ [] }
    {
        Taken {
            marker: PhantomData,
        }
    }

    /// These were taken after the others.
    pub(crate) fn take(&mut self, _piece: &[u8])
        ensures { self.new.bytes ≡ self.old.bytes ++ _piece.now }
    {}
}
