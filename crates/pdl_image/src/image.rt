//! The words that memories have at the start.
ghost use Rattle.std.specs.Prelude.{[], length, slice_index_or, ◌<◌, ◌≡◌};

use pdl_kit::Seq;
use pdl_word::Word;
use std::marker::Model;

/// The words that memories have at the start: one list for each memory, in the order of their declarations.
#[derive(Drop)]
pub struct Image {
    words: Seq<Seq<Word>>,
}

impl Model for Image {
    ghost use Rattle.std.specs.Prelude.{List, ℕ};

    ghost Value = { List (List ℕ) };

    ghost view = { λ i. i.words };
}

impl Image {
    /// An image of the words of each memory, in the order of the memories; it takes no memory.
    pub fn from_lists(words: Seq<Seq<Word>>) -> Image
        ensures { result ≡ words }
    {
        Image { words }
    }

    /// The words of the memory at place `m`, counted from 0, by ascending address.
    pub fn words(&self, m: usize) -> &[Word]
        requires { m < length self.now }
        ensures { result.now ≡ slice_index_or self.now m [] }
    {
        self.words.as_slice()[m].as_slice()
    }
}
