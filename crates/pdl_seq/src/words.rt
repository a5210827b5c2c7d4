// The words of a memory.
ghost use Rattle.std.specs.Prelude.{◌≡◌, ◌<◌, length, slice_index, slice_set, IfOk};

use pdl_kit::NoMemory;
use pdl_word::{Word, word_at};
use std::alloc::Global;
use std::marker::Model;

/// The words of a memory by their addresses, which contracts see as their list.
#[derive(Drop)]
pub struct Words {
    words: Vec<Word>,
}

impl Model for Words {
    ghost use Rattle.std.specs.Prelude.{List, ℕ};

    ghost Value = { List ℕ };

    ghost view = { λ w. w.words.items };
}

impl Words {
    /// A copy of these words.
    pub fn new(alloc: Global, words: &[Word]) -> Result<Words, NoMemory>
        ensures { IfOk result (λ w. w ≡ words.now) }
    {
        Ok(Words {
            words: Vec::from_slice(alloc, words)?,
        })
    }

    /// The word at an address, 0 past the end.
    pub fn read(&self, address: Word) -> Word
        ensures { result ≡ slice_index self.now address }
    {
        word_at(self.words.as_slice(), address)
    }

    /// Writes the word at an address.
    pub fn write(&mut self, address: Word, value: Word)
        requires { address < length self.old }
        ensures { self.new ≡ slice_set self.old address value }
    {
        self.words[address as usize] = value;
    }
}
