// Words of memories.
ghost use Rattle.std.specs.Prelude.{◌≡◌};
ghost use Rattle.pdl_semantics.specs.Flat.{word_at};
ghost use Rattle.pdl_machine_run.specs.Outside.{arrays_in};
ghost use Rattle.pdl_machine_run.specs.StageDeeds.{word_of};

use pdl_machine_pending::Memory;
use pdl_word::Word;

/// The word of a memory's array, 0 where there is none.
pub fn word(memories: &[Memory], m: usize, address: Word) -> Word
    ensures { result ≡ word_at (arrays_in memories.now) m address }
{
    match memories.get(m) {
        None => 0,
        Some(memory) => memory.word(address),
    }
}

/// The word that a thread's read of a memory finds, 0 where there is no such memory.
pub fn read(memories: &[Memory], thread: u64, m: usize, address: Word) -> Word
    ensures { result ≡ word_of memories.now thread m address }
{
    match memories.get(m) {
        None => 0,
        Some(memory) => memory.read(thread, address),
    }
}
