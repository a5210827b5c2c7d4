// Stages and the threads in them.
use crate::deeds::Deeds;
use pdl_word::Word;

/// A read that awaits its answer: the numbers of its memory and of the variable that it binds.
#[derive(Clone, Copy)]
pub struct Awaited {
    pub mem: usize,
    pub var: usize,
}

/// A word for a variable, which isn't among its thread's values: an answer that came while the thread couldn't move, or an advised value.
#[derive(Clone, Copy)]
pub struct KeptWord {
    pub var: usize,
    pub word: Word,
}

/// A place for a thread: its number or none, its values and its advised ones, the arguments of its guess, the reads that it awaits, and its kept answers.
#[derive(Drop)]
pub struct ThreadSlot {
    pub number: Option<u64>,
    pub values: Vec<Word>,
    pub advice: Vec<KeptWord>,
    pub guess: Vec<Word>,
    pub awaits: Vec<Awaited>,
    pub kept: Vec<KeptWord>,
}

/// A stage: who stands in it, what its statements do in this cycle, and whether its thread moves.
#[derive(Drop)]
pub struct Stage {
    pub slot: ThreadSlot,
    pub deeds: Deeds,
    pub moves: bool,
}
