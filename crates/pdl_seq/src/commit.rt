// Writes.
use pdl_word::Word;

/// A write that a thread has done: its memory, the address there and the value.
#[derive(Clone, Copy)]
pub struct Commit {
    pub mem: usize,
    pub addr: u32,
    pub value: Word,
}

/// A write of a run: the number of its thread, counted from 1, its memory, counted from 0 in declared order, the address there and the value.
#[derive(Clone, Copy)]
pub struct Write {
    pub thread: u32,
    pub mem: usize,
    pub addr: u32,
    pub value: Word,
}
