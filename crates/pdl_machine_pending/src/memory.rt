// A memory as it runs.
ghost use Rattle.std.specs.Prelude.{◌≡◌, ◌≤◌, ◌<◌, ◌+◌, ◌++◌, [], Some, drop, if◌then◌else◌, length, map, slice_index, slice_set, IfOk, IfSome};
ghost use Rattle.pdl_semantics.specs.Locks as locks;
ghost use Rattle.pdl_semantics.specs.Machine as machine;
ghost use Rattle.pdl_semantics.specs.Cycle as cycle;
ghost use Rattle.pdl_form.specs.View.{lock_view};
ghost use Rattle.pdl_machine_pending.specs.View.{latest_view, entry_view, reserved_view, written_view};
ghost use Rattle.pdl_semantics.specs.Flat.{has_lock};
ghost use Rattle.pdl_machine_pending.specs.Memory.{oldest, committed_to};

use crate::latest::{Latest, youngest};
use crate::pending::{Pending, Reserved, Written, append, drop_younger, fill};
use pdl_form::Lock;
use pdl_kit::NoMemory;
use pdl_word::{Word, word_at};
use std::alloc::Global;
use std::marker::Model;

/// A memory: its words by their addresses, its lock, and the pending writes, oldest first.
#[derive(Drop)]
pub struct Memory {
    words: Vec<Word>,
    lock: Lock,
    pending: Vec<Pending>,
}

impl Model for Memory {
    ghost use Rattle.std.specs.Prelude.{map, vec_capacity};
    ghost use Rattle.pdl_form.specs.View.{lock_view};
    ghost use Rattle.pdl_machine_pending.specs.View.{pending_view};
    ghost use Rattle.pdl_machine_pending.specs.Memory.{Memory};

    ghost Value = { Memory };

    ghost view = { λ x. record {
      words = x.words.items;
      lock = lock_view x.lock;
      pending = map pending_view x.pending.items;
      capacity = vec_capacity x.pending;
    } };
}

impl Memory {
    /// A memory with these words and nothing pending, which has room for so many pending writes.
    pub fn new(alloc: Global, words: &[Word], lock: Lock, room: usize) -> Result<Memory, NoMemory>
        ensures words { IfOk result (λ x. x.words ≡ words.now) }
        ensures lock { IfOk result (λ x. x.lock ≡ lock_view lock) }
        ensures pending { IfOk result (λ x. x.pending ≡ []) }
        ensures room { IfOk result (λ x. room ≤ x.capacity) }
    {
        Ok(Memory {
            words: Vec::from_slice(alloc, words)?,
            lock,
            pending: Vec::with_capacity(alloc, room)?,
        })
    }

    // What the pending writes of older threads say of an address.
    fn older_write(&self, thread: u64, address: Word) -> Latest
        ensures { latest_view result ≡ machine.youngest self.now.pending thread address
            locks.Nothing }
    {
        youngest(self.pending.as_slice(), thread, address)
    }

    /// The array's word, 0 past its end.
    pub fn word(&self, address: Word) -> Word
        ensures { result ≡ slice_index self.now.words address }
    {
        word_at(self.words.as_slice(), address)
    }

    /// The word that a thread's read of an address finds.
    pub fn read(&self, thread: u64, address: Word) -> Word
        ensures { result ≡ locks.value_or
            (machine.youngest self.now.pending thread address locks.Nothing)
            (slice_index self.now.words address) }
    {
        let found = self.older_write(thread, address);
        found.value_or(self.word(address))
    }

    /// Whether a thread's block on an address is ready: of a location that is reserved for writing, or else for reading.
    pub fn is_ready(&self, thread: u64, address: Word, writes: bool) -> bool
        ensures { result ≡ (if writes then locks.write_ready self.now.lock
            (machine.youngest self.now.pending thread address locks.Nothing) else locks.read_ready
            self.now.lock (machine.youngest self.now.pending thread address locks.Nothing)) }
    {
        let found = self.older_write(thread, address);
        if writes {
            found.lets_write(self.lock)
        } else {
            found.lets_read(self.lock)
        }
    }

    /// Whether there is room for so many more pending writes.
    pub fn has_room(&self, more: usize) -> bool
        ensures { result ≡ locks.has_room self.now.lock more (length self.now.pending) }
    {
        match self.lock {
            Lock::Plain => true,
            Lock::Queue(size) | Lock::Bypass(size) | Lock::Rename(size) => {
                let size = usize::from(size);
                more <= size && self.pending.len() <= size - more
            }
        }
    }

    /// Whether writes of the memory are pending at all, so that a port shows them.
    pub fn is_locked(&self) -> bool
        ensures { result ≡ has_lock self.now.lock }
    {
        match self.lock {
            Lock::Plain => false,
            Lock::Queue(_) | Lock::Bypass(_) | Lock::Rename(_) => true,
        }
    }

    /// Appends a pending write for each of a thread's reservations of this memory, which has the number m.
    pub fn reserve(&mut self, m: usize, thread: u64, reserves: &[Reserved])
        requires { length self.old.pending + length
            (cycle.new_entries m thread (map reserved_view reserves.now)) ≤ self.old.capacity }
        ensures { self.new ≡ record self.old {
          pending = self.old.pending ++ cycle.new_entries m thread
              (map reserved_view reserves.now);
        } }
    {
        append(&mut self.pending, m, thread, reserves);
    }

    /// Puts the values that a thread writes to this memory, which has the number m, into its pending writes.
    pub fn write(&mut self, m: usize, thread: u64, writes: &[Written])
        ensures { self.new ≡ record self.old {
          pending = cycle.with_writes_of m thread (map written_view writes.now)
              self.old.pending;
        } }
    {
        fill(self.pending.as_mut_slice(), m, thread, writes);
    }

    /// Takes the oldest pending write out and puts its value into the array, 0 where it has none.
    pub fn release(&mut self) -> Option<Pending>
        requires { IfSome (oldest self.old.pending) (λ e. e.address < length self.old.words) }
        ensures result { entry_view result ≡ oldest self.old.pending }
        ensures memory { self.new ≡ record self.old {
          words = committed_to self.old.words (oldest self.old.pending);
          pending = drop 1 self.old.pending;
        } }
    {
        if self.pending.is_empty() {
            return None;
        }
        let entry = self.pending.remove(0);
        self.words[entry.address as usize] = entry.value.unwrap_or(0);
        Some(entry)
    }

    /// Sets the array's word at an address, where there is one, as an advisory write does.
    pub fn set_word(&mut self, address: Word, word: Word)
        ensures { self.new ≡ record self.old
            { words = slice_set self.old.words address word } }
    {
        if address < self.words.len() as Word {
            self.words[address as usize] = word;
        }
    }

    /// Drops the pending writes of threads younger than this one, as its squash does.
    pub fn squash(&mut self, thread: u64)
        ensures { self.new ≡ record self.old
            { pending = cycle.entries_left (Some thread) self.old.pending } }
    {
        drop_younger(&mut self.pending, thread);
    }
}
