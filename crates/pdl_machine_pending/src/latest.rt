// What the youngest of older threads' pending writes says of an address, and what the kinds of lock make of it.
ghost use Rattle.std.specs.Prelude.{◌≡◌, ◌&&◌, ◌==◌, nat_lt, if◌then◌else◌, map};
ghost use Rattle.pdl_semantics.specs.Locks as locks;
ghost use Rattle.pdl_semantics.specs.Machine as machine;
ghost use Rattle.pdl_form.specs.View.{lock_view};
ghost use Rattle.pdl_machine_pending.specs.View.{pending_view, latest_view};

use crate::pending::Pending;
use pdl_form::Lock;
use pdl_word::Word;

/// There is none, its value is still to come, or its value.
#[derive(Clone, Copy)]
pub enum Latest {
    Nothing,
    Coming,
    Known(Word),
}

/// What the pending writes of threads older than this one say of an address.
pub fn youngest(pending: &[Pending], thread: u64, address: Word) -> Latest
    ensures { latest_view result ≡ machine.youngest
        (map pending_view pending.now) thread address locks.Nothing }
{
    let mut found = Latest::Nothing;
    for entry in pending {
        found = found_after(entry, thread, address, found);
    }
    found
}

// What is found after one more entry.
fn found_after(entry: &Pending, thread: u64, address: Word, found: Latest) -> Latest
    ensures { latest_view result ≡ (if nat_lt entry.now.thread thread
        && (entry.now.address == address) then locks.as_latest entry.now.value else latest_view
        found) }
{
    if entry.thread < thread && entry.address == address {
        as_latest(entry.value)
    } else {
        found
    }
}

fn as_latest(value: Option<Word>) -> Latest
    ensures { latest_view result ≡ locks.as_latest value }
{
    match value {
        None => Latest::Coming,
        Some(value) => Latest::Known(value),
    }
}

impl Latest {
    /// The value of a read: that of the pending write, or the array's word where none is known.
    pub fn value_or(self, word: Word) -> Word
        ensures { result ≡ locks.value_or (latest_view self) word }
    {
        match self {
            Latest::Nothing | Latest::Coming => word,
            Latest::Known(value) => value,
        }
    }

    // Whether no write is pending.
    fn is_nothing(self) -> bool
        ensures { result ≡ locks.is_nothing (latest_view self) }
    {
        match self {
            Latest::Nothing => true,
            Latest::Coming | Latest::Known(_) => false,
        }
    }

    // Whether a write is pending whose value is still to come.
    fn is_coming(self) -> bool
        ensures { result ≡ locks.is_coming (latest_view self) }
    {
        match self {
            Latest::Coming => true,
            Latest::Nothing | Latest::Known(_) => false,
        }
    }

    /// Whether a read may go on: a queue's waits until no write is pending, the others' until its value is known.
    pub fn lets_read(self, lock: Lock) -> bool
        ensures { result ≡ locks.read_ready (lock_view lock) (latest_view self) }
    {
        match lock {
            Lock::Plain => true,
            Lock::Queue(_) => self.is_nothing(),
            Lock::Bypass(_) | Lock::Rename(_) => !self.is_coming(),
        }
    }

    /// Whether a write may go on: a queue's waits until no write is pending, the others' never.
    pub fn lets_write(self, lock: Lock) -> bool
        ensures { result ≡ locks.write_ready (lock_view lock) (latest_view self) }
    {
        match lock {
            Lock::Queue(_) => self.is_nothing(),
            Lock::Plain | Lock::Bypass(_) | Lock::Rename(_) => true,
        }
    }
}
