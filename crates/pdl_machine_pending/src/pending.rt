// Pending writes of a lock, oldest first, and what threads do to them.
ghost use Rattle.std.specs.Prelude.{◌≡◌, ◌≤◌, ◌+◌, ◌++◌, ◌==◌, if◌then◌else◌, [], ◌∷◌, Some, map, length, vec_len, vec_capacity};
ghost use Rattle.pdl_semantics.specs.Cycle as cycle;
ghost use Rattle.pdl_machine_pending.specs.View.{pending_view, reserved_view, written_view};

use pdl_word::Word;

/// A pending write: the numbers of its thread and of the variable by which that reserved it, its address, and its value or none.
#[derive(Clone, Copy)]
pub struct Pending {
    pub thread: u64,
    pub var: usize,
    pub address: Word,
    pub value: Option<Word>,
}

/// A reservation for writing: the numbers of its memory, of the variable of its address and of the word.
#[derive(Clone, Copy)]
pub struct Reserved {
    pub mem: usize,
    pub var: usize,
    pub address: Word,
}

/// A value that is written through the reservation of a memory by this variable.
#[derive(Clone, Copy)]
pub struct Written {
    pub mem: usize,
    pub var: usize,
    pub value: Word,
}

// Appends an entry where the reservation is of memory m.
fn append_one(pending: &mut Vec<Pending>, m: usize, thread: u64, reserved: Reserved)
    requires { vec_len pending.old + length
        (cycle.new_entries m thread (reserved_view reserved ∷ [])) ≤ vec_capacity pending.old }
    ensures entries { map pending_view pending.new.items
        ≡ map pending_view pending.old.items ++ cycle.new_entries m thread
        (reserved_view reserved ∷ []) }
    ensures capacity { vec_capacity pending.new ≡ vec_capacity pending.old }
{
    if reserved.mem == m {
        pending.push_reserved(Pending {
            thread,
            var: reserved.var,
            address: reserved.address,
            value: None,
        });
    }
}

/// Appends an entry for each of a thread's reservations of memory m.
pub fn append(pending: &mut Vec<Pending>, m: usize, thread: u64, reserves: &[Reserved])
    requires { vec_len pending.old + length
        (cycle.new_entries m thread (map reserved_view reserves.now)) ≤ vec_capacity pending.old }
    ensures entries { map pending_view pending.new.items
        ≡ map pending_view pending.old.items ++ cycle.new_entries m thread
        (map reserved_view reserves.now) }
    ensures capacity { vec_capacity pending.new ≡ vec_capacity pending.old }
{
    for reserved in reserves {
        append_one(pending, m, thread, *reserved);
    }
}

// The entry, with the value where it is the thread's, reserved by this variable.
fn with_value(entry: Pending, thread: u64, var: usize, value: Word) -> Pending
    ensures { pending_view result ∷ []
        ≡ cycle.with_value_of thread var value (pending_view entry ∷ []) }
{
    if entry.thread == thread && entry.var == var {
        Pending {
            thread: entry.thread,
            var: entry.var,
            address: entry.address,
            value: Some(value),
        }
    } else {
        entry
    }
}

// Puts a value into the entries of a thread that this variable reserved.
fn put_value(pending: &mut [Pending], thread: u64, var: usize, value: Word)
    ensures { map pending_view pending.new
        ≡ cycle.with_value_of thread var value (map pending_view pending.old) }
{
    for i in 0..pending.len() {
        let entry = with_value(pending[i], thread, var, value);
        pending[i] = entry;
    }
}

// The same where the write is to memory m.
fn fill_one(pending: &mut [Pending], m: usize, thread: u64, written: Written)
    ensures { map pending_view pending.new
        ≡ (if written.mem == m then cycle.with_value_of thread written.var written.value
        (map pending_view pending.old) else map pending_view pending.old) }
{
    if written.mem == m {
        put_value(pending, thread, written.var, written.value);
    }
}

/// Puts the values that a thread writes to memory m into its entries.
pub fn fill(pending: &mut [Pending], m: usize, thread: u64, writes: &[Written])
    ensures { map pending_view pending.new
        ≡ cycle.with_writes_of m thread (map written_view writes.now)
        (map pending_view pending.old) }
{
    for written in writes {
        fill_one(pending, m, thread, *written);
    }
}

/// Drops the entries of threads younger than this one.
pub fn drop_younger(pending: &mut Vec<Pending>, thread: u64)
    ensures entries { map pending_view pending.new.items
        ≡ cycle.entries_left (Some thread) (map pending_view pending.old.items) }
    ensures capacity { vec_capacity pending.new ≡ vec_capacity pending.old }
{
    pending.retain(|entry| entry.thread <= thread);
}
