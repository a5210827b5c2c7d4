// A lock as one would write it by hand: tickets that only grow, and a list of the pending writes.
use crate::locks::board::{number, put};
use pdl_kit::NoMemory;
use std::alloc::Global;

/// A pending write; its ticket is that of the oldest one and its place in the list together.
#[derive(Clone, Copy)]
pub struct ModelPending {
    pub addr: u64,
    pub value: Option<u64>,
}

/// A write through a ticket.
#[derive(Clone, Copy)]
pub struct ModelWrite {
    pub ticket: u64,
    pub value: u64,
}

/// What a cycle does: up to two reservations, writes and releases, and a squash from a ticket on.
#[derive(Clone, Copy)]
pub struct ModelAct {
    pub reserve: Option<u64>,
    pub reserve2: Option<u64>,
    pub write: Option<ModelWrite>,
    pub write2: Option<ModelWrite>,
    pub release: bool,
    pub release2: bool,
    pub tail: Option<u64>,
}

/// A committed write.
#[derive(Clone, Copy)]
pub struct ModelCommit {
    pub addr: u64,
    pub value: u64,
}

/// What a read finds: whether it is ready, and the word.
#[derive(Clone, Copy)]
pub struct ModelFound {
    pub ready: bool,
    pub word: u64,
}

#[derive(Drop)]
pub struct ModelLock {
    /// Whether reads see pending values.
    sees_pending: bool,
    size: usize,
    /// The ticket of the oldest pending write, or of the next one.
    base: u64,
    pending: Vec<ModelPending>,
    words: Vec<u64>,
}

impl ModelLock {
    /// A lock of so many writes over the words of an image, where reads see pending values or wait for them.
    pub fn new(
        alloc: Global,
        sees_pending: bool,
        size: u8,
        image: &[u64],
    ) -> Result<ModelLock, NoMemory> {
        Ok(ModelLock {
            sees_pending,
            size: size as usize,
            base: 0,
            pending: Vec::new(alloc),
            words: Vec::from_slice(alloc, image)?,
        })
    }

    /// Whether one more write may be pending.
    pub fn has_room(&self) -> bool {
        self.pending.len() < self.size
    }

    /// Whether two more may be pending.
    pub fn has_room2(&self) -> bool {
        self.pending.len().wrapping_add(1) < self.size
    }

    /// How many slots there are.
    pub fn size(&self) -> u64 {
        self.size as u64
    }

    /// The pending writes, the oldest first.
    pub fn pending(&self) -> &[ModelPending] {
        self.pending.as_slice()
    }

    /// How many writes are pending.
    pub fn count(&self) -> u64 {
        self.pending.len() as u64
    }

    /// The ticket of the oldest pending write, or of the next one.
    pub fn base(&self) -> u64 {
        self.base
    }

    /// The ticket of the next reservation.
    pub fn next(&self) -> u64 {
        self.base.wrapping_add(self.count())
    }

    /// Whether the pending write at a place in the list has its value.
    pub fn is_done(&self, at: usize) -> bool {
        match self.pending.get(at) {
            Some(p) => p.value.is_some(),
            None => false,
        }
    }

    /// What a read finds in a pending write.
    fn seen(&self, value: Option<u64>) -> ModelFound {
        let word = value.unwrap_or(0);
        let ready = self.sees_pending & value.is_some();
        ModelFound { ready, word }
    }

    /// What a read at an address finds among the writes below a ticket.
    pub fn find(&self, addr: u64, ticket: u64) -> ModelFound {
        let word = number(self.words.as_slice(), addr as usize);
        let mut found = ModelFound { ready: true, word };
        let mut at = self.base;
        for p in self.pending.as_slice() {
            if at < ticket && p.addr == addr {
                found = self.seen(p.value);
            }
            at = at.wrapping_add(1);
        }
        found
    }

    /// Whether a write at an address may go.
    pub fn may_write(&self, addr: u64, ticket: u64) -> bool {
        self.sees_pending | self.find(addr, ticket).ready
    }

    /// Puts the value of a pending write.
    fn put(&mut self, ticket: u64, value: u64) {
        let at = ticket.wrapping_sub(self.base) as usize;
        if let Some(p) = self.pending.get_mut(at) {
            p.value = Some(value);
        }
    }

    /// Appends a pending write; where memory runs out the lock falls behind the circuit.
    fn reserve(&mut self, addr: Option<u64>) {
        if let Some(addr) = addr {
            let _ = self.pending.push(ModelPending { addr, value: None });
        }
    }

    fn write(&mut self, write: Option<ModelWrite>) {
        if let Some(w) = write {
            self.put(w.ticket, w.value);
        }
    }

    /// Appends and writes.
    pub fn fill(&mut self, act: ModelAct) {
        self.reserve(act.reserve);
        self.reserve(act.reserve2);
        self.write(act.write);
        self.write(act.write2);
    }

    /// Takes the oldest pending write out, into the memory.
    fn release(&mut self) -> Option<ModelCommit> {
        if self.pending.is_empty() {
            return None;
        }
        let oldest = self.pending.remove(0);
        self.base = self.base.wrapping_add(1);
        let value = oldest.value.unwrap_or(0);
        put(self.words.as_mut_slice(), oldest.addr as usize, value);
        Some(ModelCommit {
            addr: oldest.addr,
            value,
        })
    }

    /// Releases and squashes; answers what is committed.
    pub fn leave(&mut self, act: ModelAct) -> (Option<ModelCommit>, Option<ModelCommit>) {
        let first = if act.release { self.release() } else { None };
        let second = if act.release2 { self.release() } else { None };
        if let Some(tail) = act.tail {
            self.pending.truncate(tail.wrapping_sub(self.base) as usize);
        }
        (first, second)
    }
}
