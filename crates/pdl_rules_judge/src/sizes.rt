// Widths, depths, and locks with their sizes.
ghost use Rattle.std.specs.Prelude.{◌≡◌};
ghost use Rattle.pdl_syntax_tree.specs.View.{lock_kind_view, lock_view, mem_view};
ghost use Rattle.pdl_rules.specs.Limits as spec;
ghost use Rattle.pdl_rules.specs.Parts.{is_some_and};

use pdl_syntax_tree::{LockDecl, LockKind, Mem};
use pdl_word::WIDEST;

/// Whether a value or a word may have as many bits.
pub fn is_width(width: u64) -> bool
    ensures { result ≡ spec.is_width width }
{
    1 <= width && width <= u64::from(WIDEST)
}

/// Whether a memory has a wrong width, depth or lock.
pub fn is_wrong_memory(mem: &Mem) -> bool
    ensures { result ≡ spec.is_wrong_memory (mem_view mem.now) }
{
    !(is_width(mem.width.value) && is_depth(mem.depth.value)) || has_wrong_lock(mem)
}

// The depths that a memory may have.
const DEPTHS: [u64; 16] = [
    2, 4, 8, 16, 32, 64, 128, 256, 512, 1024, 2048, 4096, 8192, 16384, 32768, 65536,
];

fn is_depth(depth: u64) -> bool
    ensures { result ≡ spec.is_depth depth }
{
    DEPTHS.iter().any(|n| *n == depth)
}

fn has_wrong_lock(mem: &Mem) -> bool
    ensures { result ≡ is_some_and (spec.is_wrong_lock (mem_view mem.now)) (mem_view mem.now).lock }
{
    match &mem.lock {
        Some(lock) => is_wrong_lock(mem, lock),
        None => false,
    }
}

fn is_wrong_lock(mem: &Mem, lock: &LockDecl) -> bool
    ensures { result ≡ spec.is_wrong_lock (mem_view mem.now) (lock_view lock.now) }
{
    mem.kind.is_advisory()
        || !(is_size(lock.size.value)
            && allows_lock(
                mem.depth.value,
                mem.kind.is_delayed(),
                lock.kind,
                lock.size.value,
            ))
}

// How many writes may be pending.
const SIZES: [u64; 5] = [1, 2, 4, 8, 16];

fn is_size(size: u64) -> bool
    ensures { result ≡ spec.is_size size }
{
    SIZES.iter().any(|n| *n == size)
}

// Whether a memory that isn't advisory can have the lock.
fn allows_lock(depth: u64, delayed: bool, kind: LockKind, size: u64) -> bool
    ensures { result ≡ spec.allows_lock depth delayed (lock_kind_view kind) size }
{
    match kind {
        LockKind::Queue => true,
        LockKind::Bypass => !delayed,
        LockKind::Rename => !delayed && (depth <= 64 && size <= depth),
    }
}
