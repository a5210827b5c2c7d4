// The locks that the memories of a pipe ask for.
ghost use Rattle.std.specs.Prelude.{◌≡◌, IfOk};
ghost use Rattle.pdl_form.specs.FormView.{form};
ghost use Rattle.pdl_form.specs.View.{lock_view};
ghost use Rattle.pdl_form_types.specs.Stmts.{AreTypedMems};
ghost use Rattle.pdl_lock_any.specs.declared.AnyLock.{AnyLock};
ghost use Rattle.pdl_pipe_walk.specs.Locked.{members};
ghost use Rattle.pdl_pipe_locks.specs.Suited.{AreSuited};
ghost use Rattle.pdl_lock_any.specs.AskedLock.{lock_asked};
ghost use Rattle.pdl_lock_kinds.specs.AskedLocks.{locks_asked, AreInTime, AreSizedLocks};

use pdl_bypass::BypassLock;
use pdl_form::{FlatPipe, Lock};
use pdl_kit::NoMemory;
use pdl_lock_any::AnyLock;
use pdl_lockapi::LockModule;
use pdl_queue::QueueLock;
use pdl_rename::RenameFile;
use std::alloc::Global;

// The module of a memory's lock.
fn lock_of(lock: Lock) -> Option<AnyLock>
    ensures { result ≡ lock_asked (lock_view lock) }
{
    match lock {
        Lock::Plain => None,
        Lock::Queue(size) => Some(AnyLock::Queue(QueueLock { size })),
        Lock::Bypass(size) => Some(AnyLock::Bypass(BypassLock { size })),
        Lock::Rename(size) => Some(AnyLock::Rename(RenameFile { size })),
    }
}

/// The locks of the memories, in declared order.
pub fn locks_of(alloc: Global, pipe: &FlatPipe) -> Result<Vec<Option<AnyLock>>, NoMemory>
    requires mems { AreTypedMems (form pipe.now).pipe.mems }
    requires in_time { AreInTime (form pipe.now).pipe.mems }
    requires sizes { AreSizedLocks (form pipe.now).pipe.mems }
    ensures asked { IfOk result (λ ls. ls.items ≡ locks_asked (form pipe.now).pipe.mems) }
    ensures suited { IfOk result (λ ls.
        AreSuited ⟦<AnyLock as LockModule>⟧.suits (members ⟦<AnyLock as LockModule>⟧)
        (form pipe.now) ls.items) }
{
    let mut locks = Vec::new(alloc);
    let mems = pipe.mems();
    for m in mems {
        locks.push(lock_of(m.lock))?;
    }
    Ok(locks)
}
