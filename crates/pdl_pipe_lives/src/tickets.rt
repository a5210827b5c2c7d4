// Which threads keep the ticket of a lock.
ghost use Rattle.std.specs.Prelude.{◌≡◌, ◌<◌, length};
ghost use Rattle.pdl_semantics.specs.Flat.{has_lock as locks};
ghost use Rattle.pdl_form.specs.FormView.{form};
ghost use Rattle.pdl_form.specs.View.{lock_view};
ghost use Rattle.pdl_law_parts.specs.Walk.{is_locked};
ghost use Rattle.pdl_pipe_lives.specs.Needs.{goes_with};

use pdl_form::{FlatPipe, Lock};

// Whether a memory's lock is one.
fn is_lock(lock: Lock) -> bool
    ensures { result ≡ locks (lock_view lock) }
{
    !matches!(lock, Lock::Plain)
}

/// Whether a memory has a lock.
pub fn has_lock(pipe: &FlatPipe, mem: usize) -> bool
    requires { mem < length (form pipe.now).pipe.mems }
    ensures { result ≡ is_locked (form pipe.now).pipe mem }
{
    let m = &pipe.mems()[mem];
    is_lock(m.lock)
}

/// Whether a thread keeps its ticket of a memory's lock in a stage: after that of the reserves, up to that of the releases.
pub fn keeps_ticket(pipe: &FlatPipe, stage: usize, mem: usize) -> bool
    requires mem { mem < length (form pipe.now).pipe.mems }
    requires reserves { length (form pipe.now).pipe.reserves_at ≡ length (form pipe.now).pipe.mems }
    requires releases { length (form pipe.now).pipe.releases_at ≡ length (form pipe.now).pipe.mems }
    ensures { result ≡ goes_with (form pipe.now).pipe stage mem }
{
    let from = pipe.reserved(mem).unwrap_or(0);
    let to = pipe.released(mem).unwrap_or(pipe.stages().len());
    has_lock(pipe, mem) && from < stage && stage <= to
}
