// The arrays of the memories, and the registers of their locks.
ghost use Rattle.std.specs.Prelude.{◌≡◌, ℕ, ◌<◌, ◌∷◌, [], Some, None, false, IfOk, OnOk, map, length, slice_index_or};
ghost use Rattle.pdl_semantics.specs.Flat.{is_delayed};
ghost use Rattle.pdl_syntax_tree.specs.View.{mem_kind_view};
ghost use Rattle.pdl_form.specs.FormView.{form};
ghost use Rattle.pdl_form.specs.View.{mem_view};
ghost use Rattle.pdl_form_types.specs.Stmts.{IsTypedMem, AreTypedMems};
ghost use Rattle.pdl_net.specs.Circuit.{shapes_of};
ghost use Rattle.pdl_net.specs.Meaning.{write_signals};
ghost use Rattle.pdl_net.specs.Growth.{ExtendsArrays, Keeps};
ghost use Rattle.pdl_lockapi.specs.Forget.{as_lock};
ghost use Rattle.pdl_pipe_walk.specs.Locked.{members, some_at, AreLocked};
ghost use Rattle.pdl_pipe_locks.specs.Suited.{info_of, arrays_in, shapes_in, AreSuited};
ghost use Rattle.pdl_pipe_locks.specs.Lawful.{AreLawful, AreAbove, AreUnwritten};
ghost use Rattle.pdl_pipe_locks.specs.NewMemories.{IsServed, AreServed, IsNewLock, IsNewMemory};

use pdl_build::Builder;
use pdl_form::{FlatMem, FlatPipe};
use pdl_kit::{MemInfo, NoMemory};
use pdl_lockapi::LockModule;
use pdl_pipe_walk::MemLock;
use std::alloc::Global;

/// A memory as it is told to its lock.
pub fn info(m: &FlatMem) -> Result<MemInfo, NoMemory>
    ensures { IfOk result (λ i. i ≡ info_of m.now.name (mem_view m.now)) }
{
    let name = m.name.clone()?;
    Ok(MemInfo {
        name,
        width: m.width,
        depth: m.depth,
        delayed: m.kind.is_delayed(),
    })
}

// The array of a memory without lock.
fn lay_array(b: &mut Builder, m: &FlatMem) -> Result<(), NoMemory>
    requires typed { IsTypedMem (mem_view m.now) }
    ensures unwritten { OnOk result (write_signals b.new (length b.old.arrays) ≡ []) }
    ensures extends { OnOk result (ExtendsArrays b.old b.new
        (record { name = m.now.name; width = m.now.width; depth = m.now.depth } ∷ [])) }
    ensures keeps { Keeps b.old b.new }
{
    b.array(&m.name, m.width, m.depth)?;
    Ok(())
}

// The registers of a memory's lock, and its array, where it answers at once.
fn lay_lock<L: LockModule + Copy>(
    alloc: Global,
    b: &mut Builder,
    m: &FlatMem,
    lock: &L,
) -> Result<MemLock<L>, NoMemory>
    requires served { IsServed L.suits (members L.LockModule) m.now.name (mem_view m.now) lock.now }
    ensures lock { IfOk result (λ x.
        IsNewLock (members L.LockModule) b.old b.new (mem_view m.now) x) }
    ensures unwritten { is_delayed (mem_kind_view m.now.kind) ≡ false →
        OnOk result (write_signals b.new (length b.old.arrays) ≡ []) }
    ensures extends { OnOk result (ExtendsArrays b.old b.new
        (arrays_in m.now.name (mem_view m.now))) }
    ensures keeps { Keeps b.old b.new }
{
    let info = info(m)?;
    let regs = lock.emit_state(alloc, b, &info)?;
    Ok(MemLock { lock: *lock, regs })
}

// The array of a memory that answers at once, and the lock of one that has one.
fn lay_memory<L: LockModule + Copy>(
    alloc: Global,
    b: &mut Builder,
    m: &FlatMem,
    lock: &Option<L>,
) -> Result<Option<MemLock<L>>, NoMemory>
    requires typed { IsTypedMem (mem_view m.now) }
    requires served { AreServed L.suits (members L.LockModule) m.now.name
        (mem_view m.now) lock.now }
    ensures memory { IfOk result (λ x.
        IsNewMemory (members L.LockModule) b.old b.new (mem_view m.now) x) }
    ensures unwritten { is_delayed (mem_kind_view m.now.kind) ≡ false →
        OnOk result (write_signals b.new (length b.old.arrays) ≡ []) }
    ensures extends { OnOk result (ExtendsArrays b.old b.new
        (arrays_in m.now.name (mem_view m.now))) }
    ensures keeps { Keeps b.old b.new }
{
    match lock {
        None => {
            if !m.kind.is_delayed() {
                lay_array(b, m)?;
            }
            Ok(None)
        }
        Some(l) => {
            let made = lay_lock(alloc, b, m, l)?;
            Ok(Some(made))
        }
    }
}

// The memory of a number.
fn mem_at(mems: &[FlatMem], m: usize) -> &FlatMem
    requires { m < length mems.now }
    ensures { result.now ≡ slice_index_or mems.now m result.now }
{
    &mems[m]
}

// Its lock.
fn lock_at<L>(locks: &[Option<L>], m: usize) -> &Option<L>
    requires { m < length locks.now }
    ensures { result.now ≡ some_at locks.now m }
{
    &locks[m]
}

/// An array for each memory that answers at once, in order, and each lock's registers: the lock of each memory that has one, with its part of the circuit.
///
/// `locks` has for each memory the lock that serves it; the circuit has no array before.
pub fn lay_memories<L: LockModule + Copy>(
    alloc: Global,
    b: &mut Builder,
    pipe: &FlatPipe,
    locks: &[Option<L>],
) -> Result<Vec<Option<MemLock<L>>>, NoMemory>
    requires none { b.old.arrays ≡ [] }
    requires mems { AreTypedMems (form pipe.now).pipe.mems }
    requires suited { AreSuited L.suits (members L.LockModule) (form pipe.now) locks.now }
    ensures locked { IfOk result (λ xs.
        AreLocked (members L.LockModule) b.new (form pipe.now).pipe xs.items) }
    ensures lawful { IfOk result (λ xs.
        AreLawful (members L.LockModule) b.new (form pipe.now).pipe xs.items) }
    ensures above { IfOk result (λ xs. AreAbove b.old (form pipe.now).pipe xs.items) }
    ensures unwritten { OnOk result (AreUnwritten b.new (form pipe.now).pipe) }
    ensures extends { OnOk result (ExtendsArrays b.old b.new
        (shapes_in (form pipe.now).names (form pipe.now).pipe.mems)) }
    ensures keeps { Keeps b.old b.new }
{
    let mut made = Vec::new(alloc);
    let mems = pipe.mems();
    for m in 0..mems.len() {
        let mem = mem_at(mems, m);
        let lock = lock_at(locks, m);
        let one = lay_memory(alloc, b, mem, lock)?;
        made.push(one)?;
    }
    Ok(made)
}
