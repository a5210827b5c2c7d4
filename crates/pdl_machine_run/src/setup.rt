// What a machine begins with.
ghost use Rattle.std.specs.Prelude.{◌≡◌, ◌≤◌, ◌<◌, ◌+◌, ◌*◌, ℕ, [], None, Some, length, replicate, map, slice_index_or, vec_capacity, IfOk};
ghost use Rattle.pdl_semantics.specs.Stages.{mem_at};
ghost use Rattle.pdl_semantics.specs.Machine as machine;
ghost use Rattle.pdl_semantics.specs.Cycle.{born_thread};
ghost use Rattle.pdl_form.specs.View.{lock_view, mem_view, mems_view};
ghost use Rattle.pdl_form.specs.FormView.{form};
ghost use Rattle.pdl_form_types.specs.Stmts.{IsTypedForm};
ghost use Rattle.pdl_machine_run.specs.View.{thread_in, seats, request_view, order_views};
ghost use Rattle.pdl_machine_run.specs.Room.{capacities, IsLarge};
ghost use Rattle.pdl_machine_run.specs.StageDeeds.{memory_at};
ghost use Rattle.pdl_machine_run.specs.Ready.{IsWide, IsStage, AreStages, AreOrders};
ghost use Rattle.pdl_lockapi.specs.Sizes.{size_of};
ghost use Rattle.pdl_machine_run.specs.Running.{AreImages, IsFirst, IsBeside};
ghost use Rattle.pdl_machine_run.specs.Firsts.{seats_first, IsFirstBeside};
ghost use Rattle.pdl_semantics.specs.SecondWrites as writes;
ghost use Rattle.pdl_machine_run.specs.Outputs.{memory_count, all_memory_count, output_count};

use crate::beside::{Beside, Order, Request};
use crate::deeds::Deeds;
use crate::moves::begin;
use crate::stage::{Stage, ThreadSlot};
use pdl_form::{FlatMem, FlatPipe, Lock};
use pdl_form_values::all_twice;
use pdl_image::Image;
use pdl_kit::NoMemory;
use pdl_machine_pending::Memory;
use pdl_word::Word;
use std::alloc::Global;

/// So many zeros, with room for more.
pub fn zeros(alloc: Global, count: usize, room: usize) -> Result<Vec<Word>, NoMemory>
    ensures items { IfOk result (λ v. v.items ≡ replicate count 0) }
    ensures room { IfOk result (λ v. room ≤ vec_capacity v) }
{
    let mut words = Vec::with_capacity(alloc, room)?;
    while words.len() < count {
        words.push(0)?;
    }
    Ok(words)
}

// How many writes may be pending.
fn size(lock: Lock) -> usize
    ensures value { result ≡ size_of (lock_view lock) }
    ensures few { result ≤ 255 }
{
    match lock {
        Lock::Plain => 0,
        Lock::Queue(size) | Lock::Bypass(size) | Lock::Rename(size) => usize::from(size),
    }
}

// A memory with these words, and room for what may be pending and two reservations more.
fn memory(alloc: Global, words: &[Word], lock: Lock) -> Result<Memory, NoMemory>
    ensures { IfOk result (λ x. IsFirst (lock_view lock) words.now x) }
{
    Memory::new(alloc, words, lock, size(lock) + 2)
}

/// The memories with the words of an image.
pub fn memories(alloc: Global, pipe: &FlatPipe, image: &Image) -> Result<Vec<Memory>, NoMemory>
    requires { length image.now ≡ length (form pipe.now).pipe.mems }
    ensures count { IfOk result (λ v. length v.items ≡ length (form pipe.now).pipe.mems) }
    ensures each { IfOk result (λ v. (m : ℕ) → m < length (form pipe.now).pipe.mems →
        IsFirst (mem_at (form pipe.now).pipe m).lock (slice_index_or image.now m [])
        (memory_at v.items m)) }
{
    let mut memories = Vec::new(alloc);
    let mems = pipe.mems();
    for m in 0..mems.len() {
        memories.push(memory(alloc, image.words(m), mems[m].lock)?)?;
    }
    Ok(memories)
}

/// A place with room for a thread, without one.
pub fn slot(alloc: Global, pipe: &FlatPipe) -> Result<ThreadSlot, NoMemory>
    ensures empty { IfOk result (λ s. s.number ≡ None) }
    ensures wide { IfOk result (λ s. IsWide (form pipe.now) s) }
{
    let vars = pipe.vars();
    let count = pipe.stmts().len();
    Ok(ThreadSlot {
        number: None,
        values: zeros(alloc, vars, vars)?,
        advice: Vec::with_capacity(alloc, 2 * count)?,
        guess: Vec::with_capacity(alloc, pipe.start().len())?,
        awaits: Vec::with_capacity(alloc, count)?,
        kept: Vec::with_capacity(alloc, count)?,
    })
}

// Room for the deeds of a stage.
fn deeds(alloc: Global, pipe: &FlatPipe) -> Result<Deeds, NoMemory>
    ensures count { IfOk result (λ r. length r.values.items ≡ length (form pipe.now).widths) }
    ensures large { IfOk result (λ r.
        IsLarge (length (form pipe.now).pipe.stmts) (length (form pipe.now).pipe.start)
        (length (form pipe.now).widths) (capacities r)) }
{
    let vars = pipe.vars();
    let args = pipe.start().len();
    let count = pipe.stmts().len();
    Ok(Deeds {
        values: zeros(alloc, vars, vars)?,
        advice: Vec::with_capacity(alloc, 2 * count)?,
        guess: Vec::with_capacity(alloc, args)?,
        held: Vec::with_capacity(alloc, 2 * count)?,
        blocks: Vec::with_capacity(alloc, count)?,
        reserves: Vec::with_capacity(alloc, count)?,
        writes: Vec::with_capacity(alloc, count)?,
        releases: Vec::with_capacity(alloc, count)?,
        asks: Vec::with_capacity(alloc, count)?,
        advises: Vec::with_capacity(alloc, count)?,
        barrier: false,
        called: false,
        args: Vec::with_capacity(alloc, args)?,
        fails: false,
        verified: Vec::with_capacity(alloc, args)?,
        whole: Vec::with_capacity(alloc, vars)?,
    })
}

// A stage without a thread.
fn stage(alloc: Global, pipe: &FlatPipe) -> Result<Stage, NoMemory>
    ensures empty { IfOk result (λ x. x.slot.number ≡ None) }
    ensures wide { IfOk result (λ x. IsStage (form pipe.now) x) }
{
    Ok(Stage {
        slot: slot(alloc, pipe)?,
        deeds: deeds(alloc, pipe)?,
        moves: false,
    })
}

// The first stage, in which thread 1 stands.
fn first_stage(alloc: Global, pipe: &FlatPipe) -> Result<Stage, NoMemory>
    requires vars { (form pipe.now).pipe.vars ≡ length (form pipe.now).widths }
    requires few { length (form pipe.now).pipe.start ≤ length (form pipe.now).widths }
    ensures stands { IfOk result (λ x.
        thread_in x.slot ≡ born_thread (form pipe.now).pipe 1 (Some (form pipe.now).pipe.start)) }
    ensures wide { IfOk result (λ x. IsStage (form pipe.now) x) }
{
    let mut first = stage(alloc, pipe)?;
    begin(&mut first.slot, 1, pipe.start());
    Ok(first)
}

/// Stages of which the first holds thread 1.
pub fn first_stages(alloc: Global, pipe: &FlatPipe) -> Result<Vec<Stage>, NoMemory>
    requires some { 1 ≤ length (form pipe.now).pipe.stages }
    requires vars { (form pipe.now).pipe.vars ≡ length (form pipe.now).widths }
    requires few { length (form pipe.now).pipe.start ≤ length (form pipe.now).widths }
    ensures seats { IfOk result (λ v.
        seats v.items ≡ seats_first (form pipe.now).pipe (length (form pipe.now).pipe.stages)) }
    ensures wide { IfOk result (λ v. AreStages (form pipe.now) v.items) }
{
    let count = pipe.stages().len();
    let mut stages = Vec::new(alloc);
    stages.push(first_stage(alloc, pipe)?)?;
    while stages.len() < count {
        stages.push(stage(alloc, pipe)?)?;
    }
    Ok(stages)
}

/// No requests of so many memories.
pub fn no_requests(alloc: Global, count: usize) -> Result<Vec<Request>, NoMemory>
    ensures { IfOk result (λ v. map request_view v.items ≡ replicate count machine.NoRequest) }
{
    let mut requests = Vec::new(alloc);
    while requests.len() < count {
        requests.push(Request::NoRequest)?;
    }
    Ok(requests)
}

/// Empty orders of so many forks, with room for as many branches.
pub fn no_orders(alloc: Global, count: usize) -> Result<Vec<Order>, NoMemory>
    ensures empty { IfOk result (λ v. order_views v.items ≡ replicate count []) }
    ensures room { IfOk result (λ v. AreOrders count v.items) }
{
    let mut orders = Vec::new(alloc);
    while orders.len() < count {
        let branches = Vec::with_capacity(alloc, count)?;
        orders.push(Order { branches })?;
    }
    Ok(orders)
}

/// What stands beside the stages at first: memories with the words of an image, no requests, and nobody inside a fork.
pub fn first_beside(alloc: Global, pipe: &FlatPipe, image: &Image) -> Result<Beside, NoMemory>
    requires { length image.now ≡ length (form pipe.now).pipe.mems }
    ensures { IfOk result (IsFirstBeside (form pipe.now).pipe image.now) }
{
    let memories = memories(alloc, pipe, image)?;
    let twice = all_twice(alloc, pipe)?;
    let requests = no_requests(alloc, pipe.mems().len())?;
    let orders = no_orders(alloc, pipe.stages().len())?;
    Ok(Beside {
        memories,
        twice,
        requests,
        orders,
    })
}

// How many outputs show a memory: its commits where it has a lock, twice where a path reserves it twice, and its requests where it is delayed.
fn memory_output(mem: &FlatMem, twice: bool) -> usize
    ensures value { result ≡ memory_count twice (mem_view mem.now) }
    ensures most { result ≤ 8 }
{
    let commits = match mem.lock {
        Lock::Plain => 0,
        Lock::Queue(_) | Lock::Bypass(_) | Lock::Rename(_) => { if twice { 6 } else { 3 } }
    };
    if mem.kind.is_delayed() {
        commits + 2
    } else {
        commits
    }
}

// How many outputs show memories, of each of which it is told whether a path reserves it twice.
fn memory_outputs(mems: &[FlatMem], twice: &[bool]) -> usize
    requires { length twice.now ≡ length mems.now }
    ensures value { result ≡ all_memory_count twice.now (mems_view mems.now) }
    ensures most { result ≤ 8 * length mems.now }
{
    let mut count = 0;
    for m in 0..mems.len() {
        count += memory_output(&mems[m], twice[m]);
    }
    count
}

/// How many outputs there are, where it is told of each memory whether a path reserves it twice.
pub fn outputs(pipe: &FlatPipe, twice: &[bool]) -> usize
    requires { twice.now ≡ writes.all_twice (form pipe.now).pipe.stmts 0 (form pipe.now).pipe.mems }
    ensures { result ≡ output_count (form pipe.now).pipe }
{
    2 * pipe.stages().len() + memory_outputs(pipe.mems(), twice) + 2
}
