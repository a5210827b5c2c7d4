// What the threads that move do to the memories.
ghost use Rattle.std.specs.Prelude.{◌≡◌, ◌≤◌, ◌<◌, ◌+◌, ◌*◌, ◌++◌, [], ◌∷◌, ℕ, length, take, drop, vec_len, vec_capacity};
ghost use Rattle.pdl_semantics.specs.Cycle as stated;
ghost use Rattle.pdl_machine_facts.specs.Ports.{commit_values, shown_values};
ghost use Rattle.pdl_machine_pending.specs.View.{entry_view};
ghost use Rattle.pdl_machine_pending.specs.Memory.{oldest, all_committed_to, AreWithin};
ghost use Rattle.pdl_machine_run.specs.Acts.{mover_of, act_of, acts_of, out_of, left_of, memory_after, memories_after, commits_shown, entries_of, given_by, taken_view};
ghost use Rattle.pdl_machine_run.specs.Ready.{CanStep, AllCanStep};

use crate::stage::Stage;
use pdl_machine_pending::{Memory, Pending};
use pdl_word::Word;

/// The number of the thread that moves out of a stage, if one does.
pub fn mover(stage: &Stage) -> Option<u64>
    ensures { result ≡ mover_of stage.now }
{
    if stage.moves { stage.slot.number } else { None }
}

// The thread that moves out of a stage, if one does, makes its reservations of memory m.
fn reserve_stage(memory: &mut Memory, m: usize, stage: &Stage)
    requires { (k : ℕ) → length (stated.with_reserves m
        (act_of k (mover_of stage.now) stage.now) memory.old.pending) ≤ memory.old.capacity }
    ensures { (k : ℕ) → memory.new ≡ record memory.old {
      pending = stated.with_reserves m
          (act_of k (mover_of stage.now) stage.now) memory.old.pending;
    } }
{
    if let Some(thread) = mover(stage) {
        memory.reserve(m, thread, stage.deeds.reserves.as_slice());
    }
}

// Those of all stages do, the last one first.
fn reserve_all(memory: &mut Memory, m: usize, stages: &[Stage])
    requires room { length (stated.with_reserves m (acts_of 0 stages.now) memory.old.pending)
        ≤ memory.old.capacity }
    ensures { memory.new ≡ record memory.old
        { pending = stated.with_reserves m (acts_of 0 stages.now) memory.old.pending } }
{
    let mut k = stages.len();
    while k > 0 {
        k -= 1;
        reserve_stage(memory, m, &stages[k]);
    }
}

// The thread that moves out of a stage, if one does, makes its writes to memory m.
fn write_stage(memory: &mut Memory, m: usize, stage: &Stage)
    ensures { (k : ℕ) → memory.new ≡ record memory.old {
      pending = stated.with_all_writes m (act_of k (mover_of stage.now) stage.now)
          memory.old.pending;
    } }
{
    if let Some(thread) = mover(stage) {
        memory.write(m, thread, stage.deeds.writes.as_slice());
    }
}

// Those of all stages do, the last one first.
fn write_all(memory: &mut Memory, m: usize, stages: &[Stage])
    ensures { memory.new ≡ record memory.old
        { pending = stated.with_all_writes m (acts_of 0 stages.now) memory.old.pending } }
{
    let mut k = stages.len();
    while k > 0 {
        k -= 1;
        write_stage(memory, m, &stages[k]);
    }
}

// How many of these numbers are m.
fn releases_of(m: usize, numbers: &[usize]) -> usize
    ensures value { result ≡ stated.releases_of m numbers.now }
    ensures few { result ≤ length numbers.now }
{
    let mut count = 0;
    for number in numbers {
        if *number == m {
            count += 1;
        }
    }
    count
}

// How many write reservations of memory m the thread releases that moves out of a stage, if one does.
fn stage_releases(m: usize, stage: &Stage) -> usize
    ensures { (k : ℕ) → result ≡ stated.all_releases m (act_of k (mover_of stage.now) stage.now) }
{
    match mover(stage) {
        None => 0,
        Some(_) => releases_of(m, stage.deeds.releases.as_slice()),
    }
}

// How many those of all stages release, where they are at most two.
fn releases(m: usize, stages: &[Stage]) -> usize
    requires { stated.all_releases m (acts_of 0 stages.now) ≤ 2 }
    ensures { result ≡ stated.all_releases m (acts_of 0 stages.now) }
{
    let mut count = 0;
    let mut k = stages.len();
    while k > 0 {
        k -= 1;
        count += stage_releases(m, &stages[k]);
    }
    count
}

// The pending writes of a memory that are released in a cycle, the older one first.
#[derive(Clone, Copy)]
enum Taken {
    Nothing,
    One(Pending),
    Two(Pending, Pending),
}

impl Taken {
    // The older one, if there is one.
    fn first(self) -> Option<Pending>
        ensures { entry_view result ≡ oldest (taken_view self) }
    {
        match self {
            Taken::Nothing => None,
            Taken::One(entry) | Taken::Two(entry, _) => Some(entry),
        }
    }

    // The younger one, if there are two.
    fn second(self) -> Option<Pending>
        ensures { entry_view result ≡ oldest (drop 1 (taken_view self)) }
    {
        match self {
            Taken::Nothing | Taken::One(_) => None,
            Taken::Two(_, entry) => Some(entry),
        }
    }
}

// What two releases gave, one after the other: where the first gave nothing, the second did neither.
fn taken_by(first: Option<Pending>, second: Option<Pending>) -> Taken
    ensures { taken_view result ≡ given_by (entry_view first) (entry_view second) }
{
    match (first, second) {
        (None, _) => Taken::Nothing,
        (Some(first), None) => Taken::One(first),
        (Some(first), Some(second)) => Taken::Two(first, second),
    }
}

// The oldest pending write of a memory is released.
fn take_one(memory: &mut Memory) -> Taken
    requires within { AreWithin (length memory.old.words) memory.old.pending }
    ensures memory { memory.new ≡ record memory.old {
      words = all_committed_to memory.old.words (take 1 memory.old.pending);
      pending = drop 1 memory.old.pending;
    } }
    ensures result { taken_view result ≡ take 1 memory.old.pending }
{
    let first = memory.release();
    taken_by(first, None)
}

// The two oldest pending writes of a memory are released.
fn take_two(memory: &mut Memory) -> Taken
    requires within { AreWithin (length memory.old.words) memory.old.pending }
    ensures memory { memory.new ≡ record memory.old {
      words = all_committed_to memory.old.words (take 2 memory.old.pending);
      pending = drop 2 memory.old.pending;
    } }
    ensures result { taken_view result ≡ take 2 memory.old.pending }
{
    let first = memory.release();
    let second = memory.release();
    taken_by(first, second)
}

// So many of the oldest pending writes of a memory are released, at most two.
fn take_out(memory: &mut Memory, count: usize) -> Taken
    requires few { count ≤ 2 }
    requires within { AreWithin (length memory.old.words) memory.old.pending }
    ensures memory { memory.new ≡ record memory.old {
      words = all_committed_to memory.old.words (take count memory.old.pending);
      pending = drop count memory.old.pending;
    } }
    ensures result { taken_view result ≡ take count memory.old.pending }
{
    if count == 0 {
        Taken::Nothing
    } else if count == 1 {
        take_one(memory)
    } else {
        take_two(memory)
    }
}

// The pending writes that the threads that move release of memory m, after their reservations and writes.
fn commit(memory: &mut Memory, m: usize, stages: &[Stage]) -> Taken
    requires { CanStep m (acts_of 0 stages.now) memory.old }
    ensures memory { memory.new ≡ record memory.old {
      words = all_committed_to memory.old.words
          (out_of m (acts_of 0 stages.now) memory.old.pending);
      pending = left_of m (acts_of 0 stages.now) memory.old.pending;
    } }
    ensures result { taken_view result ≡ out_of m (acts_of 0 stages.now) memory.old.pending }
{
    reserve_all(memory, m, stages);
    write_all(memory, m, stages);
    let count = releases(m, stages);
    take_out(memory, count)
}

// What the threads that move, of which one may squash, do to memory m; the pending writes that are released.
#[tactic(auto, using(pdl_semantics::proofs::Facts::none_leaves))]
fn step_memory(memory: &mut Memory, m: usize, stages: &[Stage], squasher: Option<u64>) -> Taken
    requires { CanStep m (acts_of 0 stages.now) memory.old }
    ensures memory { memory.new ≡ memory_after m (acts_of 0 stages.now) squasher memory.old }
    ensures result { taken_view result ≡ out_of m (acts_of 0 stages.now) memory.old.pending }
{
    let taken = commit(memory, m, stages);
    if let Some(thread) = squasher {
        memory.squash(thread);
    }
    taken
}

// Shows three values.
fn show_three(a: Word, b: Word, c: Word, shown: &mut Vec<Word>)
    requires room { vec_len shown.old + 3 ≤ vec_capacity shown.old }
    ensures shown { shown.new.items ≡ shown.old.items ++ a ∷ b ∷ c ∷ [] }
    ensures capacity { vec_capacity shown.new ≡ vec_capacity shown.old }
{
    shown.push_reserved(a);
    shown.push_reserved(b);
    shown.push_reserved(c);
}

// Shows a pending write that is released, if one is: whether there is one, its address and its value.
fn show_one(entry: Option<Pending>, shown: &mut Vec<Word>)
    requires room { vec_len shown.old + 3 ≤ vec_capacity shown.old }
    ensures shown { shown.new.items
        ≡ shown.old.items ++ shown_values (stated.port_writes (entries_of (entry_view entry))) }
    ensures capacity { vec_capacity shown.new ≡ vec_capacity shown.old }
{
    match entry {
        None => show_three(0, 0, 0, shown),
        Some(entry) => show_three(1, entry.address, entry.value.unwrap_or(0), shown),
    }
}

// Shows the commits of a memory with a lock, of the second one where the memory is reserved twice.
#[tactic(auto, using(crate::proofs::TakenOut::first_shown, crate::proofs::TakenOut::second_shown))]
fn show_commits(memory: &Memory, twice: bool, taken: Taken, shown: &mut Vec<Word>)
    requires room { vec_len shown.old + 6 ≤ vec_capacity shown.old }
    ensures shown { shown.new.items ≡ shown.old.items
        ++ commit_values memory.now.lock twice (stated.port_writes (taken_view taken)) }
    ensures more { vec_len shown.new ≤ vec_len shown.old + 6 }
    ensures capacity { vec_capacity shown.new ≡ vec_capacity shown.old }
{
    if memory.is_locked() {
        show_one(taken.first(), shown);
        if twice {
            show_one(taken.second(), shown);
        }
    }
}

/// What the threads that move, of which one may squash, do to the memories, whose commits are shown.
///
/// Of each memory it is told whether a path reserves it twice, which then shows two.
pub fn step_memories(
    memories: &mut [Memory],
    twice: &[bool],
    stages: &[Stage],
    squasher: Option<u64>,
    shown: &mut Vec<Word>,
)
    requires step { AllCanStep 0 (acts_of 0 stages.now) memories.old }
    requires told { length twice.now ≡ length memories.old }
    requires room { vec_len shown.old + 6 * length memories.old ≤ vec_capacity shown.old }
    ensures memories { memories.new
        ≡ memories_after 0 (acts_of 0 stages.now) squasher memories.old }
    ensures shown { shown.new.items
        ≡ shown.old.items ++ commits_shown twice.now 0 (acts_of 0 stages.now) memories.old }
    ensures capacity { vec_capacity shown.new ≡ vec_capacity shown.old }
{
    for m in 0..memories.len() {
        let memory = &mut memories[m];
        let taken = step_memory(memory, m, stages, squasher);
        show_commits(memory, twice[m], taken, shown);
    }
}
