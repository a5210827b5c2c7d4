// The delayed memories outside the netlist: what they answer in a cycle, and what a cycle does to them.

ghost use Rattle.std.specs.Prelude.{◌≡◌, ◌≤◌, ◌+◌, ◌*◌, ◌++◌, length, map, slice_index, vec_len, vec_capacity};
ghost use Rattle.pdl_net.specs.Run.{answer, answers, committed_words, is_waiting, outstanding, reply, some_waits, value_at};
ghost use Rattle.pdl_netrun.specs.Outside.{commit_at, request_at, store_after, store_of, stores_after, stores_of};
ghost use Rattle.pdl_netrun.specs.Held.{held_lists};
ghost use Rattle.pdl_netrun.specs.Steps.{AreBelow};

use crate::held::HeldWords;
use crate::places::{CommitPlaces, MemoryPlaces, RequestPlaces};
use pdl_word::{Word, word_at};

/// A delayed memory: its words, the address of the outstanding request, and the places of its ports among the outputs.
#[derive(Drop)]
pub struct Outside {
    pub words: Vec<Word>,
    pub request: Option<Word>,
    pub commits: MemoryPlaces,
    pub requests: RequestPlaces,
}

/// The reply bit of the first of some delayed memories.
fn is_reply(bits: u16) -> bool
    ensures { result ≡ reply bits }
{
    bits % 2 == 1
}

/// Whether a request is outstanding and isn't answered.
fn waits(memory: &Outside, answered: bool) -> bool
    ensures { result ≡ is_waiting memory.now.request answered }
{
    memory.request.is_some() && !answered
}

/// Adds the inputs of a delayed memory: 1 and the word that it is asked for, where it answers, else zeros.
fn push_answer(inputs: &mut Vec<Word>, memory: &Outside, answered: bool)
    requires room { vec_len inputs.old + 2 ≤ vec_capacity inputs.old }
    ensures inputs { inputs.new.items
        ≡ inputs.old.items ++ answer memory.now.words.items memory.now.request answered }
    ensures capacity { vec_capacity inputs.new ≡ vec_capacity inputs.old }
{
    match memory.request {
        Some(address) if answered => {
            inputs.push_reserved(1);
            inputs.push_reserved(word_at(&memory.words, address));
        }
        _ => {
            inputs.push_reserved(0);
            inputs.push_reserved(0);
        }
    }
}

#[tactic(auto, using(crate::proofs::Environment::answered_none, crate::proofs::Environment::answered_more, crate::proofs::Environment::answered_all, crate::proofs::Environment::waiting_more, crate::proofs::Environment::waiting_all))]
/// The inputs of all delayed memories in a cycle with these reply bits, and whether some request waits.
pub fn answer_all(inputs: &mut Vec<Word>, memories: &[Outside], replies: u16) -> bool
    requires room { 2 * length memories.now ≤ vec_capacity inputs.old }
    ensures inputs { inputs.new.items ≡ answers (stores_of memories.now) replies }
    ensures waits { result ≡ some_waits (stores_of memories.now) replies }
    ensures capacity { vec_capacity inputs.new ≡ vec_capacity inputs.old }
{
    inputs.clear();
    let mut bits = replies;
    let mut waiting = false;
    for memory in memories {
        push_answer(inputs, memory, is_reply(bits));
        waiting = waiting || waits(memory, is_reply(bits));
        bits /= 2;
    }
    waiting
}

/// The value of an output, 0 where there is none.
fn value_of(drivers: &[u32], held: &HeldWords, place: Option<usize>) -> Word
    requires there { AreBelow (length (held_lists held.now).values) drivers.now }
    ensures { result ≡ value_at (map (slice_index (held_lists held.now).values) drivers.now) place }
{
    match place {
        Some(i) if i < drivers.len() => held.value(drivers[i]),
        _ => 0,
    }
}

/// Writes what the ports at these places commit, if they do.
fn commit_word(words: &mut [Word], places: CommitPlaces, drivers: &[u32], held: &HeldWords)
    requires there { AreBelow (length (held_lists held.now).values) drivers.now }
    ensures { words.new ≡ committed_words words.old
        (commit_at (map (slice_index (held_lists held.now).values) drivers.now) places) }
{
    if value_of(drivers, held, places.commit) == 1 {
        let address = value_of(drivers, held, places.addr);
        let value = value_of(drivers, held, places.value);
        if address < words.len() as Word {
            words[address as usize] = value;
        }
    }
}

/// The address that a memory is asked for, if it is.
fn request_of(places: RequestPlaces, drivers: &[u32], held: &HeldWords) -> Option<Word>
    requires there { AreBelow (length (held_lists held.now).values) drivers.now }
    ensures { result ≡ request_at (map (slice_index (held_lists held.now).values) drivers.now) places }
{
    if value_of(drivers, held, places.request) == 1 {
        Some(value_of(drivers, held, places.addr))
    } else {
        None
    }
}

/// The request that is outstanding after a cycle with this new one, if there is one.
fn next_request(old: Option<Word>, answered: bool, new: Option<Word>) -> Option<Word>
    ensures { result ≡ outstanding old answered new }
{
    match new {
        Some(address) => Some(address),
        None if answered => None,
        None => old,
    }
}

/// Does to a delayed memory what a cycle does that shows the outputs at these places.
fn step_memory(memory: &mut Outside, answered: bool, drivers: &[u32], held: &HeldWords)
    requires there { AreBelow (length (held_lists held.now).values) drivers.now }
    ensures store { store_of memory.new
        ≡ store_after (map (slice_index (held_lists held.now).values) drivers.now) answered memory.old }
    ensures commits { memory.new.commits ≡ memory.old.commits }
    ensures requests { memory.new.requests ≡ memory.old.requests }
{
    commit_word(&mut memory.words, memory.commits.first, drivers, held);
    commit_word(&mut memory.words, memory.commits.second, drivers, held);
    let asked = request_of(memory.requests, drivers, held);
    memory.request = next_request(memory.request, answered, asked);
}

#[tactic(auto, using(crate::proofs::Environment::stepped_none, crate::proofs::Environment::stepped_more, crate::proofs::Environment::stepped_all))]
/// The same of all of them, by the reply bits of the cycle.
pub fn step_all(memories: &mut [Outside], replies: u16, drivers: &[u32], held: &HeldWords)
    requires there { AreBelow (length (held_lists held.now).values) drivers.now }
    ensures stores { stores_of memories.new
        ≡ stores_after (map (slice_index (held_lists held.now).values) drivers.now) memories.old replies }
    ensures commits { map (λ m. m.commits) memories.new ≡ map (λ m. m.commits) memories.old }
    ensures requests { map (λ m. m.requests) memories.new ≡ map (λ m. m.requests) memories.old }
{
    let mut bits = replies;
    for k in 0..memories.len() {
        step_memory(&mut memories[k], is_reply(bits), drivers, held);
        bits /= 2;
    }
}
