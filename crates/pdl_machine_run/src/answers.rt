// Answers of delayed memories.
ghost use Rattle.std.specs.Prelude.{◌≡◌, ◌≤◌, ◌+◌, ◌++◌, take, map, count_by, length, vec_len, vec_capacity};
ghost use Rattle.pdl_semantics.specs.Flat as flat;
ghost use Rattle.pdl_semantics.specs.Stages as stages;
ghost use Rattle.pdl_semantics.specs.Machine as machine;
ghost use Rattle.pdl_form.specs.View.{mems_view};
ghost use Rattle.pdl_form.specs.FormView.{form};
ghost use Rattle.pdl_machine_run.specs.View.{awaited_view, kept_view, thread_of};
ghost use Rattle.pdl_machine_run.specs.Outside.{outside};

use crate::beside::{Beside, Request, request_of};
use crate::stage::{Awaited, KeptWord, ThreadSlot};
use crate::words::word;
use pdl_form::{FlatMem, FlatPipe};
use pdl_word::Word;

// The first n of these, or all where there are fewer.
fn front(mems: &[FlatMem], n: usize) -> &[FlatMem]
    ensures { mems_view result.now ≡ take n (mems_view mems.now) }
{
    if n < mems.len() { &mems[..n] } else { mems }
}

// How many of these are delayed.
fn delayed_count(mems: &[FlatMem]) -> usize
    ensures value { result ≡ count_by (λ (x : flat.Mem). flat.is_delayed x.kind) (mems_view mems.now) }
    ensures most { result ≤ length mems.now }
{
    let mut count = 0;
    for mem in mems {
        if mem.kind.is_delayed() {
            count += 1;
        }
    }
    count
}

/// Whether a memory is answered in a cycle with these replies, one for each delayed memory.
pub fn is_answered(pipe: &FlatPipe, replies: &[bool], m: usize) -> bool
    ensures { result ≡ machine.is_answered (form pipe.now).pipe replies.now m }
{
    let place = delayed_count(front(pipe.mems(), m));
    match replies.get(place) {
        None => false,
        Some(reply) => *reply,
    }
}

// The answer that a thread's request of memory m has in this cycle.
fn answer(pipe: &FlatPipe, beside: &Beside, replies: &[bool], thread: u64, m: usize) -> Option<Word>
    ensures { result ≡ machine.answer_for (form pipe.now).pipe (outside beside.now) replies.now
        thread m }
{
    match request_of(beside, m) {
        Request::Owned { owner, address } => {
            if is_answered(pipe, replies, m) && owner == thread {
                Some(word(beside.memories.as_slice(), m, address))
            } else {
                None
            }
        }
        Request::NoRequest | Request::Orphan { .. } => None,
    }
}

// Keeps this cycle's answers to the reads that a thread awaits.
fn keep_answers(
    pipe: &FlatPipe,
    beside: &Beside,
    replies: &[bool],
    thread: u64,
    awaits: &[Awaited],
    kept: &mut Vec<KeptWord>,
)
    requires { vec_len kept.old + length awaits.now ≤ vec_capacity kept.old }
    ensures kept { map kept_view kept.new.items
        ≡ map kept_view kept.old.items ++ machine.answered_reads (form pipe.now).pipe
        (outside beside.now) replies.now thread (map awaited_view awaits.now) }
    ensures capacity { vec_capacity kept.new ≡ vec_capacity kept.old }
{
    for read in awaits {
        if let Some(word) = answer(pipe, beside, replies, thread, read.mem) {
            kept.push_reserved(KeptWord {
                var: read.var,
                word,
            });
        }
    }
}

// Drops the reads that are answered in this cycle.
fn drop_answered(
    pipe: &FlatPipe,
    beside: &Beside,
    replies: &[bool],
    thread: u64,
    awaits: &mut Vec<Awaited>,
)
    ensures awaits { map awaited_view awaits.new.items
        ≡ machine.unanswered_reads (form pipe.now).pipe (outside beside.now) replies.now thread
        (map awaited_view awaits.old.items) }
    ensures capacity { vec_capacity awaits.new ≡ vec_capacity awaits.old }
{
    awaits.retain(|read| answer(pipe, beside, replies, thread, read.mem).is_none());
}

/// Gives a thread this cycle's answers.
pub fn give_answers(
    pipe: &FlatPipe,
    beside: &Beside,
    replies: &[bool],
    thread: u64,
    slot: &mut ThreadSlot,
)
    requires { vec_len slot.old.kept + vec_len slot.old.awaits ≤ vec_capacity slot.old.kept }
    ensures thread { thread_of thread slot.new
        ≡ machine.with_answers (form pipe.now).pipe (outside beside.now) replies.now
        (thread_of thread slot.old) }
    ensures number { slot.new.number ≡ slot.old.number }
    ensures values { slot.new.values ≡ slot.old.values }
    ensures advice { slot.new.advice ≡ slot.old.advice }
    ensures guess { slot.new.guess ≡ slot.old.guess }
    ensures awaits { vec_capacity slot.new.awaits ≡ vec_capacity slot.old.awaits }
    ensures kept { vec_capacity slot.new.kept ≡ vec_capacity slot.old.kept }
{
    let awaits = slot.awaits.as_slice();
    keep_answers(pipe, beside, replies, thread, awaits, &mut slot.kept);
    drop_answered(pipe, beside, replies, thread, &mut slot.awaits);
}
