// What a run begins with.
ghost use Rattle.std.specs.Prelude.{◌≡◌, ◌≤◌, ◌*◌, [], length, replicate, IfOk, vec_capacity, if◌then◌else◌};
ghost use Rattle.pdl_form.specs.FormView.{form};
ghost use Rattle.pdl_seq.specs.Turns.{rooms};

use crate::turn::Turn;
use crate::words::Words;
use pdl_form::FlatPipe;
use pdl_image::Image;
use pdl_kit::NoMemory;
use pdl_word::Word;
use std::alloc::Global;

/// How many writes a thread has at most.
pub const MOST_WRITES: usize = 32;

/// For how many writes a run of so many threads has room: for those of one thread where it streams, and of all where it doesn't.
pub fn room_for(threads: u32, streams: bool) -> usize
    ensures { result ≡ (if streams then 32 else 32 * threads) }
{
    if streams {
        MOST_WRITES
    } else {
        MOST_WRITES * threads as usize
    }
}

// The memories with the words of an image.
fn memories(alloc: Global, image: &Image, count: usize) -> Result<Vec<Words>, NoMemory>
    requires { count ≡ length image.now }
    ensures { IfOk result (λ v. v.items ≡ image.now) }
{
    let mut memories = Vec::new(alloc);
    for m in 0..count {
        memories.push(Words::new(alloc, image.words(m))?)?;
    }
    Ok(memories)
}

// So many zeros.
fn zeros(alloc: Global, count: usize) -> Result<Vec<Word>, NoMemory>
    ensures { IfOk result (λ v. v.items ≡ replicate count 0) }
{
    let mut words = Vec::new(alloc);
    words.resize(count, 0)?;
    Ok(words)
}

// The arguments of the first thread.
fn first_args(alloc: Global, start: &[Word]) -> Result<Vec<Word>, NoMemory>
    ensures items { IfOk result (λ v. v.items ≡ start.now) }
    ensures room { IfOk result (λ v. length start.now ≤ vec_capacity v) }
{
    Ok(Vec::from_slice(alloc, start)?)
}

/// What threads run on, before the first one begins.
pub fn before_all(alloc: Global, pipe: &FlatPipe, image: &Image) -> Result<Turn, NoMemory>
    requires { length image.now ≡ length (form pipe.now).pipe.mems }
    ensures memories { IfOk result (λ t. t.memories.items ≡ image.now) }
    ensures values { IfOk result (λ t. t.values.items ≡ replicate (form pipe.now).pipe.vars 0) }
    ensures next { IfOk result (λ t. t.next.items ≡ (form pipe.now).pipe.start) }
    ensures args { IfOk result (λ t. length (form pipe.now).pipe.start ≤ (rooms t).next) }
    ensures none { IfOk result (λ t. t.commits.items ≡ []) }
    ensures commits { IfOk result (λ t. 32 ≤ (rooms t).commits) }
{
    let memories = memories(alloc, image, pipe.mems().len())?;
    let values = zeros(alloc, pipe.vars())?;
    let next = first_args(alloc, pipe.start())?;
    let commits = Vec::with_capacity(alloc, MOST_WRITES)?;
    Ok(Turn {
        memories,
        values,
        next,
        commits,
    })
}
