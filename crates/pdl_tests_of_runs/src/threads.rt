// What a sequential run tells of its threads.
ghost use Rattle.std.specs.Prelude.{◌≡◌, ◌≤◌};
ghost use Rattle.pdl_syntax_tree.specs.View.{pipe_view};
ghost use Rattle.pdl_image.specs.Images.{IsImage};
ghost use Rattle.pdl_rules.specs.Memories.{infos_of};

use crate::images::{COUNTER, image_of};
use pdl_check::Accepted;
use pdl_check::check::check;
use pdl_image::Image;
use pdl_kit::files::LONGEST_FILE;
use pdl_seq::SeqRun;
use std::alloc::Global;
use std::mem::drop;

// Whether so many writes are told after two threads of the counter, of which the last is the second thread's.
fn tells_two(run: &mut SeqRun<'_>, count: usize) -> bool
    requires first { run.old.run ≡ 0 }
    requires room { 2 ≤ run.old.threads }
{
    run.next_thread();
    run.next_thread();
    let writes = run.writes();
    let is_second = match writes.last() {
        Some(last) => (last.thread, last.mem, last.addr, last.value) == (2, 0, 1, 1),
        None => false,
    };
    is_second & (writes.len() == count)
}

// Whether a run that streams tells the last thread's write alone, and one that keeps them the writes of both.
fn are_told(alloc: Global, accepted: &Accepted, image: &Image) -> bool
    requires { IsImage (infos_of (pipe_view accepted.now.typed.pipe).mems) image.now }
{
    let is_last_told = match SeqRun::streaming(alloc, accepted, image) {
        Ok(mut run) => tells_two(&mut run, 1),
        Err(_) => false,
    };
    let are_both_told = match SeqRun::new(alloc, accepted, image, 2) {
        Ok(mut run) => tells_two(&mut run, 2),
        Err(_) => false,
    };
    is_last_told & are_both_told
}

// The same of a source, if it is taken.
fn are_told_of(alloc: Global, source: &[u8]) -> bool {
    if source.len() > LONGEST_FILE {
        return false;
    }
    match check(alloc, source) {
        Ok(accepted) => {
            let are_told = match image_of(alloc, &accepted, b"image 1\n") {
                Ok(image) => are_told(alloc, &accepted, &image),
                Err(_) => false,
            };
            drop(accepted);
            are_told
        }
        Err(_) => false,
    }
}

#[test]
fn tells_writes(rt: HostRuntime) {
    assert!(rt; are_told_of(rt.alloc(), COUNTER));
}
