// How a thread begins, and how its writes are told in the end.
ghost use Rattle.std.specs.Prelude.{◌≡◌, ◌≤◌, ◌+◌, ◌++◌, [], map, length, vec_len, vec_capacity, if◌then◌else◌};
ghost use Rattle.pdl_form.specs.Form.{Form};
ghost use Rattle.pdl_seq.specs.Turns.{begun_run, run_view, commits_view, rooms};
ghost use Rattle.pdl_seq.specs.Fits.{IsFit};
ghost use Rattle.pdl_seq.specs.Runs.{IsRunnable, numbered_write};

use crate::commit::{Commit, Write};
use crate::turn::Turn;
use pdl_form_values::fill;

/// The next thread begins: it has its arguments, and has done nothing yet.
pub fn begin(turn: &mut Turn)
    requires { length turn.old.next.items ≤ length turn.old.values.items }
    // It begins so in each pipe in which its words, values and arguments have their widths.
    ensures run { (f : Form) → IsRunnable f → IsFit f turn.old →
        run_view turn.new ≡ begun_run f.pipe turn.old }
    ensures fit { (f : Form) → IsRunnable f → IsFit f turn.old → IsFit f turn.new }
    ensures rooms { rooms turn.new ≡ rooms turn.old }
{
    fill(turn.values.as_mut_slice(), turn.next.as_slice());
    turn.next.clear();
    turn.commits.clear();
}

/// Where a run streams, the writes that it has told are forgotten.
pub fn forget(streams: bool, writes: &mut Vec<Write>)
    ensures writes { writes.new.items ≡ (if streams then [] else writes.old.items) }
    ensures count { vec_len writes.new ≡ (if streams then 0 else vec_len writes.old) }
    ensures room { vec_capacity writes.new ≡ vec_capacity writes.old }
{
    if streams {
        writes.clear();
    }
}

/// The writes of a thread of this number are told after those of earlier ones.
pub fn tell(thread: u32, commits: &[Commit], writes: &mut Vec<Write>)
    requires room { vec_len writes.old + length commits.now ≤ vec_capacity writes.old }
    ensures writes { writes.new.items
        ≡ writes.old.items ++ map (numbered_write thread) (commits_view commits.now) }
    ensures count { vec_len writes.new ≡ vec_len writes.old + length commits.now }
    ensures room { vec_capacity writes.new ≡ vec_capacity writes.old }
{
    for commit in commits {
        writes.push_reserved(Write {
            thread,
            mem: commit.mem,
            addr: commit.addr,
            value: commit.value,
        });
    }
}
