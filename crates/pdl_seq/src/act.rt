// What an operation does.
ghost use Rattle.std.specs.Prelude.{◌≡◌, ◌≤◌, ◌<◌, ◌+◌, ◌^◌, ◌∷◌, ◌++◌, [], length, slice_index, slice_set, vec_len, vec_capacity};
ghost use Rattle.pdl_semantics.specs.Flat.{arrays_of, with_word, word_at, value_of as spec_value_of, values_of as spec_values_of};
ghost use Rattle.pdl_semantics.specs.Sequential.{run_after};
ghost use Rattle.pdl_form.specs.View.{expr_view, exprs_view, act_view};
ghost use Rattle.pdl_form_values.specs.Safe.{IsSafe, AreSafe};
ghost use Rattle.pdl_seq.specs.Turns.{run_view, rooms, list_at, shape, IsSafeOp};

use crate::commit::Commit;
use crate::turn::Turn;
use crate::words::Words;
use pdl_form::{FlatExpr, Op};
use pdl_form_values::{value_of, values_of, variable};
use pdl_word::Word;

// A variable is bound to the value of an expression.
fn bind(x: usize, e: &FlatExpr, values: &mut [Word])
    requires there { x < length values.old }
    requires safe { IsSafe (expr_view e.now) values.old }
    ensures { values.new ≡ slice_set values.old x (spec_value_of (expr_view e.now) values.old) }
{
    let value = value_of(e, values);
    values[x] = value;
}

// A variable is bound to a word of a memory.
fn read_word(memories: &[Words], x: usize, m: usize, a: usize, values: &mut [Word])
    requires there { x < length values.old }
    requires memory { m < length memories.now }
    ensures { values.new ≡ slice_set values.old x
        (word_at (arrays_of memories.now) m (slice_index values.old a)) }
{
    let address = variable(values, a);
    let word = memories[m].read(address);
    values[x] = word;
}

// A word of a memory is written.
fn put_word(memories: &mut [Words], m: usize, address: Word, value: Word)
    requires memory { m < length memories.old }
    requires word { address < length (list_at memories.old m) }
    ensures arrays { arrays_of memories.new ≡ with_word (arrays_of memories.old) m address value }
    ensures shape { shape memories.new ≡ shape memories.old }
{
    memories[m].write(address, value);
}

// A write is done, and noted.
fn write(m: usize, a: usize, e: &FlatExpr, turn: &mut Turn)
    requires safe { IsSafe (expr_view e.now) turn.old.values.items }
    requires memory { m < length turn.old.memories.items }
    requires word { slice_index turn.old.values.items a
        < length (list_at turn.old.memories.items m) }
    requires fits { slice_index turn.old.values.items a < 2 ^ 32 }
    requires room { vec_len turn.old.commits + 1 ≤ vec_capacity turn.old.commits }
    ensures run { run_view turn.new
        ≡ record (run_view turn.old) {
          arrays = with_word (arrays_of turn.old.memories.items) m
              (slice_index turn.old.values.items a)
              (spec_value_of (expr_view e.now) turn.old.values.items);
          writes = (run_view turn.old).writes ++ record {
            mem = m;
            address = slice_index turn.old.values.items a;
            value = spec_value_of (expr_view e.now) turn.old.values.items;
          } ∷ [];
        } }
    ensures shape { shape turn.new.memories.items ≡ shape turn.old.memories.items }
    ensures rooms { rooms turn.new ≡ rooms turn.old }
{
    let address = variable(turn.values.as_slice(), a);
    let value = value_of(e, turn.values.as_slice());
    put_word(turn.memories.as_mut_slice(), m, address, value);
    turn.commits.push_reserved(Commit {
        mem: m,
        addr: address as u32,
        value,
    });
}

/// What an operation does: a read, also a delayed one, looks in the array, and a write changes it at once; a call or a verify gives the next thread's arguments; all else does nothing.
pub fn act(op: &Op, turn: &mut Turn)
    requires safe { IsSafeOp turn.old.memories.items (rooms turn.old).next
        (act_view op.now) turn.old.values.items }
    requires room { length (run_after (act_view op.now) (run_view turn.old)).writes
        ≤ (rooms turn.old).commits }
    ensures run { run_view turn.new ≡ run_after (act_view op.now) (run_view turn.old) }
    ensures shape { shape turn.new.memories.items ≡ shape turn.old.memories.items }
    ensures rooms { rooms turn.new ≡ rooms turn.old }
{
    match op {
        Op::Bind { x, e } => bind(*x, e, turn.values.as_mut_slice()),
        Op::CombRead { x, m, a } | Op::DelayedRead { x, m, a } => {
            read_word(
                turn.memories.as_slice(),
                *x,
                *m,
                *a,
                turn.values.as_mut_slice(),
            );
        }
        Op::Write { m, a, e } => write(*m, *a, e, turn),
        Op::Call(args) | Op::Verify { last: true, args } => {
            values_of(args.as_slice(), turn.values.as_slice(), &mut turn.next);
        }
        Op::ReserveRead { .. }
        | Op::ReserveWrite { .. }
        | Op::Block { .. }
        | Op::Release { .. }
        | Op::SpecCall(_)
        | Op::Verify { last: false, .. }
        | Op::SpecCheck
        | Op::SpecBarrier
        | Op::AdviceBind { .. }
        | Op::AdviceRead { .. }
        | Op::AdviceWrite { .. } => {}
    }
}
