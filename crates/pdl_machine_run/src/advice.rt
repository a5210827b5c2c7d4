// Advised variables, and writes of advisory memories.
ghost use Rattle.std.specs.Prelude.{◌≡◌, ◌≤◌, ◌∷◌, [], ◌++◌, ℕ, suc, map, length, slice_index, vec_capacity};
ghost use Rattle.pdl_semantics.specs.Flat.{value_of as spec_value_of};
ghost use Rattle.pdl_semantics.specs.Machine.{all_values, with_advised};
ghost use Rattle.pdl_form.specs.View.{expr_view};
ghost use Rattle.pdl_form_values.specs.Safe.{IsSafe};
ghost use Rattle.pdl_machine_run.specs.View.{advised_view, deeds_view};
ghost use Rattle.pdl_machine_run.specs.Room.{capacities, HasRoomFor};
ghost use Rattle.pdl_machine_run.specs.StageDeeds.{word_of};
ghost use Rattle.pdl_machine_run.specs.Acts.{mover_of, act_of, acts_of};
ghost use Rattle.pdl_machine_run.specs.Advice.{after_write, after_writes, after_all_writes};

use crate::deeds::{Advised, Deeds};
use crate::stage::{KeptWord, Stage};
use crate::step::mover;
use crate::words::read;
use pdl_form::FlatExpr;
use pdl_form_values::{value_of, variable};
use pdl_machine_pending::Memory;

/// An advised variable is bound to the value of an expression.
pub fn bind_advice(x: usize, e: &FlatExpr, deeds: &mut Deeds)
    requires safe { IsSafe (expr_view e.now) (all_values (deeds_view deeds.old)) }
    requires whole { length deeds.old.values.items ≤ vec_capacity deeds.old.whole }
    requires room { HasRoomFor 1 deeds.old }
    ensures deeds { deeds_view deeds.new
        ≡ with_advised x (spec_value_of (expr_view e.now) (all_values (deeds_view deeds.old)))
        (deeds_view deeds.old) }
    ensures capacities { capacities deeds.new ≡ capacities deeds.old }
    ensures room { (n : ℕ) → HasRoomFor (suc n) deeds.old → HasRoomFor n deeds.new }
{
    deeds.lay_over();
    let word = value_of(e, deeds.whole.as_slice());
    deeds.advice.push_reserved(KeptWord { var: x, word });
}

/// An advised variable is bound to the word that a read of an advisory memory finds.
pub fn read_advice(
    memories: &[Memory],
    thread: u64,
    x: usize,
    m: usize,
    a: usize,
    deeds: &mut Deeds,
)
    requires whole { length deeds.old.values.items ≤ vec_capacity deeds.old.whole }
    requires room { HasRoomFor 1 deeds.old }
    ensures deeds { deeds_view deeds.new
        ≡ with_advised x
        (word_of memories.now thread m (slice_index (all_values (deeds_view deeds.old)) a))
        (deeds_view deeds.old) }
    ensures capacities { capacities deeds.new ≡ capacities deeds.old }
    ensures room { (n : ℕ) → HasRoomFor (suc n) deeds.old → HasRoomFor n deeds.new }
{
    deeds.lay_over();
    let address = variable(deeds.whole.as_slice(), a);
    let word = read(memories, thread, m, address);
    deeds.advice.push_reserved(KeptWord { var: x, word });
}

/// An advisory memory is written when the thread moves.
pub fn write_advice(m: usize, a: usize, e: &FlatExpr, deeds: &mut Deeds)
    requires safe { IsSafe (expr_view e.now) (all_values (deeds_view deeds.old)) }
    requires whole { length deeds.old.values.items ≤ vec_capacity deeds.old.whole }
    requires room { HasRoomFor 1 deeds.old }
    ensures deeds { deeds_view deeds.new
        ≡ record (deeds_view deeds.old) {
          advises = (deeds_view deeds.old).advises ++ record {
            mem = m;
            address = slice_index (all_values (deeds_view deeds.old)) a;
            value = spec_value_of (expr_view e.now) (all_values (deeds_view deeds.old));
          } ∷ [];
        } }
    ensures capacities { capacities deeds.new ≡ capacities deeds.old }
    ensures room { (n : ℕ) → HasRoomFor (suc n) deeds.old → HasRoomFor n deeds.new }
{
    deeds.lay_over();
    let address = variable(deeds.whole.as_slice(), a);
    let value = value_of(e, deeds.whole.as_slice());
    deeds.advises.push_reserved(Advised {
        mem: m,
        address,
        value,
    });
}

// A write of an advisory memory is made, where there is such a word.
fn make_write(memories: &mut [Memory], write: Advised)
    ensures { memories.new ≡ after_write (advised_view write) memories.old }
{
    let m = write.mem;
    if m < memories.len() {
        memories[m].set_word(write.address, write.value);
    }
}

// Writes are made one after the other.
fn make_writes(memories: &mut [Memory], writes: &[Advised])
    ensures { memories.new ≡ after_writes (map advised_view writes.now) memories.old }
{
    for write in writes {
        make_write(memories, *write);
    }
}

// The thread that moves out of a stage, if one does, makes its writes of advisory memories.
fn make_stage_writes(memories: &mut [Memory], stage: &Stage)
    ensures { (k : ℕ) → memories.new
        ≡ after_all_writes (act_of k (mover_of stage.now) stage.now) memories.old }
{
    if mover(stage).is_some() {
        make_writes(memories, stage.deeds.advises.as_slice());
    }
}

/// The threads that move make their writes of advisory memories, that of the last stage first.
pub fn make_all_writes(memories: &mut [Memory], stages: &[Stage])
    ensures { memories.new ≡ after_all_writes (acts_of 0 stages.now) memories.old }
{
    let mut k = stages.len();
    while k > 0 {
        k -= 1;
        make_stage_writes(memories, &stages[k]);
    }
}
