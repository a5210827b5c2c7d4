// A cycle over words of any width.

ghost use Rattle.std.specs.Prelude.{◌≡◌, ◌+◌, ◌≤◌, All, length, map, slice_index};
ghost use Rattle.pdl_word.specs.Words.{widest};
ghost use Rattle.pdl_netrun.specs.Held.{PlanFits, after_plan, lists_of, put_at};
ghost use Rattle.pdl_netrun.specs.Steps.{AreBelow, WriteFits, after_all, after_write, array_words};

use crate::cycle_plan::CyclePlan;
use crate::held::WordLists;
use crate::wide_walk::walk_runs;
use crate::writes::PlannedWrite;
use pdl_word::Word;

/// Runs one cycle by a plan, with these values of the inputs.
pub fn step(plan: &CyclePlan, inputs: &[Word], lists: &mut WordLists<Word>)
    requires { PlanFits widest plan.now inputs.now (lists_of lists.old) }
    ensures { lists_of lists.new ≡ after_plan plan.now inputs.now (lists_of lists.old) }
{
    put_words(inputs, 0, &mut lists.values);
    put_words(&lists.next, plan.first_reg, &mut lists.values);
    walk_runs(
        &plan.runs,
        plan.first_cell,
        &lists.arrays,
        &mut lists.values,
    );
    read_places(&plan.nexts, &lists.values, &mut lists.next);
    write_words(&plan.writes, &lists.values, &mut lists.arrays);
}

/// Puts words into a list, from a place on.
fn put_words(words: &[Word], at: usize, values: &mut [Word])
    requires { at + length words.now ≤ length values.old }
    ensures { values.new ≡ put_at at values.old words.now }
{
    values[at..at + words.len()].copy_from_slice(words);
}

/// The values at these places.
#[tactic(auto, using(crate::proofs::Steps::reads))]
fn read_places(places: &[u32], values: &[Word], out: &mut [Word])
    requires there { AreBelow (length values.now) places.now }
    requires room { length out.old ≡ length places.now }
    ensures { out.new ≡ map (slice_index values.now) places.now }
{
    for k in 0..out.len() {
        out[k] = values[places[k] as usize];
    }
}

/// Does what a write port is told.
#[tactic(auto, using(crate::proofs::Words::written))]
fn write_word(port: PlannedWrite, values: &[Word], arrays: &mut [Vec<Word>])
    requires { WriteFits port values.now (array_words arrays.old) }
    ensures { array_words arrays.new ≡ after_write port values.now (array_words arrays.old) }
{
    if values[port.enable as usize] == 1 {
        let at = values[port.addr as usize];
        let value = values[port.value as usize];
        let words = &mut arrays[port.array];
        words[at as usize] = value;
    }
}

/// Does what all write ports are told, the later port of an array last.
#[tactic(auto, using(crate::proofs::Steps::writes))]
fn write_words(ports: &[PlannedWrite], values: &[Word], arrays: &mut [Vec<Word>])
    requires { All (λ p. WriteFits p values.now (array_words arrays.old)) ports.now }
    ensures { array_words arrays.new ≡ after_all ports.now values.now (array_words arrays.old) }
{
    for port in ports {
        write_word(*port, values, arrays);
    }
}
