// A cycle over words of 64 bits.

ghost use Rattle.std.specs.Prelude.{◌≡◌, ◌+◌, ◌≤◌, length, map, slice_index, take};
ghost use Rattle.pdl_netrun.specs.Held.{AreSmall, PlanFits, after_plan, lists_of, put_at};
ghost use Rattle.pdl_netrun.specs.Steps.{AreBelow};

use crate::cycle_plan::CyclePlan;
use crate::held::WordLists;
use crate::walk::walk_runs;
use crate::writes::write_words;
use pdl_word::Word;

/// Runs one cycle by a plan, with these values of the inputs.
pub fn step(plan: &CyclePlan, inputs: &[Word], lists: &mut WordLists<u64>)
    requires { PlanFits 64 plan.now inputs.now (lists_of lists.old) }
    ensures { lists_of lists.new ≡ after_plan plan.now inputs.now (lists_of lists.old) }
{
    put_inputs(inputs, &mut lists.values);
    put_words(&lists.next, plan.first_reg, &mut lists.values);
    walk_runs(
        &plan.runs,
        plan.first_cell,
        &lists.arrays,
        &mut lists.values,
    );
    read_places(&plan.nexts, &lists.values, &mut lists.next);
    write_words(&plan.writes, &lists.values, &mut lists.arrays);
}

/// Puts words of no more than 64 bits into the front of a list.
#[tactic(auto, using(crate::proofs::Fronts::fronts))]
fn put_inputs(inputs: &[Word], values: &mut [u64])
    requires small { AreSmall 64 inputs.now }
    requires room { 0 + length inputs.now ≤ length values.old }
    ensures { values.new ≡ put_at 0 values.old inputs.now }
{
    for k in 0..inputs.len() {
        values[k] = inputs[k] as u64;
    }
}

/// Puts words into a list, from a place on.
fn put_words(words: &[u64], at: usize, values: &mut [u64])
    requires { at + length words.now ≤ length values.old }
    ensures { values.new ≡ put_at at values.old words.now }
{
    values[at..at + words.len()].copy_from_slice(words);
}

/// Reads the value at the k-th of these places, where those before it are read.
#[inline(always)]
#[tactic(auto, using(crate::proofs::Steps::reads))]
fn read_one(places: &[u32], k: usize, values: &[u64], out: &mut [u64])
    requires there { AreBelow (length values.now) places.now }
    requires room { length out.old ≡ length places.now }
    requires within { k + 1 ≤ length places.now }
    requires before { take k out.old ≡ map (slice_index values.now) (take k places.now) }
    ensures done { take (k + 1) out.new ≡ map (slice_index values.now) (take (k + 1) places.now) }
    ensures room { length out.new ≡ length out.old }
{
    out[k] = values[places[k] as usize];
}

/// Reads two values from the k-th place on.
#[inline(always)]
fn read_two(places: &[u32], k: usize, values: &[u64], out: &mut [u64])
    requires there { AreBelow (length values.now) places.now }
    requires room { length out.old ≡ length places.now }
    requires within { k + 2 ≤ length places.now }
    requires before { take k out.old ≡ map (slice_index values.now) (take k places.now) }
    ensures done { take (k + 2) out.new ≡ map (slice_index values.now) (take (k + 2) places.now) }
    ensures room { length out.new ≡ length out.old }
{
    read_one(places, k, values, out);
    read_one(places, k + 1, values, out);
}

/// Reads four values from the k-th place on.
#[inline(always)]
fn read_four(places: &[u32], k: usize, values: &[u64], out: &mut [u64])
    requires there { AreBelow (length values.now) places.now }
    requires room { length out.old ≡ length places.now }
    requires within { k + 4 ≤ length places.now }
    requires before { take k out.old ≡ map (slice_index values.now) (take k places.now) }
    ensures done { take (k + 4) out.new ≡ map (slice_index values.now) (take (k + 4) places.now) }
    ensures room { length out.new ≡ length out.old }
{
    read_two(places, k, values, out);
    read_two(places, k + 2, values, out);
}

/// Reads eight values from the k-th place on.
#[inline(always)]
fn read_eight(places: &[u32], k: usize, values: &[u64], out: &mut [u64])
    requires there { AreBelow (length values.now) places.now }
    requires room { length out.old ≡ length places.now }
    requires within { k + 8 ≤ length places.now }
    requires before { take k out.old ≡ map (slice_index values.now) (take k places.now) }
    ensures done { take (k + 8) out.new ≡ map (slice_index values.now) (take (k + 8) places.now) }
    ensures room { length out.new ≡ length out.old }
{
    read_four(places, k, values, out);
    read_four(places, k + 4, values, out);
}

/// The values at these places, eight without a loop, as in the walk.
#[tactic(auto, using(crate::proofs::Steps::reads))]
fn read_places(places: &[u32], values: &[u64], out: &mut [u64])
    requires there { AreBelow (length values.now) places.now }
    requires room { length out.old ≡ length places.now }
    ensures { out.new ≡ map (slice_index values.now) places.now }
{
    let mut at = 0;
    while out.len() - at >= 8 {
        read_eight(places, at, values, out);
        at += 8;
    }
    for k in at..out.len() {
        read_one(places, k, values, out);
    }
}
