// The walk of a cycle over words of 64 bits: runs of cells of one kind, one after another, each cell's value going to the next place.
// By the hints all of it is one function, since a call for each run costs as much as some cells.

ghost use Rattle.std.specs.Prelude.{◌≡◌, ◌+◌, ◌<◌, ◌≤◌, length};
ghost use Rattle.pdl_netrun.specs.RunKinds.{kind_in};
ghost use Rattle.pdl_netrun.specs.declared.run_kind.RunKind.TheVariants.{Taking, Testing, Counting};
ghost use Rattle.pdl_netrun.specs.Steps.{StepsFit, steps_with, steps_of, after_steps, array_words};

use crate::operation::{CellOperands, CellOperation};
use crate::operations::{
    Add, And, Choose, Complement, Differ, Equal, Join, Less, Look, Mul, Or, Repeat, ShiftLeft,
    ShiftRight, Slice, Sub, Xor,
};
use crate::run_kind::{
    CombineKind, CompareKind, CountKind, CountingKind, PartKind, RunKind, TakingKind, TestingKind,
    TurnKind, WordKind,
};

/// Cells of one kind whose places follow one another.
#[derive(Drop)]
pub struct CellRun {
    pub kind: RunKind,
    pub operands: Vec<CellOperands>,
}

/// Gives a cell its value, which goes to a place.
#[inline(always)]
fn walk_one<K: CellOperation>(
    operands: &[CellOperands],
    first: usize,
    arrays: &[Vec<u64>],
    values: &mut [u64],
)
    requires one { length operands.now ≡ 1 }
    requires room { first + length operands.now ≤ length values.old }
    requires fit { StepsFit 64 (steps_with K.kind operands.now) first values.old
        (array_words arrays.now) }
    ensures { values.new ≡ after_steps (steps_with K.kind operands.now) first values.old
        (array_words arrays.now) }
{
    values[first] = K::value(&operands[0], values, arrays);
}

/// Gives two cells of one kind their values.
#[inline(always)]
#[tactic(auto, using(crate::proofs::Steps::halves))]
fn walk_two<K: CellOperation>(
    operands: &[CellOperands],
    first: usize,
    arrays: &[Vec<u64>],
    values: &mut [u64],
)
    requires two { length operands.now ≡ 2 }
    requires room { first + length operands.now ≤ length values.old }
    requires fit { StepsFit 64 (steps_with K.kind operands.now) first values.old
        (array_words arrays.now) }
    ensures { values.new ≡ after_steps (steps_with K.kind operands.now) first values.old
        (array_words arrays.now) }
{
    walk_one::<K>(&operands[..1], first, arrays, values);
    walk_one::<K>(&operands[1..], first + 1, arrays, values);
}

/// Gives four cells of one kind their values.
#[inline(always)]
#[tactic(auto, using(crate::proofs::Steps::halves))]
fn walk_four<K: CellOperation>(
    operands: &[CellOperands],
    first: usize,
    arrays: &[Vec<u64>],
    values: &mut [u64],
)
    requires four { length operands.now ≡ 4 }
    requires room { first + length operands.now ≤ length values.old }
    requires fit { StepsFit 64 (steps_with K.kind operands.now) first values.old
        (array_words arrays.now) }
    ensures { values.new ≡ after_steps (steps_with K.kind operands.now) first values.old
        (array_words arrays.now) }
{
    walk_two::<K>(&operands[..2], first, arrays, values);
    walk_two::<K>(&operands[2..], first + 2, arrays, values);
}

/// Gives eight cells of one kind their values.
#[inline(always)]
#[tactic(auto, using(crate::proofs::Steps::halves))]
fn walk_eight<K: CellOperation>(
    operands: &[CellOperands],
    first: usize,
    arrays: &[Vec<u64>],
    values: &mut [u64],
)
    requires eight { length operands.now ≡ 8 }
    requires room { first + length operands.now ≤ length values.old }
    requires fit { StepsFit 64 (steps_with K.kind operands.now) first values.old
        (array_words arrays.now) }
    ensures { values.new ≡ after_steps (steps_with K.kind operands.now) first values.old
        (array_words arrays.now) }
{
    walk_four::<K>(&operands[..4], first, arrays, values);
    walk_four::<K>(&operands[4..], first + 4, arrays, values);
}

/// Gives a cell of one kind its value, or none.
#[inline(always)]
#[tactic(auto, using(crate::proofs::Steps::nothing))]
fn walk_last<K: CellOperation>(
    operands: &[CellOperands],
    first: usize,
    arrays: &[Vec<u64>],
    values: &mut [u64],
)
    requires few { length operands.now < 2 }
    requires room { first + length operands.now ≤ length values.old }
    requires fit { StepsFit 64 (steps_with K.kind operands.now) first values.old
        (array_words arrays.now) }
    ensures { values.new ≡ after_steps (steps_with K.kind operands.now) first values.old
        (array_words arrays.now) }
{
    if operands.len() == 1 {
        walk_one::<K>(operands, first, arrays, values);
    }
}

/// Gives up to three cells of one kind their values.
#[inline(always)]
#[tactic(auto, using(crate::proofs::Steps::halves))]
fn walk_few<K: CellOperation>(
    operands: &[CellOperands],
    first: usize,
    arrays: &[Vec<u64>],
    values: &mut [u64],
)
    requires few { length operands.now < 4 }
    requires room { first + length operands.now ≤ length values.old }
    requires fit { StepsFit 64 (steps_with K.kind operands.now) first values.old
        (array_words arrays.now) }
    ensures { values.new ≡ after_steps (steps_with K.kind operands.now) first values.old
        (array_words arrays.now) }
{
    if operands.len() >= 2 {
        walk_two::<K>(&operands[..2], first, arrays, values);
        walk_last::<K>(&operands[2..], first + 2, arrays, values);
    } else {
        walk_last::<K>(operands, first, arrays, values);
    }
}

/// Gives up to seven cells of one kind their values.
#[inline(always)]
#[tactic(auto, using(crate::proofs::Steps::halves))]
fn walk_rest<K: CellOperation>(
    operands: &[CellOperands],
    first: usize,
    arrays: &[Vec<u64>],
    values: &mut [u64],
)
    requires few { length operands.now < 8 }
    requires room { first + length operands.now ≤ length values.old }
    requires fit { StepsFit 64 (steps_with K.kind operands.now) first values.old
        (array_words arrays.now) }
    ensures { values.new ≡ after_steps (steps_with K.kind operands.now) first values.old
        (array_words arrays.now) }
{
    if operands.len() >= 4 {
        walk_four::<K>(&operands[..4], first, arrays, values);
        walk_few::<K>(&operands[4..], first + 4, arrays, values);
    } else {
        walk_few::<K>(operands, first, arrays, values);
    }
}

/// Gives cells of one kind their values, the first of which goes to a place and the others to those after it.
///
/// Eight are walked without a loop, since what a loop asks for each cell costs as much as a cell's own load.
#[inline(always)]
#[tactic(auto, using(crate::proofs::Steps::halves))]
fn walk<K: CellOperation>(
    operands: &[CellOperands],
    first: usize,
    arrays: &[Vec<u64>],
    values: &mut [u64],
)
    requires room { first + length operands.now ≤ length values.old }
    requires fit { StepsFit 64 (steps_with K.kind operands.now) first values.old
        (array_words arrays.now) }
    ensures { values.new ≡ after_steps (steps_with K.kind operands.now) first values.old
        (array_words arrays.now) }
{
    let mut left = operands;
    let mut at = first;
    while left.len() >= 8 {
        walk_eight::<K>(&left[..8], at, arrays, values);
        left = &left[8..];
        at += 8;
    }
    walk_rest::<K>(left, at, arrays, values);
}

/// Gives cells that take words, or parts of them, their values.
#[inline(always)]
#[tactic(auto, using(crate::proofs::Steps::runs))]
fn walk_taking(
    kind: TakingKind,
    operands: &[CellOperands],
    first: usize,
    arrays: &[Vec<u64>],
    values: &mut [u64],
)
    requires room { first + length operands.now ≤ length values.old }
    requires fit { StepsFit 64 (steps_with (kind_in (Taking kind)) operands.now) first values.old
        (array_words arrays.now) }
    ensures { values.new ≡ after_steps (steps_with (kind_in (Taking kind)) operands.now) first
        values.old (array_words arrays.now) }
{
    match kind {
        TakingKind::Word(kind) => match kind {
            WordKind::Constant => (),
            WordKind::Choose => walk::<Choose>(operands, first, arrays, values),
            WordKind::Look => walk::<Look>(operands, first, arrays, values),
        },
        TakingKind::Part(kind) => match kind {
            PartKind::Slice => walk::<Slice>(operands, first, arrays, values),
            PartKind::Join => walk::<Join>(operands, first, arrays, values),
            PartKind::Repeat => walk::<Repeat>(operands, first, arrays, values),
        },
    }
}

/// Gives cells that compare or combine words their values.
#[inline(always)]
fn walk_testing(
    kind: TestingKind,
    operands: &[CellOperands],
    first: usize,
    arrays: &[Vec<u64>],
    values: &mut [u64],
)
    requires room { first + length operands.now ≤ length values.old }
    requires fit { StepsFit 64 (steps_with (kind_in (Testing kind)) operands.now) first values.old
        (array_words arrays.now) }
    ensures { values.new ≡ after_steps (steps_with (kind_in (Testing kind)) operands.now) first
        values.old (array_words arrays.now) }
{
    match kind {
        TestingKind::Compare(kind) => match kind {
            CompareKind::Equal => walk::<Equal>(operands, first, arrays, values),
            CompareKind::Differ => walk::<Differ>(operands, first, arrays, values),
            CompareKind::Less => walk::<Less>(operands, first, arrays, values),
        },
        TestingKind::Combine(kind) => match kind {
            CombineKind::And => walk::<And>(operands, first, arrays, values),
            CombineKind::Or => walk::<Or>(operands, first, arrays, values),
            CombineKind::Xor => walk::<Xor>(operands, first, arrays, values),
        },
    }
}

/// Gives cells that count with words, or turn their bits, their values.
#[inline(always)]
fn walk_counting(
    kind: CountingKind,
    operands: &[CellOperands],
    first: usize,
    arrays: &[Vec<u64>],
    values: &mut [u64],
)
    requires room { first + length operands.now ≤ length values.old }
    requires fit { StepsFit 64 (steps_with (kind_in (Counting kind)) operands.now) first values.old
        (array_words arrays.now) }
    ensures { values.new ≡ after_steps (steps_with (kind_in (Counting kind)) operands.now) first
        values.old (array_words arrays.now) }
{
    match kind {
        CountingKind::Count(kind) => match kind {
            CountKind::Add => walk::<Add>(operands, first, arrays, values),
            CountKind::Sub => walk::<Sub>(operands, first, arrays, values),
            CountKind::Mul => walk::<Mul>(operands, first, arrays, values),
        },
        CountingKind::Turn(kind) => match kind {
            TurnKind::Complement => walk::<Complement>(operands, first, arrays, values),
            TurnKind::ShiftLeft => walk::<ShiftLeft>(operands, first, arrays, values),
            TurnKind::ShiftRight => walk::<ShiftRight>(operands, first, arrays, values),
        },
    }
}

/// Gives the cells of a run their values.
#[inline(always)]
fn walk_run(run: &CellRun, first: usize, arrays: &[Vec<u64>], values: &mut [u64])
    requires room { first + length run.now.operands.items ≤ length values.old }
    requires fit { StepsFit 64 (steps_with (kind_in run.now.kind) run.now.operands.items) first
        values.old (array_words arrays.now) }
    ensures { values.new ≡ after_steps (steps_with (kind_in run.now.kind) run.now.operands.items)
        first values.old (array_words arrays.now) }
{
    let operands = run.operands.as_slice();
    match run.kind {
        RunKind::Taking(kind) => walk_taking(kind, operands, first, arrays, values),
        RunKind::Testing(kind) => walk_testing(kind, operands, first, arrays, values),
        RunKind::Counting(kind) => walk_counting(kind, operands, first, arrays, values),
    }
}

/// Gives the cells of all runs their values, in order.
#[tactic(auto, using(crate::proofs::Steps::runs))]
pub fn walk_runs(runs: &[CellRun], first: usize, arrays: &[Vec<u64>], values: &mut [u64])
    requires room { first + length (steps_of runs.now) ≤ length values.old }
    requires fit { StepsFit 64 (steps_of runs.now) first values.old (array_words arrays.now) }
    ensures { values.new ≡ after_steps (steps_of runs.now) first values.old
        (array_words arrays.now) }
{
    let mut at = first;
    let mut left = runs;
    while !left.is_empty() {
        let run = &left[0];
        walk_run(run, at, arrays, values);
        at += run.operands.as_slice().len();
        left = &left[1..];
    }
}
