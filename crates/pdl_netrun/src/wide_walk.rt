// The walk of a cycle over words of any width: cell after cell, each cell's value going to the next place.

ghost use Rattle.std.specs.Prelude.{◌≡◌, ◌+◌, ◌<◌, ◌≤◌, length, slice_index, slice_index_or, []};
ghost use Rattle.pdl_word.specs.Words.{widest};
ghost use Rattle.pdl_netrun.specs.RunKinds.{is_constant as is_of_constants, kind_in};
ghost use Rattle.pdl_netrun.specs.declared.run_kind.RunKind.TheVariants.{Taking, Testing, Counting};
ghost use Rattle.pdl_netrun.specs.Steps.{IsAddress, IsChoice, KindFits, StepsFit, kind_value, steps_with, steps_of, after_steps, array_words};

use crate::operation::CellOperands;
use crate::run_kind::{
    CombineKind, CompareKind, CountKind, CountingKind, PartKind, RunKind, TakingKind, TestingKind,
    TurnKind, WordKind,
};
use crate::walk::CellRun;
use pdl_word::Word;

/// The word at the first place.
fn first(operands: &CellOperands, values: &[Word]) -> Word
    requires { slice_index operands.now.places 0 < length values.now }
    ensures { result ≡ slice_index values.now (slice_index operands.now.places 0) }
{
    values[operands.places[0] as usize]
}

/// The word at the second place.
fn second(operands: &CellOperands, values: &[Word]) -> Word
    requires { slice_index operands.now.places 1 < length values.now }
    ensures { result ≡ slice_index values.now (slice_index operands.now.places 1) }
{
    values[operands.places[1] as usize]
}

/// The word that a choice takes.
fn choose(operands: &CellOperands, values: &[Word]) -> Word
    requires { IsChoice operands.now values.now }
    ensures { result ≡ slice_index values.now (slice_index operands.now.places
        (slice_index values.now operands.now.selector)) }
{
    let choice = values[operands.selector as usize];
    values[operands.places[choice as usize] as usize]
}

/// The word of an array at an address.
#[tactic(auto, using(crate::proofs::Words::words))]
fn look(operands: &CellOperands, values: &[Word], arrays: &[Vec<Word>]) -> Word
    requires { IsAddress operands.now values.now (array_words arrays.now) }
    ensures { result ≡ slice_index (slice_index_or (array_words arrays.now) operands.now.selector [])
        (slice_index values.now (slice_index operands.now.places 0)) }
{
    let words = &arrays[operands.selector as usize];
    words[first(operands, values) as usize]
}

/// The value of a cell that takes words, or parts of them.
fn taken(kind: TakingKind, operands: &CellOperands, values: &[Word], arrays: &[Vec<Word>]) -> Word
    requires { KindFits widest (kind_in (Taking kind)) operands.now values.now
        (array_words arrays.now) }
    ensures { result ≡ kind_value (kind_in (Taking kind)) operands.now values.now
        (array_words arrays.now) }
{
    match kind {
        TakingKind::Word(kind) => match kind {
            WordKind::Constant => 0,
            WordKind::Choose => choose(operands, values),
            WordKind::Look => look(operands, values, arrays),
        },
        TakingKind::Part(kind) => match kind {
            PartKind::Slice => {
                pdl_word::slice(operands.high, operands.low, first(operands, values))
            }
            PartKind::Join => pdl_word::cat(
                operands.low,
                first(operands, values),
                second(operands, values),
            ),
            PartKind::Repeat => pdl_word::rep(
                operands.width,
                operands.count,
                first(operands, values),
            ),
        },
    }
}

/// The value of a cell that compares or combines words.
#[tactic(auto, unfolding(pdl_word::specs::Words::and, pdl_word::specs::Words::or, pdl_word::specs::Words::xor))]
fn tested(kind: TestingKind, operands: &CellOperands, values: &[Word], arrays: &[Vec<Word>]) -> Word
    requires { KindFits widest (kind_in (Testing kind)) operands.now values.now
        (array_words arrays.now) }
    ensures { result ≡ kind_value (kind_in (Testing kind)) operands.now values.now
        (array_words arrays.now) }
{
    match kind {
        TestingKind::Compare(kind) => match kind {
            CompareKind::Equal => {
                pdl_word::equal(first(operands, values), second(operands, values))
            }
            CompareKind::Differ => {
                pdl_word::differ(first(operands, values), second(operands, values))
            }
            CompareKind::Less => pdl_word::less(first(operands, values), second(operands, values)),
        },
        TestingKind::Combine(kind) => match kind {
            CombineKind::And => first(operands, values) & second(operands, values),
            CombineKind::Or => first(operands, values) | second(operands, values),
            CombineKind::Xor => first(operands, values) ^ second(operands, values),
        },
    }
}

/// The value of a cell that counts with words, or turns their bits.
fn counted(
    kind: CountingKind,
    operands: &CellOperands,
    values: &[Word],
    arrays: &[Vec<Word>],
) -> Word
    requires { KindFits widest (kind_in (Counting kind)) operands.now values.now
        (array_words arrays.now) }
    ensures { result ≡ kind_value (kind_in (Counting kind)) operands.now values.now
        (array_words arrays.now) }
{
    let width = operands.width;
    match kind {
        CountingKind::Count(kind) => match kind {
            CountKind::Add => {
                pdl_word::add(width, first(operands, values), second(operands, values))
            }
            CountKind::Sub => {
                pdl_word::sub(width, first(operands, values), second(operands, values))
            }
            CountKind::Mul => {
                pdl_word::mul(width, first(operands, values), second(operands, values))
            }
        },
        CountingKind::Turn(kind) => match kind {
            TurnKind::Complement => pdl_word::complement(width, first(operands, values)),
            TurnKind::ShiftLeft => {
                pdl_word::shl(width, first(operands, values), second(operands, values))
            }
            TurnKind::ShiftRight => {
                pdl_word::shr(width, first(operands, values), second(operands, values))
            }
        },
    }
}

/// The value of a cell.
fn value(kind: RunKind, operands: &CellOperands, values: &[Word], arrays: &[Vec<Word>]) -> Word
    requires { KindFits widest (kind_in kind) operands.now values.now (array_words arrays.now) }
    ensures { result ≡ kind_value (kind_in kind) operands.now values.now
        (array_words arrays.now) }
{
    match kind {
        RunKind::Taking(kind) => taken(kind, operands, values, arrays),
        RunKind::Testing(kind) => tested(kind, operands, values, arrays),
        RunKind::Counting(kind) => counted(kind, operands, values, arrays),
    }
}

/// Whether the cells of a run are constants, whose values stand.
fn is_constant(kind: RunKind) -> bool
    ensures { result ≡ is_of_constants kind }
{
    match kind {
        RunKind::Taking(TakingKind::Word(WordKind::Constant)) => true,
        _ => false,
    }
}

/// Gives the cells of a run their values.
#[tactic(auto, using(crate::proofs::Steps::cells))]
fn walk_run(run: &CellRun, first: usize, arrays: &[Vec<Word>], values: &mut [Word])
    requires room { first + length run.now.operands.items ≤ length values.old }
    requires fit { StepsFit widest (steps_with (kind_in run.now.kind) run.now.operands.items) first
        values.old (array_words arrays.now) }
    ensures { values.new ≡ after_steps (steps_with (kind_in run.now.kind) run.now.operands.items)
        first values.old (array_words arrays.now) }
{
    if is_constant(run.kind) {
        return;
    }
    for k in 0..run.operands.len() {
        values[first + k] = value(run.kind, &run.operands[k], values, arrays);
    }
}

/// Gives the cells of all runs their values, in order.
#[tactic(auto, using(crate::proofs::Steps::runs))]
pub fn walk_runs(runs: &[CellRun], first: usize, arrays: &[Vec<Word>], values: &mut [Word])
    requires room { first + length (steps_of runs.now) ≤ length values.old }
    requires fit { StepsFit widest (steps_of runs.now) first values.old (array_words arrays.now) }
    ensures { values.new ≡ after_steps (steps_of runs.now) first values.old
        (array_words arrays.now) }
{
    let mut at = first;
    for run in runs {
        walk_run(run, at, arrays, values);
        at += run.operands.as_slice().len();
    }
}
