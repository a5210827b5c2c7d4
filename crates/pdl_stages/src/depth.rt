// The greatest number of stages on a path.
ghost use Rattle.std.specs.Prelude.{◌≡◌, ◌<◌, ◌∷◌, length, slice_set, IfOk};
ghost use Rattle.pdl_semantics.specs.Stages as stages;
ghost use Rattle.pdl_form.specs.View.{stages_view, next_view};
ghost use Rattle.pdl_form.specs.FormView.{form};
ghost use Rattle.pdl_stages.specs.Graph.{of_stages};

use pdl_form::{FlatPipe, FlatStage, Next};
use pdl_kit::NoMemory;
use std::alloc::Global;

/// The greatest number of stages on a path. On a path all forks on one variable go the same way.
pub fn depth(alloc: Global, pipe: &FlatPipe) -> Result<usize, NoMemory>
    ensures { IfOk result (λ d. d ≡ stages.depth (form pipe.now).pipe) }
{
    let stages = pipe.stages();
    let guards = fork_guards(alloc, stages)?;
    let mut path = Vec::from_elem(alloc, 0, pipe.vars())?;
    Ok(longest(stages, &mut path, guards.as_slice()))
}

// The variables of the forks.
fn fork_guards(alloc: Global, all: &[FlatStage]) -> Result<Vec<usize>, NoMemory>
    ensures { IfOk result (λ gs. gs.items ≡ stages.fork_guards (stages_view all.now)) }
{
    let mut guards = Vec::new(alloc);
    for stage in all {
        if let Next::Forks { x, .. } = stage.next {
            guards.push(x)?;
        }
    }
    Ok(guards)
}

// The greatest number of stages over all truth values of these guards.
#[cycle(longest)]
fn longest(all: &[FlatStage], path: &mut [u64], guards: &[usize]) -> usize
    ensures value { result ≡ stages.longest (of_stages (stages_view all.now)) path.old guards.now }
    ensures kept { path.new ≡ path.old }
{
    match guards.split_first() {
        Some((guard, rest)) => longest_over(all, path, *guard, rest),
        None => stages_on(all, path),
    }
}

// The same of a guard and the rest of them. A guard that comes again counts where it comes last.
#[cycle(longest)]
fn longest_over(all: &[FlatStage], path: &mut [u64], x: usize, rest: &[usize]) -> usize
    ensures value { result ≡ stages.longest (of_stages (stages_view all.now)) path.old
        (x ∷ rest.now) }
    ensures kept { path.new ≡ path.old }
{
    if x >= path.len() {
        return longest(all, path, rest);
    }
    if rest.contains(&x) {
        return longest(all, path, rest);
    }
    let second = longest_where(all, path, x, 0, rest);
    let first = longest_where(all, path, x, 1, rest);
    second.max(first)
}

// The same where a guard has this truth value.
#[cycle(longest)]
fn longest_where(all: &[FlatStage], path: &mut [u64], x: usize, truth: u64, rest: &[usize]) -> usize
    requires { x < length path.old }
    ensures value { result ≡ stages.longest (of_stages (stages_view all.now))
        (slice_set path.old x truth) rest.now }
    ensures kept { path.new ≡ path.old }
{
    let before = path[x];
    path[x] = truth;
    let count = longest(all, path, rest);
    path[x] = before;
    count
}

// How many stages a thread comes to on a path.
fn stages_on(all: &[FlatStage], path: &[u64]) -> usize
    ensures { result ≡ stages.stages_on (of_stages (stages_view all.now)) path.now
        (length all.now) 0 }
{
    let mut stage = 0;
    for count in 0..all.len() {
        match next_of(all, stage, path) {
            Some(next) => stage = next,
            None => return count + 1,
        }
    }
    all.len()
}

// The stage that a thread goes to from this one on a path.
fn next_of(all: &[FlatStage], stage: usize, path: &[u64]) -> Option<usize>
    ensures { result ≡ stages.goes_to (stages.stage_at (of_stages (stages_view all.now)) stage).next
        path.now }
{
    match all.get(stage) {
        None => None,
        Some(stage) => goes_to(stage.next, path),
    }
}

fn goes_to(next: Next, path: &[u64]) -> Option<usize>
    ensures { result ≡ stages.goes_to (next_view next) path.now }
{
    match next {
        Next::Ends => None,
        Next::Goes(to) => Some(to),
        Next::Forks { x, first, second } => {
            if x < path.len() && path[x] == 1 {
                Some(first)
            } else {
                Some(second)
            }
        }
    }
}
