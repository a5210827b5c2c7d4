// The rules on locks and on guesses by themselves, with what they plan, and what is read of places.
ghost use Rattle.std.specs.Prelude.{◌≡◌, ◌≤◌, map, length};
ghost use Rattle.pdl_syntax_tree.specs.View.{pipe_view};
ghost use Rattle.pdl_rules.specs.Places.{places as spec_places, guards as spec_guards};
ghost use Rattle.pdl_paths.specs.Actions.{place_view};
ghost use Rattle.pdl_paths.specs.Masks.{AreMasked};

use pdl_locks::check_locks;
use pdl_paths::{Guards, Place, guess_at, memory_at, places, variable_at};
use pdl_spec::check_spec;
use pdl_syntax::parse::parse;
use pdl_syntax_tree::Pipe;
use std::alloc::Global;

// Its places from 0 on are the parameter, the memory, the barrier, and the guess.
const TEXT: &[u8] = b"pipe p(n: uint<1>)[m: uint<8>[2] comb lock queue(1)] {
spec_barrier();
g = spec_call(n);
acquire(m[n], W);
m[n] <- 8'd1;
---
release(m[n]);
update(g, n);
---
verify(g, n);
} start p(1'd0);";

// The stages of the reserves and the releases of the memory, and of the reserves of a memory that is not there.
fn locks_of(alloc: Global, pipe: &Pipe, guards: &Guards, places: &[Place<'_>]) -> [Option<usize>; 3]
    requires few { length guards.now ≤ 10 }
    requires own { guards.now ≡ spec_guards (map place_view places.now) }
    requires masks { AreMasked guards.now places.now }
    requires of { map place_view places.now ≡ spec_places (pipe_view pipe.now) }
{
    match check_locks(alloc, pipe, guards, places) {
        Ok(plan) => [plan.reserved(0), plan.released(0), plan.reserved(1)],
        Err(_) => [None; 3],
    }
}

// The stages of the verifies and of the updates.
fn checks_of(
    alloc: Global,
    pipe: &Pipe,
    guards: &Guards,
    places: &[Place<'_>],
) -> [Option<usize>; 2]
    requires few { length guards.now ≤ 10 }
    requires own { guards.now ≡ spec_guards (map place_view places.now) }
    requires masks { AreMasked guards.now places.now }
    requires of { map place_view places.now ≡ spec_places (pipe_view pipe.now) }
{
    match check_spec(alloc, pipe, guards, places) {
        Ok(plan) => [plan.verified(), plan.updated()],
        Err(_) => [None; 2],
    }
}

// Whether a place has a variable, a memory and a guess.
fn seen(places: &[Place<'_>], k: usize) -> [bool; 3] {
    match places.get(k) {
        Some(place) => [
            variable_at(place).is_some(),
            memory_at(place).is_some(),
            guess_at(place).is_some(),
        ],
        None => [false; 3],
    }
}

type Told = ([Option<usize>; 3], [Option<usize>; 2], [[bool; 3]; 4]);

fn told(alloc: Global, pipe: &Pipe, guards: &Guards, places: &[Place<'_>]) -> Told
    requires few { length guards.now ≤ 10 }
    requires own { guards.now ≡ spec_guards (map place_view places.now) }
    requires masks { AreMasked guards.now places.now }
    requires of { map place_view places.now ≡ spec_places (pipe_view pipe.now) }
{
    (
        locks_of(alloc, pipe, guards, places),
        checks_of(alloc, pipe, guards, places),
        [
            seen(places, 0),
            seen(places, 1),
            seen(places, 2),
            seen(places, 3),
        ],
    )
}

fn told_of(alloc: Global, pipe: &Pipe) -> Option<Told> {
    let Ok(mut places) = places(alloc, pipe) else {
        return None;
    };
    let Ok(guards) = Guards::of(alloc, places.as_slice()) else {
        return None;
    };
    guards.set_masks(&mut places);
    if guards.len() > 10 {
        return None;
    }
    Some(told(alloc, pipe, &guards, places.as_slice()))
}

fn told_of_text(alloc: Global) -> Option<Told> {
    match parse(alloc, TEXT) {
        Ok(pipe) => told_of(alloc, &pipe),
        Err(_) => None,
    }
}

#[test]
fn plans(rt: HostRuntime) {
    let wanted = (
        [Some(0), Some(1), None],
        [Some(2), Some(1)],
        [
            [true, false, false],
            [false, true, false],
            [false; 3],
            [false, false, true],
        ],
    );
    assert!(rt; told_of_text(rt.alloc()) == Some(wanted));
}
