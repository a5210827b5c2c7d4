// Which paths lead through the place of a number.
ghost use Rattle.std.specs.Prelude.{◌≡◌, ◌≤◌, map, length};
ghost use Rattle.pdl_syntax_tree.specs.View.{pipe_view};
ghost use Rattle.pdl_rules.specs.Places.{places as spec_places, guards as spec_guards};
ghost use Rattle.pdl_paths.specs.Actions.{place_view};

use pdl_paths::{Guards, Path, Place, on_path, places};
use pdl_syntax::parse::parse;
use pdl_syntax_tree::Pipe;
use std::alloc::Global;

// Its places from 0 on are the parameter, the memory, the binding, the outer `if` with the check, the inner `if` and the call in its first branch and the release in its second, the separator, the end and the start clause.
const TEXT: &[u8] = b"pipe p(n: uint<1>)[m: uint<8>[2] comb lock queue(1)] {
g = n[0:0];
if (g) {
spec_check();
if (n) { call(n); }
} else {
release(m[n]);
}
---
} start p(1'd0);";

// Whether the path with these bits leads through a place; nothing where there is no such path or no such place.
fn is_led(
    pipe: &Pipe,
    guards: &Guards,
    places: &[Place<'_>],
    place: usize,
    bits: u16,
) -> Option<bool>
    requires few { length guards.now ≤ 10 }
    requires own { guards.now ≡ spec_guards (spec_places (pipe_view pipe.now)) }
    requires of { map place_view places.now ≡ spec_places (pipe_view pipe.now) }
{
    if place < places.len() && u32::from(bits) < guards.path_count() {
        Some(on_path(pipe, guards, place, Path { bits }))
    } else {
        None
    }
}

// Of the memory, the check, the call, the release, the separator and the start clause.
type Row = [Option<bool>; 6];

fn row(pipe: &Pipe, guards: &Guards, places: &[Place<'_>], bits: u16) -> Row
    requires few { length guards.now ≤ 10 }
    requires own { guards.now ≡ spec_guards (spec_places (pipe_view pipe.now)) }
    requires of { map place_view places.now ≡ spec_places (pipe_view pipe.now) }
{
    [
        is_led(pipe, guards, places, 1, bits),
        is_led(pipe, guards, places, 4, bits),
        is_led(pipe, guards, places, 6, bits),
        is_led(pipe, guards, places, 7, bits),
        is_led(pipe, guards, places, 8, bits),
        is_led(pipe, guards, places, 10, bits),
    ]
}

fn rows_of(alloc: Global, pipe: &Pipe) -> Option<[Row; 3]> {
    let Ok(places) = places(alloc, pipe) else {
        return None;
    };
    let Ok(guards) = Guards::of(alloc, places.as_slice()) else {
        return None;
    };
    if guards.len() != 2 || places.len() != 11 {
        return None;
    }
    Some([
        row(pipe, &guards, places.as_slice(), 0),
        row(pipe, &guards, places.as_slice(), 1),
        row(pipe, &guards, places.as_slice(), 3),
    ])
}

fn rows_of_text(alloc: Global) -> Option<[Row; 3]> {
    match parse(alloc, TEXT) {
        Ok(pipe) => rows_of(alloc, &pipe),
        Err(_) => None,
    }
}

#[test]
fn paths(rt: HostRuntime) {
    let (on, off) = (Some(true), Some(false));
    let wanted = [
        [on, off, off, on, on, on],
        [on, on, off, off, on, on],
        [on, on, on, off, on, on],
    ];
    assert!(rt; rows_of_text(rt.alloc()) == Some(wanted));
}
