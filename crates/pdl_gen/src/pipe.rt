// What the pipe of a generated run is like.
ghost use Rattle.std.specs.Prelude.{◌≡◌, ◌<◌, ◌≤◌, ◌%◌};
ghost use Rattle.pdl_syntax_tree.specs.View.{lock_kind_view};
ghost use Rattle.pdl_gen.specs.Generated as spec;

use crate::numbers::{byte_of, next};
use pdl_syntax_tree::LockKind;

/// How many stages the pipe has: 2 to 15.
pub fn stages(n: u32) -> u32
    ensures value { result ≡ spec.stages n }
    ensures least { 2 ≤ result }
    ensures most { result ≤ 15 }
{
    2 + n % 14
}

/// The kind of its lock.
pub fn kind(n: u32) -> LockKind
    ensures { lock_kind_view result ≡ spec.kind n }
{
    match n % 3 {
        0 => LockKind::Queue,
        1 => LockKind::Bypass,
        _ => LockKind::Rename,
    }
}

/// What a thread adds to its argument for the next one: an odd number below 256.
pub fn step(n: u32) -> u64
    ensures value { result ≡ spec.step n }
    ensures odd { result % 2 ≡ 1 }
    ensures small { result < 256 }
{
    let y = byte_of(next(u64::from(n)));
    if y % 2 == 1 { y } else { y + 1 }
}
