// Lines whose numbers no quick run has.
ghost use Rattle.std.specs.Prelude.{◌≤◌, length};

use pdl_kit::Name;
use pdl_trace::{accepted_line, commit_line};
use pdl_word::{WIDEST, Word};
use std::alloc::Global;

// Whether the greatest word is printed so, at the last address and in the last cycle.
fn is_commit(alloc: Global, text: &[u8]) -> bool {
    match Name::copy_of(alloc, b"m") {
        Ok(mem) => {
            mem.len() <= 32
                && commit_line(1_000_000, &mem, 65_535, Word::MAX, WIDEST).as_bytes() == text
        }
        Err(_) => false,
    }
}

#[test]
fn prints_lines(rt: HostRuntime) {
    assert!(rt;
        is_commit(
            rt.alloc(),
            b"1000000 m 65535 ffffffffffffffffffffffffffffffff\n"
        )
    );
    assert!(rt; accepted_line(6, 5).as_bytes() == b"accepted stages 6 depth 5\n".as_slice());
}
