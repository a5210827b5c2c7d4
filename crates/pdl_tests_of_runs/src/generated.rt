// What generated runs are made of.
use pdl_gen::{source, step, words};
use pdl_word::Word;
use std::alloc::Global;

const SOURCE: &[u8] =
    b"pipe g(n: uint<8>)[m: uint<8>[16] comb lock bypass(4)] {\na = n[3:0];\nb = n[7:4];\nreserve(m[a], R);\nreserve(m[b], W);\ncall(n + 8'd101);\n---\nblock(m[a]);\nx = m[a];\n---\n---\nblock(m[b]);\nm[b] <- x + n;\nrelease(m[a]);\nrelease(m[b]);\n} start g(8'd1);\n";

fn is_source(alloc: Global, n: u32, wanted: &[u8]) -> bool {
    match source(alloc, n) {
        Ok(text) => text.as_slice() == wanted,
        Err(_) => false,
    }
}

// How many words the memory of a run has at the start, and the first of them.
fn first_word(alloc: Global, n: u32) -> Option<(usize, Word)> {
    match words(alloc, n) {
        Ok(image) => match image.as_slice().first() {
            Some(word) => Some((image.len(), *word)),
            None => None,
        },
        Err(_) => None,
    }
}

#[test]
fn makes_runs(rt: HostRuntime) {
    assert!(rt; step(0) == 1);
    assert!(rt; is_source(rt.alloc(), 16, SOURCE));
    assert!(rt; first_word(rt.alloc(), 1) == Some((16, 126)));
}
