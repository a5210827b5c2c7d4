// A netlist's text that ends too early.
use crate::asked::{is_done, ran};
use crate::faults::COUNTER;
use pdl_kit::{MemSink, Rule};
use pdl_trace::refused_line;
use std::alloc::Global;

// Whether a text is refused at this line, as one in which a word is out of place.
fn is_refused(alloc: Global, text: &[u8], line: u32) -> bool {
    match (
        MemSink::unfailing(alloc, 1000),
        MemSink::unfailing(alloc, 1000),
    ) {
        (Ok(mut out), Ok(mut err)) => {
            let words = ["sim", "a.pdl", "e.img", "1"];
            let status = ran(alloc, &words, text, b"image 1\n", &mut out, &mut err);
            let said = err.written() == refused_line(Rule::V1, line).as_bytes();
            (status == 2) & out.written().is_empty() & said
        }
        _ => false,
    }
}

// Whether each beginning of a text, the text itself left out, is refused at the line on which it ends.
fn is_refused_cut(alloc: Global, text: &[u8]) -> bool {
    let mut line: u32 = 1;
    let mut is_refused_so_far = true;
    for size in 0..text.len() {
        is_refused_so_far = is_refused_so_far & is_refused(alloc, &text[..size], line);
        if text[size] == b'\n' {
            line = line.saturating_add(1);
        }
    }
    is_refused_so_far
}

// The same of what is built of the counter, without its last line feed, which may lack.
fn is_refused_cut_as_built(alloc: Global) -> bool {
    match MemSink::unfailing(alloc, 65536) {
        Ok(mut out) => {
            let is_built = is_done(alloc, &["build", "a.pdl"], COUNTER, b"", &mut out);
            match out.written().split_last() {
                Some((_, text)) => is_built & is_refused_cut(alloc, text),
                None => false,
            }
        }
        Err(_) => false,
    }
}

#[test]
fn refuses_what_is_cut(rt: HostRuntime) {
    assert!(rt; is_refused_cut_as_built(rt.alloc()));
}
