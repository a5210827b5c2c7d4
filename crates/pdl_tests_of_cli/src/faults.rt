// Sinks and files that fail, call by call.
use crate::asked::{asked, files_of, ran};
use pdl_kit::{MemSink, NoMemory};
use std::alloc::Global;

/// A pipe whose threads count, each in one cycle with one write.
pub const COUNTER: &[u8] =
    b"pipe p(n: uint<4>)[m: uint<8>[4] comb lock queue(1)] { a = n[1:0]; v = zext(n, 8); reserve(m[a], W); block(m[a]); m[a] <- v; release(m[a]); call(n + 4'd1); } start p(4'd0);";

const THREE_CYCLES: [&str; 4] = ["run", "a.pdl", "e.img", "3"];

// What is answered where the output fails: the status, and whether its beginning alone was written.
fn status(alloc: Global, out: &mut MemSink) -> Option<u8> {
    match MemSink::unfailing(alloc, 1000) {
        Ok(mut err) => {
            let status = ran(alloc, &THREE_CYCLES, COUNTER, b"image 1\n", out, &mut err);
            if err.written().is_empty() {
                Some(status)
            } else {
                None
            }
        }
        Err(_) => None,
    }
}

// The same of an output that takes ten bytes at a call and fails at the second, if what it took is what was written first.
fn status_at_fault(alloc: Global) -> Option<u8> {
    let mut failing = Vec::new(alloc);
    let _ = failing.push(2u64);
    match MemSink::new(alloc, 65536, 10, failing) {
        Ok(mut out) => {
            let status = status(alloc, &mut out);
            if out.written() == b"1 m 0 00\n2".as_slice() {
                status
            } else {
                None
            }
        }
        Err(_) => None,
    }
}

#[test]
fn stops_at_a_failing_sink(rt: HostRuntime) {
    assert_eq!(rt; status_at_fault(rt.alloc()), Some(4));
}

// The status of a run of 1,000 cycles, and how much of its text there is, where the call of the output with this number fails and each other one takes all that it is given.
fn pieces(alloc: Global, call: u64) -> Option<(u8, usize)> {
    let mut failing = Vec::new(alloc);
    let _ = failing.push(call);
    match (
        MemSink::new(alloc, 65536, usize::MAX, failing),
        MemSink::unfailing(alloc, 1000),
    ) {
        (Ok(mut out), Ok(mut err)) => {
            let words = ["run", "a.pdl", "e.img", "1000"];
            let status = ran(alloc, &words, COUNTER, b"image 1\n", &mut out, &mut err);
            Some((status, out.written().len()))
        }
        _ => None,
    }
}

// The text goes out by pieces of 4,096 bytes and a rest.
#[test]
fn writes_while_it_runs(rt: HostRuntime) {
    assert!(rt; pieces(rt.alloc(), 1) == Some((4, 0)));
    assert!(rt; pieces(rt.alloc(), 2) == Some((4, 4096)));
    assert!(rt; pieces(rt.alloc(), 3) == Some((4, 8192)));
    assert!(rt; pieces(rt.alloc(), 4) == Some((0, 10939)));
}

// The status of a command that shows two cycles, and how much of its text there is, where the call of the output with this number fails.
fn shown(alloc: Global, command: &str, call: u64) -> Option<(u8, usize)> {
    let mut failing = Vec::new(alloc);
    let _ = failing.push(call);
    match (
        MemSink::new(alloc, 65536, 100, failing),
        MemSink::unfailing(alloc, 1000),
    ) {
        (Ok(mut out), Ok(mut err)) => {
            let words = [command, "a.pdl", "e.img", "2"];
            let status = ran(alloc, &words, COUNTER, b"image 1\n", &mut out, &mut err);
            Some((status, out.written().len()))
        }
        _ => None,
    }
}

// A dump goes the same way.
#[test]
fn dumps_while_it_runs(rt: HostRuntime) {
    assert!(rt; shown(rt.alloc(), "wave", 1) == Some((4, 0)));
    assert!(rt; shown(rt.alloc(), "wave", 2) == Some((4, 100)));
    assert!(rt; shown(rt.alloc(), "wave", 9) == Some((0, 319)));
}

// So does a view, of which the two lines are one piece.
#[test]
fn views_while_it_runs(rt: HostRuntime) {
    assert!(rt; shown(rt.alloc(), "view", 1) == Some((4, 0)));
    assert!(rt; shown(rt.alloc(), "view", 2) == Some((0, 8)));
}

// What the counter prints in three cycles, 67 bytes.
const LINES: &[u8] = b"1 m 0 00\n2 m 1 01\n3 m 2 02\nend cycles 3 ended 3 waits 0 squashes 0\n";

// The status of three cycles over an output, and how many bytes this took, if they are the first of the lines and nothing was said.
fn taken(alloc: Global, out: Result<MemSink, NoMemory>) -> Option<(u8, usize)> {
    match out {
        Ok(mut out) => {
            let status = status(alloc, &mut out);
            match status {
                Some(status) if LINES.starts_with(out.written()) => {
                    Some((status, out.written().len()))
                }
                _ => None,
            }
        }
        Err(_) => None,
    }
}

// The same where the output takes one byte at a call and the call with this number fails.
fn byte_by_byte(alloc: Global, call: u64) -> Option<(u8, usize)> {
    let mut failing = Vec::new(alloc);
    let _ = failing.push(call);
    taken(alloc, MemSink::new(alloc, 65536, 1, failing))
}

// The calls before the one that fails take a byte each, and after the last byte there is no call.
#[test]
fn stops_at_each_byte(rt: HostRuntime) {
    let mut call: u64 = 1;
    for before in 0..67 {
        assert!(rt; byte_by_byte(rt.alloc(), call) == Some((4, before)));
        call = call.saturating_add(1);
    }
    assert!(rt; byte_by_byte(rt.alloc(), call) == Some((0, 67)));
}

// An output that takes nothing.
#[test]
fn stops_at_once(rt: HostRuntime) {
    let none = Vec::new(rt.alloc());
    assert!(rt; taken(rt.alloc(), MemSink::new(rt.alloc(), 65536, 0, none)) == Some((4, 0)));
}

// Whether words that are no command are answered by the status alone, where the error output fails at its first call.
fn is_unsaid(alloc: Global) -> bool {
    let mut failing = Vec::new(alloc);
    let _ = failing.push(1u64);
    match (
        MemSink::unfailing(alloc, 1000),
        MemSink::new(alloc, 1000, usize::MAX, failing),
    ) {
        (Ok(mut out), Ok(mut err)) => {
            let status = ran(alloc, &["run", "A"], b"", b"", &mut out, &mut err);
            (status == 1) & out.written().is_empty() & err.written().is_empty()
        }
        _ => false,
    }
}

#[test]
fn keeps_the_status(rt: HostRuntime) {
    assert!(rt; is_unsaid(rt.alloc()));
}

// Whether the read with this number fails in three cycles of a source: the status is this one, nothing is written, and this is said.
fn is_told(alloc: Global, read: u64, source: &[u8], wanted: u8, said: &[u8]) -> bool {
    let mut failing = Vec::new(alloc);
    let _ = failing.push(read);
    let mut files = files_of(alloc, source, b"image 1\n", failing);
    match (
        MemSink::unfailing(alloc, 1000),
        MemSink::unfailing(alloc, 1000),
    ) {
        (Ok(mut out), Ok(mut err)) => {
            let status = asked(alloc, &THREE_CYCLES, &mut files, &mut out, &mut err);
            (status == wanted) & out.written().is_empty() & (err.written() == said)
        }
        _ => false,
    }
}

// A source and its image are two reads, in this order; after a wrong source the image isn't read.
#[test]
fn tells_failing_reads(rt: HostRuntime) {
    assert!(rt; is_told(rt.alloc(), 1, COUNTER, 3, b"read fault\n"));
    assert!(rt; is_told(rt.alloc(), 2, COUNTER, 3, b"read fault\n"));
    assert!(rt; is_told(rt.alloc(), 1, b"", 3, b"read fault\n"));
    assert!(rt; is_told(rt.alloc(), 2, b"", 2, b"refused G1 line 1\n"));
}
