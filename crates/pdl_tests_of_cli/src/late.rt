// Memories that answer late: files of delays that can't be read, and what is printed of orphans.
use crate::asked::{asked, files_with_delays};
use pdl_kit::MemSink;
use pdl_system::MemFiles;
use std::alloc::Global;

// A pipe whose threads each ask a memory that answers late.
const FETCH: &[u8] =
    b"pipe p(n: uint<2>)[d: uint<8>[4] delayed, m: uint<8>[4] comb lock queue(1)] { x <- d[n]; call(n + 2'd1); --- reserve(m[n], W); block(m[n]); m[n] <- x; release(m[n]); } start p(2'd0);";

// The same with guesses, of which each second one is wrong, so that requests lose their owners.
const GUESSED: &[u8] =
    b"pipe p(n: uint<2>)[d: uint<8>[4] delayed, m: uint<8>[4] comb lock queue(1)] { spec_check(); x <- d[n]; s = spec_call(n + 2'd1); --- t = n + 2'd2; y = x; --- verify(s, t); reserve(m[n], W); block(m[n]); m[n] <- y; release(m[n]); } start p(2'd0);";

const IMAGE: &[u8] = b"image 1\nd 0 0a\nd 1 0b\nd 2 0c\n";

// The files of a text with these delays, of which no reading fails.
fn files(alloc: Global, text: &[u8], delays: &[u8]) -> MemFiles {
    files_with_delays(alloc, text, IMAGE, delays, Vec::new(alloc))
}

// The status of four cycles where the read with this number fails, if this is said, and unless it is 0 nothing written.
fn missed(alloc: Global, read: u64, said: &[u8]) -> Option<u8> {
    let mut failing = Vec::new(alloc);
    let _ = failing.push(read);
    let mut files = files_with_delays(alloc, FETCH, IMAGE, b"0\n0\n0\n1\n", failing);
    match (
        MemSink::unfailing(alloc, 1000),
        MemSink::unfailing(alloc, 1000),
    ) {
        (Ok(mut out), Ok(mut err)) => {
            let words = ["run", "a.pdl", "e.img", "4", "--delays", "d.rows"];
            let status = asked(alloc, &words, &mut files, &mut out, &mut err);
            if (err.written() == said) & ((status == 0) | out.written().is_empty()) {
                Some(status)
            } else {
                None
            }
        }
        _ => None,
    }
}

// A source, its image and its delays are three reads, and there is no fourth.
#[test]
fn tells_three_failing_reads(rt: HostRuntime) {
    assert!(rt; missed(rt.alloc(), 1, b"read fault\n") == Some(3));
    assert!(rt; missed(rt.alloc(), 2, b"read fault\n") == Some(3));
    assert!(rt; missed(rt.alloc(), 3, b"read fault\n") == Some(3));
    assert!(rt; missed(rt.alloc(), 4, b"") == Some(0));
}

// Whether words over files are done with status 0, and this is printed.
fn is_printed(alloc: Global, words: &[&str], mut files: MemFiles, wanted: &[u8]) -> bool {
    match (
        MemSink::unfailing(alloc, 65536),
        MemSink::unfailing(alloc, 1000),
    ) {
        (Ok(mut out), Ok(mut err)) => {
            let status = asked(alloc, words, &mut files, &mut out, &mut err);
            (status == 0) & (out.written() == wanted) & err.written().is_empty()
        }
        _ => false,
    }
}

// Whether the guesses print this with these delays, as a source and as the netlist that is built of it.
fn is_printed_twice(alloc: Global, cycles: &str, delays: &[u8], wanted: &[u8]) -> bool {
    let run = ["run", "a.pdl", "e.img", cycles, "--delays", "d.rows"];
    let sim = ["sim", "a.pdl", "e.img", cycles, "--delays", "d.rows"];
    match (
        MemSink::unfailing(alloc, 65536),
        MemSink::unfailing(alloc, 1000),
    ) {
        (Ok(mut built), Ok(mut err)) => {
            let mut source = files(alloc, GUESSED, delays);
            let status = asked(
                alloc,
                &["build", "a.pdl"],
                &mut source,
                &mut built,
                &mut err,
            );
            let netlist = files(alloc, built.written(), delays);
            (status == 0)
                & is_printed(alloc, &run, source, wanted)
                & is_printed(alloc, &sim, netlist, wanted)
        }
        _ => false,
    }
}

// An orphan's answer is dropped: in a cycle of its own, and in the very cycle in which the next request is made.
#[test]
fn drops_orphans(rt: HostRuntime) {
    assert!(rt;
        is_printed_twice(
            rt.alloc(),
            "7",
            b"1\n1\n0\n0\n1\n",
            b"3 m 0 0a\n7 m 2 0c\nend cycles 7 ended 2 waits 2 squashes 2\n"
        )
    );
    assert!(rt;
        is_printed_twice(
            rt.alloc(),
            "6",
            b"1\n1\n0\n1\n",
            b"3 m 0 0a\n6 m 2 0c\nend cycles 6 ended 2 waits 1 squashes 2\n"
        )
    );
}
