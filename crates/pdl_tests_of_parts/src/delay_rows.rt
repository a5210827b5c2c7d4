// Delay files, which no command takes yet: what is read of one for each cycle, and what is refused.
use pdl_image::{FileError, read_delays};
use pdl_kit::Rule;
use std::alloc::Global;
use std::process::Abort;

// The reply bits of cycles 1 to 3 and of the millionth.
fn bits_of(alloc: Global, count: u8, text: &[u8]) -> Option<[u16; 4]> {
    if count > 16 || text.len() > 3_000_000 {
        return None;
    }
    let delays = read_delays(alloc, count, text).ok()?;
    Some([
        delays.bits(1),
        delays.bits(2),
        delays.bits(3),
        delays.bits(1_000_000),
    ])
}

// The rule and the line of a refusal, or none.
fn refusal_of(alloc: Global, count: u8, text: &[u8]) -> Option<(Rule, u32)> {
    if count > 16 || text.len() > 3_000_000 {
        return None;
    }
    match read_delays(alloc, count, text) {
        Err(FileError::Refused { rule, line }) => Some((rule, line)),
        _ => None,
    }
}

// So many rows of one bit, 1 on the last alone.
fn rows(alloc: Global, count: usize) -> Vec<u8> {
    let mut text = Vec::new(alloc);
    for _row in 1..count {
        let _ = text.extend_from_slice(b"0\n");
    }
    let _ = text.push(b'1');
    text
}

#[test]
fn delay_files(rt: HostRuntime) {
    let alloc = rt.alloc();
    assert!(rt; bits_of(alloc, 1, b"0\n1\n0") == Some([0, 1, 0, 65535]));
    assert!(rt; bits_of(alloc, 3, b"100\n011\n") == Some([1, 6, 65535, 65535]));
    assert!(rt; bits_of(alloc, 16, b"0000000000000001") == Some([32768, 65535, 65535, 65535]));
    assert!(rt; bits_of(alloc, 0, b"\n\n") == Some([0, 0, 65535, 65535]));
    assert!(rt; bits_of(alloc, 2, b"") == Some([65535; 4]));
    assert!(rt; refusal_of(alloc, 1, b"0\n00") == Some((Rule::Y2, 2)));
    assert!(rt; refusal_of(alloc, 1, b"x") == Some((Rule::Y1, 1)));
    assert!(rt; refusal_of(alloc, 2, b"01\n\n10") == Some((Rule::Y2, 2)));
    assert!(rt; refusal_of(alloc, 1, b"1\r\n") == Some((Rule::Y1, 1)));
}

#[test]
fn most_delay_rows(rt: HostRuntime) {
    let alloc = rt.alloc();
    assert!(rt; bits_of(alloc, 1, &rows(alloc, 1_000_000)) == Some([0, 0, 0, 1]));
    assert!(rt; refusal_of(alloc, 1, &rows(alloc, 1_000_001)) == Some((Rule::Y3, 1_000_001)));
}
