// Faults of files and sinks. Each helper answers without memory as it would where the call is wrong.
use pdl_kit::{MemSink, Name, ReadError, Refusal, Seq, Sink, WriteFailed, write_whole};
use pdl_system::{Files, MemFile, MemFiles, RealFiles, StdSink};
use std::alloc::{AllocError, Global};
use std::io;
use std::io::Write;

// Adds a file `a`.
fn add_file(held: &mut Vec<MemFile>, alloc: Global, bytes: &[u8]) {
    if let Ok(name) = Name::copy_of(alloc, b"a") {
        if let Ok(bytes) = Seq::copy_of(alloc, bytes) {
            let _ = held.push(MemFile { name, bytes });
        }
    }
}

// Files of which two have one name, and of whose reads the second fails.
fn two_files(alloc: Global) -> MemFiles {
    let mut held = Vec::new(alloc);
    add_file(&mut held, alloc, b"one");
    add_file(&mut held, alloc, b"two");
    let mut failing = Vec::new(alloc);
    let _ = failing.push(2u64);
    MemFiles::new(held, failing)
}

// Whether a read of a file gives these bytes.
fn gives(files: &mut MemFiles, name: &str, wanted: &[u8]) -> bool {
    match files.read(name) {
        Ok(bytes) => bytes.as_slice() == wanted,
        Err(_) => false,
    }
}

// Whether a read of a file fails.
fn fails(files: &mut MemFiles, name: &str) -> bool {
    files.read(name).err() == Some(ReadError::Failed)
}

fn reads_as_listed(files: &mut MemFiles) -> [bool; 4] {
    [
        gives(files, "a", b"one"),
        fails(files, "a"),
        fails(files, "b"),
        gives(files, "a", b"one"),
    ]
}

#[test]
fn reads_files_in_memory(rt: HostRuntime) {
    let mut files = two_files(rt.alloc());
    assert!(rt; reads_as_listed(&mut files) == [true; 4]);
}

// A name that the system can't take.
#[test]
fn reads_no_odd_name(rt: HostRuntime) {
    let mut files = RealFiles::new(rt);
    assert!(rt; files.read("a\0b").err() == Some(ReadError::Failed));
    assert!(rt; Refusal::from(AllocError) == Refusal::NoMemory);
}

// Whether a sink takes these bytes of `hello`, and whether the write of it fails.
fn takes(
    alloc: Global,
    (room, most, listed): (usize, usize, u64),
    fails: bool,
    wanted: &[u8],
) -> bool {
    let mut failing = Vec::new(alloc);
    let _ = failing.push(listed);
    let Ok(mut sink) = MemSink::new(alloc, room, most, failing) else {
        return false;
    };
    let failed = write_whole(&mut sink, b"hello") == Err(WriteFailed);
    failed == fails && sink.written() == wanted
}

// What a sink of five bytes answers.
fn answers_when_full(alloc: Global) -> Option<[Result<usize, WriteFailed>; 3]> {
    let Ok(mut sink) = MemSink::unfailing(alloc, 5) else {
        return None;
    };
    Some([sink.write(b"hello"), sink.write(b""), sink.write(b"!")])
}

#[test]
fn writes_into_memory(rt: HostRuntime) {
    let alloc = rt.alloc();
    assert!(rt; takes(alloc, (8, 3, 9), false, b"hello"));
    assert!(rt; takes(alloc, (8, 3, 2), true, b"hel"));
    assert!(rt; takes(alloc, (4, 9, 9), true, b"hell"));
    assert!(rt; takes(alloc, (8, 0, 9), true, b""));
    assert!(rt; answers_when_full(alloc) == Some([Ok(5), Ok(0), Err(WriteFailed)]));
}

#[derive(Drop)]
struct Full;

impl Write for Full {
    fn write(&mut self, _buf: &[u8]) -> io::Result<usize> {
        Ok(0)
    }

    fn flush(&mut self) -> io::Result<()> {
        Ok(())
    }
}

#[test]
fn writes_to_a_full_writer(rt: HostRuntime) {
    assert!(rt; StdSink::new(Full).write(b"a line\n") == Err(WriteFailed));
    assert!(rt; StdSink::new(Full).write(b"") == Ok(0));
}
