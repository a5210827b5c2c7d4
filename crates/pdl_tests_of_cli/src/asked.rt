// The program over files and sinks in memory.
use pdl_cli::top;
use pdl_kit::{MemSink, Name, NoMemory, Seq};
use pdl_system::{MemFile, MemFiles};
use std::alloc::Global;

fn file(
    name: Result<Name, NoMemory>,
    bytes: Result<Seq<u8>, NoMemory>,
) -> Result<MemFile, NoMemory> {
    Ok(MemFile {
        name: name?,
        bytes: bytes?,
    })
}

// Puts a file to the others; one for which there is no memory is missing.
fn put_file(alloc: Global, files: &mut Vec<MemFile>, name: &[u8], bytes: &[u8]) {
    if let Ok(file) = file(Name::copy_of(alloc, name), Seq::copy_of(alloc, bytes)) {
        let _ = files.push(file);
    }
}

// Puts words to the others; one for which there is no memory is missing.
fn put_words(alloc: Global, texts: &mut Vec<String>, words: &[&str]) {
    for word in words {
        if let Ok(text) = String::from_str(alloc, word) {
            let _ = texts.push(text);
        }
    }
}

/// Files a.pdl and e.img with these bytes, of which the reads with these numbers fail, counted from 1.
pub fn files_of(alloc: Global, source: &[u8], image: &[u8], failing: Vec<u64>) -> MemFiles {
    let mut files = Vec::new(alloc);
    put_file(alloc, &mut files, b"a.pdl", source);
    put_file(alloc, &mut files, b"e.img", image);
    MemFiles::new(files, failing)
}

/// The same with a file d.rows besides, of delays.
pub fn files_with_delays(
    alloc: Global,
    source: &[u8],
    image: &[u8],
    delays: &[u8],
    failing: Vec<u64>,
) -> MemFiles {
    let mut files = Vec::new(alloc);
    put_file(alloc, &mut files, b"a.pdl", source);
    put_file(alloc, &mut files, b"e.img", image);
    put_file(alloc, &mut files, b"d.rows", delays);
    MemFiles::new(files, failing)
}

/// The status for words over these files.
pub fn asked(
    alloc: Global,
    words: &[&str],
    files: &mut MemFiles,
    out: &mut MemSink,
    err: &mut MemSink,
) -> u8 {
    let mut texts = Vec::new(alloc);
    put_words(alloc, &mut texts, words);
    top(alloc, &texts, files, out, err)
}

/// The status for words, over files a.pdl and e.img with these bytes.
pub fn ran(
    alloc: Global,
    words: &[&str],
    source: &[u8],
    image: &[u8],
    out: &mut MemSink,
    err: &mut MemSink,
) -> u8 {
    let mut files = files_of(alloc, source, image, Vec::new(alloc));
    asked(alloc, words, &mut files, out, err)
}

/// Whether the status is 0, and nothing is written beside the output.
pub fn is_done(
    alloc: Global,
    words: &[&str],
    source: &[u8],
    image: &[u8],
    out: &mut MemSink,
) -> bool {
    match MemSink::unfailing(alloc, 1000) {
        Ok(mut err) => {
            let status = ran(alloc, words, source, image, out, &mut err);
            (status == 0) & err.written().is_empty()
        }
        Err(_) => false,
    }
}

/// Whether this is the output, with the status 0 and nothing beside it.
pub fn prints(alloc: Global, words: &[&str], source: &[u8], image: &[u8], wanted: &[u8]) -> bool {
    match MemSink::unfailing(alloc, 65536) {
        Ok(mut out) => {
            let is_done = is_done(alloc, words, source, image, &mut out);
            is_done & (out.written() == wanted)
        }
        Err(_) => false,
    }
}
