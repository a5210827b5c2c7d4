// A run held against the machine of its pipe.
ghost use Rattle.std.specs.Prelude.{◌≡◌, ◌≤◌, length, IfOk};
ghost use Rattle.pdl_syntax_tree.specs.View.{pipe_view};
ghost use Rattle.pdl_image.specs.Images.{IsImage};
ghost use Rattle.pdl_rules.specs.Memories.{infos_of};

use crate::asked::{is_done, prints};
use crate::random::RANDOM;
use pdl_check::Accepted;
use pdl_check::check::check;
use pdl_form::{FlatMem, Lock};
use pdl_image::{FileError, Image, read_image};
use pdl_kit::files::LONGEST_FILE;
use pdl_kit::{MemSink, NoMemory};
use pdl_machine::Machine;
use pdl_trace::{commit_line, end_line};
use pdl_word::{WIDEST, Word};
use std::alloc::Global;
use std::mem::drop;
use std::process::Abort;

// An output of the machine in its last cycle, 0 where there is none at this place.
fn shown(machine: &Machine<'_>, i: usize) -> Word {
    if i < machine.port_count() {
        machine.port(i)
    } else {
        0
    }
}

// The line of what a memory commits, whose three outputs begin at this place, if it does.
fn push_ports(
    text: &mut Vec<u8>,
    cycle: u32,
    machine: &Machine<'_>,
    mem: &FlatMem,
    at: usize,
) -> Result<(), NoMemory> {
    if shown(machine, at) == 1 && mem.name.len() <= 32 && mem.width <= WIDEST {
        let address = match u64::try_from(shown(machine, at.saturating_add(1))) {
            Ok(address) => address,
            Err(_) => return Ok(()),
        };
        let value = shown(machine, at.saturating_add(2));
        let line = commit_line(cycle, &mem.name, address, value, mem.width);
        text.extend_from_slice(line.as_bytes())?;
    }
    Ok(())
}

// The lines of what the memories commit, whose outputs begin at this place; the answer is the place after them.
fn push_commits(
    text: &mut Vec<u8>,
    cycle: u32,
    machine: &Machine<'_>,
    mems: &[FlatMem],
    first: usize,
) -> Result<usize, NoMemory> {
    let mut at = first;
    for mem in mems {
        if mem.lock != Lock::Plain {
            push_ports(text, cycle, machine, mem, at)?;
            at = at.saturating_add(3);
        }
    }
    Ok(at)
}

// How many memories are delayed.
fn count_delayed(mems: &[FlatMem]) -> usize {
    mems.iter().filter(|mem| mem.kind.is_delayed()).count()
}

// Puts the lines of so many cycles of the machine of a pipe, from its first on, with all requests answered. Of its outputs two of each stage stand first, then three of each memory with a lock, then two of each delayed memory, then whether a thread ended.
fn put_lines(
    text: &mut Vec<u8>,
    machine: &mut Machine<'_>,
    accepted: &Accepted,
    cycles: u32,
) -> Result<(), NoMemory>
    requires begun { machine.old.cycles ≡ 0 }
    requires few { cycles ≤ 1000000 }
{
    let first = accepted.graph().count().saturating_mul(2);
    let mems = accepted.flat().mems();
    let requests = count_delayed(mems).saturating_mul(2);
    let mut ended: u32 = 0;
    for done in 0..cycles {
        machine.cycle(u16::MAX);
        let asked = push_commits(text, done + 1, machine, mems, first)?;
        if shown(machine, asked.saturating_add(requests)) == 1 {
            ended += 1;
        }
    }
    let line = end_line(cycles, ended, 0, 0);
    text.extend_from_slice(line.as_bytes())?;
    Ok(())
}

// The lines of the machine of a pipe.
fn machine_lines(
    alloc: Global,
    accepted: &Accepted,
    image: &Image,
    cycles: u32,
) -> Result<Vec<u8>, NoMemory>
    requires image { IsImage (infos_of (pipe_view accepted.now.typed.pipe).mems) image.now }
    requires few { cycles ≤ 1000000 }
{
    let mut text = Vec::new(alloc);
    let mut machine = Machine::new(alloc, accepted, image)?;
    put_lines(&mut text, &mut machine, accepted, cycles)?;
    Ok(text)
}

// The image of a text for the memories of a pipe.
fn image_of(alloc: Global, accepted: &Accepted, text: &[u8]) -> Result<Image, FileError>
    requires { length text.now ≤ LONGEST_FILE }
    ensures { IfOk result (λ i. IsImage (infos_of (pipe_view accepted.now.typed.pipe).mems) i) }
{
    read_image(alloc, accepted.mems(), text)
}

// The same of the text of an image, if it is taken.
fn image_lines(alloc: Global, accepted: &Accepted, image: &[u8], cycles: u32) -> Option<Vec<u8>>
    requires image { length image.now ≤ LONGEST_FILE }
    requires few { cycles ≤ 1000000 }
{
    match image_of(alloc, accepted, image) {
        Ok(words) => machine_lines(alloc, accepted, &words, cycles).ok(),
        Err(_) => None,
    }
}

// The same of a source too, if it is taken.
fn machine_text(alloc: Global, source: &[u8], image: &[u8], cycles: u32) -> Option<Vec<u8>>
    requires source { length source.now ≤ LONGEST_FILE }
    requires image { length image.now ≤ LONGEST_FILE }
    requires few { cycles ≤ 1000000 }
{
    match check(alloc, source) {
        Ok(accepted) => {
            let text = image_lines(alloc, &accepted, image, cycles);
            drop(accepted);
            text
        }
        Err(_) => None,
    }
}

// Whether what is built of a source prints this by `sim`.
fn simulates(alloc: Global, source: &[u8], image: &[u8], wanted: &[u8]) -> bool {
    match MemSink::unfailing(alloc, 1_000_000) {
        Ok(mut built) => {
            let is_built = is_done(alloc, &["build", "a.pdl"], source, b"", &mut built);
            let words = ["sim", "a.pdl", "e.img", "60"];
            is_built & prints(alloc, &words, built.written(), image, wanted)
        }
        Err(_) => false,
    }
}

// Whether what is printed of a run of 60 cycles, by `run` and by `sim`, is what the machine shows.
fn is_shown(alloc: Global, source: &[u8], image: &[u8]) -> bool {
    if source.len() > 2000 || image.len() > 2000 {
        return false;
    }
    match machine_text(alloc, source, image, 60) {
        Some(text) => {
            let words = ["run", "a.pdl", "e.img", "60"];
            let is_printed = prints(alloc, &words, source, image, text.as_slice());
            is_printed & simulates(alloc, source, image, text.as_slice())
        }
        None => false,
    }
}

// Whether what is printed of a run of 200 cycles is what the machine shows.
fn is_shown_long(alloc: Global, source: &[u8], image: &[u8]) -> bool {
    if source.len() > 2000 || image.len() > 2000 {
        return false;
    }
    match machine_text(alloc, source, image, 200) {
        Some(text) => {
            let words = ["run", "a.pdl", "e.img", "200"];
            prints(alloc, &words, source, image, text.as_slice())
        }
        None => false,
    }
}

// Five stages: each thread reads three memories and writes them elsewhere, each in stages of its own.
const FIVE: &[u8] =
    b"pipe five(n: uint<8>, s: uint<8>)\n[a: uint<8>[8] comb lock queue(1), b: uint<8>[16] comb lock queue(2), c: uint<4>[4] comb lock queue(16)] {\n  i = n[2:0]; k = s[2:0];\n  reserve(a[i], R); reserve(a[k], W);\n  call(n + 8'd3, s + n);\n  ---\n  block(a[i]); x = a[i];\n  j = n[3:0]; l = s[4:1];\n  reserve(b[j], R); reserve(b[l], W);\n  ---\n  block(b[j]); y = b[j];\n  q = y[1:0]; r = x[1:0];\n  reserve(c[r], R); reserve(c[q], W);\n  block(a[k]); a[k] <- x + y;\n  ---\n  release(a[i]); release(a[k]);\n  block(b[l]); b[l] <- y + x + 8'd1; release(b[j]); release(b[l]);\n  block(c[r]); z = c[r];\n  ---\n  block(c[q]); c[q] <- z + x[3:0] + 4'd1; release(c[r]); release(c[q]);\n} start five(8'd0, 8'd1);\n";

const FIVE_IMAGE: &[u8] = b"image 1\na 0 11\na 3 7\nb 2 2f\nc 1 9\n";

/// What is printed of a pipe of five stages is what its machine shows.
#[test]
fn prints_the_machine(rt: HostRuntime) {
    assert!(rt; is_shown_long(rt.alloc(), FIVE, FIVE_IMAGE));
    assert!(rt; is_shown(rt.alloc(), FIVE, FIVE_IMAGE));
}

fn ask_shown(rt: &impl Abort, alloc: Global, runs: &[(&[u8], &[u8])]) {
    for run in runs {
        let (source, image) = *run;
        assert!(rt; is_shown(alloc, source, image));
    }
}

/// And of ten made at random.
#[test]
fn prints_the_machines(rt: HostRuntime) {
    ask_shown(&rt, rt.alloc(), &RANDOM);
}
