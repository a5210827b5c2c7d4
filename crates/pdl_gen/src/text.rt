// The text of the source, and the first line of what is printed.
ghost use Rattle.std.specs.Prelude.{◌≡◌, ◌≤◌, ◌++◌, IfOk, OnOk, decimal, vec_len};
ghost use Rattle.pdl_syntax_tree.specs.View.{lock_kind_view};
ghost use Rattle.pdl_gen.specs.Generated as spec;

use crate::pipe::{kind, stages, step};
use itoa::Buffer;
use pdl_kit::NoMemory;
use pdl_syntax_tree::LockKind;
use std::alloc::Global;

/// The word for a kind of lock.
pub fn kind_name(kind: LockKind) -> &'static [u8]
    ensures { result.now ≡ spec.kind_name (lock_kind_view kind) }
{
    match kind {
        LockKind::Queue => b"queue",
        LockKind::Bypass => b"bypass",
        LockKind::Rename => b"rename",
    }
}

// The line of the head.
fn write_head(kind: LockKind, text: &mut Vec<u8>) -> Result<(), NoMemory>
    ensures { OnOk result (text.new.items ≡ text.old.items ++ spec.head (lock_kind_view kind)) }
{
    text.extend_from_slice(b"pipe g(n: uint<8>)[m: uint<8>[16] comb lock ")?;
    text.extend_from_slice(kind_name(kind))?;
    text.extend_from_slice(b"(4)] {\n")?;
    Ok(())
}

// A number in decimal.
fn write_decimal(n: u64, text: &mut Vec<u8>) -> Result<(), NoMemory>
    ensures { OnOk result (text.new.items ≡ text.old.items ++ decimal n) }
{
    let mut buffer = Buffer::new();
    text.extend_from_slice(buffer.format(n).as_bytes())?;
    Ok(())
}

// The first two stages, in which a thread reserves, calls the next one, and reads.
fn write_reads(step: u64, text: &mut Vec<u8>) -> Result<(), NoMemory>
    ensures { OnOk result (text.new.items ≡ text.old.items ++ spec.reading_stages step) }
{
    text.extend_from_slice(
        b"a = n[3:0];\nb = n[7:4];\nreserve(m[a], R);\nreserve(m[b], W);\ncall(n + 8'd",
    )?;
    write_decimal(step, text)?;
    text.extend_from_slice(b");\n---\nblock(m[a]);\nx = m[a];\n")?;
    Ok(())
}

// So many separators.
fn write_separators(count: u32, text: &mut Vec<u8>) -> Result<(), NoMemory>
    ensures { OnOk result (text.new.items ≡ text.old.items ++ spec.separators count) }
{
    for _k in 0..count {
        text.extend_from_slice(b"---\n")?;
    }
    Ok(())
}

// The end of the last stage, in which it writes and releases.
fn write_writes(text: &mut Vec<u8>) -> Result<(), NoMemory>
    ensures { OnOk result (text.new.items ≡ text.old.items ++ spec.writing_end) }
{
    text.extend_from_slice(
        b"block(m[b]);\nm[b] <- x + n;\nrelease(m[a]);\nrelease(m[b]);\n} start g(8'd1);\n",
    )?;
    Ok(())
}

/// The text of the source: at most 500 bytes.
#[tactic(auto, unfolding(crate::specs::Generated::source), using(crate::proofs::Shortness::short_source))]
pub fn source(alloc: Global, n: u32) -> Result<Vec<u8>, NoMemory>
    ensures text { IfOk result (λ v. v.items ≡ spec.source n) }
    ensures short { IfOk result (λ v. vec_len v ≤ 500) }
{
    let mut text = Vec::new(alloc);
    write_head(kind(n), &mut text)?;
    write_reads(step(n), &mut text)?;
    write_separators(stages(n) - 2, &mut text)?;
    write_writes(&mut text)?;
    Ok(text)
}

/// The first line that is printed of the run: `gen N stages K lock KIND`.
#[tactic(auto, unfolding(crate::specs::Generated::first_line))]
pub fn first_line(alloc: Global, n: u32) -> Result<Vec<u8>, NoMemory>
    ensures { IfOk result (λ v. v.items ≡ spec.first_line n) }
{
    let mut line = Vec::new(alloc);
    line.extend_from_slice(b"gen ")?;
    write_decimal(u64::from(n), &mut line)?;
    line.extend_from_slice(b" stages ")?;
    write_decimal(u64::from(stages(n)), &mut line)?;
    line.extend_from_slice(b" lock ")?;
    line.extend_from_slice(kind_name(kind(n)))?;
    line.extend_from_slice(b"\n")?;
    Ok(line)
}
