// What each lock is made of.
ghost use Rattle.std.specs.Prelude.{◌≡◌, false, IfOk};

use pdl_build::Builder;
use pdl_bypass::BypassLock;
use pdl_kit::{MemInfo, Name, NoMemory};
use pdl_lockapi::LockModule;
use pdl_lockapi::writer::{Writer, emit_writer};
use pdl_queue::QueueLock;
use pdl_rename::RenameFile;
use std::alloc::Global;
use std::mem::drop;

fn memory(alloc: Global, depth: u32, delayed: bool) -> Result<MemInfo, NoMemory>
    ensures width { IfOk result (λ m. m.width ≡ 8) }
    ensures depth { IfOk result (λ m. m.depth ≡ depth) }
    ensures delayed { IfOk result (λ m. m.delayed ≡ delayed) }
{
    Ok(MemInfo {
        name: Name::copy_of(alloc, b"m")?,
        width: 8,
        depth,
        delayed,
    })
}

/// How many registers a lock has, the bits of an address, how many arrays and the words of the first, and the bits of a ticket.
fn sizes<L: LockModule>(lock: &L, alloc: Global, mem: &MemInfo) -> Result<[u32; 5], NoMemory>
    requires suits { L.suits lock.now mem.now }
    requires comb { mem.now.delayed ≡ false }
    requires width { mem.now.width ≡ 8 }
{
    let writer = emit_writer(lock, alloc, mem)?;
    let sizes = sizes_of(&writer, lock.ticket_width());
    drop(writer);
    Ok(sizes)
}

fn sizes_of(writer: &Writer, ticket: u8) -> [u32; 5] {
    let regs = saturated(writer.regs.regs.len());
    let arrays = writer.netlist.arrays.as_slice();
    let words = match arrays.first() {
        Some(array) => array.depth,
        None => 0,
    };
    let bits = writer.regs.bits as u32;
    [regs, bits, saturated(arrays.len()), words, ticket as u32]
}

fn saturated(n: usize) -> u32 {
    if n < 1000 { n as u32 } else { 1000 }
}

fn queue_sizes(alloc: Global) -> Result<[u32; 5], NoMemory> {
    let mem = memory(alloc, 16, false)?;
    sizes(&QueueLock { size: 4 }, alloc, &mem)
}

fn bypass_sizes(alloc: Global) -> Result<[u32; 5], NoMemory> {
    let mem = memory(alloc, 16, false)?;
    sizes(&BypassLock { size: 4 }, alloc, &mem)
}

fn rename_sizes(alloc: Global) -> Result<[u32; 5], NoMemory> {
    let mem = memory(alloc, 32, false)?;
    sizes(&RenameFile { size: 8 }, alloc, &mem)
}

/// The array of a queue for a delayed memory, and how many registers there are.
fn delayed_state(
    alloc: Global,
    b: &mut Builder,
    mem: &MemInfo,
) -> Result<(Option<usize>, usize), NoMemory>
    requires width { mem.now.width ≡ 8 }
    requires depth { mem.now.depth ≡ 2 }
{
    let regs = QueueLock { size: 16 }.emit_state(alloc, b, mem)?;
    Ok((regs.array, b.reg_count()))
}

/// The same with a builder of its own.
fn delayed_queue(alloc: Global) -> Result<(Option<usize>, usize), NoMemory> {
    let mem = memory(alloc, 2, true)?;
    let mut b = Builder::new(alloc);
    delayed_state(alloc, &mut b, &mem)
}

#[test]
fn registers_and_arrays(rt: HostRuntime) {
    let alloc = rt.alloc();
    assert!(rt; queue_sizes(alloc) == Ok([14, 4, 1, 16, 3]));
    assert!(rt; bypass_sizes(alloc) == Ok([14, 4, 1, 16, 3]));
    assert!(rt; rename_sizes(alloc) == Ok([58, 5, 1, 64, 4]));
    assert!(rt; delayed_queue(alloc) == Ok((None, 50)));
}
