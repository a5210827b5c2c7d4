// Each lock in a circuit of its own, driven at random in proper use, against a lock that is written by hand.
ghost use Rattle.std.specs.Prelude.{◌≡◌, false, IfOk};

mod bench;
pub mod board;
pub mod drive;
mod model;

use crate::locks::bench::{Bench, emit_bench};
use crate::locks::board::{Board, lowest};
use crate::locks::drive::agreed;
use crate::locks::model::ModelLock;
use pdl_bypass::BypassLock;
use pdl_kit::{MemInfo, Name, NoMemory};
use pdl_lockapi::LockModule;
use pdl_queue::QueueLock;
use pdl_rename::RenameFile;
use std::alloc::Global;
use std::mem::drop;

/// Words that differ, with zeros after them where a lock has more.
const IMAGE: [u64; 32] = [
    3, 14, 15, 92, 65, 35, 89, 79, 32, 38, 46, 26, 43, 83, 27, 95, 0, 0, 0, 0, 0, 0, 0, 0, 0, 0, 0,
    0, 0, 0, 0, 0,
];

fn memory(alloc: Global) -> Result<MemInfo, NoMemory>
    ensures width { IfOk result (λ m. m.width ≡ 8) }
    ensures depth { IfOk result (λ m. m.depth ≡ 16) }
    ensures comb { IfOk result (λ m. m.delayed ≡ false) }
{
    Ok(MemInfo {
        name: Name::copy_of(alloc, b"m")?,
        width: 8,
        depth: 16,
        delayed: false,
    })
}

/// How many of 200 cycles of random proper use a module and a lock written by hand go through alike.
fn driven<L: LockModule>(
    lock: &L,
    alloc: Global,
    mem: &MemInfo,
    sees_pending: bool,
    size: u8,
) -> Result<u32, NoMemory>
    requires suits { L.suits lock.now mem.now }
    requires width { mem.now.width ≡ 8 }
{
    let bench = emit_bench(lock, alloc, mem)?;
    let tickets = lowest(lock.ticket_width(), u64::MAX);
    let count = agreed_from_reset(alloc, &bench, sees_pending, size, tickets);
    drop(bench);
    count
}

/// How many of 200 cycles from reset on a circuit and a lock written by hand go through alike.
fn agreed_from_reset(
    alloc: Global,
    bench: &Bench,
    sees_pending: bool,
    size: u8,
    tickets: u64,
) -> Result<u32, NoMemory> {
    let mut board = Board::new(alloc, &bench.netlist, IMAGE.as_slice())?;
    let mut lock = ModelLock::new(alloc, sees_pending, size, IMAGE.as_slice())?;
    Ok(agreed(&mut board, bench, &mut lock, tickets))
}

#[test]
fn queues(rt: HostRuntime) -> Result<(), NoMemory> {
    let alloc = rt.alloc();
    let mem = memory(alloc)?;
    assert!(rt; driven(&QueueLock { size: 1 }, alloc, &mem, false, 1) == Ok(200));
    assert!(rt; driven(&QueueLock { size: 2 }, alloc, &mem, false, 2) == Ok(200));
    assert!(rt; driven(&QueueLock { size: 4 }, alloc, &mem, false, 4) == Ok(200));
    assert!(rt; driven(&QueueLock { size: 16 }, alloc, &mem, false, 16) == Ok(200));
    Ok(())
}

#[test]
fn bypasses(rt: HostRuntime) -> Result<(), NoMemory> {
    let alloc = rt.alloc();
    let mem = memory(alloc)?;
    assert!(rt; driven(&BypassLock { size: 1 }, alloc, &mem, true, 1) == Ok(200));
    assert!(rt; driven(&BypassLock { size: 2 }, alloc, &mem, true, 2) == Ok(200));
    assert!(rt; driven(&BypassLock { size: 4 }, alloc, &mem, true, 4) == Ok(200));
    assert!(rt; driven(&BypassLock { size: 16 }, alloc, &mem, true, 16) == Ok(200));
    Ok(())
}

#[test]
fn renamings(rt: HostRuntime) -> Result<(), NoMemory> {
    let alloc = rt.alloc();
    let mem = memory(alloc)?;
    assert!(rt; driven(&RenameFile { size: 1 }, alloc, &mem, true, 1) == Ok(200));
    assert!(rt; driven(&RenameFile { size: 2 }, alloc, &mem, true, 2) == Ok(200));
    assert!(rt; driven(&RenameFile { size: 4 }, alloc, &mem, true, 4) == Ok(200));
    assert!(rt; driven(&RenameFile { size: 16 }, alloc, &mem, true, 16) == Ok(200));
    Ok(())
}
