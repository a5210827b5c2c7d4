// The pending writes of a memory.
ghost use Rattle.std.specs.Prelude.{◌≡◌};

use pdl_form::Lock;
use pdl_kit::NoMemory;
use pdl_machine_pending::{Memory, Reserved, Written};
use pdl_word::Word;
use std::alloc::Global;

// A reservation of a memory by a variable, at this address.
fn reserved(mem: usize, var: usize, address: Word) -> Reserved
    ensures { result ≡ record { mem = mem; var = var; address = address } }
{
    Reserved { mem, var, address }
}

// A value for the reservation of memory 0 by a variable.
fn written(var: usize, value: Word) -> Written
    ensures { result ≡ record { mem = 0; var = var; value = value } }
{
    Written { mem: 0, var, value }
}

/// Whether a queue waits for the release.
fn queue_waits(alloc: Global) -> Result<bool, NoMemory> {
    let mut memory = Memory::new(alloc, &[10, 11, 12, 13], Lock::Queue(1), 1)?;
    memory.reserve(0, 1, &[reserved(0, 0, 2)]);
    let is_full = memory.is_locked() & !memory.has_room(1);
    memory.write(0, 1, &[written(0, 7)]);
    let waits = !(memory.is_ready(2, 2, false) | memory.is_ready(2, 2, true));
    let goes = memory.is_ready(1, 2, true) & (memory.word(2) == 12);
    let is_released = memory.release().is_some();
    let is_written = (memory.word(2) == 7) & memory.is_ready(2, 2, false);
    Ok(is_full & waits & goes & is_released & is_written)
}

/// Whether another lock waits for the value alone.
fn waits_for_value(alloc: Global, lock: Lock) -> Result<bool, NoMemory> {
    let mut memory = Memory::new(alloc, &[10, 11, 12, 13], lock, 2)?;
    memory.reserve(0, 1, &[reserved(1, 0, 3), reserved(0, 1, 2)]);
    let has_room = memory.has_room(1) & !memory.has_room(2);
    let waits = memory.is_ready(2, 2, true) & !memory.is_ready(2, 2, false);
    memory.write(0, 1, &[written(1, 7)]);
    let goes = memory.is_ready(2, 2, false);
    let reads = (memory.read(2, 2) == 7) & (memory.read(1, 2) == 12);
    Ok(has_room & waits & goes & reads)
}

/// Whether two writes of one word by a thread are filled by their variables, and released in their order.
fn writes_twice(alloc: Global, lock: Lock) -> Result<bool, NoMemory> {
    let mut memory = Memory::new(alloc, &[10, 11, 12, 13], lock, 2)?;
    memory.reserve(0, 1, &[reserved(0, 0, 2), reserved(0, 1, 2)]);
    let is_full = !memory.has_room(1);
    memory.write(0, 1, &[written(1, 8)]);
    memory.write(0, 1, &[written(0, 7)]);
    let is_younger = memory.is_ready(2, 2, false) & (memory.read(2, 2) == 8);
    let is_first = memory.release().is_some() & (memory.word(2) == 7);
    let is_second = memory.release().is_some() & (memory.word(2) == 8);
    Ok(is_full & is_younger & is_first & is_second & memory.release().is_none())
}

#[test]
fn locks_wait(rt: HostRuntime) {
    let alloc = rt.alloc();
    assert!(rt; queue_waits(alloc) == Ok(true));
    assert!(rt; waits_for_value(alloc, Lock::Bypass(2)) == Ok(true));
    assert!(rt; waits_for_value(alloc, Lock::Rename(2)) == Ok(true));
    assert!(rt; writes_twice(alloc, Lock::Bypass(2)) == Ok(true));
    assert!(rt; writes_twice(alloc, Lock::Rename(2)) == Ok(true));
}
