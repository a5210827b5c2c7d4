// A circuit round a lock: registers that a test sets drive two looks and two ports of each kind.
ghost use Rattle.std.specs.Prelude.{◌≡◌, ◌≤◌, ◌∷◌, [], IfOk, OnOk};
ghost use Rattle.pdl_net.specs.HasWidth.{HasWidth};
ghost use Rattle.pdl_net.specs.Growth.{Extends};
ghost use Rattle.pdl_lockapi.specs.Laws.{HasNoPorts};
ghost use Rattle.pdl_tests_of_parts.specs.Driven.{IsLook, IsReserve, IsWrite, IsEnd, AreDrivers, reserve_of, write_of};
ghost use Rattle.pdl_word.specs.Words.{widest};

use crate::drives::{EndDrive, LookDrive, PortDrive, ReserveDrive, WriteDrive};
use pdl_build::Builder;
use pdl_kit::{MemInfo, NoMemory, Seq};
use pdl_lockapi::{
    Kind, LockModule, LockNets, LockPorts, LockRegs, LookNets, ReservePort, TicketWrite,
};
use pdl_net::{Net, Netlist};
use std::alloc::Global;

/// A lock in a circuit: what drives it, and what it shows.
#[derive(Drop)]
pub struct DrivenLock {
    pub regs: LockRegs,
    pub looks: LookDrive,
    pub ports: PortDrive,
    pub read: LookNets,
    pub write: LookNets,
    pub nets: LockNets,
}

/// A circuit with a lock in it, and nothing else.
#[derive(Drop)]
pub struct Bench {
    pub netlist: Netlist,
    pub lock: DrivenLock,
}

/// A register that a test sets.
fn emit_driver(b: &mut Builder, width: u8) -> Result<usize, NoMemory>
    requires low { 1 ≤ width }
    requires high { width ≤ widest }
    ensures driver { IfOk result (λ r. HasWidth b.new (Net.Reg r) width) }
    ensures extends { Extends b.old b.new }
{
    b.reg(width, 0)
}

/// An address and a ticket.
fn emit_look_drive(b: &mut Builder, bits: u8, tickets: u8) -> Result<LookDrive, NoMemory>
    requires bits_low { 1 ≤ bits }
    requires bits_high { bits ≤ widest }
    requires tickets_low { 1 ≤ tickets }
    requires tickets_high { tickets ≤ widest }
    ensures look { IfOk result (λ d. IsLook b.new bits tickets d) }
    ensures extends { Extends b.old b.new }
{
    let addr = emit_driver(b, bits)?;
    let ticket = emit_driver(b, tickets)?;
    Ok(LookDrive { addr, ticket })
}

/// A reservation.
fn emit_reserve_drive(b: &mut Builder, bits: u8) -> Result<ReserveDrive, NoMemory>
    requires bits_low { 1 ≤ bits }
    requires bits_high { bits ≤ widest }
    ensures reserve { IfOk result (λ d. IsReserve b.new bits d) }
    ensures extends { Extends b.old b.new }
{
    let enable = emit_driver(b, 1)?;
    let addr = emit_driver(b, bits)?;
    Ok(ReserveDrive { enable, addr })
}

/// A write.
fn emit_write_drive(b: &mut Builder, tickets: u8, width: u8) -> Result<WriteDrive, NoMemory>
    requires tickets_low { 1 ≤ tickets }
    requires tickets_high { tickets ≤ widest }
    requires width_low { 1 ≤ width }
    requires width_high { width ≤ widest }
    ensures write { IfOk result (λ d. IsWrite b.new tickets width d) }
    ensures extends { Extends b.old b.new }
{
    let enable = emit_driver(b, 1)?;
    let ticket = emit_driver(b, tickets)?;
    let value = emit_driver(b, width)?;
    Ok(WriteDrive {
        enable,
        ticket,
        value,
    })
}

/// Two releases and a squash.
fn emit_end_drive(b: &mut Builder, tickets: u8) -> Result<EndDrive, NoMemory>
    requires tickets_low { 1 ≤ tickets }
    requires tickets_high { tickets ≤ widest }
    ensures end { IfOk result (λ d. IsEnd b.new tickets d) }
    ensures extends { Extends b.old b.new }
{
    let release = emit_driver(b, 1)?;
    let release2 = emit_driver(b, 1)?;
    let squash = emit_driver(b, 1)?;
    let tail = emit_driver(b, tickets)?;
    Ok(EndDrive {
        release,
        release2,
        squash,
        tail,
    })
}

/// Two ports of each kind.
fn emit_port_drive(b: &mut Builder, bits: u8, width: u8, tickets: u8) -> Result<PortDrive, NoMemory>
    requires bits_low { 1 ≤ bits }
    requires bits_high { bits ≤ widest }
    requires width_low { 1 ≤ width }
    requires width_high { width ≤ widest }
    requires tickets_low { 1 ≤ tickets }
    requires tickets_high { tickets ≤ widest }
    ensures ports { IfOk result (λ d. AreDrivers b.new bits width tickets d) }
    ensures extends { Extends b.old b.new }
{
    let reserve = emit_reserve_drive(b, bits)?;
    let reserve2 = emit_reserve_drive(b, bits)?;
    let write = emit_write_drive(b, tickets, width)?;
    let write2 = emit_write_drive(b, tickets, width)?;
    let end = emit_end_drive(b, tickets)?;
    Ok(PortDrive {
        reserve,
        reserve2,
        write,
        write2,
        end,
    })
}

/// The reserve port that a drive drives.
fn reserve_port(d: ReserveDrive) -> ReservePort
    ensures { result ≡ reserve_of d }
{
    ReservePort {
        enable: Net::Reg(d.enable),
        kind: Kind::W,
        addr: Net::Reg(d.addr),
    }
}

/// The write port that a drive drives.
fn write_port(d: WriteDrive) -> TicketWrite
    ensures { result ≡ write_of d }
{
    TicketWrite {
        enable: Net::Reg(d.enable),
        ticket: Net::Reg(d.ticket),
        value: Net::Reg(d.value),
    }
}

/// The ports that they drive.
fn ports(alloc: Global, d: PortDrive) -> Result<LockPorts, NoMemory>
    ensures reserves { IfOk result (λ p.
        p.reserves ≡ reserve_of d.reserve ∷ reserve_of d.reserve2 ∷ []) }
    ensures writes { IfOk result (λ p. p.writes ≡ write_of d.write ∷ write_of d.write2 ∷ []) }
    ensures release { IfOk result (λ p. p.release ≡ Net.Reg d.end.release) }
    ensures release2 { IfOk result (λ p. p.release2 ≡ Net.Reg d.end.release2) }
    ensures squash { IfOk result (λ p. p.squash ≡ Net.Reg d.end.squash) }
    ensures tail { IfOk result (λ p. p.tail ≡ Net.Reg d.end.tail) }
{
    let mut reserves = Seq::new(alloc);
    reserves.push(reserve_port(d.reserve))?;
    reserves.push(reserve_port(d.reserve2))?;
    let mut writes = Seq::new(alloc);
    writes.push(write_port(d.write))?;
    writes.push(write_port(d.write2))?;
    Ok(LockPorts {
        reserves,
        writes,
        release: Net::Reg(d.end.release),
        release2: Net::Reg(d.end.release2),
        squash: Net::Reg(d.end.squash),
        tail: Net::Reg(d.end.tail),
    })
}

/// A look to read and one to write.
fn emit_looks<L: LockModule>(
    lock: &L,
    b: &mut Builder,
    regs: &LockRegs,
    d: LookDrive,
) -> Result<(LookNets, LookNets), NoMemory>
    requires placed { L.placed lock.now b.old regs.now }
    requires look { IsLook b.old regs.now.bits (L.tickets lock.now) d }
    ensures extends { Extends b.old b.new }
{
    let addr = Net::Reg(d.addr);
    let ticket = Net::Reg(d.ticket);
    let read = lock.emit_look(b, regs, Kind::R, addr, ticket)?;
    let write = lock.emit_look(b, regs, Kind::W, addr, ticket)?;
    Ok((read, write))
}

/// The step of the ports that are driven.
fn emit_step<L: LockModule>(
    alloc: Global,
    lock: &L,
    b: &mut Builder,
    regs: &LockRegs,
    d: PortDrive,
) -> Result<LockNets, NoMemory>
    requires placed { L.placed lock.now b.old regs.now }
    requires empty { HasNoPorts regs.now.array b.old }
    requires ports { AreDrivers b.old regs.now.bits regs.now.width (L.tickets lock.now) d }
{
    let ports = ports(alloc, d)?;
    lock.emit_step(b, regs, &ports)
}

/// A lock with two looks and two ports of each kind.
fn emit_lock<L: LockModule>(
    lock: &L,
    alloc: Global,
    b: &mut Builder,
    mem: &MemInfo,
) -> Result<DrivenLock, NoMemory>
    requires suits { L.suits lock.now mem.now }
    requires width_low { 1 ≤ mem.now.width }
    requires width_high { mem.now.width ≤ widest }
{
    let regs = lock.emit_state(alloc, b, mem)?;
    let tickets = b.width(regs.ticket);
    let looks = emit_look_drive(b, regs.bits, tickets)?;
    let ports = emit_port_drive(b, regs.bits, regs.width, tickets)?;
    let (read, write) = emit_looks(lock, b, &regs, looks)?;
    let nets = emit_step(alloc, lock, b, &regs, ports)?;
    Ok(DrivenLock {
        regs,
        looks,
        ports,
        read,
        write,
        nets,
    })
}

/// A lock alone.
pub fn emit_bench<L: LockModule>(lock: &L, alloc: Global, mem: &MemInfo) -> Result<Bench, NoMemory>
    requires suits { L.suits lock.now mem.now }
    requires width_low { 1 ≤ mem.now.width }
    requires width_high { mem.now.width ≤ widest }
{
    let name = mem.name.clone()?;
    let mut b = Builder::new(alloc);
    let lock = emit_lock(lock, alloc, &mut b, mem)?;
    let netlist = b.finish(name, Seq::new(alloc));
    Ok(Bench { netlist, lock })
}
