// What the registers beside a pipe's stages stand for.
ghost use Rattle.std.specs.Prelude.{◌≡◌, OnOk, length};
ghost use Rattle.pdl_form.specs.FormView.{form};
ghost use Rattle.pdl_pipe_nexts.specs.Lines.{line_pipe};
ghost use Rattle.pdl_pipe.specs.NamedNets.{AddsNames};

use crate::names::{NamedNet, Parts, Role, name_if_reg, name_reg};
use pdl_build::Builder;
use pdl_form::FlatPipe;
use pdl_kit::NoMemory;
use pdl_net::Net;
use pdl_order::OrderRegs;
use pdl_pipe_emitted::TailNets;
use pdl_pipe_lives::has_lock;
use pdl_pipe_nexts::StageLine;
use pdl_pipe_walk::MemLock;
use pdl_port::PortRegs;

// The registers of a memory's lock.
fn name_lock_regs(
    b: &Builder,
    names: &mut Vec<NamedNet>,
    line: &StageLine<'_>,
    regs: &[usize],
    mem: usize,
) -> Result<(), NoMemory>
    ensures { OnOk result (AddsNames b.now line.now names.old.items names.new.items) }
{
    for place in 0..regs.len() {
        name_reg(b, names, line, regs[place], Role::Lock { mem, place })?;
    }
    Ok(())
}

// The registers of a memory's lock, if it has one.
fn name_lock<L>(
    b: &Builder,
    names: &mut Vec<NamedNet>,
    line: &StageLine<'_>,
    part: &Option<MemLock<L>>,
    mem: usize,
) -> Result<(), NoMemory>
    ensures { OnOk result (AddsNames b.now line.now names.old.items names.new.items) }
{
    match part {
        Some(part) => name_lock_regs(b, names, line, part.regs.regs.as_slice(), mem),
        None => Ok(()),
    }
}

// The registers of all locks.
fn name_locks<L>(
    b: &Builder,
    names: &mut Vec<NamedNet>,
    line: &StageLine<'_>,
    parts: &[Option<MemLock<L>>],
) -> Result<(), NoMemory>
    ensures { OnOk result (AddsNames b.now line.now names.old.items names.new.items) }
{
    for mem in 0..parts.len() {
        name_lock(b, names, line, &parts[mem], mem)?;
    }
    Ok(())
}

// The registers of a memory's port.
fn name_port_regs(
    b: &Builder,
    names: &mut Vec<NamedNet>,
    line: &StageLine<'_>,
    regs: &[usize],
    mem: usize,
) -> Result<(), NoMemory>
    ensures { OnOk result (AddsNames b.now line.now names.old.items names.new.items) }
{
    for place in 0..regs.len() {
        name_reg(b, names, line, regs[place], Role::Port { mem, place })?;
    }
    Ok(())
}

// The registers of a memory's port, if it has one.
fn name_port(
    b: &Builder,
    names: &mut Vec<NamedNet>,
    line: &StageLine<'_>,
    part: &Option<PortRegs>,
    mem: usize,
) -> Result<(), NoMemory>
    ensures { OnOk result (AddsNames b.now line.now names.old.items names.new.items) }
{
    match part {
        Some(part) => name_port_regs(b, names, line, part.regs.as_slice(), mem),
        None => Ok(()),
    }
}

// The registers of all ports.
fn name_ports(
    b: &Builder,
    names: &mut Vec<NamedNet>,
    line: &StageLine<'_>,
    parts: &[Option<PortRegs>],
) -> Result<(), NoMemory>
    ensures { OnOk result (AddsNames b.now line.now names.old.items names.new.items) }
{
    for mem in 0..parts.len() {
        name_port(b, names, line, &parts[mem], mem)?;
    }
    Ok(())
}

// The registers of the order of a fork.
fn name_order_regs(
    b: &Builder,
    names: &mut Vec<NamedNet>,
    line: &StageLine<'_>,
    regs: &[usize],
    stage: usize,
) -> Result<(), NoMemory>
    ensures { OnOk result (AddsNames b.now line.now names.old.items names.new.items) }
{
    for place in 0..regs.len() {
        name_reg(b, names, line, regs[place], Role::Order { stage, place })?;
    }
    Ok(())
}

// The registers of the order of a fork, if it has one.
fn name_order(
    b: &Builder,
    names: &mut Vec<NamedNet>,
    line: &StageLine<'_>,
    part: &Option<OrderRegs>,
    stage: usize,
) -> Result<(), NoMemory>
    ensures { OnOk result (AddsNames b.now line.now names.old.items names.new.items) }
{
    match part {
        Some(part) => name_order_regs(b, names, line, part.regs.as_slice(), stage),
        None => Ok(()),
    }
}

// The registers of all orders.
fn name_orders(
    b: &Builder,
    names: &mut Vec<NamedNet>,
    line: &StageLine<'_>,
    parts: &[Option<OrderRegs>],
) -> Result<(), NoMemory>
    ensures { OnOk result (AddsNames b.now line.now names.old.items names.new.items) }
{
    for stage in 0..parts.len() {
        name_order(b, names, line, &parts[stage], stage)?;
    }
    Ok(())
}

// Whether the tail of a memory's lock in a stage is a register: the reserves of the memory stand in an earlier stage.
fn carries_tail(pipe: &FlatPipe, stage: usize, mem: usize) -> bool
    requires { length (form pipe.now).pipe.reserves_at ≡ length (form pipe.now).pipe.mems }
{
    if mem >= pipe.mems().len() {
        return false;
    }
    let from = pipe.reserved(mem).unwrap_or(0);
    has_lock(pipe, mem) && from < stage
}

// The tail of a memory's lock in a stage, if it is a register.
fn name_tail(
    b: &Builder,
    names: &mut Vec<NamedNet>,
    line: &StageLine<'_>,
    tail: Net,
    stage: usize,
    mem: usize,
) -> Result<(), NoMemory>
    requires { length (line_pipe line.now).reserves_at ≡ length (line_pipe line.now).mems }
    ensures { OnOk result (AddsNames b.now line.now names.old.items names.new.items) }
{
    if !carries_tail(line.pipe, stage, mem) {
        return Ok(());
    }
    name_if_reg(b, names, line, tail, Role::Tail { stage, mem })
}

// The tails in a stage that go with its thread.
fn name_row(
    b: &Builder,
    names: &mut Vec<NamedNet>,
    line: &StageLine<'_>,
    row: &[Net],
    stage: usize,
) -> Result<(), NoMemory>
    requires { length (line_pipe line.now).reserves_at ≡ length (line_pipe line.now).mems }
    ensures { OnOk result (AddsNames b.now line.now names.old.items names.new.items) }
{
    for mem in 0..row.len() {
        name_tail(b, names, line, row[mem], stage, mem)?;
    }
    Ok(())
}

// The tails of the stages before that of the verifies.
fn name_before(
    b: &Builder,
    names: &mut Vec<NamedNet>,
    line: &StageLine<'_>,
    tails: &TailNets,
) -> Result<(), NoMemory>
    requires { length (line_pipe line.now).reserves_at ≡ length (line_pipe line.now).mems }
    ensures { OnOk result (AddsNames b.now line.now names.old.items names.new.items) }
{
    for stage in 0..tails.before.len() {
        name_row(b, names, line, tails.before[stage].as_slice(), stage)?;
    }
    Ok(())
}

// The tails of all stages, of a pipe whose threads squash.
fn name_tails(
    b: &Builder,
    names: &mut Vec<NamedNet>,
    line: &StageLine<'_>,
    tails: &TailNets,
) -> Result<(), NoMemory>
    requires { length (line_pipe line.now).reserves_at ≡ length (line_pipe line.now).mems }
    ensures { OnOk result (AddsNames b.now line.now names.old.items names.new.items) }
{
    let Some(verify) = line.pipe.verify_stage() else {
        return Ok(());
    };
    name_before(b, names, line, tails)?;
    name_row(b, names, line, tails.last.as_slice(), verify)?;
    Ok(())
}

/// What stands beside the stages.
pub(crate) fn name_beside<L>(
    b: &Builder,
    names: &mut Vec<NamedNet>,
    parts: &Parts<'_, L>,
) -> Result<(), NoMemory>
    requires { length (line_pipe parts.now.line.now).reserves_at
        ≡ length (line_pipe parts.now.line.now).mems }
    ensures { OnOk result (AddsNames b.now parts.now.line.now names.old.items names.new.items) }
{
    name_locks(b, names, parts.line, parts.locks)?;
    name_ports(b, names, parts.line, parts.line.shared.ports)?;
    name_orders(b, names, parts.line, parts.orders)?;
    name_tails(b, names, parts.line, parts.tails)?;
    Ok(())
}
