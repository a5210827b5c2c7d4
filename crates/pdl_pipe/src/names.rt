// What the registers and cells of a pipe's netlist stand for.
ghost use Rattle.std.specs.Prelude.{◌≡◌, ◌++◌, ◌∷◌, [], IfOk, OnOk, length};
ghost use Rattle.pdl_pipe_nexts.specs.Lines.{line_pipe, IsLineIn};
ghost use Rattle.pdl_pipe.specs.NamedNets.{IsUntold, AddsNames, AreNamedIn};

use crate::beside_names::name_beside;
use crate::stage_names::name_stages;
use pdl_build::Builder;
use pdl_kit::NoMemory;
use pdl_law_parts::Mark;
use pdl_net::Net;
use pdl_order::OrderRegs;
use pdl_pipe_emitted::TailNets;
use pdl_pipe_lives::Needs;
use pdl_pipe_nexts::StageLine;
use pdl_pipe_walk::MemLock;
use std::alloc::Global;

/// What a register or a cell stands for: of a stage whether it holds a thread, whether that moves, or a variable of its thread as the stage keeps it or as its statements leave it, or an argument of the guess; a mark of a location or a ticket that the stage keeps; a register of a memory's lock, of the port of a delayed memory, or of the order of a fork, by its place among these; or where a squash would cut a lock, as it goes with a thread.
#[derive(Clone, Copy)]
pub enum Role {
    Holds {
        stage: usize,
    },
    Moves {
        stage: usize,
    },
    Keeps {
        stage: usize,
        var: usize,
    },
    Ends {
        stage: usize,
        var: usize,
    },
    Guess {
        stage: usize,
        place: usize,
    },
    Marked {
        stage: usize,
        mark: Mark,
        mem: usize,
        var: usize,
    },
    Ticket {
        stage: usize,
        mem: usize,
    },
    Lock {
        mem: usize,
        place: usize,
    },
    Port {
        mem: usize,
        place: usize,
    },
    Order {
        stage: usize,
        place: usize,
    },
    Tail {
        stage: usize,
        mem: usize,
    },
}

/// A net, and what it stands for.
#[derive(Clone, Copy)]
pub struct NamedNet {
    pub net: Net,
    pub role: Role,
}

/// What stands in the netlist of a pipe: the line of its stages, its locks, the orders of its forks, and the tails that go with its threads.
#[derive(Drop)]
pub struct Parts<'a, L> {
    pub line: &'a StageLine<'a>,
    pub locks: &'a [Option<MemLock<L>>],
    pub orders: &'a [Option<OrderRegs>],
    pub tails: &'a TailNets,
}

/// One more name.
pub(crate) fn name(names: &mut Vec<NamedNet>, net: Net, role: Role) -> Result<(), NoMemory>
    ensures { OnOk result (names.new.items
        ≡ names.old.items ++ record { net = net; role = role } ∷ []) }
{
    names.push(NamedNet { net, role })?;
    Ok(())
}

/// The name of a register that is there, of a role of which nothing is told.
pub(crate) fn name_reg(
    b: &Builder,
    names: &mut Vec<NamedNet>,
    line: &StageLine<'_>,
    r: usize,
    role: Role,
) -> Result<(), NoMemory>
    requires { IsUntold role }
    ensures { OnOk result (AddsNames b.now line.now names.old.items names.new.items) }
{
    if r >= b.reg_count() {
        return Ok(());
    }
    name(names, Net::Reg(r), role)?;
    Ok(())
}

/// The name of a net that is a register, of a role of which nothing is told.
pub(crate) fn name_if_reg(
    b: &Builder,
    names: &mut Vec<NamedNet>,
    line: &StageLine<'_>,
    net: Net,
    role: Role,
) -> Result<(), NoMemory>
    requires { IsUntold role }
    ensures { OnOk result (AddsNames b.now line.now names.old.items names.new.items) }
{
    match net {
        Net::Reg(r) => name_reg(b, names, line, r, role),
        Net::Input(_) | Net::Cell(_) => Ok(()),
    }
}

/// What the registers of a pipe's netlist stand for, and of its cells those that show whether a thread moves, what a stage's statements leave, and what a stage keeps that never changes.
pub fn names_of<L>(
    alloc: Global,
    b: &Builder,
    parts: &Parts<'_, L>,
) -> Result<Vec<NamedNet>, NoMemory>
    requires line { IsLineIn b.now parts.now.line.now }
    requires reserves { length (line_pipe parts.now.line.now).reserves_at
        ≡ length (line_pipe parts.now.line.now).mems }
    ensures { IfOk result (λ ns. AreNamedIn b.now parts.now.line.now ns.items) }
{
    let needs = Needs::new(alloc, parts.line.pipe)?;
    let mut names = Vec::new(alloc);
    name_stages(b, &mut names, parts.line, &needs)?;
    name_beside(b, &mut names, parts)?;
    Ok(names)
}
