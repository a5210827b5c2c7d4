// What the nets of a pipe's stages stand for.
ghost use Rattle.std.specs.Prelude.{◌≡◌, ℕ, ◌<◌, IfSome, OnOk, length};
ghost use Rattle.pdl_pipe_lives.specs.Needs.{AreNeeds};
ghost use Rattle.pdl_pipe_nexts.specs.Lines.{line_form, line_pipe, IsLineIn};
ghost use Rattle.pdl_pipe.specs.declared.names.Role.TheVariants.{Holds, Moves, Keeps, Guess};
ghost use Rattle.pdl_pipe.specs.Names.{IsLive, IsNamed};
ghost use Rattle.pdl_pipe.specs.NamedNets.{IsUntold, AddsNames, HasStageNames, HasVarNames};

use crate::names::{NamedNet, Role, name, name_reg};
use pdl_build::Builder;
use pdl_kit::NoMemory;
use pdl_net::Net;
use pdl_pipe_exprs::are_same;
use pdl_pipe_exprs::exprs::variable;
use pdl_pipe_lives::Needs;
use pdl_pipe_nexts::StageLine;
use pdl_pipe_nexts::line::stage_of;
use pdl_pipe_registers::Item;

// A variable of the thread in a stage, as the stage keeps it, and as its statements leave it where that is another net.
fn name_var(
    b: &Builder,
    names: &mut Vec<NamedNet>,
    line: &StageLine<'_>,
    stage: usize,
    var: usize,
) -> Result<(), NoMemory>
    requires line { IsLineIn b.now line.now }
    requires live { IsLive (line_pipe line.now) (Keeps stage var) }
    ensures adds { OnOk result (AddsNames b.now line.now names.old.items names.new.items) }
    ensures has { OnOk result (HasVarNames b.now line.now names.new.items stage var) }
{
    let here = stage_of(line, stage);
    let kept = variable(b, here.vars.as_slice(), var);
    let ended = variable(b, here.end.vars.as_slice(), var);
    name(names, kept, Role::Keeps { stage, var })?;
    if are_same(kept, ended) {
        return Ok(());
    }
    name(names, ended, Role::Ends { stage, var })?;
    Ok(())
}

// A variable, if it lives on in a stage.
fn name_live_var(
    b: &Builder,
    names: &mut Vec<NamedNet>,
    line: &StageLine<'_>,
    needs: &Needs,
    stage: usize,
    var: usize,
) -> Result<(), NoMemory>
    requires line { IsLineIn b.now line.now }
    requires needs { AreNeeds (line_form line.now) needs.now }
    requires stage { stage < length (line_pipe line.now).stages }
    requires var { var < (line_pipe line.now).vars }
    ensures adds { OnOk result (AddsNames b.now line.now names.old.items names.new.items) }
    ensures has { OnOk result (IsLive (line_pipe line.now) (Keeps stage var)
        → HasVarNames b.now line.now names.new.items stage var) }
{
    if !needs.lives_from(line.pipe, stage, var) {
        return Ok(());
    }
    name_var(b, names, line, stage, var)
}

// The variables that live on in a stage.
fn name_vars(
    b: &Builder,
    names: &mut Vec<NamedNet>,
    line: &StageLine<'_>,
    needs: &Needs,
    stage: usize,
) -> Result<(), NoMemory>
    requires line { IsLineIn b.now line.now }
    requires needs { AreNeeds (line_form line.now) needs.now }
    requires low { stage < length (line_pipe line.now).stages }
    ensures adds { OnOk result (AddsNames b.now line.now names.old.items names.new.items) }
    ensures has { OnOk result ((v : ℕ) → IsLive (line_pipe line.now) (Keeps stage v)
        → HasVarNames b.now line.now names.new.items stage v) }
{
    for var in 0..line.pipe.vars() {
        name_live_var(b, names, line, needs, stage, var)?;
    }
    Ok(())
}

// An argument of the guess.
fn name_argument(
    b: &Builder,
    names: &mut Vec<NamedNet>,
    line: &StageLine<'_>,
    stage: usize,
    place: usize,
) -> Result<(), NoMemory>
    requires line { IsLineIn b.now line.now }
    requires live { IsLive (line_pipe line.now) (Guess stage place) }
    ensures adds { OnOk result (AddsNames b.now line.now names.old.items names.new.items) }
    ensures has { OnOk result (IsNamed names.new.items (Guess stage place)) }
{
    let net = variable(b, stage_of(line, stage).guess.as_slice(), place);
    name(names, net, Role::Guess { stage, place })?;
    Ok(())
}

// The arguments of the guess, where a stage from this one on verifies it.
fn name_guess(
    b: &Builder,
    names: &mut Vec<NamedNet>,
    line: &StageLine<'_>,
    needs: &Needs,
    stage: usize,
) -> Result<(), NoMemory>
    requires line { IsLineIn b.now line.now }
    requires needs { AreNeeds (line_form line.now) needs.now }
    requires low { stage < length (line_pipe line.now).stages }
    ensures adds { OnOk result (AddsNames b.now line.now names.old.items names.new.items) }
    ensures has { OnOk result ((i : ℕ) → IsLive (line_pipe line.now) (Guess stage i)
        → IsNamed names.new.items (Guess stage i)) }
{
    if !needs.verifies_from(line.pipe, stage) {
        return Ok(());
    }
    for place in 0..line.pipe.start().len() {
        name_argument(b, names, line, stage, place)?;
    }
    Ok(())
}

// What a register of a stage keeps, where it is a mark or a ticket.
fn role_of(stage: usize, item: Item) -> Option<Role>
    ensures { IfSome result IsUntold }
{
    match item {
        Item::Var(_) | Item::Guess(_) => None,
        Item::Mark { mark, mem, var } => Some(Role::Marked {
            stage,
            mark,
            mem,
            var,
        }),
        Item::Ticket(mem) => Some(Role::Ticket { stage, mem }),
    }
}

// A register of a stage, where it keeps a mark or a ticket.
fn name_item(
    b: &Builder,
    names: &mut Vec<NamedNet>,
    line: &StageLine<'_>,
    r: usize,
    role: Option<Role>,
) -> Result<(), NoMemory>
    requires { IfSome role IsUntold }
    ensures { OnOk result (AddsNames b.now line.now names.old.items names.new.items) }
{
    match role {
        Some(role) => name_reg(b, names, line, r, role),
        None => Ok(()),
    }
}

// The registers of a stage that keep marks and tickets.
fn name_items(
    b: &Builder,
    names: &mut Vec<NamedNet>,
    line: &StageLine<'_>,
    stage: usize,
) -> Result<(), NoMemory>
    requires line { IsLineIn b.now line.now }
    requires low { stage < length (line_pipe line.now).stages }
    ensures { OnOk result (AddsNames b.now line.now names.old.items names.new.items) }
{
    let s = stage_of(line, stage);
    let items = s.regs.items.as_slice();
    let mut r = s.regs.valid;
    for item in items {
        r = r.saturating_add(1);
        name_item(b, names, line, r, role_of(stage, *item))?;
    }
    Ok(())
}

// Whether a stage holds a thread, and whether that moves.
fn name_thread(
    b: &Builder,
    names: &mut Vec<NamedNet>,
    line: &StageLine<'_>,
    stage: usize,
) -> Result<(), NoMemory>
    requires line { IsLineIn b.now line.now }
    requires low { stage < length (line_pipe line.now).stages }
    ensures adds { OnOk result (AddsNames b.now line.now names.old.items names.new.items) }
    ensures holds { OnOk result (IsNamed names.new.items (Holds stage)) }
    ensures moves { OnOk result (IsNamed names.new.items (Moves stage)) }
{
    let valid = Net::Reg(stage_of(line, stage).regs.valid);
    let moves = variable(b, line.moves, stage);
    name(names, valid, Role::Holds { stage })?;
    name(names, moves, Role::Moves { stage })?;
    Ok(())
}

// A stage.
fn name_stage(
    b: &Builder,
    names: &mut Vec<NamedNet>,
    line: &StageLine<'_>,
    needs: &Needs,
    stage: usize,
) -> Result<(), NoMemory>
    requires line { IsLineIn b.now line.now }
    requires needs { AreNeeds (line_form line.now) needs.now }
    requires low { stage < length (line_pipe line.now).stages }
    ensures adds { OnOk result (AddsNames b.now line.now names.old.items names.new.items) }
    ensures has { OnOk result (HasStageNames b.now line.now names.new.items stage) }
{
    name_thread(b, names, line, stage)?;
    name_vars(b, names, line, needs, stage)?;
    name_guess(b, names, line, needs, stage)?;
    name_items(b, names, line, stage)?;
    Ok(())
}

/// All stages.
pub(crate) fn name_stages(
    b: &Builder,
    names: &mut Vec<NamedNet>,
    line: &StageLine<'_>,
    needs: &Needs,
) -> Result<(), NoMemory>
    requires line { IsLineIn b.now line.now }
    requires needs { AreNeeds (line_form line.now) needs.now }
    ensures adds { OnOk result (AddsNames b.now line.now names.old.items names.new.items) }
    ensures has { OnOk result ((k : ℕ) → k < length (line_pipe line.now).stages
        → HasStageNames b.now line.now names.new.items k) }
{
    for stage in 0..line.stages.len() {
        name_stage(b, names, line, needs, stage)?;
    }
    Ok(())
}
