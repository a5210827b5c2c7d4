// The inputs of a pipe's netlist.
ghost use Rattle.std.specs.Prelude.{◌≡◌, ℕ, ◌+◌, ◌<◌, [], IfOk, OnOk, length, slice_index_or, None};
ghost use Rattle.pdl_form.specs.FormView.{form};
ghost use Rattle.pdl_form.specs.View.{mem_view};
ghost use Rattle.pdl_form_types.specs.Stmts.{IsTypedMem, AreTypedMems};
ghost use Rattle.pdl_net.specs.Circuit.{Circuit, inputs_of, shapes_of};
ghost use Rattle.pdl_net.specs.Signal.{input_signal};
ghost use Rattle.pdl_net.specs.Meaning.{Means};
ghost use Rattle.pdl_net.specs.Growth.{ExtendsPorts};
ghost use Rattle.pdl_law_sides.specs.Readings.{reading};
ghost use Rattle.pdl_pipe_beside.specs.Ports.{AreInputs};
ghost use Rattle.pdl_pipe_ports.specs.Inputs.{reply_pair, mem_ports, IsReplyOf, AreReplies, HasReplies, AddsReplies, input_where, AreWhereRead, AreReadDelayed};

use crate::outputs::with_prefix;
use pdl_build::Builder;
use pdl_form::{FlatMem, FlatPipe};
use pdl_kit::NoMemory;
use pdl_pipe_beside::{PortInput, read_delayed};
use std::alloc::Global;

// The two inputs of a delayed memory: the reply, and the word.
fn delayed_input(alloc: Global, b: &mut Builder, mem: &FlatMem) -> Result<PortInput, NoMemory>
    requires { IsTypedMem (mem_view mem.now) }
    ensures reply { IfOk result (λ i.
        Means b.new i.reply (input_signal 1 (length (inputs_of b.old)))) }
    ensures word { IfOk result (λ i.
        Means b.new i.word (input_signal mem.now.width (length (inputs_of b.old) + 1))) }
    ensures extends { OnOk result (ExtendsPorts b.old b.new (reply_pair mem.now)) }
    ensures regs { b.new.regs ≡ b.old.regs }
{
    let name = with_prefix(alloc, b"p_", &mem.name)?;
    let reply = b.input(&name, 1)?;
    let name = with_prefix(alloc, b"pd_", &mem.name)?;
    let word = b.input(&name, mem.width)?;
    Ok(PortInput { reply, word })
}

// What comes from a memory, where it is delayed.
fn memory_input(
    alloc: Global,
    b: &mut Builder,
    mem: &FlatMem,
) -> Result<Option<PortInput>, NoMemory>
    requires { IsTypedMem (mem_view mem.now) }
    ensures input { IfOk result (IsReplyOf b.new (mem_view mem.now) (length (inputs_of b.old))) }
    ensures extends { OnOk result (ExtendsPorts b.old b.new (mem_ports mem.now)) }
    ensures regs { b.new.regs ≡ b.old.regs }
{
    if !mem.kind.is_delayed() {
        return Ok(None);
    }
    let input = delayed_input(alloc, b, mem)?;
    Ok(Some(input))
}

/// What comes from each delayed memory, by the numbers of the memories, as the first inputs of the netlist: `p_` and the memory's name, of 1 bit, and `pd_` and its name, of the memory's width.
pub fn reply_inputs(
    alloc: Global,
    b: &mut Builder,
    pipe: &FlatPipe,
) -> Result<Vec<Option<PortInput>>, NoMemory>
    requires mems { AreTypedMems (form pipe.now).pipe.mems }
    requires first { b.old.ports ≡ [] }
    ensures inputs { IfOk result (λ xs.
        AreReplies b.new (form pipe.now).pipe xs.items (length (form pipe.now).pipe.mems)) }
    ensures ports { OnOk result (HasReplies b.new (form pipe.now)) }
    ensures extends { OnOk result (AddsReplies b.old b.new (form pipe.now)) }
    ensures regs { b.new.regs ≡ b.old.regs }
    ensures shapes { OnOk result (shapes_of b.new ≡ shapes_of b.old) }
{
    let mut found = Vec::new(alloc);
    let mems = pipe.mems();
    for mem in mems {
        let input = memory_input(alloc, b, mem)?;
        found.push(input)?;
    }
    Ok(found)
}

// What comes from the memory of a number.
fn input_at(inputs: &[Option<PortInput>], m: usize) -> Option<PortInput>
    requires { m < length inputs.now }
    ensures { result ≡ slice_index_or inputs.now m None }
{
    inputs[m]
}

// What comes from a memory, where it is read delayed.
fn read_input(pipe: &FlatPipe, m: usize, input: Option<PortInput>) -> Option<PortInput>
    ensures { result ≡ input_where (reading (form pipe.now).pipe m) input }
{
    match read_delayed(pipe, m) {
        None => None,
        Some(_) => input,
    }
}

/// What comes from each memory that is read delayed, of what comes from all delayed memories: a port takes it.
pub fn read_inputs(
    alloc: Global,
    pipe: &FlatPipe,
    inputs: &[Option<PortInput>],
) -> Result<Vec<Option<PortInput>>, NoMemory>
    requires { AreReadDelayed (form pipe.now).pipe }
    ensures read { IfOk result (λ xs.
        AreWhereRead (form pipe.now).pipe inputs.now xs.items (length inputs.now)) }
    // In each circuit in which they are what comes from the delayed memories, ports may take them.
    ensures inputs { (c : Circuit)
        → AreReplies c (form pipe.now).pipe inputs.now (length (form pipe.now).pipe.mems)
        → IfOk result (λ xs. AreInputs c (form pipe.now).pipe xs.items) }
{
    let mut found = Vec::new(alloc);
    for m in 0..inputs.len() {
        let read = read_input(pipe, m, input_at(inputs, m));
        found.push(read)?;
    }
    Ok(found)
}
