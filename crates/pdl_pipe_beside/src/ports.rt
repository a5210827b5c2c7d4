// The registers of the ports of delayed memories.
ghost use Rattle.std.specs.Prelude.{◌≡◌, ℕ, ◌<◌, ◌≤◌, Some, true, IfOk, is_some, length};
ghost use Rattle.pdl_semantics.specs.Stages.{mem_at, stage_at};
ghost use Rattle.pdl_form.specs.FormView.{form};
ghost use Rattle.pdl_form.specs.View.{mem_view, next_view};
ghost use Rattle.pdl_net.specs.Growth.{Extends};
ghost use Rattle.pdl_port.specs.Laws.{own as port_own};
ghost use Rattle.pdl_machine_inflight.specs.Readings.{Reading, places_of, reading as read_of};
ghost use Rattle.pdl_pipe_answers.specs.Ports.{HasAnswers};
ghost use Rattle.pdl_pipe_beside.specs.Parts.{AreParts, IsNewPart};
ghost use Rattle.pdl_pipe_beside.specs.Ports.{ReadsLeadOn, input_at as input_in, IsInput, AreInputs, IsPort, HasPortOf, has_port};

use crate::PortInput;
use pdl_build::Builder;
use pdl_form::{FlatMem, FlatPipe, Next};
use pdl_kit::{MemInfo, NoMemory};
use pdl_pipe_answers::{next_of, read_delayed};
use pdl_port::{PortRegs, emit_port_state};
use std::alloc::Global;

// How many stages a stage leads to.
pub(crate) fn place_count(next: Next) -> u8
    ensures count { result ≡ length (places_of (next_view next)) }
    ensures few { result ≤ 2 }
{
    match next {
        Next::Ends => 0,
        Next::Goes(_) => 1,
        Next::Forks { .. } => 2,
    }
}

// The memory of a number.
pub(crate) fn memory(pipe: &FlatPipe, m: usize) -> &FlatMem
    requires { m < length (form pipe.now).pipe.mems }
    ensures { mem_view result.now ≡ mem_at (form pipe.now).pipe m }
{
    &pipe.mems()[m]
}

// A memory as it is told to its port.
fn info(mem: &FlatMem) -> Result<MemInfo, NoMemory>
    ensures { IfOk result (λ i. i.width ≡ mem.now.width) }
{
    let name = mem.name.clone()?;
    Ok(MemInfo {
        name,
        width: mem.width,
        depth: mem.depth,
        delayed: mem.kind.is_delayed(),
    })
}

// The inputs of a memory's port.
fn input_of(inputs: &[Option<PortInput>], m: usize) -> PortInput
    requires low { m < length inputs.now }
    requires some { is_some (input_in inputs.now m) ≡ true }
    ensures { input_in inputs.now m ≡ Some result }
{
    match inputs[m] {
        Some(input) => input,
        None => unreachable!(),
    }
}

// The port of a memory that is read delayed in a stage.
fn lay_port(
    alloc: Global,
    b: &mut Builder,
    pipe: &FlatPipe,
    m: usize,
    stage: usize,
    input: PortInput,
) -> Result<PortRegs, NoMemory>
    requires low { m < length (form pipe.now).pipe.mems }
    requires leads { 1 ≤ length (places_of (stage_at (form pipe.now).pipe stage).next) }
    requires input { IsInput b.old (mem_at (form pipe.now).pipe m).width input }
    ensures port { IfOk result (λ q. (r : Reading) → r.stage ≡ stage →
        IsPort b.new (form pipe.now).pipe m r q) }
    ensures reply { IfOk result (λ q. q.reply ≡ input.reply) }
    ensures word { IfOk result (λ q. q.word ≡ input.word) }
    ensures new { IfOk result (λ q. IsNewPart port_own b.old b.new (Some q)) }
    ensures extends { Extends b.old b.new }
{
    let info = info(memory(pipe, m))?;
    let count = place_count(next_of(pipe, stage));
    let port = emit_port_state(alloc, b, &info, input.reply, input.word, count)?;
    Ok(port)
}

// The port of a memory, where it is read delayed.
fn lay_memory_port(
    alloc: Global,
    b: &mut Builder,
    pipe: &FlatPipe,
    inputs: &[Option<PortInput>],
    m: usize,
) -> Result<Option<PortRegs>, NoMemory>
    requires low { m < length (form pipe.now).pipe.mems }
    requires leads { ReadsLeadOn (form pipe.now).pipe }
    requires inputs { AreInputs b.old (form pipe.now).pipe inputs.now }
    ensures port { IfOk result (λ q.
        HasPortOf b.new (form pipe.now).pipe m (input_in inputs.now m) q) }
    ensures new { IfOk result (λ q. IsNewPart port_own b.old b.new q) }
    ensures extends { Extends b.old b.new }
{
    match read_delayed(pipe, m) {
        None => Ok(None),
        Some(r) => {
            let input = input_of(inputs, m);
            let port = lay_port(alloc, b, pipe, m, r.stage, input)?;
            Ok(Some(port))
        }
    }
}

/// The registers of a port for each memory that is read delayed, by the numbers of the memories, with the nets that say whom its answer reaches.
///
/// `inputs` has for each such memory what comes from it.
pub fn lay_ports(
    alloc: Global,
    b: &mut Builder,
    pipe: &FlatPipe,
    inputs: &[Option<PortInput>],
) -> Result<Vec<Option<PortRegs>>, NoMemory>
    requires leads { ReadsLeadOn (form pipe.now).pipe }
    requires inputs { AreInputs b.old (form pipe.now).pipe inputs.now }
    ensures ports { IfOk result (λ qs.
        AreParts port_own (has_port b.new (form pipe.now).pipe inputs.now)
        (length b.old.regs) (length b.new.regs) qs.items
        (length (form pipe.now).pipe.mems)) }
    ensures answers { IfOk result (λ qs. HasAnswers b.new (form pipe.now).pipe qs.items) }
    ensures extends { Extends b.old b.new }
{
    let mut ports = Vec::new(alloc);
    for m in 0..pipe.mems().len() {
        let port = lay_memory_port(alloc, b, pipe, inputs, m)?;
        ports.push(port)?;
    }
    Ok(ports)
}
