// What the netlist shows.
ghost use Rattle.std.specs.Prelude.{◌≡◌, ◌<◌, ◌≤◌, ◌∷◌, ◌++◌, [], Some, IfOk, OnOk, map, length, slice_index_or, codes, decimal};
ghost use Rattle.pdl_form.specs.FormView.{form};
ghost use Rattle.pdl_form.specs.View.{mem_names};
ghost use Rattle.pdl_net.specs.Circuit.{Circuit};
ghost use Rattle.pdl_net.specs.Growth.{ExtendsPorts};
ghost use Rattle.pdl_law_parts.specs.Compiled.{port_in};
ghost use Rattle.pdl_pipe_walk.specs.Setting.{TellsTwice};
ghost use Rattle.pdl_pipe_ports.specs.ToldOutputs.{AreTold, output_of, OutsThere, ShowAll};
ghost use Rattle.pdl_pipe_ports.specs.OutputList.{stages_outs, first_outs, second_outs, commit_outs, commits_outs, request_outs, requests_outs, last_moves, all_outs};

use itoa::Buffer;
use pdl_build::Builder;
use pdl_form::{FlatMem, FlatPipe};
use pdl_kit::{Name, NoMemory, Seq};
use pdl_lockapi::LockNets;
use pdl_net::Net;
use pdl_pipe_beside::RequestNets;
use std::alloc::Global;

/// Whether a stage holds a thread, and whether that moves, 1 bit each.
#[derive(Clone, Copy)]
pub struct ShownNets {
    pub valid: Net,
    pub moves: Net,
}

/// An output that is to be added: its name and its net.
#[derive(Drop)]
pub struct OutNet {
    pub name: Name,
    pub net: Net,
}

// A name with a prefix.
pub(crate) fn with_prefix(alloc: Global, prefix: &[u8], name: &Name) -> Result<Name, NoMemory>
    ensures { IfOk result (λ n. n ≡ prefix.now ++ name.now) }
{
    let mut bytes = Vec::from_slice(alloc, prefix)?;
    bytes.extend_from_slice(name.as_bytes())?;
    Ok(Name::from_vec(bytes))
}

// A number in decimal with a prefix.
fn number_with_prefix(alloc: Global, prefix: &[u8], k: usize) -> Result<Name, NoMemory>
    ensures { IfOk result (λ n. n ≡ prefix.now ++ decimal k) }
{
    let mut buffer = Buffer::new();
    let mut bytes = Vec::from_slice(alloc, prefix)?;
    bytes.extend_from_slice(buffer.format(k).as_bytes())?;
    Ok(Name::from_vec(bytes))
}

// One more output.
fn push(outs: &mut Seq<OutNet>, name: Name, net: Net) -> Result<(), NoMemory>
    ensures { OnOk result (outs.new ≡ outs.old ++ record { name = name; net = net } ∷ []) }
{
    outs.push(OutNet { name, net })?;
    Ok(())
}

// The two outputs of a stage.
fn push_stage(
    alloc: Global,
    outs: &mut Seq<OutNet>,
    k: usize,
    stage: &ShownNets,
) -> Result<(), NoMemory>
    ensures { OnOk result (outs.new ≡ outs.old ++ stages_outs k (stage.now ∷ [])) }
{
    let name = number_with_prefix(alloc, b"v_", k)?;
    push(outs, name, stage.valid)?;
    let name = number_with_prefix(alloc, b"g_", k)?;
    push(outs, name, stage.moves)
}

// The outputs of the stages.
fn push_stages(alloc: Global, outs: &mut Seq<OutNet>, stages: &[ShownNets]) -> Result<(), NoMemory>
    ensures { OnOk result (outs.new ≡ outs.old ++ stages_outs 0 stages.now) }
{
    for (k, stage) in stages.iter().enumerate() {
        push_stage(alloc, outs, k, stage)?;
    }
    Ok(())
}

// The three outputs of a memory: whether it commits a write, the address and the value.
fn push_first(
    alloc: Global,
    outs: &mut Seq<OutNet>,
    name: &Name,
    nets: LockNets,
) -> Result<(), NoMemory>
    ensures { OnOk result (outs.new ≡ outs.old ++ first_outs name.now nets) }
{
    let commit = with_prefix(alloc, b"c_", name)?;
    push(outs, commit, nets.commit)?;
    let addr = with_prefix(alloc, b"ca_", name)?;
    push(outs, addr, nets.addr)?;
    let value = with_prefix(alloc, b"cd_", name)?;
    push(outs, value, nets.value)
}

// The three outputs of what a memory commits after that in the same cycle.
fn push_second(
    alloc: Global,
    outs: &mut Seq<OutNet>,
    name: &Name,
    nets: LockNets,
) -> Result<(), NoMemory>
    ensures { OnOk result (outs.new ≡ outs.old ++ second_outs name.now nets) }
{
    let commit = with_prefix(alloc, b"c2_", name)?;
    push(outs, commit, nets.commit2)?;
    let addr = with_prefix(alloc, b"ca2_", name)?;
    push(outs, addr, nets.addr2)?;
    let value = with_prefix(alloc, b"cd2_", name)?;
    push(outs, value, nets.value2)
}

// The outputs of what a memory commits: of a second commit where some path reserves the memory twice to write.
fn push_commits(
    alloc: Global,
    outs: &mut Seq<OutNet>,
    name: &Name,
    twice: bool,
    nets: LockNets,
) -> Result<(), NoMemory>
    ensures { OnOk result (outs.new ≡ outs.old ++ commit_outs name.now twice (Some nets)) }
{
    push_first(alloc, outs, name, nets)?;
    if twice {
        push_second(alloc, outs, name, nets)?;
    }
    Ok(())
}

// The outputs of a memory with a lock; another one has none.
fn push_memory(
    alloc: Global,
    outs: &mut Seq<OutNet>,
    m: &FlatMem,
    twice: bool,
    nets: Option<LockNets>,
) -> Result<(), NoMemory>
    ensures { OnOk result (outs.new ≡ outs.old ++ commit_outs m.now.name twice nets) }
{
    match nets {
        Some(nets) => push_commits(alloc, outs, &m.name, twice, nets),
        None => Ok(()),
    }
}

// What the memory of a number commits.
fn nets_at(nets: &[Option<LockNets>], m: usize) -> Option<LockNets>
    requires { m < length nets.now }
    ensures { result ≡ slice_index_or nets.now m result }
{
    nets[m]
}

// Whether some path reserves the memory of a number twice to write.
fn flag_at(twice: &[bool], m: usize) -> bool
    requires { m < length twice.now }
    ensures { result ≡ slice_index_or twice.now m result }
{
    twice[m]
}

// The outputs of all memories with a lock, in order.
fn push_memories(
    alloc: Global,
    outs: &mut Seq<OutNet>,
    mems: &[FlatMem],
    twice: &[bool],
    nets: &[Option<LockNets>],
) -> Result<(), NoMemory>
    requires twice { length twice.now ≡ length mems.now }
    requires nets { length nets.now ≡ length mems.now }
    ensures { OnOk result (outs.new ≡ outs.old
        ++ commits_outs (mem_names mems.now) twice.now nets.now) }
{
    for (i, m) in mems.iter().enumerate() {
        push_memory(alloc, outs, m, flag_at(twice, i), nets_at(nets, i))?;
    }
    Ok(())
}

// The two outputs of a delayed memory: whether something is asked of it, and the address.
fn push_request(
    alloc: Global,
    outs: &mut Seq<OutNet>,
    name: &Name,
    nets: RequestNets,
) -> Result<(), NoMemory>
    ensures { OnOk result (outs.new ≡ outs.old ++ request_outs name.now (Some nets)) }
{
    let asks = with_prefix(alloc, b"q_", name)?;
    push(outs, asks, nets.enable)?;
    let address = with_prefix(alloc, b"qa_", name)?;
    push(outs, address, nets.addr)
}

// The outputs of a memory of which something is asked; another one has none.
fn push_asked(
    alloc: Global,
    outs: &mut Seq<OutNet>,
    m: &FlatMem,
    nets: Option<RequestNets>,
) -> Result<(), NoMemory>
    ensures { OnOk result (outs.new ≡ outs.old ++ request_outs m.now.name nets) }
{
    match nets {
        Some(nets) => push_request(alloc, outs, &m.name, nets),
        None => Ok(()),
    }
}

// What is asked of the memory of a number.
fn request_at(requests: &[Option<RequestNets>], m: usize) -> Option<RequestNets>
    requires { m < length requests.now }
    ensures { result ≡ slice_index_or requests.now m result }
{
    requests[m]
}

// The outputs of all delayed memories, in order.
fn push_requests(
    alloc: Global,
    outs: &mut Seq<OutNet>,
    mems: &[FlatMem],
    requests: &[Option<RequestNets>],
) -> Result<(), NoMemory>
    requires { length requests.now ≡ length mems.now }
    ensures { OnOk result (outs.new ≡ outs.old
        ++ requests_outs (mem_names mems.now) requests.now) }
{
    for (i, m) in mems.iter().enumerate() {
        push_asked(alloc, outs, m, request_at(requests, i))?;
    }
    Ok(())
}

// Whether the thread of the last stage moves, `none` where there is no stage.
fn last_of(stages: &[ShownNets], none: Net) -> Net
    ensures { result ≡ last_moves stages.now none }
{
    let mut last = none;
    for stage in stages {
        last = stage.moves;
    }
    last
}

// One more output, of a name without a number.
fn push_named(alloc: Global, outs: &mut Seq<OutNet>, name: &[u8], net: Net) -> Result<(), NoMemory>
    ensures { OnOk result (outs.new ≡ outs.old ++ record { name = name.now; net = net } ∷ []) }
{
    let name = Name::copy_of(alloc, name)?;
    push(outs, name, net)
}

// All outputs, with their nets.
fn all(
    alloc: Global,
    mems: &[FlatMem],
    twice: &[bool],
    stages: &[ShownNets],
    nets: &[Option<LockNets>],
    requests: &[Option<RequestNets>],
    squash: Net,
) -> Result<Seq<OutNet>, NoMemory>
    requires twice { length twice.now ≡ length mems.now }
    requires nets { length nets.now ≡ length mems.now }
    requires asks { length requests.now ≡ length mems.now }
    ensures { IfOk result (λ os.
        os ≡ all_outs (mem_names mems.now) twice.now stages.now nets.now requests.now squash) }
{
    let mut outs = Seq::new(alloc);
    push_stages(alloc, &mut outs, stages)?;
    push_memories(alloc, &mut outs, mems, twice, nets)?;
    push_requests(alloc, &mut outs, mems, requests)?;
    push_named(alloc, &mut outs, b"ended", last_of(stages, squash))?;
    push_named(alloc, &mut outs, b"squash", squash)?;
    Ok(outs)
}

/// The outputs of a pipe: of each stage whether it holds a thread and whether that moves, of each memory with a lock what it commits, of each delayed memory what is asked of it, whether a thread ends, and whether one is squashed.
///
/// `stages` has one for each stage, `twice`, `nets` and `requests` one for each memory, in order: `twice` says whether some path reserves the memory twice to write, and so shows a second commit.
pub fn all_outputs(
    alloc: Global,
    pipe: &FlatPipe,
    twice: &[bool],
    stages: &[ShownNets],
    nets: &[Option<LockNets>],
    requests: &[Option<RequestNets>],
    squash: Net,
) -> Result<Seq<OutNet>, NoMemory>
    requires some { 1 ≤ length stages.now }
    requires count { length stages.now ≡ length (form pipe.now).pipe.stages }
    requires twice { TellsTwice (form pipe.now) twice.now }
    requires mems { length nets.now ≡ length (form pipe.now).pipe.mems }
    requires asks { length requests.now ≡ length (form pipe.now).pipe.mems }
    // In each circuit in which what is told is there, so are the outputs, and they show it.
    ensures there { (c : Circuit)
        → AreTold c (form pipe.now).pipe stages.now nets.now requests.now squash
        → IfOk result (λ os. OutsThere c os) }
    ensures shown { (c : Circuit)
        → AreTold c (form pipe.now).pipe stages.now nets.now requests.now squash
        → IfOk result (ShowAll c (form pipe.now) stages.now squash nets.now requests.now) }
{
    all(alloc, pipe.mems(), twice, stages, nets, requests, squash)
}

/// Adds the outputs to the netlist, in order.
pub fn show(b: &mut Builder, outs: &[OutNet]) -> Result<(), NoMemory>
    requires there { OutsThere b.old outs.now }
    ensures ports { OnOk result (ExtendsPorts b.old b.new
        (map (port_in b.old) (map output_of outs.now))) }
    ensures regs { b.new.regs ≡ b.old.regs }
{
    for o in outs {
        b.output(&o.name, o.net)?;
    }
    Ok(())
}
