// Whether ports are those of a shape.
ghost use Rattle.std.specs.Prelude.{◌≡◌, ◌++◌, ◌∷◌, [], bytes_eq, flat_map};
ghost use Rattle.std.specs.List.{range_with_len};
ghost use Rattle.std.specs.Option.{option_copied, option_map};
ghost use Rattle.pdl_net.specs.Pipe.{head_of, is_input, pipe_ports, reply_ports, stage_ports, commit_ports, request_ports};
ghost use Rattle.pdl_vread_pipe.specs.ExpectedPorts.{after, heads, same, three_ports, Leaves};
ghost use Rattle.pdl_vread_pipe.specs.Tests as spec;

use crate::port_mem::PortMem;
use crate::shape::{Shape, rest_of};
use itoa::Buffer;
use pdl_net::{Dir, Port};

// Whether a port is an input.
fn comes_in(dir: Dir) -> bool
    ensures { result ≡ is_input dir }
{
    match dir {
        Dir::In => true,
        Dir::Out(_) => false,
    }
}

// Whether a name is a prefix with what stands after it.
#[tactic(auto, using(crate::proofs::Strips::named))]
fn is_named(name: &[u8], prefix: &[u8], rest: &[u8]) -> bool
    ensures { result ≡ bytes_eq name.now (prefix.now ++ rest.now) }
{
    match rest_of(name, prefix) {
        Some(after) => after == rest,
        None => false,
    }
}

// Whether a port has this name and width, and is an input or an output.
fn is_port(port: &Port, prefix: &[u8], rest: &[u8], width: u8, input: bool) -> bool
    ensures { result
        ≡ same (record { name = prefix.now ++ rest.now; width = width; input = input })
        (head_of port.now) }
{
    is_named(port.name.as_bytes(), prefix, rest)
        && port.width == width
        && if input {
            comes_in(port.dir)
        } else {
            !comes_in(port.dir)
        }
}

// The ports after one of this name and width.
fn expect<'a>(
    ports: &'a [Port],
    prefix: &[u8],
    rest: &[u8],
    width: u8,
    input: bool,
) -> Option<&'a [Port]>
    ensures { Leaves
        (record { name = prefix.now ++ rest.now; width = width; input = input } ∷ [])
        ports.now result }
{
    match ports {
        [port, left @ ..] => if is_port(port, prefix, rest, width, input) {
            Some(left)
        } else {
            None
        },
        [] => None,
    }
}

// The ports after those of a delayed memory that answer.
#[tactic(auto, using(crate::proofs::Strips::one_by_one))]
fn reply<'a>(ports: &'a [Port], mem: &PortMem) -> Option<&'a [Port]>
    ensures { Leaves (reply_ports mem.now) ports.now result }
{
    let name = mem.name().as_bytes();
    let left = expect(ports, b"p_", name, 1, true)?;
    expect(left, b"pd_", name, mem.width(), true)
}

#[tactic(auto, using(crate::proofs::Strips::all_of_them))]
fn replies<'a>(ports: &'a [Port], mems: &[PortMem]) -> Option<&'a [Port]>
    ensures { Leaves (flat_map reply_ports mems.now) ports.now result }
{
    let mut left = ports;
    for mem in mems {
        left = reply(left, mem)?;
    }
    Some(left)
}

// The ports after those of a stage.
#[tactic(auto, using(crate::proofs::Strips::one_by_one))]
fn stage<'a>(ports: &'a [Port], k: usize) -> Option<&'a [Port]>
    ensures { Leaves (stage_ports k) ports.now result }
{
    let mut buffer = Buffer::new();
    let number = buffer.format(k).as_bytes();
    let left = expect(ports, b"v_", number, 1, false)?;
    expect(left, b"g_", number, 1, false)
}

#[tactic(auto, using(crate::proofs::Strips::all_of_them))]
fn stages<'a>(ports: &'a [Port], count: usize) -> Option<&'a [Port]>
    ensures { Leaves (flat_map stage_ports (range_with_len 0 count)) ports.now result }
{
    let mut left = ports;
    for k in 0..count {
        left = stage(left, k)?;
    }
    Some(left)
}

// The ports after the three of a commit of a locked memory, which have these prefixes.
#[tactic(auto, using(crate::proofs::Strips::one_by_one))]
fn three<'a>(
    ports: &'a [Port],
    mem: &PortMem,
    enable: &[u8],
    addr: &[u8],
    value: &[u8],
) -> Option<&'a [Port]>
    ensures { Leaves (three_ports enable.now addr.now value.now mem.now) ports.now result }
{
    let name = mem.name().as_bytes();
    let left = expect(ports, enable, name, 1, false)?;
    let left = expect(left, addr, name, mem.bits(), false)?;
    expect(left, value, name, mem.width(), false)
}

// The ports after those of a locked memory that commit.
#[tactic(auto, using(crate::proofs::Strips::committing))]
fn commit<'a>(ports: &'a [Port], mem: &PortMem) -> Option<&'a [Port]>
    ensures { Leaves (commit_ports mem.now) ports.now result }
{
    let left = three(ports, mem, b"c_", b"ca_", b"cd_")?;
    if mem.commits_twice() {
        three(left, mem, b"c2_", b"ca2_", b"cd2_")
    } else {
        Some(left)
    }
}

#[tactic(auto, using(crate::proofs::Strips::all_of_them))]
fn commits<'a>(ports: &'a [Port], mems: &[PortMem]) -> Option<&'a [Port]>
    ensures { Leaves (flat_map commit_ports mems.now) ports.now result }
{
    let mut left = ports;
    for mem in mems {
        left = commit(left, mem)?;
    }
    Some(left)
}

// The ports after those of a delayed memory that ask.
#[tactic(auto, using(crate::proofs::Strips::one_by_one))]
fn request<'a>(ports: &'a [Port], mem: &PortMem) -> Option<&'a [Port]>
    ensures { Leaves (request_ports mem.now) ports.now result }
{
    let name = mem.name().as_bytes();
    let left = expect(ports, b"q_", name, 1, false)?;
    expect(left, b"qa_", name, mem.bits(), false)
}

#[tactic(auto, using(crate::proofs::Strips::all_of_them))]
fn requests<'a>(ports: &'a [Port], mems: &[PortMem]) -> Option<&'a [Port]>
    ensures { Leaves (flat_map request_ports mems.now) ports.now result }
{
    let mut left = ports;
    for mem in mems {
        left = request(left, mem)?;
    }
    Some(left)
}

// The ports after those of each pipe.
#[tactic(auto, using(crate::proofs::Strips::one_by_one))]
fn ends<'a>(ports: &'a [Port]) -> Option<&'a [Port]>
    ensures { Leaves spec.last_ports ports.now result }
{
    let left = expect(ports, b"ended", b"", 1, false)?;
    expect(left, b"squash", b"", 1, false)
}

// The ports after those of a shape.
#[tactic(auto, using(crate::proofs::Strips::after_both, crate::proofs::Strips::after_stop))]
fn all<'a>(ports: &'a [Port], shape: &Shape) -> Option<&'a [Port]>
    ensures { Leaves
        (pipe_ports shape.now.stages shape.now.delayed shape.now.locked) ports.now result }
{
    let left = replies(ports, shape.delayed.as_slice())?;
    let left = stages(left, shape.stages)?;
    let left = commits(left, shape.locked.as_slice())?;
    let left = requests(left, shape.delayed.as_slice())?;
    ends(left)
}

/// Whether ports are those of a shape.
pub fn has_ports(ports: &[Port], shape: &Shape) -> bool
    ensures { result ≡ spec.has_ports (heads ports.now) shape.now }
{
    match all(ports, shape) {
        Some(left) => left.is_empty(),
        None => false,
    }
}
