// Where a memory's commit and request ports stand among the outputs.

ghost use Rattle.std.specs.Prelude.{◌≡◌, ◌++◌, map, filter_map, bytes_eq, IfOk};
ghost use Rattle.std.specs.List.{position_from};
ghost use Rattle.pdl_net.specs.Circuit.{circuit_of, port_output};
ghost use Rattle.pdl_net.specs.Run.{place_of as place_in};
ghost use Rattle.pdl_netrun.specs.Outside.{requests_of};
ghost use Rattle.pdl_netrun.specs.Places.{first_of, places_of, second_of};

use pdl_kit::{MemInfo, Name, NoMemory};
use pdl_net::{Dir, Netlist, Port};
use std::alloc::Global;

/// The places of the three ports of a commit among the outputs, where they are.
#[derive(Clone, Copy)]
pub struct CommitPlaces {
    pub commit: Option<usize>,
    pub addr: Option<usize>,
    pub value: Option<usize>,
}

/// The places of the ports of a memory's commits: of its first one in a cycle, and of its second.
#[derive(Clone, Copy)]
pub struct MemoryPlaces {
    pub first: CommitPlaces,
    pub second: CommitPlaces,
}

/// The places of a delayed memory's request ports among the outputs, where they are.
#[derive(Clone, Copy)]
pub struct RequestPlaces {
    pub request: Option<usize>,
    pub addr: Option<usize>,
}

/// The places of a delayed memory's request ports.
pub fn request_places(
    alloc: Global,
    net: &Netlist,
    mem: &MemInfo,
) -> Result<RequestPlaces, NoMemory>
    ensures { IfOk result (λ p. p ≡ requests_of (circuit_of net.now) mem.now.name) }
{
    let request = prefixed_place(alloc, net, b"q_", &mem.name)?;
    let addr = prefixed_place(alloc, net, b"qa_", &mem.name)?;
    Ok(RequestPlaces { request, addr })
}

/// The places of all memories' commit ports, in the memories' order.
pub fn all_places(alloc: Global, net: &Netlist) -> Result<Vec<MemoryPlaces>, NoMemory>
    ensures { IfOk result (λ v. v.items
        ≡ map (λ m. places_of (circuit_of net.now) m.name) net.now.mems) }
{
    let mut places = Vec::new(alloc);
    for mem in net.mems.as_slice() {
        let found = places_of_mem(alloc, net, mem)?;
        places.push(found)?;
    }
    Ok(places)
}

/// The places of a memory's commit ports.
pub fn places_of_mem(alloc: Global, net: &Netlist, mem: &MemInfo) -> Result<MemoryPlaces, NoMemory>
    ensures { IfOk result (λ p. p ≡ places_of (circuit_of net.now) mem.now.name) }
{
    let first = first_places(alloc, net, mem)?;
    let second = second_places(alloc, net, mem)?;
    Ok(MemoryPlaces { first, second })
}

/// The places of the ports of a memory's first commit in a cycle.
fn first_places(alloc: Global, net: &Netlist, mem: &MemInfo) -> Result<CommitPlaces, NoMemory>
    ensures { IfOk result (λ p. p ≡ first_of (circuit_of net.now) mem.now.name) }
{
    let commit = prefixed_place(alloc, net, b"c_", &mem.name)?;
    let addr = prefixed_place(alloc, net, b"ca_", &mem.name)?;
    let value = prefixed_place(alloc, net, b"cd_", &mem.name)?;
    Ok(CommitPlaces {
        commit,
        addr,
        value,
    })
}

/// The places of the ports of its second one.
fn second_places(alloc: Global, net: &Netlist, mem: &MemInfo) -> Result<CommitPlaces, NoMemory>
    ensures { IfOk result (λ p. p ≡ second_of (circuit_of net.now) mem.now.name) }
{
    let commit = prefixed_place(alloc, net, b"c2_", &mem.name)?;
    let addr = prefixed_place(alloc, net, b"ca2_", &mem.name)?;
    let value = prefixed_place(alloc, net, b"cd2_", &mem.name)?;
    Ok(CommitPlaces {
        commit,
        addr,
        value,
    })
}

/// The place of the output whose name is a prefix and then a memory's name.
fn prefixed_place(
    alloc: Global,
    net: &Netlist,
    prefix: &[u8],
    mem: &Name,
) -> Result<Option<usize>, NoMemory>
    ensures { IfOk result (λ p. p ≡ place_in (circuit_of net.now) (prefix.now ++ mem.now)) }
{
    let mut name = Vec::from_slice(alloc, prefix)?;
    name.extend_from_slice(mem.as_bytes())?;
    Ok(place_of(net.ports.as_slice(), &name))
}

/// The place of the first output of a name.
fn place_of(ports: &[Port], name: &[u8]) -> Option<usize>
    ensures { result ≡ position_from (λ o. bytes_eq o.name name.now) 0
        (filter_map port_output ports.now) }
{
    let mut place = 0;
    for port in ports {
        if let Dir::Out(_) = port.dir {
            if port.name.as_bytes() == name {
                return Some(place);
            }
            place += 1;
        }
    }
    None
}
