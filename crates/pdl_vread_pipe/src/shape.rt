// What ports tell of a pipe.
ghost use Rattle.std.specs.Prelude.{◌≡◌, ◌++◌, ◌∷◌, [], IfOk, OnOk, drop, false, slice_index, slice_index_or};
ghost use Rattle.pdl_net.specs.Pipe.{head_of};
ghost use Rattle.std.specs.Option.{option_copied};
ghost use Rattle.pdl_vread_pipe.specs.ExpectedPorts.{heads};
ghost use Rattle.pdl_vread_pipe.specs.ToldParts as spec;

use crate::port_mem::PortMem;
use pdl_kit::{Name, NoMemory, Seq};
use pdl_net::Port;
use std::alloc::Global;

/// What ports tell of a pipe: how many stages it has, its delayed memories, and its locked ones.
#[derive(Drop)]
pub struct Shape {
    pub stages: usize,
    pub delayed: Seq<PortMem>,
    pub locked: Seq<PortMem>,
}

/// What stands after a prefix, where a name begins with it.
#[tactic(auto, using(crate::proofs::Strips::stripped))]
pub fn rest_of<'a>(name: &'a [u8], prefix: &[u8]) -> Option<&'a [u8]>
    ensures { option_copied result ≡ spec.strip prefix.now name.now }
{
    name.strip_prefix(prefix)
}

// One name more, where a port's name begins with a prefix.
fn push_name(
    alloc: Global,
    names: &mut Seq<Name>,
    prefix: &[u8],
    port: &Port,
) -> Result<(), NoMemory>
    ensures { OnOk result (names.new ≡ names.old ++ spec.names prefix.now (head_of port.now ∷ [])) }
{
    match rest_of(port.name.as_bytes(), prefix) {
        Some(rest) => {
            let name = Name::copy_of(alloc, rest)?;
            names.push(name)
        }
        None => Ok(()),
    }
}

// Of each port whose name begins with a prefix, what stands after it.
#[tactic(auto, using(crate::proofs::Strips::names_more))]
fn names(alloc: Global, ports: &[Port], prefix: &[u8]) -> Result<Seq<Name>, NoMemory>
    ensures { IfOk result (λ ns. ns ≡ spec.names prefix.now (heads ports.now)) }
{
    let mut names = Seq::new(alloc);
    for port in ports {
        push_name(alloc, &mut names, prefix, port)?;
    }
    Ok(names)
}

// One width more, where a port's name begins with a prefix.
fn push_width(widths: &mut Seq<u8>, prefix: &[u8], port: &Port) -> Result<(), NoMemory>
    ensures { OnOk result
        (widths.new ≡ widths.old ++ spec.widths prefix.now (head_of port.now ∷ [])) }
{
    match rest_of(port.name.as_bytes(), prefix) {
        Some(_) => widths.push(port.width),
        None => Ok(()),
    }
}

// The widths of the ports whose names begin with a prefix.
#[tactic(auto, using(crate::proofs::Strips::widths_more))]
fn widths(alloc: Global, ports: &[Port], prefix: &[u8]) -> Result<Seq<u8>, NoMemory>
    ensures { IfOk result (λ ws. ws ≡ spec.widths prefix.now (heads ports.now)) }
{
    let mut widths = Seq::new(alloc);
    for port in ports {
        push_width(&mut widths, prefix, port)?;
    }
    Ok(widths)
}

// A width, or 0 where it isn't there.
fn width_at(widths: &[u8], k: usize) -> u8
    ensures { result ≡ slice_index widths.now k }
{
    match widths.get(k) {
        Some(width) => *width,
        None => 0,
    }
}

// Whether the third of some ports has a name that begins with `c2_`.
#[tactic(auto, using(crate::proofs::Strips::third_missing))]
fn third_is_second(ports: &[Port]) -> bool
    ensures { result ≡ spec.begins_second (drop 2 (heads ports.now)) }
{
    match ports {
        [_, _, port, ..] => rest_of(port.name.as_bytes(), b"c2_").is_some(),
        _ => false,
    }
}

// Whether the third of the ports after one has a name that begins with `c2_`, where its own begins with `c_`.
fn push_second(seconds: &mut Seq<bool>, port: &Port, later: &[Port]) -> Result<(), NoMemory>
    ensures { OnOk result
        (seconds.new ≡ seconds.old ++ spec.second_after (head_of port.now) (heads later.now)) }
{
    match rest_of(port.name.as_bytes(), b"c_") {
        Some(_) => seconds.push(third_is_second(later)),
        None => Ok(()),
    }
}

// Of each port whose name begins with `c_`, whether the third one after it has a name that begins with `c2_`.
#[tactic(auto, using(crate::proofs::Strips::seconds_more))]
fn seconds(alloc: Global, ports: &[Port]) -> Result<Seq<bool>, NoMemory>
    ensures { IfOk result (λ ts. ts ≡ spec.seconds (heads ports.now)) }
{
    let mut seconds = Seq::new(alloc);
    for k in 0..ports.len() {
        push_second(&mut seconds, &ports[k], &ports[k + 1..])?;
    }
    Ok(seconds)
}

// A flag, or false where it isn't there.
fn flag_at(flags: &[bool], k: usize) -> bool
    ensures { result ≡ slice_index_or flags.now k false }
{
    match flags.get(k) {
        Some(flag) => *flag,
        None => false,
    }
}

// The memories of these names, widths, address bits and flags.
fn with_widths(
    alloc: Global,
    names: &[Name],
    widths: &[u8],
    bits: &[u8],
    twice: &[bool],
) -> Result<Seq<PortMem>, NoMemory>
    ensures { IfOk result (λ ms. ms ≡ spec.mems_from 0 names.now widths.now bits.now twice.now) }
{
    let mut mems = Seq::new(alloc);
    for k in 0..names.len() {
        let name = names[k].clone()?;
        let mem = PortMem::new(
            name,
            width_at(widths, k),
            width_at(bits, k),
            flag_at(twice, k),
        );
        mems.push(mem)?;
    }
    Ok(mems)
}

// The memories with a port of one prefix, their words and addresses being told by ports of two others.
fn memories(
    alloc: Global,
    ports: &[Port],
    prefix: &[u8],
    word: &[u8],
    address: &[u8],
    twice: &[bool],
) -> Result<Seq<PortMem>, NoMemory>
    ensures { IfOk result (λ ms. ms
        ≡ spec.mems prefix.now word.now address.now twice.now (heads ports.now)) }
{
    let names = names(alloc, ports, prefix)?;
    let words = widths(alloc, ports, word)?;
    let bits = widths(alloc, ports, address)?;
    with_widths(
        alloc,
        names.as_slice(),
        words.as_slice(),
        bits.as_slice(),
        twice,
    )
}

// The locked memories.
fn locked(alloc: Global, ports: &[Port]) -> Result<Seq<PortMem>, NoMemory>
    ensures { IfOk result (λ ms. ms ≡ (spec.told (heads ports.now)).locked) }
{
    let twice = seconds(alloc, ports)?;
    memories(alloc, ports, b"c_", b"cd_", b"ca_", twice.as_slice())
}

impl Shape {
    /// What these ports tell.
    pub fn of(alloc: Global, ports: &[Port]) -> Result<Shape, NoMemory>
        ensures { IfOk result (λ s. s ≡ spec.told (heads ports.now)) }
    {
        Ok(Shape {
            stages: names(alloc, ports, b"v_")?.len(),
            delayed: memories(alloc, ports, b"p_", b"pd_", b"qa_", &[])?,
            locked: locked(alloc, ports)?,
        })
    }
}
