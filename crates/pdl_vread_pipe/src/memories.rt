// Whether memories and arrays are those of a pipe.
ghost use Rattle.std.specs.Prelude.{◌≡◌, ◌≤◌, ◌==◌, ◌^◌, ◌*◌, ◌++◌, IfOk, bytes_eq, find, map, All};
ghost use Rattle.std.specs.List.{list_all, list_any};
ghost use Rattle.std.specs.Option.{option_copied};
ghost use Rattle.pdl_net.specs.Pipe.{comb_info, delayed_info, mems_of};
ghost use Rattle.pdl_vread_pipe.specs.Tests as spec;

use crate::port_mem::PortMem;
use crate::shape::Shape;
use pdl_kit::{MemInfo, Name, NoMemory, Seq};
use pdl_net::Array;
use std::alloc::Global;

// The first memory of a name.
fn find<'a>(mems: &'a [PortMem], name: &Name) -> Option<&'a PortMem>
    ensures { option_copied result ≡ spec.find_named name.now mems.now }
{
    for mem in mems {
        if mem.name() == name {
            return Some(mem);
        }
    }
    None
}

// Whether a memory has this name.
fn has_name(mems: &[PortMem], name: &Name) -> bool
    ensures { result ≡ list_any (spec.is_named name.now) mems.now }
{
    for mem in mems {
        if mem.name() == name {
            return true;
        }
    }
    false
}

/// Whether all addresses have 1 to 16 bits.
pub fn have_addresses(mems: &[PortMem]) -> bool
    ensures { result ≡ list_all spec.has_address mems.now }
{
    for mem in mems {
        if mem.bits() < 1 || 16 < mem.bits() {
            return false;
        }
    }
    true
}

fn same_sizes(one: &PortMem, other: &PortMem) -> bool
    ensures { result ≡ spec.same_sizes one.now other.now }
{
    one.width() == other.width() && one.bits() == other.bits()
}

// Whether each locked memory of a delayed one's name has its sizes.
fn agrees_with_all(delayed: &PortMem, locked: &[PortMem]) -> bool
    ensures { result ≡ spec.all_agree locked.now delayed.now }
{
    for mem in locked {
        if delayed.name() == mem.name() && !same_sizes(delayed, mem) {
            return false;
        }
    }
    true
}

fn all_agree(delayed: &[PortMem], locked: &[PortMem]) -> bool
    ensures { result ≡ list_all (spec.all_agree locked.now) delayed.now }
{
    for mem in delayed {
        if !agrees_with_all(mem, locked) {
            return false;
        }
    }
    true
}

// Whether so many address bits reach each word and no more.
#[tactic(auto, using(crate::proofs::Depths::reached))]
fn reaches(bits: u8, depth: u64) -> bool
    ensures { result ≡ (depth == 2 ^ bits) }
{
    bits < 64 && 1 << bits == depth
}

// Whether a depth is that of so many address bits, or twice that.
#[tactic(auto, using(crate::proofs::Depths::doubled))]
fn has_depth(bits: u8, depth: u32) -> bool
    ensures { result ≡ spec.has_depth bits depth }
{
    let depth = u64::from(depth);
    reaches(bits, depth) || (bits < 32 && reaches(bits + 1, depth))
}

// Whether an array has the width of each locked memory of its name, and the depth or twice that.
fn fits_locks(array: &Array, locked: &[PortMem]) -> bool
    ensures { result ≡ list_all (spec.fits_lock array.now) locked.now }
{
    for mem in locked {
        if *mem.name() == array.name
            && !(array.width == mem.width() && has_depth(mem.bits(), array.depth))
        {
            return false;
        }
    }
    true
}

// Whether an array is one of a memory that isn't delayed.
fn is_array(delayed: &[PortMem], locked: &[PortMem], array: &Array) -> bool
    ensures { result ≡ spec.is_array delayed.now locked.now array.now }
{
    !has_name(delayed, &array.name)
        && fits_locks(array, locked)
        && (has_name(locked, &array.name) || array.depth <= 65_536)
}

fn are_arrays(shape: &Shape, arrays: &[Array]) -> bool
    ensures { result ≡ list_all (spec.is_array shape.now.delayed shape.now.locked) arrays.now }
{
    for array in arrays {
        if !is_array(shape.delayed.as_slice(), shape.locked.as_slice(), array) {
            return false;
        }
    }
    true
}

// Whether an array has this name.
fn has_array(arrays: &[Array], name: &Name) -> bool
    ensures { result ≡ list_any (λ a. bytes_eq a.name name.now) arrays.now }
{
    for array in arrays {
        if array.name == *name {
            return true;
        }
    }
    false
}

fn are_kept(shape: &Shape, arrays: &[Array]) -> bool
    ensures { result ≡ list_all (spec.is_kept shape.now.delayed arrays.now) shape.now.locked }
{
    for mem in shape.locked.as_slice() {
        if !has_name(shape.delayed.as_slice(), mem.name()) && !has_array(arrays, mem.name()) {
            return false;
        }
    }
    true
}

/// Whether there are 1 to 64 stages and at most 16 memories.
pub fn has_counts(shape: &Shape, arrays: &[Array]) -> bool
    ensures { result ≡ spec.has_counts shape.now arrays.now }
{
    1 <= shape.stages
        && shape.stages <= 64
        && shape.delayed.len() <= 16
        && arrays.len() <= 16 - shape.delayed.len()
}

/// Whether the memories of a shape and the arrays are those of a pipe.
pub fn has_mems(shape: &Shape, arrays: &[Array]) -> bool
    ensures { result ≡ spec.has_mems shape.now arrays.now }
{
    have_addresses(shape.delayed.as_slice())
        && have_addresses(shape.locked.as_slice())
        && all_agree(shape.delayed.as_slice(), shape.locked.as_slice())
        && are_arrays(shape, arrays)
        && are_kept(shape, arrays)
}

// The words that so many address bits reach.
#[tactic(auto, using(crate::proofs::Depths::shifted))]
fn depth_of(bits: u8) -> u32
    requires { bits ≤ 16 }
    ensures { result ≡ 2 ^ bits }
{
    1 << bits
}

// The memory of an array.
fn array_info(locked: &[PortMem], array: &Array) -> Result<MemInfo, NoMemory>
    requires { All spec.IsShort locked.now }
    ensures { IfOk result
        (λ m. m ≡ comb_info array.now (spec.find_named array.now.name locked.now)) }
{
    let name = array.name.clone()?;
    Ok(match find(locked, &array.name) {
        Some(mem) => MemInfo {
            name,
            width: mem.width(),
            depth: depth_of(mem.bits()),
            delayed: false,
        },
        None => MemInfo {
            name,
            width: array.width,
            depth: array.depth,
            delayed: false,
        },
    })
}

fn delayed_infos(alloc: Global, delayed: &[PortMem]) -> Result<Seq<MemInfo>, NoMemory>
    requires { All spec.IsShort delayed.now }
    ensures { IfOk result (λ ms. ms ≡ map delayed_info delayed.now) }
{
    let mut infos = Seq::new(alloc);
    for mem in delayed {
        let name = mem.name().clone()?;
        infos.push(MemInfo {
            name,
            width: mem.width(),
            depth: depth_of(mem.bits()),
            delayed: true,
        })?;
    }
    Ok(infos)
}

/// The memories that a shape and arrays tell.
pub fn mems(alloc: Global, shape: &Shape, arrays: &[Array]) -> Result<Seq<MemInfo>, NoMemory>
    requires delayed { All spec.IsShort shape.now.delayed }
    requires locked { All spec.IsShort shape.now.locked }
    ensures { IfOk result (λ ms. ms ≡ mems_of shape.now.delayed shape.now.locked arrays.now) }
{
    let mut infos = delayed_infos(alloc, shape.delayed.as_slice())?;
    for array in arrays {
        let info = array_info(shape.locked.as_slice(), array)?;
        infos.push(info)?;
    }
    Ok(infos)
}
