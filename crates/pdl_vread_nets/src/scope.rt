//! What names stand for.
ghost use Rattle.std.specs.Prelude.{◌≡◌, ◌<◌, ◌+◌, ◌^◌, ℕ, IfOk, OnOk, length, map, slice_index_or, Some, None};
ghost use Rattle.pdl_vread_nets.specs.Places.{AreFirsts};
ghost use Rattle.pdl_vread_nets.specs.Scopes.{IsScope};
ghost use Rattle.pdl_vread_nets.specs.Wired as spec;

use crate::places::Places;
use pdl_kit::{Name, NoMemory};
use pdl_net::Net;
use pdl_vread_text::{ArrayDecl, File, PortDecl, RegDecl};
use std::alloc::Global;

/// The declarations of a file by their names; of its cells those before a place.
pub struct Scope<'a> {
    file: &'a File,
    ports: Places,
    nets: Vec<Option<Net>>,
    regs: Places,
    arrays: Places,
    cells: Places,
}

// As the derive would, but by a call of its owners: docs/DECISIONS.md says why.
impl Drop for Scope<'_> {
    fn drop(self) {
        let Scope {
            file: _,
            ports: _,
            nets: _,
            regs: _,
            arrays: _,
            cells: _,
        } = self;
    }
}

impl<'a> Scope<'a> {
    /// The ports, registers and arrays of a file, and none of its cells.
    pub fn of(alloc: Global, file: &'a File) -> Result<Scope<'a>, NoMemory>
        ensures scope { IfOk result IsScope }
        ensures none { IfOk result (λ s. s.cells.count ≡ 0) }
        ensures file { IfOk result (λ s. s.file.now ≡ file.now) }
    {
        Ok(Scope {
            file,
            ports: ports_of(alloc, file.ports.as_slice())?,
            nets: nets_of(alloc, file.ports.as_slice())?,
            regs: regs_of(alloc, file.regs.as_slice())?,
            arrays: arrays_of(alloc, file.arrays.as_slice())?,
            cells: Places::new(alloc),
        })
    }

    /// The net that an operand names: an earlier cell, a register, or an input.
    pub fn net(&self, name: &Name) -> Option<Net>
        requires { IsScope self.now }
        ensures { result ≡ spec.net_of self.now.file.now self.now.cells.count name.now }
    {
        match self.cells.find(name) {
            Some(k) => Some(Net::Cell(k)),
            None => match self.regs.find(name) {
                Some(r) => Some(Net::Reg(r)),
                None => self.input(name),
            },
        }
    }

    // The input of a name.
    fn input(&self, name: &Name) -> Option<Net>
        requires { IsScope self.now }
        ensures { result ≡ spec.input_of self.now.file.now name.now }
    {
        match self.ports.find(name) {
            Some(i) => match self.nets.get(i) {
                Some(net) => *net,
                None => None,
            },
            None => None,
        }
    }

    /// The port of a name, where it is an output.
    pub fn output(&self, name: &Name) -> Option<usize>
        requires { IsScope self.now }
        ensures { result ≡ spec.output_of self.now.file.now name.now }
    {
        match self.ports.find(name) {
            Some(i) => match self.file.ports.get(i) {
                Some(port) => if port.input { None } else { Some(i) },
                None => None,
            },
            None => None,
        }
    }

    /// The register of a name.
    pub fn reg(&self, name: &Name) -> Option<usize>
        requires { IsScope self.now }
        ensures { result ≡ spec.reg_place self.now.file.now name.now }
    {
        self.regs.find(name)
    }

    /// The array of a name.
    pub fn array(&self, name: &Name) -> Option<usize>
        requires { IsScope self.now }
        ensures { result ≡ spec.array_place self.now.file.now name.now }
    {
        self.arrays.find(name)
    }

    /// Adds the next cell.
    pub fn add_cell(&mut self, name: &Name) -> Result<(), NoMemory>
        requires scope { IsScope self.old }
        requires more { self.old.cells.count < length self.old.file.now.cells }
        requires room { self.old.cells.count + 1 < 2 ^ 64 }
        requires name { spec.IsNamed self.old.file.now self.old.cells.count name.now }
        ensures scope { OnOk result (IsScope self.new) }
        ensures file { self.new.file.now ≡ self.old.file.now }
        ensures count { OnOk result (self.new.cells.count ≡ self.old.cells.count + 1) }
    {
        self.cells.add(name)
    }
}

fn ports_of(alloc: Global, ports: &[PortDecl]) -> Result<Places, NoMemory>
    ensures { IfOk result (AreFirsts (map (λ d. d.name) ports.now)) }
{
    let mut places = Places::new(alloc);
    for port in ports {
        places.add(&port.name)?;
    }
    Ok(places)
}

// The net of each port that is an input.
fn nets_of(alloc: Global, ports: &[PortDecl]) -> Result<Vec<Option<Net>>, NoMemory>
    ensures { IfOk result (λ nets. nets.items ≡ spec.port_nets 0 ports.now) }
{
    let mut nets = Vec::new(alloc);
    let mut inputs = 0;
    for port in ports {
        if port.input {
            nets.push(Some(Net::Input(inputs)))?;
            inputs += 1;
        } else {
            nets.push(None)?;
        }
    }
    Ok(nets)
}

fn regs_of(alloc: Global, regs: &[RegDecl]) -> Result<Places, NoMemory>
    ensures { IfOk result (AreFirsts (map (λ d. d.name) regs.now)) }
{
    let mut places = Places::new(alloc);
    for reg in regs {
        places.add(&reg.name)?;
    }
    Ok(places)
}

fn arrays_of(alloc: Global, arrays: &[ArrayDecl]) -> Result<Places, NoMemory>
    ensures { IfOk result (AreFirsts (map (λ d. d.name) arrays.now)) }
{
    let mut places = Places::new(alloc);
    for array in arrays {
        places.add(&array.name)?;
    }
    Ok(places)
}
