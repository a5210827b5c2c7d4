// The widths and depths that a file declares.
ghost use Rattle.std.specs.Prelude.{◌≡◌, ◌+◌, ◌++◌, ◌∷◌, [], IfOk, OnOk, map, filter_map, slice_index};
ghost use Rattle.pdl_vread_rules.specs.Widths as spec;

use pdl_kit::{NoMemory, Seq};
use pdl_net::Net;
use pdl_vread_text::{ArrayDecl, CellDecl, File, PortDecl, RegDecl};
use std::alloc::Global;

/// The declared widths of ports, inputs, registers, words of arrays and cells, and the depths of arrays.
pub struct Widths {
    pub ports: Seq<u8>,
    pub inputs: Seq<u8>,
    pub regs: Seq<u8>,
    pub words: Seq<u8>,
    pub depths: Seq<u64>,
    pub cells: Seq<u8>,
}

// As the derive would, but by a call of its owners: docs/DECISIONS.md says why.
impl Drop for Widths {
    fn drop(self) {
        let Widths {
            ports: _,
            inputs: _,
            regs: _,
            words: _,
            depths: _,
            cells: _,
        } = self;
    }
}

/// The bits of a range up to its highest bit; 255 stands for 255 and more.
pub fn bits(high: u32) -> u8
    ensures { result ≡ spec.bits high }
{
    if high < 254 { high as u8 + 1 } else { 255 }
}

fn port_widths(alloc: Global, decls: &[PortDecl]) -> Result<Seq<u8>, NoMemory>
    ensures { IfOk result (λ ws. ws ≡ map (λ p. spec.bits p.high) decls.now) }
{
    let mut widths = Seq::new(alloc);
    for decl in decls {
        widths.push(bits(decl.high))?;
    }
    Ok(widths)
}

// One width more, where a port is an input.
fn push_input(widths: &mut Seq<u8>, decl: &PortDecl) -> Result<(), NoMemory>
    ensures { OnOk result
        (widths.new ≡ widths.old ++ filter_map spec.input_width (decl.now ∷ [])) }
{
    if decl.input {
        widths.push(bits(decl.high))
    } else {
        Ok(())
    }
}

#[tactic(auto, using(crate::proofs::ConstantWidths::inputs_more))]
fn input_widths(alloc: Global, decls: &[PortDecl]) -> Result<Seq<u8>, NoMemory>
    ensures { IfOk result (λ ws. ws ≡ filter_map spec.input_width decls.now) }
{
    let mut widths = Seq::new(alloc);
    for decl in decls {
        push_input(&mut widths, decl)?;
    }
    Ok(widths)
}

fn reg_widths(alloc: Global, decls: &[RegDecl]) -> Result<Seq<u8>, NoMemory>
    ensures { IfOk result (λ ws. ws ≡ map (λ d. spec.bits d.high) decls.now) }
{
    let mut widths = Seq::new(alloc);
    for decl in decls {
        widths.push(bits(decl.high))?;
    }
    Ok(widths)
}

fn word_widths(alloc: Global, decls: &[ArrayDecl]) -> Result<Seq<u8>, NoMemory>
    ensures { IfOk result (λ ws. ws ≡ map (λ a. spec.bits a.high) decls.now) }
{
    let mut widths = Seq::new(alloc);
    for decl in decls {
        widths.push(bits(decl.high))?;
    }
    Ok(widths)
}

fn depths(alloc: Global, decls: &[ArrayDecl]) -> Result<Seq<u64>, NoMemory>
    ensures { IfOk result (λ ds. ds ≡ map (λ a. a.last + 1) decls.now) }
{
    let mut depths = Seq::new(alloc);
    for decl in decls {
        depths.push(u64::from(decl.last) + 1)?;
    }
    Ok(depths)
}

fn cell_widths(alloc: Global, decls: &[CellDecl]) -> Result<Seq<u8>, NoMemory>
    ensures { IfOk result (λ ws. ws ≡ map (λ d. spec.bits d.high) decls.now) }
{
    let mut widths = Seq::new(alloc);
    for decl in decls {
        widths.push(bits(decl.high))?;
    }
    Ok(widths)
}

impl Widths {
    /// Those of a file.
    pub fn of(alloc: Global, file: &File) -> Result<Widths, NoMemory>
        ensures { IfOk result (λ t. t ≡ spec.widths_of file.now) }
    {
        Ok(Widths {
            ports: port_widths(alloc, file.ports.as_slice())?,
            inputs: input_widths(alloc, file.ports.as_slice())?,
            regs: reg_widths(alloc, file.regs.as_slice())?,
            words: word_widths(alloc, file.arrays.as_slice())?,
            depths: depths(alloc, file.arrays.as_slice())?,
            cells: cell_widths(alloc, file.cells.as_slice())?,
        })
    }

    /// That of a net, or 0 where it isn't there.
    pub fn net(&self, net: Net) -> u8
        ensures { result ≡ spec.net_width self.now net }
    {
        let width = match net {
            Net::Input(i) => self.inputs.as_slice().get(i),
            Net::Reg(r) => self.regs.as_slice().get(r),
            Net::Cell(k) => self.cells.as_slice().get(k),
        };
        match width {
            Some(width) => *width,
            None => 0,
        }
    }

    /// That of a port, counted among all ports, or 0 where it isn't there.
    pub fn port(&self, i: usize) -> u8
        ensures { result ≡ slice_index self.now.ports i }
    {
        match self.ports.as_slice().get(i) {
            Some(width) => *width,
            None => 0,
        }
    }

    /// That of a word of an array, or 0 where it isn't there.
    pub fn word(&self, m: usize) -> u8
        ensures { result ≡ slice_index self.now.words m }
    {
        match self.words.as_slice().get(m) {
            Some(width) => *width,
            None => 0,
        }
    }

    /// The depth of an array, or 0 where it isn't there.
    pub fn depth(&self, m: usize) -> u64
        ensures { result ≡ slice_index self.now.depths m }
    {
        match self.depths.as_slice().get(m) {
            Some(depth) => *depth,
            None => 0,
        }
    }
}
