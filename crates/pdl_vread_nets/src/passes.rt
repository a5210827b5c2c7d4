//! V2: each name stands for a net, a register, an array or an output that is declared.
ghost use Rattle.std.specs.Prelude.{◌≡◌, ℕ, length, Ok};
ghost use Rattle.pdl_vread_nets.specs.Scopes.{IsScope};
ghost use Rattle.pdl_vread_nets.specs.Wired as spec;

use crate::scope::Scope;
use crate::wiring::{ArrayWrite, OutputDrive, RegDrive, Wiring};
use pdl_kit::{NoMemory, Seq};
use pdl_net::{Cell, WritePort};
use pdl_vread_text::{ArrayBlock, CellDecl, File, OutputDecl, RegBlock, Term, WriteDecl};
use std::alloc::{AllocError, AllocFailed, Global};

/// Why a pass over a file stopped: the line of the first place that breaks its rule, or want of memory.
#[derive(Clone, Copy)]
pub enum PassStop {
    Broken { line: u32 },
    NoMemory,
}

impl From<NoMemory> for PassStop {
    ghost from_gives = { λ _ e. e ≡ spec.no_memory };

    fn from(_e: NoMemory) -> PassStop {
        PassStop::NoMemory
    }
}

impl From<AllocError> for PassStop {
    ghost from_gives = { λ _ e. e ≡ spec.no_memory };

    fn from(_e: AllocError) -> PassStop {
        PassStop::NoMemory
    }
}

impl<T: Drop> From<AllocFailed<T>> for PassStop {
    ghost from_gives = { λ _ e. e ≡ spec.no_memory };

    fn from(_e: AllocFailed<T>) -> PassStop {
        PassStop::NoMemory
    }
}

/// A number where it is below 255, and else 255; no width, place or count of the subset reaches 255.
pub fn small(number: u32) -> u8
    ensures { result ≡ spec.small number }
{
    if number < 255 { number as u8 } else { 255 }
}

// The cell of a term.
fn term(scope: &Scope<'_>, term: &Term) -> Option<Cell>
    requires { IsScope scope.now }
    ensures { result ≡ spec.cell_of scope.now.file.now scope.now.cells.count term.now }
{
    match term {
        Term::Const { width, value } => Some(Cell::Const {
            width: small(*width),
            value: *value,
        }),
        Term::Not(a) => Some(Cell::Not(scope.net(a)?)),
        Term::Bin(op, a, b) => Some(Cell::Bin(*op, scope.net(a)?, scope.net(b)?)),
        Term::Mux(c, a, b) => Some(Cell::Mux(scope.net(c)?, scope.net(a)?, scope.net(b)?)),
        Term::Slice { a, high, low } => Some(Cell::Slice {
            a: scope.net(a)?,
            high: small(*high),
            low: small(*low),
        }),
        Term::Cat(a, b) => Some(Cell::Cat(scope.net(a)?, scope.net(b)?)),
        Term::Rep { count, a } => {
            let a = scope.net(a)?;
            Some(Cell::Rep {
                count: small(*count),
                a,
            })
        }
        Term::Read { array, addr } => Some(Cell::Read {
            array: scope.array(array)?,
            addr: scope.net(addr)?,
        }),
    }
}

fn cell(scope: &Scope<'_>, decl: &CellDecl) -> Option<Cell>
    requires { IsScope scope.now }
    ensures { result ≡ spec.wired_cell scope.now.file.now scope.now.cells.count decl.now }
{
    if decl.target == decl.name {
        term(scope, &decl.term)
    } else {
        None
    }
}

fn output(scope: &Scope<'_>, decl: &OutputDecl) -> Option<OutputDrive>
    requires { IsScope scope.now }
    ensures { result ≡ spec.wired_output scope.now.file.now scope.now.cells.count decl.now }
{
    Some(OutputDrive {
        port: scope.output(&decl.port)?,
        net: scope.net(&decl.source)?,
    })
}

fn reg_block(scope: &Scope<'_>, block: &RegBlock) -> Option<RegDrive>
    requires { IsScope scope.now }
    ensures { result ≡ spec.wired_reg scope.now.file.now scope.now.cells.count block.now }
{
    let reg = scope.reg(&block.reg)?;
    let net = scope.net(&block.source)?;
    Some(RegDrive {
        reg,
        width: small(block.width),
        reset: block.reset,
        net,
    })
}

fn write(scope: &Scope<'_>, decl: &WriteDecl) -> Option<ArrayWrite>
    requires { IsScope scope.now }
    ensures { result ≡ spec.wired_write scope.now.file.now scope.now.cells.count decl.now }
{
    Some(ArrayWrite {
        array: scope.array(&decl.array)?,
        port: WritePort {
            enable: scope.net(&decl.enable)?,
            addr: scope.net(&decl.addr)?,
            value: scope.net(&decl.value)?,
        },
    })
}

fn cells(alloc: Global, scope: &mut Scope<'_>, decls: &[CellDecl]) -> Result<Seq<Cell>, PassStop>
    requires scope { IsScope scope.old }
    requires none { scope.old.cells.count ≡ 0 }
    requires all { decls.now ≡ scope.old.file.now.cells }
    ensures value { spec.Gives (spec.cells_from scope.old.file.now 0 decls.now) result }
    ensures scope { spec.IfDone result (IsScope scope.new) }
    ensures file { scope.new.file.now ≡ scope.old.file.now }
    ensures count { spec.IfDone result (scope.new.cells.count ≡ length decls.now) }
{
    let mut cells = Seq::new(alloc);
    for decl in decls {
        match cell(scope, decl) {
            Some(cell) => cells.push(cell)?,
            None => return Err(PassStop::Broken { line: decl.line }),
        }
        scope.add_cell(&decl.name)?;
    }
    Ok(cells)
}

fn outputs(
    alloc: Global,
    scope: &Scope<'_>,
    decls: &[OutputDecl],
) -> Result<Seq<OutputDrive>, PassStop>
    requires { IsScope scope.now }
    ensures { spec.Gives (spec.all_outputs scope.now.file.now scope.now.cells.count decls.now)
        result }
{
    let mut drives = Seq::new(alloc);
    for decl in decls {
        match output(scope, decl) {
            Some(drive) => drives.push(drive)?,
            None => return Err(PassStop::Broken { line: decl.line }),
        }
    }
    Ok(drives)
}

fn reg_blocks(
    alloc: Global,
    scope: &Scope<'_>,
    blocks: &[RegBlock],
) -> Result<Seq<RegDrive>, PassStop>
    requires { IsScope scope.now }
    ensures { spec.Gives (spec.all_regs scope.now.file.now scope.now.cells.count blocks.now)
        result }
{
    let mut drives = Seq::new(alloc);
    for block in blocks {
        match reg_block(scope, block) {
            Some(drive) => drives.push(drive)?,
            None => return Err(PassStop::Broken { line: block.line }),
        }
    }
    Ok(drives)
}

fn writes(
    alloc: Global,
    scope: &Scope<'_>,
    decls: &[WriteDecl],
) -> Result<Seq<ArrayWrite>, PassStop>
    requires { IsScope scope.now }
    ensures { spec.Gives (spec.writes_of scope.now.file.now scope.now.cells.count decls.now)
        result }
{
    let mut writes = Seq::new(alloc);
    for decl in decls {
        match write(scope, decl) {
            Some(done) => writes.push(done)?,
            None => return Err(PassStop::Broken { line: decl.line }),
        }
    }
    Ok(writes)
}

fn blocks(
    alloc: Global,
    scope: &Scope<'_>,
    decls: &[ArrayBlock],
) -> Result<Seq<Seq<ArrayWrite>>, PassStop>
    requires { IsScope scope.now }
    ensures { spec.Gives (spec.blocks_of scope.now.file.now scope.now.cells.count decls.now)
        result }
{
    let mut blocks = Seq::new(alloc);
    for decl in decls {
        let writes = writes(alloc, scope, decl.writes.as_slice())?;
        blocks.push(writes)?;
    }
    Ok(blocks)
}

// What is named after the cells.
#[tactic(auto, using(crate::proofs::Steps::outputs_stop, crate::proofs::Steps::regs_stop, crate::proofs::Steps::blocks_stop, crate::proofs::Steps::wired_so))]
fn wire_after(
    alloc: Global,
    scope: &Scope<'_>,
    file: &File,
    cells: Seq<Cell>,
) -> Result<Wiring, PassStop>
    requires scope { IsScope scope.now }
    requires file { scope.now.file.now ≡ file.now }
    requires count { scope.now.cells.count ≡ length file.now.cells }
    requires cells { spec.cells_from file.now 0 file.now.cells ≡ Ok cells }
    ensures { spec.Gives (spec.wiring file.now) result }
{
    match outputs(alloc, scope, file.outputs.as_slice()) {
        Ok(outputs) => match reg_blocks(alloc, scope, file.reg_blocks.as_slice()) {
            Ok(regs) => match blocks(alloc, scope, file.array_blocks.as_slice()) {
                Ok(blocks) => Ok(Wiring {
                    cells,
                    outputs,
                    regs,
                    blocks,
                }),
                Err(stop) => Err(stop),
            },
            Err(stop) => Err(stop),
        },
        Err(stop) => Err(stop),
    }
}

/// The wiring of a file, or the line of the first place that breaks V2.
#[tactic(auto, using(crate::proofs::Steps::cells_stop))]
pub fn wire(alloc: Global, file: &File) -> Result<Wiring, PassStop>
    ensures { spec.Gives (spec.wiring file.now) result }
{
    let mut scope = Scope::of(alloc, file)?;
    match cells(alloc, &mut scope, file.cells.as_slice()) {
        Ok(cells) => wire_after(alloc, &scope, file, cells),
        Err(stop) => Err(stop),
    }
}
