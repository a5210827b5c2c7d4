//! V3: widths, depths and constants.
ghost use Rattle.std.specs.Prelude.{◌≡◌, ◌+◌, map};
ghost use Rattle.pdl_net.specs.declared.Cell.TheVariants.{Mux, Slice, Cat, Rep, Read};
ghost use Rattle.pdl_vread_rules.specs.RuleQuestions.{Tells, both, first_wrong};
ghost use Rattle.pdl_vread_rules.specs.Widths as spec;

use crate::table::{Widths, bits};
use pdl_kit::Seq;
use pdl_net::{BinOp, Cell, Net};
use pdl_vread_nets::{ArrayWrite, OutputDrive, PassStop, RegDrive, Wiring};
use pdl_vread_text::{
    ArrayBlock, ArrayDecl, CellDecl, File, OutputDecl, PortDecl, RegBlock, RegDecl, WriteDecl,
};
use pdl_word::{WIDEST, Word, mask};
use std::alloc::Global;

// Whether a width is 1 to `WIDEST` bits.
fn is_width(width: u8) -> bool
    ensures { result ≡ spec.is_width width }
{
    1 <= width && width <= WIDEST
}

// Whether the depth of an array with this last address is a power of two from 2 to 131,072.
fn is_depth(last: u32) -> bool
    ensures { result ≡ spec.is_depth (last + 1) }
{
    1 <= last && last <= 131_071 && (last + 1).is_power_of_two()
}

// Whether an address of so many bits reaches each word and no more.
fn reaches(width: u8, depth: u64) -> bool
    ensures { result ≡ spec.reaches width depth }
{
    width < 64 && 1 << width == depth
}

// Whether a value fits a width.
fn fits(value: Word, width: u8) -> bool
    ensures { result ≡ spec.fits value width }
{
    is_width(width) && value <= mask(width)
}

fn fits_bin(widths: &Widths, op: BinOp, a: Net, b: Net, width: u8) -> bool
    ensures { result ≡ spec.fits_bin widths.now op a b width }
{
    let own = widths.net(a);
    own == widths.net(b)
        && match op {
            BinOp::Eq | BinOp::Ne | BinOp::Lt => width == 1,
            BinOp::Add | BinOp::Sub | BinOp::Mul => width == own,
            BinOp::And | BinOp::Or | BinOp::Xor => width == own,
            BinOp::Shl | BinOp::Shr => width == own,
        }
}

fn fits_mux(widths: &Widths, chosen: Net, a: Net, b: Net, width: u8) -> bool
    ensures { result ≡ spec.fits_cell widths.now (Mux chosen a b) width }
{
    widths.net(chosen) == 1 && widths.net(a) == widths.net(b) && widths.net(a) == width
}

fn fits_slice(widths: &Widths, a: Net, high: u8, low: u8, width: u8) -> bool
    ensures { result ≡ spec.fits_cell widths.now (Slice a high low) width }
{
    low <= high && high < widths.net(a) && high - low + 1 == width
}

fn fits_cat(widths: &Widths, a: Net, b: Net, width: u8) -> bool
    ensures { result ≡ spec.fits_cell widths.now (Cat a b) width }
{
    u32::from(widths.net(a)) + u32::from(widths.net(b)) == u32::from(width)
}

fn fits_rep(widths: &Widths, count: u8, a: Net, width: u8) -> bool
    ensures { result ≡ spec.fits_cell widths.now (Rep count a) width }
{
    1 <= count && u32::from(count) * u32::from(widths.net(a)) == u32::from(width)
}

fn fits_read(widths: &Widths, array: usize, addr: Net, width: u8) -> bool
    ensures { result ≡ spec.fits_cell widths.now (Read array addr) width }
{
    reaches(widths.net(addr), widths.depth(array)) && widths.word(array) == width
}

// Whether a cell's operands have the right widths, and its result has this one.
fn fits_cell(widths: &Widths, cell: Cell, width: u8) -> bool
    ensures { result ≡ spec.fits_cell widths.now cell width }
{
    match cell {
        Cell::Const { width: own, value } => own == width && fits(value, own),
        Cell::Not(a) => widths.net(a) == width,
        Cell::Bin(op, a, b) => fits_bin(widths, op, a, b, width),
        Cell::Mux(chosen, a, b) => fits_mux(widths, chosen, a, b, width),
        Cell::Slice { a, high, low } => fits_slice(widths, a, high, low, width),
        Cell::Cat(a, b) => fits_cat(widths, a, b, width),
        Cell::Rep { count, a } => fits_rep(widths, count, a, width),
        Cell::Read { array, addr } => fits_read(widths, array, addr, width),
    }
}

// Whether the net that an output takes has its width.
fn fits_output(widths: &Widths, drive: OutputDrive) -> bool
    ensures { result ≡ spec.fits_output widths.now drive }
{
    widths.net(drive.net) == widths.port(drive.port)
}

// Whether a register's constant and the net that it takes have its width.
fn fits_reg(widths: &Widths, drive: RegDrive) -> bool
    ensures { result ≡ spec.fits_reg widths.now drive }
{
    drive.width == widths.net(Net::Reg(drive.reg))
        && fits(drive.reset, drive.width)
        && widths.net(drive.net) == drive.width
}

// Whether the nets of a write have their widths.
fn fits_write(widths: &Widths, write: ArrayWrite) -> bool
    ensures { result ≡ spec.fits_write widths.now write }
{
    widths.net(write.port.enable) == 1
        && reaches(widths.net(write.port.addr), widths.depth(write.array))
        && widths.net(write.port.value) == widths.word(write.array)
}

fn ports(decls: &[PortDecl]) -> Result<(), PassStop>
    ensures { Tells (first_wrong (map spec.asked_port decls.now)) result }
{
    for decl in decls {
        if !is_width(bits(decl.high)) {
            return Err(PassStop::Broken { line: decl.line });
        }
    }
    Ok(())
}

fn regs(decls: &[RegDecl]) -> Result<(), PassStop>
    ensures { Tells (first_wrong (map spec.asked_reg decls.now)) result }
{
    for decl in decls {
        if !is_width(bits(decl.high)) {
            return Err(PassStop::Broken { line: decl.line });
        }
    }
    Ok(())
}

fn arrays(decls: &[ArrayDecl]) -> Result<(), PassStop>
    ensures { Tells (first_wrong (map spec.asked_array decls.now)) result }
{
    for decl in decls {
        if !is_width(bits(decl.high)) || !is_depth(decl.last) {
            return Err(PassStop::Broken { line: decl.line });
        }
    }
    Ok(())
}

#[tactic(auto, using(crate::proofs::Passes::pairs))]
fn cells(widths: &Widths, decls: &[CellDecl], cells: &[Cell]) -> Result<(), PassStop>
    ensures { Tells (first_wrong (both (spec.asked_cell widths.now) decls.now cells.now)) result }
{
    for (decl, cell) in decls.iter().zip(cells) {
        if !is_width(bits(decl.high)) || !fits_cell(widths, *cell, bits(decl.high)) {
            return Err(PassStop::Broken { line: decl.line });
        }
    }
    Ok(())
}

#[tactic(auto, using(crate::proofs::Passes::pairs))]
fn outputs(widths: &Widths, decls: &[OutputDecl], drives: &[OutputDrive]) -> Result<(), PassStop>
    ensures { Tells
        (first_wrong (both (spec.asked_output widths.now) decls.now drives.now)) result }
{
    for (decl, drive) in decls.iter().zip(drives) {
        if !fits_output(widths, *drive) {
            return Err(PassStop::Broken { line: decl.line });
        }
    }
    Ok(())
}

#[tactic(auto, using(crate::proofs::Passes::pairs))]
fn reg_blocks(widths: &Widths, decls: &[RegBlock], drives: &[RegDrive]) -> Result<(), PassStop>
    ensures { Tells (first_wrong (both (spec.asked_block widths.now) decls.now drives.now)) result }
{
    for (decl, drive) in decls.iter().zip(drives) {
        if !fits_reg(widths, *drive) {
            return Err(PassStop::Broken { line: decl.line });
        }
    }
    Ok(())
}

#[tactic(auto, using(crate::proofs::Passes::pairs))]
fn writes(widths: &Widths, decls: &[WriteDecl], writes: &[ArrayWrite]) -> Result<(), PassStop>
    ensures { Tells (first_wrong (both (spec.asked_write widths.now) decls.now writes.now)) result }
{
    for (decl, write) in decls.iter().zip(writes) {
        if !fits_write(widths, *write) {
            return Err(PassStop::Broken { line: decl.line });
        }
    }
    Ok(())
}

fn blocks(widths: &Widths, decls: &[ArrayBlock], blocks: &[Seq<ArrayWrite>]) -> Result<(), PassStop>
    ensures { Tells (first_wrong (spec.asked_writes widths.now decls.now blocks.now)) result }
{
    for (decl, block) in decls.iter().zip(blocks) {
        writes(widths, decl.writes.as_slice(), block.as_slice())?;
    }
    Ok(())
}

// What V3 asks of declarations.
#[tactic(auto, using(crate::proofs::Passes::two_parts))]
fn check_declared(file: &File) -> Result<(), PassStop>
    ensures { Tells (first_wrong (spec.declared_questions file.now)) result }
{
    if bits(file.reset_high) != 1 {
        return Err(PassStop::Broken {
            line: file.reset_line,
        });
    }
    ports(file.ports.as_slice())?;
    regs(file.regs.as_slice())?;
    arrays(file.arrays.as_slice())
}

// What V3 asks of cells, `assign`s and blocks.
#[tactic(auto, using(crate::proofs::Passes::two_parts))]
fn check_driven(widths: &Widths, file: &File, wiring: &Wiring) -> Result<(), PassStop>
    ensures { Tells (first_wrong (spec.driven_questions file.now widths.now wiring.now)) result }
{
    cells(widths, file.cells.as_slice(), wiring.cells.as_slice())?;
    outputs(widths, file.outputs.as_slice(), wiring.outputs.as_slice())?;
    reg_blocks(widths, file.reg_blocks.as_slice(), wiring.regs.as_slice())?;
    blocks(
        widths,
        file.array_blocks.as_slice(),
        wiring.blocks.as_slice(),
    )
}

/// Asks V3 of a file and its wiring: the line of the first place that breaks it.
#[tactic(auto, using(crate::proofs::Passes::told_all))]
pub fn check_widths(alloc: Global, file: &File, wiring: &Wiring) -> Result<(), PassStop>
    ensures { Tells (spec.width_line file.now wiring.now) result }
{
    check_declared(file)?;
    let widths = Widths::of(alloc, file)?;
    check_driven(&widths, file, wiring)
}
