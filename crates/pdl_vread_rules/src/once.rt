//! V4: each name is declared once, and each output, register and array is driven as it has to be.
ghost use Rattle.std.specs.Prelude.{◌≡◌, ℕ, ◌+◌, ◌<◌, ◌^◌, ◌==◌, ◌&&◌, ◌||◌, List, [], IfOk, cond, length, slice_index};
ghost use Rattle.pdl_vread_nets.specs.Places.{AreFirsts};
ghost use Rattle.pdl_vread_rules.specs.RuleQuestions.{Tells, both, first_wrong};
ghost use Rattle.pdl_vread_rules.specs.Once as spec;

use indexmap::IndexSet;
use pdl_kit::{NoMemory, Seq};
use pdl_vread_nets::{ArrayWrite, OutputDrive, PassStop, Places, RegDrive, Wiring};
use pdl_vread_text::{ArrayBlock, ArrayDecl, CellDecl, File, PortDecl, RegDecl, WriteDecl};
use std::alloc::Global;

// One more at a place, where it is there.
fn add_one(counts: &mut Vec<usize>, place: usize)
    requires { slice_index counts.old.items place + 1 < 2 ^ 64 }
    ensures len { length counts.new.items ≡ length counts.old.items }
    ensures more { (k : ℕ) → k < length counts.old.items → slice_index counts.new.items k ≡
        slice_index counts.old.items k + cond (place == k) 1 0 }
{
    if place < counts.len() {
        counts[place] += 1;
    }
}

// How many `assign`s drive each port.
fn output_counts(
    alloc: Global,
    ports: usize,
    drives: &[OutputDrive],
) -> Result<Vec<usize>, NoMemory>
    ensures len { IfOk result (λ ns. length ns.items ≡ ports) }
    ensures counts { IfOk result (λ ns. (k : ℕ) → k < ports →
        slice_index ns.items k ≡ spec.output_drives drives.now k) }
{
    let mut counts = Vec::from_elem(alloc, 0, ports)?;
    for drive in drives {
        add_one(&mut counts, drive.port);
    }
    Ok(counts)
}

// How many blocks drive each register.
fn reg_counts(alloc: Global, regs: usize, drives: &[RegDrive]) -> Result<Vec<usize>, NoMemory>
    ensures len { IfOk result (λ ns. length ns.items ≡ regs) }
    ensures counts { IfOk result (λ ns. (k : ℕ) → k < regs →
        slice_index ns.items k ≡ spec.reg_drives drives.now k) }
{
    let mut counts = Vec::from_elem(alloc, 0, regs)?;
    for drive in drives {
        add_one(&mut counts, drive.reg);
    }
    Ok(counts)
}

// Whether a port has a new name and, where it is an output, is driven once.
fn port_is_right(places: &Places, decl: &PortDecl, drives: usize) -> bool
    ensures { (names : List (List ℕ)) → AreFirsts names places.now →
        result ≡ (spec.is_new names decl.now.name && (decl.now.input || drives == 1)) }
{
    places.find(&decl.name).is_none() && (decl.input || drives == 1)
}

// Declares ports, where no name is declared yet.
fn add_ports(
    alloc: Global,
    places: &mut Places,
    decls: &[PortDecl],
    drives: &[OutputDrive],
) -> Result<(), PassStop>
    requires { AreFirsts [] places.old }
    ensures { Tells (first_wrong (spec.in_turn (spec.port_once drives.now) [] decls.now)) result }
{
    let counts = output_counts(alloc, decls.len(), drives)?;
    for (decl, count) in decls.iter().zip(counts.as_slice()) {
        if !port_is_right(places, decl, *count) {
            return Err(PassStop::Broken { line: decl.line });
        }
        places.add(&decl.name)?;
    }
    Ok(())
}

fn ports(alloc: Global, decls: &[PortDecl], drives: &[OutputDrive]) -> Result<(), PassStop>
    ensures { Tells (first_wrong (spec.in_turn (spec.port_once drives.now) [] decls.now)) result }
{
    let mut places = Places::new(alloc);
    add_ports(alloc, &mut places, decls, drives)
}

// Whether a register has a new name and is driven once.
fn reg_is_right(places: &Places, decl: &RegDecl, drives: usize) -> bool
    ensures { (names : List (List ℕ)) → AreFirsts names places.now →
        result ≡ (spec.is_new names decl.now.name && drives == 1) }
{
    places.find(&decl.name).is_none() && drives == 1
}

// Declares registers, where no name is declared yet.
fn add_regs(
    alloc: Global,
    places: &mut Places,
    decls: &[RegDecl],
    drives: &[RegDrive],
) -> Result<(), PassStop>
    requires { AreFirsts [] places.old }
    ensures { Tells (first_wrong (spec.in_turn (spec.reg_once drives.now) [] decls.now)) result }
{
    let counts = reg_counts(alloc, decls.len(), drives)?;
    for (decl, count) in decls.iter().zip(counts.as_slice()) {
        if !reg_is_right(places, decl, *count) {
            return Err(PassStop::Broken { line: decl.line });
        }
        places.add(&decl.name)?;
    }
    Ok(())
}

fn regs(alloc: Global, decls: &[RegDecl], drives: &[RegDrive]) -> Result<(), PassStop>
    ensures { Tells (first_wrong (spec.in_turn (spec.reg_once drives.now) [] decls.now)) result }
{
    let mut places = Places::new(alloc);
    add_regs(alloc, &mut places, decls, drives)
}

// Declares arrays, where no name is declared yet.
fn add_arrays(places: &mut Places, decls: &[ArrayDecl]) -> Result<(), PassStop>
    requires { AreFirsts [] places.old }
    ensures { Tells (first_wrong (spec.in_turn spec.array_once [] decls.now)) result }
{
    for decl in decls {
        if places.find(&decl.name).is_some() {
            return Err(PassStop::Broken { line: decl.line });
        }
        places.add(&decl.name)?;
    }
    Ok(())
}

fn arrays(alloc: Global, decls: &[ArrayDecl]) -> Result<(), PassStop>
    ensures { Tells (first_wrong (spec.in_turn spec.array_once [] decls.now)) result }
{
    let mut places = Places::new(alloc);
    add_arrays(&mut places, decls)
}

// Declares cells, where no name is declared yet.
fn add_cells(places: &mut Places, decls: &[CellDecl]) -> Result<(), PassStop>
    requires { AreFirsts [] places.old }
    ensures { Tells (first_wrong (spec.in_turn spec.cell_once [] decls.now)) result }
{
    for decl in decls {
        if places.find(&decl.name).is_some() {
            return Err(PassStop::Broken { line: decl.line });
        }
        places.add(&decl.name)?;
    }
    Ok(())
}

fn cells(alloc: Global, decls: &[CellDecl]) -> Result<(), PassStop>
    ensures { Tells (first_wrong (spec.in_turn spec.cell_once [] decls.now)) result }
{
    let mut places = Places::new(alloc);
    add_cells(&mut places, decls)
}

// The array that a block's first write names.
fn owner(writes: &[ArrayWrite]) -> usize
    ensures { result ≡ spec.owner writes.now }
{
    match writes {
        [write, ..] => write.array,
        [] => 0,
    }
}

// All writes of a block are to this array.
#[tactic(auto, using(crate::proofs::Passes::pairs))]
fn writes(array: usize, decls: &[WriteDecl], writes: &[ArrayWrite]) -> Result<(), PassStop>
    ensures { Tells (first_wrong (both (spec.write_once array) decls.now writes.now)) result }
{
    for (decl, write) in decls.iter().zip(writes) {
        if write.array != array {
            return Err(PassStop::Broken { line: decl.line });
        }
    }
    Ok(())
}

// Takes blocks as the owners of their arrays, where no array has an owner yet.
fn add_blocks(
    owners: &mut IndexSet<usize>,
    decls: &[ArrayBlock],
    blocks: &[Seq<ArrayWrite>],
) -> Result<(), PassStop>
    requires { owners.old.keys ≡ [] }
    ensures { Tells (first_wrong (spec.blocks_once [] decls.now blocks.now)) result }
{
    for (decl, block) in decls.iter().zip(blocks) {
        let array = owner(block.as_slice());
        let is_first = owners.insert(array)?;
        if !is_first {
            return Err(PassStop::Broken { line: decl.line });
        }
        writes(array, decl.writes.as_slice(), block.as_slice())?;
    }
    Ok(())
}

fn blocks(alloc: Global, decls: &[ArrayBlock], blocks: &[Seq<ArrayWrite>]) -> Result<(), PassStop>
    ensures { Tells (first_wrong (spec.blocks_once [] decls.now blocks.now)) result }
{
    let mut owners = IndexSet::new(alloc);
    add_blocks(&mut owners, decls, blocks)
}

// What V4 asks of declarations.
#[tactic(auto, using(crate::proofs::Passes::two_parts))]
fn check_declared(alloc: Global, file: &File, wiring: &Wiring) -> Result<(), PassStop>
    ensures { Tells (first_wrong (spec.declared_once file.now wiring.now)) result }
{
    ports(alloc, file.ports.as_slice(), wiring.outputs.as_slice())?;
    regs(alloc, file.regs.as_slice(), wiring.regs.as_slice())?;
    arrays(alloc, file.arrays.as_slice())?;
    cells(alloc, file.cells.as_slice())
}

/// Asks V4 of a file and its wiring: the line of the first place that breaks it.
#[tactic(auto, using(crate::proofs::Passes::two_parts), unfolding(crate::specs::Once::once_line))]
pub fn check_once(alloc: Global, file: &File, wiring: &Wiring) -> Result<(), PassStop>
    ensures { Tells (spec.once_line file.now wiring.now) result }
{
    check_declared(alloc, file, wiring)?;
    blocks(
        alloc,
        file.array_blocks.as_slice(),
        wiring.blocks.as_slice(),
    )
}
