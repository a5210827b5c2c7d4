// Calls of a builder, and the nets that they give; `n` is an input of 8 bits.
ghost use Rattle.pdl_net.specs.HasWidth.{HasWidth};
ghost use Rattle.pdl_net.specs.Growth.{Extends};

use pdl_build::Builder;
use pdl_kit::{Name, NoMemory, Seq};
use pdl_net::{BinOp, Cell, Net};
use std::alloc::Global;
use std::mem::drop;

/// Of equal cells there is one.
fn equal_cells(b: &mut Builder, n: Net) -> Result<[Net; 4], NoMemory>
    requires input { HasWidth b.old n 8 }
    ensures { Extends b.old b.new }
{
    let x = b.constant(8, 5)?;
    let sum = b.bin(BinOp::Add, n, x)?;
    let again = b.constant(8, 5)?;
    let not = b.not(sum)?;
    Ok([x, sum, again, not])
}

/// A choice, which costs no cell where it is known.
fn known_choice(b: &mut Builder) -> Result<[Net; 4], NoMemory>
    ensures { Extends b.old b.new }
{
    let one = b.constant(1, 1)?;
    let x = b.constant(8, 5)?;
    let y = b.constant(8, 6)?;
    let known = b.mux(one, x, y)?;
    Ok([one, x, y, known])
}

/// A part of a net, and a choice by it.
fn choice_by_part(b: &mut Builder, n: Net) -> Result<[Net; 3], NoMemory>
    requires input { HasWidth b.old n 8 }
    ensures { Extends b.old b.new }
{
    let x = b.constant(8, 5)?;
    let low = b.slice(n, 0, 0)?;
    let y = b.constant(8, 6)?;
    let same = b.mux(low, y, y)?;
    let picked = b.mux(low, x, y)?;
    Ok([low, same, picked])
}

/// The widths of nets in a row, and of a part.
fn row_widths(b: &mut Builder, n: Net) -> Result<[u8; 3], NoMemory>
    requires input { HasWidth b.old n 8 }
    ensures { Extends b.old b.new }
{
    let low = b.slice(n, 0, 0)?;
    let both = b.cat(n, n)?;
    let three = b.rep(3, n)?;
    Ok([b.width(low), b.width(both), b.width(three)])
}

/// Extensions; a net that is wide enough is its own.
fn extensions(b: &mut Builder, n: Net) -> Result<(Net, u8), NoMemory>
    requires input { HasWidth b.old n 8 }
    ensures { Extends b.old b.new }
{
    let wide = b.sign_extend(n, 12)?;
    let same = b.zero_extend(n, 8)?;
    Ok((same, b.width(wide)))
}

/// Signed order, as an output; a register.
fn ports(b: &mut Builder, name: &Name, n: Net) -> Result<usize, NoMemory>
    requires input { HasWidth b.old n 8 }
{
    let reg = b.reg(8, 3)?;
    b.next(reg, Net::Reg(reg));
    let less = b.less_signed(n, Net::Reg(reg))?;
    b.output(name, less)
}

/// An array: its write port, and a cell over what it reads.
fn arrays(b: &mut Builder, name: &Name) -> Result<(usize, Net), NoMemory> {
    let x = b.constant(1, 1)?;
    let array = b.array(name, 1, 2)?;
    let port = b.write(array, x, x, x)?;
    let word = b.read(array, x)?;
    let not = b.cell(Cell::Not(word))?;
    Ok((port, not))
}

/// Operators on a net and 0, and on one net twice.
fn laws(b: &mut Builder, n: Net) -> Result<[Net; 5], NoMemory>
    requires input { HasWidth b.old n 8 }
    ensures { Extends b.old b.new }
{
    let zero = b.constant(8, 0)?;
    let none = b.bin(BinOp::And, n, zero)?;
    let all = b.bin(BinOp::Or, n, zero)?;
    let difference = b.bin(BinOp::Sub, n, n)?;
    let equal = b.bin(BinOp::Eq, n, n)?;
    Ok([zero, none, all, difference, equal])
}

/// A shift by more than the width, a part of a part, and a complement twice.
fn more_laws(b: &mut Builder, n: Net) -> Result<[Net; 4], NoMemory>
    requires input { HasWidth b.old n 8 }
    ensures { Extends b.old b.new }
{
    let nine = b.constant(8, 9)?;
    let shifted = b.bin(BinOp::Shl, n, nine)?;
    let outer = b.slice(n, 6, 1)?;
    let inner = b.slice(outer, 4, 2)?;
    let straight = b.slice(n, 5, 3)?;
    let not = b.not(straight)?;
    let twice = b.not(not)?;
    Ok([shifted, inner, straight, twice])
}

/// Which of these calls, one after the other, give what they should.
fn given(b: &mut Builder, name: &Name, n: Net) -> [bool; 10]
    requires input { HasWidth b.old n 8 }
{
    let [five, sum, not] = [Net::Cell(0), Net::Cell(1), Net::Cell(2)];
    let [one, six, low, picked] = [Net::Cell(3), Net::Cell(4), Net::Cell(5), Net::Cell(6)];
    let [zero, part] = [Net::Cell(12), Net::Cell(15)];
    [
        equal_cells(b, n) == Ok([five, sum, five, not]),
        known_choice(b) == Ok([one, five, six, five]),
        choice_by_part(b, n) == Ok([low, six, picked]),
        row_widths(b, n) == Ok([1, 16, 24]),
        extensions(b, n) == Ok((n, 12)),
        laws(b, n) == Ok([zero, zero, n, zero, one]),
        more_laws(b, n) == Ok([zero, part, part, part]),
        ports(b, name, n) == Ok(0),
        b.reg_count() == 1,
        arrays(b, name) == Ok((0, Net::Cell(22))),
    ]
}

/// The cell at a place of the netlist.
fn cell_at(alloc: Global, b: Builder, name: Name, k: usize) -> Option<Cell> {
    let netlist = b.finish(name, Seq::new(alloc));
    let cell = netlist.cells.as_slice().get(k).copied();
    drop(netlist);
    cell
}

#[test]
fn nets(rt: HostRuntime) -> Result<(), NoMemory> {
    let name = Name::copy_of(rt.alloc(), b"words")?;
    let mut b = Builder::new(rt.alloc());
    let n = b.input(&name, 8)?;
    assert!(rt; given(&mut b, &name, n) == [true; 10]);
    assert!(rt; b.cell_count() == 23);
    Ok(())
}

/// A word and 1, above itself.
fn doubled(b: &mut Builder, n: Net) -> Result<usize, NoMemory>
    requires input { HasWidth b.old n 8 }
    ensures { Extends b.old b.new }
{
    let one = b.constant(8, 1)?;
    let above = b.bin(BinOp::Add, n, one)?;
    let one = b.constant(8, 1)?;
    let below = b.bin(BinOp::Add, n, one)?;
    b.cat(above, below)?;
    Ok(b.cell_count())
}

/// A word and the sum of 2 and 3.
fn added(b: &mut Builder, n: Net) -> Result<usize, NoMemory>
    requires input { HasWidth b.old n 8 }
    ensures { Extends b.old b.new }
{
    let two = b.constant(8, 2)?;
    let three = b.constant(8, 3)?;
    let five = b.bin(BinOp::Add, two, three)?;
    b.bin(BinOp::Add, five, n)?;
    Ok(b.cell_count())
}

#[test]
fn counts(rt: HostRuntime) -> Result<(), NoMemory> {
    let name = Name::copy_of(rt.alloc(), b"n")?;
    let mut b = Builder::new(rt.alloc());
    let n = b.input(&name, 8)?;
    assert!(rt; doubled(&mut b, n) == Ok(3));
    assert!(rt; doubled(&mut b, n) == Ok(3));
    Ok(())
}

#[test]
fn constants(rt: HostRuntime) -> Result<(), NoMemory> {
    let name = Name::copy_of(rt.alloc(), b"n")?;
    let mut b = Builder::new(rt.alloc());
    let n = b.input(&name, 8)?;
    assert!(rt; added(&mut b, n) == Ok(4));
    let five = Cell::Const { width: 8, value: 5 };
    assert!(rt; cell_at(rt.alloc(), b, name, 2) == Some(five));
    Ok(())
}
