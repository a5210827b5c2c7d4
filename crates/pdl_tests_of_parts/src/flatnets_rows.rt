// Expressions and guards as nets.
use pdl_build::Builder;
use pdl_form::{FlatExpr, FlatGuard};
use pdl_kit::{Boxed, Name, NoMemory};
use pdl_net::Net;
use pdl_pipe_exprs::{Bits, all_taken, value};
use pdl_syntax_tree::BinaryOp;
use std::alloc::Global;

/// The net of `cat(n + 8'd1, n + 8'd1)` of an input n of 8 bits and how many cells there are, and both again after the same expression a second time.
fn emit_twice(alloc: Global, b: &mut Builder) -> Result<[(Net, usize); 2], NoMemory> {
    let name = Name::copy_of(alloc, b"n")?;
    let n = b.input(&name, 8)?;
    let (op, width) = (BinaryOp::Add, 8);
    let x = Boxed::new(alloc, FlatExpr::Variable(0))?;
    let one = Boxed::new(alloc, FlatExpr::Constant { width, value: 1 })?;
    let high = Boxed::new(
        alloc,
        FlatExpr::Binary {
            op,
            width,
            a: x,
            b: one,
        },
    )?;
    let y = Boxed::new(alloc, FlatExpr::Variable(0))?;
    let same = Boxed::new(alloc, FlatExpr::Constant { width, value: 1 })?;
    let low = Boxed::new(
        alloc,
        FlatExpr::Binary {
            op,
            width,
            a: y,
            b: same,
        },
    )?;
    let e = FlatExpr::Cat {
        a: high,
        width,
        b: low,
    };
    let first = value(b, &[n], &e)?;
    let count = b.cell_count();
    let second = value(b, &[n], &e)?;
    Ok([(first, count), (second, b.cell_count())])
}

/// The net of `(8'd2 + 8'd3) + n`, and how many cells there are.
fn emit_folded(alloc: Global, b: &mut Builder) -> Result<(Net, usize), NoMemory> {
    let name = Name::copy_of(alloc, b"n")?;
    let n = b.input(&name, 8)?;
    let (op, width) = (BinaryOp::Add, 8);
    let two = Boxed::new(alloc, FlatExpr::Constant { width, value: 2 })?;
    let three = Boxed::new(alloc, FlatExpr::Constant { width, value: 3 })?;
    let five = Boxed::new(
        alloc,
        FlatExpr::Binary {
            op,
            width,
            a: two,
            b: three,
        },
    )?;
    let x = Boxed::new(alloc, FlatExpr::Variable(0))?;
    let e = FlatExpr::Binary {
        op,
        width,
        a: five,
        b: x,
    };
    let sum = value(b, &[n], &e)?;
    Ok((sum, b.cell_count()))
}

/// What is always 0; the sum of an input of 1 bit and 1; a guard that this sum is 0; whether both the guard and what is always 0 are 1.
fn emit_cells(alloc: Global, b: &mut Builder) -> Result<[Net; 4], NoMemory> {
    let name = Name::copy_of(alloc, b"x")?;
    let input = b.input(&name, 1)?;
    let bits = Bits::new(b)?;
    let (op, width) = (BinaryOp::Add, 1);
    let x = Boxed::new(alloc, FlatExpr::Variable(0))?;
    let one = Boxed::new(alloc, FlatExpr::Constant { width, value: 1 })?;
    let e = FlatExpr::Binary {
        op,
        width,
        a: x,
        b: one,
    };
    let sum = value(b, &[input], &e)?;
    drop(e);
    let (var, first) = (0, false);
    let on = all_taken(bits, b, &[sum], &[FlatGuard { var, first }])?;
    let off = bits.both(b, bits.zero, on)?;
    Ok([bits.zero, sum, on, off])
}

#[test]
fn cells(rt: HostRuntime) {
    let mut b = Builder::new(rt.alloc());
    let [zero, sum, on] = [Net::Cell(1), Net::Cell(2), Net::Cell(3)];
    assert!(rt; emit_cells(rt.alloc(), &mut b) == Ok([zero, sum, on, zero]));
}

#[test]
fn equal_cells_once(rt: HostRuntime) {
    let mut b = Builder::new(rt.alloc());
    let cat = Net::Cell(2);
    assert!(rt; emit_twice(rt.alloc(), &mut b) == Ok([(cat, 3), (cat, 3)]));
}

#[test]
fn constants_folded(rt: HostRuntime) {
    let mut b = Builder::new(rt.alloc());
    assert!(rt; emit_folded(rt.alloc(), &mut b) == Ok((Net::Cell(3), 4)));
    let third = Net::Cell(2);
    assert!(rt; b.constant(8, 5) == Ok(third));
}
