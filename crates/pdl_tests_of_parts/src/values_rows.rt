// The values of expressions, arguments and guards.
use pdl_form::{FlatExpr, FlatGuard};
use pdl_form_values::{are_taken, value_of, values_of};
use pdl_kit::{Boxed, NoMemory};
use pdl_syntax_tree::BinaryOp;
use pdl_word::Word;
use std::alloc::Global;

/// 200 and 100 in 8 bits.
fn sum(alloc: Global) -> Result<Word, NoMemory> {
    let (width, value) = (8, 100);
    let a = Boxed::new(alloc, FlatExpr::Variable(0))?;
    let b = Boxed::new(alloc, FlatExpr::Constant { width, value })?;
    let op = BinaryOp::Add;
    Ok(value_of(&FlatExpr::Binary { op, width, a, b }, &[200]))
}

/// The upper half of 200.
fn upper() -> Word {
    let (x, high, low) = (0, 7, 4);
    value_of(&FlatExpr::Slice { x, high, low }, &[200])
}

/// Whether two arguments are given in their order.
fn are_given(alloc: Global) -> Result<bool, NoMemory> {
    let mut given = Vec::with_capacity(alloc, 2)?;
    let args = [FlatExpr::Variable(1), FlatExpr::Variable(0)];
    values_of(&args, &[200, 1], &mut given);
    Ok(given.as_slice() == [1, 200].as_slice())
}

#[test]
fn values_and_branches(rt: HostRuntime) {
    let alloc = rt.alloc();
    assert!(rt; sum(alloc) == Ok(44));
    assert!(rt; upper() == 12);
    assert!(rt; are_given(alloc) == Ok(true));
    let (var, first) = (1, true);
    let one = FlatGuard { var, first };
    let (var, first) = (0, false);
    let both = [one, FlatGuard { var, first }];
    assert!(rt; are_taken(&both, &[0, 1]));
    assert!(rt; !are_taken(&both, &[1, 1]));
    assert!(rt; !are_taken(&[one], &[1, 0]));
}
