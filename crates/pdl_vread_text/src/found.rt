// What stands in the tokens that a rule found, by their places from 0 on.
ghost use Rattle.std.specs.Prelude.{◌≡◌, IfOk, drop, map};
ghost use Rattle.pdl_vread_text.specs.Cursor.{token_view};
ghost use Rattle.pdl_vread_text.specs.Drafts as spec;

use crate::field::operator_of;
use crate::numbers::{Constant, constant_of, number_of};
use crate::token::VerilogToken;
use pdl_kit::{Name, NoMemory};
use pdl_net::BinOp;
use std::alloc::Global;

/// The text of the token at a place, nothing where there is none.
pub fn text_at<'a>(found: &[VerilogToken<'a>], i: usize) -> &'a [u8]
    ensures { result.now ≡ spec.text_at (map token_view found.now) i }
{
    match found.get(i) {
        Some(token) => token.text,
        None => &[],
    }
}

/// Its line, 0 where there is none.
pub fn line_at(found: &[VerilogToken<'_>], i: usize) -> u32
    ensures { result ≡ spec.line_at (map token_view found.now) i }
{
    match found.get(i) {
        Some(token) => token.line,
        None => 0,
    }
}

/// The number that it is, or 0.
pub fn number_at(found: &[VerilogToken<'_>], i: usize) -> u32
    ensures { result ≡ spec.number_at (map token_view found.now) i }
{
    number_of(text_at(found, i)).unwrap_or(0)
}

/// The constant that it is, or one of no bits.
pub fn constant_at(found: &[VerilogToken<'_>], i: usize) -> Constant
    ensures { result ≡ spec.constant_at (map token_view found.now) i }
{
    constant_of(text_at(found, i)).unwrap_or(Constant { width: 0, value: 0 })
}

/// The operator that it is, or `+`.
pub fn operator_at(found: &[VerilogToken<'_>], i: usize) -> BinOp
    ensures { result ≡ spec.operator_at (map token_view found.now) i }
{
    operator_of(text_at(found, i)).unwrap_or(BinOp::Add)
}

/// Its text as a name.
pub fn name_at(alloc: Global, found: &[VerilogToken<'_>], i: usize) -> Result<Name, NoMemory>
    ensures { IfOk result (λ n. n ≡ spec.text_at (map token_view found.now) i) }
{
    Name::copy_of(alloc, text_at(found, i))
}

/// The names at two places.
pub fn names_at(
    alloc: Global,
    found: &[VerilogToken<'_>],
    i: usize,
    j: usize,
) -> Result<(Name, Name), NoMemory>
    ensures { IfOk result (λ (a, b). (a ≡ spec.text_at (map token_view found.now) i)
        × (b ≡ spec.text_at (map token_view found.now) j)) }
{
    let one = name_at(alloc, found, i)?;
    let other = name_at(alloc, found, j)?;
    Ok((one, other))
}

/// An operand that was taken before, and the name at a place.
pub fn operands(
    alloc: Global,
    first: &Name,
    found: &[VerilogToken<'_>],
    i: usize,
) -> Result<(Name, Name), NoMemory>
    ensures { IfOk result (λ (a, b). (a ≡ first.now)
        × (b ≡ spec.text_at (map token_view found.now) i)) }
{
    let first = first.clone()?;
    let second = name_at(alloc, found, i)?;
    Ok((first, second))
}

/// The name of a module without `pdl_`.
pub fn module_at(alloc: Global, found: &[VerilogToken<'_>], i: usize) -> Result<Name, NoMemory>
    ensures { IfOk result (λ n. n ≡ drop 4 (spec.text_at (map token_view found.now) i)) }
{
    let text = text_at(found, i);
    match text.get(4..) {
        Some(name) => Name::copy_of(alloc, name),
        None => Name::copy_of(alloc, &[]),
    }
}
