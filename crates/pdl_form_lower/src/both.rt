// Two results at once.
ghost use Rattle.std.specs.Prelude.{◌≡◌, IfOk, Ok};

use pdl_kit::NoMemory;

/// Both values, where memory held for each.
pub fn both<A: Drop, B: Drop>(
    a: Result<A, NoMemory>,
    b: Result<B, NoMemory>,
) -> Result<(A, B), NoMemory>
    ensures a { IfOk result (λ r. a ≡ Ok r.0) }
    ensures b { IfOk result (λ r. b ≡ Ok r.1) }
{
    let a = a?;
    Ok((a, b?))
}
