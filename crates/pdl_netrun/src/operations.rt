// The kinds of cells, one by one.

ghost use Rattle.std.specs.Prelude.{refl};
ghost use Rattle.pdl_netrun.specs.Steps.{KindFits, kind_value, array_words};
ghost use Rattle.pdl_netrun.specs.declared.operation.CellKind.TheVariants as kinds;

use crate::narrow_words::{join, low_bits, repeat, repeat_bit};
use crate::operation::{CellKind, CellOperands, CellOperation};

pub struct Complement;

impl CellOperation for Complement {
    ghost kind = { kinds.Complement };

    #[tactic(auto, using(crate::proofs::Bits::complemented))]
    fn value(operands: &CellOperands, values: &[u64], arrays: &[Vec<u64>]) -> u64 {
        operands.mask - operands.first(values)
    }

    ghost acts = { λ o at vs ws. refl };
}

pub struct Add;

impl CellOperation for Add {
    ghost kind = { kinds.Add };

    #[tactic(auto, using(crate::proofs::Bits::sum_cut))]
    fn value(operands: &CellOperands, values: &[u64], arrays: &[Vec<u64>]) -> u64 {
        operands.first(values).wrapping_add(operands.second(values)) & operands.mask
    }

    ghost acts = { λ o at vs ws. refl };
}

pub struct Sub;

impl CellOperation for Sub {
    ghost kind = { kinds.Sub };

    #[tactic(auto, using(crate::proofs::Bits::difference_cut))]
    fn value(operands: &CellOperands, values: &[u64], arrays: &[Vec<u64>]) -> u64 {
        operands.first(values).wrapping_sub(operands.second(values)) & operands.mask
    }

    ghost acts = { λ o at vs ws. refl };
}

pub struct Mul;

impl CellOperation for Mul {
    ghost kind = { kinds.Mul };

    #[tactic(auto, using(crate::proofs::Bits::product_cut))]
    fn value(operands: &CellOperands, values: &[u64], arrays: &[Vec<u64>]) -> u64 {
        operands.first(values).wrapping_mul(operands.second(values)) & operands.mask
    }

    ghost acts = { λ o at vs ws. refl };
}

pub struct And;

impl CellOperation for And {
    ghost kind = { kinds.And };

    #[tactic(auto, unfolding(pdl_word::specs::Words::and))]
    fn value(operands: &CellOperands, values: &[u64], arrays: &[Vec<u64>]) -> u64 {
        operands.first(values) & operands.second(values)
    }

    ghost acts = { λ o at vs ws. refl };
}

pub struct Or;

impl CellOperation for Or {
    ghost kind = { kinds.Or };

    #[tactic(auto, unfolding(pdl_word::specs::Words::or))]
    fn value(operands: &CellOperands, values: &[u64], arrays: &[Vec<u64>]) -> u64 {
        operands.first(values) | operands.second(values)
    }

    ghost acts = { λ o at vs ws. refl };
}

pub struct Xor;

impl CellOperation for Xor {
    ghost kind = { kinds.Xor };

    #[tactic(auto, unfolding(pdl_word::specs::Words::xor))]
    fn value(operands: &CellOperands, values: &[u64], arrays: &[Vec<u64>]) -> u64 {
        operands.first(values) ^ operands.second(values)
    }

    ghost acts = { λ o at vs ws. refl };
}

pub struct Equal;

impl CellOperation for Equal {
    ghost kind = { kinds.Equal };

    #[tactic(auto, unfolding(pdl_word::specs::Words::equal))]
    fn value(operands: &CellOperands, values: &[u64], arrays: &[Vec<u64>]) -> u64 {
        u64::from(operands.first(values) == operands.second(values))
    }

    ghost acts = { λ o at vs ws. refl };
}

pub struct Differ;

impl CellOperation for Differ {
    ghost kind = { kinds.Differ };

    #[tactic(auto, unfolding(pdl_word::specs::Words::differ))]
    fn value(operands: &CellOperands, values: &[u64], arrays: &[Vec<u64>]) -> u64 {
        u64::from(operands.first(values) != operands.second(values))
    }

    ghost acts = { λ o at vs ws. refl };
}

pub struct Less;

impl CellOperation for Less {
    ghost kind = { kinds.Less };

    #[tactic(auto, unfolding(pdl_word::specs::Words::less))]
    fn value(operands: &CellOperands, values: &[u64], arrays: &[Vec<u64>]) -> u64 {
        u64::from(operands.first(values) < operands.second(values))
    }

    ghost acts = { λ o at vs ws. refl };
}

pub struct ShiftLeft;

impl CellOperation for ShiftLeft {
    ghost kind = { kinds.ShiftLeft };

    #[tactic(auto, using(crate::proofs::Bits::moved_up, pdl_word::proofs::Shifts::shl_past))]
    fn value(operands: &CellOperands, values: &[u64], arrays: &[Vec<u64>]) -> u64 {
        // The word is moved in any case, so that no jump hangs on a value.
        let by = operands.second(values);
        let moved = low_bits(operands.width, operands.first(values) << (by % 64));
        if by < u64::from(operands.width) {
            moved
        } else {
            0
        }
    }

    ghost acts = { λ o at vs ws. refl };
}

pub struct ShiftRight;

impl CellOperation for ShiftRight {
    ghost kind = { kinds.ShiftRight };

    #[tactic(auto, using(crate::proofs::Bits::moved_down, pdl_word::proofs::Shifts::shr_past))]
    fn value(operands: &CellOperands, values: &[u64], arrays: &[Vec<u64>]) -> u64 {
        let by = operands.second(values);
        let moved = operands.first(values) >> (by % 64);
        if by < u64::from(operands.width) {
            moved
        } else {
            0
        }
    }

    ghost acts = { λ o at vs ws. refl };
}

pub struct Choose;

impl CellOperation for Choose {
    ghost kind = { kinds.Choose };

    fn value(operands: &CellOperands, values: &[u64], arrays: &[Vec<u64>]) -> u64 {
        let choice = values[operands.selector as usize];
        values[operands.places[choice as usize] as usize]
    }

    ghost acts = { λ o at vs ws. refl };
}

pub struct Slice;

impl CellOperation for Slice {
    ghost kind = { kinds.Slice };

    #[tactic(auto, using(crate::proofs::Bits::slice_cut))]
    fn value(operands: &CellOperands, values: &[u64], arrays: &[Vec<u64>]) -> u64 {
        (operands.first(values) >> operands.low) & operands.mask
    }

    ghost acts = { λ o at vs ws. refl };
}

pub struct Join;

impl CellOperation for Join {
    ghost kind = { kinds.Join };

    fn value(operands: &CellOperands, values: &[u64], arrays: &[Vec<u64>]) -> u64 {
        join(
            operands.low,
            operands.first(values),
            operands.second(values),
        )
    }

    ghost acts = { λ o at vs ws. refl };
}

pub struct Repeat;

impl CellOperation for Repeat {
    ghost kind = { kinds.Repeat };

    fn value(operands: &CellOperands, values: &[u64], arrays: &[Vec<u64>]) -> u64 {
        let word = operands.first(values);
        // One bit, as the sign of a number, is what is repeated most.
        if operands.width == 1 {
            repeat_bit(operands.count, word)
        } else {
            repeat(operands.width, operands.count, word)
        }
    }

    ghost acts = { λ o at vs ws. refl };
}

pub struct Look;

impl CellOperation for Look {
    ghost kind = { kinds.Look };

    #[tactic(auto, using(crate::proofs::Words::words))]
    fn value(operands: &CellOperands, values: &[u64], arrays: &[Vec<u64>]) -> u64 {
        let words = &arrays[operands.selector as usize];
        words[operands.first(values) as usize]
    }

    ghost acts = { λ o at vs ws. refl };
}
