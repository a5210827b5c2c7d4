// A number as a text writes it.
ghost use Rattle.std.specs.Prelude.{◌≡◌, ◌^◌, pos, neg_ℤ, ◌≤ℤ◌};

use crate::whole::Whole;
use std::marker::Model;

/// A number of a text: at most 39 decimal or 32 hexadecimal digits, so between `-10^39` and `10^39`.
#[derive(Drop)]
pub struct SignedNumber {
    value: Whole,
}

impl Model for SignedNumber {
    ghost use Rattle.std.specs.Prelude.{ℤ, pos, neg_ℤ, ◌≤ℤ◌, ◌^◌};

    ghost Value = { ℤ };

    ghost view = { λ n. n.value };

    ghost invariant = { λ n. (neg_ℤ (pos (10 ^ 39)) ≤ℤ n.value) × (n.value ≤ℤ pos (10 ^ 39)) };
}

impl SignedNumber {
    /// The number of a magnitude.
    pub fn from_magnitude(magnitude: Whole) -> SignedNumber
        requires low { pos 0 ≤ℤ magnitude }
        requires high { magnitude ≤ℤ pos (10 ^ 39) }
        ensures { result ≡ magnitude }
    {
        SignedNumber { value: magnitude }
    }

    /// The number that is less than 0 by a magnitude.
    pub fn negative(magnitude: &Whole) -> SignedNumber
        requires low { pos 0 ≤ℤ magnitude.now }
        requires high { magnitude.now ≤ℤ pos (10 ^ 39) }
        ensures { result ≡ neg_ℤ magnitude.now }
    {
        SignedNumber {
            value: magnitude.negative(),
        }
    }

    /// Its value.
    pub fn get(&self) -> &Whole
        ensures value { result.now ≡ self.now }
        ensures low { neg_ℤ (pos (10 ^ 39)) ≤ℤ result.now }
        ensures high { result.now ≤ℤ pos (10 ^ 39) }
    {
        &self.value
    }
}
