// Whole numbers with a sign, that may have more digits than the integer types.
ghost use Rattle.std.specs.Prelude.{◌≡◌, ◌≤◌, ◌<◌, ◌+◌, ◌*◌, ◌^◌, pos, neg_ℤ, ◌+ℤ◌, ◌-ℤ◌, ◌*ℤ◌, ◌≤ℤ◌, ◌<ℤ◌, IfSome, IfNone, IsTrue, ◌↔◌};
ghost use Rattle.pdl_asm.specs.Numbers.{IsFar, address_of, as_word};

use pdl_word::Word;
use std::marker::Model;

/// A whole number, of up to 39 decimal digits and a little beyond: ten times the one part, and the other part, 0 to 9.
///
/// A word of `WIDEST` bits with a sign, or with `MOST_DECIMAL` digits, fits no integer type.
#[derive(Drop)]
pub struct Whole {
    tens: i128,
    units: u8,
}

impl Model for Whole {
    ghost use Rattle.std.specs.Prelude.{ℤ, pos, ◌+ℤ◌, ◌*ℤ◌, ◌≤◌};

    ghost Value = { ℤ };

    ghost view = { λ n. pos 10 *ℤ n.tens +ℤ pos n.units };

    ghost invariant = { λ n. n.units ≤ 9 };
}

impl Whole {
    /// The number of so many tens, fewer than 10^38, and a last digit.
    pub fn from_parts(tens: u128, units: u8) -> Whole
        requires tens { tens < 10 ^ 38 }
        requires units { units ≤ 9 }
        ensures { result ≡ pos (10 * tens + units) }
    {
        Whole {
            tens: tens as i128,
            units,
        }
    }

    /// The number of a place or a register.
    pub fn from_count(count: u32) -> Whole
        ensures { result ≡ pos count }
    {
        Whole {
            tens: i128::from(count / 10),
            units: (count % 10) as u8,
        }
    }

    /// The same number once more.
    pub fn copy(&self) -> Whole
        ensures { result ≡ self.now }
    {
        Whole {
            tens: self.tens,
            units: self.units,
        }
    }

    /// The number as far from 0 on the other side.
    pub fn negative(&self) -> Whole
        requires high { self.now ≤ℤ pos (10 ^ 39) }
        requires low { pos 0 ≤ℤ self.now }
        ensures { result ≡ neg_ℤ self.now }
    {
        if self.units == 0 {
            Whole {
                tens: -self.tens,
                units: 0,
            }
        } else {
            Whole {
                tens: -1 - self.tens,
                units: 10 - self.units,
            }
        }
    }

    /// -1 less the number, which is as far from -1 as that from 0.
    pub fn complement(&self) -> Whole
        ensures { result ≡ neg_ℤ (pos 1) -ℤ self.now }
    {
        Whole {
            tens: -1 - self.tens,
            units: 9 - self.units,
        }
    }

    /// Whether it is below 0.
    pub fn is_negative(&self) -> bool
        ensures { IsTrue result ↔ (self.now <ℤ pos 0) }
    {
        self.tens < 0
    }

    /// Its value as a word, if it is one.
    pub fn to_word(&self) -> Option<Word>
        ensures { result ≡ as_word self.now }
    {
        if self.tens < 0 {
            return None;
        }
        (self.tens as u128)
            .checked_mul(10)?
            .checked_add(u128::from(self.units))
    }

    /// Its value as an address, 0 to 65,535, if it is one.
    pub fn address(&self) -> Option<usize>
        ensures { result ≡ address_of self.now }
    {
        let word = self.to_word()?;
        if word < 65_536 {
            Some(word as usize)
        } else {
            None
        }
    }

    /// The next number.
    pub fn next(&self) -> Whole
        requires { self.now ≤ℤ pos (10 ^ 39 + 10 ^ 38) }
        ensures { result ≡ self.now +ℤ pos 1 }
    {
        if self.units < 9 {
            Whole {
                tens: self.tens,
                units: self.units + 1,
            }
        } else {
            Whole {
                tens: self.tens + 1,
                units: 0,
            }
        }
    }

    /// A number less another one, where that doesn't lie so far from 0 that it has more than `WIDEST` bits.
    pub fn minus(&self, other: &Whole) -> Option<Whole>
        ensures value { IfSome result (λ d. d ≡ self.now -ℤ other.now) }
        ensures none { IfNone result (IsFar (self.now -ℤ other.now)) }
    {
        let tens = self.tens.checked_sub(other.tens)?;
        if self.units >= other.units {
            Some(Whole {
                tens,
                units: self.units - other.units,
            })
        } else {
            Some(Whole {
                tens: tens.checked_sub(1)?,
                units: 10 + self.units - other.units,
            })
        }
    }
}
