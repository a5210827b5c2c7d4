// The rules of refusal.
ghost use Rattle.std.specs.Prelude.{◌≡◌, [], ◌∷◌, drop};
ghost use Rattle.pdl_kit.specs.Rules.{text_of};

use Rule::*;

/// A rule whose breaking a refusal names.
#[derive(Clone, Copy, PartialEq, Eq)]
pub enum Rule {
    G1,
    Z1,
    Z2,
    Z3,
    Z4,
    Z5,
    Z6,
    Z7,
    N1,
    N2,
    N3,
    W1,
    W2,
    W3,
    W4,
    W5,
    W6,
    F1,
    F2,
    F3,
    F4,
    F5,
    L1,
    L2,
    L3,
    L4,
    L5,
    L6,
    L7,
    L8,
    S1,
    S2,
    S3,
    S4,
    S5,
    S6,
    S7,
    P1,
    I1,
    I2,
    I3,
    I4,
    I5,
    I6,
    I7,
    Y1,
    Y2,
    Y3,
    V1,
    V2,
    V3,
    V4,
    V5,
    B1,
    B2,
    B3,
    B4,
    B5,
    A1,
    A2,
    A3,
    A4,
    A5,
    A6,
    A7,
    A8,
}

impl Rule {
    /// The two characters of its name, as they are printed.
    pub fn text(self) -> [u8; 2]
        ensures { result ≡ text_of self }
    {
        [self.letter(), self.number()]
    }

    // The letter of its group.
    fn letter(self) -> u8
        ensures { text_of self ≡ result ∷ drop 1 (text_of self) }
    {
        match self {
            G1 => b'G',
            Z1 | Z2 | Z3 | Z4 | Z5 | Z6 | Z7 => b'Z',
            N1 | N2 | N3 => b'N',
            W1 | W2 | W3 | W4 | W5 | W6 => b'W',
            F1 | F2 | F3 | F4 | F5 => b'F',
            L1 | L2 | L3 | L4 | L5 | L6 | L7 | L8 => b'L',
            S1 | S2 | S3 | S4 | S5 | S6 | S7 => b'S',
            P1 => b'P',
            I1 | I2 | I3 | I4 | I5 | I6 | I7 => b'I',
            Y1 | Y2 | Y3 => b'Y',
            V1 | V2 | V3 | V4 | V5 => b'V',
            B1 | B2 | B3 | B4 | B5 => b'B',
            A1 | A2 | A3 | A4 | A5 | A6 | A7 | A8 => b'A',
        }
    }

    // The digit of its place in the group.
    fn number(self) -> u8
        ensures { drop 1 (text_of self) ≡ result ∷ [] }
    {
        match self {
            G1 | Z1 | N1 | W1 | F1 | L1 | S1 | P1 | I1 | Y1 | V1 | B1 | A1 => b'1',
            Z2 | N2 | W2 | F2 | L2 | S2 | I2 | Y2 | V2 | B2 | A2 => b'2',
            Z3 | N3 | W3 | F3 | L3 | S3 | I3 | Y3 | V3 | B3 | A3 => b'3',
            Z4 | W4 | F4 | L4 | S4 | I4 | V4 | B4 | A4 => b'4',
            Z5 | W5 | F5 | L5 | S5 | I5 | V5 | B5 | A5 => b'5',
            Z6 | W6 | L6 | S6 | I6 | A6 => b'6',
            Z7 | L7 | S7 | I7 | A7 => b'7',
            L8 | A8 => b'8',
        }
    }
}
