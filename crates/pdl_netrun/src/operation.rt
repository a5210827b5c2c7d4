// What cells do: their kinds, what a cell of a kind reads, and the value that it makes.

ghost use Rattle.std.specs.Prelude.{◌≡◌, ◌<◌, ℕ, List, [], length, slice_index, slice_index_or, slice_set};
ghost use Rattle.pdl_netrun.specs.Steps.{KindFits, kind_value, after_kind, array_words, reading_at};

/// What a cell does, apart from what it reads.
#[derive(Clone, Copy, PartialEq, Eq)]
pub enum CellKind {
    /// Nothing, since the value of a constant stands.
    Constant,
    Complement,
    Add,
    Sub,
    Mul,
    And,
    Or,
    Xor,
    Equal,
    Differ,
    Less,
    ShiftLeft,
    ShiftRight,
    Choose,
    Slice,
    Join,
    Repeat,
    Look,
}

/// What a cell reads, and the widths that it goes by; its kind says which of these it looks at.
#[derive(Clone, Copy)]
pub struct CellOperands {
    /// The places of the two words, of a choice that for 0 first; one that reads one word has it first.
    pub places: [u32; 2],
    /// The place of a choice's bit, or the number of the array.
    pub selector: u32,
    /// The width of the words in bits.
    pub width: u8,
    /// The highest bit of a slice.
    pub high: u8,
    /// The lowest bit of a slice, or the width of the lower word of two that are joined.
    pub low: u8,
    /// How often a word is repeated.
    pub count: u8,
    /// The largest word of as many bits as `width` says, or as a slice has, by which a value is cut to them; of no more than 64.
    pub mask: u64,
}

impl CellOperands {
    /// A cell that reads the words at these places.
    pub fn reading(first: u32, second: u32) -> CellOperands
        ensures { result ≡ reading_at first second }
    {
        CellOperands {
            places: [first, second],
            selector: 0,
            width: 0,
            high: 0,
            low: 0,
            count: 0,
            mask: 0,
        }
    }

    /// A cell that reads the one word at this place.
    pub fn reading_one(place: u32) -> CellOperands
        ensures { result ≡ reading_at place place }
    {
        CellOperands::reading(place, place)
    }

    /// The word at the first place.
    pub fn first(&self, values: &[u64]) -> u64
        requires { slice_index self.now.places 0 < length values.now }
        ensures { result ≡ slice_index values.now (slice_index self.now.places 0) }
    {
        values[self.places[0] as usize]
    }

    /// The word at the second place.
    pub fn second(&self, values: &[u64]) -> u64
        requires { slice_index self.now.places 1 < length values.now }
        ensures { result ≡ slice_index values.now (slice_index self.now.places 1) }
    {
        values[self.places[1] as usize]
    }
}

/// How a kind of cells that aren't constants makes its value, of at most 64 bits.
///
/// A loop over cells of one kind is generic over it, so that it asks for the kind once and not for each cell.
pub trait CellOperation {
    ghost use Rattle.pdl_netrun.specs.declared.operation.CellKind.{CellKind};
    ghost use Rattle.pdl_netrun.specs.declared.operation.CellOperands.{CellOperands};

    /// The kind of its cells.
    ghost kind: { CellKind };

    /// The value that a cell makes.
    fn value(operands: &CellOperands, values: &[u64], arrays: &[Vec<u64>]) -> u64
        requires { KindFits 64 kind operands.now values.now (array_words arrays.now) }
        ensures { result ≡ kind_value kind operands.now values.now (array_words arrays.now) };

    /// A cell's place has this value afterwards.
    ghost acts: { (o : CellOperands) (at : ℕ) (vs : List ℕ) (ws : List (List ℕ)) →
        after_kind kind o at vs ws ≡ slice_set vs at (kind_value kind o vs ws) };
}
