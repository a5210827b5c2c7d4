// A list of cells of which no two are equal, each found again by itself.
ghost use Rattle.std.specs.Prelude.{◌≡◌, ◌≢◌, ℕ, ◌<◌, [], ◌∷◌, ◌++◌, length, slice_get, Some, AllPairs, IfSome, IfNone, OnOk, OnErr};

use pdl_kit::{NoMemory, Seq};
use pdl_net::Cell;
use std::alloc::Global;
use std::collections::HashMap;
use std::marker::Model;

/// Cells in order, no two of them equal.
#[derive(Drop)]
pub struct DistinctCells {
    cells: Vec<Cell>,
    /// Where each of them stands.
    places: HashMap<Cell, usize>,
}

impl Model for DistinctCells {
    ghost use Rattle.std.specs.Prelude.{List};
    ghost use Rattle.pdl_net.specs.declared.Cell as declared;

    ghost Value = { List declared.Cell };

    ghost use Rattle.pdl_build.specs.Distinct.{cells_of, AreFound};

    ghost view = { cells_of };

    ghost invariant = { AreFound ⟦<Cell as PartialEq>⟧.eq };
}

impl DistinctCells {
    /// No cells.
    pub fn new(alloc: Global) -> DistinctCells
        ensures { result ≡ [] }
    {
        DistinctCells {
            cells: Vec::new(alloc),
            places: HashMap::new(alloc),
        }
    }

    /// How many there are.
    pub fn len(&self) -> usize
        ensures { result ≡ length self.now }
    {
        self.cells.len()
    }

    /// The cell at a place.
    pub fn at(&self, place: usize) -> Cell
        requires { place < length self.now }
        ensures { slice_get self.now place ≡ Some result }
    {
        self.cells[place]
    }

    /// Where a cell stands, if it does.
    pub fn place(&self, cell: Cell) -> Option<usize>
        ensures found { IfSome result (λ k. slice_get self.now k ≡ Some cell) }
        ensures absent { IfNone result ((k : ℕ) → slice_get self.now k ≢ Some cell) }
    {
        match self.places.get(&cell) {
            Some(place) => Some(*place),
            None => None,
        }
    }

    /// One more cell, which is none of them.
    pub fn push(&mut self, cell: Cell) -> Result<(), NoMemory>
        requires { (k : ℕ) → slice_get self.old k ≢ Some cell }
        ensures ok { OnOk result (self.new ≡ self.old ++ cell ∷ []) }
        ensures err { OnErr result (self.new ≡ self.old) }
    {
        let place = self.cells.len();
        self.cells.push(cell)?;
        match self.places.insert(cell, place) {
            Ok(_) => Ok(()),
            Err(_) => {
                self.cells.pop();
                Err(NoMemory)
            }
        }
    }

    /// The list itself.
    pub fn into_seq(self) -> Seq<Cell>
        ensures value { result ≡ self }
        ensures distinct { AllPairs (λ a b. a ≢ b) self }
    {
        let DistinctCells { cells, places: _ } = self;
        Seq::from_vec(cells)
    }
}
