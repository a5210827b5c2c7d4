// A cell whose operands are all constants becomes the constant that it gives.
ghost use Rattle.std.specs.Prelude.{◌≡◌, ◌+◌, ◌*◌, ◌≤◌, ◌<◌, ◌^◌, false};
ghost use Rattle.pdl_net.specs.Signal.{bin_word};
ghost use Rattle.pdl_net.specs.Meaning.{IsThere, signal, cell_signal};
ghost use Rattle.pdl_net.specs.Well.{Fits};
ghost use Rattle.pdl_build.specs.FoldedCells.{is_foldable};
ghost use Rattle.pdl_build.specs.Rules.{FoldsTo};
ghost use Rattle.pdl_word.specs.Words.{widest};

use crate::Builder;
use pdl_net::{BinOp, Cell, Net};
use pdl_word as word;
use pdl_word::Word;

impl Builder {
    /// The constant that a cell gives, where its operands are all constants, else the cell.
    pub fn folded(&self, cell: Cell) -> Cell
        requires { Fits self.now cell }
        ensures fits { Fits self.now result }
        ensures same { cell_signal self.now (signal self.now) result
            ≡ cell_signal self.now (signal self.now) cell }
        ensures folded { is_foldable self.now.cells result ≡ false }
    {
        let _ = &self.alloc;
        match self.value(cell) {
            Some(value) => Cell::Const {
                width: self.cell_width(cell),
                value,
            },
            None => cell,
        }
    }

    /// The value of a cell whose operands are all constants.
    #[tactic(auto, using(crate::proofs::Folds::not_of, crate::proofs::Folds::slice_of, crate::proofs::Folds::rep_of))]
    fn value(&self, cell: Cell) -> Option<Word>
        requires { Fits self.now cell }
        ensures { FoldsTo self.now cell result }
    {
        match cell {
            Cell::Const { .. } | Cell::Read { .. } => None,
            Cell::Not(a) => {
                let x = self.constant_of(a)?;
                Some(word::complement(self.width(a), x))
            }
            Cell::Bin(op, a, b) => self.value_of_bin(op, a, b),
            Cell::Mux(choice, a, b) => self.value_of_mux(choice, a, b),
            Cell::Slice { a, high, low } => {
                let _width = self.width(a);
                let x = self.constant_of(a)?;
                Some(word::slice(high, low, x))
            }
            Cell::Cat(a, b) => self.value_of_cat(a, b),
            Cell::Rep { count, a } => {
                let x = self.constant_of(a)?;
                Some(word::rep(self.width(a), count, x))
            }
        }
    }

    #[tactic(auto, using(crate::proofs::Folds::and_right, crate::proofs::Folds::bin_of))]
    fn value_of_bin(&self, op: BinOp, a: Net, b: Net) -> Option<Word>
        requires { Fits self.now (Cell.Bin op a b) }
        ensures { FoldsTo self.now (Cell.Bin op a b) result }
    {
        let x = self.constant_of(a)?;
        let y = self.constant_of(b)?;
        Some(of_words(op, self.width(a), x, y))
    }

    #[tactic(auto, using(crate::proofs::Folds::and_right, crate::proofs::Folds::mux_of))]
    fn value_of_mux(&self, choice: Net, a: Net, b: Net) -> Option<Word>
        requires { Fits self.now (Cell.Mux choice a b) }
        ensures { FoldsTo self.now (Cell.Mux choice a b) result }
    {
        let chosen = self.constant_of(choice)?;
        let x = self.constant_of(a)?;
        let y = self.constant_of(b)?;
        Some(word::mux(chosen, x, y))
    }

    #[tactic(auto, using(crate::proofs::Folds::and_right, crate::proofs::Folds::cat_of, pdl_word::proofs::Bounds::fits_above))]
    fn value_of_cat(&self, a: Net, b: Net) -> Option<Word>
        requires { Fits self.now (Cell.Cat a b) }
        ensures { FoldsTo self.now (Cell.Cat a b) result }
    {
        let above = self.width(a);
        let below = self.width(b);
        let x = self.constant_of(a)?;
        let y = self.constant_of(b)?;
        prove!(above >= 1);
        Some(word::cat(below, x, y))
    }
}

/// What an operator gives on two words of `width` bits.
#[tactic(auto, unfolding(pdl_word::specs::Words::and, pdl_word::specs::Words::or, pdl_word::specs::Words::xor))]
fn of_words(op: BinOp, width: u8, x: Word, y: Word) -> Word
    requires low { 1 ≤ width }
    requires high { width ≤ widest }
    requires x_fits { x < 2 ^ width }
    requires y_fits { y < 2 ^ width }
    ensures { result ≡ bin_word op width x y }
{
    match op {
        BinOp::Add => word::add(width, x, y),
        BinOp::Sub => word::sub(width, x, y),
        BinOp::Mul => word::mul(width, x, y),
        BinOp::And => x & y,
        BinOp::Or => x | y,
        BinOp::Xor => x ^ y,
        BinOp::Eq => word::equal(x, y),
        BinOp::Ne => word::differ(x, y),
        BinOp::Lt => word::less(x, y),
        BinOp::Shl => word::shl(width, x, y),
        BinOp::Shr => word::shr(width, x, y),
    }
}
