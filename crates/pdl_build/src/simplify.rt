// What may stand for a cell: a net that is there, or a simpler cell.
ghost use Rattle.std.specs.Prelude.{◌≡◌, ℕ, ◌<◌, ◌≤◌, ◌^◌, false, IsTrue, IfSome, IfNone};
ghost use Rattle.pdl_net.specs.Circuit.{State};
ghost use Rattle.pdl_net.specs.Signal.{const_value, not_signal, bin_signal, mux_signal, slice_signal};
ghost use Rattle.pdl_net.specs.HasWidth.{HasWidth};
ghost use Rattle.pdl_net.specs.Meaning.{IsThere, Means, signal, cell_signal};
ghost use Rattle.pdl_net.specs.Well.{Fits};
ghost use Rattle.pdl_build.specs.FoldedCells.{is_const, is_constant};
ghost use Rattle.pdl_build.specs.Rules.{Gives, StandsFor, IsBelow, is_cut as cut};

use crate::rules::{OperatorRule, after_constant, on_constant, on_one_word};
use crate::same::is_same_net;
use crate::{Builder, bin_width};
use pdl_net::{BinOp, Cell, Net};
use pdl_word::Word;

/// What stands for a cell.
#[derive(Clone, Copy)]
pub enum Simple {
    Net(Net),
    Cell(Cell),
}

impl Builder {
    /// What stands for a cell by one rule.
    pub fn simple(&self, cell: Cell) -> Simple
        requires { Fits self.now cell }
        ensures { StandsFor self.now (cell_signal self.now (signal self.now) cell) result }
    {
        match cell {
            Cell::Not(a) => self.simple_not(a),
            Cell::Bin(op, a, b) => self.simple_bin(op, a, b),
            Cell::Mux(choice, a, b) => self.simple_mux(choice, a, b),
            Cell::Slice { a, high, low } => self.simple_slice(a, high, low),
            Cell::Rep { count, a } if count == 1 => Simple::Net(a),
            _ => Simple::Cell(cell),
        }
    }

    /// A complement; of one that is a complement itself, what is below.
    fn simple_not(&self, a: Net) -> Simple
        requires { IsThere self.now a }
        ensures { StandsFor self.now (not_signal (signal self.now a)) result }
    {
        match self.cell_of(a) {
            Some(Cell::Not(x)) if self.is_below(x) => Simple::Net(x),
            _ => Simple::Cell(Cell::Not(a)),
        }
    }

    /// An operator, by the rules on one net twice and on a constant.
    fn simple_bin(&self, op: BinOp, a: Net, b: Net) -> Simple
        requires a_there { IsThere self.now a }
        requires b_there { IsThere self.now b }
        requires widths { (signal self.now a).width ≡ (signal self.now b).width }
        ensures { StandsFor self.now
            (bin_signal op (signal self.now a) (signal self.now b)) result }
    {
        let width = bin_width(op, self.width(a));
        match self.rule(op, a, b) {
            OperatorRule::First => Simple::Net(a),
            OperatorRule::Second => Simple::Net(b),
            OperatorRule::Complement => self.simple_not(a),
            OperatorRule::Number(value) => Simple::Cell(Cell::Const { width, value }),
            OperatorRule::Itself => Simple::Cell(Cell::Bin(op, a, b)),
        }
    }

    /// The rule for an operator on two nets.
    fn rule(&self, op: BinOp, a: Net, b: Net) -> OperatorRule
        requires a_there { IsThere self.now a }
        requires b_there { IsThere self.now b }
        requires widths { (signal self.now a).width ≡ (signal self.now b).width }
        ensures { (s : State) → Gives result op (signal self.now a).width
            ((signal self.now a).value s) ((signal self.now b).value s) }
    {
        if is_same_net(a, b) {
            return on_one_word(op);
        }
        if let Some(value) = self.constant_of(b) {
            return on_constant(op, self.width(a), value, self.is_below(a));
        }
        match self.constant_of(a) {
            Some(value) => after_constant(op, self.width(a), value, self.is_below(b)),
            None => OperatorRule::Itself,
        }
    }

    /// A choice; of a complement the choice of what is below, with the arms exchanged.
    fn simple_mux(&self, choice: Net, a: Net, b: Net) -> Simple
        requires choice { HasWidth self.now choice 1 }
        requires a_there { IsThere self.now a }
        requires b_there { IsThere self.now b }
        requires widths { (signal self.now a).width ≡ (signal self.now b).width }
        ensures { StandsFor self.now
            (mux_signal (signal self.now choice) (signal self.now a) (signal self.now b)) result }
    {
        match self.cell_of(choice) {
            Some(Cell::Not(x)) if self.is_below(x) => self.simple_choice(x, b, a),
            _ => self.simple_choice(choice, a, b),
        }
    }

    /// A choice; none where the arms are one net or the choice is known, and of 1 by 1 the choice itself or its complement.
    fn simple_choice(&self, choice: Net, a: Net, b: Net) -> Simple
        requires choice { HasWidth self.now choice 1 }
        requires a_there { IsThere self.now a }
        requires b_there { IsThere self.now b }
        requires widths { (signal self.now a).width ≡ (signal self.now b).width }
        ensures { StandsFor self.now
            (mux_signal (signal self.now choice) (signal self.now a) (signal self.now b)) result }
    {
        if let Some(arm) = self.known_arm(choice, a, b) {
            return Simple::Net(arm);
        }
        if self.width(a) != 1 || !self.is_below(choice) {
            return Simple::Cell(Cell::Mux(choice, a, b));
        }
        match (self.constant_of(a), self.constant_of(b)) {
            (Some(x), Some(y)) if x == 1 && y == 0 => Simple::Net(choice),
            (Some(x), Some(y)) if x == 0 && y == 1 => self.simple_not(choice),
            _ => Simple::Cell(Cell::Mux(choice, a, b)),
        }
    }

    /// The arm that a choice takes, where that is known without a cell: both are one net, or the choice is a constant.
    #[tactic(auto, using(crate::proofs::Choices::same_arm, crate::proofs::Choices::first_arm, crate::proofs::Choices::second_arm))]
    fn known_arm(&self, choice: Net, a: Net, b: Net) -> Option<Net>
        requires choice_there { IsThere self.now choice }
        requires a_there { IsThere self.now a }
        requires b_there { IsThere self.now b }
        requires widths { (signal self.now a).width ≡ (signal self.now b).width }
        ensures { IfSome result (λ x. Means self.now x
            (mux_signal (signal self.now choice) (signal self.now a) (signal self.now b))) }
    {
        if is_same_net(a, b) {
            return Some(a);
        }
        match self.constant_of(choice) {
            Some(1) => Some(a),
            Some(_) => Some(b),
            None => None,
        }
    }

    /// A part of a net; of the whole the net itself, and of a part the part of what is below.
    fn simple_slice(&self, a: Net, high: u8, low: u8) -> Simple
        requires there { IsThere self.now a }
        requires order { low ≤ high }
        requires top { high < (signal self.now a).width }
        ensures { StandsFor self.now (slice_signal high low (signal self.now a)) result }
    {
        if low == 0 && high == self.width(a) - 1 && self.is_below(a) {
            return Simple::Net(a);
        }
        match self.cell_of(a) {
            Some(
                Cell::Slice {
                    a: x,
                    low: below,
                    ..
                },
            ) => {
                Simple::Cell(Cell::Slice {
                    a: x,
                    high: below + high,
                    low: below + low,
                })
            },
            _ => Simple::Cell(Cell::Slice { a, high, low }),
        }
    }

    /// The value of a net that is a constant, none of any other net.
    pub fn constant_of(&self, net: Net) -> Option<Word>
        requires { IsThere self.now net }
        ensures value { IfSome result (λ v. (signal self.now net).value ≡ const_value v) }
        ensures fits { IfSome result (λ v. v < 2 ^ (signal self.now net).width) }
        ensures other { IfNone result (is_constant self.now.cells net ≡ false) }
    {
        match self.cell_of(net) {
            Some(Cell::Const { value, .. }) => Some(value),
            _ => None,
        }
    }

    /// Whether a net is known to be below the power of two of its width in every state, also in one that doesn't suit.
    fn is_below(&self, net: Net) -> bool
        requires { IsThere self.now net }
        ensures { IsTrue result → IsBelow (signal self.now net) }
    {
        match net {
            Net::Cell(k) => self.extents[k].is_below,
            _ => false,
        }
    }

    /// Whether a cell is known to be so: it cuts its value to its width, or what it reads is below.
    pub fn cell_below(&self, cell: Cell) -> bool
        requires { Fits self.now cell }
        ensures { IsTrue result → IsBelow (cell_signal self.now (signal self.now) cell) }
    {
        match cell {
            Cell::Const { .. } => true,
            Cell::Not(_) => true,
            Cell::Bin(op, a, b) => self.bin_below(op, a, b),
            Cell::Mux(_, a, b) => self.is_below(a) && self.is_below(b),
            Cell::Slice { .. } => true,
            Cell::Cat(a, b) => self.is_below(a) && self.is_below(b),
            Cell::Rep { a, .. } => self.is_below(a),
            Cell::Read { .. } => false,
        }
    }

    /// Whether an operator on two nets is known to be so.
    fn bin_below(&self, op: BinOp, a: Net, b: Net) -> bool
        requires a_there { IsThere self.now a }
        requires b_there { IsThere self.now b }
        requires widths { (signal self.now a).width ≡ (signal self.now b).width }
        ensures { IsTrue result → IsBelow (bin_signal op (signal self.now a) (signal self.now b)) }
    {
        match op {
            BinOp::And => self.is_below(a) || self.is_below(b),
            BinOp::Shr => self.is_below(a),
            _ => is_cut(op) || self.is_below(a) && self.is_below(b),
        }
    }

    /// The cell whose value a net has, none of an input or a register.
    fn cell_of(&self, net: Net) -> Option<Cell>
        requires { IsThere self.now net }
        ensures fits { IfSome result (λ g. Fits self.now g) }
        ensures same { IfSome result (λ g.
            signal self.now net ≡ cell_signal self.now (signal self.now) g) }
        ensures constant { IfSome result (λ g. is_constant self.now.cells net ≡ is_const g) }
        ensures none { IfNone result (is_constant self.now.cells net ≡ false) }
    {
        match net {
            Net::Cell(k) => Some(self.cells.at(k)),
            _ => None,
        }
    }
}

/// Whether an operator gives what is below the power of two of its width whatever it reads.
fn is_cut(op: BinOp) -> bool
    ensures { result ≡ cut op }
{
    !matches!(op, BinOp::And | BinOp::Or | BinOp::Xor | BinOp::Shr)
}
