// What an operator gives on one net twice, or on a net and a constant: one row for each rule.
ghost use Rattle.std.specs.Prelude.{◌≡◌, ℕ, ◌<◌, ◌≤◌, ◌^◌, IsTrue};
ghost use Rattle.pdl_build.specs.Rules.{Gives};
ghost use Rattle.pdl_word.specs.Words.{widest};

use pdl_net::BinOp;
use pdl_word::{Word, mask};

/// What an operator on two words gives: one of them, the complement of the first, a number, or what no rule tells.
#[derive(Clone, Copy)]
pub enum OperatorRule {
    First,
    Second,
    Complement,
    Number(Word),
    Itself,
}

/// What an operator gives where both operands are one word.
pub fn on_one_word(op: BinOp) -> OperatorRule
    ensures { (w x : ℕ) → Gives result op w x x }
{
    match op {
        BinOp::And => OperatorRule::First,
        BinOp::Or => OperatorRule::First,
        BinOp::Xor => OperatorRule::Number(0),
        BinOp::Sub => OperatorRule::Number(0),
        BinOp::Eq => OperatorRule::Number(1),
        BinOp::Ne => OperatorRule::Number(0),
        BinOp::Lt => OperatorRule::Number(0),
        BinOp::Add | BinOp::Mul | BinOp::Shl | BinOp::Shr => OperatorRule::Itself,
    }
}

/// What an operator gives where the second operand is a constant; `below` tells that the first is a word of `width` bits in every state.
pub fn on_constant(op: BinOp, width: u8, value: Word, below: bool) -> OperatorRule
    requires low { 1 ≤ width }
    requires high { width ≤ widest }
    ensures { (x : ℕ) → (IsTrue below → x < 2 ^ width) → Gives result op width x value }
{
    let ones = mask(width);
    let bits = Word::from(width);
    match op {
        BinOp::And if value == 0 => OperatorRule::Second,
        BinOp::And if value == ones && below => OperatorRule::First,
        BinOp::Or if value == 0 => OperatorRule::First,
        BinOp::Or if value == ones && below => OperatorRule::Second,
        BinOp::Xor if value == 0 => OperatorRule::First,
        BinOp::Add if value == 0 && below => OperatorRule::First,
        BinOp::Sub if value == 0 && below => OperatorRule::First,
        BinOp::Shl if value == 0 && below => OperatorRule::First,
        BinOp::Shr if value == 0 => OperatorRule::First,
        BinOp::Shl if value >= bits => OperatorRule::Number(0),
        BinOp::Shr if value >= bits => OperatorRule::Number(0),
        BinOp::Eq if width == 1 && value == 1 && below => OperatorRule::First,
        BinOp::Eq if width == 1 && value == 0 && below => OperatorRule::Complement,
        BinOp::Ne if width == 1 && value == 0 && below => OperatorRule::First,
        BinOp::Ne if width == 1 && value == 1 && below => OperatorRule::Complement,
        _ => OperatorRule::Itself,
    }
}

/// What an operator gives where the first operand is a constant; `below` tells that the second is a word of `width` bits in every state.
pub fn after_constant(op: BinOp, width: u8, value: Word, below: bool) -> OperatorRule
    ensures { (y : ℕ) → (IsTrue below → y < 2 ^ width) → Gives result op width value y }
{
    match op {
        BinOp::Lt if width == 1 && value == 0 && below => OperatorRule::Second,
        _ => OperatorRule::Itself,
    }
}
