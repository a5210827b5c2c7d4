// Operators on words of a width that is known when they run.
ghost use Rattle.std.specs.Prelude.{◌≡◌, ◌≤◌, ◌<◌, ◌^◌};
ghost use Rattle.pdl_semantics.specs.Flat.{operator_value};
ghost use Rattle.pdl_syntax_tree.specs.View.{op_view};
ghost use Rattle.pdl_word.specs.Words.{widest};

use pdl_syntax_tree::BinaryOp;
use pdl_word::Word;

/// An operator on two words of a width.
#[tactic(auto, unfolding(pdl_word::specs::Words::and, pdl_word::specs::Words::or, pdl_word::specs::Words::xor))]
pub fn apply(op: BinaryOp, width: u8, a: Word, b: Word) -> Word
    requires low { 1 ≤ width }
    requires high { width ≤ widest }
    requires a_fits { a < 2 ^ width }
    requires b_fits { b < 2 ^ width }
    ensures { result ≡ operator_value (op_view op) width a b }
{
    match op {
        BinaryOp::Add => pdl_word::add(width, a, b),
        BinaryOp::Sub => pdl_word::sub(width, a, b),
        BinaryOp::Mul => pdl_word::mul(width, a, b),
        BinaryOp::And => a & b,
        BinaryOp::Or => a | b,
        BinaryOp::Xor => a ^ b,
        BinaryOp::Equal => pdl_word::equal(a, b),
        BinaryOp::Differ => pdl_word::differ(a, b),
        BinaryOp::Less => pdl_word::less(a, b),
        BinaryOp::ShiftLeft => pdl_word::shl(width, a, b),
        BinaryOp::ShiftRight => pdl_word::shr(width, a, b),
    }
}
