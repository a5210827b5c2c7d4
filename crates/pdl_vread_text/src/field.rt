//! What the grammar asks of single tokens.
ghost use Rattle.std.specs.Prelude.{◌≡◌};
ghost use Rattle.std.specs.Option.{option_copied};
ghost use Rattle.pdl_vread_text.specs.Grammar.{fits, is_of_kind, word};
ghost use Rattle.pdl_vread_text.specs.Words as words;

use crate::names::{is_array, is_cell, is_module, is_operand, is_port, is_reg};
use crate::numbers::{constant_of, number_of};
use pdl_net::BinOp;

/// What a token has to be: a keyword, a symbol, a number, a constant, an operator, or a name of a kind.
#[derive(Clone, Copy)]
pub enum Field {
    Module,
    Input,
    Output,
    Wire,
    Reg,
    Assign,
    Always,
    Posedge,
    Begin,
    If,
    End,
    EndModule,
    Clock,
    Reset,
    Zero,
    OpenRound,
    CloseRound,
    OpenSquare,
    CloseSquare,
    OpenBrace,
    CloseBrace,
    Comma,
    Colon,
    Semicolon,
    Equals,
    At,
    Takes,
    Question,
    Tilde,
    Number,
    Constant,
    Operator,
    ModuleName,
    PortName,
    RegName,
    ArrayName,
    CellName,
    Operand,
}

/// The operator between two operands that a symbol is (IEEE 1364-2005, clause 5.1).
#[tactic(auto, unfolding(crate::specs::Words::operator_of))]
pub fn operator_of(text: &[u8]) -> Option<BinOp>
    ensures { result ≡ words.operator_of text.now }
{
    if text == b"+".as_slice() {
        Some(BinOp::Add)
    } else if text == b"-".as_slice() {
        Some(BinOp::Sub)
    } else if text == b"*".as_slice() {
        Some(BinOp::Mul)
    } else if text == b"&".as_slice() {
        Some(BinOp::And)
    } else if text == b"|".as_slice() {
        Some(BinOp::Or)
    } else if text == b"^".as_slice() {
        Some(BinOp::Xor)
    } else {
        comparison_or_shift(text)
    }
}

fn comparison_or_shift(text: &[u8]) -> Option<BinOp>
    ensures { result ≡ words.comparison_or_shift text.now }
{
    if text == b"==".as_slice() {
        Some(BinOp::Eq)
    } else if text == b"!=".as_slice() {
        Some(BinOp::Ne)
    } else if text == b"<".as_slice() {
        Some(BinOp::Lt)
    } else if text == b"<<".as_slice() {
        Some(BinOp::Shl)
    } else if text == b">>".as_slice() {
        Some(BinOp::Shr)
    } else {
        None
    }
}

impl Field {
    // The one word that is asked, if it is one alone.
    fn word(self) -> Option<&'static [u8]>
        ensures { option_copied result ≡ word self }
    {
        match self {
            Field::Module => Some(b"module"),
            Field::Input => Some(b"input"),
            Field::Output => Some(b"output"),
            Field::Wire => Some(b"wire"),
            Field::Reg => Some(b"reg"),
            Field::Assign => Some(b"assign"),
            Field::Always => Some(b"always"),
            Field::Posedge => Some(b"posedge"),
            Field::Begin => Some(b"begin"),
            Field::If => Some(b"if"),
            Field::End => Some(b"end"),
            Field::EndModule => Some(b"endmodule"),
            Field::Clock => Some(b"clk"),
            Field::Reset => Some(b"rst"),
            Field::Zero => Some(b"0"),
            Field::OpenRound => Some(b"("),
            Field::CloseRound => Some(b")"),
            Field::OpenSquare => Some(b"["),
            Field::CloseSquare => Some(b"]"),
            Field::OpenBrace => Some(b"{"),
            Field::CloseBrace => Some(b"}"),
            Field::Comma => Some(b","),
            Field::Colon => Some(b":"),
            Field::Semicolon => Some(b";"),
            Field::Equals => Some(b"="),
            Field::At => Some(b"@"),
            Field::Takes => Some(b"<="),
            Field::Question => Some(b"?"),
            Field::Tilde => Some(b"~"),
            _ => None,
        }
    }

    // Whether a token is of the kind that is asked.
    fn is_of_kind(self, text: &[u8]) -> bool
        ensures { result ≡ is_of_kind self text.now }
    {
        match self {
            Field::Number => number_of(text).is_some(),
            Field::Constant => constant_of(text).is_some(),
            Field::Operator => operator_of(text).is_some(),
            Field::ModuleName => is_module(text),
            Field::PortName => is_port(text),
            Field::RegName => is_reg(text),
            Field::ArrayName => is_array(text),
            Field::CellName => is_cell(text),
            Field::Operand => is_operand(text),
            _ => false,
        }
    }

    /// Whether a token is what is asked.
    #[tactic(auto, using(crate::proofs::Fields::of_word, crate::proofs::Fields::of_kind))]
    pub fn fits(self, text: &[u8]) -> bool
        ensures { result ≡ fits self text.now }
    {
        match self.word() {
            Some(word) => text == word,
            None => self.is_of_kind(text),
        }
    }
}
