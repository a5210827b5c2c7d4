// A line of an assembly text.
use crate::number::SignedNumber;
use pdl_kit::{Name, Seq};

/// An operand: a name, which may be that of a register or a label, or a number.
#[derive(Drop)]
pub enum Operand {
    Label(Name),
    Number(SignedNumber),
}

/// The operands of an instruction.
#[derive(Drop)]
pub enum Operands {
    /// At most 64, in their order.
    Few(Seq<Operand>),
    /// More than 64, which no instruction has: each argument has a letter of its own.
    TooMany,
}

/// What a line does.
#[derive(Drop)]
pub enum Operation {
    Nothing,
    /// `.at`: sets the place.
    At(SignedNumber),
    /// `.word`: a word of a number.
    Word(SignedNumber),
    /// An instruction of this name with operands.
    Insn(Name, Operands),
}

/// A line: its label, if it has one, and its operation.
#[derive(Drop)]
pub struct AssemblyLine {
    pub label: Option<Name>,
    pub operation: Operation,
}
