// The kind of a run, as the walk asks for it.

ghost use Rattle.std.specs.Prelude.{◌≡◌};
ghost use Rattle.pdl_netrun.specs.RunKinds.{kind_in};

use crate::operation::CellKind;

/// The kind of a run, in three steps of three at most.
///
/// A choice between more than three becomes a jump through a table, which some machines guess wrong each time.
#[derive(Clone, Copy)]
pub enum RunKind {
    Taking(TakingKind),
    Testing(TestingKind),
    Counting(CountingKind),
}

/// Cells that take a word, or a part of one, as it is.
#[derive(Clone, Copy)]
pub enum TakingKind {
    Word(WordKind),
    Part(PartKind),
}

/// Cells that compare two words, or combine them bit by bit.
#[derive(Clone, Copy)]
pub enum TestingKind {
    Compare(CompareKind),
    Combine(CombineKind),
}

/// Cells that count with words, or turn their bits.
#[derive(Clone, Copy)]
pub enum CountingKind {
    Count(CountKind),
    Turn(TurnKind),
}

#[derive(Clone, Copy)]
pub enum WordKind {
    Constant,
    Choose,
    Look,
}

#[derive(Clone, Copy)]
pub enum PartKind {
    Slice,
    Join,
    Repeat,
}

#[derive(Clone, Copy)]
pub enum CompareKind {
    Equal,
    Differ,
    Less,
}

#[derive(Clone, Copy)]
pub enum CombineKind {
    And,
    Or,
    Xor,
}

#[derive(Clone, Copy)]
pub enum CountKind {
    Add,
    Sub,
    Mul,
}

#[derive(Clone, Copy)]
pub enum TurnKind {
    Complement,
    ShiftLeft,
    ShiftRight,
}

/// The kind of a run of cells of a kind.
pub fn run_kind(kind: CellKind) -> RunKind
    ensures { kind_in result ≡ kind }
{
    match kind {
        CellKind::Constant => RunKind::Taking(TakingKind::Word(WordKind::Constant)),
        CellKind::Choose => RunKind::Taking(TakingKind::Word(WordKind::Choose)),
        CellKind::Look => RunKind::Taking(TakingKind::Word(WordKind::Look)),
        CellKind::Slice => RunKind::Taking(TakingKind::Part(PartKind::Slice)),
        CellKind::Join => RunKind::Taking(TakingKind::Part(PartKind::Join)),
        CellKind::Repeat => RunKind::Taking(TakingKind::Part(PartKind::Repeat)),
        CellKind::Equal => RunKind::Testing(TestingKind::Compare(CompareKind::Equal)),
        CellKind::Differ => RunKind::Testing(TestingKind::Compare(CompareKind::Differ)),
        CellKind::Less => RunKind::Testing(TestingKind::Compare(CompareKind::Less)),
        CellKind::And => RunKind::Testing(TestingKind::Combine(CombineKind::And)),
        CellKind::Or => RunKind::Testing(TestingKind::Combine(CombineKind::Or)),
        CellKind::Xor => RunKind::Testing(TestingKind::Combine(CombineKind::Xor)),
        CellKind::Add => RunKind::Counting(CountingKind::Count(CountKind::Add)),
        CellKind::Sub => RunKind::Counting(CountingKind::Count(CountKind::Sub)),
        CellKind::Mul => RunKind::Counting(CountingKind::Count(CountKind::Mul)),
        CellKind::Complement => RunKind::Counting(CountingKind::Turn(TurnKind::Complement)),
        CellKind::ShiftLeft => RunKind::Counting(CountingKind::Turn(TurnKind::ShiftLeft)),
        CellKind::ShiftRight => RunKind::Counting(CountingKind::Turn(TurnKind::ShiftRight)),
    }
}
