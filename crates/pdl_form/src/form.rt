// The parts of a flat form. Variables, memories and stages are numbers, counted from 0.
use pdl_kit::{Boxed, Name, Seq};
use pdl_syntax_tree::{BinaryOp, MemKind};
use pdl_word::Word;

/// An expression over numbered variables, with the widths in bits that its value needs: `width` is that of the operands, in `Constant` that of the value, and `wide` that of an extended value. In `Cat` it is that of `b`, the lower part.
#[derive(Drop)]
pub enum FlatExpr {
    Constant {
        width: u8,
        value: Word,
    },
    Variable(usize),
    Slice {
        x: usize,
        high: u8,
        low: u8,
    },
    Not {
        width: u8,
        a: Boxed<FlatExpr>,
    },
    Binary {
        op: BinaryOp,
        width: u8,
        a: Boxed<FlatExpr>,
        b: Boxed<FlatExpr>,
    },
    Cat {
        a: Boxed<FlatExpr>,
        width: u8,
        b: Boxed<FlatExpr>,
    },
    LessSigned {
        width: u8,
        a: Boxed<FlatExpr>,
        b: Boxed<FlatExpr>,
    },
    ZeroExtend {
        wide: u8,
        a: Boxed<FlatExpr>,
    },
    SignExtend {
        width: u8,
        wide: u8,
        a: Boxed<FlatExpr>,
    },
    Choose {
        c: Boxed<FlatExpr>,
        a: Boxed<FlatExpr>,
        b: Boxed<FlatExpr>,
    },
}

/// What a statement does, with the variable `x` that it binds, its memory `m` and the variable `a` of its address. An `if` on an expression binds its guard, and an `update` is a verify that isn't the last. The last three bind an advised variable, by an expression or by a read of an advisory memory, and write such a memory.
#[derive(Drop)]
pub enum Op {
    Bind { x: usize, e: FlatExpr },
    CombRead { x: usize, m: usize, a: usize },
    DelayedRead { x: usize, m: usize, a: usize },
    Write { m: usize, a: usize, e: FlatExpr },
    ReserveRead { m: usize, a: usize },
    ReserveWrite { m: usize, a: usize },
    Block { m: usize, a: usize },
    Release { m: usize, a: usize },
    Call(Seq<FlatExpr>),
    SpecCall(Seq<FlatExpr>),
    Verify { last: bool, args: Seq<FlatExpr> },
    SpecCheck,
    SpecBarrier,
    AdviceBind { x: usize, e: FlatExpr },
    AdviceRead { x: usize, m: usize, a: usize },
    AdviceWrite { m: usize, a: usize, e: FlatExpr },
}

/// A branch of an `if`, with the variable of its truth value: the first branch is taken where that is 1, the second where it isn't.
#[derive(Clone, Copy)]
pub struct FlatGuard {
    pub var: usize,
    pub first: bool,
}

/// A statement with its stage and the guards that it stands under, the outermost first.
#[derive(Drop)]
pub struct FlatStmt {
    pub stage: usize,
    pub guards: Seq<FlatGuard>,
    pub op: Op,
}

/// A memory's lock with how many writes may be pending, or none.
#[derive(Clone, Copy, PartialEq, Eq)]
pub enum Lock {
    Plain,
    Queue(u8),
    Bypass(u8),
    Rename(u8),
}

/// A memory, with the width of its words in bits, how many words it has, and its kind.
#[derive(Drop)]
pub struct FlatMem {
    pub name: Name,
    pub width: u8,
    pub depth: u32,
    pub kind: MemKind,
    pub lock: Lock,
}

/// Where a thread goes from a stage: out of the pipe, to one stage, or where `x` is 1 to the first stage, else to the second.
#[derive(Clone, Copy)]
pub enum Next {
    Ends,
    Goes(usize),
    Forks {
        x: usize,
        first: usize,
        second: usize,
    },
}

/// One of the two branches of the fork in this stage.
#[derive(Clone, Copy)]
pub struct FlatBranch {
    pub fork: usize,
    pub first: bool,
}

/// The branches that a stage stands in, the innermost first; those that there are come before those that there aren't.
#[derive(Clone, Copy)]
pub struct FlatBranches {
    pub first: Option<FlatBranch>,
    pub second: Option<FlatBranch>,
    pub third: Option<FlatBranch>,
    pub fourth: Option<FlatBranch>,
}

/// The branches of a stage that stands in none.
pub const NO_BRANCHES: FlatBranches = FlatBranches {
    first: None,
    second: None,
    third: None,
    fourth: None,
};

/// A stage: where it leads, the branches that it stands in, and the fork stage whose branches meet in it.
#[derive(Clone, Copy)]
pub struct FlatStage {
    pub next: Next,
    pub branches: FlatBranches,
    pub merges: Option<usize>,
}
