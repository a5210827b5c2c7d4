//! The parts of a file: which rules may come where.
ghost use Rattle.std.specs.Prelude.{◌≡◌};
ghost use Rattle.pdl_vread_text.specs.Grammar as spec;

use crate::rule::VerilogRule;

/// A place in a file, by what may come there.
#[derive(Clone, Copy)]
pub enum Part {
    /// The beginning of a file.
    Start,
    /// After the reset or a port.
    Ports,
    /// A port, after its comma.
    Direction,
    /// The declarations of registers.
    Regs,
    /// What a range after `reg` belongs to.
    Declared,
    /// The declarations of arrays.
    Arrays,
    /// The array that a range after `reg` belongs to.
    LaterArray,
    /// The cells.
    Cells,
    /// The right side of a cell.
    Term,
    /// A term after the operand that begins it.
    AfterOperand,
    /// A term after its `{`.
    Braced,
    /// The `assign`s of outputs.
    Outputs,
    /// The blocks of registers.
    Blocks,
    /// What a block drives.
    Block,
    /// The blocks of arrays.
    ArrayBlocks,
    /// The first write of a block.
    FirstWrite,
    /// A block after a write.
    Writes,
    /// Nothing more.
    Finished,
}

static AT_START: [VerilogRule; 1] = [VerilogRule::Opening];

static AT_PORTS: [VerilogRule; 2] = [VerilogRule::NextPort, VerilogRule::Closing];

static AT_DIRECTION: [VerilogRule; 2] = [VerilogRule::InputPort, VerilogRule::OutputPort];

static AT_REGS: [VerilogRule; 5] = [
    VerilogRule::RegRange,
    VerilogRule::CellHead,
    VerilogRule::OutputDriven,
    VerilogRule::BlockHead,
    VerilogRule::Ending,
];

static AT_DECLARED: [VerilogRule; 2] = [VerilogRule::RegDeclared, VerilogRule::ArrayDeclared];

static AT_ARRAYS: [VerilogRule; 5] = [
    VerilogRule::ArrayRange,
    VerilogRule::CellHead,
    VerilogRule::OutputDriven,
    VerilogRule::BlockHead,
    VerilogRule::Ending,
];

static AT_LATER_ARRAY: [VerilogRule; 1] = [VerilogRule::ArrayDeclared];

static AT_CELLS: [VerilogRule; 4] = [
    VerilogRule::CellHead,
    VerilogRule::OutputDriven,
    VerilogRule::BlockHead,
    VerilogRule::Ending,
];

static AT_TERM: [VerilogRule; 5] = [
    VerilogRule::ConstTerm,
    VerilogRule::NotTerm,
    VerilogRule::FirstOperand,
    VerilogRule::ReadTerm,
    VerilogRule::OpenTerm,
];

static AT_AFTER_OPERAND: [VerilogRule; 3] = [
    VerilogRule::BinTerm,
    VerilogRule::MuxTerm,
    VerilogRule::SliceTerm,
];

static AT_BRACED: [VerilogRule; 2] = [VerilogRule::CatTerm, VerilogRule::RepTerm];

static AT_OUTPUTS: [VerilogRule; 3] = [
    VerilogRule::OutputDriven,
    VerilogRule::BlockHead,
    VerilogRule::Ending,
];

static AT_BLOCKS: [VerilogRule; 2] = [VerilogRule::BlockHead, VerilogRule::Ending];

static AT_BLOCK: [VerilogRule; 2] = [VerilogRule::RegDriven, VerilogRule::ArrayBegin];

static AT_ARRAY_BLOCKS: [VerilogRule; 2] = [VerilogRule::ArrayHead, VerilogRule::Ending];

static AT_FIRST_WRITE: [VerilogRule; 1] = [VerilogRule::Written];

static AT_WRITES: [VerilogRule; 2] = [VerilogRule::Written, VerilogRule::ArrayEnd];

// The first of the rules whose first token a word may be.
fn first_with(rules: &[VerilogRule], text: &[u8]) -> Option<VerilogRule>
    ensures { result ≡ spec.first_with rules.now text.now }
{
    for rule in rules {
        if rule.begins_with(text) {
            return Some(*rule);
        }
    }
    None
}

impl Part {
    /// The rules that may come here.
    fn rules(self) -> &'static [VerilogRule]
        ensures { result.now ≡ spec.rules self }
    {
        match self {
            Part::Start => &AT_START,
            Part::Ports => &AT_PORTS,
            Part::Direction => &AT_DIRECTION,
            Part::Regs => &AT_REGS,
            Part::Declared => &AT_DECLARED,
            Part::Arrays => &AT_ARRAYS,
            Part::LaterArray => &AT_LATER_ARRAY,
            Part::Cells => &AT_CELLS,
            Part::Term => &AT_TERM,
            Part::AfterOperand => &AT_AFTER_OPERAND,
            Part::Braced => &AT_BRACED,
            Part::Outputs => &AT_OUTPUTS,
            Part::Blocks => &AT_BLOCKS,
            Part::Block => &AT_BLOCK,
            Part::ArrayBlocks => &AT_ARRAY_BLOCKS,
            Part::FirstWrite => &AT_FIRST_WRITE,
            Part::Writes => &AT_WRITES,
            Part::Finished => &[],
        }
    }

    /// Whether nothing may come here.
    pub fn is_finished(self) -> bool
        ensures { result ≡ spec.is_finished self }
    {
        match self {
            Part::Finished => true,
            _ => false,
        }
    }

    /// The rule that comes here where the next token is this word: the first whose first token it may be.
    #[tactic(auto, unfolding(crate::specs::Grammar::chosen))]
    pub fn chosen(self, text: &[u8]) -> Option<VerilogRule>
        ensures { result ≡ spec.chosen self text.now }
    {
        first_with(self.rules(), text)
    }
}
