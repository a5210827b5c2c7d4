//! The rules of the grammar: what each is made of, and the part after it.
ghost use Rattle.std.specs.Prelude.{◌≡◌};
ghost use Rattle.pdl_vread_text.specs.Grammar as spec;

use crate::field::Field;
use crate::part::Part;

/// A rule: a row of tokens that may come at some part, and the part after it.
#[derive(Clone, Copy)]
pub enum VerilogRule {
    /// `module module_name ( input wire clk , input wire [ num : 0 ] rst`
    Opening,
    /// `,`
    NextPort,
    /// `input wire [ num : 0 ] port`
    InputPort,
    /// `output wire [ num : 0 ] port`
    OutputPort,
    /// `) ;`
    Closing,
    /// `reg [ num : 0 ]`
    RegRange,
    /// `r_id ;`
    RegDeclared,
    /// `a_id [ 0 : num ] ;`
    ArrayDeclared,
    /// `reg [ num : 0 ]`
    ArrayRange,
    /// `wire [ num : 0 ] n_id ; assign n_id =`
    CellHead,
    /// `const ;`
    ConstTerm,
    /// `~ id ;`
    NotTerm,
    /// `a_id [ id ] ;`
    ReadTerm,
    /// `id`
    FirstOperand,
    /// `op id ;`
    BinTerm,
    /// `? id : id ;`
    MuxTerm,
    /// `[ num : num ] ;`
    SliceTerm,
    /// `{`
    OpenTerm,
    /// `id , id } ;`
    CatTerm,
    /// `num { id } } ;`
    RepTerm,
    /// `assign port = id ;`
    OutputDriven,
    /// `always @ ( posedge clk )`
    BlockHead,
    /// `r_id <= rst ? const : id ;`
    RegDriven,
    /// `begin`
    ArrayBegin,
    /// `always @ ( posedge clk ) begin`
    ArrayHead,
    /// `if ( id ) a_id [ id ] <= id ;`
    Written,
    /// `end`
    ArrayEnd,
    /// `endmodule`
    Ending,
}

static OPENING: [Field; 15] = [
    Field::Module,
    Field::ModuleName,
    Field::OpenRound,
    Field::Input,
    Field::Wire,
    Field::Clock,
    Field::Comma,
    Field::Input,
    Field::Wire,
    Field::OpenSquare,
    Field::Number,
    Field::Colon,
    Field::Zero,
    Field::CloseSquare,
    Field::Reset,
];

static NEXT_PORT: [Field; 1] = [Field::Comma];

static INPUT_PORT: [Field; 8] = [
    Field::Input,
    Field::Wire,
    Field::OpenSquare,
    Field::Number,
    Field::Colon,
    Field::Zero,
    Field::CloseSquare,
    Field::PortName,
];

static OUTPUT_PORT: [Field; 8] = [
    Field::Output,
    Field::Wire,
    Field::OpenSquare,
    Field::Number,
    Field::Colon,
    Field::Zero,
    Field::CloseSquare,
    Field::PortName,
];

static CLOSING: [Field; 2] = [Field::CloseRound, Field::Semicolon];

static REG_RANGE: [Field; 6] = [
    Field::Reg,
    Field::OpenSquare,
    Field::Number,
    Field::Colon,
    Field::Zero,
    Field::CloseSquare,
];

static REG_DECLARED: [Field; 2] = [Field::RegName, Field::Semicolon];

static ARRAY_DECLARED: [Field; 7] = [
    Field::ArrayName,
    Field::OpenSquare,
    Field::Zero,
    Field::Colon,
    Field::Number,
    Field::CloseSquare,
    Field::Semicolon,
];

static ARRAY_RANGE: [Field; 6] = [
    Field::Reg,
    Field::OpenSquare,
    Field::Number,
    Field::Colon,
    Field::Zero,
    Field::CloseSquare,
];

static CELL_HEAD: [Field; 11] = [
    Field::Wire,
    Field::OpenSquare,
    Field::Number,
    Field::Colon,
    Field::Zero,
    Field::CloseSquare,
    Field::CellName,
    Field::Semicolon,
    Field::Assign,
    Field::CellName,
    Field::Equals,
];

static CONST_TERM: [Field; 2] = [Field::Constant, Field::Semicolon];

static NOT_TERM: [Field; 3] = [Field::Tilde, Field::Operand, Field::Semicolon];

static READ_TERM: [Field; 5] = [
    Field::ArrayName,
    Field::OpenSquare,
    Field::Operand,
    Field::CloseSquare,
    Field::Semicolon,
];

static FIRST_OPERAND: [Field; 1] = [Field::Operand];

static BIN_TERM: [Field; 3] = [Field::Operator, Field::Operand, Field::Semicolon];

static MUX_TERM: [Field; 5] = [
    Field::Question,
    Field::Operand,
    Field::Colon,
    Field::Operand,
    Field::Semicolon,
];

static SLICE_TERM: [Field; 6] = [
    Field::OpenSquare,
    Field::Number,
    Field::Colon,
    Field::Number,
    Field::CloseSquare,
    Field::Semicolon,
];

static OPEN_TERM: [Field; 1] = [Field::OpenBrace];

static CAT_TERM: [Field; 5] = [
    Field::Operand,
    Field::Comma,
    Field::Operand,
    Field::CloseBrace,
    Field::Semicolon,
];

static REP_TERM: [Field; 6] = [
    Field::Number,
    Field::OpenBrace,
    Field::Operand,
    Field::CloseBrace,
    Field::CloseBrace,
    Field::Semicolon,
];

static OUTPUT_DRIVEN: [Field; 5] = [
    Field::Assign,
    Field::PortName,
    Field::Equals,
    Field::Operand,
    Field::Semicolon,
];

static BLOCK_HEAD: [Field; 6] = [
    Field::Always,
    Field::At,
    Field::OpenRound,
    Field::Posedge,
    Field::Clock,
    Field::CloseRound,
];

static REG_DRIVEN: [Field; 8] = [
    Field::RegName,
    Field::Takes,
    Field::Reset,
    Field::Question,
    Field::Constant,
    Field::Colon,
    Field::Operand,
    Field::Semicolon,
];

static ARRAY_BEGIN: [Field; 1] = [Field::Begin];

static ARRAY_HEAD: [Field; 7] = [
    Field::Always,
    Field::At,
    Field::OpenRound,
    Field::Posedge,
    Field::Clock,
    Field::CloseRound,
    Field::Begin,
];

static WRITTEN: [Field; 11] = [
    Field::If,
    Field::OpenRound,
    Field::Operand,
    Field::CloseRound,
    Field::ArrayName,
    Field::OpenSquare,
    Field::Operand,
    Field::CloseSquare,
    Field::Takes,
    Field::Operand,
    Field::Semicolon,
];

static ARRAY_END: [Field; 1] = [Field::End];

static ENDING: [Field; 1] = [Field::EndModule];

impl VerilogRule {
    /// What its tokens have to be.
    pub fn fields(self) -> &'static [Field]
        ensures { result.now ≡ spec.fields self }
    {
        match self {
            VerilogRule::Opening => &OPENING,
            VerilogRule::NextPort => &NEXT_PORT,
            VerilogRule::InputPort => &INPUT_PORT,
            VerilogRule::OutputPort => &OUTPUT_PORT,
            VerilogRule::Closing => &CLOSING,
            VerilogRule::RegRange => &REG_RANGE,
            VerilogRule::RegDeclared => &REG_DECLARED,
            VerilogRule::ArrayDeclared => &ARRAY_DECLARED,
            VerilogRule::ArrayRange => &ARRAY_RANGE,
            VerilogRule::CellHead => &CELL_HEAD,
            VerilogRule::ConstTerm => &CONST_TERM,
            VerilogRule::NotTerm => &NOT_TERM,
            VerilogRule::ReadTerm => &READ_TERM,
            VerilogRule::FirstOperand => &FIRST_OPERAND,
            VerilogRule::BinTerm => &BIN_TERM,
            VerilogRule::MuxTerm => &MUX_TERM,
            VerilogRule::SliceTerm => &SLICE_TERM,
            VerilogRule::OpenTerm => &OPEN_TERM,
            VerilogRule::CatTerm => &CAT_TERM,
            VerilogRule::RepTerm => &REP_TERM,
            VerilogRule::OutputDriven => &OUTPUT_DRIVEN,
            VerilogRule::BlockHead => &BLOCK_HEAD,
            VerilogRule::RegDriven => &REG_DRIVEN,
            VerilogRule::ArrayBegin => &ARRAY_BEGIN,
            VerilogRule::ArrayHead => &ARRAY_HEAD,
            VerilogRule::Written => &WRITTEN,
            VerilogRule::ArrayEnd => &ARRAY_END,
            VerilogRule::Ending => &ENDING,
        }
    }

    /// Whether a word may be its first token.
    pub(crate) fn begins_with(self, text: &[u8]) -> bool
        ensures { result ≡ spec.begins_with self text.now }
    {
        match self.fields().first() {
            Some(field) => field.fits(text),
            None => false,
        }
    }

    /// The part after it.
    pub fn next(self) -> Part
        ensures { result ≡ spec.next self }
    {
        match self {
            VerilogRule::Opening | VerilogRule::InputPort | VerilogRule::OutputPort => Part::Ports,
            VerilogRule::NextPort => Part::Direction,
            VerilogRule::Closing | VerilogRule::RegDeclared => Part::Regs,
            VerilogRule::RegRange => Part::Declared,
            VerilogRule::ArrayDeclared => Part::Arrays,
            VerilogRule::ArrayRange => Part::LaterArray,
            VerilogRule::CellHead => Part::Term,
            VerilogRule::ConstTerm
            | VerilogRule::NotTerm
            | VerilogRule::ReadTerm
            | VerilogRule::BinTerm
            | VerilogRule::MuxTerm
            | VerilogRule::SliceTerm
            | VerilogRule::CatTerm
            | VerilogRule::RepTerm => Part::Cells,
            VerilogRule::FirstOperand => Part::AfterOperand,
            VerilogRule::OpenTerm => Part::Braced,
            VerilogRule::OutputDriven => Part::Outputs,
            VerilogRule::BlockHead => Part::Block,
            VerilogRule::RegDriven => Part::Blocks,
            VerilogRule::ArrayBegin | VerilogRule::ArrayHead => Part::FirstWrite,
            VerilogRule::Written => Part::Writes,
            VerilogRule::ArrayEnd => Part::ArrayBlocks,
            VerilogRule::Ending => Part::Finished,
        }
    }
}
