// A table of an instruction set.
ghost use Rattle.std.specs.Prelude.{◌≡◌, ◌≤◌, IfSome, length, true};
ghost use Rattle.std.specs.Option.{option_copied};
ghost use Rattle.pdl_asm_table.specs.Dictionaries.{value_of};
ghost use Rattle.pdl_asm_table.specs.Names.{is_pipe_name};
ghost use Rattle.pdl_asm_table.specs.Tables.{IsTable};
ghost use Rattle.pdl_word.specs.Words.{widest};

use crate::dictionary::Dictionary;
use pdl_kit::{Name, Seq};
use std::marker::Model;

/// What an argument of an instruction is.
#[derive(Clone, Copy)]
pub enum ArgumentKind {
    /// A register, by its name.
    Reg,
    /// A number or a label, from 0 on.
    Uint,
    /// A number in two's complement.
    Sint,
    /// A number or a label, less the place of the word itself, in two's complement.
    Rel,
}

/// An argument of an instruction: the letter of its field in the instruction's bits, and what it is.
#[derive(Clone, Copy)]
pub struct Arg {
    pub letter: u8,
    pub kind: ArgumentKind,
}

/// An instruction: its arguments in the order of its operands, and its bits, most significant first, as `0`, `1` and letters.
#[derive(Drop)]
pub struct Insn {
    pub args: Seq<Arg>,
    pub bits: Seq<u8>,
}

/// A table: the bits of a word, the name of the memory, the numbers of registers, and the instructions by name.
#[derive(Drop)]
pub struct Table {
    word: u8,
    mem: Name,
    regs: Dictionary<u32>,
    insns: Dictionary<Insn>,
}

impl Model for Table {
    ghost use Rattle.pdl_asm_table.specs.Tables.{TableValue, IsTable};

    ghost Value = { TableValue };

    ghost view = { λ t. record { word = t.word; mem = t.mem; regs = t.regs; insns = t.insns } };

    ghost invariant = { λ t. IsTable
        (record { word = t.word; mem = t.mem; regs = t.regs; insns = t.insns }) };
}

impl Table {
    /// The table of these parts.
    pub(crate) fn new(word: u8, mem: Name, regs: Dictionary<u32>, insns: Dictionary<Insn>) -> Table
        requires { IsTable (record { word = word; mem = mem; regs = regs; insns = insns }) }
        ensures { result ≡ record { word = word; mem = mem; regs = regs; insns = insns } }
    {
        Table {
            word,
            mem,
            regs,
            insns,
        }
    }

    /// How many bits a word has, 1 to `WIDEST`; and what every table keeps.
    pub fn word(&self) -> u8
        ensures value { result ≡ self.now.word }
        ensures low { 1 ≤ result }
        ensures high { result ≤ widest }
        ensures table { IsTable self.now }
    {
        self.word
    }

    /// The name of the memory.
    pub fn mem(&self) -> &Name
        ensures value { result.now ≡ self.now.mem }
        ensures name { is_pipe_name result.now ≡ true }
    {
        &self.mem
    }

    /// The number of a register, if the table has its name.
    pub fn reg(&self, name: &Name) -> Option<u32>
        ensures { result ≡ value_of self.now.regs name.now }
    {
        match self.regs.get(name) {
            Some(number) => Some(*number),
            None => None,
        }
    }

    /// The instruction of a name, if the table has it.
    pub fn insn(&self, name: &Name) -> Option<&Insn>
        ensures value { option_copied result ≡ value_of self.now.insns name.now }
        ensures bits { IfSome result (λ i. length i.now.bits ≡ self.now.word) }
        ensures few { IfSome result (λ i. length i.now.bits ≤ widest) }
    {
        match self.insns.get(name) {
            Some(insn) => Some(insn),
            None => None,
        }
    }
}
