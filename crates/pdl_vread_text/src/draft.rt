//! A file while its rules are taken one after another.
ghost use Rattle.std.specs.Prelude.{◌≡◌, ◌++◌, ◌∷◌, [], IfOk, OnOk, map};
ghost use Rattle.pdl_vread_text.specs.Cursor.{token_view};
ghost use Rattle.pdl_vread_text.specs.Drafts as spec;
ghost use Rattle.pdl_vread_text.specs.declared.file.Term.TheVariants.{Bin, Mux, Cat, Read};

use crate::file::{
    ArrayBlock, ArrayDecl, CellDecl, File, OutputDecl, PortDecl, RegBlock, RegDecl, Term, WriteDecl,
};
use crate::found::{
    constant_at, line_at, module_at, name_at, names_at, number_at, operands, operator_at, text_at,
};
use crate::rule::VerilogRule;
use crate::token::VerilogToken;
use pdl_kit::{Name, NoMemory, Seq};
use std::alloc::Global;
use std::mem;

/// What was declared so far, and of a declaration that isn't whole its line, name, highest bit, target and first operand, or its writes.
pub struct Draft {
    pub file: File,
    pub line: u32,
    pub high: u32,
    pub name: Name,
    pub target: Name,
    pub operand: Name,
    pub writes: Seq<WriteDecl>,
}

// As the derive would, but by a call of its owners: docs/DECISIONS.md says why.
impl Drop for Draft {
    fn drop(self) {
        let Draft {
            file: _,
            line: _,
            high: _,
            name: _,
            target: _,
            operand: _,
            writes: _,
        } = self;
    }
}

fn read_term(alloc: Global, found: &[VerilogToken<'_>]) -> Result<Term, NoMemory>
    ensures { IfOk result (λ t. t ≡ Read (spec.text_at (map token_view found.now) 0)
        (spec.text_at (map token_view found.now) 2)) }
{
    let (array, addr) = names_at(alloc, found, 0, 2)?;
    Ok(Term::Read { array, addr })
}

fn cat_term(alloc: Global, found: &[VerilogToken<'_>]) -> Result<Term, NoMemory>
    ensures { IfOk result (λ t. t ≡ Cat (spec.text_at (map token_view found.now) 0)
        (spec.text_at (map token_view found.now) 2)) }
{
    let (a, b) = names_at(alloc, found, 0, 2)?;
    Ok(Term::Cat(a, b))
}

fn bin_term(alloc: Global, first: &Name, found: &[VerilogToken<'_>]) -> Result<Term, NoMemory>
    ensures { IfOk result (λ t. t ≡ Bin (spec.operator_at (map token_view found.now) 0) first.now
        (spec.text_at (map token_view found.now) 1)) }
{
    let (a, b) = operands(alloc, first, found, 1)?;
    Ok(Term::Bin(operator_at(found, 0), a, b))
}

fn mux_term(alloc: Global, first: &Name, found: &[VerilogToken<'_>]) -> Result<Term, NoMemory>
    ensures { IfOk result (λ t. t ≡ Mux first.now (spec.text_at (map token_view found.now) 1)
        (spec.text_at (map token_view found.now) 3)) }
{
    let (chosen, a) = operands(alloc, first, found, 1)?;
    Ok(Term::Mux(chosen, a, name_at(alloc, found, 3)?))
}

fn write_decl(alloc: Global, found: &[VerilogToken<'_>]) -> Result<WriteDecl, NoMemory>
    ensures { IfOk result (λ w. w ≡ record {
      line = spec.line_at (map token_view found.now) 0;
      enable = spec.text_at (map token_view found.now) 2;
      array = spec.text_at (map token_view found.now) 4;
      addr = spec.text_at (map token_view found.now) 6;
      value = spec.text_at (map token_view found.now) 9;
    }) }
{
    let (enable, array) = names_at(alloc, found, 2, 4)?;
    let (addr, value) = names_at(alloc, found, 6, 9)?;
    Ok(WriteDecl {
        line: line_at(found, 0),
        enable,
        array,
        addr,
        value,
    })
}

fn add_port(
    alloc: Global,
    ports: &mut Seq<PortDecl>,
    found: &[VerilogToken<'_>],
    input: bool,
) -> Result<(), NoMemory>
    ensures { OnOk result (ports.new ≡ ports.old ++ record {
      line = spec.line_at (map token_view found.now) 0;
      name = spec.text_at (map token_view found.now) 7;
      high = spec.number_at (map token_view found.now) 3;
      input = input;
    } ∷ []) }
{
    ports.push(PortDecl {
        line: line_at(found, 0),
        name: name_at(alloc, found, 7)?,
        high: number_at(found, 3),
        input,
    })
}

fn add_reg(
    alloc: Global,
    regs: &mut Seq<RegDecl>,
    line: u32,
    high: u32,
    found: &[VerilogToken<'_>],
) -> Result<(), NoMemory>
    ensures { OnOk result (regs.new ≡ regs.old ++ record {
      line = line;
      name = spec.text_at (map token_view found.now) 0;
      high = high;
    } ∷ []) }
{
    regs.push(RegDecl {
        line,
        name: name_at(alloc, found, 0)?,
        high,
    })
}

fn add_array(
    alloc: Global,
    arrays: &mut Seq<ArrayDecl>,
    line: u32,
    high: u32,
    found: &[VerilogToken<'_>],
) -> Result<(), NoMemory>
    ensures { OnOk result (arrays.new ≡ arrays.old ++ record {
      line = line;
      name = spec.text_at (map token_view found.now) 0;
      high = high;
      last = spec.number_at (map token_view found.now) 4;
    } ∷ []) }
{
    arrays.push(ArrayDecl {
        line,
        name: name_at(alloc, found, 0)?,
        high,
        last: number_at(found, 4),
    })
}

fn add_output(
    alloc: Global,
    outputs: &mut Seq<OutputDecl>,
    found: &[VerilogToken<'_>],
) -> Result<(), NoMemory>
    ensures { OnOk result (outputs.new ≡ outputs.old ++ record {
      line = spec.line_at (map token_view found.now) 0;
      port = spec.text_at (map token_view found.now) 1;
      source = spec.text_at (map token_view found.now) 3;
    } ∷ []) }
{
    let (port, source) = names_at(alloc, found, 1, 3)?;
    outputs.push(OutputDecl {
        line: line_at(found, 0),
        port,
        source,
    })
}

fn add_reg_block(
    alloc: Global,
    blocks: &mut Seq<RegBlock>,
    line: u32,
    found: &[VerilogToken<'_>],
) -> Result<(), NoMemory>
    ensures { OnOk result (blocks.new ≡ blocks.old ++ record {
      line = line;
      reg = spec.text_at (map token_view found.now) 0;
      width = (spec.constant_at (map token_view found.now) 4).width;
      reset = (spec.constant_at (map token_view found.now) 4).value;
      source = spec.text_at (map token_view found.now) 6;
    } ∷ []) }
{
    let constant = constant_at(found, 4);
    let (reg, source) = names_at(alloc, found, 0, 6)?;
    blocks.push(RegBlock {
        line,
        reg,
        width: constant.width,
        reset: constant.value,
        source,
    })
}

fn add_write(
    alloc: Global,
    writes: &mut Seq<WriteDecl>,
    found: &[VerilogToken<'_>],
) -> Result<(), NoMemory>
    ensures { OnOk result (writes.new ≡ writes.old ++ record {
      line = spec.line_at (map token_view found.now) 0;
      enable = spec.text_at (map token_view found.now) 2;
      array = spec.text_at (map token_view found.now) 4;
      addr = spec.text_at (map token_view found.now) 6;
      value = spec.text_at (map token_view found.now) 9;
    } ∷ []) }
{
    writes.push(write_decl(alloc, found)?)
}

// The term that a rule ends, where its first operand may stand before.
fn term(
    alloc: Global,
    operand: &Name,
    rule: VerilogRule,
    found: &[VerilogToken<'_>],
) -> Result<Term, NoMemory>
    ensures { IfOk result (λ t. t ≡ spec.term operand.now rule
        (map token_view found.now)) }
{
    match rule {
        VerilogRule::NotTerm => Ok(Term::Not(name_at(alloc, found, 1)?)),
        VerilogRule::ReadTerm => read_term(alloc, found),
        VerilogRule::CatTerm => cat_term(alloc, found),
        VerilogRule::RepTerm => Ok(Term::Rep {
            count: number_at(found, 0),
            a: name_at(alloc, found, 2)?,
        }),
        VerilogRule::BinTerm => bin_term(alloc, operand, found),
        VerilogRule::MuxTerm => mux_term(alloc, operand, found),
        VerilogRule::SliceTerm => Ok(Term::Slice {
            a: operand.clone()?,
            high: number_at(found, 1),
            low: number_at(found, 3),
        }),
        _ => {
            let constant = constant_at(found, 0);
            Ok(Term::Const {
                width: constant.width,
                value: constant.value,
            })
        }
    }
}

impl File {
    // Nothing is declared.
    fn new(alloc: Global) -> File
        ensures { result ≡ spec.no_file }
    {
        File {
            line: 0,
            name: Name::from_vec(Vec::new(alloc)),
            reset_line: 0,
            reset_high: 0,
            ports: Seq::new(alloc),
            regs: Seq::new(alloc),
            arrays: Seq::new(alloc),
            cells: Seq::new(alloc),
            outputs: Seq::new(alloc),
            reg_blocks: Seq::new(alloc),
            array_blocks: Seq::new(alloc),
        }
    }
}

impl Draft {
    /// Nothing is taken yet.
    pub fn new(alloc: Global) -> Draft
        ensures { result ≡ spec.no_draft }
    {
        Draft {
            file: File::new(alloc),
            line: 0,
            high: 0,
            name: Name::from_vec(Vec::new(alloc)),
            target: Name::from_vec(Vec::new(alloc)),
            operand: Name::from_vec(Vec::new(alloc)),
            writes: Seq::new(alloc),
        }
    }

    /// What was declared.
    pub fn into_file(self) -> File
        ensures { result ≡ self.file }
    {
        let Draft {
            file,
            line: _,
            high: _,
            name: _,
            target: _,
            operand: _,
            writes: _,
        } = self;
        file
    }

    /// Takes the tokens of a rule.
    pub fn take(
        &mut self,
        alloc: Global,
        rule: VerilogRule,
        found: &[VerilogToken<'_>],
    ) -> Result<(), NoMemory>
        ensures { OnOk result (self.new ≡ spec.taken self.old rule (map token_view found.now)) }
    {
        match rule {
            VerilogRule::Opening => self.open(alloc, found),
            VerilogRule::InputPort => add_port(alloc, &mut self.file.ports, found, true),
            VerilogRule::OutputPort => add_port(alloc, &mut self.file.ports, found, false),
            VerilogRule::RegRange | VerilogRule::ArrayRange => self.range(found),
            VerilogRule::RegDeclared => self.reg(alloc, found),
            VerilogRule::ArrayDeclared => self.array(alloc, found),
            VerilogRule::CellHead => self.cell_head(alloc, found),
            VerilogRule::FirstOperand => self.first_operand(alloc, found),
            VerilogRule::ConstTerm
            | VerilogRule::NotTerm
            | VerilogRule::ReadTerm
            | VerilogRule::BinTerm
            | VerilogRule::MuxTerm
            | VerilogRule::SliceTerm
            | VerilogRule::CatTerm
            | VerilogRule::RepTerm => self.cell(alloc, rule, found),
            VerilogRule::OutputDriven => add_output(alloc, &mut self.file.outputs, found),
            VerilogRule::BlockHead | VerilogRule::ArrayHead => self.block_head(found),
            VerilogRule::RegDriven => self.reg_block(alloc, found),
            VerilogRule::Written => add_write(alloc, &mut self.writes, found),
            VerilogRule::ArrayEnd => self.array_block(alloc),
            VerilogRule::NextPort
            | VerilogRule::Closing
            | VerilogRule::OpenTerm
            | VerilogRule::ArrayBegin
            | VerilogRule::Ending => Ok(()),
        }
    }

    // The module and the reset.
    fn open(&mut self, alloc: Global, found: &[VerilogToken<'_>]) -> Result<(), NoMemory>
        ensures { OnOk result (self.new ≡ spec.opened self.old (map token_view found.now)) }
    {
        self.file.name = module_at(alloc, found, 1)?;
        self.file.line = line_at(found, 0);
        self.file.reset_line = line_at(found, 7);
        self.file.reset_high = number_at(found, 10);
        Ok(())
    }

    fn range(&mut self, found: &[VerilogToken<'_>]) -> Result<(), NoMemory>
        ensures { OnOk result (self.new ≡ spec.with_range self.old (map token_view found.now)) }
    {
        self.line = line_at(found, 0);
        self.high = number_at(found, 2);
        Ok(())
    }

    fn reg(&mut self, alloc: Global, found: &[VerilogToken<'_>]) -> Result<(), NoMemory>
        ensures { OnOk result (self.new ≡ spec.with_reg self.old (map token_view found.now)) }
    {
        add_reg(alloc, &mut self.file.regs, self.line, self.high, found)
    }

    fn array(&mut self, alloc: Global, found: &[VerilogToken<'_>]) -> Result<(), NoMemory>
        ensures { OnOk result (self.new ≡ spec.with_array self.old (map token_view found.now)) }
    {
        add_array(alloc, &mut self.file.arrays, self.line, self.high, found)
    }

    fn reg_block(&mut self, alloc: Global, found: &[VerilogToken<'_>]) -> Result<(), NoMemory>
        ensures { OnOk result (self.new ≡ spec.with_reg_block self.old (map token_view found.now)) }
    {
        add_reg_block(alloc, &mut self.file.reg_blocks, self.line, found)
    }

    fn cell_head(&mut self, alloc: Global, found: &[VerilogToken<'_>]) -> Result<(), NoMemory>
        ensures { OnOk result (self.new ≡ spec.with_head self.old (map token_view found.now)) }
    {
        let (name, target) = names_at(alloc, found, 6, 9)?;
        self.name = name;
        self.target = target;
        self.line = line_at(found, 8);
        self.high = number_at(found, 2);
        Ok(())
    }

    fn first_operand(&mut self, alloc: Global, found: &[VerilogToken<'_>]) -> Result<(), NoMemory>
        ensures { OnOk result (self.new ≡ spec.with_operand self.old (map token_view found.now)) }
    {
        self.operand = name_at(alloc, found, 0)?;
        Ok(())
    }

    // The cell that a rule ends.
    fn cell_decl(
        &self,
        alloc: Global,
        rule: VerilogRule,
        found: &[VerilogToken<'_>],
    ) -> Result<CellDecl, NoMemory>
        ensures { IfOk result (λ c. c ≡ record {
          line = self.now.line;
          name = self.now.name;
          high = self.now.high;
          target = self.now.target;
          term = spec.term self.now.operand rule (map token_view found.now);
        }) }
    {
        let name = self.name.clone()?;
        let target = self.target.clone()?;
        Ok(CellDecl {
            line: self.line,
            name,
            high: self.high,
            target,
            term: term(alloc, &self.operand, rule, found)?,
        })
    }

    fn cell(
        &mut self,
        alloc: Global,
        rule: VerilogRule,
        found: &[VerilogToken<'_>],
    ) -> Result<(), NoMemory>
        ensures { OnOk result (self.new ≡ spec.with_cell self.old rule (map token_view found.now)) }
    {
        let decl = self.cell_decl(alloc, rule, found)?;
        self.file.cells.push(decl)
    }

    fn block_head(&mut self, found: &[VerilogToken<'_>]) -> Result<(), NoMemory>
        ensures { OnOk result (self.new ≡ spec.with_block self.old (map token_view found.now)) }
    {
        self.line = line_at(found, 0);
        Ok(())
    }

    // Ends a block that writes to an array.
    fn array_block(&mut self, alloc: Global) -> Result<(), NoMemory>
        ensures { OnOk result (self.new ≡ spec.with_array_block self.old) }
    {
        let writes = mem::replace(&mut self.writes, Seq::new(alloc));
        self.file.array_blocks.push(ArrayBlock {
            line: self.line,
            writes,
        })
    }
}
