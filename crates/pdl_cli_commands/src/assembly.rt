// The text that the command `asm` writes.
ghost use Rattle.std.specs.Prelude.{◌≡◌, ◌≤◌, [], ◌∷◌, ◌++◌, IsTrue, IfOk, IfErr, ℕ, List};
ghost use Rattle.pdl_system.specs.Answers.{Since, gave};
ghost use Rattle.pdl_system.specs.Files.{AreTold};
ghost use Rattle.pdl_asm_table.specs.Documents as documents;
ghost use Rattle.pdl_asm.specs.Assembly as assembly;
ghost use Rattle.pdl_cli_args.specs.Line as command;
ghost use Rattle.pdl_cli_commands.specs.Begun.{FileFails, IsRefusedTable, IsRefusedProgram};
ghost use Rattle.pdl_cli_commands.specs.Outcomes.{IsMade, Fails};

use pdl_asm::assemble;
use pdl_asm_table::{Table, read_table};
use pdl_cli_failure::Failure;
use pdl_system::Files;
use std::alloc::Global;

// Reads the table of an instruction set.
#[tactic(auto, using(crate::proofs::FileFailures::table_refused))]
fn table_of_file<F: Files>(alloc: Global, files: &mut F, name: &str) -> Result<Table, Failure>
    requires { IsTrue (F.may files.old name.now) }
    ensures ok { IfOk result (λ t. (b : List ℕ)
        × (F.answers files.new ≡ F.answers files.old ++ gave name.now b ∷ [])
        × (documents.table b ≡ Ok t)) }
    ensures err { IfErr result (FileFails IsRefusedTable (F.answers files.old)
        (F.answers files.new) (F.faults files.old) (F.faults files.new) name.now) }
    ensures held { F.holds files.new ≡ F.holds files.old }
    ensures told { AreTold (F.holds files.old) (F.answers files.old)
        → AreTold (F.holds files.new) (F.answers files.new) }
    ensures allowed { (n : List ℕ) → F.may files.new n ≡ F.may files.old n }
    ensures later { F.faults files.old ≤ F.faults files.new }
{
    let text = files.read(name)?;
    Ok(read_table(alloc, text.as_slice())?)
}

// The image of the program with this name, by a table.
#[tactic(auto, using(crate::proofs::FileFailures::program_refused))]
fn assemble_file<F: Files>(
    alloc: Global,
    files: &mut F,
    table: &Table,
    program: &str,
) -> Result<Vec<u8>, Failure>
    requires { IsTrue (F.may files.old program.now) }
    ensures ok { IfOk result (λ t. (b : List ℕ)
        × (F.answers files.new ≡ F.answers files.old ++ gave program.now b ∷ [])
        × (assembly.image table.now b ≡ Ok t.items)) }
    ensures err { IfErr result (FileFails (IsRefusedProgram table.now) (F.answers files.old)
        (F.answers files.new) (F.faults files.old) (F.faults files.new) program.now) }
    ensures held { F.holds files.new ≡ F.holds files.old }
    ensures told { AreTold (F.holds files.old) (F.answers files.old)
        → AreTold (F.holds files.new) (F.answers files.new) }
    ensures allowed { (n : List ℕ) → F.may files.new n ≡ F.may files.old n }
    ensures later { F.faults files.old ≤ F.faults files.new }
{
    let text = files.read(program)?;
    Ok(assemble(alloc, table, text.as_slice())?)
}

/// The text that `asm` writes for the table of an instruction set and a program with these names.
pub fn assembly_text<F: Files>(
    alloc: Global,
    files: &mut F,
    table: &str,
    program: &str,
) -> Result<Vec<u8>, Failure>
    requires table { IsTrue (F.may files.old table.now) }
    requires program { IsTrue (F.may files.old program.now) }
    ensures ok { IfOk result (λ t. Since (F.answers files.old) (F.answers files.new)
        (λ reads. IsMade (command.asm table.now program.now) reads t.items)) }
    ensures err { IfErr result (λ f. Since (F.answers files.old) (F.answers files.new)
        (λ reads. Fails (command.asm table.now program.now) reads (F.faults files.old)
        (F.faults files.new) f)) }
    ensures held { F.holds files.new ≡ F.holds files.old }
    ensures told { AreTold (F.holds files.old) (F.answers files.old)
        → AreTold (F.holds files.new) (F.answers files.new) }
    ensures allowed { (n : List ℕ) → F.may files.new n ≡ F.may files.old n }
    ensures later { F.faults files.old ≤ F.faults files.new }
{
    let table = table_of_file(alloc, files, table)?;
    assemble_file(alloc, files, &table, program)
}
