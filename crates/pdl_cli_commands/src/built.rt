// The text that the command `build` writes.
ghost use Rattle.std.specs.Prelude.{◌≡◌, ◌≤◌, IsTrue, IfOk, IfErr, ℕ, List};
ghost use Rattle.pdl_system.specs.Answers.{Since};
ghost use Rattle.pdl_system.specs.Files.{AreTold};
ghost use Rattle.pdl_syntax_tree.specs.View.{pipe_view};
ghost use Rattle.pdl_cli_args.specs.Line as command;
ghost use Rattle.pdl_cli_commands.specs.Commands.{IsAccepted, IsBuilt};
ghost use Rattle.pdl_cli_commands.specs.Outcomes.{IsMade, Fails};

use crate::run::accept;
use pdl_check::Accepted;
use pdl_cli_failure::{Failure, in_memory};
use pdl_kit::NoMemory;
use pdl_pipe::compile;
use pdl_system::Files;
use pdl_verilog::verilog_text;
use std::alloc::Global;
use std::mem::drop;

// The text of the netlist of an accepted pipe: what is built of whatever source is its text.
fn text_of(alloc: Global, accepted: &Accepted) -> Result<Vec<u8>, NoMemory>
    requires { (b : List ℕ) × IsAccepted b (pipe_view accepted.now.typed.pipe) }
    ensures { IfOk result (λ t. (source : List ℕ)
        → IsAccepted source (pipe_view accepted.now.typed.pipe) → IsBuilt source t.items) }
{
    let netlist = compile(alloc, accepted)?;
    let text = verilog_text(alloc, &netlist);
    drop(netlist);
    text
}

/// The text that `build` writes for a source with this name.
pub fn build<F: Files>(alloc: Global, files: &mut F, source: &str) -> Result<Vec<u8>, Failure>
    requires { IsTrue (F.may files.old source.now) }
    ensures ok { IfOk result (λ t. Since (F.answers files.old) (F.answers files.new)
        (λ reads. IsMade (command.build source.now) reads t.items)) }
    ensures err { IfErr result (λ f. Since (F.answers files.old) (F.answers files.new)
        (λ reads. Fails (command.build source.now) reads (F.faults files.old)
        (F.faults files.new) f)) }
    ensures held { F.holds files.new ≡ F.holds files.old }
    ensures told { AreTold (F.holds files.old) (F.answers files.old)
        → AreTold (F.holds files.new) (F.answers files.new) }
    ensures allowed { (n : List ℕ) → F.may files.new n ≡ F.may files.old n }
    ensures later { F.faults files.old ≤ F.faults files.new }
{
    let accepted = accept(alloc, files, source)?;
    let text = in_memory(text_of(alloc, &accepted));
    drop(accepted);
    text
}
