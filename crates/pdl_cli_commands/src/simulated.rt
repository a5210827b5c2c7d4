// What the command `sim` does.
ghost use Rattle.std.specs.Prelude.{◌≡◌, ◌≤◌, [], ◌∷◌, ◌++◌, IsTrue, IfOk, IfErr, ℕ, List, Some};
ghost use Rattle.pdl_system.specs.Answers.{Since, gave};
ghost use Rattle.pdl_system.specs.Files.{AreTold};
ghost use Rattle.pdl_vread.specs.Reads.{Reads};
ghost use Rattle.pdl_cli_args.specs.Line as command;
ghost use Rattle.pdl_cli_args.specs.View.{text_of};
ghost use Rattle.pdl_cli_commands.specs.Replies.{AllowsFile};
ghost use Rattle.pdl_cli_commands.specs.Begun.{FileFails, IsRefusedNetlist};
ghost use Rattle.pdl_cli_commands.specs.Outcomes.{seen_of, Explains};

use crate::netrun::run_netlist;
use pdl_cli_failure::Failure;
use pdl_kit::sink::Sink;
use pdl_net::Netlist;
use pdl_system::Files;
use pdl_vread::read_verilog;
use std::alloc::Global;

// Reads a netlist.
#[tactic(auto, using(crate::proofs::FileFailures::netlist_refused))]
fn netlist_of_file<F: Files>(alloc: Global, files: &mut F, name: &str) -> Result<Netlist, Failure>
    requires { IsTrue (F.may files.old name.now) }
    ensures ok { IfOk result (λ n. (b : List ℕ)
        × (F.answers files.new ≡ F.answers files.old ++ gave name.now b ∷ []) × Reads b n) }
    ensures err { IfErr result (FileFails IsRefusedNetlist (F.answers files.old)
        (F.answers files.new) (F.faults files.old) (F.faults files.new) name.now) }
    ensures held { F.holds files.new ≡ F.holds files.old }
    ensures told { AreTold (F.holds files.old) (F.answers files.old)
        → AreTold (F.holds files.new) (F.answers files.new) }
    ensures allowed { (n : List ℕ) → F.may files.new n ≡ F.may files.old n }
    ensures later { F.faults files.old ≤ F.faults files.new }
{
    let text = files.read(name)?;
    Ok(read_verilog(alloc, text.as_slice())?)
}

/// Does what `sim` asks for, with a netlist and an image of these names, a delay file, if one is named, and so many cycles: all memory is taken before the first byte is written.
pub fn simulate<F: Files, O: Sink>(
    alloc: Global,
    files: &mut F,
    netlist: &str,
    image: &str,
    cycles: u32,
    delays: Option<&str>,
    out: &mut O,
) -> Result<(), Failure>
    requires netlist { IsTrue (F.may files.old netlist.now) }
    requires image { IsTrue (F.may files.old image.now) }
    requires delays { AllowsFile (F.may files.old) (text_of delays) }
    requires few { cycles ≤ 1000000 }
    ensures explained { Since (F.answers files.old) (F.answers files.new) (λ reads. Explains
        (Some (command.sim netlist.now image.now cycles (text_of delays.entry)))
        (seen_of reads (F.faults files.old) (F.faults files.new)
        (O.written out.old) (O.written out.new) (O.faults out.old) (O.faults out.new)) result) }
    ensures held { F.holds files.new ≡ F.holds files.old }
    ensures told { AreTold (F.holds files.old) (F.answers files.old)
        → AreTold (F.holds files.new) (F.answers files.new) }
    ensures allowed { (n : List ℕ) → F.may files.new n ≡ F.may files.old n }
    ensures later { F.faults files.old ≤ F.faults files.new }
    ensures written { O.faults out.old ≤ O.faults out.new }
{
    match netlist_of_file(alloc, files, netlist) {
        Ok(read) => run_netlist(alloc, files, &read, image, cycles, delays, out),
        Err(failure) => Err(failure),
    }
}
