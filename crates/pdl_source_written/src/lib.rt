//! What is written of the netlist of a source: its text reads as that netlist, and the dump of a run of it says that run.
//!
//! The functions do nothing: their clauses are theorems on every source.
#![tactic(auto)]

ghost use Rattle.std.specs.Prelude.{◌≤◌, ℕ, List, length};
ghost use Rattle.pdl_semantics.specs.Tree.{Pipe};
ghost use Rattle.pdl_syntax_grammar.specs.Text.{IsText};
ghost use Rattle.pdl_rules.specs.Refusal.{KeepsRules};
ghost use Rattle.pdl_image.specs.Images.{IsImage};
ghost use Rattle.pdl_net.specs.declared.Netlist.{Netlist};
ghost use Rattle.pdl_net.specs.Run.{nports};
ghost use Rattle.pdl_law_follows.specs.Follows.{Follows};
ghost use Rattle.pdl_vlog.specs.Layout.{verilog};
ghost use Rattle.pdl_vread.specs.Reads.{Reads};
ghost use Rattle.pdl_verilog.specs.Names.{HasNames, IsCounted};
ghost use Rattle.pdl_wave.specs.Wave.{IsWaveOf};
ghost use Rattle.pdl_netrun_wave.specs.Dumped.{CanBeDumped, wave_ports, rows_of, run_dump};

/// A netlist that follows the pipe of a text has the text's names, which are names of PDL; so what is written of it reads as it, where its registers and cells are fewer than 2^64 each.
pub fn sources_read_back()
    ensures names { (source : List ℕ) (p : Pipe) (n : Netlist) → IsText source p → Follows p n
        → HasNames n }
    ensures reads { (source : List ℕ) (p : Pipe) (n : Netlist) → IsText source p → Follows p n
        → IsCounted n → Reads (verilog n) n }
{}

/// A netlist that follows the pipe of a text which keeps the rules has names and ports that can be dumped, and the dump of each of its runs of up to 1,000,000 cycles, with any replies, says the netlist's name, its output ports, the number of cycles, and in each of them the value of each port.
pub fn sources_dumped()
    ensures dumpable { (source : List ℕ) (p : Pipe) (n : Netlist) → IsText source p → KeepsRules p
        → Follows p n → CanBeDumped n }
    ensures says { (source : List ℕ) (p : Pipe) (n : Netlist) (image : List (List ℕ))
        (schedule : List ℕ)
        → IsText source p → KeepsRules p → Follows p n → IsImage n.mems image
        → length schedule ≤ 1000000
        → IsWaveOf (run_dump n image schedule) n.name (wave_ports n)
        (rows_of (nports n image schedule)) }
{}
