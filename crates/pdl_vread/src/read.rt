//! The reader of netlists.
ghost use Rattle.std.specs.Prelude.{◌≡◌, ◌≢◌, ◌≤◌, ℕ, List, Ok, length, All, AllPairs, IfOk, MatchResult};
ghost use Rattle.pdl_kit.specs.declared.mem_info.MemInfo.{MemInfo as MemInfo'};
ghost use Rattle.pdl_kit.specs.declared.rule.Rule.{Rule as Rule'};
ghost use Rattle.pdl_kit.specs.declared.rule.Rule.TheVariants.{V5};
ghost use Rattle.pdl_net.specs.declared.Netlist.{Netlist as Netlist'};
ghost use Rattle.pdl_net.specs.Pipe.{IsPipe, IsWellFormed};
ghost use Rattle.pdl_vread_nets.specs.Wired.{wiring as names_of};
ghost use Rattle.pdl_vread_pipe.specs.ToldParts.{with_mems};
ghost use Rattle.pdl_vread_text.specs.Text.{IsFile};
ghost use Rattle.pdl_vread.specs.Reads.{Breaks, FileBreaks, GivesNetlist, GivesRefusal, IsWired, IsNetlistOf, Judges, Reads, Refuses};
ghost use Rattle.pdl_vread.specs.Reads as spec;
ghost use Rattle.pdl_word.specs.Words.{widest};

use crate::build::build;
use pdl_kit::{NoMemory, Rule};
use pdl_net::Netlist;
use pdl_vread_nets::{PassStop, Wiring, wire};
use pdl_vread_pipe::pipe_mems;
use pdl_vread_rules::{check_once, check_widths};
use pdl_vread_text::{File, VerilogError, read_file};
use std::alloc::Global;

/// Why a text was not taken: the lowest rule that it breaks, with the lowest line where it breaks it (counted from 1), or want of memory.
#[derive(Clone, Copy)]
pub enum VError {
    Refused { rule: Rule, line: u32 },
    NoMemory,
}

impl From<NoMemory> for VError {
    ghost from_gives = { λ _ e. e ≡ spec.no_memory };

    fn from(_e: NoMemory) -> VError {
        VError::NoMemory
    }
}

// The refusal by a rule.
fn refusal(rule: Rule, stop: PassStop) -> VError
    ensures { result ≡ spec.refusal rule stop }
{
    match stop {
        PassStop::Broken { line } => VError::Refused { rule, line },
        PassStop::NoMemory => VError::NoMemory,
    }
}

// The file that a text declares, or V1.
fn file_of(alloc: Global, text: &[u8]) -> Result<File, VError>
    requires { length text.now ≤ 268435456 }
    ensures { MatchResult result (IsFile text.now) (Refuses (Breaks text.now)) }
{
    match read_file(alloc, text) {
        Ok(file) => Ok(file),
        Err(VerilogError::Misplaced { line }) => Err(VError::Refused {
            rule: Rule::V1,
            line,
        }),
        Err(VerilogError::NoMemory) => Err(VError::NoMemory),
    }
}

// Asks V3 and V4 of a file and its wiring, or tells the first that it breaks.
fn check_wiring(alloc: Global, file: &File, wiring: &Wiring) -> Result<(), VError>
    requires { names_of file.now ≡ Ok wiring.now }
    ensures { MatchResult result
        (λ _. IsWired file.now wiring.now) (Refuses (FileBreaks file.now)) }
{
    if let Err(stop) = check_widths(alloc, file, wiring) {
        return Err(refusal(Rule::V3, stop));
    }
    if let Err(stop) = check_once(alloc, file, wiring) {
        return Err(refusal(Rule::V4, stop));
    }
    Ok(())
}

// The wiring of a file that keeps V2 to V4, or the first that it breaks.
fn wiring_of(alloc: Global, file: &File) -> Result<Wiring, VError>
    ensures { MatchResult result (IsWired file.now) (Refuses (FileBreaks file.now)) }
{
    match wire(alloc, file) {
        Ok(wiring) => match check_wiring(alloc, file, &wiring) {
            Ok(()) => Ok(wiring),
            Err(error) => Err(error),
        },
        Err(stop) => Err(refusal(Rule::V2, stop)),
    }
}

// Adds the memories that the ports and arrays of a netlist tell, or answers V5 of this line where they tell none.
fn add_mems(alloc: Global, netlist: &mut Netlist, line: u32) -> Result<(), VError>
    ensures { MatchResult result
        (λ _. (netlist.new ≡ with_mems netlist.old netlist.new.mems) × IsPipe netlist.new)
        (Refuses (λ rule at. (rule ≡ V5) × (at ≡ line)
        × ((ms : List MemInfo') → IsPipe (with_mems netlist.old ms) → ⊥))) }
{
    match pipe_mems(alloc, netlist)? {
        Some(mems) => {
            netlist.mems = mems;
            Ok(())
        }
        None => Err(VError::Refused {
            rule: Rule::V5,
            line,
        }),
    }
}

// The netlist of a file of few arrays and its wiring, with the memories that its ports and arrays tell, or V5.
#[tactic(auto, using(crate::proofs::Steps::last_rule))]
fn with_memories(alloc: Global, file: File, wiring: Wiring) -> Result<Netlist, VError>
    requires { IsWired file wiring }
    ensures { MatchResult result (IsNetlistOf file) (Refuses (FileBreaks file)) }
{
    let line = file.line;
    let mut netlist = build(alloc, file, wiring)?;
    match add_mems(alloc, &mut netlist, line) {
        Ok(()) => Ok(netlist),
        Err(error) => Err(error),
    }
}

// The netlist of a file and its wiring, with the memories that its ports and arrays tell, or V5.
#[tactic(auto, using(crate::proofs::Steps::breaks_many))]
fn netlist_of(alloc: Global, file: File, wiring: Wiring) -> Result<Netlist, VError>
    requires { IsWired file wiring }
    ensures { MatchResult result (IsNetlistOf file) (Refuses (FileBreaks file)) }
{
    // No pipe has so many arrays, and for few of them the netlist is built in linear time.
    if file.arrays.len() > 16 {
        Err(VError::Refused {
            rule: Rule::V5,
            line: file.line,
        })
    } else {
        with_memories(alloc, file, wiring)
    }
}

// Reads a text, or tells what it breaks first.
fn read(alloc: Global, text: &[u8]) -> Result<Netlist, VError>
    requires { length text.now ≤ 268435456 }
    ensures { Judges text.now result }
{
    let file = file_of(alloc, text)?;
    let wiring = wiring_of(alloc, &file)?;
    netlist_of(alloc, file, wiring)
}

/// Reads a netlist from a text of at most 268,435,456 bytes, in time and memory linear in its length.
#[tactic(auto, using(crate::proofs::Verdicts::one_way, crate::proofs::Memories::well_read))]
pub fn read_verilog(alloc: Global, text: &[u8]) -> Result<Netlist, VError>
    requires { length text.now ≤ 268435456 }
    // What is read is what the text reads as, and a refusal tells what it breaks first.
    ensures judges { Judges text.now result }
    // What is read is well formed, so that it can be run.
    ensures well { IfOk result IsWellFormed }
    // Its memories have different names and words of 1 to `WIDEST` bits, so that they can have an image.
    ensures names { IfOk result (λ n. AllPairs (λ a b. a.name ≢ b.name) n.mems) }
    ensures low { IfOk result (λ n. All (λ m. 1 ≤ m.width) n.mems) }
    ensures high { IfOk result (λ n. All (λ m. m.width ≤ widest) n.mems) }
    // A text that reads as a netlist gives it, unless memory runs out.
    ensures only { (n : Netlist') → Reads text.now n → GivesNetlist n result }
    // A text that breaks a rule first is refused by it at its line, unless memory runs out.
    ensures exact { (rule : Rule') → (line : ℕ) →
        Breaks text.now rule line → GivesRefusal rule line result }
{
    read(alloc, text)
}
