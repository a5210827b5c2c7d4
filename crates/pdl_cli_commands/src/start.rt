// What a run starts from: the words of the memories, and the replies of the delayed ones.
ghost use Rattle.std.specs.Prelude.{◌≡◌, ◌≤◌, [], ◌∷◌, ◌++◌, IsTrue, IfOk, IfErr, ℕ, List, length};
ghost use Rattle.pdl_system.specs.Answers.{gave};
ghost use Rattle.pdl_system.specs.Files.{AreTold};
ghost use Rattle.pdl_net.specs.Pipe.{IsWellFormed};
ghost use Rattle.pdl_net.specs.Run.{delayed_mems};
ghost use Rattle.pdl_image.specs.Images.{IsImage, image as image_words};
ghost use Rattle.pdl_image.specs.Delays.{delays as delays_of};
ghost use Rattle.pdl_cli_args.specs.View.{text_of};
ghost use Rattle.pdl_cli_commands.specs.Replies.{AllowsFile};
ghost use Rattle.pdl_cli_commands.specs.Begun.{FileFails, IsRefusedImage, AreRefusedDelays, HasReplies, DelaysFail, IsBegun, StartFails};

use pdl_cli_failure::Failure;
use pdl_image::{Delays, Image, read_delays, read_image};
use pdl_net::Netlist;
use pdl_netrun::count_delayed;
use pdl_system::Files;
use std::alloc::Global;

/// The words of memories at the start, and the replies of the delayed ones.
#[derive(Drop)]
pub struct RunStart {
    pub image: Image,
    pub delays: Delays,
}

// Reads an image for the memories of a netlist.
#[tactic(auto, using(crate::proofs::FileFailures::image_refused))]
fn read_words<F: Files>(
    alloc: Global,
    files: &mut F,
    name: &str,
    netlist: &Netlist,
) -> Result<Image, Failure>
    requires may { IsTrue (F.may files.old name.now) }
    requires well { IsWellFormed netlist.now }
    ensures ok { IfOk result (λ i. (b : List ℕ)
        × (F.answers files.new ≡ F.answers files.old ++ gave name.now b ∷ [])
        × (image_words netlist.now.mems b ≡ Ok i) × IsImage netlist.now.mems i) }
    ensures err { IfErr result (FileFails (IsRefusedImage netlist.now.mems)
        (F.answers files.old) (F.answers files.new) (F.faults files.old) (F.faults files.new)
        name.now) }
    ensures held { F.holds files.new ≡ F.holds files.old }
    ensures told { AreTold (F.holds files.old) (F.answers files.old)
        → AreTold (F.holds files.new) (F.answers files.new) }
    ensures allowed { (n : List ℕ) → F.may files.new n ≡ F.may files.old n }
    ensures later { F.faults files.old ≤ F.faults files.new }
{
    let text = files.read(name)?;
    Ok(read_image(alloc, netlist.mems.as_slice(), text.as_slice())?)
}

// Reads a delay file for so many delayed memories.
#[tactic(auto, using(crate::proofs::FileFailures::delays_refused))]
fn read_rows<F: Files>(
    alloc: Global,
    files: &mut F,
    name: &str,
    count: u8,
) -> Result<Delays, Failure>
    requires may { IsTrue (F.may files.old name.now) }
    requires few { count ≤ 16 }
    ensures ok { IfOk result (λ d. (b : List ℕ)
        × (F.answers files.new ≡ F.answers files.old ++ gave name.now b ∷ [])
        × (delays_of count b ≡ Ok d)) }
    ensures err { IfErr result (FileFails (AreRefusedDelays count)
        (F.answers files.old) (F.answers files.new) (F.faults files.old) (F.faults files.new)
        name.now) }
    ensures held { F.holds files.new ≡ F.holds files.old }
    ensures told { AreTold (F.holds files.old) (F.answers files.old)
        → AreTold (F.holds files.new) (F.answers files.new) }
    ensures allowed { (n : List ℕ) → F.may files.new n ≡ F.may files.old n }
    ensures later { F.faults files.old ≤ F.faults files.new }
{
    let text = files.read(name)?;
    Ok(read_delays(alloc, count, text.as_slice())?)
}

/// The replies of so many delayed memories, by the delay file of this name; without one all requests are answered.
pub fn replies<F: Files>(
    alloc: Global,
    files: &mut F,
    name: Option<&str>,
    count: u8,
) -> Result<Delays, Failure>
    requires may { AllowsFile (F.may files.old) (text_of name) }
    requires few { count ≤ 16 }
    ensures ok { IfOk result (λ d. HasReplies (F.answers files.old) (F.answers files.new)
        (text_of name.entry) count d) }
    ensures err { IfErr result (DelaysFail (text_of name.entry) count (F.answers files.old)
        (F.answers files.new) (F.faults files.old) (F.faults files.new)) }
    ensures held { F.holds files.new ≡ F.holds files.old }
    ensures told { AreTold (F.holds files.old) (F.answers files.old)
        → AreTold (F.holds files.new) (F.answers files.new) }
    ensures allowed { (n : List ℕ) → F.may files.new n ≡ F.may files.old n }
    ensures later { F.faults files.old ≤ F.faults files.new }
{
    match name {
        Some(file) => read_rows(alloc, files, file, count),
        None => Ok(Delays::none(alloc)),
    }
}

// How many memories of a netlist are delayed: at most 16.
fn few_delayed(netlist: &Netlist) -> u8
    requires { IsWellFormed netlist.now }
    ensures count { result ≡ length (delayed_mems netlist.now) }
    ensures few { result ≤ 16 }
{
    count_delayed(netlist) as u8
}

/// Reads an image of this name for the memories of a netlist, and after it the delay file for its delayed ones, if one is named.
#[tactic(auto, using(crate::proofs::Starts::is_begun, crate::proofs::Starts::replies_off))]
pub fn start_of<F: Files>(
    alloc: Global,
    files: &mut F,
    netlist: &Netlist,
    image: &str,
    delays: Option<&str>,
) -> Result<RunStart, Failure>
    requires image { IsTrue (F.may files.old image.now) }
    requires delays { AllowsFile (F.may files.old) (text_of delays) }
    requires well { IsWellFormed netlist.now }
    ensures ok { IfOk result (λ s. IsBegun (F.answers files.old) (F.answers files.new) image.now
        (text_of delays.entry) netlist.now.mems (length (delayed_mems netlist.now))
        s.image s.delays) }
    ensures err { IfErr result (StartFails (F.answers files.old) (F.answers files.new)
        (F.faults files.old) (F.faults files.new) image.now (text_of delays.entry)
        netlist.now.mems (length (delayed_mems netlist.now))) }
    ensures held { F.holds files.new ≡ F.holds files.old }
    ensures told { AreTold (F.holds files.old) (F.answers files.old)
        → AreTold (F.holds files.new) (F.answers files.new) }
    ensures allowed { (n : List ℕ) → F.may files.new n ≡ F.may files.old n }
    ensures later { F.faults files.old ≤ F.faults files.new }
{
    let image = read_words(alloc, files, image, netlist)?;
    let delays = replies(alloc, files, delays, few_delayed(netlist))?;
    Ok(RunStart { image, delays })
}
