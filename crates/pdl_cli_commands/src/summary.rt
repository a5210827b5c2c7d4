// The end line of a run of a source from given words.
ghost use Rattle.std.specs.Prelude.{◌≡◌, ◌≤◌, ◌%◌, ◌^◌, ℕ, List, All, IfOk, IfErr, length};
ghost use Rattle.pdl_kit.specs.declared.files.TheConstants.{LONGEST_FILE};
ghost use Rattle.pdl_syntax_tree.specs.View.{pipe_view};
ghost use Rattle.pdl_cli_commands.specs.Commands.{IsAccepted, IsSummary, TextFails};
ghost use Rattle.pdl_cli_commands.specs.Summaries as spec;
ghost use Rattle.pdl_word.specs.Words.{widest};

use pdl_check::Accepted;
use pdl_check::check::check;
use pdl_cli_failure::{Failure, in_memory};
use pdl_image::{Delays, Image};
use pdl_kit::{MemInfo, NoMemory, Seq};
use pdl_netrun_lines::{Schedule, count};
use pdl_pipe::compile;
use pdl_trace::{Line, end_line};
use pdl_word::{Word, mask, word_at};
use std::alloc::Global;
use std::mem::drop;

// A word cut to a width.
#[tactic(auto, using(pdl_word::proofs::Masks::and_with_mask))]
fn cut_to(word: Word, width: u8) -> Word
    requires low { 1 ≤ width }
    requires high { width ≤ widest }
    ensures { result ≡ word % 2 ^ width }
{
    word & mask(width)
}

// The first of the words, as many as a memory has, each cut to its width, with zeros after them.
fn words_in(alloc: Global, words: &[Word], mem: &MemInfo) -> Result<Seq<Word>, NoMemory>
    requires low { 1 ≤ mem.now.width }
    requires high { mem.now.width ≤ widest }
    ensures { IfOk result (λ kept. kept ≡ spec.words_in words.now mem.now) }
{
    let mut kept = Seq::new(alloc);
    for address in 0..mem.depth {
        kept.push(cut_to(word_at(words, address as Word), mem.width))?;
    }
    Ok(kept)
}

// An image with the same words in each memory.
fn image_of(alloc: Global, words: &[Word], mems: &[MemInfo]) -> Result<Image, NoMemory>
    requires low { All (λ m. 1 ≤ m.width) mems.now }
    requires high { All (λ m. m.width ≤ widest) mems.now }
    ensures { IfOk result (λ image. image ≡ spec.image_of words.now mems.now) }
{
    let mut all = Seq::new(alloc);
    for mem in mems {
        all.push(words_in(alloc, words, mem)?)?;
    }
    Ok(Image::from_lists(all))
}

// The end line of a run of an accepted pipe: the summary for each source that is its text.
fn end_of(alloc: Global, accepted: &Accepted, words: &[Word], cycles: u32) -> Result<Line, NoMemory>
    requires few { cycles ≤ 1000000 }
    ensures { IfOk result (λ line. (source : List ℕ)
        → IsAccepted source (pipe_view accepted.now.typed.pipe)
        → IsSummary source words.now cycles line) }
{
    let netlist = compile(alloc, accepted)?;
    let image = image_of(alloc, words, netlist.mems.as_slice())?;
    let delays = Delays::none(alloc);
    let schedule = Schedule {
        delays: &delays,
        cycles,
    };
    let counts = count(alloc, &netlist, &image, &schedule)?;
    Ok(end_line(cycles, counts.ended, counts.waits, counts.squashes))
}

/// The end line of a run of a source of at most `LONGEST_FILE` bytes: of so many cycles, from these words in each memory of its pipe, with all requests answered.
pub fn summary(alloc: Global, source: &[u8], words: &[Word], cycles: u32) -> Result<Line, Failure>
    requires short { length source.now ≤ LONGEST_FILE }
    requires few { cycles ≤ 1000000 }
    ensures ok { IfOk result (λ line. IsSummary source.now words.now cycles line) }
    ensures err { IfErr result (TextFails source.now) }
{
    let accepted = check(alloc, source)?;
    let line = in_memory(end_of(alloc, &accepted, words, cycles));
    drop(accepted);
    line
}
