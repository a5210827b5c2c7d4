//! Definitions that compute, told plainly, and that the two say the same.
//!
//! The functions do nothing: their clauses are laws of the definitions.
#![tactic(auto)]

ghost use Rattle.pdl_plain.specs.Signed.{ComparesNumbers, ExtendsNumbers};
ghost use Rattle.pdl_plain.specs.Requests.{LeavesRequest};
ghost use Rattle.pdl_plain.specs.HeldLocations.{HoldsBefore, MarksBlocks};
ghost use Rattle.pdl_plain.specs.StagesByText.{BeginsLast, BeginsNext};
ghost use Rattle.pdl_plain.specs.LetterPlaces.{HasEachLetter};
ghost use Rattle.pdl_plain.specs.NetlistTexts.{ReadsFile, ReadsOnly};
ghost use Rattle.pdl_plain.specs.CommandLines.{ReadsUndashed};

/// Signed words are whole numbers: `lts` compares these, and `sext` is the wider word of the same number.
pub fn signed_words()
    ensures compares { ComparesNumbers }
    ensures extends { ExtendsNumbers }
{}

/// What a cycle leaves of the request of a delayed memory.
pub fn requests()
    ensures leaves { LeavesRequest }
{}

/// Which locations a thread holds for writing: those that it reserved more often than it released them, on its path.
pub fn held_locations()
    ensures before { HoldsBefore }
    ensures blocks { MarksBlocks }
{}

/// The stage of a place of a text, and the next one on a path.
pub fn stages_by_text()
    ensures last { BeginsLast }
    ensures next { BeginsNext }
{}

/// The word of an instruction has the bits of each letter at the letter's places.
pub fn letter_places()
    ensures each { HasEachLetter }
{}

/// The table reads a text as a file just where its tokens are those of that file, line by line of the grammar.
pub fn netlist_texts()
    ensures reads { ReadsFile }
    ensures only { ReadsOnly }
{}

/// Words none of which begins with `-` are a command by its name, how many words follow it, and their numbers.
pub fn command_lines()
    ensures undashed { ReadsUndashed }
{}
