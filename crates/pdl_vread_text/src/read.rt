//! The reader of a text.
ghost use Rattle.std.specs.Prelude.{◌≡◌, ◌≤◌, ◌++◌, ℕ, IfOk, OnOk, length, map};
ghost use Rattle.pdl_vread_text.specs.Cursor.{token_view};
ghost use Rattle.pdl_vread_text.specs.Drafts.{no_draft};
ghost use Rattle.pdl_vread_text.specs.Read as spec;
ghost use Rattle.pdl_vread_text.specs.Text.{IsFile, IsOutOfPlace, GivesFile, GivesLine, IsRefused};
ghost use Rattle.pdl_vread_text.specs.Tokens as lexed;
ghost use Rattle.pdl_vread_text.specs.declared.draft.Draft.{Draft as Draft'};
ghost use Rattle.pdl_vread_text.specs.declared.file.File.{File as File'};

use crate::draft::Draft;
use crate::field::Field;
use crate::file::File;
use crate::lexer::VerilogTokens;
use crate::part::Part;
use crate::rule::VerilogRule;
use crate::token::VerilogToken;
use pdl_kit::NoMemory;
use std::alloc::{AllocFailed, Global};

/// Why a text was not taken: a token out of place, with the line of the first one (counted from 1), or want of memory.
#[derive(Clone, Copy)]
pub enum VerilogError {
    Misplaced { line: u32 },
    NoMemory,
}

// Why the reader stopped: a token out of place, which is the next one, or want of memory.
#[derive(Clone, Copy)]
enum ReaderStop {
    Misplaced,
    NoMemory,
}

impl From<NoMemory> for ReaderStop {
    ghost from_gives = { λ _ e. e ≡ spec.no_memory };

    fn from(_e: NoMemory) -> ReaderStop {
        ReaderStop::NoMemory
    }
}

impl<T: Drop> From<AllocFailed<T>> for ReaderStop {
    ghost from_gives = { λ _ e. e ≡ spec.no_memory };

    fn from(_e: AllocFailed<T>) -> ReaderStop {
        ReaderStop::NoMemory
    }
}

// The rule that comes at a part.
fn rule_at(part: Part, tokens: &VerilogTokens<'_>) -> Option<VerilogRule>
    ensures { result ≡ spec.chosen_at part tokens.now }
{
    match tokens.peek() {
        Some(token) => part.chosen(token.text),
        None => None,
    }
}

// The next token, where it is what is asked.
fn fitting<'a>(tokens: &VerilogTokens<'a>, field: Field) -> Option<VerilogToken<'a>>
    ensures { spec.IsFitting tokens.now field result }
{
    match tokens.peek() {
        Some(token) => {
            if field.fits(token.text) {
                Some(token)
            } else {
                None
            }
        }
        None => None,
    }
}

// Takes the tokens of a rule.
fn sentence<'a>(
    tokens: &mut VerilogTokens<'a>,
    fields: &[Field],
    found: &mut Vec<VerilogToken<'a>>,
) -> Result<(), ReaderStop>
    ensures { spec.Sentence fields.now tokens.old
        (map token_view found.new.items) tokens.new result }
{
    found.clear();
    for field in fields {
        match fitting(tokens, *field) {
            Some(token) => {
                found.push(token)?;
                tokens.skip();
            }
            None => return Err(ReaderStop::Misplaced),
        }
    }
    Ok(())
}

// Takes the rule that comes at a part, and answers the part after it.
fn take_rule<'a>(
    alloc: Global,
    tokens: &mut VerilogTokens<'a>,
    part: Part,
    draft: &mut Draft,
    found: &mut Vec<VerilogToken<'a>>,
) -> Result<Part, ReaderStop>
    ensures { spec.TakesRule part tokens.old tokens.new draft.old draft.new result }
{
    match rule_at(part, tokens) {
        Some(rule) => match sentence(tokens, rule.fields(), found) {
            Ok(()) => {
                draft.take(alloc, rule, found.as_slice())?;
                Ok(rule.next())
            }
            Err(stop) => Err(stop),
        },
        None => Err(ReaderStop::Misplaced),
    }
}

// Takes rules up to the end of a file.
fn take_rules<'a>(
    alloc: Global,
    tokens: &mut VerilogTokens<'a>,
    draft: &mut Draft,
    found: &mut Vec<VerilogToken<'a>>,
) -> Result<(), ReaderStop>
    requires { draft.old ≡ no_draft }
    ensures { spec.TakesRules tokens.old tokens.new draft.new result }
{
    let mut part = Part::Start;
    while !part.is_finished() {
        match take_rule(alloc, tokens, part, draft, found) {
            Ok(after) => part = after,
            Err(stop) => return Err(stop),
        }
    }
    Ok(())
}

// The line on which a text ends.
fn last_line(source: &[u8]) -> u32
    requires { length source.now ≤ 268435456 }
    ensures { result ≡ lexed.last_line source.now }
{
    let ends = source.iter().filter(|c| **c == b'\n').count();
    ends as u32 + 1
}

// The line of the next token, or the last line where there is none.
fn line_of(source: &[u8], tokens: &VerilogTokens<'_>) -> u32
    requires { length source.now ≤ 268435456 }
    ensures { result ≡ spec.line_of tokens.now (lexed.last_line source.now) }
{
    match tokens.peek() {
        Some(token) => token.line,
        None => last_line(source),
    }
}

// What is answered of a text whose rules were taken up to some token.
fn verdict(
    source: &[u8],
    tokens: &VerilogTokens<'_>,
    taken: Result<(), ReaderStop>,
) -> Result<(), VerilogError>
    requires { length source.now ≤ 268435456 }
    ensures { (d : Draft') → spec.TakesRules (lexed.tokens source.now) tokens.now d taken →
        spec.JudgesDraft source.now d result }
{
    match taken {
        Ok(()) => match tokens.peek() {
            Some(token) => Err(VerilogError::Misplaced { line: token.line }),
            None => Ok(()),
        },
        Err(stop) => match stop {
            ReaderStop::Misplaced => Err(VerilogError::Misplaced {
                line: line_of(source, tokens),
            }),
            ReaderStop::NoMemory => Err(VerilogError::NoMemory),
        },
    }
}

// Reads a text by the grammar, into a draft for which nothing is taken yet.
fn read_into(alloc: Global, source: &[u8], draft: &mut Draft) -> Result<(), VerilogError>
    requires size { length source.now ≤ 268435456 }
    requires nothing { draft.old ≡ no_draft }
    ensures { spec.JudgesDraft source.now draft.new result }
{
    let mut tokens = VerilogTokens::new(source);
    let mut found = Vec::new(alloc);
    let taken = take_rules(alloc, &mut tokens, draft, &mut found);
    verdict(source, &tokens, taken)
}

// Reads a text by the grammar.
fn read(alloc: Global, source: &[u8]) -> Result<File, VerilogError>
    requires { length source.now ≤ 268435456 }
    ensures { spec.Judges source.now result }
{
    let mut draft = Draft::new(alloc);
    match read_into(alloc, source, &mut draft) {
        Ok(()) => Ok(draft.into_file()),
        Err(error) => Err(error),
    }
}

/// Reads a text of at most 268,435,456 bytes by the grammar. A text with a token out of place is refused at the line of the first one, one that ends too early at the line on which it ends.
#[tactic(auto, using(crate::proofs::Place::judged_only, crate::proofs::Place::judged_exact, crate::proofs::Place::judged_refused))]
pub fn read_file(alloc: Global, source: &[u8]) -> Result<File, VerilogError>
    requires { length source.now ≤ 268435456 }
    // What is read is what the text declares.
    ensures found { IfOk result (λ f. IsFile source.now f) }
    // A text of the grammar gives what it declares, unless memory runs out.
    ensures only { (f : File') → IsFile source.now f → GivesFile f result }
    // Any other text is refused at the first token out of place, unless memory runs out.
    ensures exact { (line : ℕ) → IsOutOfPlace source.now line → GivesLine line result }
    // A refusal tells why.
    ensures refused { IsRefused source.now result }
{
    read(alloc, source)
}
