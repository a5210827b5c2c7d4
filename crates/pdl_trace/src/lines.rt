// The lines of runs and of checks.
ghost use Rattle.std.specs.Prelude.{◌≡◌, ◌≤◌, ◌<◌, ◌^◌, ◌++◌, codes, decimal, length};
ghost use Rattle.pdl_semantics.specs.Lines as text;
ghost use Rattle.pdl_word.specs.Digits.{hex};
ghost use Rattle.pdl_kit.specs.Rules.{text_of};
ghost use Rattle.pdl_word.specs.Words.{widest};

use crate::line::Line;
use pdl_kit::{Name, Rule};
use pdl_word::Word;

/// The line of an image that gives a word: `<mem> <address> <hex>`.
///
/// The memory's name has at most 32 bytes, its words have 1 to `WIDEST` bits, and the value fits them. The value is written in lower hexadecimal with a digit for each four bits or part of four.
pub fn word_line(mem: &Name, address: u64, value: Word, width: u8) -> Line
    requires name { length mem.now ≤ 32 }
    requires width { width ≤ widest }
    ensures { result ≡ mem.now ++ codes " " ++ decimal address ++ codes " "
        ++ hex (text.hex_digits width) value ++ codes "\n" }
{
    let mut line = Line::new();
    line.push(mem.as_bytes());
    line.push(b" ");
    line.push_decimal(address);
    line.push(b" ");
    line.push_hex(width.div_ceil(4), value);
    line.push(b"\n");
    line
}

/// The line of a write in the cycle, or by the thread, of this number: `<number> <mem> <address> <value>`.
///
/// The memory's name has at most 32 bytes, its words have 1 to `WIDEST` bits, and the value fits them. The value is written in lower hexadecimal with a digit for each four bits or part of four.
pub fn commit_line(number: u32, mem: &Name, address: u64, value: Word, width: u8) -> Line
    requires name { length mem.now ≤ 32 }
    requires width { width ≤ widest }
    ensures { result ≡ text.put_line number (record { name = mem.now; width = width })
        (record { address = address; value = value }) }
{
    let mut line = Line::new();
    line.push_decimal(u64::from(number));
    line.push(b" ");
    line.push(mem.as_bytes());
    line.push(b" ");
    line.push_decimal(address);
    line.push(b" ");
    line.push_hex(width.div_ceil(4), value);
    line.push(b"\n");
    line
}

/// The end line of a run of so many cycles: `end cycles C ended N waits W squashes Q`, with the numbers of cycles in which a thread ended, in which a request stayed unanswered, and in which there was a squash.
pub fn end_line(cycles: u32, ended: u32, waits: u32, squashes: u32) -> Line
    ensures { result ≡ text.end_line cycles ended waits squashes }
{
    let mut line = Line::new();
    line.push(b"end cycles ");
    line.push_decimal(u64::from(cycles));
    line.push(b" ended ");
    line.push_decimal(u64::from(ended));
    line.push(b" waits ");
    line.push_decimal(u64::from(waits));
    line.push(b" squashes ");
    line.push_decimal(u64::from(squashes));
    line.push(b"\n");
    line
}

/// The last line of a sequential run of so many threads: `end threads k`.
pub fn threads_line(threads: u32) -> Line
    ensures { result ≡ codes "end threads " ++ decimal threads ++ codes "\n" }
{
    let mut line = Line::new();
    line.push(b"end threads ");
    line.push_decimal(u64::from(threads));
    line.push(b"\n");
    line
}

/// The line of an accepted source: `accepted stages K depth D`, with the number of its pipe's stages and the greatest number of them on a path.
pub fn accepted_line(stages: usize, depth: usize) -> Line
    ensures { result ≡ codes "accepted stages " ++ decimal stages ++ codes " depth "
        ++ decimal depth ++ codes "\n" }
{
    let mut line = Line::new();
    line.push(b"accepted stages ");
    line.push_decimal(stages as u64);
    line.push(b" depth ");
    line.push_decimal(depth as u64);
    line.push(b"\n");
    line
}

/// The line of a refused file: `refused RULE line N`, with the rule's name of two characters and the line counted from 1.
pub fn refused_line(rule: Rule, line_number: u32) -> Line
    ensures { result ≡ codes "refused " ++ text_of rule ++ codes " line " ++ decimal line_number
        ++ codes "\n" }
{
    let mut line = Line::new();
    line.push(b"refused ");
    line.push(&rule.text());
    line.push(b" line ");
    line.push_decimal(u64::from(line_number));
    line.push(b"\n");
    line
}

/// The line of a refused table of an instruction set: `refused RULE insn N`, with the instruction counted from 1; 0 is what stands in none.
pub fn refused_insn(rule: Rule, insn: usize) -> Line
    ensures { result ≡ codes "refused " ++ text_of rule ++ codes " insn " ++ decimal insn
        ++ codes "\n" }
{
    let mut line = Line::new();
    line.push(b"refused ");
    line.push(&rule.text());
    line.push(b" insn ");
    line.push_decimal(insn as u64);
    line.push(b"\n");
    line
}
