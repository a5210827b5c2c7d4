//! The program `pdl_names`: for the source that its one word names it writes the text of `pdl build`, and below it, as comments, what its registers and cells stand for.
//!
//! Nothing stands on it; `pdl_names_text` says what is written.
#![tactic(auto)]

ghost use Rattle.std.specs.Prelude.{ℕ, List, IsTrue};

use pdl_cli_failure::{Failure, report, status_of};
use pdl_kit::sink::{Sink, write_whole};
use pdl_names_text::named_text;
use pdl_system::files::Files;
use pdl_system::{RealFiles, StdSink};
use std::alloc::Global;
use std::process::ExitCode;

// The words after the program's name.
fn words(rt: &HostRuntime) -> Result<Vec<String>, Failure> {
    let args = match std::env::args(rt) {
        Ok(args) => args,
        Err(_) => return Err(Failure::Usage),
    };
    match args.skip(1).collect(rt.alloc()) {
        Ok(words) => Ok(words),
        Err(_) => Err(Failure::NoMemory),
    }
}

// Reads the source that the one word names, and writes its netlist with the names of its nets.
fn obey<F: Files, O: Sink>(
    alloc: Global,
    words: &Vec<String>,
    files: &mut F,
    out: &mut O,
) -> Result<(), Failure>
    requires { (name : List ℕ) → IsTrue (F.may files.old name) }
{
    if words.len() != 1 {
        return Err(Failure::Usage);
    }
    let source = files.read(words[0].as_str())?;
    let text = named_text(alloc, source.as_slice())?;
    write_whole(out, text.as_slice())?;
    Ok(())
}

fn main(rt: HostRuntime) -> ExitCode {
    let mut err = StdSink::new(rt.stderr());
    let words = match words(&rt) {
        Ok(words) => words,
        Err(why) => {
            report(Err(why), &mut err);
            return ExitCode::from(status_of(Err(why)));
        }
    };
    let alloc = rt.alloc();
    let mut out = StdSink::new(rt.stdout());
    let mut files = RealFiles::new(rt);
    let outcome = obey(alloc, &words, &mut files, &mut out);
    report(outcome, &mut err);
    ExitCode::from(status_of(outcome))
}
