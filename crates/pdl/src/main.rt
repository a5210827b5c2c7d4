//! The program `pdl`: it gives the words of the system, its files and its two outputs to `pdl_cli::top`, and ends with the status that this answers.
//!
//! Nothing stands on it; where the system doesn't give the words it asks `pdl_cli::without_words`.
#![tactic(auto)]

use pdl_cli::NoWords;
use pdl_system::{RealFiles, StdSink};
use std::io::ErrorKind;
use std::process::ExitCode;

// The words after the program's name.
fn words(rt: &HostRuntime) -> Result<Vec<String>, NoWords> {
    match std::env::args(rt) {
        Ok(args) => match args.skip(1).collect(rt.alloc()) {
            Ok(words) => Ok(words),
            Err(_) => Err(NoWords::NoMemory),
        },
        Err(error) => match error.kind() {
            ErrorKind::OutOfMemory => Err(NoWords::NoMemory),
            _ => Err(NoWords::Unreadable),
        },
    }
}

fn main(rt: HostRuntime) -> ExitCode {
    let mut err = StdSink::new(rt.stderr());
    let words = match words(&rt) {
        Ok(words) => words,
        Err(why) => return ExitCode::from(pdl_cli::without_words(why, &mut err)),
    };
    let alloc = rt.alloc();
    let mut out = StdSink::new(rt.stdout());
    let mut files = RealFiles::new(rt);
    ExitCode::from(pdl_cli::top(alloc, &words, &mut files, &mut out, &mut err))
}
