// The command that a list of words is.
ghost use Rattle.std.specs.Prelude.{◌≡◌, map, IfOk, Some, None, IsErrOf, string_bytes, option_and_then, option_map, codes};
ghost use Rattle.clap.specs.Words.{found_of, rows_of, first_of, subcommand_rows_of};
ghost use Rattle.pdl_cli_args.specs.Line.{line, command_of, netlist_command_of, check_of, run_of, seq_of, asm_of, gen_of, build_of, sim_of, wave_of, view_of};
ghost use Rattle.pdl_cli_args.specs.View.{view};
ghost use Rattle.pdl_cli_args.specs.declared.line.LineError.TheVariants.{NoMemory as no_memory};

use crate::app::command;
use crate::number::number;
use clap::ArgMatches;
use clap::error::ErrorKind;
use std::alloc::{AllocError, Global};

/// A command with its words.
#[derive(Clone, Copy)]
pub enum CommandLine<'a> {
    /// `check SRC`: the name of a source.
    Check {
        source: &'a str,
    },
    /// `run SRC IMG CYCLES [--delays F]`: the names of two files, how many cycles to run, up to 1,000,000, and the name of a delay file, if there is one.
    Run {
        source: &'a str,
        image: &'a str,
        cycles: u32,
        delays: Option<&'a str>,
    },
    /// `seq SRC IMG THREADS`: the names of two files, and how many threads to run, up to 1,000,000.
    Seq {
        source: &'a str,
        image: &'a str,
        threads: u32,
    },
    /// `asm TABLE TEXT`: the names of the table of an instruction set and of an assembly text.
    Asm {
        table: &'a str,
        text: &'a str,
    },
    /// `gen N`: the number of a generated run, below 2 ^ 31.
    Gen {
        number: u32,
    },
    /// `build SRC`: the name of a source.
    Build {
        source: &'a str,
    },
    /// `sim V IMG CYCLES [--delays F]`: the names of a netlist's text and of an image, how many cycles to run, up to 1,000,000, and the name of a delay file, if there is one.
    Sim {
        netlist: &'a str,
        image: &'a str,
        cycles: u32,
        delays: Option<&'a str>,
    },
    /// `wave SRC IMG CYCLES [--delays F]`: the names of two files, how many cycles to run, up to 1,000,000, and the name of a delay file, if there is one.
    Wave {
        source: &'a str,
        image: &'a str,
        cycles: u32,
        delays: Option<&'a str>,
    },
    /// `view SRC IMG CYCLES [--delays F]`: the names of two files, how many cycles to run, up to 1,000,000, and the name of a delay file, if there is one.
    View {
        source: &'a str,
        image: &'a str,
        cycles: u32,
        delays: Option<&'a str>,
    },
}

/// Why there is no command: the words are none, or memory ran out.
#[derive(Clone, Copy)]
pub enum LineError {
    Usage,
    NoMemory,
}

impl From<AllocError> for LineError {
    ghost from_gives = { λ _ e. e ≡ no_memory };

    fn from(_e: AllocError) -> LineError {
        LineError::NoMemory
    }
}

/// The command that the words after the program's name are.
///
/// `Usage` comes exactly where they are none, want of memory aside, which may come at any call. A request for help or for the version is no command.
pub fn read_line<'a>(alloc: Global, words: &'a [String]) -> Result<CommandLine<'a>, LineError>
    ensures ok { IfOk result (λ l. line (map string_bytes words.now) ≡ Some (view l)) }
    ensures usage { IsErrOf result LineError.Usage → line (map string_bytes words.now) ≡ None }
{
    let command = command(alloc)?;
    match command.try_get_matches_from(words) {
        Ok(matches) => match matched_line(&matches) {
            Some(line) => Ok(line),
            None => Err(LineError::Usage),
        },
        Err(error) => match error.kind() {
            ErrorKind::OutOfMemory => Err(LineError::NoMemory),
            _ => Err(LineError::Usage),
        },
    }
}

// The command that matches are, if they have a subcommand.
fn matched_line<'a>(matches: &ArgMatches<'a>) -> Option<CommandLine<'a>>
    ensures { option_map view result
        ≡ option_and_then command_of (subcommand_rows_of matches.now) }
{
    match matches.subcommand() {
        Some((name, inner)) => command_line(name, inner),
        None => None,
    }
}

// The command that a subcommand's matches are.
fn command_line<'a>(name: &str, inner: &ArgMatches<'a>) -> Option<CommandLine<'a>>
    ensures { option_map view result ≡ command_of (name.now, rows_of (found_of inner.now)) }
{
    if name == "check" {
        return check_line(inner);
    }
    if name == "run" {
        return run_line(inner);
    }
    if name == "seq" {
        return seq_line(inner);
    }
    if name == "asm" {
        return asm_line(inner);
    }
    if name == "gen" {
        return gen_line(inner);
    }
    if name == "view" {
        return view_line(inner);
    }
    netlist_line(name, inner)
}

// The command that the matches of a subcommand are that shows or reads a netlist.
fn netlist_line<'a>(name: &str, inner: &ArgMatches<'a>) -> Option<CommandLine<'a>>
    ensures { option_map view result
        ≡ netlist_command_of (name.now, rows_of (found_of inner.now)) }
{
    if name == "build" {
        return build_line(inner);
    }
    if name == "sim" {
        return sim_line(inner);
    }
    if name == "wave" {
        return wave_line(inner);
    }
    None
}

// The word of a name.
fn value<'a>(inner: &ArgMatches<'a>, id: &str) -> Option<&'a str>
    ensures { option_map (λ s. s.now) result ≡ first_of id.now (rows_of (found_of inner.now)) }
{
    inner.get_str(id)
}

fn check_line<'a>(inner: &ArgMatches<'a>) -> Option<CommandLine<'a>>
    ensures { option_map view result
        ≡ check_of (first_of (codes "source") (rows_of (found_of inner.now))) }
{
    let Some(source) = value(inner, "source") else {
        return None;
    };
    Some(CommandLine::Check { source })
}

fn run_line<'a>(inner: &ArgMatches<'a>) -> Option<CommandLine<'a>>
    ensures { option_map view result
        ≡ run_of (first_of (codes "source") (rows_of (found_of inner.now)))
        (first_of (codes "image") (rows_of (found_of inner.now)))
        (first_of (codes "cycles") (rows_of (found_of inner.now)))
        (first_of (codes "delays") (rows_of (found_of inner.now))) }
{
    let Some(source) = value(inner, "source") else {
        return None;
    };
    let Some(image) = value(inner, "image") else {
        return None;
    };
    let Some(cycles) = value(inner, "cycles") else {
        return None;
    };
    let Some(cycles) = number(cycles, 7, 1_000_000) else {
        return None;
    };
    Some(CommandLine::Run {
        source,
        image,
        cycles,
        delays: value(inner, "delays"),
    })
}

fn seq_line<'a>(inner: &ArgMatches<'a>) -> Option<CommandLine<'a>>
    ensures { option_map view result
        ≡ seq_of (first_of (codes "source") (rows_of (found_of inner.now)))
        (first_of (codes "image") (rows_of (found_of inner.now)))
        (first_of (codes "threads") (rows_of (found_of inner.now))) }
{
    let Some(source) = value(inner, "source") else {
        return None;
    };
    let Some(image) = value(inner, "image") else {
        return None;
    };
    let Some(threads) = value(inner, "threads") else {
        return None;
    };
    let Some(threads) = number(threads, 7, 1_000_000) else {
        return None;
    };
    Some(CommandLine::Seq {
        source,
        image,
        threads,
    })
}

fn asm_line<'a>(inner: &ArgMatches<'a>) -> Option<CommandLine<'a>>
    ensures { option_map view result
        ≡ asm_of (first_of (codes "table") (rows_of (found_of inner.now)))
        (first_of (codes "text") (rows_of (found_of inner.now))) }
{
    let Some(table) = value(inner, "table") else {
        return None;
    };
    let Some(text) = value(inner, "text") else {
        return None;
    };
    Some(CommandLine::Asm { table, text })
}

fn gen_line<'a>(inner: &ArgMatches<'a>) -> Option<CommandLine<'a>>
    ensures { option_map view result
        ≡ gen_of (first_of (codes "number") (rows_of (found_of inner.now))) }
{
    let Some(text) = value(inner, "number") else {
        return None;
    };
    let Some(number) = number(text, 10, 2_147_483_647) else {
        return None;
    };
    Some(CommandLine::Gen { number })
}

fn build_line<'a>(inner: &ArgMatches<'a>) -> Option<CommandLine<'a>>
    ensures { option_map view result
        ≡ build_of (first_of (codes "source") (rows_of (found_of inner.now))) }
{
    let Some(source) = value(inner, "source") else {
        return None;
    };
    Some(CommandLine::Build { source })
}

fn sim_line<'a>(inner: &ArgMatches<'a>) -> Option<CommandLine<'a>>
    ensures { option_map view result
        ≡ sim_of (first_of (codes "netlist") (rows_of (found_of inner.now)))
        (first_of (codes "image") (rows_of (found_of inner.now)))
        (first_of (codes "cycles") (rows_of (found_of inner.now)))
        (first_of (codes "delays") (rows_of (found_of inner.now))) }
{
    let Some(netlist) = value(inner, "netlist") else {
        return None;
    };
    let Some(image) = value(inner, "image") else {
        return None;
    };
    let Some(cycles) = value(inner, "cycles") else {
        return None;
    };
    let Some(cycles) = number(cycles, 7, 1_000_000) else {
        return None;
    };
    Some(CommandLine::Sim {
        netlist,
        image,
        cycles,
        delays: value(inner, "delays"),
    })
}

fn wave_line<'a>(inner: &ArgMatches<'a>) -> Option<CommandLine<'a>>
    ensures { option_map view result
        ≡ wave_of (first_of (codes "source") (rows_of (found_of inner.now)))
        (first_of (codes "image") (rows_of (found_of inner.now)))
        (first_of (codes "cycles") (rows_of (found_of inner.now)))
        (first_of (codes "delays") (rows_of (found_of inner.now))) }
{
    let Some(source) = value(inner, "source") else {
        return None;
    };
    let Some(image) = value(inner, "image") else {
        return None;
    };
    let Some(cycles) = value(inner, "cycles") else {
        return None;
    };
    let Some(cycles) = number(cycles, 7, 1_000_000) else {
        return None;
    };
    Some(CommandLine::Wave {
        source,
        image,
        cycles,
        delays: value(inner, "delays"),
    })
}

fn view_line<'a>(inner: &ArgMatches<'a>) -> Option<CommandLine<'a>>
    ensures { option_map view result
        ≡ view_of (first_of (codes "source") (rows_of (found_of inner.now)))
        (first_of (codes "image") (rows_of (found_of inner.now)))
        (first_of (codes "cycles") (rows_of (found_of inner.now)))
        (first_of (codes "delays") (rows_of (found_of inner.now))) }
{
    let Some(source) = value(inner, "source") else {
        return None;
    };
    let Some(image) = value(inner, "image") else {
        return None;
    };
    let Some(cycles) = value(inner, "cycles") else {
        return None;
    };
    let Some(cycles) = number(cycles, 7, 1_000_000) else {
        return None;
    };
    Some(CommandLine::View {
        source,
        image,
        cycles,
        delays: value(inner, "delays"),
    })
}
