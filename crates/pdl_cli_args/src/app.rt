// The command line as `clap` is told it: one command, whose subcommands take words in fixed places.
ghost use Rattle.std.specs.Prelude.{◌≡◌, false};
ghost use Rattle.clap.specs.Walk.{rule_of};
ghost use Rattle.clap.specs.Simple.{App, new_app, with_rule, with_subcommand};
ghost use Rattle.clap.specs.Words.{app_of};
ghost use Rattle.pdl_cli_args.specs.App.{pdl_app, bare_app, check_app, run_app, seq_app, asm_app, gen_app, build_app, sim_app, wave_app, view_app, word_rule, option_rule};
ghost use Rattle.pdl_cli_args.specs.Told.{IsTold, IsToldAlone};

use clap::{Arg, ArgAction, Command};
use std::alloc::{AllocError, Global};

// A word that must be there.
fn word<'a>(alloc: Global, id: &'a str) -> Arg<'a>
    ensures rule { rule_of result ≡ word_rule id.entry.now }
    ensures local { result.global ≡ false }
{
    Arg::new(alloc, id).required(true).action(ArgAction::Set)
}

// An option with a value, that may be left out.
fn option<'a>(alloc: Global, name: &'a str) -> Arg<'a>
    ensures rule { rule_of result ≡ option_rule name.entry.now }
    ensures local { result.global ≡ false }
{
    Arg::new(alloc, name).long(name).action(ArgAction::Set)
}

// A command without words.
fn named<'a>(alloc: Global, name: &'a str) -> Result<Command<'a>, AllocError>
    ensures { IsToldAlone (new_app name.entry.now) result }
{
    Ok(Command::new(alloc, name))
}

// The command with one word more, that must be there.
fn with_word<'a>(
    command: Result<Command<'a>, AllocError>,
    alloc: Global,
    id: &'a str,
) -> Result<Command<'a>, AllocError>
    ensures { (app : App) → IsToldAlone app command.entry
        → IsToldAlone (with_rule app (word_rule id.entry.now)) result }
{
    match command {
        Ok(command) => command.arg(word(alloc, id)),
        Err(error) => Err(error),
    }
}

// The command with one option more, that may be left out.
fn with_option<'a>(
    command: Result<Command<'a>, AllocError>,
    alloc: Global,
    name: &'a str,
) -> Result<Command<'a>, AllocError>
    ensures { (app : App) → IsToldAlone app command.entry
        → IsToldAlone (with_rule app (option_rule name.entry.now)) result }
{
    match command {
        Ok(command) => command.arg(option(alloc, name)),
        Err(error) => Err(error),
    }
}

// The command with one subcommand more.
fn joined<'a>(
    command: Result<Command<'a>, AllocError>,
    part: Result<Command<'a>, AllocError>,
) -> Result<Command<'a>, AllocError>
    ensures { (app one : App) → IsTold app command.entry → IsToldAlone one part.entry
        → IsTold (with_subcommand app one.top) result }
{
    match (command, part) {
        (Ok(command), Ok(part)) => command.subcommand(part),
        _ => Err(AllocError),
    }
}

// `check SRC`
fn check_command<'a>(alloc: Global) -> Result<Command<'a>, AllocError>
    ensures { IsToldAlone check_app result }
{
    with_word(named(alloc, "check"), alloc, "source")
}

// `run SRC IMG CYCLES [--delays F]`
fn run_command<'a>(alloc: Global) -> Result<Command<'a>, AllocError>
    ensures { IsToldAlone run_app result }
{
    let one = with_word(named(alloc, "run"), alloc, "source");
    let two = with_word(one, alloc, "image");
    let three = with_word(two, alloc, "cycles");
    with_option(three, alloc, "delays")
}

// `seq SRC IMG THREADS`
fn seq_command<'a>(alloc: Global) -> Result<Command<'a>, AllocError>
    ensures { IsToldAlone seq_app result }
{
    let one = with_word(named(alloc, "seq"), alloc, "source");
    let two = with_word(one, alloc, "image");
    with_word(two, alloc, "threads")
}

// `asm TABLE TEXT`
fn asm_command<'a>(alloc: Global) -> Result<Command<'a>, AllocError>
    ensures { IsToldAlone asm_app result }
{
    let one = with_word(named(alloc, "asm"), alloc, "table");
    with_word(one, alloc, "text")
}

// `gen N`
fn gen_command<'a>(alloc: Global) -> Result<Command<'a>, AllocError>
    ensures { IsToldAlone gen_app result }
{
    with_word(named(alloc, "gen"), alloc, "number")
}

// `build SRC`
fn build_command<'a>(alloc: Global) -> Result<Command<'a>, AllocError>
    ensures { IsToldAlone build_app result }
{
    with_word(named(alloc, "build"), alloc, "source")
}

// `sim V IMG CYCLES [--delays F]`
fn sim_command<'a>(alloc: Global) -> Result<Command<'a>, AllocError>
    ensures { IsToldAlone sim_app result }
{
    let one = with_word(named(alloc, "sim"), alloc, "netlist");
    let two = with_word(one, alloc, "image");
    let three = with_word(two, alloc, "cycles");
    with_option(three, alloc, "delays")
}

// `wave SRC IMG CYCLES [--delays F]`
fn wave_command<'a>(alloc: Global) -> Result<Command<'a>, AllocError>
    ensures { IsToldAlone wave_app result }
{
    let one = with_word(named(alloc, "wave"), alloc, "source");
    let two = with_word(one, alloc, "image");
    let three = with_word(two, alloc, "cycles");
    with_option(three, alloc, "delays")
}

// `view SRC IMG CYCLES [--delays F]`
fn view_command<'a>(alloc: Global) -> Result<Command<'a>, AllocError>
    ensures { IsToldAlone view_app result }
{
    let one = with_word(named(alloc, "view"), alloc, "source");
    let two = with_word(one, alloc, "image");
    let three = with_word(two, alloc, "cycles");
    with_option(three, alloc, "delays")
}

// The command without its subcommands.
fn bare_command<'a>(alloc: Global) -> Command<'a>
    ensures { app_of result ≡ bare_app }
{
    Command::new(alloc, "pdl").no_binary_name(true)
}

pub(crate) fn command<'a>(alloc: Global) -> Result<Command<'a>, AllocError>
    ensures { IsTold pdl_app result }
{
    let one = joined(Ok(bare_command(alloc)), check_command(alloc));
    let two = joined(one, run_command(alloc));
    let three = joined(two, seq_command(alloc));
    let four = joined(three, asm_command(alloc));
    let five = joined(four, gen_command(alloc));
    let six = joined(five, build_command(alloc));
    let seven = joined(six, sim_command(alloc));
    let eight = joined(seven, wave_command(alloc));
    joined(eight, view_command(alloc))
}
