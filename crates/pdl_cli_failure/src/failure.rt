// Why a command was not done, with its status and its text.
ghost use Rattle.std.specs.Prelude.{◌≡◌, ◌≤◌, IfOk, IfErr, Ok, length};
ghost use Rattle.pdl_kit.specs.Sinks.{TakesPrefix};
ghost use Rattle.pdl_cli_failure.specs.Texts.{Says};
ghost use Rattle.pdl_cli_failure.specs.Failures.{refused_at};
ghost use Rattle.pdl_cli_failure.specs.Failures as spec;
ghost use Rattle.pdl_cli_failure.specs.declared.failure.Failure.TheVariants.{NoMemory as no_memory};

use pdl_asm::AsmError;
use pdl_asm_table::TableError;
use pdl_cli_args::LineError;
use pdl_image::FileError;
use pdl_kit::files::ReadError;
use pdl_kit::sink::{Sink, WriteFailed, write_whole};
use pdl_kit::{NoMemory, Refusal, Rule};
use pdl_trace::{TextError, refused_insn, refused_line};
use pdl_vread::VError;

/// Where a file breaks a rule.
#[derive(Clone, Copy)]
pub enum Position {
    /// A line, counted from 1.
    Line(u32),
    /// An instruction of a table, counted from 1; 0 is what stands in none.
    Insn(usize),
}

/// Why a command was not done.
#[derive(Clone, Copy)]
pub enum Failure {
    /// The words are no command.
    Usage,
    /// A file breaks a rule.
    Refused { rule: Rule, position: Position },
    /// A file could not be read.
    ReadFault,
    /// The output could not be written.
    WriteFault,
    NoMemory,
}

/// What was made, or that memory was wanting.
pub fn in_memory<T>(made: Result<T, NoMemory>) -> Result<T, Failure>
    ensures ok { IfOk result (λ t. made ≡ Ok t) }
    ensures err { IfErr result (λ f. f ≡ no_memory) }
{
    match made {
        Ok(t) => Ok(t),
        Err(_) => Err(Failure::NoMemory),
    }
}

/// What came of a text that was written while it was made.
pub fn in_text(outcome: Result<(), TextError>) -> Result<(), Failure>
    ensures { result ≡ spec.of_text outcome }
{
    match outcome {
        Ok(()) => Ok(()),
        Err(TextError::NoMemory) => Err(Failure::NoMemory),
        Err(TextError::WriteFailed) => Err(Failure::WriteFault),
    }
}

impl From<ReadError> for Failure {
    ghost use Rattle.pdl_cli_failure.specs.Failures.{of_read};
    ghost use Rattle.std.specs.Prelude.{◌≡◌};

    ghost from_gives = { λ e f. f ≡ of_read e };

    fn from(e: ReadError) -> Failure {
        match e {
            ReadError::Failed => Failure::ReadFault,
            ReadError::NoMemory => Failure::NoMemory,
        }
    }
}

impl From<WriteFailed> for Failure {
    ghost use Rattle.std.specs.Prelude.{◌≡◌};
    ghost use Rattle.pdl_cli_failure.specs.declared.failure.Failure.TheVariants.{WriteFault};

    ghost from_gives = { λ _ f. f ≡ WriteFault };

    fn from(_: WriteFailed) -> Failure {
        Failure::WriteFault
    }
}

impl From<NoMemory> for Failure {
    ghost use Rattle.std.specs.Prelude.{◌≡◌};
    ghost use Rattle.pdl_cli_failure.specs.declared.failure.Failure.TheVariants.{NoMemory as no_memory};

    ghost from_gives = { λ _ f. f ≡ no_memory };

    fn from(_: NoMemory) -> Failure {
        Failure::NoMemory
    }
}

impl From<Refusal> for Failure {
    ghost use Rattle.std.specs.Prelude.{◌≡◌};
    ghost use Rattle.pdl_cli_failure.specs.Failures.{of_check};

    ghost from_gives = { λ e f. f ≡ of_check e };

    fn from(e: Refusal) -> Failure {
        match e {
            Refusal::Refused { rule, line } => Failure::Refused {
                rule,
                position: Position::Line(line),
            },
            Refusal::NoMemory => Failure::NoMemory,
        }
    }
}

impl From<FileError> for Failure {
    ghost use Rattle.std.specs.Prelude.{◌≡◌};
    ghost use Rattle.pdl_cli_failure.specs.Failures.{of_file};

    ghost from_gives = { λ e f. f ≡ of_file e };

    fn from(e: FileError) -> Failure {
        match e {
            FileError::Refused { rule, line } => Failure::Refused {
                rule,
                position: Position::Line(line),
            },
            FileError::NoMemory => Failure::NoMemory,
        }
    }
}

impl From<TableError> for Failure {
    ghost use Rattle.std.specs.Prelude.{◌≡◌};
    ghost use Rattle.pdl_cli_failure.specs.Failures.{of_table};

    ghost from_gives = { λ e f. f ≡ of_table e };

    fn from(e: TableError) -> Failure {
        match e {
            TableError::Refused { rule, insn } => Failure::Refused {
                rule,
                position: Position::Insn(insn),
            },
            TableError::NoMemory => Failure::NoMemory,
        }
    }
}

impl From<AsmError> for Failure {
    ghost use Rattle.std.specs.Prelude.{◌≡◌};
    ghost use Rattle.pdl_cli_failure.specs.Failures.{of_asm};

    ghost from_gives = { λ e f. f ≡ of_asm e };

    fn from(e: AsmError) -> Failure {
        match e {
            AsmError::Refused { rule, line } => Failure::Refused {
                rule,
                position: Position::Line(line),
            },
            AsmError::NoMemory => Failure::NoMemory,
        }
    }
}

impl From<VError> for Failure {
    ghost use Rattle.std.specs.Prelude.{◌≡◌};
    ghost use Rattle.pdl_cli_failure.specs.Failures.{of_netlist};

    ghost from_gives = { λ e f. f ≡ of_netlist e };

    fn from(e: VError) -> Failure {
        match e {
            VError::Refused { rule, line } => Failure::Refused {
                rule,
                position: Position::Line(line),
            },
            VError::NoMemory => Failure::NoMemory,
        }
    }
}

impl From<LineError> for Failure {
    ghost use Rattle.std.specs.Prelude.{◌≡◌};
    ghost use Rattle.pdl_cli_failure.specs.Failures.{of_line};

    ghost from_gives = { λ e f. f ≡ of_line e };

    fn from(e: LineError) -> Failure {
        match e {
            LineError::Usage => Failure::Usage,
            LineError::NoMemory => Failure::NoMemory,
        }
    }
}

/// The exit status of what came of a command.
pub fn status_of(outcome: Result<(), Failure>) -> u8
    ensures { result ≡ spec.status_of outcome }
{
    match outcome {
        Ok(()) => 0,
        Err(Failure::Usage) => 1,
        Err(Failure::Refused { .. }) => 2,
        Err(Failure::ReadFault) => 3,
        Err(Failure::WriteFault) => 4,
        Err(Failure::NoMemory) => 5,
    }
}

/// Writes the text of what came of a command; a fault on the way is passed over, since nothing is left to tell it to.
pub fn report<E: Sink>(outcome: Result<(), Failure>, err: &mut E)
    ensures { Says (E.written err.old) (E.written err.new) (E.faults err.old) (E.faults err.new)
        (spec.text_of outcome) }
{
    if let Err(failure) = outcome {
        complain(failure, err);
    }
}

// Writes the text of a failure.
fn complain<E: Sink>(failure: Failure, err: &mut E)
    ensures { Says (E.written err.old) (E.written err.new) (E.faults err.old) (E.faults err.new)
        (spec.failure_text failure) }
{
    match failure {
        Failure::Usage => say(err, b"usage\n"),
        Failure::Refused { rule, position } => refuse(rule, position, err),
        Failure::ReadFault => say(err, b"read fault\n"),
        Failure::WriteFault => {}
        Failure::NoMemory => say(err, b"no memory\n"),
    }
}

// Writes the text of a refusal.
fn refuse<E: Sink>(rule: Rule, position: Position, err: &mut E)
    ensures { Says (E.written err.old) (E.written err.new) (E.faults err.old) (E.faults err.new)
        (refused_at rule position) }
{
    match position {
        Position::Line(line) => say(err, refused_line(rule, line).as_bytes()),
        Position::Insn(insn) => say(err, refused_insn(rule, insn).as_bytes()),
    }
}

// Writes a text, or a prefix of it where the sink fails.
fn say<E: Sink>(err: &mut E, text: &[u8])
    ensures { Says (E.written err.old) (E.written err.new) (E.faults err.old) (E.faults err.new)
        text.now }
{
    let _ = write_whole(err, text);
}
