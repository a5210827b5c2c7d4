// What is answered where there are no words.
ghost use Rattle.std.specs.Prelude.{◌≡◌};
ghost use Rattle.pdl_cli_failure.specs.Texts.{Says};
ghost use Rattle.pdl_cli_failure.specs.Failures.{failure_status, failure_text};
ghost use Rattle.pdl_cli.specs.Words.{failure_of};

use pdl_cli_failure::{Failure, report, status_of};
use pdl_kit::sink::Sink;

/// Why the words after the program's name are not there.
#[derive(Clone, Copy)]
pub enum NoWords {
    /// One of them is not UTF-8.
    Unreadable,
    /// Memory ran out.
    NoMemory,
}

/// Says on `err` why there are no words, and answers the status with which the program ends: 1 where one can't be read, and 5 where memory ran out.
pub fn without_words<E: Sink>(why: NoWords, err: &mut E) -> u8
    ensures status { result ≡ failure_status (failure_of why) }
    ensures text { Says (E.written err.old) (E.written err.new) (E.faults err.old)
        (E.faults err.new) (failure_text (failure_of why)) }
{
    match why {
        NoWords::Unreadable => end(Failure::Usage, err),
        NoWords::NoMemory => end(Failure::NoMemory, err),
    }
}

// Says a failure, and answers its status.
fn end<E: Sink>(failure: Failure, err: &mut E) -> u8
    ensures status { result ≡ failure_status failure }
    ensures text { Says (E.written err.old) (E.written err.new) (E.faults err.old)
        (E.faults err.new) (failure_text failure) }
{
    report(Err(failure), err);
    status_of(Err(failure))
}
