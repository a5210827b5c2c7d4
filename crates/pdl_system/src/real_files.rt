// The files of the system.
ghost use Rattle.std.specs.Prelude.{◌≡◌, ◌≤◌, ◌++◌, [], ◌∷◌, None, true};
ghost use Rattle.pdl_kit.specs.Counts.{raised_count};
ghost use Rattle.pdl_system.specs.Answers.{failed as none_given};

use crate::account::Answers;
use crate::files::Files;
use pdl_kit::files::{LONGEST_FILE, ReadError};
use std::io::{ErrorKind, Read};
use std::{fs, io};

/// The files of the system, which don't tell what they hold, and of which every name may be read. Clauses see what the system gave at each read.
#[derive(Drop)]
pub struct RealFiles<R> {
    rt: R,
    answers: Answers,
    faults: u64,
}

impl<R: std::rt::Files + AllocGlobal> RealFiles<R> {
    /// Reads by the runtime `rt`; nothing was read yet, and no fault is counted.
    pub fn new(rt: R) -> RealFiles<R>
        ensures answers { ⟦<RealFiles<R> as Files>⟧.answers result ≡ [] }
        ensures faults { ⟦<RealFiles<R> as Files>⟧.faults result ≡ 0 }
    {
        RealFiles {
            rt,
            answers: Answers::none(),
            faults: 0,
        }
    }

    // The file's bytes, or its first `LONGEST_FILE + 1` where it is longer.
    fn start_of(&self, name: &str) -> io::Result<Vec<u8>> {
        let file = fs::open(&self.rt, name)?;
        let mut bytes = Vec::new(self.rt.alloc());
        file.take(LONGEST_FILE as u64 + 1).read_to_end(&mut bytes)?;
        Ok(bytes)
    }

    // A fault is counted: the file of this name was not read.
    fn fault(&mut self, name: &str) -> ReadError
        ensures answers { self.new.answers.list ≡ self.old.answers.list ++ none_given name.now ∷ [] }
        ensures faults { self.new.faults ≡ raised_count self.old.faults }
        ensures later { self.old.faults ≤ self.new.faults }
        ensures failed { result ≡ ReadError.Failed }
    {
        self.answers.failed(name.as_bytes());
        self.faults = self.faults.saturating_add(1);
        ReadError::Failed
    }
}

impl<R: std::rt::Files + AllocGlobal> Files for RealFiles<R> {
    ghost holds = { λ s. None };

    ghost answers = { λ s. s.answers.list };

    ghost faults = { λ s. s.faults };

    ghost may = { λ s n. true };

    #[tactic(auto, using(crate::proofs::ToldAnswers::untold))]
    fn read(&mut self, name: &str) -> Result<Vec<u8>, ReadError> {
        match self.start_of(name) {
            Ok(bytes) if bytes.len() <= LONGEST_FILE => {
                self.answers.gave(name.as_bytes(), bytes.as_slice());
                Ok(bytes)
            }
            Ok(_) => Err(self.fault(name)),
            Err(error) if error.kind() == ErrorKind::OutOfMemory => {
                self.answers.failed(name.as_bytes());
                Err(ReadError::NoMemory)
            }
            Err(_) => Err(self.fault(name)),
        }
    }
}
