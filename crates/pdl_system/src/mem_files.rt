// Files in memory, some of whose reads fail.
ghost use Rattle.std.specs.Prelude.{◌≡◌, ◌≤◌, ◌↔◌, ◌++◌, [], ◌∷◌, List, ℕ, Some, true, IfOk, IfErr, IsErrOf, vec_len};
ghost use Rattle.std.specs.Option.{option_copied};
ghost use Rattle.pdl_kit.specs.Counts.{raised_count};
ghost use Rattle.pdl_system.specs.Answers.{gave as gave_bytes, failed as none_given};
ghost use Rattle.pdl_system.specs.Files.{Gives, AreTold, ReadHasCause};
ghost use Rattle.pdl_system.specs.FilesInMemory.{ReadFails, after_read, found_in, held_of};

use crate::account::Answers;
use crate::files::Files;
use crate::mem_file::MemFile;
use pdl_kit::files::{LONGEST_FILE, ReadError};
use pdl_kit::{NoMemory, Seq};
use std::marker::Model;

/// Files in memory, of which every name may be read, and some of whose calls fail.
#[derive(Drop)]
pub struct MemFiles {
    files: Vec<MemFile>,
    failing: Vec<u64>,
    answers: Answers,
    calls: u64,
    faults: u64,
}

impl Model for MemFiles {
    ghost use Rattle.pdl_system.specs.FilesInMemory.{State};

    ghost Value = { State };

    ghost view = { λ f. record {
      files = f.files.items;
      failing = f.failing.items;
      answers = f.answers.list;
      calls = f.calls;
      faults = f.faults;
    } };
}

impl MemFiles {
    /// Holds the files, of a name that stands twice the first; the calls whose numbers are in `failing` fail, the first call being 1.
    pub fn new(files: Vec<MemFile>, failing: Vec<u64>) -> MemFiles
        ensures { result ≡ record {
          files = files.items;
          failing = failing.items;
          answers = [];
          calls = 0;
          faults = 0;
        } }
    {
        MemFiles {
            files,
            failing,
            answers: Answers::none(),
            calls: 0,
            faults: 0,
        }
    }

    // A fault is counted: the file of this name was not read.
    fn fault(&mut self, name: &str) -> ReadError
        ensures state { self.new ≡ record self.old {
          answers = self.old.answers ++ none_given name.now ∷ [];
          faults = raised_count self.old.faults;
        } }
        ensures later { self.old.faults ≤ self.new.faults }
        ensures failed { result ≡ ReadError.Failed }
    {
        self.answers.failed(name.as_bytes());
        self.faults = self.faults.saturating_add(1);
        ReadError::Failed
    }
}

// The bytes of the first file with the name.
fn find<'a>(files: &'a [MemFile], name: &str) -> Option<&'a Seq<u8>>
    ensures { option_copied result ≡ found_in files.now name.now }
{
    for file in files {
        if name.as_bytes() == file.name.as_bytes() {
            return Some(&file.bytes);
        }
    }
    None
}

fn copy_of(bytes: &Seq<u8>) -> Result<Vec<u8>, NoMemory>
    ensures { IfOk result (λ b. b.items ≡ bytes.now) }
{
    let copy = bytes.clone()?;
    Ok(copy.into_vec())
}

impl Files for MemFiles {
    ghost holds = { λ s. Some (held_of s.files) };

    ghost answers = { λ s. s.answers };

    ghost faults = { λ s. s.faults };

    ghost may = { λ s n. true };

    /// Reads a file. It fails exactly where the name is missing, the file is too long, or this call is listed.
    #[tactic(auto, using(crate::proofs::FileMap::held_is, crate::proofs::ToldAnswers::told_on))]
    fn read(&mut self, name: &str) -> Result<Vec<u8>, ReadError>
        ensures failed { IsErrOf result ReadError.Failed ↔ ReadFails self.old name.now }
        ensures state { self.new ≡ after_read self.old name.now result }
        ensures bytes { IfOk result (λ b. Gives (Some (held_of self.old.files)) name.now b.items) }
        ensures bound { IfOk result (λ b. vec_len b ≤ LONGEST_FILE) }
        ensures gave { IfOk result (λ b. self.new.answers
            ≡ self.old.answers ++ gave_bytes name.now b.items ∷ []) }
        ensures gave_none { IfErr result (λ e. self.new.answers
            ≡ self.old.answers ++ none_given name.now ∷ []) }
        ensures told { AreTold (Some (held_of self.old.files)) self.old.answers
            → AreTold (Some (held_of self.new.files)) self.new.answers }
        ensures later { self.old.faults ≤ self.new.faults }
        ensures cause { ReadHasCause self.old.faults self.new.faults result }
    {
        self.calls = self.calls.saturating_add(1);
        if self.failing.contains(&self.calls) {
            return Err(self.fault(name));
        }
        match find(self.files.as_slice(), name) {
            Some(bytes) if bytes.len() <= LONGEST_FILE => match copy_of(bytes) {
                Ok(bytes) => {
                    self.answers.gave(name.as_bytes(), bytes.as_slice());
                    Ok(bytes)
                }
                Err(_) => {
                    self.answers.failed(name.as_bytes());
                    Err(ReadError::NoMemory)
                }
            },
            _ => Err(self.fault(name)),
        }
    }
}
