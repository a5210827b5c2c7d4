// Files, by name.
ghost use Rattle.std.specs.Prelude.{◌≡◌, ℕ, ◌≤◌, ◌++◌, [], ◌∷◌, Bool, List, IfOk, IfErr, IsTrue, vec_len};
ghost use Rattle.std.specs.declared.option.Option.{Option};
ghost use Rattle.pdl_system.specs.Answers.{Answer, gave as gave_bytes, failed as none_given};
ghost use Rattle.pdl_system.specs.Files.{Held, Gives, AreTold, ReadHasCause};

use pdl_kit::files::{LONGEST_FILE, ReadError};

/// What has files.
pub trait Files {
    /// The files that it holds, by name, where it tells them.
    ghost holds: { Self → Option Held };

    /// What its reads answered so far, in order.
    ghost answers: { Self → List Answer };

    /// How often it has failed, up to the last value of a `u64`.
    ghost faults: { Self → ℕ };

    /// Whether a name may be read.
    ghost may: { Self → List ℕ → Bool };

    /// Reads a file to its end.
    ///
    /// The count of faults never falls, and `Failed` comes only where it rose, or stands at the last value of a `u64`. A name that isn't there is a fault, and so is a file of more than `LONGEST_FILE` bytes. Want of memory may come at any call.
    fn read(&mut self, name: &str) -> Result<Vec<u8>, ReadError>
        requires { IsTrue (may self.old name.now) }
        ensures bytes { IfOk result (λ b. Gives (holds self.old) name.now b.items) }
        ensures bound { IfOk result (λ b. vec_len b ≤ LONGEST_FILE) }
        ensures gave { IfOk result (λ b. answers self.new
            ≡ answers self.old ++ gave_bytes name.now b.items ∷ []) }
        ensures gave_none { IfErr result (λ e. answers self.new
            ≡ answers self.old ++ none_given name.now ∷ []) }
        ensures told { AreTold (holds self.old) (answers self.old)
            → AreTold (holds self.new) (answers self.new) }
        ensures later { faults self.old ≤ faults self.new }
        ensures cause { ReadHasCause (faults self.old) (faults self.new) result }
        ensures held { holds self.new ≡ holds self.old }
        ensures allowed { (n : List ℕ) → may self.new n ≡ may self.old n };
}
