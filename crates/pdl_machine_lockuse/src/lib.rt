//! How the threads of any accepted pipe use the locks, in each cycle of each run: with guesses and squashes, forks, and delayed memories.
//!
//! The functions do nothing: each clause is a theorem on the runs of the machine of `pdl_semantics`, of any flat pipe with the facts of an accepted one (`Sound`, `Strict` and `Careful`), any image and any replies of delayed memories.
#![tactic(auto)]

ghost use Rattle.std.specs.Prelude.{IsTrue, ℕ};
ghost use Rattle.pdl_semantics.specs.Tree;
ghost use Rattle.pdl_semantics.specs.Flat.{Pipe};
ghost use Rattle.pdl_semantics.specs.Flatten.{flat};
ghost use Rattle.pdl_rules.specs.Refusal.{KeepsRules};
ghost use Rattle.pdl_theory_turns.specs.Facts.{Sound};
ghost use Rattle.pdl_source_paths.specs.Source.{is_source, is_named};
ghost use Rattle.pdl_theory_states.specs.Strict.{Strict};
ghost use Rattle.pdl_theory_states.specs.Use.{ReleasesWritten, ShiftsTail};
ghost use Rattle.pdl_machine_facts.specs.Slots.{LeadsOn};
ghost use Rattle.pdl_machine_facts.specs.Cycle.{IsByStages};
ghost use Rattle.pdl_machine_facts.specs.Use.{IsInUse};
ghost use Rattle.pdl_machine_lockuse.specs.Careful.{Careful, is_careful};
ghost use Rattle.pdl_machine_lockuse.specs.Use.{HasRoom, ReleasesOwn, ReleasesOlder, FindsAll, KeepsTail, LeavesTail, Cuts, IsSpared, WritesOnce, IsLet, UsesOlder, AwaitsOlder};
ghost use Rattle.pdl_machine_lockuse.specs.Cut.{IsCut};
ghost use Rattle.pdl_machine_lockuse.specs.Runs.{InEachCycle, OfEachAct};

/// Threads go on to later stages, each cycle goes stage by stage, and no thread that moves is removed by its squash.
pub fn stages()
    ensures leads { (p : Pipe) → Sound p → LeadsOn p }
    ensures cycles { (p : Pipe) → Sound p → Strict p → InEachCycle p (IsByStages p) }
    ensures spared { (p : Pipe) → Sound p → Strict p → OfEachAct p (IsSpared p) }
{}

/// Proper use of the locks, in the form in which the law of a netlist takes it.
pub fn in_use()
    ensures { (p : Pipe) → Sound p → Strict p → Careful p → InEachCycle p (IsInUse p) }
{}

/// A thread that moves has room for what it reserves, writes into its own pending writes without value, each once and in the order of its reservations, and its reads and writes find the blocks of their locations ready.
pub fn writes()
    ensures room { (p : Pipe) → OfEachAct p (λ st bits. HasRoom p st) }
    ensures once { (p : Pipe) → Sound p → Strict p → (m : ℕ) →
        OfEachAct p (λ st bits. WritesOnce p st bits m) }
    ensures blocks { (p : Pipe) → Sound p → Strict p → Careful p →
        OfEachAct p (λ st bits. IsLet p st) }
{}

/// Releases are of the releasing thread's own writes, the oldest pending ones, whose values are there or come in this cycle; and it is no younger than a thread with a block, a read or a write of the memory still to come, or that awaits one.
pub fn releases()
    ensures own { (p : Pipe) → Sound p → Strict p → (m : ℕ) →
        OfEachAct p (λ st bits. ReleasesOwn p st bits m) }
    ensures written { (p : Pipe) → Sound p → Strict p → (m : ℕ) →
        InEachCycle p (λ st bits. ReleasesWritten p st bits m) }
    ensures older { (p : Pipe) → Sound p → Strict p → (m : ℕ) →
        OfEachAct p (λ st bits. ReleasesOlder p st bits m) }
    ensures to_come { (p : Pipe) → Sound p → Strict p → (m : ℕ) →
        OfEachAct p (λ st bits. UsesOlder p st bits m) }
    ensures awaited { (p : Pipe) → Sound p → Strict p → (m : ℕ) →
        OfEachAct p (λ st bits. AwaitsOlder p st bits m) }
{}

/// Where a thread's squash cuts the pending writes of a lock, after its own and older ones: up to the stage of the reserves after all of them; from there on reservations, and squashes that leave the thread, keep that place, and up to V releases shift it by as many.
pub fn squashes()
    ensures all { (p : Pipe) → Sound p → Strict p → (m : ℕ) →
        OfEachAct p (λ st bits. FindsAll p st bits m) }
    ensures kept { (p : Pipe) → Sound p → Strict p → (m : ℕ) →
        OfEachAct p (λ st bits. KeepsTail p st bits m) }
    ensures shifts { (p : Pipe) → Sound p → Strict p → (m : ℕ) →
        OfEachAct p (λ st bits. ShiftsTail p st bits m) }
    ensures left { (p : Pipe) → Sound p → Strict p → (m : ℕ) →
        OfEachAct p (λ st bits. LeavesTail p st bits m) }
    ensures cuts { (p : Pipe) → Sound p → Strict p → (m : ℕ) →
        InEachCycle p (λ st bits. Cuts p st bits m) }
    ensures by_stages { (p : Pipe) → Sound p → Strict p → InEachCycle p (IsCut p) }
{}

/// What the use of the locks takes beside Sound and Strict holds of every accepted pipe, no two `if`s on expressions of which begin at one byte, as in every tree that is read from a source; and of every flat pipe that passes its test.
pub fn careful()
    ensures source { (p : Tree.Pipe) → KeepsRules p → IsTrue (is_source p) → Careful (flat p) }
    ensures tested { (p : Pipe) → IsTrue (is_careful p) → Careful p }
{}

/// Proper use of the locks in each run of an accepted pipe, where no variable has the empty name.
pub fn accepted()
    ensures { (p : Tree.Pipe) → KeepsRules p → IsTrue (is_source p) → IsTrue (is_named p) →
        InEachCycle (flat p) (IsInUse (flat p)) }
{
    pdl_source_paths::sound();
    pdl_source_strict::strict();
    careful();
    in_use();
}
