//! Pipeline refinement and Progress, of every pipe of the whole language.
//!
//! First it is shown of the machine that the proofs use: its live threads follow the sequential turns, what it commits is what they write, its oldest thread advances, and enough threads end.
//!
//! The functions do nothing: the clause of each is a theorem on the machine of `pdl_semantics`, over any flat pipe with the facts of an accepted one (`Sound`), any image and any replies of delayed memories. A pipe that passes the tests of `SoundChecks` has these facts.
#![tactic(auto)]

ghost use Rattle.std.specs.Prelude.{◌≡◌, ℕ, Bool, IsTrue, List, length};
ghost use Rattle.pdl_semantics.specs.Flat.{Arrays, Pipe};
ghost use Rattle.pdl_semantics.specs.Tree;
ghost use Rattle.pdl_semantics.specs.Flatten.{flat};
ghost use Rattle.pdl_semantics.specs.Sequential.{threads};
ghost use Rattle.pdl_semantics.specs.Lines.{run_lines, sequential_lines};
ghost use Rattle.pdl_semantics.specs.Cycle.{first, turns};
ghost use Rattle.pdl_semantics.specs.Promises.{Refines, Advances, KeepsPace, DifferInAdvice, AdviceIsIdle};
ghost use Rattle.pdl_semantics.specs.Updates.{WritesAlike, CommitsAlike, not_updated};
ghost use Rattle.pdl_theory_turns.specs.Facts.{Sound};
ghost use Rattle.pdl_theory_turns.specs.SoundChecks.{passes_tests};
ghost use Rattle.pdl_theory_turns.specs.Alone;
ghost use Rattle.pdl_theory_turns.specs.Simulation.{SameTurns, hints_of};
ghost use Rattle.pdl_theory_turns.specs.OneStage.{AreThreads};
ghost use Rattle.pdl_theory_turns.specs.Derived.{Hint};
ghost use Rattle.pdl_theory_turns.specs.Derived;

/// Pipeline refinement and Progress in the whole language: guesses, delayed reads and forks.
pub fn whole_language()
    ensures refines { (p : Pipe) → Sound p → (image : Arrays) (schedule : List (List Bool)) →
        Refines p image schedule }
    ensures oldest_moves { (p : Pipe) → Sound p →
        (image : Arrays) (schedule : List (List Bool)) (bits : List Bool) →
        Advances p image schedule bits }
    ensures keeps_pace { (p : Pipe) → Sound p → (image : Arrays) (schedule : List (List Bool)) →
        KeepsPace p image schedule }
{}

/// The simulation: the machine that the proofs use, whose threads are given what they guess, has the same ports and waits in every cycle, of any pipe of the whole language.
pub fn simulation()
    ensures { (p : Pipe) → Sound p → (image : Arrays) (schedule : List (List Bool)) →
        SameTurns p (turns p image schedule)
        (Derived.turns p image (hints_of p (first p image) schedule) schedule) }
{}

/// What advisory memories hold changes no write: threads write the same, and of two runs one's commits begin with those of the other.
pub fn advice()
    ensures { (p : Pipe) → Sound p → (image other : Arrays) (schedule replies : List (List Bool)) →
        DifferInAdvice p image other → AdviceIsIdle p image other schedule replies }
{}

/// Updates change nothing but how soon: without them the threads of a pipe write the same, it has the facts of an accepted one where it has them with updates, and what is committed with them and without them, each with any replies, begins one list.
pub fn updates()
    ensures writes { (p : Pipe) → (image : Arrays) → WritesAlike p image }
    ensures sound { (p : Pipe) → Sound p → Sound (not_updated p) }
    ensures commits { (p : Pipe) → Sound p →
        (image : Arrays) (schedule replies : List (List Bool)) →
        CommitsAlike p image schedule replies }
{}

/// Both theorems for the machine that the proofs use, in the whole language, whatever its threads guess.
pub fn derived_whole()
    ensures refines { (p : Pipe) → Sound p → (image : Arrays) (hints : ℕ → Hint) (schedule : List (List Bool)) →
        Alone.Refines p image hints schedule }
    ensures oldest_moves { (p : Pipe) → Sound p →
        (image : Arrays) (hints : ℕ → Hint) (schedule : List (List Bool)) (bits : List Bool) →
        Alone.Advances p image hints schedule bits }
    ensures keeps_pace { (p : Pipe) → Sound p → (image : Arrays) (hints : ℕ → Hint) (schedule : List (List Bool)) →
        Alone.KeepsPace p image hints schedule }
{}

/// A pipe that passes the tests has the facts that the theorems take.
pub fn facts()
    ensures { (p : Pipe) → IsTrue (passes_tests p) → Sound p }
{}

/// One stage: in a pipe of one stage each cycle is a whole thread, and the machine prints the lines of the sequential run.
pub fn one_stage()
    ensures threads { (p : Pipe) → Sound p → length p.stages ≡ 1 →
        (image : Arrays) (schedule : List (List Bool)) →
        AreThreads (turns p image schedule) (threads p image (length schedule)) }
    ensures lines { (p : Tree.Pipe) → Sound (flat p) → length (flat p).stages ≡ 1 →
        (image : List (List ℕ)) (schedule : List (List Bool)) →
        run_lines p image schedule ≡ sequential_lines p image (length schedule) }
{}
