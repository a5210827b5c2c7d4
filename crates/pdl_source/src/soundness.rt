// Pipeline refinement and Progress of accepted sources: the clause of each function is a theorem on every pipe that breaks no rule of the language, by the definitions of `pdl_rules`, and on the runs of the machine of `pdl_semantics`.
ghost use Rattle.std.specs.Prelude.{◌≡◌, ℕ, Bool, IsTrue, List, length};
ghost use Rattle.pdl_semantics.specs.Tree.{Pipe};
ghost use Rattle.pdl_semantics.specs.Flat.{Arrays};
ghost use Rattle.pdl_semantics.specs.Flatten.{flat};
ghost use Rattle.pdl_semantics.specs.Lines.{run_lines, sequential_lines};
ghost use Rattle.pdl_semantics.specs.Promises.{Refines, Advances, KeepsPace, DifferInAdvice, AdviceIsIdle};
ghost use Rattle.pdl_semantics.specs.UpdateFree.{UpdatesAreIdle, without_update};
ghost use Rattle.pdl_semantics.specs.Cycle.{first, turns};
ghost use Rattle.pdl_rules.specs.Refusal.{KeepsRules, is_one_stage};
ghost use Rattle.pdl_theory_turns.specs.Derived;
ghost use Rattle.pdl_theory_turns.specs.Simulation.{SameTurns, hints_of};
ghost use Rattle.pdl_source_paths.specs.Source.{is_source, is_named};

/// All accepted pipes, with guards, any locks, guesses, delayed reads and forks: each run commits what the sequential run writes, the oldest thread moves, enough threads end, and the machine that the proofs use, whose threads are given what they guess, has the same ports and waits. What advisory memories hold changes no write, nor do updates: the source without them breaks no rule, and writes the same, only later.
pub fn accepted()
    ensures refines { (p : Pipe) → KeepsRules p → IsTrue (is_source p) → IsTrue (is_named p) →
        (image : Arrays) (schedule : List (List Bool)) → Refines (flat p) image schedule }
    ensures oldest_moves { (p : Pipe) → KeepsRules p → IsTrue (is_source p) → IsTrue (is_named p) →
        (image : Arrays) (schedule : List (List Bool)) (bits : List Bool) →
        Advances (flat p) image schedule bits }
    ensures keeps_pace { (p : Pipe) → KeepsRules p → IsTrue (is_source p) → IsTrue (is_named p) →
        (image : Arrays) (schedule : List (List Bool)) → KeepsPace (flat p) image schedule }
    ensures simulation { (p : Pipe) → KeepsRules p → IsTrue (is_source p) → IsTrue (is_named p) →
        (image : Arrays) (schedule : List (List Bool)) →
        SameTurns (flat p) (turns (flat p) image schedule)
        (Derived.turns (flat p) image (hints_of (flat p) (first (flat p) image) schedule) schedule) }
    ensures advice { (p : Pipe) → KeepsRules p → IsTrue (is_source p) → IsTrue (is_named p) →
        (image other : Arrays) (schedule replies : List (List Bool)) →
        DifferInAdvice (flat p) image other → AdviceIsIdle (flat p) image other schedule replies }
    ensures updates { (p : Pipe) → KeepsRules p → IsTrue (is_source p) → IsTrue (is_named p) →
        (image : Arrays) (schedule replies : List (List Bool)) →
        UpdatesAreIdle p image schedule replies }
    ensures free { (p : Pipe) → KeepsRules p → KeepsRules (without_update p) }
{}

/// Accepted pipes of one stage: the lines of each run are those of the sequential run.
pub fn one_stage()
    ensures { (p : Pipe) → KeepsRules p → IsTrue (is_source p) → IsTrue (is_named p) →
        IsTrue (is_one_stage p) → (image : List (List ℕ)) (schedule : List (List Bool)) →
        run_lines p image schedule ≡ sequential_lines p image (length schedule) }
{}
