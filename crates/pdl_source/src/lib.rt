//! From source texts to the promises: the tree of each text has the two properties that the theorems on accepted pipes take, so they hold of every text that keeps the rules.
//!
//! The functions change nothing: each clause is a theorem on every text of the grammar of `pdl_syntax_grammar`.
#![tactic(auto)]

mod soundness;

ghost use Rattle.std.specs.Prelude.{ℕ, Bool, IsTrue, List};
ghost use Rattle.pdl_semantics.specs.Tree.{Pipe};
ghost use Rattle.pdl_semantics.specs.Flat.{Arrays};
ghost use Rattle.pdl_semantics.specs.Flatten.{flat};
ghost use Rattle.pdl_semantics.specs.Promises.{Refines, Advances, KeepsPace, DifferInAdvice, AdviceIsIdle};
ghost use Rattle.pdl_semantics.specs.UpdateFree.{UpdatesAreIdle};
ghost use Rattle.pdl_semantics.specs.Cycle.{first, state_after, turns, ended_in};
ghost use Rattle.pdl_semantics.specs.Sound.{is_sound};
ghost use Rattle.pdl_syntax_grammar.specs.Text.{IsText};
ghost use Rattle.pdl_rules.specs.Refusal.{KeepsRules};
ghost use Rattle.pdl_theory_turns.specs.Derived;
ghost use Rattle.pdl_theory_turns.specs.Simulation.{SameTurns, hints_of};
ghost use Rattle.pdl_theory_turns.specs.Facts.{Sound};
ghost use Rattle.pdl_theory_states.specs.Strict.{Strict};
ghost use Rattle.pdl_source_paths.specs.Source.{is_source, is_named};

pub use soundness::{accepted, one_stage};

/// The tree of a text: no two `if`s on expressions begin at one byte, and no variable has the empty name.
pub fn trees()
    ensures source { (text : List ℕ) (p : Pipe) → IsText text p → IsTrue (is_source p) }
    ensures named { (text : List ℕ) (p : Pipe) → IsText text p → IsTrue (is_named p) }
{}

/// All facts of the flat form of each text that keeps the rules: those that both theorems take, and what Sound state takes beside them.
pub fn facts()
    ensures sound { (text : List ℕ) (p : Pipe) → IsText text p → KeepsRules p → Sound (flat p) }
    ensures strict { (text : List ℕ) (p : Pipe) → IsText text p → KeepsRules p → Strict (flat p) }
{
    trees();
    pdl_source_paths::sound();
    pdl_source_strict::strict();
}

/// The promises of each text that keeps the rules, with guards, any locks, guesses, delayed reads and forks: each run commits what the sequential run writes, the oldest thread moves, enough threads end, and the machine that the proofs use, whose threads are given what they guess, has the same ports and waits. What advisory memories hold changes no write, nor do updates: the source without them writes the same, only later.
pub fn promises()
    ensures refines { (text : List ℕ) (p : Pipe) → IsText text p → KeepsRules p →
        (image : Arrays) (schedule : List (List Bool)) → Refines (flat p) image schedule }
    ensures oldest_moves { (text : List ℕ) (p : Pipe) → IsText text p → KeepsRules p →
        (image : Arrays) (schedule : List (List Bool)) (bits : List Bool) →
        Advances (flat p) image schedule bits }
    ensures keeps_pace { (text : List ℕ) (p : Pipe) → IsText text p → KeepsRules p →
        (image : Arrays) (schedule : List (List Bool)) → KeepsPace (flat p) image schedule }
    ensures simulation { (text : List ℕ) (p : Pipe) → IsText text p → KeepsRules p →
        (image : Arrays) (schedule : List (List Bool)) →
        SameTurns (flat p) (turns (flat p) image schedule)
        (Derived.turns (flat p) image (hints_of (flat p) (first (flat p) image) schedule) schedule) }
    ensures advice { (text : List ℕ) (p : Pipe) → IsText text p → KeepsRules p →
        (image other : Arrays) (schedule replies : List (List Bool)) →
        DifferInAdvice (flat p) image other → AdviceIsIdle (flat p) image other schedule replies }
    ensures updates { (text : List ℕ) (p : Pipe) → IsText text p → KeepsRules p →
        (image : Arrays) (schedule replies : List (List Bool)) →
        UpdatesAreIdle p image schedule replies }
{
    trees();
    accepted();
}

/// Every state that a run of such a text comes to passes the whole test of Sound state, with as many turns ended as threads.
pub fn sound_states()
    ensures { (text : List ℕ) (p : Pipe) → IsText text p → KeepsRules p →
        (image : Arrays) (schedule : List (List Bool)) →
        IsTrue (is_sound (flat p) image (ended_in (turns (flat p) image schedule))
        (state_after (flat p) (first (flat p) image) schedule)) }
{
    facts();
    pdl_theory_states::sound_state();
}
