//! What the rules of the language say of the statements on each path of an accepted pipe.
//!
//! The functions do nothing: the clauses are facts of every pipe that breaks no rule, on each path of its flat form, where a delayed read is a read; and so all facts that the theorems on the whole language take. No two `if`s on expressions may begin at one byte, and for all facts no variable may have the empty name: so it is in every tree that is read from a source.
#![tactic(auto)]

ghost use Rattle.std.specs.Prelude.{ℕ, false, IsTrue, List, None};
ghost use Rattle.pdl_semantics.specs.Tree.{Pipe};
ghost use Rattle.pdl_semantics.specs.Flatten.{flat};
ghost use Rattle.pdl_semantics.specs.Stages.{onpath, verify_stage};
ghost use Rattle.pdl_rules.specs.Refusal.{KeepsRules};
ghost use Rattle.pdl_theory_turns.specs.Scans.{no_scan};
ghost use Rattle.pdl_theory_turns.specs.GuessScans.{Unmade, makings_ok, making_all, is_made, checks_apart, all_sure};
ghost use Rattle.pdl_theory_turns.specs.Facts.{at_once, Sound};
ghost use Rattle.pdl_theory_turns.specs.Accepted.{Accepted, along};
ghost use Rattle.pdl_source_paths.specs.Source.{is_source, is_named};

/// The statements on each path: in the order of their stages, with locks, calls, guesses and releases as the rules have them, and each check in another stage than its guess.
pub fn paths()
    ensures accepted { (p : Pipe) → KeepsRules p → IsTrue (is_source p) → (path : List ℕ) →
        Accepted (along path (at_once (flat p))) }
    ensures makings { (p : Pipe) → KeepsRules p → IsTrue (is_source p) → (path : List ℕ) →
        IsTrue (makings_ok (verify_stage (at_once (flat p)).stmts) Unmade
        (onpath path (at_once (flat p)).stmts)) }
    ensures apart { (p : Pipe) → KeepsRules p → IsTrue (is_source p) → (path : List ℕ) →
        IsTrue (checks_apart None (onpath path (at_once (flat p)).stmts)) }
    ensures made { (p : Pipe) → KeepsRules p → IsTrue (is_source p) → (path : List ℕ) →
        IsTrue (is_made (making_all Unmade (onpath path (at_once (flat p)).stmts))) }
    ensures sure { (p : Pipe) → KeepsRules p → IsTrue (is_source p) → (path : List ℕ) →
        IsTrue (all_sure (verify_stage (at_once (flat p)).stmts) false no_scan
        (onpath path (at_once (flat p)).stmts)) }
{}

/// All facts of an accepted pipe that the theorems on the whole language take.
pub fn sound()
    ensures { (p : Pipe) → KeepsRules p → IsTrue (is_source p) → IsTrue (is_named p) →
        Sound (flat p) }
{}
