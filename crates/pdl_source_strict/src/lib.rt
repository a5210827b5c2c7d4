//! From the rules of the language to what Sound state takes of a pipe beside the facts of a sound one.
//!
//! The function does nothing: its clause is a theorem on every pipe that breaks no rule of the language, by the definitions of `pdl_rules`.
#![tactic(auto)]

ghost use Rattle.std.specs.Prelude.{IsTrue};
ghost use Rattle.pdl_semantics.specs.Tree.{Pipe};
ghost use Rattle.pdl_semantics.specs.Flatten.{flat};
ghost use Rattle.pdl_rules.specs.Refusal.{KeepsRules};
ghost use Rattle.pdl_theory_states.specs.Strict.{Strict};
ghost use Rattle.pdl_source_paths.specs.Source.{is_source};

/// Each path of an accepted pipe binds a variable before it is used and once only, and lets go of each location that it blocks. No two `if`s on expressions may begin at one byte, as in every tree that is read from a source.
pub fn strict()
    ensures { (p : Pipe) → KeepsRules p → IsTrue (is_source p) → Strict (flat p) }
{}
