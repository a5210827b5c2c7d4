//! From the rules of the language to the stage graph and the text of an accepted pipe's flat form.
//!
//! The functions do nothing: the clause of each is a theorem on every pipe that breaks no rule of the language, by the definitions of `pdl_rules`. The lemmas on the sites of a source (`proofs/Sites`, `Walks`, `Staged`, `Fine`) tie the rules' places to the flat statements for the layers above.
#![tactic(auto)]

ghost use Rattle.std.specs.Prelude.{◌≡◌, ℕ, suc, List, ◌∷◌, length};
ghost use Rattle.pdl_semantics.specs.Tree.{Pipe};
ghost use Rattle.pdl_semantics.specs.Flatten.{flat, separators, at_start};
ghost use Rattle.pdl_rules.specs.Refusal.{KeepsRules};
ghost use Rattle.pdl_source_stages.specs.StageFacts.{StageFacts};
ghost use Rattle.pdl_source_stages.specs.Visits.{visited_stages, begun_by};

/// The stage graph and the text of an accepted pipe: the facts that both theorems take of them.
pub fn stage_facts()
    ensures { (p : Pipe) → KeepsRules p → StageFacts (flat p) }
{}

/// The stages of an accepted pipe: one more than it has separators, and on each path a thread comes to stage 0 and then to those that the separators of the path begin, in text order.
pub fn stages()
    ensures count { (p : Pipe) → KeepsRules p → length (flat p).stages ≡ suc (separators p.body) }
    ensures visits { (p : Pipe) → KeepsRules p → (env : List ℕ) →
        visited_stages (flat p) env (length (flat p).stages) 0
        ≡ 0 ∷ begun_by env p.mems p.body (at_start p) }
{}
