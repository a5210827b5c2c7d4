//! The law of the netlist of a pipe of the whole language, with delayed memories, guesses and forks, by the laws of the circuits beside the stages. What it means that a netlist follows such a pipe, and what one that does writes and prints.
//!
//! The functions do nothing: the clauses of `whole_pipe` are what the law takes of an accepted source, and those of `followed` theorems on every netlist that follows one. The law itself, `shows_source` of `ShowsSource`, speaks of any locks and circuits by their laws, so it is no clause: the layers above show `IsMadeWhole` of a netlist and use it. That a netlist which is made of such a source by the laws of its circuits follows it, `follows` of `FollowsMade`, is no clause either: there the layers above show `IsMade`.
#![tactic(auto)]

ghost use Rattle.std.specs.Prelude.{◌≡◌, ℕ, IsTrue, Bool, List};
ghost use Rattle.pdl_semantics.specs.Tree.{Pipe};
ghost use Rattle.pdl_semantics.specs.Flat.{Arrays};
ghost use Rattle.pdl_semantics.specs.Flatten.{flat};
ghost use Rattle.pdl_semantics.specs.Cycle.{first, state_after};
ghost use Rattle.pdl_rules.specs.Memories.{infos_of};
ghost use Rattle.pdl_image.specs.Images.{IsImage, image as words_in};
ghost use Rattle.pdl_rules.specs.Refusal.{KeepsRules};
ghost use Rattle.pdl_source_paths.specs.Source.{is_source, is_named};
ghost use Rattle.pdl_net.specs.declared.Netlist.{Netlist};
ghost use Rattle.pdl_law_follows.specs.StandingStates.{IsLawful, IsKnown};
ghost use Rattle.pdl_law_follows.specs.Memories.{taken_in_order};
ghost use Rattle.pdl_law_follows.specs.Follows.{Follows};
ghost use Rattle.pdl_law_follows.specs.Runs.{ShowsTurns};
ghost use Rattle.pdl_law_follows.specs.Refined.{RefinesThreads, MovesOldest, EndsThreads};
ghost use Rattle.pdl_law_follows.specs.Promised.{IsRunOf};

/// What the law of a netlist takes of a source that breaks no rule: of its text and stages, and of each cycle of its runs, whatever the image and the replies.
pub fn whole_pipe()
    ensures lawful { (p : Pipe) → KeepsRules p → IsTrue (is_source p) →
        IsTrue (is_named p) → IsLawful (flat p) }
    ensures known { (p : Pipe) → KeepsRules p → IsTrue (is_source p) →
        IsTrue (is_named p) → (image : Arrays) (before : List (List Bool)) (bits : List Bool) →
        IsKnown (flat p) (state_after (flat p) (first (flat p) image) before) bits }
{}

/// What follows an accepted source: from each image and with each schedule of replies it has the lines of the source's machine, it writes what the threads write that run one after another, its oldest thread moves in each cycle that leaves no request unanswered, and enough threads end. An image file gives its memories what it gives the source's, in another order, or is refused as it is for these.
pub fn followed()
    ensures turns { (p : Pipe) → KeepsRules p → IsTrue (is_source p) →
        IsTrue (is_named p) → (n : Netlist) → Follows p n → ShowsTurns p n }
    ensures writes { (p : Pipe) → KeepsRules p → IsTrue (is_source p) →
        IsTrue (is_named p) → (n : Netlist) → Follows p n → RefinesThreads p n }
    ensures moves { (p : Pipe) → KeepsRules p → IsTrue (is_source p) →
        IsTrue (is_named p) → (n : Netlist) → Follows p n → MovesOldest p n }
    ensures ends { (p : Pipe) → KeepsRules p → IsTrue (is_source p) →
        IsTrue (is_named p) → (n : Netlist) → Follows p n → EndsThreads p n }
    ensures runs { (p : Pipe) → KeepsRules p → IsTrue (is_source p) →
        IsTrue (is_named p) → (n : Netlist) → Follows p n → (image : List (List ℕ)) (schedule : List ℕ) →
        IsImage n.mems image → IsRunOf p n image schedule }
    ensures images { (p : Pipe) → KeepsRules p → (n : Netlist) → Follows p n → (text : List ℕ) →
        words_in (infos_of p.mems) text ≡ taken_in_order (flat p) (words_in n.mems text) }
{}
