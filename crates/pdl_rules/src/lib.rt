//! The rules that a source has to keep, as definitions over its tree: its places, its paths, and one definition for each rule.
//!
//! The layers above may use `breaks_rule` and `refusal` of `Refusal`, `parts_of` of `Parts`, the record `KeepsRules`, and the lemmas on them; no function stands here.
#![tactic(auto)]
