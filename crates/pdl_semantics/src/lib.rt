//! What PDL means: the syntax tree, the flat form, paths and stages, the sequential run, the stated
//! machine with its lines, and the statements of both theorems; it knows no text, rule or netlist.
//! The layers above may use each definition of `specs/` and, of `proofs/`, the lemmas of `Facts` and
//! the words with which `Texts`, `Pipes` and `Features` write pipes and their rows.
#![tactic(auto)]
