//! Facts of the threads in flight, by their stages, that name no circuit: who awaits which answer, whom a squash removes and for whom a barrier waits, where the threads of the next state come from, and how long a fork's list gets.
//!
//! The function does nothing: its clause is a theorem on the states that runs of the machine of `pdl_semantics` come to; the layers above use the lemmas of `proofs/` too.
#![tactic(auto)]

ghost use Rattle.std.specs.Prelude.{Bool, List};
ghost use Rattle.pdl_semantics.specs.Flat.{Arrays, Pipe};
ghost use Rattle.pdl_semantics.specs.Cycle.{first, state_after};
ghost use Rattle.pdl_theory_turns.specs.Facts.{Sound};
ghost use Rattle.pdl_theory_states.specs.Strict.{Strict};
ghost use Rattle.pdl_machine_inflight.specs.Readings.{Reads};
ghost use Rattle.pdl_machine_inflight.specs.InFlight.{InFlight};

/// In each state that a run comes to threads have different numbers and stand in order; what a thread awaits is outstanding as its own, and each request that is no orphan is awaited by its owner in a stage to which the memory's delayed read leads; and a fork's list is no longer than its branches have stages.
pub fn in_flight()
    ensures { (p : Pipe) → Sound p → Strict p → Reads p → (image : Arrays)
        (before : List (List Bool)) → InFlight p (state_after p (first p image) before) }
{}
