//! The machine of a pipe, stage by stage: who moves, what comes into each stage, and what a netlist takes of how the threads use the locks.
//!
//! The function does nothing: its clause is a theorem on flat pipes and on the runs of the machine of `pdl_semantics`.
#![tactic(auto)]

ghost use Rattle.std.specs.Prelude.{◌≡◌, ◌<◌, Bool, List, length};
ghost use Rattle.pdl_semantics.specs.Flat.{Pipe};
ghost use Rattle.pdl_semantics.specs.Machine.{State};
ghost use Rattle.pdl_machine_facts.specs.Slots.{LeadsOn};
ghost use Rattle.pdl_machine_facts.specs.Cycle.{IsByStages};

/// Where threads go on to later stages, a cycle goes stage by stage, forks, squashes and waits included.
pub fn stages()
    ensures { (p : Pipe) → LeadsOn p → 0 < length p.stages → (st : State) (bits : List Bool) →
        length st.stages ≡ length p.stages → IsByStages p st bits }
{}
