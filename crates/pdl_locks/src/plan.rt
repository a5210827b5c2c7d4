// The stages in which memories are reserved and released.
ghost use Rattle.std.specs.Prelude.{◌≡◌, map, slice_get, IfOk};
ghost use Rattle.pdl_semantics.specs.Tree as tree;
ghost use Rattle.pdl_syntax_tree.specs.View.{mem_view, pipe_view};
ghost use Rattle.pdl_rules.specs.Places.{places as spec_places};
ghost use Rattle.pdl_paths.specs.Actions.{place_view};
ghost use Rattle.pdl_rules_stages.specs.Stages.{stages_in};
ghost use Rattle.pdl_locks.specs.Plan as spec;

use pdl_kit::NoMemory;
use pdl_paths::Place;
use pdl_rules_stages::{SoughtPlace, first_stage};
use pdl_syntax_tree::{Mem, Pipe};
use std::alloc::Global;
use std::marker::Model;

// The stages of a memory's reserves and of its releases.
#[derive(Clone, Copy)]
struct MemStages {
    reserved: Option<usize>,
    released: Option<usize>,
}

/// The stages in which each memory of a pipe is reserved and released, in the order of the memories.
#[derive(Drop)]
pub struct LockPlan {
    mems: Vec<MemStages>,
}

impl Model for LockPlan {
    ghost use Rattle.std.specs.Prelude.{List};
    ghost use Rattle.pdl_locks.specs.declared.plan.MemStages as stages;

    ghost Value = { List stages.MemStages };

    ghost view = { λ s. s.mems.items };
}

impl LockPlan {
    /// The plan of a pipe with these places and their stages.
    pub fn of(
        alloc: Global,
        pipe: &Pipe,
        places: &[Place<'_>],
        stages: &[usize],
    ) -> Result<LockPlan, NoMemory>
        requires stages { stages.now ≡ stages_in (map place_view places.now) }
        requires of { map place_view places.now ≡ spec_places (pipe_view pipe.now) }
        ensures { IfOk result (λ plan. plan ≡ spec.plan_of (pipe_view pipe.now)) }
    {
        let mut mems = Vec::new(alloc);
        for mem in pipe.mems.as_slice() {
            mems.push(stages_of(places, stages, mem))?;
        }
        Ok(LockPlan { mems })
    }

    /// The stage in which the m-th memory is reserved, none where it never is.
    pub fn reserved(&self, m: usize) -> Option<usize>
        ensures { result ≡ spec.reserved_of (slice_get self.now m) }
    {
        match self.mems.get(m) {
            Some(mem) => mem.reserved,
            None => None,
        }
    }

    /// The stage in which the m-th memory is released, none where it never is.
    pub fn released(&self, m: usize) -> Option<usize>
        ensures { result ≡ spec.released_of (slice_get self.now m) }
    {
        match self.mems.get(m) {
            Some(mem) => mem.released,
            None => None,
        }
    }
}

fn stages_of(places: &[Place<'_>], stages: &[usize], mem: &Mem) -> MemStages
    requires { stages.now ≡ stages_in (map place_view places.now) }
    ensures { (p : tree.Pipe) → map place_view places.now ≡ spec_places p →
        result ≡ spec.stages_of p (mem_view mem.now) }
{
    MemStages {
        reserved: first_stage(places, stages, SoughtPlace::Reserve(&mem.name.name)),
        released: first_stage(places, stages, SoughtPlace::Release(&mem.name.name)),
    }
}
