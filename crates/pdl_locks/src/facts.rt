// What the rules on locks are asked with.
ghost use Rattle.std.specs.Prelude.{◌≡◌, map, IfOk};
ghost use Rattle.pdl_syntax_tree.specs.View.{pipe_view};
ghost use Rattle.pdl_rules.specs.Places.{places as spec_places};
ghost use Rattle.pdl_paths.specs.Actions.{place_view};
ghost use Rattle.pdl_locks.specs.Facts.{AreFacts};

use crate::bound::last_stages;
use crate::numbers::{Keys, first_places};
use pdl_kit::NoMemory;
use pdl_paths::Place;
use pdl_rules_stages::stages_of;
use pdl_syntax_tree::Pipe;
use std::alloc::Global;

/// What is known of each place of a pipe by the text.
#[derive(Drop)]
pub struct LockFacts {
    /// Its stage.
    pub stages: Vec<usize>,
    /// The number of the first place at its location.
    pub locations: Vec<usize>,
    /// The number of the first place at a location of its memory.
    pub memories: Vec<usize>,
    /// The stage in which its memory is released, where that has a lock.
    pub last: Vec<Option<usize>>,
}

impl LockFacts {
    /// The facts of a pipe with these places.
    pub fn of(alloc: Global, pipe: &Pipe, places: &[Place<'_>]) -> Result<LockFacts, NoMemory>
        requires { map place_view places.now ≡ spec_places (pipe_view pipe.now) }
        ensures { IfOk result (λ facts. AreFacts (pipe_view pipe.now) places.now facts) }
    {
        let stages = stages_of(alloc, places)?;
        let locations = first_places(alloc, Keys::Locations, places)?;
        let memories = first_places(alloc, Keys::Memories, places)?;
        let last = last_stages(alloc, pipe, places, stages.as_slice())?;
        Ok(LockFacts {
            stages,
            locations,
            memories,
            last,
        })
    }
}
