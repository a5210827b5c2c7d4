// The stages of a pipe.
ghost use Rattle.std.specs.Prelude.{◌≡◌, ◌<◌, ◌==◌, length, slice_index, slice_index_or, IfOk};
ghost use Rattle.pdl_semantics.specs.Stages.{last_stage};
ghost use Rattle.pdl_form.specs.FormView.{form};
ghost use Rattle.pdl_form.specs.View.{stages_view, next_view};
ghost use Rattle.pdl_stages.specs.Graph.{graph_with, forks_in, way};
ghost use Rattle.pdl_stages.specs.Forks.{forks_view};

use crate::depth::depth;
use crate::fork::Fork;
use pdl_form::{FlatPipe, FlatStage, Next};
use pdl_kit::NoMemory;
use std::alloc::Global;
use std::marker::Model;

/// The stages of a pipe, numbered from 0 in the order in which they begin in the text, its forks, and the stage of each of its places.
#[derive(Drop)]
pub struct StageGraph {
    stages: Vec<FlatStage>,
    forks: Vec<Fork>,
    places: Vec<usize>,
    depth: usize,
}

impl Model for StageGraph {
    ghost use Rattle.pdl_form.specs.View.{stages_view};
    ghost use Rattle.pdl_stages.specs.Graph.{Graph};
    ghost use Rattle.pdl_stages.specs.Forks.{forks_view};

    ghost Value = { Graph };

    ghost view = { λ g. record {
      stages = stages_view g.stages.items;
      forks = forks_view g.forks.items;
      places = g.places.items;
      depth = g.depth;
    } };
}

// The forks of these stages, in the order of their merges.
fn forks_of(alloc: Global, stages: &[FlatStage]) -> Result<Vec<Fork>, NoMemory>
    ensures { IfOk result (λ fs. forks_view fs.items ≡ forks_in 0 (stages_view stages.now)) }
{
    let mut forks = Vec::new(alloc);
    for (merge, next) in stages.iter().enumerate() {
        if let Some(stage) = next.merges {
            forks.push(Fork { stage, merge })?;
        }
    }
    Ok(forks)
}

/// The stages of a pipe in flat form, whose places stand in these stages.
pub fn stage_graph(
    alloc: Global,
    flat: &FlatPipe,
    places: Vec<usize>,
) -> Result<StageGraph, NoMemory>
    ensures { IfOk result (λ g. g ≡ graph_with (form flat.now).pipe places.items) }
{
    let stages = Vec::from_slice(alloc, flat.stages())?;
    let forks = forks_of(alloc, flat.stages())?;
    let depth = depth(alloc, flat)?;
    Ok(StageGraph {
        stages,
        forks,
        places,
        depth,
    })
}

impl StageGraph {
    /// How many stages there are.
    pub fn count(&self) -> usize
        ensures { result ≡ length self.now.stages }
    {
        self.stages.len()
    }

    /// The stage to which a stage leads, on paths that take the first branch at it, or the second.
    pub fn next(&self, stage: usize, first: bool) -> Option<usize>
        requires { stage < length self.now.stages }
        ensures { result ≡ way (slice_index_or self.now.stages stage last_stage).next first }
    {
        match self.stages[stage].next {
            Next::Ends => None,
            Next::Goes(to) => Some(to),
            Next::Forks {
                x: _,
                first: a,
                second: b,
            } => Some(if first { a } else { b }),
        }
    }

    /// The forks, in the order of their merges.
    pub fn forks(&self) -> &[Fork]
        ensures { forks_view result.now ≡ self.now.forks }
    {
        self.forks.as_slice()
    }

    /// Whether a stage stands in no branch.
    pub fn is_trunk(&self, stage: usize) -> bool
        requires { stage < length self.now.stages }
        ensures { result
            ≡ (length (slice_index_or self.now.stages stage last_stage).branches == 0) }
    {
        let branches = self.stages[stage].branches;
        branches.first.is_none()
            && branches.second.is_none()
            && branches.third.is_none()
            && branches.fourth.is_none()
    }

    /// The stage of a place, by its number among all places counted from 0. Of a `---` it is the stage that it ends.
    pub fn stage_of(&self, place: usize) -> usize
        requires { place < length self.now.places }
        ensures { result ≡ slice_index self.now.places place }
    {
        self.places[place]
    }

    /// The greatest number of stages on a path.
    pub fn depth(&self) -> usize
        ensures { result ≡ self.now.depth }
    {
        self.depth
    }
}
