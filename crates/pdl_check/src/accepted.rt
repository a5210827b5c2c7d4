// Accepted pipes.
ghost use Rattle.std.specs.Prelude.{◌≡◌, IsTrue, is_some};
ghost use Rattle.std.specs.List.{list_any};
ghost use Rattle.pdl_syntax_tree.specs.View.{pipe_view};
ghost use Rattle.pdl_rules.specs.Places.{places, guards as guards_in};
ghost use Rattle.pdl_rules.specs.Refusal.{KeepsRules};
ghost use Rattle.pdl_rules.specs.Speculation.{is_update};
ghost use Rattle.pdl_locks.specs.Plan.{plan_of};
ghost use Rattle.pdl_rules_judge.specs.Plan.{spec_plan};
ghost use Rattle.pdl_semantics.specs.Flatten.{flat as flat_of};
ghost use Rattle.pdl_semantics.specs.Stages.{depth as depth_of};
ghost use Rattle.pdl_form.specs.Form.{form_of};
ghost use Rattle.pdl_form.specs.FormView.{form};
ghost use Rattle.pdl_form_types.specs.Same.{same_form};
ghost use Rattle.pdl_stages.specs.Graph.{graph_of};
ghost use Rattle.pdl_source_paths.specs.Source.{is_source, is_named};
ghost use Rattle.pdl_rules.specs.Memories.{infos_of};

use crate::typed_pipe::TypedPipe;
use pdl_form::FlatPipe;
use pdl_kit::{MemInfo, Seq};
use pdl_locks::LockPlan;
use pdl_paths::Guards;
use pdl_rules_judge::{Plans, SpecPlan};
use pdl_stages::StageGraph;
use pdl_syntax_tree::Pipe;

/// A pipe that is read from a text and breaks no rule, with the widths of its variables, its guards in text order, its memories in declared order, the stages of its locks, verifies and updates, its flat form, and its stages.
pub struct Accepted {
    pub typed: TypedPipe,
    pub guards: Guards,
    pub mems: Seq<MemInfo>,
    pub plans: Plans,
    pub flat: FlatPipe,
    pub graph: StageGraph,
    pub ghost source: { IsTrue (is_source (pipe_view typed.pipe)) },
    pub ghost letters: { IsTrue (is_named (pipe_view typed.pipe)) },
    pub ghost kept: { KeepsRules (pipe_view typed.pipe) },
    pub ghost guarded: { guards ≡ guards_in (places (pipe_view typed.pipe)) },
    pub ghost told: { mems ≡ infos_of (pipe_view typed.pipe).mems },
    pub ghost planned: { plans.locks ≡ plan_of (pipe_view typed.pipe) },
    pub ghost checked: { plans.spec ≡ spec_plan (pipe_view typed.pipe) },
    pub ghost lowered: { IsTrue (same_form (form flat) (form_of (pipe_view typed.pipe))) },
    pub ghost staged: { graph
        ≡ graph_of (flat_of (pipe_view typed.pipe)) (places (pipe_view typed.pipe)) },
}

// As the derive would, but by a call of its owners: docs/DECISIONS.md says why.
impl Drop for Accepted {
    fn drop(self) {
        let Accepted {
            typed: _,
            guards: _,
            mems: _,
            plans: _,
            flat: _,
            graph: _,
        } = self;
    }
}

impl Accepted {
    /// Lends the pipe.
    pub fn pipe(&self) -> &Pipe
        ensures { result.now ≡ self.now.typed.pipe }
    {
        self.typed.pipe()
    }

    /// Lends the pipe with the widths of its variables.
    pub fn typed(&self) -> &TypedPipe
        ensures { result.now ≡ self.now.typed }
    {
        &self.typed
    }

    /// Lends the guards in text order.
    pub fn guards(&self) -> &Guards
        ensures { result.now ≡ guards_in (places (pipe_view self.now.typed.pipe)) }
    {
        &self.guards
    }

    /// Lends the memories in declared order.
    pub fn mems(&self) -> &[MemInfo]
        ensures { result.now ≡ infos_of (pipe_view self.now.typed.pipe).mems }
    {
        self.mems.as_slice()
    }

    /// Lends the stages.
    pub fn graph(&self) -> &StageGraph
        ensures { result.now ≡ graph_of (flat_of (pipe_view self.now.typed.pipe))
            (places (pipe_view self.now.typed.pipe)) }
    {
        &self.graph
    }

    /// Lends the stages of the reserves and releases of each memory, in declared order; of a memory of which the text has no reserve, or no release, there is none.
    pub fn locks(&self) -> &LockPlan
        ensures { result.now ≡ plan_of (pipe_view self.now.typed.pipe) }
    {
        &self.plans.locks
    }

    /// Lends the stages of verifies and updates; of either there is none just where the text has no such statement.
    pub fn spec(&self) -> &SpecPlan
        ensures plan { result.now ≡ spec_plan (pipe_view self.now.typed.pipe) }
        ensures updated { is_some result.now.updated
            ≡ list_any is_update (places (pipe_view self.now.typed.pipe)) }
    {
        &self.plans.spec
    }

    /// Lends the flat form.
    pub fn flat(&self) -> &FlatPipe
        ensures { form result.now ≡ form_of (pipe_view self.now.typed.pipe) }
    {
        &self.flat
    }

    /// The greatest number of stages on a path, from 1 to 64.
    pub fn depth(&self) -> usize
        ensures { result ≡ depth_of (flat_of (pipe_view self.now.typed.pipe)) }
    {
        self.graph.depth()
    }
}
