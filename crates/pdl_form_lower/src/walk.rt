// What a walk over the statements of a pipe makes, and how it goes from stage to stage.
ghost use Rattle.std.specs.Prelude.{◌≡◌, ◌<◌, true, false, length, OnOk};
ghost use Rattle.pdl_semantics.specs.Flatten as spec;
ghost use Rattle.pdl_form.specs.View.{stages_view, next_view, branches_view};
ghost use Rattle.pdl_form_lower.specs.Walking.{place_of, IsWhole, closed_stages, leading, with_merge_at};

use crate::vars::Vars;
use pdl_form::{FlatBranches, FlatGuard, FlatStage, FlatStmt, Next};
use pdl_kit::{NoMemory, Seq};

/// What a walk has made: the variables, statements and stages so far. It stands in `stage`, and `begun` is the last stage that has begun.
#[derive(Drop)]
pub struct Walk<'v> {
    pub vars: Vars<'v>,
    pub stmts: Vec<FlatStmt>,
    pub stages: Vec<FlatStage>,
    pub stage: usize,
    pub begun: usize,
}

/// What stands round some statements: their guards, the branches of forks, and where their last stage leads.
#[derive(Drop)]
pub struct StmtContext {
    pub guards: Seq<FlatGuard>,
    pub branches: FlatBranches,
    pub exit: Next,
}

/// Lets a stage lead elsewhere.
pub fn lead(stages: &mut Vec<FlatStage>, k: usize, next: Next)
    requires { k < length stages.old.items }
    ensures stages { stages_view stages.new.items
        ≡ leading k (next_view next) (stages_view stages.old.items) }
    ensures len { length stages.new.items ≡ length stages.old.items }
{
    let mut stage = stages[k];
    stage.next = next;
    stages[k] = stage;
}

/// Marks a stage as the merge of a fork.
pub fn mark(stages: &mut Vec<FlatStage>, k: usize, fork: usize)
    requires { k < length stages.old.items }
    ensures stages { stages_view stages.new.items
        ≡ with_merge_at k fork (stages_view stages.old.items) }
    ensures len { length stages.new.items ≡ length stages.old.items }
{
    let mut stage = stages[k];
    stage.merges = Some(fork);
    stages[k] = stage;
}

// Begins a stage after the one in which the walk stands.
fn begin_after(walk: &mut Walk<'_>, branches: FlatBranches) -> Result<(), NoMemory>
    requires { IsWhole walk.old }
    ensures place { OnOk result (place_of walk.new ≡ spec.next_position (place_of walk.old)) }
    ensures table { OnOk result (walk.new.vars.table ≡ walk.old.vars.table) }
    ensures stmts { OnOk result (walk.new.stmts.items ≡ walk.old.stmts.items) }
    ensures graph { OnOk result ((rest : spec.Graph) →
        closed_stages walk.new.stage false (stages_view walk.new.stages.items) rest
        ≡ closed_stages walk.old.stage false (stages_view walk.old.stages.items)
        (spec.graph_with_stage (branches_view branches) (place_of walk.old) rest)) }
    ensures whole { OnOk result (IsWhole walk.new) }
{
    let last = walk.stage;
    let next = walk.stages.len();
    walk.stages.push(FlatStage {
        next: Next::Ends,
        branches,
        merges: None,
    })?;
    lead(&mut walk.stages, last, Next::Goes(next));
    walk.stage = next;
    walk.begun = next;
    Ok(())
}

// Begins the stage after the fork in the one in which the walk stands.
fn begin_merge(walk: &mut Walk<'_>, branches: FlatBranches) -> Result<(), NoMemory>
    requires { IsWhole walk.old }
    ensures place { OnOk result (place_of walk.new ≡ spec.next_position (place_of walk.old)) }
    ensures table { OnOk result (walk.new.vars.table ≡ walk.old.vars.table) }
    ensures stmts { OnOk result (walk.new.stmts.items ≡ walk.old.stmts.items) }
    ensures graph { OnOk result ((rest : spec.Graph) →
        closed_stages walk.new.stage false (stages_view walk.new.stages.items) rest
        ≡ closed_stages walk.old.stage true (stages_view walk.old.stages.items)
        (spec.graph_with_stage (branches_view branches) (place_of walk.old) rest)) }
    ensures whole { OnOk result (IsWhole walk.new) }
{
    let fork = walk.stage;
    let next = walk.stages.len();
    walk.stages.push(FlatStage {
        next: Next::Ends,
        branches,
        merges: Some(fork),
    })?;
    walk.stage = next;
    walk.begun = next;
    Ok(())
}

/// Begins a stage after the one in which the walk stands, or after the fork in it.
pub fn begin(walk: &mut Walk<'_>, branches: FlatBranches, forked: bool) -> Result<(), NoMemory>
    requires { IsWhole walk.old }
    ensures place { OnOk result (place_of walk.new ≡ spec.next_position (place_of walk.old)) }
    ensures table { OnOk result (walk.new.vars.table ≡ walk.old.vars.table) }
    ensures stmts { OnOk result (walk.new.stmts.items ≡ walk.old.stmts.items) }
    ensures graph { OnOk result ((rest : spec.Graph) →
        closed_stages walk.new.stage false (stages_view walk.new.stages.items) rest
        ≡ closed_stages walk.old.stage forked (stages_view walk.old.stages.items)
        (spec.graph_with_stage (branches_view branches) (place_of walk.old) rest)) }
    ensures whole { OnOk result (IsWhole walk.new) }
{
    if forked {
        begin_merge(walk, branches)
    } else {
        begin_after(walk, branches)
    }
}
