// The flat form of a whole pipe.
ghost use Rattle.std.specs.Prelude.{◌≡◌, ◌≤◌, [], map, IfOk, OnOk};
ghost use Rattle.pdl_semantics.specs.Flatten as spec;
ghost use Rattle.pdl_syntax_tree.specs.View.{pipe_view};
ghost use Rattle.pdl_form.specs.View.{stmts_view, stages_view, mems_view, mem_names};
ghost use Rattle.pdl_form.specs.Form.{form_of, names_of};
ghost use Rattle.pdl_form.specs.FormView.{form};
ghost use Rattle.pdl_form_lower.specs.Sized.{AreSizedMems};
ghost use Rattle.pdl_form_lower.specs.Lowerable.{IsLowerablePipe};
ghost use Rattle.pdl_form_lower.specs.Walking.{place_of};

use crate::body::statements;
use crate::parts::{memories, params, start};
use crate::vars::Vars;
use crate::walk::{StmtContext, Walk};
use pdl_form::{FlatMem, FlatPipe, FlatStage, NO_BRANCHES, Next};
use pdl_kit::{NoMemory, Seq};
use pdl_rules_widths::Variables;
use pdl_syntax_tree::Pipe;
use pdl_word::Word;
use std::alloc::Global;

// The walk over the whole body.
fn walk_over<'v>(alloc: Global, pipe: &Pipe, variables: &'v Variables) -> Result<Walk<'v>, NoMemory>
    requires lowerable { IsLowerablePipe variables.now (pipe_view pipe.now) }
    requires few { spec.separators (pipe_view pipe.now).body ≤ 63 }
    ensures vars { IfOk result (λ w.
        w.vars.vars ≡ (spec.past_all (pipe_view pipe.now).mems (pipe_view pipe.now).body
        (spec.at_start (pipe_view pipe.now))).vars) }
    ensures stmts { IfOk result (λ w.
        stmts_view w.stmts.items ≡ spec.flat_stmts (pipe_view pipe.now).mems []
        (pipe_view pipe.now).body (spec.at_start (pipe_view pipe.now))) }
    ensures stages { IfOk result (λ w.
        stages_view w.stages.items ≡ spec.stages_of (pipe_view pipe.now)) }
{
    let mut walk = Walk {
        vars: params(alloc, variables, pipe.params.as_slice())?,
        stmts: Vec::new(alloc),
        stages: Vec::new(alloc),
        stage: 0,
        begun: 0,
    };
    walk_body(alloc, &mut walk, pipe)?;
    Ok(walk)
}

// Walks over the whole body, where nothing but the parameters is known.
fn walk_body(alloc: Global, walk: &mut Walk<'_>, pipe: &Pipe) -> Result<(), NoMemory>
    requires lowerable { IsLowerablePipe walk.old.vars.table (pipe_view pipe.now) }
    requires few { spec.separators (pipe_view pipe.now).body ≤ 63 }
    requires place { place_of walk.old ≡ spec.at_start (pipe_view pipe.now) }
    requires stmts { walk.old.stmts.items ≡ [] }
    requires stages { walk.old.stages.items ≡ [] }
    ensures vars { OnOk result (
        walk.new.vars.vars ≡ (spec.past_all (pipe_view pipe.now).mems (pipe_view pipe.now).body
        (spec.at_start (pipe_view pipe.now))).vars) }
    ensures stmts { OnOk result (
        stmts_view walk.new.stmts.items ≡ spec.flat_stmts (pipe_view pipe.now).mems []
        (pipe_view pipe.now).body (spec.at_start (pipe_view pipe.now))) }
    ensures stages { OnOk result (
        stages_view walk.new.stages.items ≡ spec.stages_of (pipe_view pipe.now)) }
{
    walk.stages.push(FlatStage {
        next: Next::Ends,
        branches: NO_BRANCHES,
        merges: None,
    })?;
    let round = StmtContext {
        guards: Seq::new(alloc),
        branches: NO_BRANCHES,
        exit: Next::Ends,
    };
    statements(
        alloc,
        walk,
        pipe.mems.as_slice(),
        &round,
        pipe.body.as_slice(),
    )
}

// The parts of a flat form that don't come from the walk itself.
#[derive(Drop)]
struct FormParts {
    widths: Vec<u8>,
    mems: Vec<FlatMem>,
    start: Vec<Word>,
}

// The widths of these variables, and a pipe's memories and start arguments.
fn parts_beside(alloc: Global, pipe: &Pipe, vars: &Vars<'_>) -> Result<FormParts, NoMemory>
    requires { AreSizedMems (pipe_view pipe.now).mems }
    ensures widths { IfOk result (λ r.
        r.widths.items ≡ map (λ (v : spec.Var). v.width) vars.now.vars) }
    ensures mems { IfOk result (λ r. mems_view r.mems.items
        ≡ spec.mems_of (pipe_view pipe.now).mems) }
    ensures names { IfOk result (λ r. mem_names r.mems.items
        ≡ names_of (pipe_view pipe.now).mems) }
    ensures start { IfOk result (λ r. r.start.items
        ≡ spec.start_of (pipe_view pipe.now).start.args) }
{
    let widths = vars.widths(alloc)?;
    let mems = memories(alloc, pipe.mems.as_slice())?;
    let start = start(alloc, pipe.start.args.as_slice())?;
    Ok(FormParts {
        widths,
        mems,
        start,
    })
}

/// The flat form of a pipe that has these variables.
pub fn lower(alloc: Global, pipe: &Pipe, variables: &Variables) -> Result<FlatPipe, NoMemory>
    requires lowerable { IsLowerablePipe variables.now (pipe_view pipe.now) }
    requires few { spec.separators (pipe_view pipe.now).body ≤ 63 }
    ensures { IfOk result (λ f. form f ≡ form_of (pipe_view pipe.now)) }
{
    let walk = walk_over(alloc, pipe, variables)?;
    let FormParts {
        widths,
        mems,
        start,
    } = parts_beside(alloc, pipe, &walk.vars)?;
    FlatPipe::new(alloc, widths, mems, walk.stmts, walk.stages, start)
}
