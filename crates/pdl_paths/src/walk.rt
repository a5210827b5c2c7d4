// The places of a pipe.
ghost use Rattle.std.specs.Prelude.{◌≡◌, ◌++◌, List, [], ◌∷◌, map, IfOk, OnOk};
ghost use Rattle.pdl_syntax_tree.specs.View.{pipe_view, span_view, stmt_view, stmts_view};
ghost use Rattle.pdl_rules.specs.Places as rules;
ghost use Rattle.pdl_paths.specs.Actions.{place_at, place_view};
ghost use Rattle.pdl_paths.specs.Guards.{branch_view};
ghost use Rattle.pdl_paths.specs.Declarations.{parameter, memory};

use crate::action::{Action, action_of, span_of};
use crate::branch::{Branch, guard_of};
use crate::mask::EVERYWHERE;
use crate::place::Place;
use pdl_kit::{NoMemory, Seq};
use pdl_syntax_tree::{Mem, Param, Pipe, Span, Stmt};
use std::alloc::Global;

/// The places of a pipe in text order; their masks are not set yet.
pub fn places<'a>(alloc: Global, pipe: &'a Pipe) -> Result<Vec<Place<'a>>, NoMemory>
    ensures { IfOk result (λ ps. map place_view ps.items ≡ rules.places (pipe_view pipe.now)) }
{
    let mut places = Vec::new(alloc);
    add_params(alloc, &mut places, pipe.params.as_slice())?;
    add_mems(alloc, &mut places, pipe.mems.as_slice())?;
    let outer = Vec::new(alloc);
    add_stmts(alloc, &mut places, outer.as_slice(), pipe.body.as_slice())?;
    places.push(bare(alloc, Action::End, pipe.end))?;
    places.push(bare(alloc, Action::StartClause(&pipe.start), pipe.start.span))?;
    Ok(places)
}

// A place that stands in no branch.
fn bare<'a>(alloc: Global, action: Action<'a>, span: Span) -> Place<'a>
    ensures { place_view result ≡ place_at (span_view span) [] action.entry }
{
    Place {
        action,
        span,
        branches: Seq::new(alloc),
        mask: EVERYWHERE,
    }
}

fn add_params<'a>(
    alloc: Global,
    places: &mut Vec<Place<'a>>,
    params: &'a [Param],
) -> Result<(), NoMemory>
    ensures { OnOk result (map place_view places.new.items
        ≡ map place_view places.old.items ++ map parameter params.now) }
{
    for param in params {
        places.push(bare(alloc, Action::Parameter(param), param.name.span))?;
    }
    Ok(())
}

fn add_mems<'a>(alloc: Global, places: &mut Vec<Place<'a>>, mems: &'a [Mem]) -> Result<(), NoMemory>
    ensures { OnOk result (map place_view places.new.items
        ≡ map place_view places.old.items ++ map memory mems.now) }
{
    for mem in mems {
        places.push(bare(alloc, Action::Memory(mem), mem.name.span))?;
    }
    Ok(())
}

// Adds a statement and what stands inside it.
#[cycle(walk)]
fn add_stmt<'a>(
    alloc: Global,
    places: &mut Vec<Place<'a>>,
    outer: &[Branch<'a>],
    stmt: &'a Stmt,
) -> Result<(), NoMemory>
    ensures { OnOk result (map place_view places.new.items
        ≡ map place_view places.old.items ++
        rules.with_inner (map branch_view outer.now) (stmt_view stmt.now)) }
{
    push_stmt(alloc, places, outer, stmt)?;
    match stmt {
        Stmt::If {
            span,
            condition,
            then,
            otherwise,
        } => {
            let guard = guard_of(*span, condition);
            let taken = Branch {
                guard,
                truth: true,
                inside: then.as_slice(),
            };
            let inner = further_in(alloc, outer, taken)?;
            add_stmts(alloc, places, inner.as_slice(), then.as_slice())?;
            let other = Branch {
                guard,
                truth: false,
                inside: otherwise.as_slice(),
            };
            let inner = further_in(alloc, outer, other)?;
            add_stmts(alloc, places, inner.as_slice(), otherwise.as_slice())
        }
        Stmt::Separator { .. } | Stmt::CombRead { .. } | Stmt::Bind { .. } => Ok(()),
        Stmt::SpecCall { .. } | Stmt::DelayedRead { .. } | Stmt::Write { .. } => Ok(()),
        Stmt::Reserve { .. } | Stmt::Block { .. } | Stmt::Release { .. } => Ok(()),
        Stmt::Call { .. } | Stmt::Verify { .. } | Stmt::Update { .. } => Ok(()),
        Stmt::SpecCheck { .. } => Ok(()),
        Stmt::SpecBarrier { .. } => Ok(()),
    }
}

// The same of statements in a row.
#[cycle(walk)]
fn add_stmts<'a>(
    alloc: Global,
    places: &mut Vec<Place<'a>>,
    outer: &[Branch<'a>],
    stmts: &'a [Stmt],
) -> Result<(), NoMemory>
    ensures { OnOk result (map place_view places.new.items
        ≡ map place_view places.old.items ++
        rules.statements (map branch_view outer.now) (stmts_view stmts.now)) }
{
    for stmt in stmts {
        add_stmt(alloc, places, outer, stmt)?;
    }
    Ok(())
}

// Adds a statement alone.
fn push_stmt<'a>(
    alloc: Global,
    places: &mut Vec<Place<'a>>,
    outer: &[Branch<'a>],
    stmt: &'a Stmt,
) -> Result<(), NoMemory>
    ensures { OnOk result (map place_view places.new.items
        ≡ map place_view places.old.items ++
        rules.Statement (stmt_view stmt.now) (map branch_view outer.now) ∷ []) }
{
    let branches = Seq::copy_of(alloc, outer)?;
    places.push(Place {
        action: action_of(stmt),
        span: span_of(stmt),
        branches,
        mask: EVERYWHERE,
    })?;
    Ok(())
}

// The branches of what stands one branch further in.
fn further_in<'a>(
    alloc: Global,
    outer: &[Branch<'a>],
    branch: Branch<'a>,
) -> Result<Vec<Branch<'a>>, NoMemory>
    ensures { IfOk result (λ bs. bs.items ≡ outer.now ++ branch.entry ∷ []) }
{
    let mut branches = Vec::from_slice(alloc, outer)?;
    branches.push(branch)?;
    Ok(branches)
}
