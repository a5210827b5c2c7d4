// A flat form that is made here, and the graph of its stages.
ghost use Rattle.std.specs.Prelude.{◌≡◌, length, IfOk};
ghost use Rattle.pdl_form.specs.FormView.{form};

use pdl_form::{
    FlatBranch, FlatBranches, FlatExpr, FlatMem, FlatPipe, FlatStage, FlatStmt, Lock, NO_BRANCHES,
    Next, Op,
};
use pdl_kit::{Name, NoMemory, Seq};
use pdl_stages::{Fork, StageGraph, stage_graph};
use pdl_syntax_tree::MemKind;
use std::alloc::Global;

// A fork on the variable 0 in the stage 0 into the stage 1 on its first branch, and the merge in the stage 2.
const STAGES: [FlatStage; 3] = [
    FlatStage {
        next: Next::Forks {
            x: 0,
            first: 1,
            second: 2,
        },
        branches: NO_BRANCHES,
        merges: None,
    },
    FlatStage {
        next: Next::Goes(2),
        branches: FlatBranches {
            first: Some(FlatBranch {
                fork: 0,
                first: true,
            }),
            second: None,
            third: None,
            fourth: None,
        },
        merges: None,
    },
    FlatStage {
        next: Next::Ends,
        branches: NO_BRANCHES,
        merges: Some(0),
    },
];

/// A memory of eight bytes.
pub fn memory(alloc: Global) -> Result<FlatMem, NoMemory> {
    Ok(FlatMem {
        name: Name::copy_of(alloc, b"m")?,
        width: 8,
        depth: 8,
        kind: MemKind::Comb,
        lock: Lock::Queue(2),
    })
}

fn add(alloc: Global, stmts: &mut Vec<FlatStmt>, stage: usize, op: Op) -> Result<(), NoMemory> {
    stmts.push(FlatStmt {
        stage,
        guards: Seq::new(alloc),
        op,
    })?;
    Ok(())
}

/// A reserve in the first stage, its write and its release in the last.
pub fn statements(alloc: Global, last: usize) -> Result<Vec<FlatStmt>, NoMemory> {
    let mut stmts = Vec::new(alloc);
    add(alloc, &mut stmts, 0, Op::ReserveWrite { m: 0, a: 0 })?;
    let e = FlatExpr::Constant { width: 8, value: 7 };
    add(alloc, &mut stmts, last, Op::Write { m: 0, a: 0, e })?;
    add(alloc, &mut stmts, last, Op::Release { m: 0, a: 0 })?;
    Ok(stmts)
}

fn forked(alloc: Global) -> Result<FlatPipe, NoMemory>
    ensures vars { IfOk result (λ f. (form f).pipe.vars ≡ 1) }
    ensures reserves { IfOk result (λ f. length (form f).pipe.reserves_at ≡ 1) }
    ensures releases { IfOk result (λ f. length (form f).pipe.releases_at ≡ 1) }
{
    let widths = Vec::from_slice(alloc, &[1])?;
    let start = Vec::from_slice(alloc, &[1])?;
    let stages = Vec::from_slice(alloc, &STAGES)?;
    let stmts = statements(alloc, 2)?;
    let mut mems = Vec::new(alloc);
    mems.push(memory(alloc)?)?;
    FlatPipe::new(alloc, widths, mems, stmts, stages, start)
}

// How many variables, memories, statements and arguments of the start there are, and how many statements in each of the three stages.
fn counts(flat: &FlatPipe) -> [usize; 7] {
    if flat.stages().len() != 3 {
        return [0; 7];
    }
    [
        flat.vars(),
        flat.mems().len(),
        flat.stmts().len(),
        flat.start().len(),
        flat.rows(0).len(),
        flat.rows(1).len(),
        flat.rows(2).len(),
    ]
}

// The width of the variable, and the stages of the reserve, of the release and of the verifies.
fn read(alloc: Global) -> Option<(u8, [Option<usize>; 3], [usize; 7])> {
    let Ok(flat) = forked(alloc) else {
        return None;
    };
    let stages = [flat.reserved(0), flat.released(0), flat.verify_stage()];
    Some((flat.width(0), stages, counts(&flat)))
}

#[test]
fn parts(rt: HostRuntime) {
    let wanted = (1, [Some(0), Some(2), None], [1, 1, 3, 1, 1, 0, 2]);
    assert!(rt; read(rt.alloc()) == Some(wanted));
}

// Where the first stage leads on its two branches and where the last does, whether each of the first two stands in no branch, and the depth.
fn ways(graph: &StageGraph) -> ([Option<usize>; 3], [bool; 2], usize) {
    if graph.count() != 3 {
        return ([None; 3], [false; 2], 0);
    }
    (
        [
            graph.next(0, true),
            graph.next(0, false),
            graph.next(2, true),
        ],
        [graph.is_trunk(0), graph.is_trunk(1)],
        graph.depth(),
    )
}

// Whether the fork and its merge are all forks of the graph, with its ways.
fn forks(alloc: Global) -> Option<(bool, ([Option<usize>; 3], [bool; 2], usize))> {
    let Ok(flat) = forked(alloc) else {
        return None;
    };
    let Ok(graph) = stage_graph(alloc, &flat, Vec::new(alloc)) else {
        return None;
    };
    let meets = [Fork { stage: 0, merge: 2 }];
    Some((graph.forks() == meets.as_slice(), ways(&graph)))
}

#[test]
fn fork(rt: HostRuntime) {
    let wanted = (true, ([Some(1), Some(2), None], [true, false], 3));
    assert!(rt; forks(rt.alloc()) == Some(wanted));
}
