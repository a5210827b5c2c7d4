// What a thread still needs.
ghost use Rattle.std.specs.Prelude.{◌≡◌, length, IfOk};
ghost use Rattle.pdl_form.specs.FormView.{form};
ghost use Rattle.pdl_pipe_lives.specs.Needs.{AreNeeds};

use crate::form_rows::{memory, statements};
use pdl_form::{FlatPipe, FlatStage, NO_BRANCHES, Next};
use pdl_kit::NoMemory;
use pdl_law_parts::Mark;
use pdl_pipe_lives::{Needs, keeps_ticket, mark_from};
use std::alloc::Global;
use std::mem::drop;

const STAGES: [FlatStage; 2] = [
    FlatStage {
        next: Next::Goes(1),
        branches: NO_BRANCHES,
        merges: None,
    },
    FlatStage {
        next: Next::Ends,
        branches: NO_BRANCHES,
        merges: None,
    },
];

// Two stages: a reserve in the first, its write and its release in the second.
fn writer(alloc: Global) -> Result<FlatPipe, NoMemory>
    ensures widths { IfOk result (λ f. length (form f).widths ≡ 1) }
    ensures mems { IfOk result (λ f. length (form f).pipe.mems ≡ 1) }
    ensures stages { IfOk result (λ f. length (form f).pipe.stages ≡ 2) }
    ensures reserves { IfOk result (λ f. length (form f).pipe.reserves_at ≡ 1) }
    ensures releases { IfOk result (λ f. length (form f).pipe.releases_at ≡ 1) }
{
    let widths = Vec::from_slice(alloc, &[3])?;
    let start = Vec::from_slice(alloc, &[5])?;
    let stages = Vec::from_slice(alloc, &STAGES)?;
    let stmts = statements(alloc, 1)?;
    let mut mems = Vec::new(alloc);
    mems.push(memory(alloc)?)?;
    FlatPipe::new(alloc, widths, mems, stmts, stages, start)
}

// Whether the address is needed in each stage, whether each mark of its location is in the second, and whether each keeps its ticket.
fn needed(flat: &FlatPipe, needs: &Needs) -> [bool; 6]
    requires needs { AreNeeds (form flat.now) needs.now }
    requires widths { length (form flat.now).widths ≡ 1 }
    requires mems { length (form flat.now).pipe.mems ≡ 1 }
    requires stages { length (form flat.now).pipe.stages ≡ 2 }
    requires reserves { length (form flat.now).pipe.reserves_at ≡ 1 }
    requires releases { length (form flat.now).pipe.releases_at ≡ 1 }
{
    [
        needs.lives_from(flat, 0, 0),
        needs.lives_from(flat, 1, 0),
        mark_from(flat, 1, Mark::Held, 0, 0),
        mark_from(flat, 1, Mark::Late, 0, 0),
        keeps_ticket(flat, 0, 0),
        keeps_ticket(flat, 1, 0),
    ]
}

#[test]
fn needs(rt: HostRuntime) -> Result<(), NoMemory> {
    let flat = writer(rt.alloc())?;
    let needs = Needs::new(rt.alloc(), &flat)?;
    let needed = needed(&flat, &needs);
    drop(flat);
    assert!(rt; needed == [true, false, true, true, false, true]);
    Ok(())
}
