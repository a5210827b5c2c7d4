// The statements of a stage as nets.
ghost use Rattle.std.specs.Prelude.{◌≡◌, [], length, IfOk};
ghost use Rattle.pdl_form.specs.FormView.{form};
ghost use Rattle.pdl_form.specs.View.{act_view, stmt_view, stmts_view};
ghost use Rattle.pdl_pipe_exprs.specs.Conditions.{AreBits};
ghost use Rattle.pdl_pipe_walk.specs.Sized.{IsWalkOf, AreWalked};

use pdl_build::Builder;
use pdl_form::{FlatPipe, FlatStage, FlatStmt, NO_BRANCHES, Next, Op};
use pdl_kit::{NoMemory, Seq};
use pdl_law_parts::Mark;
use pdl_pipe_exprs::Bits;
use pdl_pipe_walk::{Setting, WalkNets};
use pdl_queue::QueueLock;
use std::alloc::Global;

// A statement of the first stage, which stands under no guard.
fn statement(alloc: Global, op: Op) -> FlatStmt
    ensures { stmt_view result ≡ record { stage = 0; guards = []; op = act_view op } }
{
    FlatStmt {
        stage: 0,
        guards: Seq::new(alloc),
        op,
    }
}

// One stage, from which a thread without arguments is begun.
#[tactic(auto, using(pdl_pipe_walk::proofs::BarePipes::call_walked))]
fn caller(alloc: Global) -> Result<FlatPipe, NoMemory>
    ensures walked { IfOk result (λ f. AreWalked (form f) (form f).pipe.stmts) }
    ensures widths { IfOk result (λ f. (form f).widths ≡ []) }
    ensures mems { IfOk result (λ f. (form f).pipe.mems ≡ []) }
    ensures stages { IfOk result (λ f. length (form f).pipe.stages ≡ 1) }
{
    let mut stmts = Vec::new(alloc);
    stmts.push(statement(alloc, Op::Call(Seq::new(alloc))))?;
    one_stage(alloc, stmts)
}

// One stage, in which a guess without arguments is made and found right, and which has a barrier.
#[tactic(auto, using(pdl_pipe_walk::proofs::BarePipes::guess_walked))]
fn guesser(alloc: Global) -> Result<FlatPipe, NoMemory>
    ensures walked { IfOk result (λ f. AreWalked (form f) (form f).pipe.stmts) }
    ensures widths { IfOk result (λ f. (form f).widths ≡ []) }
    ensures mems { IfOk result (λ f. (form f).pipe.mems ≡ []) }
    ensures stages { IfOk result (λ f. length (form f).pipe.stages ≡ 1) }
{
    let mut stmts = Vec::new(alloc);
    stmts.push(statement(alloc, Op::SpecCall(Seq::new(alloc))))?;
    let args = Seq::new(alloc);
    stmts.push(statement(alloc, Op::Verify { last: true, args }))?;
    stmts.push(statement(alloc, Op::SpecBarrier))?;
    one_stage(alloc, stmts)
}

// A pipe of one stage with these statements, without variables and memories.
fn one_stage(alloc: Global, stmts: Vec<FlatStmt>) -> Result<FlatPipe, NoMemory>
    ensures stmts { IfOk result (λ f. (form f).pipe.stmts ≡ stmts_view stmts.items) }
    ensures start { IfOk result (λ f. (form f).pipe.start ≡ []) }
    ensures widths { IfOk result (λ f. (form f).widths ≡ []) }
    ensures mems { IfOk result (λ f. (form f).pipe.mems ≡ []) }
    ensures stages { IfOk result (λ f. length (form f).pipe.stages ≡ 1) }
{
    let mut stages = Vec::new(alloc);
    stages.push(FlatStage {
        next: Next::Ends,
        branches: NO_BRANCHES,
        merges: None,
    })?;
    let flat = FlatPipe::new(
        alloc,
        Vec::new(alloc),
        Vec::new(alloc),
        stmts,
        stages,
        Vec::new(alloc),
    )?;
    Ok(flat)
}

// Its stage at the first statement.
#[tactic(auto, using(pdl_pipe_walk::proofs::BarePipes::bare_walk))]
fn begun(alloc: Global, b: &Builder, bits: Bits, pipe: &FlatPipe) -> WalkNets
    requires bits { AreBits b.now bits }
    requires widths { (form pipe.now).widths ≡ [] }
    ensures { IsWalkOf (form pipe.now) b.now result }
{
    let _regs = b.reg_count();
    WalkNets {
        vars: Vec::new(alloc),
        marks: Vec::new(alloc),
        ready: bits.one,
        reserves: Seq::new(alloc),
        puts: Seq::new(alloc),
        lettings: Seq::new(alloc),
        births: Vec::new(alloc),
        asks: Seq::new(alloc),
        advises: Seq::new(alloc),
        guess: Seq::new(alloc),
        fails: bits.zero,
        barrier: bits.zero,
    }
}

// Whether no location is held there, and its walk makes the call alone.
#[tactic(auto, using(pdl_pipe_walk::proofs::BarePipes::no_locks, pdl_pipe_walk::proofs::BarePipes::no_tickets, pdl_pipe_walk::proofs::BarePipes::no_flags))]
fn is_called(alloc: Global, b: &mut Builder, flat: &FlatPipe) -> Result<bool, NoMemory>
    requires walked { AreWalked (form flat.now) (form flat.now).pipe.stmts }
    requires widths { (form flat.now).widths ≡ [] }
    requires mems { (form flat.now).pipe.mems ≡ [] }
    requires stages { length (form flat.now).pipe.stages ≡ 1 }
{
    let bits = Bits::new(b)?;
    let mut nets = begun(alloc, b, bits, flat);
    let held = nets.is_marked(b, bits, Mark::Held, 0, 0);
    let setting: Setting<'_, QueueLock> = Setting {
        pipe: flat,
        bits,
        locks: &[],
        twice: &[],
        tickets: &[],
    };
    nets.walk(alloc, b, &setting, 0)?;
    let is_free = (held == bits.zero) & (nets.ready == bits.one);
    Ok(is_free & (nets.births.len() == 1))
}

// Whether its walk calls twice, fails nowhere, and waits at a barrier.
#[tactic(auto, using(pdl_pipe_walk::proofs::BarePipes::no_locks, pdl_pipe_walk::proofs::BarePipes::no_tickets, pdl_pipe_walk::proofs::BarePipes::no_flags))]
fn is_guessed(alloc: Global, b: &mut Builder, flat: &FlatPipe) -> Result<bool, NoMemory>
    requires walked { AreWalked (form flat.now) (form flat.now).pipe.stmts }
    requires widths { (form flat.now).widths ≡ [] }
    requires mems { (form flat.now).pipe.mems ≡ [] }
    requires stages { length (form flat.now).pipe.stages ≡ 1 }
{
    let bits = Bits::new(b)?;
    let mut nets = begun(alloc, b, bits, flat);
    let setting: Setting<'_, QueueLock> = Setting {
        pipe: flat,
        bits,
        locks: &[],
        twice: &[],
        tickets: &[],
    };
    nets.walk(alloc, b, &setting, 0)?;
    let is_right = (nets.fails == bits.zero) & (nets.barrier == bits.one);
    Ok(is_right & (nets.births.len() == 2))
}

#[test]
fn guessed(rt: HostRuntime) -> Result<(), NoMemory> {
    let flat = guesser(rt.alloc())?;
    let mut b = Builder::new(rt.alloc());
    assert!(rt; is_guessed(rt.alloc(), &mut b, &flat) == Ok(true));
    Ok(())
}

#[test]
fn called(rt: HostRuntime) -> Result<(), NoMemory> {
    let flat = caller(rt.alloc())?;
    let mut b = Builder::new(rt.alloc());
    assert!(rt; is_called(rt.alloc(), &mut b, &flat) == Ok(true));
    Ok(())
}
