// The statements of a stage, carried out for its thread.
ghost use Rattle.std.specs.Prelude.{◌≡◌, ◌≤◌, ◌<◌, ◌∷◌, [], ◌++◌, ℕ, suc, Some, true, if◌then◌else◌, length, slice_index, slice_set, vec_capacity};
ghost use Rattle.pdl_semantics.specs.Flat.{all_hold, value_of as spec_value_of, values_of as spec_values_of};
ghost use Rattle.pdl_semantics.specs.Stages.{in_stage};
ghost use Rattle.pdl_semantics.specs.Machine.{deeds_after, deeds_after_all, after_verify, all_values, checked_args, same_args as spec_same_args, is_held as spec_is_held, let_go as spec_let_go};
ghost use Rattle.pdl_form.specs.View.{expr_view, exprs_view, act_view, stmt_view};
ghost use Rattle.pdl_form_values.specs.Safe.{IsSafe, AreSafe};
ghost use Rattle.pdl_machine_run.specs.View.{deeds_view};
ghost use Rattle.pdl_machine_run.specs.Room.{capacities, HasRoomFor, IsLarge};
ghost use Rattle.pdl_machine_run.specs.StageDeeds.{word_of, checked_values, IsSafeOp};
ghost use Rattle.pdl_form.specs.FormView.{form};
ghost use Rattle.pdl_form_types.specs.Stmts.{IsTypedForm};
ghost use Rattle.pdl_machine_run.specs.Typed.{AreFit, AreMemories};

use crate::advice::{bind_advice, read_advice, write_advice};
use crate::deeds::{Ask, Blocked, Deeds, copy_words, set_variable};
use crate::place::{hold, is_held, let_go};
use crate::words::read;
use pdl_form::{FlatExpr, FlatPipe, FlatStmt, Op};
use pdl_form_values::{are_taken, value_of, values_of, variable};
use pdl_machine_pending::{Memory, Reserved, Written};
use pdl_word::Word;
use std::mem::swap;

// A variable is bound to the value of an expression.
fn bind(x: usize, e: &FlatExpr, values: &mut [Word])
    requires safe { IsSafe (expr_view e.now) values.old }
    ensures { values.new ≡ slice_set values.old x (spec_value_of (expr_view e.now) values.old) }
{
    let value = value_of(e, values);
    set_variable(values, x, value);
}

// A variable is bound to the word that a read finds.
fn read_word(memories: &[Memory], thread: u64, x: usize, m: usize, a: usize, values: &mut [Word])
    ensures { values.new ≡ slice_set values.old x
        (word_of memories.now thread m (slice_index values.old a)) }
{
    let address = variable(values, a);
    let word = read(memories, thread, m, address);
    set_variable(values, x, word);
}

// A delayed read asks its memory.
fn ask(x: usize, m: usize, a: usize, deeds: &mut Deeds)
    requires room { HasRoomFor 1 deeds.old }
    ensures deeds { deeds_view deeds.new
        ≡ record (deeds_view deeds.old) {
          asks = (deeds_view deeds.old).asks ++ record {
            mem = m;
            var = x;
            address = slice_index (deeds_view deeds.old).env a;
          } ∷ [];
        } }
    ensures capacities { capacities deeds.new ≡ capacities deeds.old }
    ensures room { (n : ℕ) → HasRoomFor (suc n) deeds.old → HasRoomFor n deeds.new }
{
    let address = variable(deeds.values.as_slice(), a);
    deeds.asks.push_reserved(Ask {
        mem: m,
        var: x,
        address,
    });
}

// A location is reserved for writing.
fn reserve(m: usize, a: usize, deeds: &mut Deeds)
    requires room { HasRoomFor 1 deeds.old }
    ensures deeds { deeds_view deeds.new
        ≡ record (deeds_view deeds.old) {
          held = record { mem = m; var = a } ∷ (deeds_view deeds.old).held;
          reserves = (deeds_view deeds.old).reserves ++ record {
            mem = m;
            var = a;
            address = slice_index (deeds_view deeds.old).env a;
          } ∷ [];
        } }
    ensures capacities { capacities deeds.new ≡ capacities deeds.old }
    ensures room { (n : ℕ) → HasRoomFor (suc n) deeds.old → HasRoomFor n deeds.new }
{
    let address = variable(deeds.values.as_slice(), a);
    deeds.reserves.push_reserved(Reserved {
        mem: m,
        var: a,
        address,
    });
    hold(&mut deeds.held, m, a);
}

// A location is blocked on.
fn block(m: usize, a: usize, deeds: &mut Deeds)
    requires room { HasRoomFor 1 deeds.old }
    ensures deeds { deeds_view deeds.new
        ≡ record (deeds_view deeds.old) {
          blocks = (deeds_view deeds.old).blocks ++ record {
            mem = m;
            address = slice_index (deeds_view deeds.old).env a;
            writes = spec_is_held (deeds_view deeds.old).held m a;
          } ∷ [];
        } }
    ensures capacities { capacities deeds.new ≡ capacities deeds.old }
    ensures room { (n : ℕ) → HasRoomFor (suc n) deeds.old → HasRoomFor n deeds.new }
{
    let writes = is_held(deeds.held.as_slice(), m, a);
    let address = variable(deeds.values.as_slice(), a);
    deeds.blocks.push_reserved(Blocked {
        mem: m,
        address,
        writes,
    });
}

// A location is released.
fn release(m: usize, a: usize, deeds: &mut Deeds)
    requires room { HasRoomFor 1 deeds.old }
    ensures deeds { deeds_view deeds.new
        ≡ record (deeds_view deeds.old) {
          held = spec_let_go (deeds_view deeds.old).held m a;
          releases = (deeds_view deeds.old).releases ++
              (if spec_is_held (deeds_view deeds.old).held m a then m ∷ [] else []);
        } }
    ensures capacities { capacities deeds.new ≡ capacities deeds.old }
    ensures room { (n : ℕ) → HasRoomFor (suc n) deeds.old → HasRoomFor n deeds.new }
{
    if is_held(deeds.held.as_slice(), m, a) {
        deeds.releases.push_reserved(m);
    }
    let_go(&mut deeds.held, m, a);
}

// A value is written to the location that a variable reserved.
fn write(m: usize, a: usize, e: &FlatExpr, deeds: &mut Deeds)
    requires safe { IsSafe (expr_view e.now) (deeds_view deeds.old).env }
    requires room { HasRoomFor 1 deeds.old }
    ensures deeds { deeds_view deeds.new
        ≡ record (deeds_view deeds.old) {
          writes = (deeds_view deeds.old).writes ++ record {
            mem = m;
            var = a;
            value = spec_value_of (expr_view e.now) (deeds_view deeds.old).env;
          } ∷ [];
        } }
    ensures capacities { capacities deeds.new ≡ capacities deeds.old }
    ensures room { (n : ℕ) → HasRoomFor (suc n) deeds.old → HasRoomFor n deeds.new }
{
    let value = value_of(e, deeds.values.as_slice());
    deeds.writes.push_reserved(Written {
        mem: m,
        var: a,
        value,
    });
}

// A thread is called.
fn call(args: &[FlatExpr], deeds: &mut Deeds)
    requires safe { AreSafe (exprs_view args.now) (deeds_view deeds.old).env }
    requires room { length args.now ≤ vec_capacity deeds.old.args }
    ensures deeds { deeds_view deeds.new
        ≡ record (deeds_view deeds.old)
        { child = Some (spec_values_of (exprs_view args.now) (deeds_view deeds.old).env) } }
    ensures capacities { capacities deeds.new ≡ capacities deeds.old }
    ensures room { (n : ℕ) → HasRoomFor (suc n) deeds.old → HasRoomFor n deeds.new }
{
    values_of(args, deeds.values.as_slice(), &mut deeds.args);
    deeds.called = true;
}

// A thread is called by a guess, which is kept; the guess may name advised variables.
fn guess(args: &[FlatExpr], deeds: &mut Deeds)
    requires safe { AreSafe (exprs_view args.now) (all_values (deeds_view deeds.old)) }
    requires whole { length deeds.old.values.items ≤ vec_capacity deeds.old.whole }
    requires room { length args.now ≤ vec_capacity deeds.old.args }
    requires guess_room { length args.now ≤ vec_capacity deeds.old.guess }
    ensures deeds { deeds_view deeds.new
        ≡ record (deeds_view deeds.old) {
          child = Some (spec_values_of (exprs_view args.now) (all_values (deeds_view deeds.old)));
          guess = spec_values_of (exprs_view args.now) (all_values (deeds_view deeds.old));
        } }
    ensures capacities { capacities deeds.new ≡ capacities deeds.old }
    ensures room { (n : ℕ) → HasRoomFor (suc n) deeds.old → HasRoomFor n deeds.new }
{
    deeds.lay_over();
    values_of(args, deeds.whole.as_slice(), &mut deeds.args);
    copy_words(deeds.args.as_slice(), &mut deeds.guess);
    deeds.called = true;
}

// Whether these arguments are the same.
fn same_args(these: &[Word], those: &[Word]) -> bool
    ensures { result ≡ spec_same_args these.now those.now }
{
    if these.len() != those.len() {
        return false;
    }
    for i in 0..these.len() {
        if these[i] != those[i] {
            return false;
        }
    }
    true
}

// The arguments of a check of the guess, which is a verify where it is the last one, else an update, are in the room for them.
fn check_args(last: bool, args: &[FlatExpr], deeds: &mut Deeds)
    requires safe { AreSafe (exprs_view args.now) (checked_values last (deeds_view deeds.old)) }
    requires whole { length deeds.old.values.items ≤ vec_capacity deeds.old.whole }
    requires room { length args.now ≤ vec_capacity deeds.old.verified }
    ensures verified { deeds.new.verified.items
        ≡ checked_args last (exprs_view args.now) (deeds_view deeds.old) }
    ensures deeds { deeds_view deeds.new ≡ deeds_view deeds.old }
    ensures capacities { capacities deeds.new ≡ capacities deeds.old }
    ensures room { (n : ℕ) → HasRoomFor n deeds.old → HasRoomFor n deeds.new }
{
    if last {
        values_of(args, deeds.values.as_slice(), &mut deeds.verified);
    } else {
        deeds.lay_over();
        values_of(args, deeds.whole.as_slice(), &mut deeds.verified);
    }
}

// The checked arguments are kept as the guess where this was another, and a thread is called with them.
fn settle(deeds: &mut Deeds)
    requires args { length deeds.old.verified.items ≤ vec_capacity deeds.old.args }
    requires guess { length deeds.old.verified.items ≤ vec_capacity deeds.old.guess }
    ensures deeds { deeds_view deeds.new
        ≡ after_verify deeds.old.verified.items (deeds_view deeds.old) }
    ensures capacities { capacities deeds.new ≡ capacities deeds.old }
    ensures room { (n : ℕ) → HasRoomFor n deeds.old → HasRoomFor n deeds.new }
{
    if !same_args(deeds.verified.as_slice(), deeds.guess.as_slice()) {
        copy_words(deeds.verified.as_slice(), &mut deeds.args);
        copy_words(deeds.verified.as_slice(), &mut deeds.guess);
        deeds.called = true;
        deeds.fails = true;
    }
}

// A guess is verified, or updated: where it was wrong, a thread is called with the right arguments, and they are kept as the guess.
fn verify(last: bool, args: &[FlatExpr], deeds: &mut Deeds)
    requires safe { AreSafe (exprs_view args.now) (checked_values last (deeds_view deeds.old)) }
    requires whole { length deeds.old.values.items ≤ vec_capacity deeds.old.whole }
    requires room { length args.now ≤ vec_capacity deeds.old.verified }
    requires args_room { length args.now ≤ vec_capacity deeds.old.args }
    requires guess_room { length args.now ≤ vec_capacity deeds.old.guess }
    ensures deeds { deeds_view deeds.new ≡ after_verify
        (checked_args last (exprs_view args.now) (deeds_view deeds.old)) (deeds_view deeds.old) }
    ensures capacities { capacities deeds.new ≡ capacities deeds.old }
    ensures room { (n : ℕ) → HasRoomFor (suc n) deeds.old → HasRoomFor n deeds.new }
{
    check_args(last, args, deeds);
    settle(deeds);
}

// What an operation does for a thread.
fn act(memories: &[Memory], thread: u64, op: &Op, deeds: &mut Deeds)
    requires safe { IsSafeOp (capacities deeds.old) (act_view op.now) (deeds_view deeds.old) }
    requires room { HasRoomFor 1 deeds.old }
    ensures deeds { deeds_view deeds.new
        ≡ deeds_after (word_of memories.now thread) (act_view op.now) (deeds_view deeds.old) }
    ensures capacities { capacities deeds.new ≡ capacities deeds.old }
    ensures room { (n : ℕ) → HasRoomFor (suc n) deeds.old → HasRoomFor n deeds.new }
{
    match op {
        Op::Bind { x, e } => bind(*x, e, deeds.values.as_mut_slice()),
        Op::CombRead { x, m, a } => {
            read_word(memories, thread, *x, *m, *a, deeds.values.as_mut_slice());
        }
        Op::DelayedRead { x, m, a } => ask(*x, *m, *a, deeds),
        Op::Write { m, a, e } => write(*m, *a, e, deeds),
        Op::ReserveWrite { m, a } => reserve(*m, *a, deeds),
        Op::Block { m, a } => block(*m, *a, deeds),
        Op::Release { m, a } => release(*m, *a, deeds),
        Op::Call(args) => call(args.as_slice(), deeds),
        Op::SpecCall(args) => guess(args.as_slice(), deeds),
        Op::Verify { last, args } => verify(*last, args.as_slice(), deeds),
        Op::SpecBarrier => deeds.barrier = true,
        Op::AdviceBind { x, e } => bind_advice(*x, e, deeds),
        Op::AdviceRead { x, m, a } => read_advice(memories, thread, *x, *m, *a, deeds),
        Op::AdviceWrite { m, a, e } => write_advice(*m, *a, e, deeds),
        Op::ReserveRead { .. } | Op::SpecCheck => {}
    }
}

// What a statement does for a thread: nothing off its path.
fn run_stmt(memories: &[Memory], thread: u64, stmt: &FlatStmt, deeds: &mut Deeds)
    requires safe { all_hold (stmt_view stmt.now).guards (deeds_view deeds.old).env ≡ true →
        IsSafeOp (capacities deeds.old) (stmt_view stmt.now).op (deeds_view deeds.old) }
    requires room { HasRoomFor 1 deeds.old }
    ensures deeds { deeds_view deeds.new
        ≡ deeds_after_all (word_of memories.now thread) (stmt_view stmt.now ∷ [])
        (deeds_view deeds.old) }
    ensures capacities { capacities deeds.new ≡ capacities deeds.old }
    ensures room { (n : ℕ) → HasRoomFor (suc n) deeds.old → HasRoomFor n deeds.new }
{
    if are_taken(stmt.guards.as_slice(), deeds.values.as_slice()) {
        act(memories, thread, &stmt.op, deeds);
    }
}

/// The statements of a stage are carried out for its thread.
pub fn run_stage(pipe: &FlatPipe, memories: &[Memory], thread: u64, stage: usize, deeds: &mut Deeds)
    requires stage { stage < length (form pipe.now).pipe.stages }
    requires typed { IsTypedForm (form pipe.now) }
    requires memories { AreMemories (form pipe.now).pipe memories.now }
    requires fit { AreFit (form pipe.now) (deeds_view deeds.old) }
    requires large { IsLarge 0 (length (form pipe.now).pipe.start) (length (form pipe.now).widths)
        (capacities deeds.old) }
    requires room { HasRoomFor (length (in_stage stage (form pipe.now).pipe.stmts)) deeds.old }
    ensures deeds { deeds_view deeds.new
        ≡ deeds_after_all (word_of memories.now thread)
        (in_stage stage (form pipe.now).pipe.stmts)
        (deeds_view deeds.old) }
    ensures fit { AreFit (form pipe.now) (deeds_view deeds.new) }
    ensures capacities { capacities deeds.new ≡ capacities deeds.old }
{
    let stmts = pipe.stmts();
    for row in pipe.rows(stage) {
        run_stmt(memories, thread, &stmts[*row], deeds);
    }
}
