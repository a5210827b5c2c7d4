// What the statements of a stage do for its thread.
ghost use Rattle.std.specs.Prelude.{◌≡◌, ◌≤◌, ◌<◌, ◌+◌, ℕ, length, map, slice_set, vec_len, vec_capacity};
ghost use Rattle.pdl_semantics.specs.Machine as machine;
ghost use Rattle.pdl_form.specs.View.{act_view, stmts_view};
ghost use Rattle.pdl_form.specs.FormView.{form};
ghost use Rattle.pdl_machine_facts.specs.Use.{before_stage};
ghost use Rattle.pdl_machine_run.specs.View.{place_view, kept_view, deeds_view, thread_of};
ghost use Rattle.pdl_machine_run.specs.Room.{capacities, IsLarge, HasRoomFor, IsEmpty};
ghost use Rattle.pdl_machine_run.specs.StageDeeds.{nothing_done};

use crate::place::{LocationNumbers, hold, let_go};
use crate::stage::{KeptWord, ThreadSlot};
use pdl_form::{FlatPipe, FlatStmt, Op};
use pdl_form_values::are_taken;
use pdl_machine_pending::{Reserved, Written};
use pdl_word::Word;

/// A block: the number of its memory, its address, and whether the location is reserved for writing.
#[derive(Clone, Copy)]
pub struct Blocked {
    pub mem: usize,
    pub address: Word,
    pub writes: bool,
}

/// A delayed read: the numbers of its memory and of the variable that it binds, and its address.
#[derive(Clone, Copy)]
pub struct Ask {
    pub mem: usize,
    pub var: usize,
    pub address: Word,
}

/// A write of an advisory memory: the number of that, the address and the value.
#[derive(Clone, Copy)]
pub struct Advised {
    pub mem: usize,
    pub address: Word,
    pub value: Word,
}

/// What the statements of a stage on its thread's path have done so far: its values and its advised ones, its guess and what it holds; the blocks, the reservations, the writes, the memories whose write reservation was released, the delayed reads, and the writes of advisory memories; whether there was a barrier, the arguments of the thread that it called, if it did, and whether a verify failed.
pub struct Deeds {
    pub values: Vec<Word>,
    pub advice: Vec<KeptWord>,
    pub guess: Vec<Word>,
    pub held: Vec<LocationNumbers>,
    pub blocks: Vec<Blocked>,
    pub reserves: Vec<Reserved>,
    pub writes: Vec<Written>,
    pub releases: Vec<usize>,
    pub asks: Vec<Ask>,
    pub advises: Vec<Advised>,
    pub barrier: bool,
    pub called: bool,
    pub args: Vec<Word>,
    pub fails: bool,
    // Room for the arguments of a verify or of an update.
    pub verified: Vec<Word>,
    // Room for the values together with the advised ones.
    pub whole: Vec<Word>,
}

// As the derive would, but by a call of its owners: docs/DECISIONS.md says why.
impl Drop for Deeds {
    fn drop(self) {
        let Deeds {
            values: _,
            advice: _,
            guess: _,
            held: _,
            blocks: _,
            reserves: _,
            writes: _,
            releases: _,
            asks: _,
            advises: _,
            barrier: _,
            called: _,
            args: _,
            fails: _,
            verified: _,
            whole: _,
        } = self;
    }
}

/// Copies words into a vector in place of what it held.
pub fn copy_words(from: &[Word], to: &mut Vec<Word>)
    requires { length from.now ≤ vec_capacity to.old }
    ensures items { to.new.items ≡ from.now }
    ensures capacity { vec_capacity to.new ≡ vec_capacity to.old }
{
    to.clear();
    for word in from {
        to.push_reserved(*word);
    }
}

/// Sets a variable, if there is one of this number.
pub fn set_variable(values: &mut [Word], x: usize, word: Word)
    ensures { values.new ≡ slice_set values.old x word }
{
    if x < values.len() {
        values[x] = word;
    }
}

// Copies words for variables into a vector in place of what it held.
fn copy_kept(from: &[KeptWord], to: &mut Vec<KeptWord>)
    requires { length from.now ≤ vec_capacity to.old }
    ensures items { to.new.items ≡ from.now }
    ensures count { vec_len to.new ≡ length from.now }
    ensures capacity { vec_capacity to.new ≡ vec_capacity to.old }
{
    to.clear();
    for kept in from {
        to.push_reserved(*kept);
    }
}

// Puts words into their variables, as answers of delayed reads.
fn put_kept(kept: &[KeptWord], values: &mut [Word])
    ensures { values.new ≡ machine.with_kept (map kept_view kept.now) values.old }
{
    for word in kept {
        set_variable(values, word.var, word.word);
    }
}

// What is held after an operation.
fn hold_after(op: &Op, held: &mut Vec<LocationNumbers>)
    requires { vec_len held.old < vec_capacity held.old }
    ensures held { map place_view held.new.items
        ≡ machine.held_after (act_view op.now) (map place_view held.old.items) }
    ensures more { vec_len held.new ≤ vec_len held.old + 1 }
    ensures capacity { vec_capacity held.new ≡ vec_capacity held.old }
{
    match op {
        Op::ReserveWrite { m, a } => hold(held, *m, *a),
        Op::Release { m, a } => let_go(held, *m, *a),
        Op::Bind { .. } | Op::CombRead { .. } | Op::DelayedRead { .. } | Op::Write { .. } => {}
        Op::ReserveRead { .. } | Op::Block { .. } | Op::SpecCheck | Op::SpecBarrier => {}
        Op::Call(_) | Op::SpecCall(_) | Op::Verify { .. } => {}
        Op::AdviceBind { .. } | Op::AdviceRead { .. } | Op::AdviceWrite { .. } => {}
    }
}

// What is held after these statements, of which those on the path in the stages before one count.
fn hold_before(stmts: &[FlatStmt], stage: usize, path: &[Word], held: &mut Vec<LocationNumbers>)
    requires { vec_len held.old + length stmts.now ≤ vec_capacity held.old }
    ensures held { map place_view held.new.items
        ≡ machine.held_before stage path.now (stmts_view stmts.now)
        (map place_view held.old.items) }
    ensures more { vec_len held.new ≤ vec_len held.old + length stmts.now }
    ensures capacity { vec_capacity held.new ≡ vec_capacity held.old }
{
    for stmt in stmts {
        if stmt.stage < stage && are_taken(stmt.guards.as_slice(), path) {
            hold_after(&stmt.op, held);
        }
    }
}

impl Deeds {
    // Nothing is done yet, and nothing is held.
    fn clear(&mut self)
        ensures deeds { deeds_view self.new
            ≡ nothing_done self.old.values.items (map kept_view self.old.advice.items)
            self.old.guess.items }
        ensures empty { IsEmpty self.new }
        ensures capacities { capacities self.new ≡ capacities self.old }
    {
        self.held.clear();
        self.blocks.clear();
        self.reserves.clear();
        self.writes.clear();
        self.releases.clear();
        self.asks.clear();
        self.advises.clear();
        self.args.clear();
        self.barrier = false;
        self.called = false;
        self.fails = false;
    }

    /// The values together with the advised ones are in the room for them.
    pub fn lay_over(&mut self)
        requires { length self.old.values.items ≤ vec_capacity self.old.whole }
        ensures whole { self.new.whole.items ≡ machine.all_values (deeds_view self.old) }
        ensures deeds { deeds_view self.new ≡ deeds_view self.old }
        ensures capacities { capacities self.new ≡ capacities self.old }
        ensures room { (n : ℕ) → HasRoomFor n self.old → HasRoomFor n self.new }
    {
        copy_words(self.values.as_slice(), &mut self.whole);
        put_kept(self.advice.as_slice(), self.whole.as_mut_slice());
    }

    /// Nothing is done yet for the thread of a stage, of any number.
    pub fn begin(&mut self, pipe: &FlatPipe, stage: usize, slot: &ThreadSlot)
        requires values { length self.old.values.items ≡ length slot.now.values.items }
        requires large { IsLarge (length (form pipe.now).pipe.stmts)
            (length (form pipe.now).pipe.start) (length (form pipe.now).widths)
            (capacities self.old) }
        requires advice { vec_len slot.now.advice ≤ length (form pipe.now).pipe.stmts }
        requires guess { vec_len slot.now.guess ≤ length (form pipe.now).pipe.start }
        ensures deeds { (number : ℕ) → deeds_view self.new
            ≡ before_stage (form pipe.now).pipe stage (thread_of number slot.now) }
        ensures room { HasRoomFor (length (form pipe.now).pipe.stmts) self.new }
        ensures capacities { capacities self.new ≡ capacities self.old }
    {
        self.clear();
        self.values.copy_from_slice(slot.values.as_slice());
        put_kept(slot.kept.as_slice(), self.values.as_mut_slice());
        copy_kept(slot.advice.as_slice(), &mut self.advice);
        copy_words(slot.guess.as_slice(), &mut self.guess);
        hold_before(pipe.stmts(), stage, slot.values.as_slice(), &mut self.held);
    }
}
