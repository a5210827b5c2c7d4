// The turn of a thread: its statements one after another.
ghost use Rattle.std.specs.Prelude.{◌≡◌, ◌≤◌, ◌∷◌, [], true, length};
ghost use Rattle.pdl_semantics.specs.Flat.{all_hold};
ghost use Rattle.pdl_semantics.specs.Sequential.{run_all};
ghost use Rattle.pdl_form.specs.View.{stmt_view};
ghost use Rattle.pdl_form.specs.FormView.{form};
ghost use Rattle.pdl_seq.specs.Turns.{run_view, rooms, shape, IsSafeOp};
ghost use Rattle.pdl_seq.specs.Fits.{IsFit};
ghost use Rattle.pdl_seq.specs.Runs.{IsRunnable};

use crate::act::act;
use crate::commit::Commit;
use crate::words::Words;
use pdl_form::{FlatPipe, FlatStmt};
use pdl_form_values::are_taken;
use pdl_word::Word;

/// A thread on its way: the words of the memories, its variables, the next thread's arguments, and its writes so far.
#[derive(Drop)]
pub struct Turn {
    pub memories: Vec<Words>,
    pub values: Vec<Word>,
    pub next: Vec<Word>,
    pub commits: Vec<Commit>,
}

// A statement is carried out where its guards hold.
fn run_stmt(stmt: &FlatStmt, turn: &mut Turn)
    requires safe { all_hold (stmt_view stmt.now).guards turn.old.values.items ≡ true →
        IsSafeOp turn.old.memories.items (rooms turn.old).next
        (stmt_view stmt.now).op turn.old.values.items }
    requires room { length (run_all (stmt_view stmt.now ∷ []) (run_view turn.old)).writes
        ≤ (rooms turn.old).commits }
    ensures run { run_view turn.new ≡ run_all (stmt_view stmt.now ∷ []) (run_view turn.old) }
    ensures shape { shape turn.new.memories.items ≡ shape turn.old.memories.items }
    ensures rooms { rooms turn.new ≡ rooms turn.old }
{
    if are_taken(stmt.guards.as_slice(), turn.values.as_slice()) {
        act(&stmt.op, turn);
    }
}

/// A thread runs to its end.
pub fn run_turn(pipe: &FlatPipe, turn: &mut Turn)
    requires run { IsRunnable (form pipe.now) }
    requires fit { IsFit (form pipe.now) turn.old }
    requires next { length (form pipe.now).pipe.start ≤ (rooms turn.old).next }
    requires room { length (run_all (form pipe.now).pipe.stmts (run_view turn.old)).writes
        ≤ (rooms turn.old).commits }
    ensures run { run_view turn.new ≡ run_all (form pipe.now).pipe.stmts (run_view turn.old) }
    ensures fit { IsFit (form pipe.now) turn.new }
    ensures rooms { rooms turn.new ≡ rooms turn.old }
{
    for stmt in pipe.stmts() {
        run_stmt(stmt, turn);
    }
}
