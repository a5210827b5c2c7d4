//! Sound state: what holds, between cycles, in every state that a run of an accepted pipe comes to; and how its threads use the locks there.
//!
//! The functions do nothing: each clause is a theorem on the states that runs of the machine of `pdl_semantics` come to, of any flat pipe with the facts of an accepted one (`Sound` and `Strict`), any image and any replies of delayed memories.
#![tactic(auto)]

ghost use Rattle.std.specs.Prelude.{IsTrue, ℕ, Bool, List, ◌&&◌, not};
ghost use Rattle.pdl_semantics.specs.Flat.{Stmt, list_all};
ghost use Rattle.pdl_semantics.specs.Stages.{verify_stage, reserve_stage};
ghost use Rattle.pdl_semantics.specs.Moves.{all_acts};
ghost use Rattle.pdl_semantics.specs.Machine.{request_of, lock_of, same_args};
ghost use Rattle.pdl_semantics.specs.Sound.{live, all_pairs, all_from, in_order, are_linked, certain_after, asks_right, has_owner, stays_ready, past_stmts, on_path, owners, holders, followers, follows_values, pending_right, arrays_right, still_looks, has_released, is_sound};
ghost use Rattle.pdl_theory_states.specs.States.{InEveryState, AfterEveryRun};
ghost use Rattle.pdl_theory_states.specs.Use.{AllActs, FindsOlder, Reserves, KeepsPlace, ShiftsPlace};
ghost use Rattle.pdl_semantics.specs.PendingLists.{AreOrdered};

/// The points of Sound state that hold of all live threads, whatever their guess: their order and the forks' lists, who has made its successor, certainty behind a barrier, requests, blocks that stay ready, and each thread's path.
pub fn every_thread()
    ensures order { InEveryState (λ p s. IsTrue (in_order p s)) }
    ensures chain { InEveryState (λ p s. IsTrue (are_linked p (live s))) }
    ensures certain { InEveryState (λ p s.
        IsTrue (all_pairs (certain_after p (verify_stage p.stmts)) (live s))) }
    ensures requests { InEveryState (λ p s. IsTrue (list_all (asks_right p s) (live s))) }
    ensures outstanding { InEveryState (λ p s.
        IsTrue (all_from (λ m. has_owner s m (request_of s m)) 0 p.mems)) }
    ensures pending { InEveryState (λ p s.
        IsTrue (all_from (λ m. same_args (owners (lock_of s m)) (holders p m (live s))) 0 p.mems)) }
    ensures blocks { InEveryState (λ p s. IsTrue (list_all (λ l.
        list_all (λ (x : Stmt). stays_ready p s l x.op) (past_stmts p l)) (live s))) }
    ensures paths { InEveryState (λ p s. IsTrue (list_all (on_path p s) (live s))) }
{}

/// The points of Sound state on the threads that follow their turns, up to the first wrong guess, and on the arrays: their values once answered and the addresses that they await, their pending writes, what they have released, and that nobody behind one that still looks at a memory has released a write of it.
pub fn following_threads()
    ensures values { AfterEveryRun (λ p image ended s.
        IsTrue (list_all (follows_values p s) (followers p image ended s))) }
    ensures pending { AfterEveryRun (λ p image ended s.
        IsTrue (all_from (pending_right p image ended s) 0 p.mems)) }
    ensures arrays { AfterEveryRun (λ p image ended s.
        IsTrue (arrays_right p image ended s 0 p.mems)) }
    ensures looks { AfterEveryRun (λ p image ended s.
        IsTrue (all_from (λ m. all_pairs (λ older younger.
        not (still_looks m p older && has_released m p younger.live))
        (followers p image ended s)) 0 p.mems)) }
{}

/// Every state that a run comes to passes the whole test of Sound state, with as many turns ended as threads.
pub fn sound_state()
    ensures { AfterEveryRun (λ p image ended s. IsTrue (is_sound p image ended s)) }
{}

/// How the threads use the locks in each state that a run comes to, and in a cycle from it, whatever the replies: pending writes stand in the order of their threads, also with the one at most that the cycle reserves; a thread up to the stage of the reserves finds all of them older, and from there on its place among them is kept by what is reserved, and up to the stage of the releases shifts by one where a write is released.
pub fn pending_writes()
    ensures ordered { InEveryState (λ p s. (m : ℕ) → AreOrdered 0 (lock_of s m)) }
    ensures older { InEveryState (λ p s. (bits : List Bool) (m : ℕ) →
        AllActs (FindsOlder s m (reserve_stage p m)) (all_acts p s bits)) }
    ensures reserves { InEveryState (λ p s. (bits : List Bool) (m : ℕ) → Reserves p s bits m) }
    ensures places { InEveryState (λ p s. (bits : List Bool) (m : ℕ) →
        AllActs (KeepsPlace p s bits m) (all_acts p s bits)) }
    ensures shifts { InEveryState (λ p s. (bits : List Bool) (m : ℕ) →
        AllActs (ShiftsPlace p s bits m) (all_acts p s bits)) }
{}
