// The requests of delayed memories.
ghost use Rattle.std.specs.Prelude.{◌≡◌, ℕ, None, ◌++◌, [], ◌≤◌, ◌+◌, ◌*◌, length, map, vec_len, vec_capacity, if◌then◌else◌};
ghost use Rattle.pdl_semantics.specs.Cycle as stated;
ghost use Rattle.pdl_semantics.specs.Flat.{is_delayed};
ghost use Rattle.pdl_form.specs.View.{mem_view, mems_view};
ghost use Rattle.pdl_form.specs.FormView.{form};
ghost use Rattle.pdl_machine_run.specs.View.{ask_view, request_view};
ghost use Rattle.pdl_machine_run.specs.Acts.{mover_of, act_of, acts_of};
ghost use Rattle.pdl_machine_facts.specs.Ports.{request_values};
ghost use Rattle.pdl_machine_run.specs.Requests.{address_by, request_after, requests_after, requests_shown};

use crate::answers::is_answered;
use crate::beside::Request;
use crate::deeds::Ask;
use crate::moves::is_kept;
use crate::stage::Stage;
use crate::step::mover;
use pdl_form::{FlatMem, FlatPipe};
use pdl_word::Word;

// The request of memory m after these delayed reads of a thread: that of the first that asks it, else the one before.
fn asked_of(m: usize, thread: u64, asks: &[Ask], old: Request) -> Request
    ensures { request_view result ≡ stated.asked_of m thread (map ask_view asks.now)
        (request_view old) }
{
    for ask in asks {
        if ask.mem == m {
            return Request::Owned {
                owner: thread,
                address: ask.address,
            };
        }
    }
    old
}

// The same after the delayed reads of the thread that moves out of a stage, if one does.
fn asked_in_stage(m: usize, stage: &Stage, old: Request) -> Request
    ensures { (k : ℕ) → request_view result ≡ stated.asked_by m
        (act_of k (mover_of stage.now) stage.now) (request_view old) }
{
    match mover(stage) {
        None => old,
        Some(thread) => asked_of(m, thread, stage.deeds.asks.as_slice(), old),
    }
}

// The same after those of all stages, of which the first counts most.
fn asked_by(m: usize, stages: &[Stage], old: Request) -> Request
    ensures { request_view result ≡ stated.asked_by m (acts_of 0 stages.now) (request_view old) }
{
    let mut request = old;
    let mut k = stages.len();
    while k > 0 {
        k -= 1;
        request = asked_in_stage(m, &stages[k], request);
    }
    request
}

// A request after a squash: of a removed thread it is an orphan.
fn left(squasher: Option<u64>, request: Request) -> Request
    ensures { request_view result ≡ stated.request_left squasher (request_view request) }
{
    match request {
        Request::Owned { owner, address } => {
            if is_kept(squasher, owner) {
                Request::Owned { owner, address }
            } else {
                Request::Orphan { address }
            }
        }
        Request::NoRequest => Request::NoRequest,
        Request::Orphan { address } => Request::Orphan { address },
    }
}

// The request of memory m after a cycle, in which it is answered or not.
fn next_request(
    m: usize,
    stages: &[Stage],
    squasher: Option<u64>,
    answered: bool,
    old: Request,
) -> Request
    ensures { request_view result ≡ request_after m (acts_of 0 stages.now) squasher answered
        (request_view old) }
{
    let open = if answered { Request::NoRequest } else { old };
    left(squasher, asked_by(m, stages, open))
}

/// The requests of all memories after a cycle.
pub fn step_requests(
    pipe: &FlatPipe,
    replies: &[bool],
    stages: &[Stage],
    squasher: Option<u64>,
    requests: &mut [Request],
)
    ensures { map request_view requests.new
        ≡ requests_after (form pipe.now).pipe replies.now (acts_of 0 stages.now) squasher 0
        (map request_view requests.old) }
{
    for m in 0..requests.len() {
        let answered = is_answered(pipe, replies, m);
        let request = next_request(m, stages, squasher, answered, requests[m]);
        requests[m] = request;
    }
}

// The address for which these delayed reads ask memory m first, else this.
fn address_of(m: usize, asks: &[Ask], rest: Option<Word>) -> Option<Word>
    ensures { result ≡ stated.address_of m (map ask_view asks.now) rest }
{
    for ask in asks {
        if ask.mem == m {
            return Some(ask.address);
        }
    }
    rest
}

// The same of the thread that moves out of a stage, if one does.
fn address_in_stage(m: usize, stage: &Stage, rest: Option<Word>) -> Option<Word>
    ensures { (k : ℕ) → result ≡ address_by m (act_of k (mover_of stage.now) stage.now) rest }
{
    match mover(stage) {
        None => rest,
        Some(_) => address_of(m, stage.deeds.asks.as_slice(), rest),
    }
}

// The address for which a thread that moves asks memory m, if one does.
fn address_asked(m: usize, stages: &[Stage]) -> Option<Word>
    ensures { result ≡ address_by m (acts_of 0 stages.now) None }
{
    let mut address = None;
    let mut k = stages.len();
    while k > 0 {
        k -= 1;
        address = address_in_stage(m, &stages[k], address);
    }
    address
}

// Shows of a delayed memory whether it is asked, and the address, 0 where it isn't.
fn show_request(mem: &FlatMem, address: Option<Word>, shown: &mut Vec<Word>)
    requires room { vec_len shown.old + 2 ≤ vec_capacity shown.old }
    ensures shown { shown.new.items
        ≡ shown.old.items ++ (if is_delayed (mem_view mem.now).kind then request_values address else []) }
    ensures count { vec_len shown.new ≤ vec_len shown.old + 2 }
    ensures capacity { vec_capacity shown.new ≡ vec_capacity shown.old }
{
    if mem.kind.is_delayed() {
        shown.push_reserved(Word::from(address.is_some()));
        shown.push_reserved(address.unwrap_or(0));
    }
}

/// Shows the requests of all delayed memories.
pub fn show_requests(mems: &[FlatMem], stages: &[Stage], shown: &mut Vec<Word>)
    requires room { vec_len shown.old + 2 * length mems.now ≤ vec_capacity shown.old }
    ensures shown { shown.new.items
        ≡ shown.old.items ++ requests_shown 0 (acts_of 0 stages.now) (mems_view mems.now) }
    ensures capacity { vec_capacity shown.new ≡ vec_capacity shown.old }
{
    for m in 0..mems.len() {
        show_request(&mems[m], address_asked(m, stages), shown);
    }
}

// Whether a request is outstanding.
fn is_outstanding(request: Request) -> bool
    ensures { result ≡ stated.is_outstanding (request_view request) }
{
    match request {
        Request::NoRequest => false,
        Request::Owned { .. } | Request::Orphan { .. } => true,
    }
}

/// Whether some request is outstanding that isn't answered in a cycle with these replies.
pub fn waits(pipe: &FlatPipe, replies: &[bool], requests: &[Request]) -> bool
    ensures { result ≡ stated.waits_from (form pipe.now).pipe replies.now 0
        (map request_view requests.now) }
{
    for m in 0..requests.len() {
        if is_outstanding(requests[m]) && !is_answered(pipe, replies, m) {
            return true;
        }
    }
    false
}
