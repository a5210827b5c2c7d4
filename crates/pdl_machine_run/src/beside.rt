// What stands beside the stages.
ghost use Rattle.std.specs.Prelude.{◌≡◌, [], slice_index_or};
ghost use Rattle.pdl_semantics.specs.Machine as machine;
ghost use Rattle.pdl_machine_run.specs.View.{request_view, order_views};
ghost use Rattle.pdl_machine_run.specs.Outside.{outside};

use pdl_machine_pending::Memory;
use pdl_word::Word;

/// Whether a request of a delayed memory is outstanding: none, one with its owner and its address, or an orphan, whose owner was removed.
#[derive(Clone, Copy)]
pub enum Request {
    NoRequest,
    Owned { owner: u64, address: Word },
    Orphan { address: Word },
}

/// The branches taken by the threads inside a fork, oldest first; true is the first branch.
#[derive(Drop)]
pub struct Order {
    pub branches: Vec<bool>,
}

/// The memories with their pending writes, whether some path reserves each twice to write, their requests, and for each stage the order of those inside the fork that it begins.
#[derive(Drop)]
pub struct Beside {
    pub memories: Vec<Memory>,
    pub twice: Vec<bool>,
    pub requests: Vec<Request>,
    pub orders: Vec<Order>,
}

/// The request of a memory.
pub fn request_of(beside: &Beside, m: usize) -> Request
    ensures { request_view result ≡ machine.request_of (outside beside.now) m }
{
    match beside.requests.as_slice().get(m) {
        None => Request::NoRequest,
        Some(request) => *request,
    }
}

/// Lends the branches taken by those inside the fork of a stage.
pub fn fork_of(orders: &[Order], f: usize) -> &[bool]
    ensures { result.now ≡ slice_index_or (order_views orders.now) f [] }
{
    match orders.get(f) {
        None => &[],
        Some(order) => order.branches.as_slice(),
    }
}
