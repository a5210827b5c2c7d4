// What an accepted source lends of its guards and of the stages of its locks.
use pdl_check::Accepted;
use pdl_check::check::check;
use std::alloc::Global;
use std::mem::drop;

// Nothing reserves the second memory, and nothing verifies.
const SOURCE: &[u8] = b"pipe p(n: uint<4>)[
m: uint<8>[4] comb lock queue(1),
k: uint<8>[4] comb lock queue(1)
] {
a = n[1:0];
g = n[0:0];
v = zext(n, 8);
reserve(m[a], W);
call(n + 4'd1);
if (g) { b = n; }
---
block(m[a]);
m[a] <- v;
release(m[a]);
} start p(4'd0);
";

// How many guards there are, the stages of the reserves and of the releases of both memories, and that of the verifies.
type Told = (usize, [Option<usize>; 4], Option<usize>);

fn told(accepted: &Accepted) -> Told {
    let locks = accepted.locks();
    (
        accepted.guards().len(),
        [
            locks.reserved(0),
            locks.released(0),
            locks.reserved(1),
            locks.released(1),
        ],
        accepted.spec().verified(),
    )
}

fn told_of(alloc: Global, source: &[u8]) -> Option<Told> {
    if source.len() > 1000 {
        return None;
    }
    match check(alloc, source) {
        Ok(accepted) => {
            let lent = told(&accepted);
            drop(accepted);
            Some(lent)
        }
        Err(_) => None,
    }
}

#[test]
fn lends_plans(rt: HostRuntime) {
    let wanted = (1, [Some(0), Some(1), None, None], None);
    assert!(rt; told_of(rt.alloc(), SOURCE) == Some(wanted));
}
