// What an accepted source lends of its variables.
use pdl_check::check::check;
use pdl_kit::Name;
use std::alloc::Global;
use std::mem::drop;

const SOURCE: &[u8] =
    b"pipe p(n: uint<4>)[m: uint<8>[4] comb lock queue(1)] {\na = n[1:0];\nv = zext(n, 8);\nreserve(m[a], W);\nblock(m[a]);\nm[a] <- v;\nrelease(m[a]);\ncall(n + 4'd1);\n} start p(4'd0);\n";

// The width of a variable of a source, where this is accepted.
fn width_of(alloc: Global, source: &[u8], variable: &Name) -> Option<u8> {
    if source.len() > 1000 {
        return None;
    }
    match check(alloc, source) {
        Ok(accepted) => {
            let width = accepted.typed().width(variable);
            drop(accepted);
            width
        }
        Err(_) => None,
    }
}

// The same of a variable with this name.
fn width(alloc: Global, source: &[u8], variable: &[u8]) -> Option<u8> {
    match Name::copy_of(alloc, variable) {
        Ok(name) => width_of(alloc, source, &name),
        Err(_) => None,
    }
}

#[test]
fn lends_widths(rt: HostRuntime) {
    assert!(rt; width(rt.alloc(), SOURCE, b"v") == Some(8));
    assert!(rt; width(rt.alloc(), SOURCE, b"w").is_none());
}
