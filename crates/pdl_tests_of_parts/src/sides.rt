// The circuits beside the stages, each in a netlist of its own that is driven at random, against a port, an order and a squash that are written by hand.
mod bits;
mod orders;
mod ports;
mod squashes;

use crate::sides::orders::orders_agree;
use crate::sides::ports::ports_agree;
use crate::sides::squashes::squashes_agree;
use pdl_kit::NoMemory;

#[test]
fn order_as_list(rt: HostRuntime) -> Result<(), NoMemory> {
    let alloc = rt.alloc();
    assert!(rt; orders_agree(alloc, 1) == Ok(400));
    assert!(rt; orders_agree(alloc, 2) == Ok(400));
    assert!(rt; orders_agree(alloc, 5) == Ok(400));
    assert!(rt; orders_agree(alloc, 63) == Ok(400));
    Ok(())
}

#[test]
fn port_by_hand(rt: HostRuntime) -> Result<(), NoMemory> {
    let alloc = rt.alloc();
    assert!(rt; ports_agree(alloc, 1) == Ok(400));
    assert!(rt; ports_agree(alloc, 2) == Ok(400));
    Ok(())
}

#[test]
fn squash_by_hand(rt: HostRuntime) -> Result<(), NoMemory> {
    let alloc = rt.alloc();
    assert!(rt; squashes_agree(alloc, 1, 0) == Ok(200));
    assert!(rt; squashes_agree(alloc, 4, 3) == Ok(200));
    assert!(rt; squashes_agree(alloc, 6, 2) == Ok(200));
    Ok(())
}
