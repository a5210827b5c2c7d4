//! Where the ring stands in a circuit.
ghost use Rattle.std.specs.Prelude.{◌≡◌, ◌^◌, ◌<◌, ◌≤◌, length};
ghost use Rattle.pdl_lock_ring.specs.Slots.{layout_of, ticket_bits, IsMemDepth};

use pdl_lockapi::LockRegs;

/// What the last register of a slot holds: the value of its pending write, or the place of the value in an array.
#[derive(Clone, Copy)]
pub enum Content {
    Value,
    Place,
}

/// The registers of the ring: the ticket of the oldest pending write, the next ticket, then the addresses of all slots, whether they have their values, and what they hold; and an array of words.
#[derive(Clone, Copy)]
pub struct RingLayout {
    /// How many slots there are.
    pub size: usize,
    /// The bits of a ticket.
    pub ticket: u8,
    /// The bits of a word.
    pub width: u8,
    /// The bits of what a slot holds.
    pub kept: u8,
    /// The bits of an address.
    pub bits: u8,
    /// The first register.
    pub from: usize,
    /// The array; a delayed memory has none.
    pub array: Option<usize>,
    pub content: Content,
}

impl RingLayout {
    /// The layout of so many slots that keep values, whose registers are these.
    pub fn of(size: u8, r: &LockRegs) -> RingLayout
        requires { 0 < length r.now.regs }
        ensures { result ≡ layout_of size r.now }
    {
        RingLayout {
            size: size as usize,
            ticket: ticket_width(size),
            width: r.width,
            kept: r.width,
            bits: r.bits,
            from: r.regs.as_slice()[0],
            array: r.array,
            content: Content::Value,
        }
    }
}

/// The bits of a ticket, which is a number modulo twice the size.
pub fn ticket_width(size: u8) -> u8
    ensures { result ≡ ticket_bits size }
{
    match size {
        1 => 1,
        2 => 2,
        4 => 3,
        8 => 4,
        _ => 5,
    }
}

/// The bits of an address of a memory of this depth, 1 to 16.
pub fn address_bits(depth: u32) -> u8
    requires { IsMemDepth depth }
    ensures power { 2 ^ result ≡ depth }
    ensures low { 1 ≤ result }
    ensures high { result ≤ 16 }
{
    depth.ilog2() as u8
}
