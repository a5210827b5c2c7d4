// Memories by their names: their depths, their words and their addresses.
ghost use Rattle.std.specs.Prelude.{◌≡◌, map};
ghost use Rattle.pdl_syntax_tree.specs.View.{mem_view};
ghost use Rattle.pdl_semantics.specs.Flatten as flatten;
ghost use Rattle.pdl_rules.specs.Widths as widths;

use pdl_kit::Name;
use pdl_syntax_tree::Mem;

/// How many words a memory has, 0 where there is none of that name.
pub fn mem_depth(mems: &[Mem], name: &Name) -> u64
    ensures { result ≡ widths.mem_depth (map mem_view mems.now) name.now }
{
    for mem in mems {
        if mem.name.name == *name {
            return mem.depth.value;
        }
    }
    0
}

// The depths that a memory may have.
const DEPTHS: [u64; 16] = [
    2, 4, 8, 16, 32, 64, 128, 256, 512, 1024, 2048, 4096, 8192, 16384, 32768, 65536,
];

/// The bits of an address of a memory with this depth.
pub fn address_bits(depth: u64) -> u128
    ensures { result ≡ widths.address_bits depth }
{
    DEPTHS.iter().filter(|n| **n <= depth).count() as u128
}

/// The width of a memory's words in bits, 0 where there is none of that name.
pub fn mem_width(mems: &[Mem], name: &Name) -> u128
    ensures { result ≡ flatten.mem_width (map mem_view mems.now) name.now }
{
    for mem in mems {
        if mem.name.name == *name {
            return mem.width.value as u128;
        }
    }
    0
}
