// Memories by number.
ghost use Rattle.std.specs.Prelude.{◌≡◌, ◌≤◌, map};
ghost use Rattle.pdl_semantics.specs.Flatten as spec;
ghost use Rattle.pdl_syntax_tree.specs.View.{mem_view};
ghost use Rattle.pdl_form_lower.specs.Sized.{AreSizedMems};
ghost use Rattle.pdl_word.specs.Words.{widest};

use pdl_kit::Name;
use pdl_syntax_tree::Mem;

/// The number of a memory, or how many there are where none has the name.
pub fn mem_of(mems: &[Mem], name: &Name) -> usize
    ensures { result ≡ spec.mem_of (map mem_view mems.now) name.now }
{
    let mut number = 0;
    for mem in mems {
        if mem.name.name == *name {
            return number;
        }
        number += 1;
    }
    number
}

/// The width of a memory's words in bits, 0 where there is none of that name.
pub fn mem_width(mems: &[Mem], name: &Name) -> u8
    requires { AreSizedMems (map mem_view mems.now) }
    ensures value { result ≡ spec.mem_width (map mem_view mems.now) name.now }
    ensures small { result ≤ widest }
{
    for mem in mems {
        if mem.name.name == *name {
            return mem.width.value as u8;
        }
    }
    0
}
