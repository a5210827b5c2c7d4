// Memories by their names.
ghost use Rattle.std.specs.Prelude.{◌≡◌, map};
ghost use Rattle.pdl_semantics.specs.Flatten.{is_advisory_mem};
ghost use Rattle.pdl_syntax_tree.specs.View.{mem_view};

use crate::tree::Mem;
use pdl_kit::Name;

/// Whether the memory of this name is advisory; where none has the name, it isn't.
pub fn is_advisory(mems: &[Mem], name: &Name) -> bool
    ensures { result ≡ is_advisory_mem (map mem_view mems.now) name.now }
{
    for mem in mems {
        if mem.name.name == *name {
            return mem.kind.is_advisory();
        }
    }
    false
}
