// What rules ask of the memories of a pipe, by their names.
ghost use Rattle.std.specs.Prelude.{◌≡◌, map};
ghost use Rattle.pdl_syntax_tree.specs.View.{mem_view};
ghost use Rattle.pdl_rules.specs.Locks as locks;

use pdl_kit::Name;
use pdl_syntax_tree::Mem;

/// Whether the memory of this name has a lock.
pub fn is_locked(mems: &[Mem], name: &Name) -> bool
    ensures { result ≡ locks.is_locked (map mem_view mems.now) name.now }
{
    for mem in mems {
        if mem.name.name == *name {
            return mem.lock.is_some();
        }
    }
    false
}
