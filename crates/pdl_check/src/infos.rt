// The memories of a pipe as they are told to later steps.
ghost use Rattle.std.specs.Prelude.{◌≡◌, IfOk, map};
ghost use Rattle.pdl_syntax_tree.specs.View.{mem_view};
ghost use Rattle.pdl_form_lower.specs.Sized.{AreSizedMems, IsSizedMem};
ghost use Rattle.pdl_rules.specs.Memories as spec;

use pdl_kit::{MemInfo, NoMemory, Seq};
use pdl_syntax_tree::tree::Mem;
use std::alloc::Global;

/// The memories as later steps are told them, in declared order.
pub fn infos_of(alloc: Global, mems: &[Mem]) -> Result<Seq<MemInfo>, NoMemory>
    requires { AreSizedMems (map mem_view mems.now) }
    ensures { IfOk result (λ infos. infos ≡ spec.infos_of (map mem_view mems.now)) }
{
    let mut infos = Vec::new(alloc);
    for mem in mems {
        infos.push(info_of(mem)?)?;
    }
    Ok(Seq::from_vec(infos))
}

fn info_of(mem: &Mem) -> Result<MemInfo, NoMemory>
    requires { IsSizedMem (mem_view mem.now) }
    ensures { IfOk result (λ info. info ≡ spec.info_of (mem_view mem.now)) }
{
    let name = mem.name.name.clone()?;
    Ok(MemInfo {
        name,
        width: mem.width.value as u8,
        depth: mem.depth.value as u32,
        delayed: mem.kind.is_delayed(),
    })
}
