// The parts of a pipe round its body.
ghost use Rattle.std.specs.Prelude.{◌≡◌, map, unwrap_or, IfOk};
ghost use Rattle.pdl_semantics.specs.Flatten as spec;
ghost use Rattle.pdl_syntax_tree.specs.View as tree;
ghost use Rattle.pdl_form.specs.View.{mem_view, mems_view, lock_view, mem_names};
ghost use Rattle.pdl_form.specs.Form.{names_of};
ghost use Rattle.pdl_form_lower.specs.Sized.{IsSizedLock, IsSizedMem, AreSizedMems};
ghost use Rattle.pdl_form_lower.specs.Lowerable.{AreLowerableParams};

use crate::vars::Vars;
use pdl_form::{FlatMem, Lock};
use pdl_kit::NoMemory;
use pdl_rules_widths::Variables;
use pdl_syntax_tree::{Literal, LockDecl, LockKind, Mem as Tree, Param};
use pdl_word::Word;
use std::alloc::Global;

/// The parameters as variables of this table.
pub fn params<'v>(
    alloc: Global,
    table: &'v Variables,
    params: &[Param],
) -> Result<Vars<'v>, NoMemory>
    requires { AreLowerableParams table.now (map tree.param_view params.now) }
    ensures vars { IfOk result (λ vs. vs.vars ≡ spec.params_of (map tree.param_view params.now)) }
    ensures table { IfOk result (λ vs. vs.table ≡ table.now) }
{
    let mut vars = Vars::new(alloc, table)?;
    for param in params {
        vars.define(&param.name.name, param.width.value as u8, false)?;
    }
    Ok(vars)
}

fn lock(lock: Option<LockDecl>) -> Lock
    requires { IsSizedLock (tree.maybe_lock_view lock) }
    ensures { lock_view result ≡ spec.flat_lock (tree.maybe_lock_view lock) }
{
    match lock {
        None => Lock::Plain,
        Some(lock) => {
            let size = lock.size.value as u8;
            match lock.kind {
                LockKind::Queue => Lock::Queue(size),
                LockKind::Bypass => Lock::Bypass(size),
                LockKind::Rename => Lock::Rename(size),
            }
        }
    }
}

fn memory(mem: &Tree) -> Result<FlatMem, NoMemory>
    requires { IsSizedMem (tree.mem_view mem.now) }
    ensures view { IfOk result (λ m.
        mem_view m ≡ record {
          width = mem.now.width.value;
          depth = mem.now.depth.value;
          kind = tree.mem_kind_view mem.now.kind;
          lock = spec.flat_lock (tree.maybe_lock_view mem.now.lock);
        }) }
    ensures name { IfOk result (λ m. m.name ≡ mem.now.name.name) }
{
    let lock = lock(mem.lock);
    Ok(FlatMem {
        name: mem.name.name.clone()?,
        width: mem.width.value as u8,
        depth: mem.depth.value as u32,
        kind: mem.kind,
        lock,
    })
}

/// The memories.
pub fn memories(alloc: Global, mems: &[Tree]) -> Result<Vec<FlatMem>, NoMemory>
    requires { AreSizedMems (map tree.mem_view mems.now) }
    ensures view { IfOk result (λ ms.
        mems_view ms.items ≡ spec.mems_of (map tree.mem_view mems.now)) }
    ensures names { IfOk result (λ ms. mem_names ms.items ≡ names_of (map tree.mem_view mems.now)) }
{
    let mut memories = Vec::new(alloc);
    for mem in mems {
        memories.push(memory(mem)?)?;
    }
    Ok(memories)
}

/// The start arguments.
pub fn start(alloc: Global, args: &[Literal]) -> Result<Vec<Word>, NoMemory>
    ensures { IfOk result (λ vs. vs.items ≡ spec.start_of (map tree.literal_view args.now)) }
{
    let mut start = Vec::new(alloc);
    for arg in args {
        start.push(value_of(arg))?;
    }
    Ok(start)
}

fn value_of(arg: &Literal) -> Word
    ensures { result ≡ unwrap_or arg.now.value 0 }
{
    arg.value.unwrap_or(0)
}
